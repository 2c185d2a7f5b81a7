//! Nodes for letters.

ghost use Rattle.std.specs.Prelude.{◌≡◌, ◌+◌, ◌<◌, ◌≤◌, [], length, map, IfOk, IfErr};
ghost use Rattle.vt_key.specs.declared.fault.Fault.TheVariants.{Memory};

use std::alloc::Global;
use std::marker::Model;
use vt_key::{Fault, Letter, Mail};
use vt_list::{List, Parcel, Stack};

/// Nodes that no letter needs, for the next letters. Nothing depends on their old contents.
///
/// Contracts see how many there are.
#[derive(Drop)]
pub(crate) struct Kept<P: Copy> {
    alloc: Global,
    nodes: Stack<Letter<P>>,
}

impl<P: Copy> Model for Kept<P> {
    ghost use Rattle.std.specs.Prelude.{ℕ, length};

    ghost Value = { ℕ };

    ghost view = { λ k. length k.nodes };
}

impl<P: Copy> Kept<P> {
    /// No nodes.
    pub(crate) fn new(alloc: Global) -> Kept<P>
        ensures { result ≡ 0 }
    {
        Kept {
            alloc,
            nodes: Stack::new(alloc),
        }
    }

    /// Takes memory until there are so many nodes. The letter may be any: it stands in new nodes until they are used.
    ///
    /// [`Fault::Memory`]: memory was refused. No node is gone.
    #[inline(always)]
    pub(crate) fn make_room(&mut self, count: usize, any: &Letter<P>) -> Result<(), Fault>
        ensures room { IfOk result (λ _. count ≤ self.new) }
        ensures more { self.old ≤ self.new }
        ensures refused { IfErr result (λ fault. fault ≡ Memory) }
    {
        if self.nodes.len() >= count {
            Ok(())
        } else {
            self.grow(count, any)
        }
    }

    /// Takes memory for so many nodes and some more, so that it is seldom called.
    #[cold]
    #[inline(never)]
    fn grow(&mut self, count: usize, any: &Letter<P>) -> Result<(), Fault>
        ensures room { IfOk result (λ _. count ≤ self.new) }
        ensures more { self.old ≤ self.new }
        ensures refused { IfErr result (λ fault. fault ≡ Memory) }
    {
        for _ in self.nodes.len()..count.saturating_add(32) {
            let Ok(node) = Parcel::new(self.alloc, *any) else {
                return Err(Fault::Memory);
            };
            self.nodes.push(node);
        }
        Ok(())
    }

    /// Puts a letter into a node. There must be one.
    #[inline(always)]
    pub(crate) fn put(&mut self, letter: Letter<P>) -> Parcel<Letter<P>>
        requires some { 0 < self.old }
        ensures letter { result ≡ letter }
        ensures taken { self.old ≡ self.new + 1 }
    {
        let Some(mut node) = self.nodes.pop() else {
            unreachable!();
        };
        node.replace(letter);
        node
    }

    /// Keeps the nodes of letters.
    pub(crate) fn keep_all(&mut self, letters: &mut List<Letter<P>>)
        ensures kept { self.new ≡ self.old + length letters.old }
        ensures none_left { letters.new ≡ [] }
    {
        self.nodes.push_all(letters);
    }

    /// The letters of this mail, in their order. At least `stay` nodes are left, which must be there.
    ///
    /// [`Fault::Memory`]: memory was refused.
    pub(crate) fn letters_of(
        &mut self,
        mails: &[Mail<P>],
        stay: usize,
    ) -> Result<List<Letter<P>>, Fault>
        requires there { stay ≤ self.old }
        ensures letters { IfOk result (λ letters. letters ≡ map (λ mail. mail.letter) mails.now) }
        ensures stay { stay ≤ self.new }
        ensures refused { IfErr result (λ fault. fault ≡ Memory) }
    {
        let mut letters = List::new(self.alloc);
        for mail in mails {
            if self.make_one_more(stay, &mail.letter).is_err() {
                self.keep_all(&mut letters);
                return Err(Fault::Memory);
            }
            letters.push_back(self.put(mail.letter));
        }
        Ok(letters)
    }

    /// Takes memory until there is a node more than so many.
    ///
    /// [`Fault::Memory`]: memory was refused. No node is gone.
    fn make_one_more(&mut self, count: usize, any: &Letter<P>) -> Result<(), Fault>
        ensures room { IfOk result (λ _. count < self.new) }
        ensures more { self.old ≤ self.new }
        ensures refused { IfErr result (λ fault. fault ≡ Memory) }
    {
        let Some(count) = count.checked_add(1) else {
            return Err(Fault::Memory);
        };
        self.make_room(count, any)
    }

    /// Keeps a node.
    #[inline(always)]
    pub(crate) fn keep(&mut self, node: Parcel<Letter<P>>)
        ensures { self.new ≡ self.old + 1 }
    {
        self.nodes.push(node);
    }
}
