//! The letters that leave a worker's processes, by the worker that receives them.

ghost use Rattle.std.specs.Prelude.{◌≡◌, ℕ, ◌%◌, ◌^◌, ◌<◌, ◌≤◌, List as Items, [], ◌∷◌, ◌++◌, true, false, not, length, filter, find, IfOk, IfErr, IfSome, IfNone};
ghost use Rattle.std.specs.List.{list_any};
ghost use Rattle.std.specs.Option.{option_copied};
ghost use Rattle.vt_key.specs.promise.Queues.{without_first};
ghost use Rattle.vt_key.specs.declared.fault.Fault.TheVariants.{Memory};
ghost use Rattle.vt_key.specs.declared.letter.Letter.{Letter as LetterValue};
ghost use Rattle.vt_steps.specs.promise.Letters.{least_time};
ghost use Rattle.vt_steps.specs.promise.PartSteps.{is_for};
ghost use Rattle.vt_steps.specs.promise.CellSteps.{may_send};

use std::alloc::Global;
use std::marker::Model;
use std::mem;
use std::snapshot::Snapshot;
use vt_key::{Fault, Letter, Seen, When};
use vt_list::{List, Parcel};
use vt_model::Config;

/// The letters that a worker's processes have sent and that have not left its outbox. A list for each worker has those for its processes, so
/// no call passes over letters for others.
///
/// Contracts see all letters in the order in which they came, and the config by whose workers they are sorted (`HeldOutbox`).
#[derive(Drop)]
pub struct Outbox<P: Copy> {
    config: Config,
    // List v has the letters for processes of worker v.
    lists: Vec<List<Letter<P>>>,
    // The number of letters, modulo 2^64.
    count: usize,
    // All letters, in the order in which they came.
    all: Seen<Letter<P>>,
}

impl<P: Copy> Model for Outbox<P> {
    ghost use Rattle.vt_outbox.specs.inside.Outbox.{HeldOutbox, IsSorted};

    ghost Value = { HeldOutbox P };

    ghost view = { λ o. record { config = o.config; letters = o.all.items } };

    ghost invariant = { λ o. IsSorted o.config o.lists.items o.count o.all.items };
}

impl<P: Copy> Outbox<P> {
    /// An outbox without letters, for the workers of a config.
    ///
    /// [`Fault::Memory`]: memory was refused.
    pub fn new(alloc: Global, config: Config) -> Result<Outbox<P>, Fault>
        ensures empty { IfOk result (λ o. o ≡ record { config = config; letters = [] }) }
        ensures refused { IfErr result (λ fault. fault ≡ Memory) }
    {
        let mut lists = Vec::new(alloc);
        for _ in 0..config.workers {
            let Ok(()) = lists.push(List::new(alloc)) else {
                return Err(Fault::Memory);
            };
        }
        Ok(Outbox {
            config,
            lists,
            count: 0,
            all: Seen::picked(),
        })
    }

    /// Puts letters behind all others, in their order.
    pub fn put(&mut self, letters: List<Letter<P>>)
        ensures { self.new ≡ record self.old { letters = self.old.letters ++ letters } }
    {
        let mut letters = letters;
        while let Some(letter) = letters.pop_front() {
            self.push(letter);
        }
    }

    /// Puts a letter behind all others. The caller picks the list of all letters after that.
    pub fn push(&mut self, letter: Parcel<Letter<P>>)
        ghost letters: { Items (LetterValue P) }
        requires all { letters ≡ self.old.letters ++ letter ∷ [] }
        ensures { self.new ≡ record self.old { letters = letters } }
    {
        let v = self.config.owner(letter.get().event.dest) as usize;
        self.lists[v].push_back(letter);
        self.count = self.count.wrapping_add(1);
        self.all = Seen::picked();
    }

    /// Takes out the first letter for a process of worker `v`; None if there is none. The caller picks the list of the letters
    /// that are left.
    pub fn pop_for(&mut self, v: u32) -> Option<Parcel<Letter<P>>>
        ghost letters: { Items (LetterValue P) }
        requires known { v < self.old.config.workers }
        requires left { letters ≡ without_first (is_for self.old.config.workers v) self.old.letters }
        ensures letter { result ≡ find (is_for self.old.config.workers v) self.old.letters }
        ensures left { self.new ≡ record self.old { letters = letters } }
    {
        let letter = self.lists[v as usize].pop_front()?;
        self.count = self.count.wrapping_sub(1);
        self.all = Seen::picked();
        Some(letter)
    }

    /// Puts back the letter that [`Outbox::pop_for`] took out, so that the outbox is as it was before. The caller picks the
    /// list of all letters.
    pub fn put_back(&mut self, v: u32, letter: Parcel<Letter<P>>, before: &Snapshot<Outbox<P>>)
        ghost letters: { Items (LetterValue P) }
        requires known { v < self.old.config.workers }
        requires all { letters ≡ before.now.value.letters }
        requires found { find (is_for self.old.config.workers v) before.now.value.letters ≡ Some letter }
        requires left { self.old ≡ record before.now.value { letters = without_first (is_for self.old.config.workers v) before.now.value.letters } }
        ensures { self.new ≡ before.now.value }
    {
        self.lists[v as usize].push_front(letter);
        self.count = self.count.wrapping_add(1);
        self.all = Seen::picked();
    }

    /// Takes out all letters for processes of worker `v`. The caller picks the list of the letters that are left.
    pub fn take_for(&mut self, v: u32, alloc: Global) -> List<Letter<P>>
        ghost letters: { Items (LetterValue P) }
        requires known { v < self.old.config.workers }
        requires left { letters ≡ filter (λ letter. not (is_for self.old.config.workers v letter)) self.old.letters }
        ensures taken { result ≡ filter (is_for self.old.config.workers v) self.old.letters }
        ensures left { self.new ≡ record self.old { letters = letters } }
    {
        let taken = mem::replace(&mut self.lists[v as usize], List::new(alloc));
        self.count = self.count.wrapping_sub(taken.len());
        self.all = Seen::picked();
        taken
    }

    /// The number of letters, modulo 2^64.
    pub fn len(&self) -> usize
        ensures { result ≡ length self.now.letters % 2 ^ 64 }
    {
        self.count
    }

    /// Whether there is a letter for a process of worker `v`.
    pub fn has_for(&self, v: u32) -> bool
        ensures { result ≡ list_any (is_for self.now.config.workers v) self.now.letters }
    {
        let Some(list) = self.list_for(v) else {
            return false;
        };
        !list.is_empty()
    }

    /// The first worker from number `v` on, other than worker `own`, for whose processes there is a letter; None if there is none. Worker
    /// `own` may send to it.
    pub fn receiver_from(&self, own: u32, v: u32) -> Option<u32>
        ensures first { IfSome result (λ u. (v ≤ u) × (u < self.now.config.workers) × (may_send self.now.config.workers own u self.now.letters ≡ true) × ((k : ℕ) → v ≤ k → k < u → may_send self.now.config.workers own k self.now.letters ≡ false)) }
        ensures nobody { IfNone result ((k : ℕ) → v ≤ k → may_send self.now.config.workers own k self.now.letters ≡ false) }
    {
        for u in v..self.config.workers {
            if u != own && self.has_for(u) {
                return Some(u);
            }
        }
        None
    }

    /// The first letter for a process of worker `v`; None if there is none.
    pub fn first_for(&self, v: u32) -> Option<&Letter<P>>
        ensures { option_copied result ≡ find (is_for self.now.config.workers v) self.now.letters }
    {
        let Some(list) = self.list_for(v) else {
            return None;
        };
        list.front()
    }

    /// How many letters are for processes of worker `v`; None if there are more than `most`.
    pub fn count_for(&self, v: u32, most: u64) -> Option<u64>
        ensures count { IfSome result (λ n. (n ≡ length (filter (is_for self.now.config.workers v) self.now.letters)) × (n ≤ most)) }
        ensures more { IfNone result (most < length (filter (is_for self.now.config.workers v) self.now.letters)) }
    {
        let Some(list) = self.list_for(v) else {
            return Some(0);
        };
        count_up_to(list, most)
    }

    // The letters for processes of worker `v`; None if there is no such worker.
    fn list_for(&self, v: u32) -> Option<&List<Letter<P>>>
        ensures letters { IfSome result (λ list. list.now ≡ filter (is_for self.now.config.workers v) self.now.letters) }
        ensures unknown { IfNone result (filter (is_for self.now.config.workers v) self.now.letters ≡ []) }
    {
        self.lists.get(v as usize)
    }

    /// The least time of the letters; `end` if there are none.
    pub fn least(&self, end: When) -> When
        ensures { result ≡ least_time end self.now.letters }
    {
        let mut least = end;
        for list in &self.lists {
            least = least.earlier(least_of_letters(list, end));
        }
        least
    }
}

/// How many letters there are; None if there are more than `most`.
fn count_up_to<P: Copy>(letters: &List<Letter<P>>, most: u64) -> Option<u64>
    ensures count { IfSome result (λ n. (n ≡ length letters.now) × (n ≤ most)) }
    ensures more { IfNone result (most < length letters.now) }
{
    let mut count = 0;
    for _ in letters.iter() {
        if count == most {
            return None;
        }
        count += 1;
    }
    Some(count)
}

/// The least time of these letters; the end of the run if there are none.
fn least_of_letters<P: Copy>(letters: &List<Letter<P>>, end: When) -> When
    ensures { result ≡ least_time end letters.now }
{
    let mut least = end;
    for letter in letters.iter() {
        least = least.earlier(letter.event.rank.key.when());
    }
    least
}
