//! Stacks.

ghost use Rattle.std.specs.Prelude.{◌≡◌, ◌%◌, ◌^◌, [], ◌∷◌, ◌++◌, length, slice_get, MatchOption};
ghost use Rattle.std.specs.Option.{option_copied};

use crate::list::List;
use crate::parcel::Parcel;
use std::alloc::Global;
use std::marker::Model;
use vt_nodes::Trail;

/// A stack of items, each in a node of its own. Contracts see the list of the items, the top first.
///
/// It holds the same parcels as a list. A call reads and writes only the top node: nodes are linked one way, so the
/// node below it needs no change. So taking from a stack touches only the memory that is taken.
///
/// No call takes memory. A stack that is dropped drops each item once and frees each node, in a loop and not by
/// recursion.
pub struct Stack<T> {
    alloc: Global,
    // The number of items, modulo 2^64.
    count: usize,
    trail: Trail<T>,
}

impl<T> Model for Stack<T> {
    ghost use Rattle.std.specs.Prelude.{List, length, ◌≡◌, ◌%◌, ◌^◌};

    ghost Value = { List T };

    ghost view = { λ s. s.trail };

    ghost invariant = { λ s. s.count ≡ length s.trail % 2 ^ 64 };
}

impl<T: Drop> Drop for Stack<T> {
    fn drop(mut self) {
        while let Some(parcel) = self.pop() {
            drop(parcel);
        }
        let Stack {
            alloc: _,
            count: _,
            trail,
        } = self;
        trail.end();
    }
}

impl<T: Drop> Stack<T> {
    /// An empty stack.
    pub fn new(alloc: Global) -> Stack<T>
        ensures { result ≡ [] }
    {
        Stack {
            alloc,
            count: 0,
            trail: Trail::new(),
        }
    }

    /// Puts the item on top of all others. It writes only the item's node.
    pub fn push(&mut self, parcel: Parcel<T>)
        ensures { self.new ≡ parcel ∷ self.old }
    {
        let trail = self.trail.take();
        self.trail.put(trail.with_first(parcel.into_node()));
        self.count = self.count.wrapping_add(1);
    }

    /// Puts the items of a list on top of all others, the first one on top. The list is empty afterwards. It writes only
    /// the node of the list's last item.
    pub fn push_all(&mut self, list: &mut List<T>)
        ensures { (self.new ≡ list.old ++ self.old) × (list.new ≡ []) }
    {
        let trail = self.trail.take();
        self.trail.put(trail.with_chain(list.chain.take()));
        self.count = self.count.wrapping_add(list.count);
        list.count = 0;
    }

    /// Takes out the item on top; None if the stack is empty. It reads only that item's node.
    pub fn pop(&mut self) -> Option<Parcel<T>>
        ensures { MatchOption result ((self.old ≡ []) × (self.new ≡ [])) (λ p. self.old ≡ p ∷ self.new) }
    {
        let (first, others) = self.trail.take().split_first(self.alloc);
        self.trail.put(others);
        let node = first?;
        self.count = self.count.wrapping_sub(1);
        Some(Parcel { node })
    }
}

impl<T> Stack<T> {
    /// The number of items, modulo 2^64. It reads a counter, which wraps round like that of a list.
    pub fn len(&self) -> usize
        ensures { result ≡ length self.now % 2 ^ 64 }
    {
        self.count
    }

    /// The item on top; None if the stack is empty.
    pub fn top(&self) -> Option<&T>
        ensures { option_copied result ≡ slice_get self.now 0 }
    {
        self.trail.first()
    }
}
