//! Lists that are linked one way.

ghost use Rattle.std.specs.Prelude.{◌≡◌, ◌↔◌, [], ◌∷◌, ◌++◌, slice_get, find, MatchOption, IsTrue};
ghost use Rattle.std.specs.Option.{option_copied};
ghost use Rattle.vt_key.specs.promise.Queues.{without_first};
ghost use Rattle.vt_nodes.specs.inside.First.{before_first, from_first};

use crate::iter::Iter;
use crate::parcel::Parcel;
use std::alloc::Global;
use std::marker::Model;
use vt_nodes::{Beginning, Predicate, Trail, part_at_first};

/// A list of items that is linked one way, in one word. Contracts see the list of the items.
///
/// It holds the same parcels as a [`List`](crate::List). A walk reads one link of each node that it passes. A call
/// writes two nodes at most: the one that it puts in or takes out, and the one before it.
///
/// No call takes memory. A line that is dropped drops each item once and frees each node, in a loop and not by
/// recursion.
pub struct Line<T> {
    pub(crate) alloc: Global,
    pub(crate) trail: Trail<T>,
}

impl<T> Model for Line<T> {
    ghost use Rattle.std.specs.Prelude.{List};

    ghost Value = { List T };

    ghost view = { λ l. l.trail };
}

impl<T: Drop> Drop for Line<T> {
    fn drop(mut self) {
        while let Some(parcel) = self.pop_front() {
            drop(parcel);
        }
        let Line { alloc: _, trail } = self;
        trail.end();
    }
}

impl<T: Drop> Line<T> {
    /// An empty list.
    pub fn new(alloc: Global) -> Line<T>
        ensures { result ≡ [] }
    {
        Line {
            alloc,
            trail: Trail::new(),
        }
    }

    /// The nodes.
    pub(crate) fn into_trail(self) -> Trail<T>
        ensures { result ≡ self }
    {
        let Line { alloc: _, trail } = self;
        trail
    }

    /// Puts the item in front of all others. It writes only the item's node.
    pub fn push_front(&mut self, parcel: Parcel<T>)
        ensures { self.new ≡ parcel ∷ self.old }
    {
        let trail = self.trail.take();
        self.trail.put(trail.with_first(parcel.into_node()));
    }

    /// Takes out the first item; None if the line is empty. It reads only that item's node.
    pub fn pop_front(&mut self) -> Option<Parcel<T>>
        ensures { MatchOption result ((self.old ≡ []) × (self.new ≡ [])) (λ p. self.old ≡ p ∷ self.new) }
    {
        let (first, others) = self.trail.take().split_first(self.alloc);
        self.trail.put(others);
        let node = first?;
        Some(Parcel { node })
    }

    /// Takes out the first item that passes the test; None if none passes. It walks there from the front.
    pub fn remove_first<P: Predicate<T>>(&mut self, test: &P) -> Option<Parcel<T>>
        ensures item { result ≡ find (P.passes test.now) self.old }
        ensures others { self.new ≡ without_first (P.passes test.now) self.old }
    {
        let (before, from) = part_at_first(self.trail.take(), test);
        let (found, after) = from.split_first(self.alloc);
        self.trail.put(before.join(after));
        let node = found?;
        Some(Parcel { node })
    }
}

impl<T> Line<T> {
    /// Takes out the items before the first one that passes the test. [`Line::join`] puts them back. It writes no node.
    pub fn pass<P: Predicate<T>>(&mut self, test: &P) -> Beginning<T>
        ensures passed { result ≡ before_first (P.passes test.now) self.old }
        ensures others { self.new ≡ from_first (P.passes test.now) self.old }
        ensures whole { self.old ≡ result ++ self.new }
    {
        let (passed, ahead) = part_at_first(self.trail.take(), test);
        self.trail.put(ahead);
        passed
    }

    /// Puts the items in front of all others. It writes only the last of their nodes.
    pub fn join(&mut self, passed: Beginning<T>)
        ensures { self.new ≡ passed ++ self.old }
    {
        let trail = self.trail.take();
        self.trail.put(passed.join(trail));
    }

    /// Whether there is no item.
    pub fn is_empty(&self) -> bool
        ensures { IsTrue result ↔ (self.now ≡ []) }
    {
        self.trail.is_empty()
    }

    /// The first item; None if the line is empty.
    pub fn front(&self) -> Option<&T>
        ensures { option_copied result ≡ slice_get self.now 0 }
    {
        self.trail.first()
    }

    /// An iterator over the items from the front.
    pub fn iter(&self) -> Iter<'_, T>
        ensures { result ≡ self.now }
    {
        Iter::along(&self.trail)
    }

    /// The first item that passes the test; None if none passes.
    pub fn find<P: Predicate<T>>(&self, test: &P) -> Option<&T>
        ensures { option_copied result ≡ find (P.passes test.now) self.now }
    {
        self.iter().first_passing(test)
    }
}
