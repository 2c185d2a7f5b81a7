//! Lists.

ghost use Rattle.std.specs.Prelude.{◌≡◌, ◌-◌, ◌<◌, ◌%◌, ◌^◌, ◌↔◌, [], ◌∷◌, ◌++◌, length, slice_get, find, remove, reverse, MatchOption, IsTrue};
ghost use Rattle.std.specs.Option.{option_copied};
ghost use Rattle.std_heap.specs.declared.Global.{Global as GlobalHandle};
ghost use Rattle.vt_key.specs.promise.Order.{rank_before};
ghost use Rattle.vt_key.specs.promise.Queues.{without_first, insert_ordered};

use crate::iter::{Iter, IterBack};
use crate::parcel::Parcel;
use std::alloc::Global;
use std::marker::Model;
use vt_key::{Rank, Ranked};
use vt_nodes::{Chain, Predicate, split_at, split_at_first, take_first, take_last};

/// A list of items, each in a node of its own. Contracts see the list of the items.
///
/// No call of a list takes memory: it takes in parcels, which bring their nodes. A list that is dropped drops each
/// item once and frees each node, in a loop and not by recursion.
pub struct List<T> {
    pub(crate) alloc: Global,
    pub(crate) chain: Chain<T>,
    // The number of items, modulo 2^64.
    pub(crate) count: usize,
}

impl<T> Model for List<T> {
    ghost use Rattle.std.specs.Prelude.{List as Items, length, ◌≡◌, ◌%◌, ◌^◌};

    ghost Value = { Items T };

    ghost view = { λ l. l.chain };

    ghost invariant = { λ l. l.count ≡ length l.chain % 2 ^ 64 };
}

impl<T: Drop> Drop for List<T> {
    fn drop(mut self) {
        while let Some(parcel) = self.pop_front() {
            drop(parcel);
        }
        let List {
            alloc: _,
            count: _,
            chain,
        } = self;
        chain.end();
    }
}

impl<T: Drop> List<T> {
    /// An empty list.
    pub fn new(alloc: Global) -> List<T>
        ensures { result ≡ [] }
    {
        List {
            alloc,
            count: 0,
            chain: Chain::new(),
        }
    }

    /// Puts the item in front of all others.
    pub fn push_front(&mut self, parcel: Parcel<T>)
        ensures { self.new ≡ parcel ∷ self.old }
    {
        let chain = self.chain.take();
        self.chain.put(Chain::of(parcel.into_node()).join(chain));
        self.count = self.count.wrapping_add(1);
    }

    /// Puts the item behind all others.
    pub fn push_back(&mut self, parcel: Parcel<T>)
        ensures { self.new ≡ self.old ++ parcel ∷ [] }
    {
        let chain = self.chain.take();
        self.chain.put(chain.join(Chain::of(parcel.into_node())));
        self.count = self.count.wrapping_add(1);
    }

    /// Takes out the first item; None if the list is empty.
    pub fn pop_front(&mut self) -> Option<Parcel<T>>
        ensures { MatchOption result ((self.old ≡ []) × (self.new ≡ [])) (λ p. self.old ≡ p ∷ self.new) }
    {
        let (first, others) = take_first(self.chain.take(), self.alloc);
        self.chain.put(others);
        let node = first?;
        self.count = self.count.wrapping_sub(1);
        Some(Parcel { node })
    }

    /// Takes out the last item; None if the list is empty.
    pub fn pop_back(&mut self) -> Option<Parcel<T>>
        ensures { MatchOption result ((self.old ≡ []) × (self.new ≡ [])) (λ p. self.old ≡ self.new ++ p ∷ []) }
    {
        let (last, others) = take_last(self.chain.take(), self.alloc);
        self.chain.put(others);
        let node = last?;
        self.count = self.count.wrapping_sub(1);
        Some(Parcel { node })
    }

    /// Moves the items of `other` behind all others, in their order. `other` is empty afterwards.
    pub fn append(&mut self, other: &mut List<T>)
        ensures { (self.new ≡ self.old ++ other.old) × (other.new ≡ []) }
    {
        let chain = self.chain.take();
        self.chain.put(chain.join(other.chain.take()));
        self.count = self.count.wrapping_add(other.count);
        other.count = 0;
    }

    /// Takes out the item at this index, counted from 0; None if there is none. It walks there from the front.
    pub fn remove(&mut self, index: usize) -> Option<Parcel<T>>
        ensures item { result ≡ slice_get self.old index }
        ensures others { self.new ≡ remove self.old index }
    {
        let (before, from) = split_at(self.chain.take(), index);
        let (found, after) = take_first(from, self.alloc);
        self.chain.put(before.join(after));
        let node = found?;
        self.count = self.count.wrapping_sub(1);
        Some(Parcel { node })
    }

    /// Takes out the first item that passes the test; None if none passes. It walks there from the front.
    pub fn remove_first<P: Predicate<T>>(&mut self, test: &P) -> Option<Parcel<T>>
        ensures item { result ≡ find (P.passes test.now) self.old }
        ensures others { self.new ≡ without_first (P.passes test.now) self.old }
    {
        let (before, from) = split_at_first(self.chain.take(), test);
        let (found, after) = take_first(from, self.alloc);
        self.chain.put(before.join(after));
        let node = found?;
        self.count = self.count.wrapping_sub(1);
        Some(Parcel { node })
    }
}

impl<T> List<T> {
    /// The number of items, modulo 2^64. It reads a counter.
    ///
    /// No call requires a short list, so the counter wraps round. It is the number itself as long as memory can't
    /// hold 2^64 items.
    pub fn len(&self) -> usize
        ensures { result ≡ length self.now % 2 ^ 64 }
    {
        self.count
    }

    /// The allocator that the list was made with. All of its type are alike.
    pub fn allocator(&self) -> Global
        ensures { (alloc : GlobalHandle) → result ≡ alloc }
    {
        self.alloc
    }

    /// Whether there is no item. It looks for a first node, not at the counter.
    pub fn is_empty(&self) -> bool
        ensures { IsTrue result ↔ (self.now ≡ []) }
    {
        self.chain.is_empty()
    }

    /// An iterator over the items from the front.
    pub fn iter(&self) -> Iter<'_, T>
        ensures { result ≡ self.now }
    {
        Iter::over(&self.chain)
    }

    /// An iterator over the items from the back.
    pub fn iter_back(&self) -> IterBack<'_, T>
        ensures { result ≡ reverse self.now }
    {
        IterBack::over(&self.chain)
    }

    /// The first item; None if the list is empty.
    pub fn front(&self) -> Option<&T>
        ensures { option_copied result ≡ slice_get self.now 0 }
    {
        self.iter().next()
    }

    /// The last item; None if the list is empty.
    pub fn back(&self) -> Option<&T>
        ensures { option_copied result ≡ slice_get self.now (length self.now - 1) }
    {
        self.chain.last()
    }

    /// The item at this index, counted from 0; None if there is none. It walks there from the front.
    pub fn get(&self, index: usize) -> Option<&T>
        ensures { option_copied result ≡ slice_get self.now index }
    {
        self.iter().nth(index)
    }

    /// The first item that passes the test; None if none passes.
    pub fn find<P: Predicate<T>>(&self, test: &P) -> Option<&T>
        ensures { option_copied result ≡ find (P.passes test.now) self.now }
    {
        self.iter().first_passing(test)
    }

    /// The last item that passes the test; None if none passes. It walks there from the back.
    pub fn find_back<P: Predicate<T>>(&self, test: &P) -> Option<&T>
        ensures { option_copied result ≡ find (P.passes test.now) (reverse self.now) }
    {
        for candidate in self.iter_back() {
            if test.test(candidate) {
                return Some(candidate);
            }
        }
        None
    }
}

impl<T: Drop + Ranked> List<T> {
    /// Puts the item in front of the first one of greater rank, or behind all others if there is none. It walks there
    /// from the front.
    pub fn insert_ordered(&mut self, parcel: Parcel<T>)
        ensures { self.new ≡ insert_ordered (λ a b. rank_before (T.rank_of a) (T.rank_of b)) parcel self.old }
    {
        let later = RankedAfter(parcel.get().rank());
        let (before, after) = split_at_first(self.chain.take(), &later);
        self.chain
            .put(before.join(Chain::of(parcel.into_node())).join(after));
        self.count = self.count.wrapping_add(1);
    }
}

// Lets items of greater rank pass.
#[derive(Drop)]
struct RankedAfter(Rank);

impl<T: Ranked> Predicate<T> for RankedAfter {
    ghost use Rattle.vt_key.specs.promise.Order.{rank_before};

    ghost passes = { λ t x. rank_before t.0 (T.rank_of x) };

    fn test(&self, item: &T) -> bool {
        self.0.is_before(&item.rank())
    }
}
