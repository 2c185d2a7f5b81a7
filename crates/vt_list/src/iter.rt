//! Iterators over the items of lists.

ghost use Rattle.std.specs.Prelude.{◌≡◌, find, length, reverse, slice_get};
ghost use Rattle.std.specs.Iterator.{at_most};
ghost use Rattle.std.specs.Option.{option_copied};
ghost use Rattle.std_collections.specs.Map.Iter.{TakesFirst, deref};

use std::marker::Model;
use vt_nodes::{Blocks, Chain, Link, Node, Predicate, Trail, Trails};

/// An iterator over the items of a list from the front. Contracts see the items that are left.
#[derive(Drop)]
pub struct Iter<'a, T> {
    next: Link,
    left: &'a Blocks<Node<T>>,
}

impl<'a, T> Model for Iter<'a, T> {
    ghost use Rattle.std.specs.Prelude.{◌≡◌, List, None};
    ghost use Rattle.vt_nodes.specs.inside.Linked.{first_or, items, LeadOn};

    ghost Value = { List T };

    ghost view = { λ i. items i.left.now.owned };

    ghost invariant = { λ i. (i.next ≡ first_or None i.left.now.owned) × LeadOn i.left.now.owned None };
}

impl<'a, T> Iter<'a, T> {
    pub(crate) fn over(chain: &'a Chain<T>) -> Iter<'a, T>
        ensures { result ≡ chain.now }
    {
        Iter {
            next: chain.head,
            left: &chain.nodes,
        }
    }

    pub(crate) fn along(trail: &'a Trail<T>) -> Iter<'a, T>
        ensures { result ≡ trail.now }
    {
        Iter {
            next: trail.head,
            left: &trail.nodes,
        }
    }

    /// The next item, which stays among those that are left; None if none is left.
    pub fn peek(&self) -> Option<&'a T>
        ensures { option_copied result ≡ slice_get self.now 0 }
    {
        let Some(at) = self.next.address() else {
            return None;
        };
        Some(&self.left.get(at).item)
    }

    /// The first of the items left that passes the test; None if none passes.
    pub fn first_passing<P: Predicate<T>>(self, test: &P) -> Option<&'a T>
        ensures { option_copied result ≡ find (P.passes test.now) self.entry }
    {
        for item in self {
            if test.test(item) {
                return Some(item);
            }
        }
        None
    }
}

impl<'a, T> Iterator for Iter<'a, T> {
    type Item = &'a T;

    ghost next_gives = { TakesFirst deref };

    ghost remaining = { λ s. at_most (length s) };

    fn next(&mut self) -> Option<&'a T> {
        let at = self.next.address()?;
        let node = self.left.get(at);
        self.next = node.next;
        self.left = self.left.rest();
        Some(&node.item)
    }
}

/// An iterator over the items of a list from the back. Contracts see the items that are left, the last first.
#[derive(Drop)]
pub struct IterBack<'a, T> {
    next: Link,
    left: &'a Blocks<Node<T>>,
}

impl<'a, T> Model for IterBack<'a, T> {
    ghost use Rattle.std.specs.Prelude.{◌≡◌, List, None, reverse};
    ghost use Rattle.vt_nodes.specs.inside.Linked.{last_or, items, LeadBack};

    ghost Value = { List T };

    ghost view = { λ i. reverse (items i.left.now.owned) };

    ghost invariant = { λ i. (i.next ≡ last_or None i.left.now.owned) × LeadBack None i.left.now.owned };
}

impl<'a, T> IterBack<'a, T> {
    pub(crate) fn over(chain: &'a Chain<T>) -> IterBack<'a, T>
        ensures { result ≡ reverse chain.now }
    {
        IterBack {
            next: chain.tail,
            left: &chain.nodes,
        }
    }
}

impl<'a, T> Iterator for IterBack<'a, T> {
    type Item = &'a T;

    ghost next_gives = { TakesFirst deref };

    ghost remaining = { λ s. at_most (length s) };

    fn next(&mut self) -> Option<&'a T> {
        let at = self.next.address()?;
        let node = self.left.get(at);
        self.next = node.prev;
        self.left = self.left.front();
        Some(&node.item)
    }
}

/// An iterator over lines, which gives each as an iterator over its items. Contracts see the lines that are
/// left.
#[derive(Drop)]
pub struct IterLines<'a, T> {
    next: Link,
    left: &'a Blocks<Node<T>>,
}

impl<'a, T> Model for IterLines<'a, T> {
    ghost use Rattle.std.specs.Prelude.{◌≡◌, List, None, map};
    ghost use Rattle.vt_nodes.specs.inside.Linked.{first_or, items};
    ghost use Rattle.vt_nodes.specs.inside.Lines.{lines_of, AreTrails};

    ghost Value = { List (List T) };

    ghost view = { λ i. map items (lines_of i.left.now.owned) };

    ghost invariant = { λ i. (i.next ≡ first_or None i.left.now.owned) × AreTrails None (lines_of i.left.now.owned) };
}

impl<'a, T> IterLines<'a, T> {
    pub(crate) fn over(trails: &'a Trails<T>) -> IterLines<'a, T>
        ensures { result ≡ trails.now }
    {
        IterLines {
            next: trails.head,
            left: &trails.nodes,
        }
    }
}

impl<'a, T> Iterator for IterLines<'a, T> {
    type Item = Iter<'a, T>;

    ghost next_gives = { TakesFirst (λ line. line) };

    ghost remaining = { λ s. at_most (length s) };

    fn next(&mut self) -> Option<Iter<'a, T>> {
        let at = self.next.address()?;
        let line = Iter {
            next: self.next,
            left: self.left.front(),
        };
        self.next = self.left.get(at).prev;
        self.left = self.left.rest();
        Some(line)
    }
}
