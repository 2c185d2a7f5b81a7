//! A position in linked nodes.

ghost use Rattle.std.specs.Prelude.{◌≡◌, ◌↔◌, [], ◌++◌, None, slice_get, IsTrue};
ghost use Rattle.std.specs.Option.{option_copied};
ghost use Rattle.vt_nodes.specs.inside.First.{before_first, from_first};
ghost use Rattle.vt_nodes.specs.inside.Linked.{advanced, first_or, items, LeadOn};

use crate::blocks::Blocks;
use crate::link::Link;
use crate::node::{Node, read_first};
use crate::predicate::{Predicate, fails};
use std::marker::Model;

/// A position in nodes that lead on from one to the next, as those of a chain and of a trail do. A clause sees the items
/// that were passed, those ahead, and all nodes.
///
/// The nodes stay linked as they were. Going on reads one link.
pub(crate) struct Position<T> {
    /// Where the last node that was passed lies, or nothing.
    pub(crate) last: Link,
    /// Where the next node lies, or nothing.
    pub(crate) next: Link,
    /// The nodes that were passed.
    pub(crate) passed: Blocks<Node<T>>,
    /// The nodes ahead.
    pub(crate) ahead: Blocks<Node<T>>,
}

impl<T> Model for Position<T> {
    ghost use Rattle.std.specs.Prelude.{◌++◌, List};
    ghost use Rattle.vt_nodes.specs.inside.Linked.{IsPosition, NodeAt, items};

    ghost Value = { List T × List T × List (NodeAt T) };

    ghost view = { λ p. (items p.passed.owned, items p.ahead.owned, p.passed.owned ++ p.ahead.owned) };

    ghost invariant = { λ p. IsPosition p.last p.next p.passed.owned p.ahead.owned };
}

impl<T> Position<T> {
    /// The position in front of the first node.
    pub(crate) fn at_front(head: Link, nodes: Blocks<Node<T>>) -> Position<T>
        requires { (head ≡ first_or None nodes.owned) × LeadOn nodes.owned None }
        ensures { result ≡ ([], items nodes.owned, nodes.owned) }
    {
        Position {
            last: Link::none(),
            next: head,
            passed: Blocks::none(),
            ahead: nodes,
        }
    }

    /// The position in front of the first item that passes the test; at the end if none does.
    pub(crate) fn at_first<P: Predicate<T>>(
        head: Link,
        nodes: Blocks<Node<T>>,
        test: &P,
    ) -> Position<T>
        requires { (head ≡ first_or None nodes.owned) × LeadOn nodes.owned None }
        ensures before { result.0 ≡ before_first (P.passes test.now) (items nodes.owned) }
        ensures from { result.1 ≡ from_first (P.passes test.now) (items nodes.owned) }
        ensures whole { items nodes.owned ≡ result.0 ++ result.1 }
        ensures nodes { result.2 ≡ nodes.owned }
    {
        let mut position = Position::at_front(head, nodes);
        while fails(test, position.peek()) {
            position = position.advance();
        }
        position
    }

    /// The next item; None at the end.
    fn peek(&self) -> Option<&T>
        ensures { option_copied result ≡ slice_get self.now.1 0 }
    {
        read_first(self.next, &self.ahead)
    }

    /// Whether all nodes were passed.
    pub(crate) fn is_at_end(&self) -> bool
        ensures { IsTrue result ↔ (self.now.1 ≡ []) }
    {
        self.next.is_none()
    }

    /// One node further; unchanged at the end.
    pub(crate) fn advance(self) -> Position<T>
        ensures items { (result.0, result.1) ≡ advanced (self.0, self.1) }
        ensures nodes { result.2 ≡ self.2 }
    {
        let Some(at) = self.next.address() else {
            return self;
        };
        let Position {
            last: _,
            next,
            passed,
            ahead,
        } = self;
        let (one, rest) = ahead.split();
        let after = one.get(at).next;
        Position {
            last: next,
            next: after,
            passed: passed.append(one),
            ahead: rest,
        }
    }
}
