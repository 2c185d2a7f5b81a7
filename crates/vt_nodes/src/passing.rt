//! A position among trails.

ghost use Rattle.std.specs.Prelude.{◌≡◌, [], ◌++◌};
ghost use Rattle.std.specs.Option.{option_copied};
ghost use Rattle.vt_nodes.specs.inside.First.{before_first, from_first};
ghost use Rattle.vt_nodes.specs.inside.Linked.{advanced};
ghost use Rattle.vt_nodes.specs.inside.Lines.{first_item, begins_with};

use crate::blocks::Blocks;
use crate::link::Link;
use crate::node::{Node, read_first, set_first_prev};
use crate::predicate::{Predicate, fails};
use crate::trails::Trails;
use std::marker::Model;

/// Trails with a position among them. A clause sees the trails that were passed, and those ahead.
///
/// The nodes stay linked as they were. Going on reads one link. It is no `Position`, since the way from a trail to the
/// next one is a back link. The last trail that was passed is kept apart from those before it, since its first node is
/// written where other trails come behind it.
pub(crate) struct TrailsPath<T> {
    head: Link,
    last: Link,
    next: Link,
    before: Blocks<Node<T>>,
    line: Blocks<Node<T>>,
    ahead: Blocks<Node<T>>,
}

impl<T> Model for TrailsPath<T> {
    ghost use Rattle.std.specs.Prelude.{◌≡◌, ◌++◌, List, None, map};
    ghost use Rattle.vt_nodes.specs.inside.Linked.{first_or, items};
    ghost use Rattle.vt_nodes.specs.inside.Lines.{lines_of, AreTrails, ArePassed};

    ghost Value = { List (List T) × List (List T) };

    ghost view = { λ p. (map items (lines_of (p.before.owned ++ p.line.owned)), map items (lines_of p.ahead.owned)) };

    ghost invariant = { λ p. ArePassed p.head p.last p.next p.before.owned p.line.owned × (p.next ≡ first_or None p.ahead.owned) × AreTrails None (lines_of p.ahead.owned) };
}

impl<T> TrailsPath<T> {
    /// The position in front of the first trail.
    fn at_front(trails: Trails<T>) -> TrailsPath<T>
        ensures { result ≡ ([], trails) }
    {
        let Trails { head, nodes } = trails;
        TrailsPath {
            head,
            last: Link::none(),
            next: head,
            before: Blocks::none(),
            line: Blocks::none(),
            ahead: nodes,
        }
    }

    /// The first item of the next trail; None only at the end.
    fn peek(&self) -> Option<&T>
        ensures { option_copied result ≡ first_item self.now.1 }
    {
        read_first(self.next, &self.ahead)
    }

    /// One trail further; unchanged at the end.
    fn advance(self) -> TrailsPath<T>
        ensures { result ≡ advanced self }
    {
        let Some(at) = self.next.address() else {
            return self;
        };
        let TrailsPath {
            head,
            last: _,
            next,
            before,
            line,
            ahead,
        } = self;
        let after = ahead.get(at).prev;
        let (first, rest) = ahead.split();
        TrailsPath {
            head,
            last: next,
            next: after,
            before: before.append(line),
            line: first,
            ahead: rest,
        }
    }

    /// The trails that were passed, and those ahead. It writes no node.
    fn part(self) -> (Passed<T>, Trails<T>)
        ensures { (result.0 ≡ self.0) × (result.1 ≡ self.1) }
    {
        let TrailsPath {
            head,
            last,
            next,
            before,
            line,
            ahead,
        } = self;
        let passed = Passed {
            head,
            last,
            next,
            before,
            line,
        };
        let rest = Trails {
            head: next,
            nodes: ahead,
        };
        (passed, rest)
    }
}

/// The first of some trails, which a walk passed. The last of them still leads on to the trail behind it. Contracts see
/// the list of the lists of their items.
///
/// It is not `Drop`, so code that doesn't join them to the others again is refused.
pub struct Passed<T> {
    head: Link,
    last: Link,
    next: Link,
    before: Blocks<Node<T>>,
    line: Blocks<Node<T>>,
}

impl<T> Model for Passed<T> {
    ghost use Rattle.std.specs.Prelude.{◌++◌, List, map};
    ghost use Rattle.vt_nodes.specs.inside.Linked.{items};
    ghost use Rattle.vt_nodes.specs.inside.Lines.{lines_of, ArePassed};

    ghost Value = { List (List T) };

    ghost view = { λ p. map items (lines_of (p.before.owned ++ p.line.owned)) };

    ghost invariant = { λ p. ArePassed p.head p.last p.next p.before.owned p.line.owned };
}

impl<T> Passed<T> {
    /// These trails, with `rest` behind them. It writes only the first node of the last of these trails.
    pub fn join(self, rest: Trails<T>) -> Trails<T>
        ensures { result ≡ self ++ rest }
    {
        let Passed {
            head,
            last,
            next: _,
            before,
            line,
        } = self;
        let Some(start) = last.address() else {
            before.end();
            line.end();
            return rest;
        };
        let Trails {
            head: next,
            nodes: more,
        } = rest;
        let joined = set_first_prev(line, start, next).append(more);
        Trails {
            head,
            nodes: before.append(joined),
        }
    }
}

/// The trails before the first one whose first item passes the test, and the others.
pub fn pass_trails<T, P: Predicate<T>>(trails: Trails<T>, test: &P) -> (Passed<T>, Trails<T>)
    ensures before { result.0 ≡ before_first (begins_with (P.passes test.now)) trails }
    ensures from { result.1 ≡ from_first (begins_with (P.passes test.now)) trails }
    ensures whole { trails ≡ result.0 ++ result.1 }
{
    let mut path = TrailsPath::at_front(trails);
    while fails(test, path.peek()) {
        path = path.advance();
    }
    path.part()
}
