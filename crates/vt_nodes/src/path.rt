//! The first nodes of a trail.

ghost use Rattle.std.specs.Prelude.{◌≡◌, ◌++◌};
ghost use Rattle.vt_nodes.specs.inside.First.{before_first, from_first};

use crate::blocks::Blocks;
use crate::link::Link;
use crate::node::{Node, set_last_next};
use crate::position::Position;
use crate::predicate::Predicate;
use crate::trail::Trail;
use std::marker::Model;

/// The first nodes of a trail, which a walk passed. The last of them still leads on to the node behind it. Contracts see
/// the list of their items.
///
/// It is not `Drop`, so code that doesn't join them to the others again is refused.
pub struct Beginning<T> {
    head: Link,
    last: Link,
    next: Link,
    nodes: Blocks<Node<T>>,
}

impl<T> Model for Beginning<T> {
    ghost use Rattle.std.specs.Prelude.{List};
    ghost use Rattle.vt_nodes.specs.inside.Linked.{items, IsBeginning};

    ghost Value = { List T };

    ghost view = { λ b. items b.nodes.owned };

    ghost invariant = { λ b. IsBeginning b.head b.last b.next b.nodes.owned };
}

impl<T> Beginning<T> {
    /// These nodes, with `rest` behind them. It writes only the last of these nodes.
    pub fn join(self, rest: Trail<T>) -> Trail<T>
        ensures { result ≡ self ++ rest }
    {
        let Beginning {
            head,
            last,
            next: _,
            nodes,
        } = self;
        let Some(end) = last.address() else {
            nodes.end();
            return rest;
        };
        let Trail {
            head: next,
            nodes: more,
        } = rest;
        Trail {
            head,
            nodes: set_last_next(nodes, end, next).append(more),
        }
    }
}

/// The nodes before the first item that passes the test, and the others. It writes no node.
pub fn part_at_first<T, P: Predicate<T>>(trail: Trail<T>, test: &P) -> (Beginning<T>, Trail<T>)
    ensures before { result.0 ≡ before_first (P.passes test.now) trail }
    ensures from { result.1 ≡ from_first (P.passes test.now) trail }
    ensures whole { trail ≡ result.0 ++ result.1 }
{
    let Trail { head, nodes } = trail;
    let Position {
        last,
        next,
        passed,
        ahead,
    } = Position::at_first(head, nodes, test);
    let beginning = Beginning {
        head,
        last,
        next,
        nodes: passed,
    };
    let rest = Trail {
        head: next,
        nodes: ahead,
    };
    (beginning, rest)
}
