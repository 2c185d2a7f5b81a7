//! Splits chains.

ghost use Rattle.std.specs.Prelude.{◌≡◌, ◌-◌, [], ◌∷◌, ◌++◌, length, take, drop, MatchOption};
ghost use Rattle.vt_nodes.specs.inside.First.{before_first, from_first};
ghost use Rattle.vt_nodes.specs.inside.Linked.{IsChain, items};

use crate::blocks::Blocks;
use crate::chain::Chain;
use crate::link::Link;
use crate::node::{Node, set_first_prev, set_last_next};
use crate::position::Position;
use crate::predicate::Predicate;
use std::alloc::Global;

/// The position in front of the last node of a chain; at the end if there is none.
fn before_last<T>(head: Link, tail: Link, nodes: Blocks<Node<T>>) -> Position<T>
    requires { IsChain head tail nodes.owned }
    ensures { let xs = items nodes.owned in result ≡ (take (length xs - 1) xs, drop (length xs - 1) xs, nodes.owned) }
{
    let Some(last) = tail.address() else {
        return Position::at_front(head, nodes);
    };
    let (front, end) = nodes.split();
    let prev = end.get(last).prev;
    Position {
        last: prev,
        next: tail,
        passed: front,
        ahead: end,
    }
}

/// The nodes of a chain in front of a position, and the others.
fn split<T>(head: Link, tail: Link, position: Position<T>) -> (Chain<T>, Chain<T>)
    requires { IsChain head tail position.2 }
    ensures { (result.0 ≡ position.0) × (result.1 ≡ position.1) }
{
    let Position {
        last,
        next,
        passed,
        ahead,
    } = position;
    let Some(end) = last.address() else {
        passed.end();
        let back = Chain {
            head,
            tail,
            nodes: ahead,
        };
        return (Chain::new(), back);
    };
    let Some(start) = next.address() else {
        ahead.end();
        let front = Chain {
            head,
            tail,
            nodes: passed,
        };
        return (front, Chain::new());
    };
    let front = Chain {
        head,
        tail: last,
        nodes: set_last_next(passed, end, Link::none()),
    };
    let back = Chain {
        head: next,
        tail,
        nodes: set_first_prev(ahead, start, Link::none()),
    };
    (front, back)
}

/// The first node, out of the chain, and the others.
pub fn take_first<T>(chain: Chain<T>, alloc: Global) -> (Option<Box<Node<T>>>, Chain<T>)
    ensures { MatchOption result.0 ((chain ≡ []) × (result.1 ≡ [])) (λ n. chain ≡ n.value.item ∷ result.1) }
{
    let Chain { head, tail, nodes } = chain;
    let position = Position::at_front(head, nodes).advance();
    let (first, others) = split(head, tail, position);
    (first.into_only(alloc), others)
}

/// The last node, out of the chain, and the others.
pub fn take_last<T>(chain: Chain<T>, alloc: Global) -> (Option<Box<Node<T>>>, Chain<T>)
    ensures { MatchOption result.0 ((chain ≡ []) × (result.1 ≡ [])) (λ n. chain ≡ result.1 ++ n.value.item ∷ []) }
{
    let Chain { head, tail, nodes } = chain;
    let position = before_last(head, tail, nodes);
    let (others, last) = split(head, tail, position);
    (last.into_only(alloc), others)
}

/// The nodes before the first item that passes the test, and the others.
pub fn split_at_first<T, P: Predicate<T>>(chain: Chain<T>, test: &P) -> (Chain<T>, Chain<T>)
    ensures before { result.0 ≡ before_first (P.passes test.now) chain }
    ensures from { result.1 ≡ from_first (P.passes test.now) chain }
    ensures whole { chain ≡ result.0 ++ result.1 }
{
    let Chain { head, tail, nodes } = chain;
    split(head, tail, Position::at_first(head, nodes, test))
}

/// The first `index` nodes, and the others.
pub fn split_at<T>(chain: Chain<T>, index: usize) -> (Chain<T>, Chain<T>)
    ensures parts { (result.0 ≡ take index chain) × (result.1 ≡ drop index chain) }
    ensures whole { chain ≡ result.0 ++ result.1 }
{
    let Chain { head, tail, nodes } = chain;
    let mut position = Position::at_front(head, nodes);
    for _ in 0..index {
        if position.is_at_end() {
            break;
        }
        position = position.advance();
    }
    split(head, tail, position)
}
