//! Nodes that are linked both ways.

ghost use Rattle.std.specs.Prelude.{◌≡◌, ◌-◌, ◌<◌, ◌≤◌, ◌↔◌, [], ◌∷◌, ◌++◌, length, slice_index_or, MatchOption, IfSome, IsSome, IsTrue};

use crate::blocks::Blocks;
use crate::link::Link;
use crate::node::{Node, set_first_prev, set_last_next};
use std::alloc::Global;
use std::marker::Model;
use std::mem::replace;

/// Nodes that are linked both ways, with where the first and the last lie. A clause sees the list of their items.
///
/// It is not `Drop`, so code that loses a node is refused.
pub struct Chain<T> {
    /// Where the first node lies, or nothing.
    pub head: Link,
    /// Where the last node lies, or nothing.
    pub tail: Link,
    /// The nodes.
    pub nodes: Blocks<Node<T>>,
}

impl<T> Model for Chain<T> {
    ghost use Rattle.std.specs.Prelude.{List};
    ghost use Rattle.vt_nodes.specs.inside.Linked.{IsChain, items};

    ghost Value = { List T };

    ghost view = { λ c. items c.nodes.owned };

    ghost invariant = { λ c. IsChain c.head c.tail c.nodes.owned };
}

impl<T> Chain<T> {
    /// No node.
    pub fn new() -> Chain<T>
        ensures { result ≡ [] }
    {
        Chain {
            head: Link::none(),
            tail: Link::none(),
            nodes: Blocks::none(),
        }
    }

    /// Ends a chain without nodes.
    pub fn end(self)
        requires { self ≡ [] }
    {
        let Chain {
            head: _,
            tail: _,
            nodes,
        } = self;
        nodes.end();
    }

    /// Whether there is no node.
    pub fn is_empty(&self) -> bool
        ensures { IsTrue result ↔ (self.now ≡ []) }
    {
        self.head.is_none()
    }

    /// Takes all nodes out.
    pub fn take(&mut self) -> Chain<T>
        ensures { (result ≡ self.old) × (self.new ≡ []) }
    {
        replace(self, Chain::new())
    }

    /// Puts nodes into a chain without nodes.
    pub fn put(&mut self, chain: Chain<T>)
        requires { self.old ≡ [] }
        ensures { self.new ≡ chain }
    {
        replace(self, chain).end();
    }

    /// The last item; None if there is no node.
    pub fn last(&self) -> Option<&T>
        ensures variant { IsSome result ↔ (0 < length self.now) }
        ensures lookup { IfSome result (λ x. x.now ≡ slice_index_or self.now (length self.now - 1) x.now) }
    {
        let Some(tail) = self.tail.address() else {
            return None;
        };
        Some(&self.nodes.get(tail).item)
    }

    /// The nodes of both, those of `other` last.
    pub fn join(self, other: Chain<T>) -> Chain<T>
        ensures { result ≡ self ++ other }
    {
        let Some(end) = self.tail.address() else {
            self.end();
            return other;
        };
        let Some(start) = other.head.address() else {
            other.end();
            return self;
        };
        let Chain { head, tail, nodes } = self;
        let Chain {
            head: next,
            tail: last,
            nodes: more,
        } = other;
        let front = set_last_next(nodes, end, next);
        let back = set_first_prev(more, start, tail);
        Chain {
            head,
            tail: last,
            nodes: front.append(back),
        }
    }

    /// The only node; None if there is none.
    pub(crate) fn into_only(self, alloc: Global) -> Option<Box<Node<T>>>
        requires { length self ≤ 1 }
        ensures { MatchOption result (self ≡ []) (λ n. self ≡ n.value.item ∷ []) }
    {
        let Chain {
            head,
            tail: _,
            nodes,
        } = self;
        let Some(at) = head.address() else {
            nodes.end();
            return None;
        };
        Some(nodes.into_box(at, alloc))
    }
}

impl<T: Drop> Chain<T> {
    /// One node.
    pub fn of(mut node: Box<Node<T>>) -> Chain<T>
        ensures { result ≡ node.value.item ∷ [] }
    {
        node.next = Link::none();
        node.prev = Link::none();
        let (nodes, at) = Blocks::from_box(node);
        Chain {
            head: Link::to(at),
            tail: Link::to(at),
            nodes,
        }
    }
}
