//! Nodes that are linked one way.

ghost use Rattle.std.specs.Prelude.{◌≡◌, ◌↔◌, [], ◌∷◌, ◌++◌, slice_get, MatchOption, IsTrue};
ghost use Rattle.std.specs.Option.{option_copied};

use crate::blocks::Blocks;
use crate::chain::Chain;
use crate::link::Link;
use crate::node::{Node, read_first, set_last_next};
use std::alloc::Global;
use std::marker::Model;
use std::mem::replace;

/// Nodes that lead on from one to the next, with where the first lies. A clause sees the list of their items. Their
/// back links are unused.
///
/// It is not `Drop`, so code that loses a node is refused.
pub struct Trail<T> {
    /// Where the first node lies, or nothing.
    pub head: Link,
    /// The nodes.
    pub nodes: Blocks<Node<T>>,
}

impl<T> Model for Trail<T> {
    ghost use Rattle.std.specs.Prelude.{◌≡◌, List, None};
    ghost use Rattle.vt_nodes.specs.inside.Linked.{first_or, items, LeadOn};

    ghost Value = { List T };

    ghost view = { λ t. items t.nodes.owned };

    ghost invariant = { λ t. (t.head ≡ first_or None t.nodes.owned) × LeadOn t.nodes.owned None };
}

impl<T> Trail<T> {
    /// No node.
    pub fn new() -> Trail<T>
        ensures { result ≡ [] }
    {
        Trail {
            head: Link::none(),
            nodes: Blocks::none(),
        }
    }

    /// Ends a trail without nodes.
    pub fn end(self)
        requires { self ≡ [] }
    {
        let Trail { head: _, nodes } = self;
        nodes.end();
    }

    /// Whether there is no node.
    pub fn is_empty(&self) -> bool
        ensures { IsTrue result ↔ (self.now ≡ []) }
    {
        self.head.is_none()
    }

    /// Takes all nodes out.
    pub fn take(&mut self) -> Trail<T>
        ensures { (result ≡ self.old) × (self.new ≡ []) }
    {
        replace(self, Trail::new())
    }

    /// Puts nodes into a trail without nodes.
    pub fn put(&mut self, trail: Trail<T>)
        requires { self.old ≡ [] }
        ensures { self.new ≡ trail }
    {
        replace(self, trail).end();
    }

    /// The first item; None if there is no node.
    pub fn first(&self) -> Option<&T>
        ensures { option_copied result ≡ slice_get self.now 0 }
    {
        read_first(self.head, &self.nodes)
    }

    /// The first node, and the others. It reads and writes none of the others.
    pub fn split_first(self, alloc: Global) -> (Option<Box<Node<T>>>, Trail<T>)
        ensures { MatchOption result.0 ((self ≡ []) × (result.1 ≡ [])) (λ n. self ≡ n.value.item ∷ result.1) }
    {
        let Trail { head, nodes } = self;
        let Some(at) = head.address() else {
            return (None, Trail { head, nodes });
        };
        let (one, others) = nodes.split();
        let next = one.get(at).next;
        let rest = Trail {
            head: next,
            nodes: others,
        };
        (Some(one.into_box(at, alloc)), rest)
    }

    /// The nodes of a chain, with the others behind them. It writes only the last node of the chain.
    pub fn with_chain(self, chain: Chain<T>) -> Trail<T>
        ensures { result ≡ chain ++ self }
    {
        let Some(end) = chain.tail.address() else {
            chain.end();
            return self;
        };
        let Chain {
            head,
            tail: _,
            nodes: front,
        } = chain;
        let Trail { head: next, nodes } = self;
        Trail {
            head,
            nodes: set_last_next(front, end, next).append(nodes),
        }
    }
}

impl<T: Drop> Trail<T> {
    /// The node, with the others behind it. It reads and writes none of the others.
    pub fn with_first(self, mut node: Box<Node<T>>) -> Trail<T>
        ensures { result ≡ node.value.item ∷ self }
    {
        let Trail { head, nodes } = self;
        node.next = head;
        let (one, at) = Blocks::from_box(node);
        Trail {
            head: Link::to(at),
            nodes: one.append(nodes),
        }
    }
}
