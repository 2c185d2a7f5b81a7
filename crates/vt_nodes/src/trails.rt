//! Trails that lead to each other.

ghost use Rattle.std.specs.Prelude.{◌≡◌, ◌≢◌, ◌↔◌, [], ◌∷◌, MatchOption, IfNone, IfSome, IsTrue};
ghost use Rattle.std.specs.Option.{option_copied};
ghost use Rattle.vt_nodes.specs.inside.Lines.{first_item};

use crate::blocks::Blocks;
use crate::link::Link;
use crate::node::{Node, read_first, set_first_prev};
use crate::trail::Trail;
use std::marker::Model;
use std::mem::replace;

/// Trails, none of them empty, with where the first node of the first one lies. A clause sees the list of the
/// lists of their items.
///
/// A trail doesn't use the back links of its nodes. So the back link of its first node leads to the first node of the
/// next trail.
///
/// It is not `Drop`, so code that loses a node is refused.
pub struct Trails<T> {
    /// Where the first node of the first trail lies, or nothing.
    pub head: Link,
    /// The nodes of all trails.
    pub nodes: Blocks<Node<T>>,
}

impl<T> Model for Trails<T> {
    ghost use Rattle.std.specs.Prelude.{◌≡◌, List, None, map};
    ghost use Rattle.vt_nodes.specs.inside.Linked.{first_or, items};
    ghost use Rattle.vt_nodes.specs.inside.Lines.{lines_of, AreTrails};

    ghost Value = { List (List T) };

    ghost view = { λ r. map items (lines_of r.nodes.owned) };

    ghost invariant = { λ r. (r.head ≡ first_or None r.nodes.owned) × AreTrails None (lines_of r.nodes.owned) };
}

impl<T> Trails<T> {
    /// No trail.
    pub fn new() -> Trails<T>
        ensures { result ≡ [] }
    {
        Trails {
            head: Link::none(),
            nodes: Blocks::none(),
        }
    }

    /// Ends where there is no trail.
    pub fn end(self)
        requires { self ≡ [] }
    {
        let Trails { head: _, nodes } = self;
        nodes.end();
    }

    /// Whether there is no trail.
    pub fn is_empty(&self) -> bool
        ensures { IsTrue result ↔ (self.now ≡ []) }
    {
        self.head.is_none()
    }

    /// Takes all trails out.
    pub fn take(&mut self) -> Trails<T>
        ensures { (result ≡ self.old) × (self.new ≡ []) }
    {
        replace(self, Trails::new())
    }

    /// Puts trails in where there are none.
    pub fn put(&mut self, trails: Trails<T>)
        requires { self.old ≡ [] }
        ensures { self.new ≡ trails }
    {
        replace(self, trails).end();
    }

    /// The first item of the first trail; None only if there is no trail.
    pub fn first(&self) -> Option<&T>
        ensures item { option_copied result ≡ first_item self.now }
        ensures some { IfNone result (self.now ≡ []) }
    {
        read_first(self.head, &self.nodes)
    }

    /// The first trail, and the others. It reads the trail's first node, and writes none.
    pub fn split_first(self) -> (Option<Trail<T>>, Trails<T>)
        ensures parts { MatchOption result.0 ((self ≡ []) × (result.1 ≡ [])) (λ trail. self ≡ trail ∷ result.1) }
        ensures filled { IfSome result.0 (λ trail. trail ≢ []) }
    {
        let Trails { head, nodes } = self;
        let Some(at) = head.address() else {
            return (None, Trails { head, nodes });
        };
        let next = nodes.get(at).prev;
        let (line, others) = nodes.split();
        let first = Trail { head, nodes: line };
        let rest = Trails {
            head: next,
            nodes: others,
        };
        (Some(first), rest)
    }

    /// The trail, with the others behind it. It writes only the trail's first node.
    pub fn with_first(self, trail: Trail<T>) -> Trails<T>
        requires { trail ≢ [] }
        ensures { result ≡ trail ∷ self }
    {
        let Trails { head, nodes } = self;
        let Trail {
            head: first,
            nodes: line,
        } = trail;
        let Some(at) = first.address() else {
            unreachable!();
        };
        Trails {
            head: first,
            nodes: set_first_prev(line, at, head).append(nodes),
        }
    }
}
