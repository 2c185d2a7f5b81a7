//! A node of a list, and the writes of its links.

ghost use Rattle.std.specs.Prelude.{◌≡◌, [], ◌∷◌, map, slice_get, None, Some};
ghost use Rattle.std.specs.Option.{option_copied};
ghost use Rattle.vt_nodes.specs.inside.Blocks.{addresses};
ghost use Rattle.vt_nodes.specs.inside.Linked.{first_or, items, last_or, with_next, with_prev};

use crate::blocks::Blocks;
use crate::link::Link;

/// An item of a list, with the links to its neighbours.
#[derive(Drop)]
pub struct Node<T> {
    /// Where the node behind it lies, or nothing.
    pub next: Link,
    /// In a chain, where the node in front of it lies, or nothing. Among trails, where the next trail begins.
    pub prev: Link,
    /// The item.
    pub item: T,
}

/// The item of the first node, which lies at `head`; None if there is no node.
pub(crate) fn read_first<T>(head: Link, nodes: &Blocks<Node<T>>) -> Option<&T>
    requires { head ≡ first_or None nodes.now.owned }
    ensures { option_copied result ≡ slice_get (items nodes.now.owned) 0 }
{
    let Some(first) = head.address() else {
        return None;
    };
    Some(&nodes.get(first).item)
}

/// The one node, which lies at `at`, with both links set.
fn set_links<T>(node: Blocks<Node<T>>, at: *mut Node<T>, next: Link, prev: Link) -> Blocks<Node<T>>
    requires { addresses node.owned ≡ at ∷ [] }
    ensures { result.owned ≡ map (λ b. (b.0, record b.1 { next = next; prev = prev })) node.owned }
{
    unsafe {
        (*at).next = next;
        (*at).prev = prev;
    }
    node
}

/// The one node, which lies at `at`, with its forward link set to `next`.
pub(crate) fn set_next<T>(node: Blocks<Node<T>>, at: *mut Node<T>, next: Link) -> Blocks<Node<T>>
    requires { addresses node.owned ≡ at ∷ [] }
    ensures { result.owned ≡ map (λ b. (b.0, record b.1 { next = next })) node.owned }
{
    let prev = node.get(at).prev;
    set_links(node, at, next, prev)
}

/// The one node, which lies at `at`, with its back link set to `prev`.
pub(crate) fn set_prev<T>(node: Blocks<Node<T>>, at: *mut Node<T>, prev: Link) -> Blocks<Node<T>>
    requires { addresses node.owned ≡ at ∷ [] }
    ensures { result.owned ≡ map (λ b. (b.0, record b.1 { prev = prev })) node.owned }
{
    let next = node.get(at).next;
    set_links(node, at, next, prev)
}

/// The same nodes, with the forward link of the last one, which lies at `last`, set to `next`.
pub(crate) fn set_last_next<T>(
    nodes: Blocks<Node<T>>,
    last: *mut Node<T>,
    next: Link,
) -> Blocks<Node<T>>
    requires { last_or None nodes.owned ≡ Some last }
    ensures { result.owned ≡ with_next next nodes.owned }
{
    let (front, end) = nodes.split();
    front.append(set_next(end, last, next))
}

/// The same nodes, with the back link of the first one, which lies at `first`, set to `prev`.
pub(crate) fn set_first_prev<T>(
    nodes: Blocks<Node<T>>,
    first: *mut Node<T>,
    prev: Link,
) -> Blocks<Node<T>>
    requires { first_or None nodes.owned ≡ Some first }
    ensures { result.owned ≡ with_prev prev nodes.owned }
{
    let (start, back) = nodes.split();
    set_prev(start, first, prev).append(back)
}
