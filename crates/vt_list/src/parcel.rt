//! An item in a node of its own, which is in no list and no stack.

ghost use Rattle.std.specs.Prelude.{◌≡◌, IfOk, IfErr};

use std::alloc::Global;
use std::marker::Model;
use std::mem::replace;
use vt_nodes::{Link, Node};

/// An item in a node of its own, which is in no list and no stack. Contracts see the item.
///
/// Putting a parcel into a list or a stack and taking it out moves its node, and takes no memory.
pub struct Parcel<T> {
    pub(crate) node: Box<Node<T>>,
}

impl<T> Model for Parcel<T> {
    ghost Value = { T };

    ghost view = { λ p. p.node.value.item };
}

impl<T: Drop> Drop for Parcel<T> {
    fn drop(self) {
        let Parcel { node } = self;
        drop(node);
    }
}

impl<T> Parcel<T> {
    /// A parcel with this item. No other call of this crate takes memory.
    ///
    /// An error means that memory was refused; it hands the item back.
    pub fn new(alloc: Global, item: T) -> Result<Parcel<T>, T>
        ensures made { IfOk result (λ p. p ≡ item) }
        ensures item_returned { IfErr result (λ x. x ≡ item) }
    {
        let node = Node {
            next: Link::none(),
            prev: Link::none(),
            item,
        };
        match Box::new(alloc, node) {
            Ok(node) => Ok(Parcel { node }),
            Err(refused) => Err(refused.value.item),
        }
    }

    /// Takes the item out, and frees the node.
    pub fn into_value(self) -> T
        ensures { result ≡ self }
    {
        let Parcel { node } = self;
        Box::into_inner(node).item
    }

    /// The node, with the item in it.
    pub(crate) fn into_node(self) -> Box<Node<T>>
        ensures { result.value.item ≡ self }
    {
        let Parcel { node } = self;
        node
    }

    /// The item.
    pub fn get(&self) -> &T
        ensures { result.now ≡ self.now }
    {
        &self.node.item
    }

    /// Replaces the item, and returns the old one. The node stays.
    pub fn replace(&mut self, item: T) -> T
        ensures { (self.new ≡ item) × (result ≡ self.old) }
    {
        replace(&mut self.node.item, item)
    }

    ghost use Rattle.vt_list.specs.contracts.parcel.Parcel.{the_row};
    ghost use Rattle.std.specs.Borrow.{Lends, sem};

    /// The item, to be changed in place.
    pub fn get_mut(&mut self) -> &mut T
        ensures* writes_back { sem 𝓛 (Lends (the_row T.row) T.row self.entry result (λ w. w)) }
        ensures value { result.now ≡ self.old }
    {
        &mut self.node.item
    }
}
