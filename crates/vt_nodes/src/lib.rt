//! Nodes of linked lists: who owns them, and how they are linked by raw pointers.
//!
//! Lists are built on these types. Each part of a list is a value that owns its nodes: a [`Chain`] is linked both ways,
//! a [`Trail`] one way, and [`Trails`] are trails whose first nodes lead to each other. A walk by a [`Predicate`] or by
//! a count parts such a value in two. Parting and joining write one link or two, and take no memory.
//!
//! Contracts see each of them as the list of its items, and trails as the list of such lists.
//!
//! None of them can be dropped. Each ends only by `end`, which asks that no node is left, so code that loses a node is
//! refused.
//!
//! # How it is built
//!
//! From the bottom up:
//!
//! - `blocks` owns memory and knows nothing of links. It has the only raw reads.
//! - `link` is a pointer that may be null.
//! - `node` has the links and the only raw write.
//! - `chain` is nodes that are linked both ways, with their two ends; `trail` is nodes that are linked one way; `trails`
//!   is trails whose first nodes lead to each other.
//! - `position` is a position in a chain or a trail. By it `splitting` splits a chain, and `path` parts a trail.
//!   `passing` is a position among trails.
//!
//! Only `blocks` and one function of `node` are proved by hand. The rest is plain code that follows no raw pointer.
#![tactic(auto)]

mod blocks;
mod chain;
mod link;
mod node;
mod passing;
mod path;
mod position;
mod predicate;
mod splitting;
mod trail;
mod trails;

pub use blocks::Blocks;
pub use chain::Chain;
pub use link::Link;
pub use node::Node;
pub use passing::{Passed, pass_trails};
pub use path::{Beginning, part_at_first};
pub use predicate::Predicate;
pub use splitting::{split_at, split_at_first, take_first, take_last};
pub use trail::Trail;
pub use trails::Trails;
