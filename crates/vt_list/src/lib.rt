//! Linked lists and stacks whose nodes move from one to the other.
//!
//! A rollback must succeed whenever it is lawful, so it may not ask for memory. Therefore each item that a simulation
//! queues lies in a node that is made with the item: a [`Parcel`]. Putting a parcel into a [`List`], taking it out,
//! and appending one list to another move nodes and write links. No item moves in memory. Only [`Parcel::new`] takes
//! memory, and it hands the item back if memory is refused.
//!
//! A [`Stack`] holds parcels last in, first out. Its nodes are linked one way, so a call reads and writes only the
//! node that it puts in or takes out. The nodes below it may long have left the processor's cache.
//!
//! A [`Line`] is a list that is linked one way and takes one word. [`Lines`] are several lines one after the
//! other, none of them empty, in one word too: the first node of each line knows where the next line begins. So many
//! lists cost next to nothing if most of them are empty.
//!
//! Contracts see a parcel as its item, a list, a line or a stack as the list of its items, and [`Lines`] as the list
//! of its lines. No clause speaks of a node or a pointer.
//!
//! | Call | Time |
//! |---|---|
//! | `push_front`, `push_back`, `pop_front`, `pop_back`, `append`, `len`, `is_empty`, `front`, `back` | constant |
//! | `get`, `remove`, `find`, `find_back`, `remove_first`, `insert_ordered` | the number of items that are passed over |
//! | `push`, `pop`, `top` and `len` of a stack | constant; they touch one node at most |
//! | `push_front`, `pop_front`, `front` and `is_empty` of a line | constant; they touch one node at most |
//! | `find`, `remove_first`, `pass` of a line, `pass` of lines | the number of items or lines that are passed over; they write one node at most |
//! | `join` of a line and of lines | constant; it writes one node at most |
//! | `push_line`, `pop_line`, `front` and `is_empty` of lines | constant; they touch one node at most |
//! | dropping any of them | the number of items, in a loop and on constant stack |
//!
//! A list may be longer than a counter can tell. So no call relies on the count: a missing neighbour marks an end, and
//! [`List::len`] is exact modulo 2^64. A [`Predicate`] chooses what comes out of the middle of a list, in one walk.
//!
//! Lists, lines, stacks and parcels belong to no thread: each may go to another one if its items may.
//!
//! Nodes, their links and who owns them are in `vt_nodes`. The types here add an allocator, a count and iterators.
#![tactic(auto)]

mod iter;
mod line;
mod lines;
mod list;
mod parcel;
mod stack;

pub use iter::{Iter, IterBack, IterLines};
pub use line::Line;
pub use lines::Lines;
pub use list::List;
pub use parcel::Parcel;
pub use stack::Stack;
pub use vt_nodes::{Beginning, Passed, Predicate};
