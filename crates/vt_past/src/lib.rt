//! The past events of a process.
//!
//! A past event is an executed one that is not committed yet, with all that its undo and its commit need.
#![tactic(auto)]

mod event;
mod making;
mod past;
mod records;

pub use event::{PastEvent, UndoEntry};
pub use past::Past;
pub use records::Records;
