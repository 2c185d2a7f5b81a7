//! The past events of all processes of a worker, in the order in which the worker executed them.
//!
//! The log consists of sheets, each of which holds events that were executed one after the other, mostly of one time. So a commit hands in whole
//! sheets, and whole sheets are forgotten, with no look at a process. A sheet that was forgotten is written again.
#![tactic(auto)]

mod entry;
mod log;
mod sheet;
mod shelf;
mod slot;

pub use entry::Entry;
pub use log::Log;
