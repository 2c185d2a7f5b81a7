//! What a terminal shows of a long run: how far it is, how fast it goes, and in the end what it took.
//!
//! A [`Meter`] is told of the run by the run's threads, and shows it in a thread of its own. Nothing of what it shows is
//! proved. Where standard error is no terminal it shows nothing, and starts no thread.
#![tactic(auto)]

mod clearing;
mod meter;
mod reading;
mod search;
mod terminal;

pub use clearing::Clearing;
pub use meter::Meter;
pub use reading::{Reading, last_line, line};
pub use terminal::Terminal;
