//! A look at a model that isn't proved yet: whether `reverse` undoes `forward`, and whether each send is later and goes to a process.
//!
//! [`look`] makes a sequential run of which each event is executed, undone and executed again. It answers the first difference in
//! words. It is for tests and unproved runs: what it sees in a run is proved of all runs by the laws of a model.
#![tactic(auto)]

mod difference;
mod looking;
mod pair;
mod pending;

pub use difference::{Difference, Moment, Part};
pub use looking::look;
