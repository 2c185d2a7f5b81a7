//! A Time Warp world that a program drives step by step: its workers, what travels between them, the board on which
//! they agree on global virtual time, and the book of committed records.
#![tactic(auto)]

mod committing;
mod cutting;
mod finals;
mod in_memory;
mod inbox;
mod local;
mod making;
mod reading;
mod sending;
mod step;
mod world;

pub use step::Stop;
pub use vt_steps::{Reply, Step};
pub use world::World;
