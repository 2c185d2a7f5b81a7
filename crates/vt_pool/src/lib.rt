//! The processes of a worker of a Time Warp run, with one calendar of pending letters and one log of past events for all of them. Structures
//! for each process would miss the cache more often: an event would touch lines that nothing has touched for long.
//!
//! Contracts see what is kept of all processes together (`HeldPool`), and what its calls do as lists of steps of one worker (`PoolLeadsTo`).
#![tactic(auto)]

mod arriving;
mod committing;
mod delivering;
mod executing;
mod finding;
mod hints;
mod holding;
mod homing;
mod kept;
mod leaving;
mod letters;
mod making;
mod pool;
mod receiving;
mod reporting;
mod undoing;

pub use pool::Pool;
