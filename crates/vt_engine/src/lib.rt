//! A worker's kernel as the cells and the stations of a run take it: one type for both kinds of kernel.
#![tactic(auto)]

mod committing;
mod cutting;
mod engine;
mod kind;
mod mailing;
mod reading;
mod sharing;
mod stepping;

pub use engine::Engine;
pub use kind::{KERNEL, SHARE};
