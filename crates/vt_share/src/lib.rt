//! One worker of a Time Warp run: a share of the processes, with one calendar of their pending letters and one log of their past events.
//!
//! Contracts see the same of it as of the worker whose processes each have their own (`HeldWorker` of `vt_kernel`). It executes in the order
//! of ranks. Each of its calls is a list of steps, after which no event of its processes has to be undone.
#![tactic(auto)]

mod arriving;
mod committing;
mod cutting;
mod executing;
mod leaving;
mod making;
mod share;

pub use share::Share;
