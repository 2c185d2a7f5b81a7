//! One logical process with rollback. It executes its pending events ahead of other processes. When a straggler or an
//! anti-message overtakes executed events, it undoes them in place, by reverse computation (Jefferson, Virtual Time,
//! 1985).
//!
//! Undoing, cancelling, accepting a letter and forgetting committed events take no memory: executing an event makes
//! all that its undo needs.
#![tactic(auto)]

mod committing;
mod executing;
mod letters;
mod lp;
mod making;
mod starting;
mod undoing;

pub use lp::Lp;
pub use starting::start;
