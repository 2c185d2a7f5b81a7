//! The steps that reach beyond one worker: each on a kernel and on what a cell holds, which is an inbox, the board or the book. Close is on
//! the book alone.
#![tactic(auto)]

mod committing;
mod cutting;
mod mailing;

pub use committing::{close, commit, hand_in};
pub use cutting::{cut, reply_of, report};
pub use mailing::{fetch, send};
