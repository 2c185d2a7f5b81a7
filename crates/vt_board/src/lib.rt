//! The board on which the workers of a run agree on global virtual time, while they go on simulating.
//!
//! Each worker cuts once in a round. Then it reports in each pass of the round: how much mail of the old colour it
//! has sent and got, and the least time of what it has. When the last worker has reported, equal sums say that no old
//! mail is travelling, and the least report becomes the announced time. Otherwise a new pass of the round begins.
//!
//! The idea is Mattern's (Efficient Algorithms for Distributed Snapshots and Global Virtual Time Approximation,
//! 1993); one board takes the place of his ring.
#![tactic(auto)]

mod board;
mod passes;
mod worker_set;

pub use board::{Board, Report};
pub use passes::passes_close_by_their_sums;
