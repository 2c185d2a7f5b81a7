//! One worker of a Time Warp run: its logical processes, its outbox, the mail that has arrived, its colour, counts
//! and serials.
//!
//! Each call is this worker's part of one step of a world, or a list of such steps. So any driver (a replay, a test,
//! a worker driven by hand) rests on the same contracts. It stays plain, with a call for each local step: workers in threads run a
//! `Share`, which has the same clauses for the steps that both have.
#![tactic(auto)]

mod asking;
mod choosing;
mod committing;
mod counts;
mod cutting;
mod delivering;
mod fetching;
mod kernel;
mod local;
mod making;
mod readers;
mod sending;
mod settling;

pub use counts::Counts;
pub use cutting::least_of_mail;
pub use kernel::Kernel;
pub use making::starts_fit;
pub use sending::{mail_letters, make_room};
