//! A Time Warp world that threads may share: inboxes, board and book in the cells of one table, and a place for each worker, at
//! which it acts on them.
#![tactic(auto)]

mod committing;
mod cutting;
mod history;
mod looking;
mod making;
mod place;
mod posting;
mod rule;
mod slot;
mod station;
mod view;
mod worker;

pub use history::places_tell_the_list;
pub use place::Place;
pub use station::Station;
pub use worker::{NotMade, Worker};
