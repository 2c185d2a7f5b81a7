//! What a model of a discrete-event simulation is, what its handlers are handed, and what a run of it means.
//!
//! A model brings four handlers (the trait [`Model`]): `start`, `forward`, `reverse` and `finish`. The definitions in
//! this crate's `specs` say what they mean together: a [`Config`] and a model make a simulation, and a simulation has one
//! sequential run, which always executes the pending event of least key. Everything else is measured against that run.
#![tactic(auto)]

mod drawing;
mod flags;
mod handler;
mod limits;
mod process;
mod rows;
mod sending;
mod settings;
mod theorem;

/// The random words that a model draws.
pub mod stream {
    pub use vt_stream::LpStream;
}

pub use drawing::Draws;
pub use flags::Bits;
pub use handler::Model;
pub use limits::{MAX_DRAWS, MAX_RECORDS, MAX_SENDS};
pub use process::{Process, Undo};
pub use rows::{Record, Row};
pub use sending::{Out, Sent};
pub use settings::Config;
pub use theorem::{models_are_lawful, one_history, pending_keys_are_distinct, rows_rise, run_ends};
