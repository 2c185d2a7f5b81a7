//! The sequential simulator: it executes a model's events one after the other, always the pending one of least key. Its
//! records are what every other run of the model is measured against.
#![tactic(auto)]

mod advancing;
mod calendar;
mod days;
mod engine;
mod entry;
mod execution;
mod fit;
mod pending;
mod run;
mod sorter;

pub use execution::Execution;
pub use run::Sequential;
