//! The command line of `twarp`: its models with their options, and what the words ask for.
//!
//! `vt_options` reads the words of a program of any models. This crate has the table of these three. Its laws say of example
//! lines what they ask for.
#![tactic(auto)]

mod asking;
pub mod laws;
mod table;

pub use asking::{hint, read_request, turns_hint};
pub use table::{model_table, texts};
pub use vt_options::Request;
