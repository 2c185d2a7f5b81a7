//! Tokens that are passed on by a table, which a text gives: it names for each process the next one.
#![tactic(auto)]

mod relay;
mod table;

pub use relay::{MAX_DELAY, Relay};
pub use table::{TableFault, read_table};
