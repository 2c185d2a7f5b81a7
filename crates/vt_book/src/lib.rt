//! The book of committed records.
//!
//! Each worker hands in the rows of the events that it commits, up to a floor. The book's floor is the least of theirs: no row
//! below it can come any more, so the book shows the records of the rows below it, in the order of the rows. At the end of the
//! run it is closed.
#![tactic(auto)]

mod batch;
mod book;
mod floors;
mod order;
mod run;
mod waiting;

pub use batch::Batch;
pub use book::Book;
