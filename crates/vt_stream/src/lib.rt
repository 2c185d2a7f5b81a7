//! The random words of a logical process: a stream that can go back, so that a rollback gives drawn words back.
#![tactic(auto)]

mod stream;

pub use stream::LpStream;
