//! Worked examples of what the simulators stand on, run through public calls: lists, pending letters, random words and what models are
//! made of. Random words were worked out by other programs.
//!
//! It is a crate of its own, since a crate that has tests is proved twice.
#![tactic(auto)]

#[cfg(test)]
mod tests;
