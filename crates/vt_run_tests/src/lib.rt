//! Whole runs by workers in threads: their records and final values, their gates, and what watches them. What a run of the program
//! shows stands in `examples/calls`, and `tools/check-calls` makes random ones.
#![tactic(auto)]

#[cfg(test)]
mod tests;
