//! Worked examples of texts, through public calls: what no call of the program shows. `examples/calls` has the others.
#![tactic(auto)]

#[cfg(test)]
mod tests;
