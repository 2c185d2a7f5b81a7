//! A set of marked indices, which can be visited in rising order without a look at the unmarked ones.
#![tactic(auto)]

mod bits;
mod marks;

pub use marks::Marks;
