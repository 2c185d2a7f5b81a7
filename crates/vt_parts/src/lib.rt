//! Ready parts of models.
#![tactic(auto)]

mod drawing;
mod exponentials;
mod histogram;
mod ring;
mod sending;

pub use drawing::{bernoulli, geometric, weighted};
pub use exponentials::exponential;
pub use histogram::{Histogram, histograms_count};
pub use ring::{Ring, rings_are_queues};
pub use sending::send_to_entries;
