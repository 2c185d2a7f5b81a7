//! Models to run: each with proofs of the laws of `vt_model::Model`, so that what is proved of lawful models holds of it.
#![tactic(auto)]

mod hop;
mod phold;
mod stations;

pub use hop::{Hop, MAX_DELAY, MAX_HOPS, MAX_RISE, MAX_STRIDE, Token};
pub use phold::{MAX_LOOKAHEAD, MAX_POPULATION, MAX_REMOTE, MAX_SPAN, Phold};
pub use stations::{JobEvent, MAX_JOBS, MAX_SERVICE, MAX_TRAVEL, Server, Stations};
