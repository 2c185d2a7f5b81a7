//! A model as a user of the library would bring it: cars on a grid of signalled junctions, with queues, drawn turns and
//! lights that change. It stands on the library's public crates alone.
#![tactic(auto)]

mod grid;
mod junction;
mod law;

pub use grid::{MAX_CARS, MAX_GREEN, MAX_TRAVEL, MAX_TURNING, Traffic};
pub use junction::{Junction, JunctionEvent, PASSED, Road, WAITING};
pub use law::cars_are_kept;
