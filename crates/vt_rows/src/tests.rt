//! What the simulators stand on.

mod lists;
mod parts;
mod pending;
mod streams;
mod told;
