//! Reads a static little-endian ELF executable for 64-bit RISC-V from the bytes of a file: its code and constants, its first
//! state, and its symbols. It knows nothing of a machine that runs it.
#![tactic(auto)]

mod executable;
mod fields;
mod header;
mod loading;
mod refusal;
mod segment;
mod symbols;

pub use executable::{Executable, read_executable};
pub use refusal::Refusal;
pub use segment::{IMAGE, MAX_CODE, MAX_IMAGE, MAX_STATE, STATE};
pub use symbols::{Object, Symbols};
