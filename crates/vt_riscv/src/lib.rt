//! A machine of RISC-V: RV64I with the extensions M and C of the unprivileged manual, version 20191213. It runs a program in memory
//! of its own, and hands each call of the program's environment to its caller.
#![tactic(auto)]

mod arithmetic;
mod code;
mod compressed;
mod decoding;
mod effect;
mod instruction;
mod layout;
mod machine;
mod memory;
mod pairs;
mod ready;
mod sprint;

pub use code::Code;
pub use compressed::decode_compressed;
pub use decoding::decode;
pub use instruction::{Instruction, Operation};
pub use layout::{DATA, IMAGE, RETURN, STACK, STATE};
pub use machine::{Core, Outcome, Stop, Trap};
