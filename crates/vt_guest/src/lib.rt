//! A model whose handlers are a RISC-V program. Its laws hold for every program, so nothing has to be proved of one.
#![tactic(auto)]

mod calls;
mod guest;
mod handling;
mod loading;
mod process;
mod theorem;
mod trap;

pub use guest::{Guest, Program};
pub use loading::{Loaded, MAX_DATA, ObjectFault, Refusal, Set, load};
pub use process::{Class, Process, StateSize, Words};
pub use theorem::{failed_starts_show, traps_are_results};
pub use trap::{Reason, TRAP};
