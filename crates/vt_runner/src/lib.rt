//! Runs and replays of any model, as a program makes them.
//!
//! [`simulate`] and [`replay`] write what the program writes, [`carry_out`] does either, and [`tell_refusal`] says why it
//! refused. [`run_program`] is a whole program of one model, with options of its own, and [`run_program_with_files`] one whose options may be files. [`models_program`] makes one of any
//! models: it is handed their table, and a closure that carries a task out on the one that the words choose.
#![tactic(auto)]

mod files;
mod one_model;
mod process;
mod simulation;
mod starting;
mod table;
mod task;
mod with_files;

pub use files::{Files, MachineFiles, ReadFault, bytes_of};
pub use one_model::{Made, Streams, model_program};
pub use process::{
    hint_of_process, run_program, run_program_with_files, turns_hint_of_process, words_of,
};
pub use simulation::simulate;
pub use task::carry_out;
pub use vt_tasks::{models_program, replay, tell_refusal};
pub use vt_watch::{Progress, Unwatched, Watch};
pub use with_files::{MAX_FILE, Unmade, model_program_with_files};
