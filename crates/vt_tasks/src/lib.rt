//! What a program of any models does without workers: runs in one thread, replays, the text of records, refusals, and the program
//! around a call that carries its tasks out.
//!
//! `vt_runner` adds the runs on workers, and hands most of these names on.
#![tactic(auto)]

mod counting;
mod printed;
mod printing;
mod program;
mod refusal;
mod replaying;
mod running;

pub use printed::print_result;
pub use printing::Shares;
pub use program::models_program;
pub use refusal::tell_refusal;
pub use replaying::replay;
pub use running::print_run;
