//! The text of a replay: the step text that it reads, and the output that it writes.
#![tactic(auto)]

mod input;
mod laws;
mod limits;
mod lines;
mod printing;
mod reading;
mod words;

pub use input::read_input;
pub use laws::{replies_are_those_of_the_steps, steps_are_read_back};
pub use limits::MAX_INPUT;
pub use printing::{REPLY_LEN, print_reply, print_state, put_reply, put_state};
pub use reading::{NumberedStep, read_steps};
