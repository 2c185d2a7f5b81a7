//! The command line of a program that runs and replays models: which model the words choose, and the numbers that they give
//! to its options.
//!
//! `clap` reads the words, and its definitions say which text a line gives to each option. [`read_request`] reads the
//! numbers in these texts, by the options of every model and a [`ModelTable`] of the program's own. It tests the options of all models,
//! in the order of the table, and names the first that is out of its range.
//!
//! No other crate has code that holds a value of `clap`: to prove the drops of these takes most of a first check.
#![tactic(auto)]

mod asking;
mod choices;
mod helping;
mod hinting;
mod limits;
mod line;
mod models;
mod own;
mod processes;
mod programs;
mod reading;
mod refusing;
mod shown;
mod taken;
mod texts;

pub use asking::{Request, read_request};
pub use choices::{ReplaySettings, RunSettings, Synch, Task};
pub use hinting::{hint, turns_hint};
pub use limits::{MAX_FUEL, MAX_TURNS, NumberRange};
pub use line::ProgramTexts;
pub use own::{Chosen, FileChoice, FileOption, ModelOptions, ModelTable, OwnOption};
pub use processes::{Unsettled, settled};
pub use programs::{Assignment, ProgramChoice};
pub use shown::{SENTENCE_COLUMNS, WORD_COLUMNS, shown_sentence, shown_word};
pub use taken::{taken_among, taken_name};
pub use texts::{GENERAL, OptionText, Takes};
