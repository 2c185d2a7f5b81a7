//! The text that the program reads and writes: numbers, and the lines of records.
//!
//! Nothing here takes memory: text is gathered in a [`TextBuffer`] of a fixed size and goes out from there.
#![tactic(auto)]

mod buffer;
mod number;
mod printing;
mod version;
mod writing;

pub use buffer::{RECORD_LEN, TEXT_ROOM, TextBuffer};
pub use number::{NUMBER_LEN, PRIORITY_LEN, numbers_are_read_back, read_number};
pub use printing::{print_records, put_lines, put_records};
pub use version::Version;
pub use writing::write_bytes;
