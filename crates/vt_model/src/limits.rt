//! The limits of one handler, each named once.

/// The most events that one handler may send. One that has more to send goes on in an event to its own process.
pub const MAX_SENDS: usize = 16;

/// The most records that one handler may make.
pub const MAX_RECORDS: usize = 4;

/// The most random words that one handler may draw.
pub const MAX_DRAWS: u32 = 64;
