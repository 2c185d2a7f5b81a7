//! The limits of a run, each named once.

/// The most logical processes of a run.
pub const MAX_PROCESSES: u32 = 65_536;

/// The most workers of a run.
pub const MAX_WORKERS: u32 = 256;

/// The latest end of a run, in ticks: 2^62.
pub const MAX_END: u64 = 1 << 62;

/// The largest value of a counter: 2^63. Counted are a process's sends, a worker's serials and mail, and the rounds.
pub const MAX_COUNT: u64 = 1 << 63;
