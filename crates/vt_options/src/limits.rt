//! The numbers that the options of every model take, and those of programs. `tools/check-calls` has each range and default too.

use vt_key::{MAX_COUNT, MAX_END, MAX_PROCESSES, MAX_WORKERS};

/// The most turns of a worker: 2^63.
pub const MAX_TURNS: u64 = 1 << 63;

/// The most instructions of a handler of a program: 2^32.
pub const MAX_FUEL: u64 = 1 << 32;

/// The numbers that an option takes, and the one that it has if it isn't given.
#[derive(Debug, Clone, Copy)]
pub struct NumberRange {
    /// The least number that it takes.
    pub least: u64,
    /// The greatest number that it takes.
    pub most: u64,
    /// Its value if it isn't given, from `least` to `most`.
    pub default: u64,
}

/// The workers of a run or a replay.
pub(crate) const WORKERS: NumberRange = NumberRange {
    least: 1,
    most: MAX_WORKERS as u64,
    default: 1,
};

/// The logical processes.
pub(crate) const LPS: NumberRange = NumberRange {
    least: 1,
    most: MAX_PROCESSES as u64,
    default: 2,
};

/// The end of virtual time.
pub(crate) const END: NumberRange = NumberRange {
    least: 1,
    most: MAX_END,
    default: 10,
};

/// The seed of all random draws.
pub(crate) const SEED: NumberRange = NumberRange {
    least: 0,
    most: u64::MAX,
    default: 0,
};

/// The most turns of a worker.
pub(crate) const TURNS: NumberRange = NumberRange {
    least: 1,
    most: MAX_TURNS,
    default: 10_000_000,
};

/// The first serial of each worker's events.
pub(crate) const SERIAL: NumberRange = NumberRange {
    least: 0,
    most: MAX_COUNT,
    default: 0,
};

/// The most instructions of a handler.
pub(crate) const FUEL: NumberRange = NumberRange {
    least: 1,
    most: MAX_FUEL,
    default: 1_000_000,
};
