//! The limit of a replay's input.

/// The most bytes of a step text.
pub const MAX_INPUT: usize = 16_777_216;
