//! What a process remembers, and what an event carries.

/// What an event carries: two numbers.
#[derive(Debug, Clone, Copy, PartialEq, Eq)]
pub struct Words {
    pub a: u64,
    pub b: u64,
}

/// The state of a process.
#[derive(Clone, Copy)]
pub struct Process<const SIZE: usize> {
    /// The state of its program.
    pub bytes: [u8; SIZE],
    /// 0, or the value of the record of the trap in its start.
    pub failed: u64,
}

/// The sizes that a state may have.
#[derive(Debug, Clone, Copy, PartialEq, Eq)]
pub enum StateSize {
    Bytes64,
    Bytes256,
    Bytes1024,
    Bytes4096,
}

/// A state of a size that a model may have: one of [`StateSize`].
pub trait Class {
    ghost use Rattle.std.specs.Prelude.{◌<◌, ◌≤◌, ◌^◌};
    ghost use prog.Memory.{size, align};
    ghost use denote.Memory.{lone};

    /// A state takes less than 2^32 bytes, so that it may be kept with each event.
    ghost kept_size: { size (lone Self.row.mir) < 2 ^ 32 };

    /// A state holds no type that is aligned to more than 8 bytes.
    ghost kept_align: { (1 ≤ align (lone Self.row.mir)) × (align (lone Self.row.mir) ≤ 8) };
}

impl Class for Process<64> {
    ghost use Rattle.std.proofs.Common.{lit<, lit≤};

    ghost kept_size = { lit< tt };

    ghost kept_align = { (lit≤ tt, lit≤ tt) };
}

impl Class for Process<256> {
    ghost use Rattle.std.proofs.Common.{lit<, lit≤};

    ghost kept_size = { lit< tt };

    ghost kept_align = { (lit≤ tt, lit≤ tt) };
}

impl Class for Process<1024> {
    ghost use Rattle.std.proofs.Common.{lit<, lit≤};

    ghost kept_size = { lit< tt };

    ghost kept_align = { (lit≤ tt, lit≤ tt) };
}

impl Class for Process<4096> {
    ghost use Rattle.std.proofs.Common.{lit<, lit≤};

    ghost kept_size = { lit< tt };

    ghost kept_align = { (lit≤ tt, lit≤ tt) };
}
