//! A packet, and the buffer in which packets wait.

use vt_parts::Ring;

/// How many packets a buffer has room for.
pub const ROOM: usize = 8;

/// A packet.
#[derive(Debug, Clone, Copy, PartialEq, Eq)]
pub struct Packet {
    /// The router that made it.
    pub source: u32,
    /// The router that it goes to.
    pub dest: u32,
    /// When it was made.
    pub born: u64,
}

/// The value of a slot that has held no packet.
pub const BLANK: Packet = Packet {
    source: 0,
    dest: 0,
    born: 0,
};

/// A finite first-in-first-out buffer.
pub type Buffer = Ring<Packet, ROOM>;
