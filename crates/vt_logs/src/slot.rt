//! Where entries lie.

use crate::entry::Entry;

/// Where an entry lies: in which sheet, and at which index.
#[derive(Clone, Copy)]
pub(crate) struct Position {
    pub(crate) sheet: u32,
    pub(crate) index: u32,
}

/// A position without an entry.
pub(crate) const NOWHERE: Position = Position {
    sheet: u32::MAX,
    index: 0,
};

/// An entry in its sheet, which has what it sent and recorded in lists of its own.
#[derive(Drop)]
pub(crate) struct Slot<P: Copy, K: Copy> {
    pub(crate) entry: Entry<P, K>,
    /// Where the last entry of its process lay when it was written.
    pub(crate) before: Position,
    /// The index of its process among the worker's.
    pub(crate) process: u32,
    pub(crate) first_send: u32,
    pub(crate) first_record: u32,
    pub(crate) send_count: u8,
    pub(crate) record_count: u8,
    /// Whether it was undone or is committed.
    pub(crate) is_gone: bool,
}
