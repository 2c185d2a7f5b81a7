//! What is kept of an executed event.

use vt_key::Event;
use vt_model::Bits;

/// An executed event that is not committed yet, with what its undo needs. What it sent and what it recorded are kept beside it.
#[derive(Clone, Copy)]
pub struct Entry<P: Copy, K: Copy> {
    /// The event.
    pub event: Event<P>,
    /// The serial of the first event that it sent.
    pub serial: u64,
    /// The send number of its process before it.
    pub number: u64,
    /// What `forward` kept.
    pub kept: K,
    /// The flags that `forward` set.
    pub bits: Bits,
    /// How many random words it drew.
    pub drawn: u32,
}
