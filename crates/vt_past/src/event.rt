//! What is kept of an executed event for its undo and its commit.

ghost use Rattle.std.specs.Prelude.{◌≡◌};

use crate::records::Records;
use vt_key::{Key, Letter};
use vt_list::{List, Parcel};
use vt_model::Bits;

/// An executed event that is not committed yet, with all that its undo and its commit need.
#[derive(Drop)]
pub struct PastEvent<P: Copy, K: Copy> {
    /// The event's key, which stands in the message too.
    pub key: Key,
    /// The message that brought the event, in its own node: an undo moves it back.
    pub letter: Parcel<Letter<P>>,
    /// What else the event's undo needs.
    pub undo_entry: UndoEntry<P, K>,
    /// The records that the event made.
    pub records: Records,
    ghost keyed: { letter.event.rank.key ≡ key },
}

/// What the undo of an executed event needs, beside its letter.
#[derive(Drop)]
pub struct UndoEntry<P: Copy, K: Copy> {
    /// The anti-messages of what the event sent, in the order of the sends.
    pub anti_messages: List<Letter<P>>,
    /// What `forward` kept.
    pub kept: K,
    /// The flags that `forward` set.
    pub bits: Bits,
    /// How many random words the event drew.
    pub drawn: u32,
    /// The send number before the event.
    pub number: u64,
}
