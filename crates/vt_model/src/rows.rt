//! Records, and the rows that order them.

ghost use Rattle.std.specs.Prelude.{◌≡◌};
ghost use Rattle.vt_model.specs.promise.Rows.{record_time};

use vt_key::{Key, When};

/// One entry of a simulation's output, made by a model while it executes an event.
#[derive(Debug, Clone, Copy, Default, PartialEq, Eq, PartialOrd, Ord)]
pub struct Record {
    /// The tick at which the event was received.
    pub time: u64,
    /// The priority with which it was received, within its tick.
    pub priority: u8,
    /// The logical process that executed it.
    pub lp: u32,
    /// What the value is: each model names its own kinds.
    pub kind: u32,
    /// What the event tells, as the model says for this kind: for instance a queue's length, or a time in ticks.
    pub value: u64,
}

impl Record {
    /// When the event was received.
    pub fn when(&self) -> When
        ensures { result ≡ record_time self.now }
    {
        When::new(self.time, self.priority)
    }
}

/// A record with its position in the run: the key of its event, and its index among that event's records, from 0.
///
/// Rows compare field by field. In a run no two have the same key and index, so these two decide.
#[derive(Debug, Clone, Copy, PartialEq, Eq, PartialOrd, Ord)]
pub struct Row {
    /// The key of the event that made the record.
    pub key: Key,
    /// How many records the event had made before it.
    pub index: u32,
    /// The record.
    pub rec: Record,
}
