//! The records of a past event.

ghost use Rattle.std.specs.Prelude.{◌≡◌, ◌≤◌, [], length};
ghost use Rattle.vt_model.specs.declared.limits.TheConstants.{MAX_RECORDS as MOST};

use std::marker::Model;
use vt_model::{MAX_RECORDS, Record};

/// The records that an event made. Contracts see the list of them.
///
/// They take the first items of an array.
#[derive(Drop)]
pub struct Records {
    count: usize,
    items: [Record; MAX_RECORDS],
}

impl Model for Records {
    ghost use Rattle.std.specs.Prelude.{◌≡◌, ◌≤◌, List, length, take};
    ghost use Rattle.vt_model.specs.declared.rows.Record.{Record};
    ghost use Rattle.vt_model.specs.declared.limits.TheConstants.{MAX_RECORDS};

    ghost Value = { List Record };

    ghost view = { λ r. take r.count r.items };

    ghost invariant = { λ r. (r.count ≤ MAX_RECORDS) × (length r.items ≡ MAX_RECORDS) };
}

impl Records {
    /// No records.
    pub fn new() -> Records
        ensures { result ≡ [] }
    {
        Records {
            count: 0,
            items: Default::default(),
        }
    }

    /// Writes these records over the old ones.
    pub fn set(&mut self, records: &[Record])
        requires few { length records.now ≤ MOST }
        ensures { self.new ≡ records.now }
    {
        let mut count = 0;
        for record in records {
            self.items[count] = *record;
            count += 1;
        }
        self.count = count;
    }

    /// The records, in the order in which they were made.
    pub fn as_slice(&self) -> &[Record]
        ensures value { result.now ≡ self.now }
        ensures fits { length result.now ≤ MOST }
    {
        &self.items[..self.count]
    }
}
