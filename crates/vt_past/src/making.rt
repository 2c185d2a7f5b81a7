//! How an executed event becomes a past one, and how an undone one is taken apart.

ghost use Rattle.std.specs.Prelude.{◌≡◌, ◌≤◌, length, IfOk, IfErr};
ghost use Rattle.vt_model.specs.declared.limits.TheConstants.{MAX_RECORDS};
ghost use Rattle.vt_past.specs.inside.Events.{past_event};

use crate::event::{PastEvent, UndoEntry};
use crate::records::Records;
use std::alloc::Global;
use vt_key::Letter;
use vt_list::Parcel;
use vt_model::Record;

impl<P: Copy, K: Copy> PastEvent<P, K> {
    /// The past event of this letter, which left this undo entry and these records, in a node of its own. An error means that
    /// memory was refused; it hands the letter back.
    pub fn new(
        alloc: Global,
        letter: Parcel<Letter<P>>,
        undo_entry: UndoEntry<P, K>,
        records: &[Record],
    ) -> Result<Parcel<PastEvent<P, K>>, Parcel<Letter<P>>>
        requires few { length records.now ≤ MAX_RECORDS }
        ensures made { IfOk result (λ parcel. parcel ≡ past_event letter undo_entry records.now) }
        ensures letter_returned { IfErr result (λ refused. refused ≡ letter) }
    {
        let mut items = Records::new();
        items.set(records);
        let event = PastEvent {
            key: letter.get().event.rank.key,
            letter,
            undo_entry,
            records: items,
        };
        match Parcel::new(alloc, event) {
            Ok(event) => Ok(event),
            Err(event) => Err(event.into_parts().0),
        }
    }

    /// The letter, and what else the undo of this event needs.
    pub fn into_parts(self) -> (Parcel<Letter<P>>, UndoEntry<P, K>)
        ensures { (result.0 ≡ self.letter) × (result.1 ≡ self.undo_entry) }
    {
        let PastEvent {
            key: _,
            letter,
            undo_entry,
            records: _,
        } = self;
        (letter, undo_entry)
    }
}
