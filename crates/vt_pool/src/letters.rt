//! Letters for what an event sends, on their way into the outbox.

ghost use Rattle.std.specs.Prelude.{◌≡◌, ◌+◌, ◌≤◌, ◌++◌, length, map};
ghost use Rattle.vt_steps.specs.promise.Letters.{stamped, signed};

use crate::kept::Kept;
use vt_key::{Event, Letter, MAX_COUNT, Rank, Sign, Stamp};
use vt_model::Sent;
use vt_outbox::Outbox;

/// Puts the letters of these sends behind all others of the outbox: with this sign, and with stamps of this worker from `serial` on. There
/// must be a node for each.
// An event mostly sends one letter.
#[inline(always)]
pub(crate) fn put_letters<P: Copy>(
    kept: &mut Kept<P>,
    outbox: &mut Outbox<P>,
    sign: Sign,
    worker: u32,
    serial: u64,
    sends: &[Sent<P>],
)
    requires room { length sends.now ≤ kept.old }
    requires few { serial + length sends.now ≤ MAX_COUNT }
    ensures posted { outbox.new ≡ record outbox.old { letters = outbox.old.letters ++ map (signed sign) (stamped worker serial sends.now) } }
    ensures taken { kept.old ≡ kept.new + length sends.now }
{
    let mut serial = serial;
    for send in sends {
        let node = kept.put(letter_of(send, sign, worker, serial));
        outbox.push(node);
        serial += 1;
    }
}

/// The letter of a send, with this sign and stamp.
#[inline(always)]
pub(crate) fn letter_of<P: Copy>(send: &Sent<P>, sign: Sign, worker: u32, serial: u64) -> Letter<P>
    ensures { result ≡ signed sign (record { rank = record { key = send.now.key; stamp = record { worker = worker; serial = serial } }; dest = send.now.dest; payload = send.now.payload }) }
{
    let stamp = Stamp { worker, serial };
    let event = Event {
        rank: Rank {
            key: send.key,
            stamp,
        },
        dest: send.dest,
        payload: send.payload,
    };
    Letter { event, sign }
}
