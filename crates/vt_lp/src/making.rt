//! Letters for what an event sends, and an event without its stamp.

ghost use Rattle.std.specs.Prelude.{◌≡◌, ◌+◌, ◌≤◌, ◌↔◌, length, map, IsTrue, IfOk, IfErr};
ghost use Rattle.vt_key.specs.declared.fault.Fault.TheVariants.{Memory};
ghost use Rattle.vt_steps.specs.promise.Letters.{unstamped, stamped, signed};

use std::alloc::Global;
use vt_key::{Event, Fault, Letter, MAX_COUNT, Rank, Sign, Stamp};
use vt_list::{List, Parcel};
use vt_model::Sent;

/// The letters of these sends, each in a parcel of its own: with this sign, and with stamps of this worker from
/// `serial` on.
///
/// [`Fault::Memory`]: memory was refused.
pub(crate) fn letters<P: Copy>(
    alloc: Global,
    sign: Sign,
    worker: u32,
    serial: u64,
    sends: &[Sent<P>],
) -> Result<List<Letter<P>>, Fault>
    requires few { serial + length sends.now ≤ MAX_COUNT }
    ensures letters { IfOk result (λ letters. letters ≡ map (signed sign) (stamped worker serial sends.now)) }
    ensures refused { IfErr result (λ fault. fault ≡ Memory) }
{
    let mut letters = List::new(alloc);
    let mut serial = serial;
    for send in sends {
        let stamp = Stamp { worker, serial };
        let event = Event {
            rank: Rank {
                key: send.key,
                stamp,
            },
            dest: send.dest,
            payload: send.payload,
        };
        let Ok(letter) = Parcel::new(alloc, Letter { event, sign }) else {
            return Err(Fault::Memory);
        };
        letters.push_back(letter);
        serial += 1;
    }
    Ok(letters)
}

/// An event as the model knows it: without its stamp.
pub(crate) fn unstamped<P: Copy>(event: &Event<P>) -> Sent<P>
    ensures { result ≡ unstamped event.now }
{
    Sent {
        key: event.rank.key,
        dest: event.dest,
        payload: event.payload,
    }
}

/// Whether the serial stays at most 2^63 after these sends.
pub(crate) fn is_counted<P>(serial: u64, sends: &[Sent<P>]) -> bool
    ensures { IsTrue result ↔ (serial + length sends.now ≤ MAX_COUNT) }
{
    serial <= MAX_COUNT && sends.len() as u64 <= MAX_COUNT - serial
}
