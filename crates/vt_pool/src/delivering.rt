//! Messages on their way home.

ghost use Rattle.std.specs.Prelude.{◌≡◌, ◌+◌, ◌≤◌, ◌⊎◌, ◌++◌, [], ◌∷◌, true, false, length, map};
ghost use Rattle.std.specs.List.{AllByRecursion};
ghost use Rattle.vt_key.specs.promise.Queues.{letter_rank, insert_letter};
ghost use Rattle.vt_key.specs.inside.Queues.{holds_rank};
ghost use Rattle.vt_key.specs.declared.letter.Letter.{Letter as LetterValue};
ghost use Rattle.vt_key.specs.declared.letter.Sign.TheVariants.{Plus};
ghost use Rattle.vt_steps.specs.promise.Letters.{stamped, signed};
ghost use Rattle.vt_pool.specs.inside.Executing.{ComesHome, AreDelivered};

use crate::kept::Kept;
use crate::letters::letter_of;
use vt_calendar::Calendar;
use vt_key::{Letter, MAX_COUNT, Sign, When};
use vt_list::Parcel;
use vt_model::{Config, Sent};
use vt_outbox::Outbox;

/// Takes the messages of these sends straight home, where nothing is to be undone or cancelled for them, and puts the others behind all others
/// of the outbox. Their stamps are of this worker from `serial` on. There must be a node for each.
///
/// No past event is after `until`, and no pending message of the worker has a greater serial than `most`.
// An event mostly sends one message.
#[inline(always)]
pub(crate) fn deliver<P: Copy>(
    kept: &mut Kept<P>,
    calendar: &mut Calendar<P>,
    outbox: &mut Outbox<P>,
    most: &mut u64,
    until: When,
    may_go: bool,
    config: Config,
    worker: u32,
    serial: u64,
    sends: &[Sent<P>],
)
    requires room { length sends.now ≤ kept.old }
    requires few { serial + length sends.now ≤ MAX_COUNT }
    requires sorted { outbox.old.config ≡ config }
    requires heard { AllByRecursion (λ (l : LetterValue P). (letter_rank l).stamp.worker ≡ worker → (letter_rank l).stamp.serial ≤ most.old) calendar.old }
    ensures delivered { AreDelivered config worker until (map (signed Plus) (stamped worker serial sends.now)) calendar.old outbox.old.letters most.old calendar.new outbox.new.letters most.new }
    ensures sorted { outbox.new.config ≡ outbox.old.config }
    ensures taken { kept.old ≡ kept.new + length sends.now }
{
    let mut serial = serial;
    for send in sends {
        let letter = kept.put(letter_of(send, Sign::Plus, worker, serial));
        let goes = comes_home(may_go, letter.get(), outbox, *most, until, config, worker);
        put_or_push(calendar, outbox, most, letter, goes);
        serial += 1;
    }
}

/// Whether nothing is to be undone for a message, it isn't held, and Home would take it next.
#[inline(always)]
fn comes_home<P: Copy>(
    may_go: bool,
    letter: &Letter<P>,
    outbox: &Outbox<P>,
    most: u64,
    until: When,
    config: Config,
    worker: u32,
) -> bool
    requires sorted { outbox.now.config ≡ config }
    ensures { result ≡ true → ComesHome config worker until most outbox.now.letters letter.now }
{
    may_go
        && config.owner(letter.event.dest) == worker
        && letter.event.rank.key.when() > until
        && letter.event.rank.stamp.serial > most
        && !outbox.has_for(worker)
}

/// Takes a message home, or puts it behind all others of the outbox.
#[inline(always)]
fn put_or_push<P: Copy>(
    calendar: &mut Calendar<P>,
    outbox: &mut Outbox<P>,
    most: &mut u64,
    letter: Parcel<Letter<P>>,
    goes: bool,
)
    requires new { goes ≡ true → holds_rank (letter_rank letter) calendar.old ≡ false }
    ensures home { goes ≡ true → (calendar.new ≡ insert_letter letter calendar.old) × (outbox.new ≡ outbox.old) × (most.new ≡ (letter_rank letter).stamp.serial) }
    ensures away { goes ≡ false → (calendar.new ≡ calendar.old) × (outbox.new ≡ record outbox.old { letters = outbox.old.letters ++ letter ∷ [] }) × (most.new ≡ most.old) }
{
    if goes {
        *most = letter.get().event.rank.stamp.serial;
        calendar.put(letter);
    } else {
        outbox.push(letter);
    }
}
