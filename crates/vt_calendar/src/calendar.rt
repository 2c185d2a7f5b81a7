//! The calendar.

ghost use Rattle.std.specs.Prelude.{◌≡◌, ◌-◌, ◌<◌, ◌≤◌, ◌∷◌, [], false, find, slice_get, MatchOption, IfOk, IfErr};
ghost use Rattle.std.specs.List.{list_any};
ghost use Rattle.std.specs.Option.{option_map};
ghost use Rattle.vt_key.specs.promise.Queues.{letter_rank, has_rank, insert_letter, without_first};
ghost use Rattle.vt_key.specs.inside.Queues.{holds_rank, IsRising};
ghost use Rattle.vt_key.specs.declared.fault.Fault.TheVariants.{Memory};
ghost use Rattle.vt_key.specs.promise.Lists.{Among};
ghost use Rattle.vt_key.specs.promise.Times.{ticks_of};
ghost use Rattle.vt_calendar.specs.declared.digits.TheConstants.{LOW_SLOTS};
ghost use Rattle.vt_calendar.specs.inside.Slots.{items_in};
ghost use Rattle.vt_calendar.specs.inside.Kept.{time_of, earliest, leads, in_order, letters_kept, ArePlaced, AreFrom, AreSpread, IsKept, IsReady};

use crate::digits::{LOW_SLOTS, first_kept, slot_of};
use crate::order::{Buckets, insert, put_in_front, would_lead};
use crate::slots::{HasRank, Slots, any_of};
use std::alloc::Global;
use std::marker::Model;
use std::mem;
use vt_key::{Fault, Letter, Rank, When};
use vt_list::{Line, Parcel, Predicate};

/// So many late letters may wait at least, before the present time goes back.
const MOST_LATE: usize = 32;

/// For so many letters of the present time one more late letter may wait, since all of them have to move.
const LETTERS_A_LATE: usize = 64;

/// Letters in strictly rising rank. Contracts see the list of them.
///
/// Letters come and go as parcels, which bring their nodes. So only [`Calendar::new`] takes memory.
#[derive(Drop)]
pub struct Calendar<P: Copy> {
    alloc: Global,
    /// Letters after this time lie in slots, the others in `present` and `late`.
    time: When,
    /// Letters in order, of the slot that was opened last.
    present: Line<Letter<P>>,
    /// Letters in order that came later, at or before the present time.
    late: Line<Letter<P>>,
    /// How many late letters there are, as a hint.
    late_count: usize,
    slots: Slots<P>,
    /// It is empty between calls.
    buckets: Buckets<P>,
}

impl<P: Copy> Model for Calendar<P> {
    ghost use Rattle.std.specs.Prelude.{◌≡◌, List, []};
    ghost use Rattle.vt_key.specs.declared.letter.Letter.{Letter};
    ghost use Rattle.vt_calendar.specs.inside.Kept.{in_order, letters_kept, IsKept};

    ghost Value = { List (Letter P) };

    ghost view = { λ c. in_order (letters_kept c.present c.late c.slots) };

    ghost invariant = { λ c. IsKept c.time c.present c.late c.slots × (c.buckets ≡ []) };
}

impl<P: Copy> Calendar<P> {
    /// A calendar without letters, for the letters of so many processes.
    ///
    /// [`Fault::Memory`]: memory was refused.
    pub fn new(alloc: Global, lps: u32) -> Result<Calendar<P>, Fault>
        ensures empty { IfOk result (λ calendar. calendar ≡ []) }
        ensures refused { IfErr result (λ fault. fault ≡ Memory) }
    {
        let slots = Slots::new(alloc)?;
        let buckets = Buckets::new(alloc, lps)?;
        Ok(Calendar {
            alloc,
            time: When::tick(0),
            present: Line::new(alloc),
            late: Line::new(alloc),
            late_count: 0,
            slots,
            buckets,
        })
    }

    /// Puts a letter where it belongs. No letter of its rank may be there.
    // It is done once for each event.
    #[inline(always)]
    pub fn put(&mut self, letter: Parcel<Letter<P>>)
        requires { holds_rank (letter_rank letter) self.old ≡ false }
        ensures { self.new ≡ insert_letter letter self.old }
    {
        let time = letter.get().event.rank.key.when();
        if time > self.time {
            self.slots.put(slot_of(self.time, time), letter);
            return;
        }
        insert(&mut self.late, letter);
        self.count_late();
    }

    /// Counts a late letter. When there are many, the present time goes back.
    #[cold]
    #[inline(never)]
    fn count_late(&mut self)
        ensures { self.new ≡ self.old }
    {
        self.late_count = self.late_count.saturating_add(1);
        if self.late_count > MOST_LATE.saturating_add(self.buckets.count() / LETTERS_A_LATE) {
            self.go_back();
        }
    }

    /// Lets the present time go back before the first letter, so that all letters go to slots. Those of higher slots stay where they are.
    fn go_back(&mut self)
        ensures { self.new ≡ self.old }
    {
        let mut letters = mem::replace(&mut self.late, Line::new(self.alloc));
        let present = mem::replace(&mut self.present, Line::new(self.alloc));
        put_in_front(present, &mut letters);
        let back = just_before(earliest(self.time, &letters));
        self.slots
            .take_before(first_kept(self.time, back), &mut letters);
        self.present = spread(back, letters, &mut self.slots, &mut self.buckets);
        self.time = back;
        self.late_count = 0;
    }

    /// The time of the first letter; None if there is none.
    pub fn first_time(&mut self) -> Option<When>
        ensures time { result ≡ option_map time_of (slice_get self.old 0) }
        ensures unchanged { self.new ≡ self.old }
    {
        if leads(&self.late, &self.present) {
            return front_time(&self.late);
        }
        settle(
            &mut self.time,
            &mut self.present,
            &mut self.slots,
            &mut self.buckets,
            self.alloc,
        );
        front_time(&self.present)
    }

    /// Takes out the first letter; None if there is none.
    // It is done once for each event.
    #[inline(always)]
    pub fn take_first(&mut self) -> Option<Parcel<Letter<P>>>
        ensures { MatchOption result ((self.old ≡ []) × (self.new ≡ [])) (λ letter. self.old ≡ letter ∷ self.new) }
    {
        if leads(&self.late, &self.present) {
            self.late_count = self.late_count.saturating_sub(1);
            return self.late.pop_front();
        }
        settle(
            &mut self.time,
            &mut self.present,
            &mut self.slots,
            &mut self.buckets,
            self.alloc,
        );
        self.present.pop_front()
    }

    /// Takes out the letter of this rank; None if there is none.
    pub fn take(&mut self, rank: &Rank) -> Option<Parcel<Letter<P>>>
        ensures letter { result ≡ find (has_rank rank.now) self.old }
        ensures others { self.new ≡ without_first (has_rank rank.now) self.old }
    {
        let time = rank.key.when();
        if time > self.time {
            return self.slots.take(slot_of(self.time, time), rank);
        }
        if let Some(letter) = self.late.remove_first(&HasRank(*rank)) {
            self.late_count = self.late_count.saturating_sub(1);
            return Some(letter);
        }
        self.present.remove_first(&HasRank(*rank))
    }

    /// Whether some letter passes a test. It looks at each.
    pub fn any<T: Predicate<Letter<P>>>(&self, test: &T) -> bool
        ensures { result ≡ list_any (T.passes test.now) self.now }
    {
        any_of(&self.present, test) || any_of(&self.late, test) || self.slots.any(test)
    }

    /// The ranks of the letters rise strictly.
    pub fn rises(&self)
        ensures { IsRising self.now }
    {
        let _present = &self.present;
    }
}

/// Opens a slot if no letter has the present time.
#[inline(always)]
fn settle<P: Copy>(
    now: &mut When,
    present: &mut Line<Letter<P>>,
    slots: &mut Slots<P>,
    buckets: &mut Buckets<P>,
    alloc: Global,
)
    requires placed { ArePlaced now.old slots.old }
    requires clear { buckets.old ≡ [] }
    ensures ready { (late : _) → IsKept now.old present.old late slots.old → leads late present.old ≡ false
        → IsReady now.new present.new late slots.new (in_order (letters_kept present.old late slots.old)) }
    ensures clear { buckets.new ≡ [] }
{
    if present.is_empty() {
        *present = open(now, slots, buckets, alloc);
    }
}

/// Opens the first slot with a letter: its earliest time becomes the present one. The result is the letters of that time in order. The slot's
/// other letters go to lower slots. Where no slot has a letter, nothing changes.
#[inline(never)]
fn open<P: Copy>(
    now: &mut When,
    slots: &mut Slots<P>,
    buckets: &mut Buckets<P>,
    alloc: Global,
) -> Line<Letter<P>>
    requires placed { ArePlaced now.old slots.old }
    requires clear { buckets.old ≡ [] }
    ensures spread { AreSpread now.new [] result slots.old slots.new }
    ensures placed { ArePlaced now.new slots.new }
    ensures first { result ≡ [] → items_in slots.new ≡ [] }
    ensures clear { buckets.new ≡ [] }
{
    let Some(slot) = slots.first() else {
        return Line::new(alloc);
    };
    let letters = slots.take_all(slot);
    let Some(first) = letters.front() else {
        unreachable!();
    };
    *now = earliest_of_slot(slot, first.event.rank.key.when(), &letters);
    spread(*now, letters, slots, buckets)
}

/// The earliest of a time and those of a slot's letters. The time has to be that of a letter.
// All letters of a low slot have one tick. So mostly the first one's time shows that no other is earlier.
#[inline(always)]
fn earliest_of_slot<P: Copy>(slot: usize, time: When, letters: &Line<Letter<P>>) -> When
    requires one_tick { slot < LOW_SLOTS → (letter : _) → Among letter letters.now → ticks_of time ≤ ticks_of (time_of letter) }
    ensures { result ≡ earliest time letters.now }
{
    if slot < LOW_SLOTS && time.priority() == 0 {
        return time;
    }
    earliest(time, letters)
}

/// Puts letters of this time in order, which are the result, and later ones into their slots.
fn spread<P: Copy>(
    now: When,
    letters: Line<Letter<P>>,
    slots: &mut Slots<P>,
    buckets: &mut Buckets<P>,
) -> Line<Letter<P>>
    requires from { AreFrom now letters }
    requires clear { buckets.old ≡ [] }
    ensures spread { AreSpread now letters result slots.old slots.new }
    ensures clear { buckets.new ≡ [] }
{
    let mut letters = letters;
    while let Some(letter) = letters.pop_front() {
        let time = letter.get().event.rank.key.when();
        if time > now {
            slots.put(slot_of(now, time), letter);
        } else {
            buckets.put(letter);
        }
    }
    buckets.take_in_order()
}

/// The earliest of a time and those of letters.
fn earliest<P: Copy>(time: When, letters: &Line<Letter<P>>) -> When
    ensures { result ≡ earliest time letters.now }
{
    let mut least = time;
    for letter in letters.iter() {
        least = least.earlier(letter.event.rank.key.when());
    }
    least
}

/// The last time before this one. The first time of all has none before it, and is its own.
fn just_before(time: When) -> When
    ensures { result ≡ time - 1 }
{
    if time.priority() > 0 {
        return When::new(time.ticks(), time.priority() - 1);
    }
    if time.ticks() == 0 {
        return time;
    }
    When::new(time.ticks() - 1, u8::MAX)
}

/// Whether the first letter of a list is before the first one of another, or is the only one.
fn leads<P: Copy>(letters: &Line<Letter<P>>, others: &Line<Letter<P>>) -> bool
    ensures { result ≡ leads letters.now others.now }
{
    match letters.front() {
        Some(first) => would_lead(first, others),
        None => false,
    }
}

/// The time of the first letter of a list; None if there is none.
fn front_time<P: Copy>(letters: &Line<Letter<P>>) -> Option<When>
    ensures { result ≡ option_map time_of (slice_get letters.now 0) }
{
    let first = letters.front()?;
    Some(first.event.rank.key.when())
}
