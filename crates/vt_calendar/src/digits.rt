//! The slots of times, by the digits of their ticks.

ghost use Rattle.std.specs.Prelude.{◌≡◌, ◌<◌, ◌≤◌, ◌+◌, ◌*◌, ◌^◌};
ghost use Rattle.vt_calendar.specs.inside.Digits.{slot_of, high_slot, first_kept};

use vt_key::When;

/// How many values a digit has.
const DIGIT: u64 = 256;

/// How many slots there are: one for each priority, and one for each value of the eight digits of a tick.
pub(crate) const SLOTS: u64 = 2_304;

/// How many slots, the first ones, have letters of one tick each.
pub(crate) const LOW_SLOTS: usize = 512;

/// How many digits a tick has above the lowest.
const HIGH_DIGITS: u32 = 7;

/// The slot of a later time than now.
// Mostly the time is in one of the 256 ticks around the present one, and a call would cost more than finding its slot.
#[inline(always)]
pub(crate) fn slot_of(now: When, time: When) -> usize
    ensures slot { result ≡ slot_of now time }
    ensures within { result < SLOTS }
{
    let ticks = time.ticks();
    let present = now.ticks();
    if ticks == present {
        return time.priority() as usize;
    }
    if ticks / DIGIT == present / DIGIT {
        return (DIGIT + ticks % DIGIT) as usize;
    }
    high_slot(HIGH_DIGITS, DIGIT, ticks, present) as usize
}

/// The slot of a tick that isn't the present one. Both are given without their digits below the slot `first`, and have at most so many digits
/// above the lowest that is left.
fn high_slot(digits: u32, first: u64, ticks: u64, present: u64) -> u64
    requires few { digits ≤ 7 }
    requires room { first + digits * 256 + 256 ≤ SLOTS }
    requires small { ticks < 256 ^ (digits + 1) }
    ensures slot { result ≡ high_slot digits first ticks present }
    ensures within { result < SLOTS }
{
    if digits == 0 || ticks / DIGIT == present / DIGIT {
        return first + ticks % DIGIT;
    }
    high_slot(digits - 1, first + DIGIT, ticks / DIGIT, present / DIGIT)
}

/// The first slot whose letters stay in it when the present time goes back from now to an earlier one.
pub(crate) fn first_kept(now: When, back: When) -> usize
    ensures { result ≡ first_kept now back }
{
    if now.ticks() == back.ticks() {
        return 0;
    }
    slot_of(back, When::tick(now.ticks())) / DIGIT as usize * DIGIT as usize
}
