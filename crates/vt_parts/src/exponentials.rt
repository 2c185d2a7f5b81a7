//! Exponential numbers, by a table of whole numbers.

ghost use Rattle.std.specs.Prelude.{◌≡◌, ◌+◌, ◌^◌, ◌<◌, ◌≤◌};
ghost use Rattle.vt_model.specs.declared.limits.TheConstants.{MAX_DRAWS};
ghost use Rattle.vt_model.specs.inside.Drawn.{drawn_in, stream_in, IsSameSource};
ghost use Rattle.vt_stream.specs.inside.Words.{word_of, moved};
ghost use Rattle.vt_parts.specs.inside.Exponential.{minus_log, exponential_ticks};

use vt_model::Draws;

// One, in the units of the logarithms below: they are so many 2^24ths.
const ONE: u64 = 1 << 24;

// The logarithm of 2.
const LN_2: u64 = 11_629_080;

// How many numbers lie between two knots.
const STEP: u64 = 1 << 25;

// Minus the logarithms of (64 + i) / 128. `tools/exponential-table` prints them.
const KNOTS: [u32; 65] = [
    11629080, 11368963, 11112817, 10860523, 10611968, 10367040, 10125637, 9887659, 9653009,
    9421595, 9193330, 8968129, 8745911, 8526598, 8310115, 8096389, 7885352, 7676937, 7471079,
    7267716, 7066789, 6868240, 6672013, 6478055, 6286313, 6096738, 5909281, 5723895, 5540536,
    5359159, 5179722, 5002184, 4826504, 4652646, 4480570, 4310242, 4141625, 3974686, 3809392,
    3645710, 3483610, 3323062, 3164035, 3006501, 2850433, 2695803, 2542585, 2390754, 2240285,
    2091153, 1943335, 1796809, 1651550, 1507539, 1364753, 1223173, 1082777, 943546, 805461, 668503,
    532655, 397897, 264214, 131587, 0,
];

/// A number of ticks whose law is exponential with this mean, at most 2^30: minus the natural logarithm of the word's part of 2^32,
/// times the mean, rounded to the nearest tick. It may be 0. It draws one word, for which there must be room ([`Draws::room`]).
///
/// The logarithm goes in straight lines between 65 points of each halving, and differs from the true one by at most 0.00003. So the
/// number, before it is rounded, is off by at most 0.00003 times the mean, and its own mean is 1.000015 times the one asked for. The
/// word 0, whose logarithm is infinite, gives 22.87 times the mean, which is the most.
pub fn exponential(draws: &mut Draws<'_>, mean: u32) -> u64
    requires room { drawn_in draws.old < MAX_DRAWS }
    requires high { mean ≤ 2 ^ 30 }
    ensures value { result ≡ exponential_ticks (word_of (stream_in draws.old) 0) mean }
    ensures within { result < 2 ^ 40 }
    ensures same_reference { IsSameSource draws.old draws.new }
    ensures stream { stream_in draws.new ≡ moved (stream_in draws.old) 1 }
    ensures drawn { drawn_in draws.new ≡ drawn_in draws.old + 1 }
{
    let log = minus_log(draws.word());
    (u64::from(mean) * log + ONE / 2) / ONE
}

// Minus the logarithm of a word's part of 2^32.
fn minus_log(word: u32) -> u64
    ensures value { result ≡ minus_log word }
    ensures within { result < 2 ^ 33 }
{
    let zeros = word.leading_zeros();
    let shifted = u64::from(word) << zeros;
    let knot = (shifted / STEP % 64) as usize;
    let beyond = shifted % STEP;
    let low = u64::from(KNOTS[knot]) * (STEP - beyond);
    let high = u64::from(KNOTS[knot + 1]) * beyond;
    u64::from(zeros) * LN_2 + (low + high) / STEP
}
