//! The parts for models at values that were worked out elsewhere.

ghost use Rattle.std.specs.Prelude.{◌≤◌};

use crate::tests::told::holds;
use std::rt::HostRuntime;
use vt_model::Draws;
use vt_parts::{Histogram, Ring, bernoulli, exponential, geometric, weighted};
use vt_stream::LpStream;

// What is pushed, and what each call answers.
fn pushes(ring: &mut Ring<u64, 3>) -> bool {
    let pushed = [ring.push(1), ring.push(2), ring.push(3), ring.push(4)];
    pushed == [Some(9), Some(9), Some(9), None]
}

// What is taken from a full ring, and what each call answers.
fn pops(ring: &mut Ring<u64, 3>) -> bool {
    let first = ring.pop() == Some(1) && ring.push(5) == Some(1) && ring.len() == 3;
    let popped = [ring.pop(), ring.pop(), ring.pop(), ring.pop()];
    let is_empty = ring.is_empty() && ring.front().is_none();
    first && popped == [Some(2), Some(3), Some(5), None] && is_empty
}

// What was taken is given back.
fn unpops(ring: &mut Ring<u64, 3>) -> bool {
    for answer in [None, Some(5), Some(3), Some(2)] {
        ring.unpop(answer);
    }
    let is_back = ring.is_full() && ring.front() == Some(2);
    ring.unpush(Some(1));
    ring.unpop(Some(1));
    is_back
}

/// What each call answers, by a list in Python with `append` and `pop(0)`, and three slots that it writes in turn.
#[test]
fn a_ring_gives_first_what_came_first(rt: HostRuntime) {
    let mut ring = Ring::<u64, 3>::new(9);
    holds(&rt, pushes(&mut ring), "pushed");
    let full = ring;
    holds(&rt, pops(&mut ring), "popped");
    holds(&rt, unpops(&mut ring) && ring == full, "full again");
    for answer in [None, Some(9), Some(9), Some(9)] {
        ring.unpush(answer);
    }
    holds(&rt, ring == Ring::<u64, 3>::new(9), "empty again");
}

/// Bins of ten: two, one and none, and two values beyond 29.
#[test]
fn a_histogram_counts_by_size(rt: HostRuntime) {
    let mut histogram = Histogram::<3>::new(10);
    for value in [9, 10, 0, 30, u64::MAX] {
        histogram.count(value);
    }
    let bins = [
        histogram.bin(0),
        histogram.bin(1),
        histogram.bin(2),
        histogram.bin(3),
    ];
    holds(&rt, bins == [2, 1, 0, 0], "bins");
    holds(
        &rt,
        histogram.beyond() == 2 && histogram.total() == 5,
        "counts",
    );
    for value in [9, 10, 0, 30, u64::MAX] {
        histogram.uncount(value);
    }
    holds(&rt, histogram == Histogram::<3>::new(10), "nothing is left");
}

// The tests below draw from the stream of seed 0 and process 0, whose words are the published ones of ChaCha with 8 rounds:
// 0x2fef003e, 0xd6405f89, 0xe8b85b7f, 0xa1a5091f, 0xc30e842c, 0x3b7f9ace, 0x88e11b18, 0x1e1a71ef, and on. What they give was
// computed in Python.

fn happens(stream: &mut LpStream) -> Option<bool> {
    let mut draws = Draws::new(stream);
    if draws.room() {
        Some(bernoulli(&mut draws, 1, 4))
    } else {
        None
    }
}

/// `word * 4 >> 32 < 1`.
#[test]
fn a_quarter_happens_by_the_low_words(rt: HostRuntime) {
    let mut stream = LpStream::new(0, 0);
    for expected in [true, false, false, false, false, true, false, true] {
        holds(&rt, happens(&mut stream) == Some(expected), "a quarter");
    }
}

fn weight_drawn(stream: &mut LpStream) -> Option<usize> {
    let mut draws = Draws::new(stream);
    if draws.room() {
        Some(weighted(&mut draws, &[3, 0, 1, 4]))
    } else {
        None
    }
}

/// `word * 8 >> 32`, which is 0 to 2 for the first weight, 3 for the third and more for the last.
#[test]
fn heavy_weights_are_drawn_often(rt: HostRuntime) {
    let mut stream = LpStream::new(0, 0);
    for expected in [0, 3, 3, 3, 3, 0, 3, 0, 2, 0, 2, 0] {
        holds(&rt, weight_drawn(&mut stream) == Some(expected), "a weight");
    }
}

// How often it failed, up to a limit, and how many words were drawn before and after.
fn tries(stream: &mut LpStream, limit: u32) -> (u32, u32, u32)
    requires some { 1 ≤ limit }
    requires few { limit ≤ 6 }
{
    let mut draws = Draws::new(stream);
    let before = draws.drawn();
    let failed = geometric(&mut draws, 1, 4, limit);
    (before, failed, draws.drawn())
}

/// How many words come before the first below 2^30, of six at most, and how many were drawn.
#[test]
fn tries_go_on_until_it_happens(rt: HostRuntime) {
    let mut stream = LpStream::new(1, 0);
    holds(&rt, tries(&mut stream, 6) == (0, 6, 6), "the limit");
    holds(&rt, tries(&mut stream, 6) == (0, 4, 5), "four fail");
    holds(&rt, tries(&mut stream, 6) == (0, 0, 1), "none fails");
    holds(&rt, tries(&mut stream, 6) == (0, 2, 3), "two fail");
    holds(&rt, tries(&mut stream, 2) == (0, 2, 2), "a lower limit");
}

fn ticks_drawn(stream: &mut LpStream) -> Option<u64> {
    let mut draws = Draws::new(stream);
    if draws.room() {
        Some(exponential(&mut draws, 100))
    } else {
        None
    }
}

/// `round(-math.log(word / 2**32) * 100)`.
#[test]
fn exponential_ticks_are_rounded_logarithms(rt: HostRuntime) {
    let mut stream = LpStream::new(0, 0);
    for expected in [
        168, 18, 10, 46, 27, 146, 63, 214, 80, 136, 91, 231, 45, 502, 32, 134, 291,
    ] {
        holds(&rt, ticks_drawn(&mut stream) == Some(expected), "ticks");
    }
}
