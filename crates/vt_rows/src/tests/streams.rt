//! Random words: published ones, far positions, and going back.

use crate::tests::told::holds;
use std::process::Abort;
use std::rt::HostRuntime;
use vt_stream::LpStream;

/// The words of seed 0 and process 0: all is zero.
const ZERO: [u32; 17] = [
    0x2fef003e, 0xd6405f89, 0xe8b85b7f, 0xa1a5091f, 0xc30e842c, 0x3b7f9ace, 0x88e11b18, 0x1e1a71ef,
    0x72e14c98, 0x416f21b9, 0x6753449f, 0x19566d45, 0xa3424a31, 0x01b086da, 0xb8fd7b38, 0x42fe0c0e,
    0x0dfaaed2,
];

/// The words of seed 1 and process 0: one bit of the key is set.
const KEY_BIT: [u32; 17] = [
    0xa0e95ecf, 0x61a94a49, 0xedd5053e, 0x4b805b72, 0x65a4f412, 0xcc5a63ee, 0xe81d313a, 0xea890474,
    0xf4049d28, 0xdb18753c, 0x3344eb56, 0x23a198e4, 0x4d46d88c, 0xbbdd6337, 0x3bee2292, 0xc8e3fad8,
    0x7d5a35b4,
];

/// The words of seed 0 and process 1: one bit of the nonce is set.
const NONCE_BIT: [u32; 17] = [
    0xb34b8f2b, 0xca068379, 0x7cd43051, 0xd14e8d4f, 0xcceda03a, 0x4269bec1, 0xecae0f09, 0x9b59d7a0,
    0x61fef07f, 0xa05ab26b, 0xfdd63a15, 0x49958bc8, 0x2624c203, 0x7bb978d4, 0xb1f9b822, 0x06cf00db,
    0xfbdf0b47,
];

// A stream must give these words, and then be at the position behind them.
fn gives(rt: &impl Abort, seed: u64, lp: u32, words: [u32; 17]) {
    let mut stream = LpStream::new(seed, lp);
    for word in words {
        holds(rt, stream.word() == word, "a published word");
    }
    holds(rt, stream.place() == 17, "the place behind 17 words");
}

/// The streams of a seed and a process whose words are published: the key stream of ChaCha with 8 rounds and a 256-bit key
/// in the test vectors of J. Strömbergson (draft-strombergson-chacha-test-vectors): all zero, one bit of the key set, one
/// bit of the nonce set. The last position is in the second block.
#[test]
fn words_are_the_published_ones(rt: HostRuntime) {
    gives(&rt, 0, 0, ZERO);
    gives(&rt, 1, 0, KEY_BIT);
    gives(&rt, 0, 1, NONCE_BIT);
}

// Whether a stream gives this word at this position, also once it went back.
fn gives_at(seed: u64, lp: u32, place: u64, word: u32) -> bool {
    let mut stream = LpStream::new(seed, lp);
    stream.seek(place);
    let is_there = stream.place() == place && stream.word() == word;
    stream.back(1);
    is_there && stream.word() == word
}

/// Words far out and at the edges of what a stream keeps, as two other programs give them: one in Python after RFC 8439,
/// and one in Rust that computes a block at a time.
#[test]
fn any_place_can_be_sought(rt: HostRuntime) {
    let last = gives_at(258, 1, u64::MAX, 4_241_974_602);
    holds(
        &rt,
        last && gives_at(258, 1, 0, 701_848_582),
        "the last place, and the first",
    );
    let far = gives_at(u64::MAX, 65_535, (1 << 40) + 5, 2_866_404_936);
    holds(&rt, far, "a far place");
    let edge = gives_at(7, 3, 63, 2_362_054_594) && gives_at(7, 3, 64, 3_133_867_379);
    holds(&rt, edge, "an edge");
}

/// The position behind the last one is the first. What was drawn before makes no difference at a position that is sought.
#[test]
fn places_go_round(rt: HostRuntime) {
    let mut stream = LpStream::new(258, 1);
    stream.seek(u64::MAX);
    let last = stream.word();
    holds(&rt, stream.place() == 0, "the place behind the last one");
    stream.back(1);
    holds(&rt, stream.place() == u64::MAX, "back at the last place");
    holds(&rt, stream.word() == last, "the word of the last place");
    let (mut drawn, mut fresh) = (LpStream::new(258, 1), LpStream::new(258, 1));
    drawn.word();
    drawn.seek(5);
    fresh.seek(5);
    holds(&rt, drawn.word() == fresh.word(), "one word at one place");
}

/// A draw below 1 is 0 and takes a word. A draw below 2^32 is the word.
#[test]
fn draws_take_one_word(rt: HostRuntime) {
    let (mut stream, mut words) = (LpStream::new(0, 0), LpStream::new(0, 0));
    holds(&rt, stream.below(1) == 0, "below 1");
    holds(&rt, stream.place() == 1, "one word");
    words.word();
    let is_word = stream.below(1 << 32) == u64::from(words.word());
    holds(&rt, is_word && stream.place() == 2, "below 2^32");
}
