//! A seekable stream of ChaCha with 8 rounds.
//!
//! The block function is that of RFC 8439 as `rand_chacha` states it, with 8 rounds. Seed, process and position
//! determine a word. So a rollback gives words back by moving the position back.

ghost use Rattle.std.specs.Prelude.{◌≡◌, ℕ, ◌+◌, ◌-◌, ◌*◌, ◌/◌, ◌%◌, ◌^◌, ◌<◌, ◌≤◌, slice_index};
ghost use Rattle.vt_stream.specs.promise.Words.{seed_key, word};
ghost use Rattle.vt_stream.specs.inside.Words.{word_of, moved};

use rand_chacha::ChaCha8Rng;
use rand_core::SeedableRng;
use rand_core::utils::NextWord;
use std::marker::Model;

// How many words a stream keeps: half of what `rand_chacha` computes at once, since every process keeps as many.
const WINDOW: usize = 32;

/// The stream of random words of one logical process. Contracts see its key, its process and the position
/// of the next word.
///
/// It keeps the words around its position. Drawing one of them, going back and seeking compute nothing.
#[derive(Drop)]
pub struct LpStream {
    seed: u64,
    lp: u32,
    // The words from position `first` on; `len` of them are known, none at first and then all. The fields that each draw
    // reads stand together behind them.
    words: [u32; WINDOW],
    first: u64,
    len: u64,
    place: u64,
}

impl Model for LpStream {
    ghost use Rattle.std.specs.Prelude.{◌≤◌};
    ghost use Rattle.vt_stream.specs.promise.Words.{seed_key};
    ghost use Rattle.vt_stream.specs.inside.Words.{Stream, AreWordsFrom};

    ghost Value = { Stream };

    ghost view = { λ s. record { key = seed_key s.seed; process = s.lp; place = s.place } };

    ghost invariant = { λ s. (s.len ≤ 32) × AreWordsFrom (seed_key s.seed) s.lp s.first s.len s.words };
}

impl LpStream {
    /// The stream of process `lp` at position 0. Its key is the eight bytes of `seed`, the low one first, and 24 zero bytes.
    pub fn new(seed: u64, lp: u32) -> Self
        ensures { result ≡ record { key = seed_key seed; process = lp; place = 0 } }
    {
        LpStream {
            seed,
            lp,
            place: 0,
            first: 0,
            len: 0,
            words: [0; WINDOW],
        }
    }

    /// Draws the word at the position, which rises by one, modulo 2^64.
    pub fn word(&mut self) -> u32
        ensures value { result ≡ word_of self.old 0 }
        ensures after { self.new ≡ moved self.old 1 }
    {
        let mut at = self.place.wrapping_sub(self.first);
        if at >= self.len {
            at = self.place % WINDOW as u64;
            self.first = self.place - at;
            fill(self.seed, self.lp, self.first, &mut self.words);
            self.len = WINDOW as u64;
        }
        self.place = self.place.wrapping_add(1);
        self.words[at as usize]
    }

    /// Draws the word at the position, scaled to a number below `n`, which is from 1 to 2^32: the word times `n`, divided
    /// by 2^32 and rounded down. The position rises by one, modulo 2^64.
    pub fn below(&mut self, n: u64) -> u64
        requires low { 1 ≤ n }
        requires high { n ≤ 2 ^ 32 }
        ensures value { result ≡ word_of self.old 0 * n / 2 ^ 32 }
        ensures within { result < n }
        ensures after { self.new ≡ moved self.old 1 }
    {
        let word = u64::from(self.word());
        (word * n) / (1 << 32)
    }

    /// Goes back by `count` words, modulo 2^64: the words that were drawn there come again.
    pub fn back(&mut self, count: u64)
        ensures { self.new ≡ record self.old { place = (self.old.place + (2 ^ 64 - count)) % 2 ^ 64 } }
    {
        self.place = self.place.wrapping_sub(count);
    }

    /// Moves the position to `place`: the next word is the one there.
    pub fn seek(&mut self, place: u64)
        ensures { self.new ≡ record self.old { place = place } }
    {
        self.place = place;
    }

    /// The position of the next word, modulo 2^64.
    pub fn place(&self) -> u64
        ensures { result ≡ self.now.place }
    {
        self.place
    }
}

// Writes the words of a process from position `first` on.
fn fill(seed: u64, lp: u32, first: u64, words: &mut [u32; WINDOW])
    requires { first + 32 ≤ 2 ^ 64 }
    ensures { (i : ℕ) → i < 32 → slice_index words.new i ≡ word (seed_key seed) lp (first + i) }
{
    let mut bytes = [0; 32];
    bytes[..8].copy_from_slice(&seed.to_le_bytes());
    let mut rng = ChaCha8Rng::from_seed(bytes);
    rng.set_stream(u64::from(lp));
    rng.set_word_pos(u128::from(first));
    'words: for word in words.iter_mut() {
        *word = rng.next_word();
    }
}
