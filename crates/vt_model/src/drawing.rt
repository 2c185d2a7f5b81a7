//! The random words that one handler draws.

ghost use Rattle.std.specs.Prelude.{◌≡◌, ◌+◌, ◌*◌, ◌/◌, ◌^◌, ◌<◌, ◌≤◌, ◌↔◌, IsTrue};
ghost use Rattle.vt_stream.specs.inside.Words.{word_of, moved};
ghost use Rattle.vt_model.specs.inside.Handler.{IsUndrawn};
ghost use Rattle.vt_model.specs.inside.Drawn.{drawn_in, stream_in, DrawsFrom, IsSameSource};

use crate::MAX_DRAWS;
use vt_stream::LpStream;

/// The source of a handler's random words: at most [`MAX_DRAWS`] of them.
///
/// They are the next words of the stream of the handler's own process. No other process draws from it, so what a process
/// draws depends on the seed, on the process and on how many words it drew before, and on nothing that others do. The
/// simulator gives the words back by itself when it undoes the event.
#[derive(Drop)]
pub struct Draws<'a> {
    stream: &'a mut LpStream,
    drawn: u32,
}

impl<'a> Draws<'a> {
    /// The source of a handler's words from this stream: nothing is drawn yet. For simulators.
    pub fn new(stream: &'a mut LpStream) -> Draws<'a>
        ensures same_reference { DrawsFrom stream.entry result }
        ensures stream { stream_in result ≡ stream.old }
        ensures undrawn { IsUndrawn (drawn_in result) (stream_in result) }
    {
        let _place = stream.place();
        Draws { stream, drawn: 0 }
    }

    /// Whether one more word may be drawn.
    pub fn room(&self) -> bool
        ensures { IsTrue result ↔ (drawn_in self.now < MAX_DRAWS) }
    {
        self.drawn < MAX_DRAWS
    }

    /// How many words were drawn. For simulators.
    pub fn drawn(&self) -> u32
        ensures { result ≡ drawn_in self.now }
    {
        self.drawn
    }

    /// The next word of the process's stream, from 0 to 2^32 - 1. There must be room ([`Draws::room`]).
    pub fn word(&mut self) -> u32
        requires { drawn_in self.old < MAX_DRAWS }
        ensures value { result ≡ word_of (stream_in self.old) 0 }
        ensures same_reference { IsSameSource self.old self.new }
        ensures stream { stream_in self.new ≡ moved (stream_in self.old) 1 }
        ensures drawn { drawn_in self.new ≡ drawn_in self.old + 1 }
    {
        self.drawn += 1;
        self.stream.word()
    }

    /// The next word of the process's stream scaled to a number from 0 to `n - 1`: the word times `n`, divided by 2^32 and
    /// rounded down. It draws one word. There must be room ([`Draws::room`]), and `n` is from 1 to 2^32.
    pub fn below(&mut self, n: u64) -> u64
        requires room { drawn_in self.old < MAX_DRAWS }
        requires low { 1 ≤ n }
        requires high { n ≤ 2 ^ 32 }
        ensures value { result ≡ word_of (stream_in self.old) 0 * n / 2 ^ 32 }
        ensures within { result < n }
        ensures same_reference { IsSameSource self.old self.new }
        ensures stream { stream_in self.new ≡ moved (stream_in self.old) 1 }
        ensures drawn { drawn_in self.new ≡ drawn_in self.old + 1 }
    {
        self.drawn += 1;
        self.stream.below(n)
    }
}
