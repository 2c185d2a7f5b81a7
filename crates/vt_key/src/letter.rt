//! Events, the letters that bring them or take them back, and the mail between workers.

ghost use Rattle.std.specs.Prelude.{◌≡◌};
ghost use Rattle.vt_key.specs.promise.Letters.{other_colour};
ghost use Rattle.vt_key.specs.declared.order.Rank.{Rank};

use crate::Rank;

/// An event for a logical process.
#[derive(Debug, Clone, Copy)]
pub struct Event<P> {
    /// Its key in virtual time, with the stamp of its making.
    pub rank: Rank,
    /// The logical process that receives it.
    pub dest: u32,
    /// What it carries.
    pub payload: P,
}

/// Whether a letter brings an event or takes it back.
#[derive(Debug, Clone, Copy, PartialEq, Eq)]
pub enum Sign {
    /// The letter is a message: it brings the event.
    Plus,
    /// The letter is an anti-message: it takes the event back.
    Minus,
}

/// A message or an anti-message. An anti-message equals its message in all but the sign. The two annihilate each other,
/// whichever arrives first (Jefferson, Virtual Time, 1985).
#[derive(Debug, Clone, Copy)]
pub struct Letter<P> {
    /// The event that is brought or taken back.
    pub event: Event<P>,
    /// Whether the letter brings the event or takes it back.
    pub sign: Sign,
}

/// The colour of a worker and of the mail that it sends. Mail sent before a cut has another colour than mail sent after it
/// (Mattern, Efficient Algorithms for Distributed Snapshots and Global Virtual Time Approximation, 1993).
#[derive(Debug, Clone, Copy, PartialEq, Eq)]
pub enum Colour {
    /// The colour of all workers at first.
    White,
    /// The other colour.
    Red,
}

impl Colour {
    /// The colour that a worker of this colour takes at its next cut.
    pub fn other(self) -> Colour
        ensures { result ≡ other_colour self }
    {
        match self {
            Colour::White => Colour::Red,
            Colour::Red => Colour::White,
        }
    }
}

/// A letter on its way between two workers, in the colour that its sender had.
#[derive(Debug, Clone, Copy)]
pub struct Mail<P> {
    /// The letter.
    pub letter: Letter<P>,
    /// The sender's colour when it was sent.
    pub colour: Colour,
}

/// A value with a rank, by which queues are ordered.
pub trait Ranked {
    /// The rank of a value.
    ghost rank_of: { Self → Rank };

    /// The rank of this value.
    fn rank(&self) -> Rank
        ensures { result ≡ rank_of self.now };
}

impl<P> Ranked for Event<P> {
    ghost rank_of = { λ e. e.rank };

    fn rank(&self) -> Rank {
        self.rank
    }
}

impl<P> Ranked for Letter<P> {
    ghost rank_of = { λ l. l.event.rank };

    fn rank(&self) -> Rank {
        self.event.rank
    }
}
