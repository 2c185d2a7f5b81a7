//! Counts by colour.

ghost use Rattle.std.specs.Prelude.{◌≡◌, ◌+◌, ◌<◌, ◌≤◌, ◌⊎◌, IfSome, IfNone};
ghost use Rattle.vt_key.specs.declared.letter.Colour.TheVariants.{White, Red};
ghost use Rattle.vt_key.specs.declared.limits.TheConstants.{MAX_COUNT};
ghost use Rattle.vt_kernel.specs.inside.Held.{AreCounted};
ghost use Rattle.vt_steps.specs.promise.Letters.{count_of, raised, count_colour};

use std::marker::Model;
use vt_key::{Colour, MAX_COUNT, Mail};

/// A count of mail for each colour.
#[derive(Drop)]
pub struct Counts {
    white: u64,
    red: u64,
}

impl Model for Counts {
    ghost use Rattle.vt_steps.specs.promise.Letters.{Counts};

    ghost Value = { Counts };

    ghost view = { λ c. record { white = c.white; red = c.red } };
}

impl Counts {
    /// Zero of each colour.
    pub fn new() -> Counts
        ensures { result ≡ record { white = 0; red = 0 } }
    {
        Counts { white: 0, red: 0 }
    }

    /// The count of this colour.
    pub fn of(&self, colour: Colour) -> u64
        ensures { result ≡ count_of self.now colour }
    {
        match colour {
            Colour::White => self.white,
            Colour::Red => self.red,
        }
    }

    /// The numbers of these letters by colour.
    pub fn of_mail<P>(mails: &[Mail<P>]) -> Counts
        ensures white { result.white ≡ count_colour White mails.now }
        ensures red { result.red ≡ count_colour Red mails.now }
    {
        let mut white = 0;
        let mut red = 0;
        for mail in mails {
            match mail.colour {
                Colour::White => white += 1,
                Colour::Red => red += 1,
            }
        }
        Counts { white, red }
    }

    /// The sums by colour; None if one would pass 2^63.
    pub fn plus(&self, more: &Counts) -> Option<Counts>
        ensures sum { IfSome result (λ c. c ≡ record { white = self.now.white + more.now.white; red = self.now.red + more.now.red }) }
        ensures counted { IfSome result (λ c. AreCounted c) }
        ensures passed { IfNone result ((MAX_COUNT < self.now.white + more.now.white) ⊎ (MAX_COUNT < self.now.red + more.now.red)) }
    {
        let white = checked_sum(self.white, more.white)?;
        let red = checked_sum(self.red, more.red)?;
        Some(Counts { white, red })
    }

    /// How much more mail of this colour may be counted, up to 2^63.
    pub fn room(&self, colour: Colour) -> u64
        requires few { count_of self.now colour ≤ MAX_COUNT }
        ensures { result + count_of self.now colour ≡ MAX_COUNT }
    {
        MAX_COUNT - self.of(colour)
    }

    /// Raises the count of this colour by `more`.
    pub fn raise(&mut self, colour: Colour, more: u64)
        requires few { count_of self.old colour + more ≤ MAX_COUNT }
        ensures { self.new ≡ raised self.old colour more }
    {
        match colour {
            Colour::White => self.white += more,
            Colour::Red => self.red += more,
        }
    }
}

/// The sum of two counts; None if it would pass 2^63.
fn checked_sum(count: u64, more: u64) -> Option<u64>
    ensures sum { IfSome result (λ n. (n ≡ count + more) × (n ≤ MAX_COUNT)) }
    ensures passed { IfNone result (MAX_COUNT < count + more) }
{
    if count > MAX_COUNT || more > MAX_COUNT - count {
        return None;
    }
    Some(count + more)
}
