//! Virtual times: ticks with priorities.

ghost use Rattle.std.specs.Prelude.{◌≡◌, ◌+◌, ◌<◌, ◌^◌, ◌==◌, ◌↔◌, ◌⊎◌, ℕ};
ghost use Rattle.std.specs.Ordering.{nat_cmp, as_partial_cmp};
ghost use Rattle.std.specs.Cmp.{partial_order_from_own_ties};
ghost use Rattle.std.proofs.Common.{rules};
ghost use Rattle.std.specs.Cmp.Rules.{comparing};
ghost use Rattle.vt_key.specs.promise.Times.{TimeBefore, at, ticks_of, priority_of, earlier};

use std::cmp::Ordering;
use std::marker::Model;

/// A virtual time: a tick, and a priority within the tick. Each model decides what a tick is. Delays are in ticks too.
///
/// Times compare by the tick, and within a tick by the priority: 0 is the first. Processes start at tick 0. An event is
/// executed at its receive time, whose tick is before the run's end. Ends go up to [`MAX_END`](crate::MAX_END) ticks.
///
/// Virtual time is Jefferson's (Virtual Time, ACM TOPLAS 7(3), 1985).
#[derive(Debug, Clone, Copy, Hash)]
pub struct When {
    /// The tick.
    pub time: u64,
    /// The order within the tick: 0 comes first.
    pub priority: u8,
}

impl Model for When {
    ghost use Rattle.std.specs.Prelude.{ℕ, ◌<◌};
    ghost use Rattle.std.specs.Coded.{coded_ℕ};
    ghost use Rattle.vt_key.specs.promise.Times.{at, ticks_of, priority_of};
    ghost use Rattle.vt_key.specs.inside.Pairs.{pair_again};

    ghost Value = { ℕ };

    ghost coded = { coded_ℕ };

    ghost view = { λ w. at w.time w.priority };

    ghost invariant = { λ w. w.priority < 256 };

    ghost inverse = { λ t. record { time = ticks_of t; priority = priority_of t } };

    ghost inverse_ok = { λ w h. pair_again w h };
}

impl PartialEq for When {
    ghost eq = { ◌==◌ };

    ghost laws = { Prim.search (comparing, rules) };

    fn eq(&self, other: &When) -> bool {
        self.time == other.time && self.priority == other.priority
    }
}

impl Eq for When {
    ghost laws = { Prim.search (comparing, rules) };
}

impl Ord for When {
    ghost cmp = { nat_cmp };

    ghost total = { Prim.search (comparing, rules) };

    ghost matches_partial_cmp = { Prim.search (comparing, rules) };

    ghost matches_eq = { Prim.search (comparing, rules) };

    fn cmp(&self, other: &When) -> Ordering {
        match self.time.cmp(&other.time) {
            Ordering::Equal => self.priority.cmp(&other.priority),
            order => order,
        }
    }
}

impl PartialOrd for When {
    ghost partial_cmp = { as_partial_cmp nat_cmp };

    ghost laws = { partial_order_from_own_ties (Prim.search (comparing, rules)) (Prim.search (comparing, rules)) };

    fn partial_cmp(&self, other: &When) -> Option<Ordering> {
        Some(self.cmp(other))
    }
}

impl When {
    /// The time of this tick and this priority.
    pub fn new(time: u64, priority: u8) -> When
        ensures { result ≡ at time priority }
    {
        When { time, priority }
    }

    /// The first time of a tick: that of priority 0.
    pub fn tick(time: u64) -> When
        ensures { result ≡ at time 0 }
    {
        When::new(time, 0)
    }

    /// The tick.
    pub fn ticks(self) -> u64
        ensures { result ≡ ticks_of self }
    {
        self.time
    }

    /// The priority within the tick.
    pub fn priority(self) -> u8
        ensures { result ≡ priority_of self }
    {
        self.priority
    }

    /// The time of this priority in the tick that is `delay` ticks later. That tick has to be below 2^64.
    pub fn after(self, delay: u64, priority: u8) -> When
        requires { ticks_of self + delay < 2 ^ 64 }
        ensures { result ≡ at (ticks_of self + delay) priority }
    {
        When::new(self.time + delay, priority)
    }

    /// The earlier of two times.
    pub fn earlier(self, other: When) -> When
        ensures { result ≡ earlier self other }
    {
        if other < self { other } else { self }
    }
}

/// A time is a tick and a priority, and times compare by the tick, then by the priority. A contract sees a time as one number:
/// this is what the number stands for.
pub fn times_are_pairs()
    ensures parts { (t : ℕ) → (at (ticks_of t) (priority_of t) ≡ t) × (priority_of t < 256) }
    ensures before { (a b p q : ℕ) → p < 256 → q < 256 → TimeBefore (at a p) (at b q) ↔ ((a < b) ⊎ ((a ≡ b) × (p < q))) }
    ensures same { (a b p q : ℕ) → p < 256 → q < 256 → at a p ≡ at b q → (a ≡ b) × (p ≡ q) }
{}
