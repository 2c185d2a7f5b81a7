//! Keys, stamps and ranks, and their orders.

ghost use Rattle.std.specs.Prelude.{◌≡◌, ◌==◌, ◌<◌, ◌^◌};
ghost use Rattle.std.specs.Ordering.{on, eq_of_both, as_partial_cmp};
ghost use Rattle.std.specs.Cmp.{partial_order_from_own_ties};
ghost use Rattle.std.proofs.Common.{rules};
ghost use Rattle.std.specs.Cmp.Rules.{comparing};
ghost use Rattle.vt_key.specs.inside.Keys.{key_cmp, key_head};
ghost use Rattle.vt_key.specs.promise.Order.{KeyBefore, key_before, rank_before, rank_same, stamp_same};
ghost use Rattle.vt_key.specs.inside.Order.{StampBefore, RankBefore, IsStrictTotal};

use crate::When;
use std::cmp::Ordering;
use std::marker::Model;

/// The name of an event in virtual time. Keys compare field by field: time, then source, then number. So events of one time
/// have an order that doesn't depend on the schedule.
///
/// The number is part of the sender's state and is rolled back with it, so an event that is sent again may have the key of
/// a cancelled one: a [`Stamp`] tells the two apart.
///
/// A key has 24 bytes. One that held a [`When`] would have 32.
#[derive(Debug, Clone, Copy, Hash)]
pub struct Key {
    /// The tick of the time.
    ticks: u64,
    number: u64,
    source: u32,
    /// The priority of the time, below 256. A whole word: a key with padding would be copied by parts of words.
    priority: u32,
}

impl Model for Key {
    ghost use Rattle.std.specs.Prelude.{◌<◌};
    ghost use Rattle.vt_key.specs.promise.Keys.{Key};
    ghost use Rattle.vt_key.specs.promise.Times.{at, ticks_of, priority_of};

    ghost Value = { Key };

    ghost use Rattle.vt_key.specs.inside.Pairs.{key_again};

    ghost view = { λ k. record { time = at k.ticks k.priority; source = k.source; number = k.number } };

    ghost invariant = { λ k. k.priority < 256 };

    ghost inverse = { λ v. record { ticks = ticks_of v.time; number = v.number; source = v.source; priority = priority_of v.time } };

    ghost inverse_ok = { λ k h. key_again k h };
}

impl Key {
    /// The key of the event that process `source` sends for `time` after `number` others.
    pub fn new(time: When, source: u32, number: u64) -> Key
        ensures { result ≡ record { time = time; source = source; number = number } }
    {
        Key {
            ticks: time.ticks(),
            number,
            source,
            priority: u32::from(time.priority()),
        }
    }

    /// When the event is received.
    pub fn when(&self) -> When
        ensures { result ≡ self.now.time }
    {
        When::new(self.ticks, self.priority as u8)
    }

    /// The logical process that sent it.
    pub fn source(&self) -> u32
        ensures { result ≡ self.now.source }
    {
        self.source
    }

    /// How many events that process had sent before it.
    pub fn number(&self) -> u64
        ensures { result ≡ self.now.number }
    {
        self.number
    }

    #[tactic(auto, unfolding(crate::specs::promise::Order::key_before))]
    /// Whether this key is before the other.
    pub fn is_before(&self, other: &Key) -> bool
        ensures { result ≡ key_before self.now other.now }
    {
        let own = self.head();
        let others = other.head();
        if own == others {
            return self.number < other.number;
        }
        own < others
    }

    /// The time and the source in one number, in whose order keys compare first. One comparison of two numbers takes no
    /// branch. A branch for each field would often be mispredicted, since many events have one time.
    fn head(&self) -> u128
        ensures value { result ≡ key_head self.now }
        ensures fits { self.now.source < 2 ^ 32 }
    {
        let rest = self.priority as u64 * 0x100_0000_0000_0000 + self.source as u64 * 0x100_0000;
        self.ticks as u128 * 0x1_0000_0000_0000_0000 + rest as u128
    }
}

impl PartialEq for Key {
    ghost eq = { eq_of_both (on (λ k. k.time) ◌==◌) (eq_of_both (on (λ k. k.source) ◌==◌) (on (λ k. k.number) ◌==◌)) };

    ghost laws = { Prim.search (comparing, rules) };

    fn eq(&self, other: &Key) -> bool {
        self.head() == other.head() && self.number == other.number
    }
}

impl Eq for Key {
    ghost laws = { Prim.search (comparing, rules) };
}

impl Ord for Key {
    ghost cmp = { key_cmp };

    ghost total = { Prim.search (comparing, rules) };

    ghost matches_partial_cmp = { Prim.search (comparing, rules) };

    ghost matches_eq = { Prim.search (comparing, rules) };

    fn cmp(&self, other: &Key) -> Ordering {
        let own = self.head();
        let others = other.head();
        if own == others {
            return self.number.cmp(&other.number);
        }
        own.cmp(&others)
    }
}

impl PartialOrd for Key {
    ghost partial_cmp = { as_partial_cmp key_cmp };

    ghost laws = { partial_order_from_own_ties (Prim.search (comparing, rules)) (Prim.search (comparing, rules)) };

    fn partial_cmp(&self, other: &Key) -> Option<Ordering> {
        Some(self.cmp(other))
    }
}

/// The name of one making of an event: the worker that made it, and that worker's serial. Serials never go back, so no two
/// events ever made have the same stamp.
#[derive(Debug, Clone, Copy, PartialEq, Eq, PartialOrd, Ord, Hash)]
pub struct Stamp {
    /// The worker that made the event.
    pub worker: u32,
    /// The worker's serial when it made the event. It rises by one with each event.
    pub serial: u64,
}

impl Stamp {
    #[tactic(auto, unfolding(crate::specs::promise::Order::stamp_same))]
    /// Whether the two stamps are equal.
    pub fn is_same(&self, other: &Stamp) -> bool
        ensures { result ≡ stamp_same self.now other.now }
    {
        self == other
    }
}

/// What orders an event in a queue. Ranks compare by the key, and for equal keys by the stamp.
#[derive(Debug, Clone, Copy, PartialEq, Eq, PartialOrd, Ord, Hash)]
pub struct Rank {
    /// The event's name in virtual time.
    pub key: Key,
    /// Which making of the event this is.
    pub stamp: Stamp,
}

impl Rank {
    #[tactic(auto, unfolding(crate::specs::promise::Order::rank_before, crate::specs::promise::Order::key_before, crate::specs::promise::Order::key_same, crate::specs::promise::Order::stamp_before))]
    /// Whether this rank is before the other.
    pub fn is_before(&self, other: &Rank) -> bool
        ensures { result ≡ rank_before self.now other.now }
    {
        self.key.is_before(&other.key) || (self.key == other.key && self.stamp < other.stamp)
    }

    #[tactic(auto, unfolding(crate::specs::promise::Order::rank_same, crate::specs::promise::Order::key_same, crate::specs::promise::Order::stamp_same))]
    /// Whether the two ranks are equal.
    pub fn is_same(&self, other: &Rank) -> bool
        ensures { result ≡ rank_same self.now other.now }
    {
        *self == *other
    }
}

/// The orders of keys, stamps and ranks are strict and total: no value is before itself, the order is transitive, and of
/// two different values one is before the other.
pub fn orders_are_total()
    ensures keys { IsStrictTotal KeyBefore }
    ensures stamps { IsStrictTotal StampBefore }
    ensures ranks { IsStrictTotal RankBefore }
{}
