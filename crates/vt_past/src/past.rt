//! The past events of a process.

ghost use Rattle.std.specs.Prelude.{◌≡◌, ◌%◌, ◌^◌, [], ◌∷◌, ◌++◌, length, slice_get, MatchOption};
ghost use Rattle.std.specs.Option.{option_copied};
ghost use Rattle.vt_past.specs.inside.Events.{last_rank};

use crate::event::PastEvent;
use std::alloc::Global;
use std::marker::Model;
use vt_key::Rank;
use vt_list::{List, Parcel};

/// Past events, in the order of their execution. A clause sees the list of them.
///
/// The rank of the last one is kept beside the list. So deciding what may be executed next reads no past event.
#[derive(Drop)]
pub struct Past<P: Copy, K: Copy> {
    events: List<PastEvent<P, K>>,
    last: Option<Rank>,
}

impl<P: Copy, K: Copy> Model for Past<P, K> {
    ghost use Rattle.std.specs.Prelude.{List as Events, ◌≡◌};
    ghost use Rattle.vt_past.specs.declared.event.PastEvent.{PastEvent};
    ghost use Rattle.vt_past.specs.inside.Events.{last_rank};

    ghost Value = { Events (PastEvent P K) };

    ghost view = { λ p. p.events };

    ghost invariant = { λ p. p.last ≡ last_rank p.events };
}

impl<P: Copy, K: Copy> Past<P, K> {
    /// No past events.
    pub fn new(alloc: Global) -> Past<P, K>
        ensures { result ≡ [] }
    {
        Past {
            events: List::new(alloc),
            last: None,
        }
    }

    /// The number of events, modulo 2^64.
    pub fn len(&self) -> usize
        ensures { result ≡ length self.now % 2 ^ 64 }
    {
        self.events.len()
    }

    /// The rank of the last event; None if there is none.
    pub fn last_rank(&self) -> Option<Rank>
        ensures { result ≡ last_rank self.now }
    {
        self.last
    }

    /// The first event; None if there is none.
    pub fn front(&self) -> Option<&PastEvent<P, K>>
        ensures { option_copied result ≡ slice_get self.now 0 }
    {
        self.events.front()
    }

    /// The events.
    pub fn events(&self) -> &List<PastEvent<P, K>>
        ensures { result.now ≡ self.now }
    {
        &self.events
    }

    /// Puts an event behind all others.
    pub fn push_back(&mut self, event: Parcel<PastEvent<P, K>>)
        ensures { self.new ≡ self.old ++ event ∷ [] }
    {
        self.last = Some(event.get().letter.get().event.rank);
        self.events.push_back(event);
    }

    /// Takes out the first event; None if there is none.
    pub fn pop_front(&mut self) -> Option<Parcel<PastEvent<P, K>>>
        ensures { MatchOption result ((self.old ≡ []) × (self.new ≡ [])) (λ p. self.old ≡ p ∷ self.new) }
    {
        let first = self.events.pop_front();
        if self.events.is_empty() {
            self.last = None;
        }
        first
    }

    /// Takes out the last event; None if there is none.
    pub fn pop_back(&mut self) -> Option<Parcel<PastEvent<P, K>>>
        ensures { MatchOption result ((self.old ≡ []) × (self.new ≡ [])) (λ p. self.old ≡ self.new ++ p ∷ []) }
    {
        let last = self.events.pop_back();
        self.last = rank_of_last(&self.events);
        last
    }
}

/// The rank of the last of these events; None if there are none.
fn rank_of_last<P: Copy, K: Copy>(events: &List<PastEvent<P, K>>) -> Option<Rank>
    ensures { result ≡ last_rank events.now }
{
    match events.back() {
        Some(last) => Some(last.letter.get().event.rank),
        None => None,
    }
}
