//! A model that counts how often it is called.

use std::cell::Cell;
use vt_key::When;
use vt_model::{Bits, Draws, Model as EventModel, Out};

/// A model that counts the calls of its handlers, and otherwise is another.
#[derive(Drop)]
pub(crate) struct Counting<M: EventModel> {
    model: M,
    starts: Cell<u64>,
    forwards: Cell<u64>,
    reverses: Cell<u64>,
}

impl<M: EventModel> Counting<M> {
    pub(crate) fn new(model: M) -> Counting<M> {
        Counting {
            model,
            starts: Cell::new(0),
            forwards: Cell::new(0),
            reverses: Cell::new(0),
        }
    }

    /// How often `start`, `forward` and `reverse` were called.
    pub(crate) fn calls(&self) -> [u64; 3] {
        [self.starts.get(), self.forwards.get(), self.reverses.get()]
    }
}

fn count(calls: &Cell<u64>) {
    calls.set(calls.get().wrapping_add(1));
}

impl<M: EventModel> EventModel for Counting<M> {
    type State = M::State;

    type Payload = M::Payload;

    type Kept = M::Kept;

    ghost handlers = { λ m. M.handlers m.model };

    ghost IsState = { λ m s. M.IsState m.model s };

    fn start(&self, lp: u32, draws: &mut Draws<'_>, out: &mut Out<M::Payload>) -> M::State {
        count(&self.starts);
        self.model.start(lp, draws, out)
    }

    fn forward(
        &self,
        lp: u32,
        now: When,
        payload: M::Payload,
        state: &mut M::State,
        bits: &mut Bits,
        draws: &mut Draws<'_>,
        out: &mut Out<M::Payload>,
    ) -> M::Kept {
        count(&self.forwards);
        self.model
            .forward(lp, now, payload, state, bits, draws, out)
    }

    fn reverse(
        &self,
        lp: u32,
        now: When,
        payload: M::Payload,
        state: &mut M::State,
        bits: Bits,
        kept: M::Kept,
    ) {
        count(&self.reverses);
        self.model.reverse(lp, now, payload, state, bits, kept);
    }

    fn finish(&self, lp: u32, state: &M::State) -> u64 {
        self.model.finish(lp, state)
    }

    ghost start_within = { λ m. M.start_within m.model };

    ghost forward_within = { λ m. M.forward_within m.model };

    ghost start_state = { λ m. M.start_state m.model };

    ghost forward_state = { λ m. M.forward_state m.model };

    ghost undoes = { λ m. M.undoes m.model };

    ghost payload_size = { M.payload_size };

    ghost payload_align = { M.payload_align };

    ghost kept_size = { M.kept_size };

    ghost kept_align = { M.kept_align };
}
