//! Customers who wait in a short line, and how long.
#![tactic(auto)]

ghost use Rattle.std.specs.Prelude.{◌≡◌};

use vt_key::When;
use vt_model::{Bits, Draws, Model as EventModel, Out};
use vt_parts::{Histogram, Ring, exponential};

/// How many customers can wait.
pub const ROOM: usize = 4;

/// How many bins of waits are counted, each ten ticks wide.
pub const BINS: usize = 8;

// The mean time between two customers, in ticks.
const GAP: u32 = 12;

// How often a customer is served, in ticks.
const SERVICE: u64 = 10;

/// What happens at a desk.
#[derive(Debug, Clone, Copy, PartialEq, Eq)]
pub enum Visit {
    /// A customer comes, and goes away again where the line is full.
    Come,
    /// The first customer in the line is served, if there is one.
    Serve,
}

/// The state of a desk.
#[derive(Debug, Clone, Copy, PartialEq, Eq)]
pub struct Desk {
    /// The tick at which each customer in the line came.
    pub line: Ring<u64, ROOM>,
    /// How long those waited who were served.
    pub waits: Histogram<BINS>,
}

/// Desks, each with a line of its own.
#[derive(Debug, Clone, Copy, PartialEq, Eq)]
pub struct Desks;

impl EventModel for Desks {
    type State = Desk;

    type Payload = Visit;

    type Kept = Option<u64>;

    ghost use Rattle.std.proofs.Common.{lit<, lit≤};
    ghost use Rattle.vt_desk.specs.inside.Desk.{desk_handlers, IsDesk};
    ghost use Rattle.vt_desk.specs.inside.DeskLaws.{start_within, forward_within, start_state, forward_state, undoes};

    ghost handlers = { λ m. desk_handlers };

    ghost IsState = { λ m s. IsDesk s };

    fn start(&self, lp: u32, _draws: &mut Draws<'_>, out: &mut Out<Visit>) -> Desk {
        out.send(lp, 1, 0, Visit::Come);
        out.send(lp, SERVICE, 0, Visit::Serve);
        Desk {
            line: Ring::new(0),
            waits: Histogram::new(10),
        }
    }

    fn forward(
        &self,
        lp: u32,
        now: When,
        payload: Visit,
        state: &mut Desk,
        _bits: &mut Bits,
        draws: &mut Draws<'_>,
        out: &mut Out<Visit>,
    ) -> Option<u64> {
        match payload {
            Visit::Come => {
                out.send(lp, 1 + exponential(draws, GAP), 0, Visit::Come);
                state.line.push(now.ticks())
            }
            Visit::Serve => {
                out.send(lp, SERVICE, 0, Visit::Serve);
                let came = state.line.pop();
                if let Some(came) = came {
                    state.waits.count(now.ticks().wrapping_sub(came));
                }
                came
            }
        }
    }

    fn reverse(
        &self,
        _lp: u32,
        now: When,
        payload: Visit,
        state: &mut Desk,
        _bits: Bits,
        kept: Option<u64>,
    ) {
        match payload {
            Visit::Come => state.line.unpush(kept),
            Visit::Serve => {
                if let Some(came) = kept {
                    state.waits.uncount(now.ticks().wrapping_sub(came));
                }
                state.line.unpop(kept);
            }
        }
    }

    fn finish(&self, _lp: u32, state: &Desk) -> u64 {
        state.waits.total()
    }

    ghost start_within = { start_within };

    ghost forward_within = { forward_within };

    ghost start_state = { start_state };

    ghost forward_state = { forward_state };

    ghost undoes = { undoes };

    ghost payload_size = { lit< tt };

    ghost payload_align = { (lit≤ tt, lit≤ tt) };

    ghost kept_size = { lit< tt };

    ghost kept_align = { (lit≤ tt, lit≤ tt) };
}
