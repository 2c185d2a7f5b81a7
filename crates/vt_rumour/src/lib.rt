//! A rumour that spreads: who hears it tells it to those whom a table names.
#![tactic(auto)]

ghost use Rattle.std.specs.Prelude.{◌≡◌, ◌+◌, ◌≤◌, []};
ghost use Rattle.vt_model.specs.inside.Sends.{with_requests};
ghost use Rattle.vt_model.specs.declared.limits.TheConstants.{MAX_SENDS};
ghost use Rattle.vt_rumour.specs.inside.Rumour.{told};

use vt_key::When;
use vt_model::{Bits, Draws, Model as EventModel, Out};
use vt_parts::send_to_entries;

/// How many entries of the table are told.
pub const FRIENDS: usize = 3;

/// How many ticks a rumour travels.
pub const TRAVEL: u64 = 2;

// How often a rumour is passed on.
const ROUNDS: u32 = 4;

// The kind of a record of how often a rumour was heard.
const HEARD: u32 = 1;

/// A rumour among processes. Each begins with one of its own, and knows how often it has heard any.
#[derive(Drop)]
pub struct Rumour {
    /// The processes that are told. A number that names none is taken modulo the number of processes.
    pub friends: Vec<u32>,
}

impl Rumour {
    // Tells the friends, where the rumour may still be passed on.
    fn tell(&self, rounds: u32, out: &mut Out<u32>)
        requires some { 1 ≤ out.old.lps }
        requires room { out.old.number + FRIENDS ≤ out.old.first + MAX_SENDS }
        ensures { out.new ≡ with_requests out.old (told self.now out.old.lps rounds) [] }
    {
        if rounds > 0 {
            send_to_entries(out, self.friends.as_slice(), FRIENDS, TRAVEL, 0, rounds - 1);
        }
    }
}

impl EventModel for Rumour {
    type State = u64;

    type Payload = u32;

    type Kept = ();

    ghost use Rattle.std.proofs.Common.{lit<, lit≤};
    ghost use Rattle.std.specs.Prelude.{◌<◌, ◌^◌};
    ghost use Rattle.vt_rumour.specs.inside.Rumour.{rumour_handlers};
    ghost use Rattle.vt_rumour.specs.inside.RumourLaws.{start_within, forward_within, start_state, forward_state, undoes};

    ghost handlers = { rumour_handlers };

    ghost IsState = { λ m s. s < 2 ^ 64 };

    fn start(&self, lp: u32, _draws: &mut Draws<'_>, out: &mut Out<u32>) -> u64 {
        out.send(lp, 1, 0, ROUNDS);
        0
    }

    fn forward(
        &self,
        _lp: u32,
        _now: When,
        payload: u32,
        state: &mut u64,
        _bits: &mut Bits,
        _draws: &mut Draws<'_>,
        out: &mut Out<u32>,
    ) {
        *state = state.wrapping_add(1);
        out.emit(HEARD, *state);
        self.tell(payload, out);
    }

    fn reverse(
        &self,
        _lp: u32,
        _now: When,
        _payload: u32,
        state: &mut u64,
        _bits: Bits,
        _kept: (),
    ) {
        *state = state.wrapping_sub(1);
    }

    fn finish(&self, _lp: u32, state: &u64) -> u64 {
        *state
    }

    ghost start_within = { start_within };

    ghost forward_within = { forward_within };

    ghost start_state = { start_state };

    ghost forward_state = { forward_state };

    ghost undoes = { undoes };

    ghost payload_size = { lit< tt };

    ghost payload_align = { (lit≤ tt, lit≤ tt) };

    ghost kept_size = { lit< tt };

    ghost kept_align = { (lit≤ tt, lit≤ tt) };
}
