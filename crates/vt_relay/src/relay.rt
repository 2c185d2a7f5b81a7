//! The model and its processes.

ghost use Rattle.std.specs.Prelude.{◌≡◌, ◌+◌, ◌<◌, ◌≤◌, [], max};
ghost use Rattle.vt_model.specs.inside.Sends.{with_requests};
ghost use Rattle.vt_model.specs.declared.limits.TheConstants.{MAX_SENDS};

use vt_key::When;
use vt_model::{Bits, Draws, Model as EventModel, Out};

/// The most ticks of a way.
pub const MAX_DELAY: u32 = 1_000_000;

// The kind of a record of how many tokens have come.
const CAME: u32 = 1;

/// Tokens among processes. Each process begins with one of its own, and passes what comes on to the next one of the table. It
/// records and counts what has come.
#[derive(Drop)]
pub struct Relay {
    /// The next process of each. A number that names none is taken modulo the number of processes, and where none is given it is 0.
    pub next: Vec<u32>,
    /// How often a token is passed on.
    pub hops: u32,
    /// The ticks of a token's way, from 1 to [`MAX_DELAY`].
    pub delay: u32,
    ghost some_delay: { 1 ≤ delay },
}

impl Relay {
    ghost use Rattle.vt_relay.specs.inside.Relay.{next_of, passed};

    /// Tokens that are passed on so often, in this many ticks each, or in one if they are 0.
    pub fn new(next: Vec<u32>, hops: u32, delay: u32) -> Relay
        ensures { (result.next ≡ next) × (result.hops ≡ hops) × (result.delay ≡ max delay 1) }
    {
        Relay {
            next,
            hops,
            delay: delay.max(1),
        }
    }

    // The next process.
    fn next_of(&self, lp: u32, lps: u32) -> u32
        requires some { 1 ≤ lps }
        ensures { result ≡ next_of self.now lps lp }
    {
        self.next.get(lp as usize).copied().unwrap_or(0) % lps
    }

    // Passes a token on, where it still may be.
    fn pass(&self, lp: u32, hops: u32, out: &mut Out<u32>)
        requires some { 1 ≤ out.old.lps }
        requires room { out.old.number < out.old.first + MAX_SENDS }
        ensures { out.new ≡ with_requests out.old (passed self.now out.old.lps lp hops) [] }
    {
        if hops > 0 {
            out.send(
                self.next_of(lp, out.lps()),
                u64::from(self.delay),
                0,
                hops - 1,
            );
        }
    }
}

impl EventModel for Relay {
    type State = u64;

    type Payload = u32;

    type Kept = ();

    ghost use Rattle.std.proofs.Common.{lit<, lit≤};
    ghost use Rattle.std.specs.Prelude.{◌<◌, ◌^◌};
    ghost use Rattle.vt_relay.specs.inside.Relay.{relay_handlers};
    ghost use Rattle.vt_relay.specs.inside.RelayLaws.{start_within, forward_within, start_state, forward_state, undoes};

    ghost handlers = { relay_handlers };

    ghost IsState = { λ m s. s < 2 ^ 64 };

    fn start(&self, lp: u32, _draws: &mut Draws<'_>, out: &mut Out<u32>) -> u64 {
        out.send(lp, u64::from(self.delay), 0, self.hops);
        0
    }

    fn forward(
        &self,
        lp: u32,
        _now: When,
        payload: u32,
        state: &mut u64,
        _bits: &mut Bits,
        _draws: &mut Draws<'_>,
        out: &mut Out<u32>,
    ) {
        *state = state.wrapping_add(1);
        out.emit(CAME, *state);
        self.pass(lp, payload, out);
    }

    fn reverse(
        &self,
        _lp: u32,
        _now: When,
        _payload: u32,
        state: &mut u64,
        _bits: Bits,
        _kept: (),
    ) {
        *state = state.wrapping_sub(1);
    }

    fn finish(&self, _lp: u32, state: &u64) -> u64 {
        *state
    }

    ghost start_within = { start_within };

    ghost forward_within = { forward_within };

    ghost start_state = { start_state };

    ghost forward_state = { forward_state };

    ghost undoes = { undoes };

    ghost payload_size = { lit< tt };

    ghost payload_align = { (lit≤ tt, lit≤ tt) };

    ghost kept_size = { lit< tt };

    ghost kept_align = { (lit≤ tt, lit≤ tt) };
}
