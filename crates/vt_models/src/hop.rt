//! Tokens that hop from process to process: the smallest model that shows the order of events.
//!
//! `examples/programs/hop.c` makes the same records: change both.

ghost use Rattle.std.specs.Prelude.{◌≡◌, ◌≤◌, None, IfOk, IfErr, IsSome};
ghost use Rattle.vt_key.specs.promise.Faults.{option_named};
ghost use Rattle.vt_models.specs.declared.hop.TheConstants.{MAX_HOPS, MAX_STRIDE, MAX_DELAY, MAX_RISE};
ghost use Rattle.vt_models.specs.inside.Options.{first_bad_hop_option};

use vt_key::{Fault, When};
use vt_model::{Bits, Draws, Model as EventModel, Out};

/// The most hops of a token.
pub const MAX_HOPS: u32 = 1_000_000;

/// The longest stride of a hop, in processes.
pub const MAX_STRIDE: u32 = 65_535;

/// The longest delay of a hop, in ticks.
pub const MAX_DELAY: u32 = 1_000_000;

/// The highest rise of a hop's priority.
pub const MAX_RISE: u32 = u8::MAX as u32;

/// A token on its way, which is the payload of the model [`Hop`].
#[derive(Debug, Clone, Copy, PartialEq, Eq)]
pub struct Token {
    /// The process that made it, plus one.
    pub tag: u32,
    /// How many hops it has left.
    pub left: u32,
}

/// Each process makes one token, which hops on from process to process until its hops are spent.
///
/// The state of a process is a 64-bit sum, at first 0. A token's arrival turns the sum left by 8 bits, mixes the token's
/// tag in by exclusive or, and records the sum under kind 1: so the records tell in which order tokens came. The final
/// value of a process is its sum. The model draws no random words.
///
/// A token goes on after `delay` ticks with priority 0. With a `rise` it first goes on within the tick, each time with a
/// priority that is so much higher, until that would be above 255.
#[derive(Debug, Clone, Copy, PartialEq, Eq)]
pub struct Hop {
    /// How many hops each token makes, from 0 to 1,000,000.
    pub hops: u32,
    /// How many processes a hop leads on, from 0 to 65,535.
    pub stride: u32,
    /// How many ticks a hop takes, from 1 to 1,000,000.
    pub delay: u32,
    /// By how much the priority rises with a hop within the tick, from 0 (no such hop) to 255.
    pub rise: u32,
    ghost few_hops: { hops ≤ MAX_HOPS },
    ghost short_stride: { stride ≤ MAX_STRIDE },
    ghost some_delay: { 1 ≤ delay },
    ghost short_delay: { delay ≤ MAX_DELAY },
    ghost low_rise: { rise ≤ MAX_RISE },
}

impl Hop {
    ghost use Rattle.vt_models.specs.promise.Hop.{risen};

    /// The model in which each token hops `hops` times (0 to 1,000,000), by `stride` processes (0 to 65,535), after
    /// `delay` ticks (1 to 1,000,000), or within the tick where its priority can rise by `rise` (0 to 255; 0 is no rise).
    ///
    /// [`Fault::BadOption`] names the first that is out of its range: `hops`, `stride`, `delay` or `rise`.
    pub fn new(hops: u32, stride: u32, delay: u32, rise: u32) -> Result<Hop, Fault>
        ensures good { IfOk result (λ m. first_bad_hop_option hops stride delay rise ≡ None) }
        ensures same { IfOk result (λ m. (m.hops ≡ hops) × (m.stride ≡ stride) × (m.delay ≡ delay) × (m.rise ≡ rise)) }
        ensures bad { IfErr result (λ fault. IsSome (first_bad_hop_option hops stride delay rise)) }
        ensures named { IfErr result (λ fault. option_named fault ≡ first_bad_hop_option hops stride delay rise) }
    {
        if hops > MAX_HOPS {
            return Err(Fault::BadOption("hops"));
        }
        if stride > MAX_STRIDE {
            return Err(Fault::BadOption("stride"));
        }
        if delay < 1 || delay > MAX_DELAY {
            return Err(Fault::BadOption("delay"));
        }
        if rise > MAX_RISE {
            return Err(Fault::BadOption("rise"));
        }
        Ok(Hop {
            hops,
            stride,
            delay,
            rise,
        })
    }

    // The priority with which a token that arrives now goes on in the same tick, where it does.
    fn risen(&self, now: When) -> Option<u8>
        ensures { result ≡ risen self.now now }
    {
        if self.rise == 0 {
            return None;
        }
        now.priority().checked_add(self.rise as u8)
    }
}

impl EventModel for Hop {
    type State = u64;

    type Payload = Token;

    type Kept = ();

    ghost use Rattle.std.specs.Prelude.{◌<◌, ◌^◌};
    ghost use Rattle.std.proofs.Common.{lit<, lit≤};
    ghost use Rattle.vt_models.specs.promise.Hop.{hop_handlers};
    ghost use Rattle.vt_models.specs.inside.HopLaws.{start_within, forward_within, forward_state, undoes};

    ghost handlers = { hop_handlers };

    ghost IsState = { λ m s. s < 2 ^ 64 };

    fn start(&self, lp: u32, _draws: &mut Draws<'_>, out: &mut Out<Token>) -> u64 {
        let token = Token {
            tag: lp + 1,
            left: self.hops,
        };
        out.send(lp, u64::from(lp) + 1, 0, token);
        0
    }

    #[tactic(auto, using(crate::proofs::HopSteps::next_hop_more, vt_model::proofs::RequestLemmas::recorded_then_sent))]
    fn forward(
        &self,
        lp: u32,
        now: When,
        payload: Token,
        state: &mut u64,
        _bits: &mut Bits,
        _draws: &mut Draws<'_>,
        out: &mut Out<Token>,
    ) {
        *state = state.rotate_left(8) ^ u64::from(payload.tag);
        out.emit(1, *state);
        if payload.left != 0 {
            let dest = (lp + self.stride) % out.lps();
            let token = Token {
                tag: payload.tag,
                left: payload.left - 1,
            };
            match self.risen(now) {
                Some(priority) => out.send(dest, 0, priority, token),
                None => out.send(dest, u64::from(self.delay), 0, token),
            }
        }
    }

    fn reverse(
        &self,
        _lp: u32,
        _now: When,
        payload: Token,
        state: &mut u64,
        _bits: Bits,
        _kept: (),
    ) {
        *state = (*state ^ u64::from(payload.tag)).rotate_right(8);
    }

    fn finish(&self, _lp: u32, state: &u64) -> u64 {
        *state
    }

    ghost start_within = { start_within };

    ghost forward_within = { forward_within };

    ghost start_state = { λ m lps lp words. lit< tt };

    ghost forward_state = { forward_state };

    ghost undoes = { undoes };

    ghost payload_size = { lit< tt };

    ghost payload_align = { (lit≤ tt, lit≤ tt) };

    ghost kept_size = { lit< tt };

    ghost kept_align = { (lit≤ tt, lit≤ tt) };
}
