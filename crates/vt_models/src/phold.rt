//! PHOLD: events that each send just one other, so that their number stays the same. `bench/handlers` edits this file, and finds the texts
//! that it replaces as they stand here.
//!
//! `examples/programs/phold.c` makes the same records: change both.

ghost use Rattle.std.specs.Prelude.{◌≡◌, ◌≤◌, None, IfOk, IfErr, IsSome};
ghost use Rattle.vt_key.specs.promise.Faults.{option_named};
ghost use Rattle.vt_models.specs.declared.phold.TheConstants.{MAX_POPULATION, MAX_REMOTE, MAX_LOOKAHEAD, MAX_SPAN};
ghost use Rattle.vt_models.specs.inside.Options.{first_bad_phold_option};

use vt_key::{Fault, When};
use vt_model::{Bits, Draws, MAX_SENDS, Model as EventModel, Out};

/// The most events that a process starts with: as many as one handler may send.
pub const MAX_POPULATION: u32 = MAX_SENDS as u32;

/// The highest share of events that go to a drawn process, in percent.
pub const MAX_REMOTE: u32 = 100;

/// The longest lookahead, in ticks.
pub const MAX_LOOKAHEAD: u32 = 1_000_000;

/// The longest span of drawn delays, in ticks.
pub const MAX_SPAN: u32 = 1_000_000;

// All events, in percent.
const PERCENT: u64 = 100;

// The flag of an event whose successor goes to a drawn process.
const REMOTE: u32 = 0;

/// The synthetic workload PHOLD (Fujimoto, Performance of Time Warp Under Synthetic Workloads, 1990): each process starts
/// with `population` events, and each event schedules exactly one other, so their number stays the same.
///
/// An event is received `lookahead` ticks and what is drawn below `span` after the one that schedules it. In `remote` of
/// 100 cases its receiver is drawn among all processes; else it stays where it is. The state of a process is how many
/// events it has executed, modulo 2^64: the count is recorded under kind 2 at each event, and is the final value.
#[derive(Debug, Clone, Copy, PartialEq, Eq)]
pub struct Phold {
    /// How many events each process starts with, from 0 to 16.
    pub population: u32,
    /// The percentage of events that go to a drawn process, from 0 to 100.
    pub remote: u32,
    /// The least number of ticks between an event and the one that it schedules, from 1 to 1,000,000.
    pub lookahead: u32,
    /// A draw below it is added to `lookahead`, in ticks, from 1 to 1,000,000.
    pub span: u32,
    ghost few_events: { population ≤ MAX_POPULATION },
    ghost in_percent: { remote ≤ MAX_REMOTE },
    ghost some_lookahead: { 1 ≤ lookahead },
    ghost short_lookahead: { lookahead ≤ MAX_LOOKAHEAD },
    ghost some_span: { 1 ≤ span },
    ghost short_span: { span ≤ MAX_SPAN },
}

impl Phold {
    /// The model in which each process starts with `population` events (0 to 16), `remote` percent of all events (0 to 100)
    /// go to a drawn process, and each is received after `lookahead` ticks (1 to 1,000,000) and a draw below `span` ticks
    /// (1 to 1,000,000).
    ///
    /// [`Fault::BadOption`] names the first that is out of its range: `population`, `remote`, `lookahead` or `span`.
    pub fn new(population: u32, remote: u32, lookahead: u32, span: u32) -> Result<Phold, Fault>
        ensures good { IfOk result (λ m. first_bad_phold_option population remote lookahead span ≡ None) }
        ensures same { IfOk result (λ m. (m.population ≡ population) × (m.remote ≡ remote) × (m.lookahead ≡ lookahead) × (m.span ≡ span)) }
        ensures bad { IfErr result (λ fault. IsSome (first_bad_phold_option population remote lookahead span)) }
        ensures named { IfErr result (λ fault. option_named fault ≡ first_bad_phold_option population remote lookahead span) }
    {
        if population > MAX_POPULATION {
            return Err(Fault::BadOption("population"));
        }
        if remote > MAX_REMOTE {
            return Err(Fault::BadOption("remote"));
        }
        if lookahead < 1 || lookahead > MAX_LOOKAHEAD {
            return Err(Fault::BadOption("lookahead"));
        }
        if span < 1 || span > MAX_SPAN {
            return Err(Fault::BadOption("span"));
        }
        Ok(Phold {
            population,
            remote,
            lookahead,
            span,
        })
    }
}

impl EventModel for Phold {
    type State = u64;

    type Payload = ();

    type Kept = ();

    ghost use Rattle.std.specs.Prelude.{◌<◌, ◌^◌};
    ghost use Rattle.std.proofs.Common.{lit<, lit≤};
    ghost use Rattle.vt_models.specs.promise.Phold.{phold_handlers};
    ghost use Rattle.vt_models.specs.inside.PholdLaws.{start_within, forward_within, forward_state, undoes};

    ghost handlers = { phold_handlers };

    ghost IsState = { λ m s. s < 2 ^ 64 };

    fn start(&self, lp: u32, draws: &mut Draws<'_>, out: &mut Out<()>) -> u64 {
        'events: for _event in 0..self.population {
            let wait = draws.below(u64::from(self.span));
            out.send(lp, u64::from(self.lookahead) + wait, 0, ());
        }
        0
    }

    fn forward(
        &self,
        lp: u32,
        _now: When,
        _payload: (),
        state: &mut u64,
        bits: &mut Bits,
        draws: &mut Draws<'_>,
        out: &mut Out<()>,
    ) {
        let mut dest = lp;
        if draws.below(PERCENT) < u64::from(self.remote) {
            bits.set(REMOTE);
            dest = draws.below(u64::from(out.lps())) as u32;
        }
        let wait = draws.below(u64::from(self.span));
        *state = state.wrapping_add(1);
        out.emit(2, *state);
        out.send(dest, u64::from(self.lookahead) + wait, 0, ());
    }

    fn reverse(&self, _lp: u32, _now: When, _payload: (), state: &mut u64, _bits: Bits, _kept: ()) {
        *state = state.wrapping_sub(1);
    }

    fn finish(&self, _lp: u32, state: &u64) -> u64 {
        *state
    }

    ghost start_within = { start_within };

    ghost forward_within = { forward_within };

    ghost start_state = { λ m lps lp words. lit< tt };

    ghost forward_state = { forward_state };

    ghost undoes = { undoes };

    ghost payload_size = { lit< tt };

    ghost payload_align = { (lit≤ tt, lit≤ tt) };

    ghost kept_size = { lit< tt };

    ghost kept_align = { (lit≤ tt, lit≤ tt) };
}
