//! A closed network of stations: jobs queue at servers, are served one at a time, and travel on.
//!
//! `examples/programs/stations.c` makes the same records: change both.

ghost use Rattle.std.specs.Prelude.{◌≡◌, ◌+◌, ◌^◌, ◌<◌, ◌≤◌, [], ◌∷◌, None, IfOk, IfErr, IsSome};
ghost use Rattle.vt_key.specs.promise.Faults.{option_named};
ghost use Rattle.vt_model.specs.declared.limits.TheConstants.{MAX_DRAWS, MAX_SENDS};
ghost use Rattle.vt_model.specs.inside.Drawn.{drawn_in, stream_in, IsSameSource};
ghost use Rattle.vt_stream.specs.inside.Words.{word_of, moved};
ghost use Rattle.vt_model.specs.inside.Sends.{with_requests};
ghost use Rattle.vt_models.specs.declared.stations.TheConstants.{MAX_JOBS, MAX_SERVICE, MAX_TRAVEL};
ghost use Rattle.vt_models.specs.inside.Options.{first_bad_stations_option};

use vt_key::{Fault, When};
use vt_model::{Bits, Draws, Model as EventModel, Out};

/// The most jobs that a station has at its start.
pub const MAX_JOBS: u32 = 1_000;

/// The longest span of drawn services, in ticks.
pub const MAX_SERVICE: u32 = 1_000_000;

/// The longest travel between stations, in ticks.
pub const MAX_TRAVEL: u32 = 1_000_000;

// The flag of an arrival at an idle station, whose service begins at once.
const BEGAN: u32 = 0;

// The flag of a departure after which the next job is served.
const GOES_ON: u32 = 1;

// The flag of a departure from an empty station, which does nothing.
const EMPTY: u32 = 2;

/// What happens to a job at a station.
#[derive(Debug, Clone, Copy, PartialEq, Eq)]
pub enum JobEvent {
    /// It comes to the station.
    Arrive,
    /// Its service ends, and it leaves.
    Depart,
}

/// The state of a station. Both sums are modulo 2^64.
#[derive(Debug, Clone, Copy, PartialEq, Eq)]
pub struct Server {
    /// How many jobs are at the station: one is served, the others wait.
    pub length: u64,
    /// How many jobs it has served.
    pub served: u64,
}

/// A closed network of single servers: each station begins with `jobs` jobs, and each job that has been served travels to
/// a drawn station.
///
/// A service takes one tick and what is drawn below `service`; a passage takes `travel` ticks. An arrival records the
/// station's length under kind 3, a departure the number of jobs that it has served under kind 4. A departure from an
/// empty station does nothing. The final value of a station is how many jobs it has served.
#[derive(Debug, Clone, Copy, PartialEq, Eq)]
pub struct Stations {
    /// How many jobs each station begins with, from 0 to 1,000.
    pub jobs: u32,
    /// A service takes one tick and a draw below it, from 1 to 1,000,000.
    pub service: u32,
    /// How many ticks a passage takes, from 1 to 1,000,000.
    pub travel: u32,
    ghost few_jobs: { jobs ≤ MAX_JOBS },
    ghost some_service: { 1 ≤ service },
    ghost short_service: { service ≤ MAX_SERVICE },
    ghost some_travel: { 1 ≤ travel },
    ghost short_travel: { travel ≤ MAX_TRAVEL },
}

impl Stations {
    ghost use Rattle.vt_models.specs.promise.Stations.{departure};

    /// The model with `jobs` jobs at each station (0 to 1,000), services of one tick and a draw below `service` ticks
    /// (1 to 1,000,000), and passages of `travel` ticks (1 to 1,000,000).
    ///
    /// [`Fault::BadOption`] names the first that is out of its range: `jobs`, `service` or `travel`.
    pub fn new(jobs: u32, service: u32, travel: u32) -> Result<Stations, Fault>
        ensures good { IfOk result (λ m. first_bad_stations_option jobs service travel ≡ None) }
        ensures same { IfOk result (λ m. (m.jobs ≡ jobs) × (m.service ≡ service) × (m.travel ≡ travel)) }
        ensures bad { IfErr result (λ fault. IsSome (first_bad_stations_option jobs service travel)) }
        ensures named { IfErr result (λ fault. option_named fault ≡ first_bad_stations_option jobs service travel) }
    {
        if jobs > MAX_JOBS {
            return Err(Fault::BadOption("jobs"));
        }
        if service < 1 || service > MAX_SERVICE {
            return Err(Fault::BadOption("service"));
        }
        if travel < 1 || travel > MAX_TRAVEL {
            return Err(Fault::BadOption("travel"));
        }
        Ok(Stations {
            jobs,
            service,
            travel,
        })
    }

    // Begins a service at station `lp`: its end is drawn and sent.
    fn serve(&self, lp: u32, draws: &mut Draws<'_>, out: &mut Out<JobEvent>)
        requires words { drawn_in draws.old < MAX_DRAWS }
        requires known { lp < out.old.lps }
        requires room { out.old.number < out.old.first + MAX_SENDS }
        ensures same_reference { IsSameSource draws.old draws.new }
        ensures drawn { drawn_in draws.new ≡ drawn_in draws.old + 1 }
        ensures stream { stream_in draws.new ≡ moved (stream_in draws.old) 1 }
        ensures out { out.new ≡ with_requests out.old (departure self.now lp (word_of (stream_in draws.old) 0) ∷ []) [] }
    {
        let wait = draws.below(u64::from(self.service));
        out.send(lp, 1 + wait, 0, JobEvent::Depart);
    }
}

impl EventModel for Stations {
    type State = Server;

    type Payload = JobEvent;

    type Kept = ();

    ghost use Rattle.std.proofs.Common.{lit<, lit≤};
    ghost use Rattle.vt_models.specs.promise.Stations.{stations_handlers};
    ghost use Rattle.vt_models.specs.inside.Stations.{IsServer};
    ghost use Rattle.vt_models.specs.inside.StationsLaws.{start_within, forward_within, start_state, forward_state, undoes};

    ghost handlers = { stations_handlers };

    ghost IsState = { λ m s. IsServer s };

    fn start(&self, lp: u32, draws: &mut Draws<'_>, out: &mut Out<JobEvent>) -> Server {
        if self.jobs != 0 {
            self.serve(lp, draws, out);
        }
        Server {
            length: u64::from(self.jobs),
            served: 0,
        }
    }

    fn forward(
        &self,
        lp: u32,
        _now: When,
        payload: JobEvent,
        state: &mut Server,
        bits: &mut Bits,
        draws: &mut Draws<'_>,
        out: &mut Out<JobEvent>,
    ) {
        match payload {
            JobEvent::Arrive => {
                state.length = state.length.wrapping_add(1);
                out.emit(3, state.length);
                if state.length == 1 {
                    bits.set(BEGAN);
                    self.serve(lp, draws, out);
                }
            }
            JobEvent::Depart => {
                if state.length == 0 {
                    bits.set(EMPTY);
                    return;
                }
                state.length -= 1;
                state.served = state.served.wrapping_add(1);
                out.emit(4, state.served);
                let dest = draws.below(u64::from(out.lps())) as u32;
                out.send(dest, u64::from(self.travel), 0, JobEvent::Arrive);
                if state.length != 0 {
                    bits.set(GOES_ON);
                    self.serve(lp, draws, out);
                }
            }
        }
    }

    fn reverse(
        &self,
        _lp: u32,
        _now: When,
        payload: JobEvent,
        state: &mut Server,
        bits: Bits,
        _kept: (),
    ) {
        match payload {
            JobEvent::Arrive => state.length = state.length.wrapping_sub(1),
            JobEvent::Depart => {
                if !bits.get(EMPTY) {
                    state.length = state.length.wrapping_add(1);
                    state.served = state.served.wrapping_sub(1);
                }
            }
        }
    }

    fn finish(&self, _lp: u32, state: &Server) -> u64 {
        state.served
    }

    ghost start_within = { start_within };

    ghost forward_within = { forward_within };

    ghost start_state = { start_state };

    ghost forward_state = { forward_state };

    ghost undoes = { undoes };

    ghost payload_size = { lit< tt };

    ghost payload_align = { (lit≤ tt, lit≤ tt) };

    ghost kept_size = { lit< tt };

    ghost kept_align = { (lit≤ tt, lit≤ tt) };
}
