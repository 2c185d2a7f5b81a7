//! Cars on a grid of one-way roads with signalled junctions. `examples/programs/traffic.c` makes the same records: change both.

ghost use Rattle.std.specs.Prelude.{◌≡◌, ◌+◌, ◌<◌, ◌≤◌, [], ◌∷◌, length, None, Some, IfOk, IfErr, IsSome};
ghost use Rattle.vt_key.specs.promise.Faults.{option_named};
ghost use Rattle.vt_key.specs.declared.limits.TheConstants.{MAX_PROCESSES};
ghost use Rattle.vt_model.specs.declared.limits.TheConstants.{MAX_DRAWS, MAX_SENDS, MAX_RECORDS};
ghost use Rattle.vt_model.specs.inside.Drawn.{drawn_in, stream_in, IsSameSource};
ghost use Rattle.vt_stream.specs.inside.Words.{word_of, moved};
ghost use Rattle.vt_model.specs.inside.Sends.{with_requests};
ghost use Rattle.vt_traffic.specs.declared.grid.TheConstants.{MAX_CARS, MAX_GREEN, MAX_TRAVEL, MAX_TURNING};
ghost use Rattle.vt_traffic.specs.inside.Options.{first_bad_option};

use crate::junction::{Junction, JunctionEvent, PASSED, Road, WAITING};
use vt_key::{Fault, MAX_PROCESSES, When};
use vt_model::{Bits, Draws, Model as EventModel, Out};
use vt_parts::bernoulli;

/// The most cars that wait on each road of a junction at the start.
pub const MAX_CARS: u32 = 1_000;

/// The longest time between two changes of the lights, in ticks.
pub const MAX_GREEN: u32 = 1_000_000;

/// The most that the shortest passage from a junction to the next may take, in ticks.
pub const MAX_TRAVEL: u32 = 1_000_000;

/// The highest share of cars that turn, in percent.
pub const MAX_TURNING: u32 = 100;

// All cars, in percent.
const PERCENT: u64 = 100;

// The flag of an event by which a car entered the junction.
const ENTERED: u32 = 0;

/// Cars on a grid of one-way roads, with a signalled junction where two of them meet.
///
/// Each logical process is a junction. Processes are numbered along the rows of the grid, so that the road to the east
/// leads from process `p` to `p + 1`, and the road to the south to `p + columns`, both modulo the number of processes: the
/// last junction of a row leads on to the next row, and the last row to the first. So no car leaves the grid.
///
/// A car takes one tick to cross a junction, and one car crosses at a time. Then it turns with a probability of `turning`
/// percent, and comes to the lights of the next junction after `travel` ticks and a draw below `travel`. At the start
/// `cars` cars wait on each road of each junction, and the road to the east has green. The lights change for the first time
/// after one tick and a draw below `green`, and then every `green` ticks.
///
/// Each event records under kind 1 how many cars wait at the junction then; a car that leaves is recorded before that,
/// under kind 2, by how many have passed. The final value of a junction is how many cars have passed.
#[derive(Debug, Clone, Copy, PartialEq, Eq)]
pub struct Traffic {
    /// How many junctions a row has, from 1 to 65,536.
    pub columns: u32,
    /// How many cars wait on each road of each junction at the start, from 0 to 1,000.
    pub cars: u32,
    /// How many ticks the lights stay, from 1 to 1,000,000.
    pub green: u32,
    /// The least number of ticks of a passage, from 1 to 1,000,000. A draw below it is added.
    pub travel: u32,
    /// The percentage of cars that turn, from 0 to 100.
    pub turning: u32,
    ghost some_columns: { 1 ≤ columns },
    ghost few_columns: { columns ≤ MAX_PROCESSES },
    ghost few_cars: { cars ≤ MAX_CARS },
    ghost some_green: { 1 ≤ green },
    ghost short_green: { green ≤ MAX_GREEN },
    ghost some_travel: { 1 ≤ travel },
    ghost short_travel: { travel ≤ MAX_TRAVEL },
    ghost in_percent: { turning ≤ MAX_TURNING },
}

impl Traffic {
    ghost use Rattle.vt_traffic.specs.inside.Traffic.{onward, next_junction, departure, departed};
    ghost use Rattle.vt_traffic.specs.inside.Junction.{gone};

    /// The model of a grid whose rows have `columns` junctions (1 to 65,536), with `cars` cars on each road of each
    /// junction (0 to 1,000), lights that change every `green` ticks (1 to 1,000,000), passages of at least `travel` ticks
    /// (1 to 1,000,000), and `turning` percent of cars that turn (0 to 100).
    ///
    /// [`Fault::BadOption`] names the first that is out of its range: `columns`, `cars`, `green`, `travel` or `turning`.
    pub fn new(
        columns: u32,
        cars: u32,
        green: u32,
        travel: u32,
        turning: u32,
    ) -> Result<Traffic, Fault>
        ensures good { IfOk result (λ m. first_bad_option columns cars green travel turning ≡ None) }
        ensures same { IfOk result (λ m. (m.columns ≡ columns) × (m.cars ≡ cars) × (m.green ≡ green) × (m.travel ≡ travel) × (m.turning ≡ turning)) }
        ensures bad { IfErr result (λ fault. IsSome (first_bad_option columns cars green travel turning)) }
        ensures named { IfErr result (λ fault. option_named fault ≡ first_bad_option columns cars green travel turning) }
    {
        if columns < 1 || columns > MAX_PROCESSES {
            return Err(Fault::BadOption("columns"));
        }
        if cars > MAX_CARS {
            return Err(Fault::BadOption("cars"));
        }
        if green < 1 || green > MAX_GREEN {
            return Err(Fault::BadOption("green"));
        }
        if travel < 1 || travel > MAX_TRAVEL {
            return Err(Fault::BadOption("travel"));
        }
        if turning > MAX_TURNING {
            return Err(Fault::BadOption("turning"));
        }
        Ok(Traffic {
            columns,
            cars,
            green,
            travel,
            turning,
        })
    }

    // Draws the road by which a car goes on that came by `road`.
    fn onward(&self, road: Road, draws: &mut Draws<'_>) -> Road
        requires words { drawn_in draws.old < MAX_DRAWS }
        ensures road { result ≡ onward self.now road (word_of (stream_in draws.old) 0) }
        ensures same_reference { IsSameSource draws.old draws.new }
        ensures drawn { drawn_in draws.new ≡ drawn_in draws.old + 1 }
        ensures stream { stream_in draws.new ≡ moved (stream_in draws.old) 1 }
    {
        if bernoulli(draws, u64::from(self.turning), PERCENT) {
            road.other()
        } else {
            road
        }
    }

    // The junction to which a road leads from junction `lp` of `lps`.
    fn next_junction(&self, lp: u32, lps: u32, road: Road) -> u32
        requires known { lp < lps }
        requires few { lps ≤ MAX_PROCESSES }
        ensures { result ≡ next_junction self.now lps lp road }
    {
        match road {
            Road::Eastward => (lp + 1) % lps,
            Road::Southward => (lp + self.columns) % lps,
        }
    }

    // The car that came by `road` and has crossed junction `lp` leaves it, straight on or by a turn.
    fn depart(
        &self,
        lp: u32,
        road: Road,
        junction: &mut Junction,
        draws: &mut Draws<'_>,
        out: &mut Out<JunctionEvent>,
    )
        requires words { drawn_in draws.old + 1 < MAX_DRAWS }
        requires known { lp < out.old.lps }
        requires few { out.old.lps ≤ MAX_PROCESSES }
        requires room { out.old.number < out.old.first + MAX_SENDS }
        requires emit_room { length out.old.records < MAX_RECORDS }
        ensures junction { junction.new ≡ gone (Some road) junction.old }
        ensures same_reference { IsSameSource draws.old draws.new }
        ensures drawn { drawn_in draws.new ≡ drawn_in draws.old + 2 }
        ensures stream { stream_in draws.new ≡ moved (stream_in draws.old) 2 }
        ensures out { out.new ≡ with_requests out.old (departure self.now out.old.lps lp road (word_of (stream_in draws.old)) ∷ []) (departed junction.new ∷ []) }
    {
        junction.crossing = None;
        junction.passed = junction.passed.wrapping_add(1);
        out.emit(PASSED, junction.passed);
        let onward = self.onward(road, draws);
        let next = self.next_junction(lp, out.lps(), onward);
        let travel = u64::from(self.travel);
        let delay = travel + draws.below(travel);
        out.send(next, delay, 0, JunctionEvent::Arrive(onward));
    }
}

impl EventModel for Traffic {
    type State = Junction;

    type Payload = JunctionEvent;

    type Kept = Option<Road>;

    ghost use Rattle.std.proofs.Common.{lit<, lit≤};
    ghost use Rattle.vt_traffic.specs.inside.Traffic.{traffic_handlers};
    ghost use Rattle.vt_traffic.specs.inside.Junction.{AreCounts};
    ghost use Rattle.vt_traffic.specs.inside.TrafficLaws.{start_within, forward_within, start_state, forward_state, undoes};

    ghost handlers = { traffic_handlers };

    ghost IsState = { λ m j. AreCounts j };

    fn start(&self, lp: u32, draws: &mut Draws<'_>, out: &mut Out<JunctionEvent>) -> Junction {
        let mut junction = Junction {
            green: Road::Eastward,
            at_green: u64::from(self.cars),
            at_red: u64::from(self.cars),
            crossing: None,
            passed: 0,
        };
        let first = 1 + draws.below(u64::from(self.green));
        out.send(lp, first, 0, JunctionEvent::Change);
        junction.enter(lp, out);
        junction
    }

    fn forward(
        &self,
        lp: u32,
        _now: When,
        payload: JunctionEvent,
        state: &mut Junction,
        bits: &mut Bits,
        draws: &mut Draws<'_>,
        out: &mut Out<JunctionEvent>,
    ) -> Option<Road> {
        let crossed = state.crossing;
        match payload {
            JunctionEvent::Arrive(road) => state.join(road),
            JunctionEvent::Leave => {
                if let Some(road) = crossed {
                    self.depart(lp, road, state, draws, out);
                }
            }
            JunctionEvent::Change => {
                state.change();
                out.send(lp, u64::from(self.green), 0, JunctionEvent::Change);
            }
        }
        if state.enter(lp, out) {
            bits.set(ENTERED);
        }
        out.emit(WAITING, state.waiting());
        crossed
    }

    fn reverse(
        &self,
        _lp: u32,
        _now: When,
        payload: JunctionEvent,
        state: &mut Junction,
        bits: Bits,
        kept: Option<Road>,
    ) {
        if bits.get(ENTERED) {
            state.at_green = state.at_green.wrapping_add(1);
        }
        state.crossing = kept;
        match payload {
            JunctionEvent::Arrive(road) => state.unjoin(road),
            JunctionEvent::Leave => {
                if kept.is_some() {
                    state.passed = state.passed.wrapping_sub(1);
                }
            }
            JunctionEvent::Change => state.change(),
        }
    }

    fn finish(&self, _lp: u32, state: &Junction) -> u64 {
        state.passed
    }

    ghost start_within = { start_within };

    ghost forward_within = { forward_within };

    ghost start_state = { start_state };

    ghost forward_state = { forward_state };

    ghost undoes = { undoes };

    ghost payload_size = { lit< tt };

    ghost payload_align = { (lit≤ tt, lit≤ tt) };

    ghost kept_size = { lit< tt };

    ghost kept_align = { (lit≤ tt, lit≤ tt) };
}
