//! The turns of a worker.
//!
//! `bench/rounds` counts by edits of this file: after a change here `bench/rounds --check` has to pass.

ghost use Rattle.std.specs.Prelude.{◌≡◌, Err, IfErr, IfSome, MatchResult};
ghost use Rattle.vt_key.specs.declared.fault.Fault.TheVariants.{NotLawful};
ghost use Rattle.vt_key.specs.promise.Times.{Time as TimeValue};
ghost use Rattle.vt_model.specs.promise.Simulation.{simulation_of};
ghost use Rattle.vt_steps.specs.inside.Finals.{worker_finals};
ghost use Rattle.vt_places.specs.inside.Told.{station_model, place_table, place_view};
ghost use Rattle.vt_places.specs.inside.Calls.{AreHandedOut, Unvisited, Stays, IsHandOutRefusal};
ghost use Rattle.vt_places.specs.inside.AtWork.{IsAtWork, IsAtSamePlace, IsAtSameStation, at_work};
ghost use Rattle.vt_station.specs.promise.Turns.{IsLasting};
ghost use Rattle.vt_station.specs.inside.Turns.{IsPassedOver, IsPartOfTurn, HasEnded};

use crate::bell::Bells;
use crate::gate::Gate;
use crate::looks::Looks;
use crate::pace::Pace;
use std::alloc::Global;
use std::hint::spin_loop;
use std::marker::Model;
use std::sync::Wait;
use std::thread::yield_now;
use vt_board::Report;
use vt_engine::{Engine, SHARE};
use vt_key::{Fault, When};
use vt_model::{Config, Model as EventModel, Out, Record, Sent};
use vt_places::{Place, Station};
use vt_watch::{Progress, Watch};

/// How often in a row a worker tries again at once after it found a cell claimed by another place. Then it yields its
/// processor.
const MOST_SPINS: u32 = 32;

/// How many pauses a worker makes before each such try.
const PAUSES: u32 = 20;

/// How the work of a worker ended.
#[derive(Clone, Copy)]
pub(crate) enum Outcome {
    /// All its turns were made, or another worker has left before the end of the run.
    Spent,
    /// It closed the book.
    Closed,
    /// It found the book closed.
    Ended,
    /// A call was refused with a fault that no later turn mends.
    Refused(Fault),
}

/// What is wanted of a run.
#[derive(Clone, Copy)]
pub enum Wanted {
    /// The records alone.
    Records,
    /// The records, and the final value of each process.
    Finals,
}

/// A worker: its kernel, its place at the station, and what it needs to make its turns.
///
/// The type guarantees that the kernel is what local steps make of the worker's part after the place's last visit. It holds no [`vt_places::Worker`],
/// which makes one local step a call, on a kernel of the other kind.
#[derive(Drop)]
pub(crate) struct Driver<'a, M: EventModel> {
    config: Config,
    // The number of the worker.
    number: u32,
    place: Place<M::Payload>,
    kernel: Engine<M, SHARE>,
    station: &'a Station<M>,
    model: &'a M,
    alloc: Global,
    // The worker's floor at its last hand-in.
    handed: When,
    pace: Pace,
    bells: &'a Bells,
    // How often the worker's own bell had been rung before this turn.
    heard: u64,
    // How often the round had moved on before the last cut or report that didn't find the board claimed.
    asked: Option<u64>,
    // Whether the worker has cut and hasn't reported since.
    has_cut: bool,
    // Whether another place had claimed a cell that was needed in this turn.
    busy: bool,
    // Whether this turn left nothing to go on with.
    idle: bool,
    // How many times in a row the worker has tried again at once.
    spins: u32,
    // How many turns it has begun.
    turns: u64,
    looks: Looks,
    // How many events were executed, and how many undone, since the worker last told of it.
    executed: u64,
    undone: u64,
}

impl<'a, M: EventModel> Model for Driver<'a, M> {
    ghost use Rattle.vt_places.specs.inside.Told.{station_model, place_table};
    ghost use Rattle.vt_places.specs.inside.AtWork.{AtWork, IsAtWork, at_work};

    ghost Value = { AtWork M M.State M.Payload M.Kept };

    ghost view = { λ d. at_work d.station.now d.model.now d.place d.kernel };

    ghost invariant = { λ d. IsAtWork M.handlers (station_model d.station.now) d.config (place_table d.place) (at_work d.station.now d.model.now d.place d.kernel) };
}

impl<'a, M: EventModel> Driver<'a, M> {
    /// The worker of a place before its first turn, with its kernel.
    pub(crate) fn new(
        alloc: Global,
        station: &'a Station<M>,
        model: &'a M,
        config: Config,
        place: Place<M::Payload>,
        kernel: Engine<M, SHARE>,
        bells: &'a Bells,
    ) -> Driver<'a, M>
        requires ready { IsAtWork M.handlers (station_model station.now) config (place_table place) (at_work station.now model.now place kernel) }
        ensures made { result ≡ at_work station.now model.now place kernel }
    {
        Driver {
            alloc,
            station,
            model,
            config,
            number: place.worker(),
            place,
            kernel,
            handed: When::tick(0),
            pace: Pace::new(config.workers),
            bells,
            heard: 0,
            asked: None,
            has_cut: false,
            busy: false,
            idle: false,
            spins: 0,
            turns: 0,
            looks: Looks::new(),
            executed: 0,
            undone: 0,
        }
    }

    /// The final values of the worker's processes, if they are wanted. None too if the worker's floor isn't the end of the run,
    /// or memory was refused.
    pub(crate) fn finals(&mut self, wanted: Wanted) -> Option<Vec<u64>>
        ensures same { IsAtSamePlace self.old self.new }
        ensures values { IfSome result (λ v. v.items ≡ worker_finals (simulation_of (M.handlers self.old.model) self.old.config) self.old.view.worker) }
    {
        let Wanted::Finals = wanted else {
            return None;
        };
        let place = &mut self.place;
        self.station
            .finals(self.alloc, self.model, self.config, place, &self.kernel)
            .ok()
    }

    /// Hands out the records that the book shows but for the first `from`, in place of those in `records`.
    ///
    /// [`Fault`]: as [`Station::hand_out`] says; all is unchanged.
    pub(crate) fn hand_out(&mut self, from: usize, records: &mut Vec<Record>) -> Result<(), Fault>
        ensures station { IsAtSameStation self.old self.new }
        ensures kernel { self.new.kernel ≡ self.old.kernel }
        ensures done { MatchResult result
            (λ _. (floor : TimeValue) × AreHandedOut (simulation_of (M.handlers self.old.model) self.old.config) self.old.view floor from records.new.items × Unvisited self.old.view floor self.new.view)
            (λ _. Stays self.old.view self.new.view) }
        ensures unchanged { IfErr result (λ _. records.new.items ≡ records.old.items) }
        ensures refused { IfErr result (λ fault. IsHandOutRefusal (simulation_of (M.handlers self.old.model) self.old.config) fault) }
        ensures alone { self.old.config.workers ≡ 1 → result ≡ Err NotLawful }
    {
        self.station.hand_out(&mut self.place, from, records)
    }

    /// Gives up the worker, and returns its place.
    pub(crate) fn leave(self) -> Place<M::Payload>
        ensures table { place_table result ≡ self.entry.table }
        ensures view { place_view result ≡ self.entry.view }
    {
        self.place
    }

    /// Executes events, each time the one of least rank, and returns how many. It stops at one that isn't before all that this turn has
    /// sent: what a turn sends home is executed in a later one.
    fn execute_some<G: Gate>(&mut self, gate: &G, turn: u64) -> Result<u32, Fault>
        ensures part { IsPartOfTurn self.old self.new result }
    {
        let most = self.pace.allowed();
        let mut out = Out::new(self.config, 0, When::tick(0), 0);
        let mut sent = self.config.end();
        for done in 0..most {
            if !self.execute_one(gate, turn, sent, &mut out)? {
                return Ok(done);
            }
            sent = least_sent(out.sends(), sent);
        }
        Ok(most)
    }

    /// Executes the event of least rank, if one is pending before this time, and returns whether one was.
    // A method of its own, so that the loop's invariant speaks of `self`.
    fn execute_one<G: Gate>(
        &mut self,
        gate: &G,
        turn: u64,
        before: When,
        out: &mut Out<M::Payload>,
    ) -> Result<bool, Fault>
        ensures part { IsPartOfTurn self.old self.new result }
    {
        if self.kernel.next_time() >= before {
            return Ok(false);
        }
        gate.before_execute(self.number, turn);
        self.kernel.execute_next(self.model, out)
    }

    /// Tries once to send to each worker that there are letters for. It begins with the worker behind this one, so that the
    /// workers don't all begin at one inbox.
    fn post_all(&mut self) -> Result<(), Fault>
        ensures part { IsPartOfTurn self.old self.new result }
    {
        self.post_between(self.number, self.config.workers)?;
        self.post_between(0, self.number)
    }

    /// Tries once to send to each of the workers from number `from` and below number `end` that there are letters for. An inbox that
    /// another place has claimed is passed over.
    fn post_between(&mut self, from: u32, end: u32) -> Result<(), Fault>
        ensures part { IsPartOfTurn self.old self.new result }
    {
        let mut next = from;
        for _ in from..end {
            let Some(v) = self.kernel.receiver_from(next) else {
                break;
            };
            if v >= end {
                break;
            }
            let answer = self.station.post(&mut self.place, &mut self.kernel, v);
            if self.is_done(answer)? {
                self.bells.ring(v);
            }
            next = v + 1;
        }
        Ok(())
    }

    /// Whether a call was done. Notes if another place had claimed the cell. An error is a fault that no later turn mends.
    fn is_done(&mut self, answer: Result<(), Fault>) -> Result<bool, Fault>
        ensures same { self.new ≡ self.old }
        ensures passed { IsPassedOver answer result }
        ensures lasting { IfErr result IsLasting }
    {
        match answer {
            Ok(()) => Ok(true),
            Err(Fault::Memory) => Err(Fault::Memory),
            Err(Fault::Exhausted) => Err(Fault::Exhausted),
            Err(fault) => {
                self.busy = self.busy || fault == Fault::Busy;
                Ok(false)
            }
        }
    }

    /// Takes part in the round of global virtual time by one cut or one report, and returns whether one was done.
    /// After that it doesn't ask again until the round has moved on, unless another place had claimed the board.
    // All wait for the last report. So nothing that can wait stands between a worker's cut and its report.
    fn agree(&mut self) -> Result<bool, Fault>
        ensures part { IsPartOfTurn self.old self.new result }
    {
        let moves = self.bells.moves();
        if self.asked == Some(moves) {
            return Ok(false);
        }
        let answer = self.cut_or_report();
        if answer != Err(Fault::Busy) {
            self.asked = Some(moves);
        }
        self.is_done(answer)
    }

    /// One cut; if the worker has cut in this round already, one report.
    fn cut_or_report(&mut self) -> Result<(), Fault>
        ensures same { IsAtSameStation self.old self.new }
    {
        if self.has_cut {
            return self.report();
        }
        match self.station.cut(&mut self.place, &mut self.kernel) {
            Ok(()) => {
                self.has_cut = true;
                self.pace.adapt();
                self.bells.cut(self.number);
                Ok(())
            }
            Err(Fault::NotLawful) => self.report(),
            refused => refused,
        }
    }

    /// One report.
    fn report(&mut self) -> Result<(), Fault>
        ensures same { IsAtSameStation self.old self.new }
    {
        match self.station.report(&mut self.place, &mut self.kernel) {
            Ok(Report::Waiting) => {}
            Ok(Report::Again | Report::Announced(_)) => self.bells.move_on(self.number),
            Err(fault) => return Err(fault),
        }
        self.has_cut = false;
        Ok(())
    }

    /// Hands in if the floor has risen since the last hand-in; otherwise there is nothing to hand in. Returns whether it was done.
    fn commit_risen(&mut self) -> Result<bool, Fault>
        ensures part { IsPartOfTurn self.old self.new result }
    {
        let floor = self.kernel.floor();
        if floor == self.handed {
            return Ok(false);
        }
        let answer = self
            .station
            .commit(self.alloc, &mut self.place, &mut self.kernel);
        let done = self.is_done(answer)?;
        if done {
            self.handed = floor;
        }
        Ok(done)
    }

    /// Closes the book if the worker knows that the end of the run was announced; before that, closing isn't lawful.
    /// Returns how the work ended, if it has.
    fn close(&mut self) -> Option<Outcome>
        ensures same { IsAtSameStation self.old self.new }
        ensures ended { IfSome result (HasEnded self.new.view) }
    {
        if self.kernel.floor() < self.config.end() {
            return None;
        }
        match self.station.close(&mut self.place) {
            Ok(()) => Some(Outcome::Closed),
            Err(Fault::Closed) => Some(Outcome::Ended),
            Err(fault) => {
                self.busy = self.busy || fault == Fault::Busy;
                None
            }
        }
    }
}

impl<'a, M: EventModel> Driver<'a, M> {
    /// A turn up to its cut: fetches and accepts mail, executes events, sends mail. Returns whether an event was executed.
    fn work<G: Gate>(&mut self, gate: &G, turn: u64) -> Result<bool, Fault>
        ensures part { IsPartOfTurn self.old self.new result }
    {
        self.fetch()?;
        self.accept_all()?;
        let executed = self.execute_some(gate, turn)?;
        self.note_counts();
        self.executed = self.executed.saturating_add(u64::from(executed));
        self.post_all()?;
        Ok(executed > 0)
    }

    /// Takes all mail that has arrived to its processes.
    fn accept_all(&mut self) -> Result<(), Fault>
        ensures part { IsPartOfTurn self.old self.new result }
    {
        let answer = self.kernel.accept_all(self.model);
        let _ = self.is_done(answer)?;
        Ok(())
    }

    /// Notes how many letters were made, how many were taken back and how many events were undone, since the last note.
    fn note_counts(&mut self)
        ensures same { self.new ≡ self.old }
    {
        let (made, taken, undone) = self.kernel.take_hints();
        self.pace.make(made);
        self.pace.undo(taken);
        self.undone = self.undone.saturating_add(undone);
    }

    /// Fetches the mail of the worker's inbox, unless mail that arrived before is not accepted yet.
    fn fetch(&mut self) -> Result<(), Fault>
        ensures part { IsPartOfTurn self.old self.new result }
    {
        if self.kernel.arrived_len() > 0 {
            return Ok(());
        }
        let answer = self.station.fetch(&mut self.place, &mut self.kernel);
        let _ = self.is_done(answer)?;
        if self.kernel.arrived_len() > 0 {
            self.pace.disturb();
        }
        Ok(())
    }

    /// One turn, all but the close of the book.
    fn turn<G: Gate, W: Watch>(&mut self, gate: &G, watch: &W, turn: u64) -> Result<(), Fault>
        ensures part { IsPartOfTurn self.old self.new result }
    {
        let executed = self.work(gate, turn)?;
        let agreed = self.agree()?;
        let committed = self.commit_risen()?;
        if committed {
            self.tell(watch);
        }
        self.pace.count_turn(agreed, committed, executed);
        let goes_on = !self.pace.is_held() && (executed || self.kernel.outbox_len() > 0);
        self.idle = !(agreed || committed || goes_on);
        Ok(())
    }

    /// Tells the watch of the run what was done since it was last told. That is at a hand-in and at the end, so that an event costs no call.
    pub(crate) fn tell<W: Watch>(&mut self, watch: &W)
        ensures same { self.new ≡ self.old }
    {
        let progress = Progress {
            tick: self.kernel.floor().ticks(),
            executed: self.executed,
            undone: self.undone,
        };
        watch.tell(self.number, progress);
        self.executed = 0;
        self.undone = 0;
    }

    /// Rests if the turn left nothing to go on with: it spins or yields if another try may soon do, else waits for
    /// the bell. A ring since the turn began counts.
    fn rest<R: Wait>(&mut self, rt: &R)
        ensures same { self.new ≡ self.old }
    {
        if self.idle && self.busy && self.spins < MOST_SPINS {
            self.spins += 1;
            for _ in 0..PAUSES {
                spin_loop();
            }
            return;
        }
        self.spins = 0;
        if !self.idle {
            return;
        }
        if self.busy || self.kernel.arrived_len() > 0 || self.bells.is_stopped() {
            yield_now();
            return;
        }
        let looks = self.looks.count();
        let slept = self.bells.wait(rt, self.number, self.heard, looks);
        self.looks.adapt(slept);
    }

    /// Begins a turn, if another one may do something.
    fn begins(&mut self) -> bool
        ensures same { self.new ≡ self.old }
    {
        self.heard = self.bells.heard(self.number);
        self.busy = false;
        self.pace.goes_on(self.bells.is_stopped())
    }

    /// Makes turn after turn, until the book is closed, a call is refused for good, or the worker has made so many turns since it
    /// began. It ends some turns after another worker has left early, too.
    pub(crate) fn run<R: Wait, G: Gate, W: Watch>(
        &mut self,
        rt: &R,
        gate: &G,
        watch: &W,
        turns: u64,
    ) -> Outcome
        ensures same { IsAtSameStation self.old self.new }
        ensures ended { HasEnded self.new.view result }
    {
        self.pace.resume();
        for turn in self.turns..turns {
            if !self.begins() {
                break;
            }
            self.turns = turn + 1;
            if let Err(fault) = self.turn(gate, watch, turn + 1) {
                return Outcome::Refused(fault);
            }
            if let Some(outcome) = self.close() {
                return outcome;
            }
            self.rest(rt);
        }
        Outcome::Spent
    }
}

/// The least time of these events, or `least` if none is before it.
fn least_sent<P: Copy>(sends: &[Sent<P>], least: When) -> When {
    let mut least = least;
    for sent in sends {
        least = least.earlier(sent.key.when());
    }
    least
}
