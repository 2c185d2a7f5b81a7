//! A worker that is driven by hand: the station's calls and the kernel's local steps together.

ghost use Rattle.std.specs.Prelude.{◌≡◌, ◌<◌, [], false, Err, IfOk, IfErr, MatchResult};
ghost use Rattle.vt_key.specs.promise.Times.{Time, TimeAtMost, TimeBefore};
ghost use Rattle.vt_key.specs.declared.fault.Fault.TheVariants.{Memory, NotLawful};
ghost use Rattle.vt_model.specs.promise.Simulation.{simulation_of};
ghost use Rattle.vt_model.specs.promise.Settings.{end_of};
ghost use Rattle.vt_steps.specs.promise.World.{Part, opening_part};
ghost use Rattle.vt_steps.specs.inside.Finals.{worker_finals};
ghost use Rattle.vt_steps.specs.promise.Letters.{is_empty};
ghost use Rattle.vt_steps.specs.promise.CellSteps.{may_send};
ghost use Rattle.vt_steps.specs.declared.step.Step.TheVariants as step;
ghost use Rattle.vt_steps.specs.declared.step.Reply.TheVariants as reply;
ghost use Rattle.vt_board.specs.inside.Calls.{reply_of};
ghost use Rattle.vt_kernel.specs.inside.Held.{StandsFor};
ghost use Rattle.vt_kernel.specs.inside.Guards.{SettlesTo};
ghost use Rattle.vt_kernel.specs.inside.Steps.{DoesStep, RefusesStep, RefusesExecute, RefusesAccept};
ghost use Rattle.vt_kernel.specs.promise.Refusals.{PassesIn};
ghost use Rattle.vt_places.specs.inside.Told.{station_model, station_config, station_table, place_table, place_view};
ghost use Rattle.vt_places.specs.inside.Making.{IsNew};
ghost use Rattle.vt_places.specs.inside.Calls.{Reaches, Closes, Unvisited, Stays, ShowsFloor, IsPostRefusal, IsFetchRefusal, IsCutRefusal, IsReportRefusal, IsCommitRefusal, IsCloseRefusal, IsRecordsRefusal, IsHandOutRefusal, IsFloorLeft, AreRecordsShown, AreHandedOut, IsRefusedOnceClosed, IsRefusedAlone, RefusesAlone};
ghost use Rattle.vt_places.specs.inside.AtWork.{IsAtSamePlace, IsAtSameStation, KeepsAll, simulation_at, MakesVisit};

use crate::place::Place;
use crate::station::Station;
use std::alloc::Global;
use std::marker::Model;
use vt_board::Report;
use vt_engine::{Engine, KERNEL};
use vt_kernel::Kernel;
use vt_key::{Fault, Stamp};
use vt_model::{Config, Model as EventModel, Record};

/// A worker that is driven by hand: a kernel, and the place at a station by which it acts there.
///
/// The type guarantees that the kernel is what local steps make of the worker's part after the place's last visit. So each of its
/// calls may be made at any time, and none needs a proof. The running of workers calls the station and the kernel itself.
#[derive(Drop)]
pub struct Worker<'a, M: EventModel> {
    alloc: Global,
    station: &'a Station<M>,
    model: &'a M,
    config: Config,
    place: Place<M::Payload>,
    kernel: Engine<M, KERNEL>,
}

impl<'a, M: EventModel> Model for Worker<'a, M> {
    ghost use Rattle.vt_places.specs.inside.Told.{station_model, place_table};
    ghost use Rattle.vt_places.specs.inside.AtWork.{AtWork, IsAtWork, at_work};

    ghost Value = { AtWork M M.State M.Payload M.Kept };

    ghost view = { λ w. at_work w.station.now w.model.now w.place w.kernel };

    ghost invariant = { λ w. IsAtWork M.handlers (station_model w.station.now) w.config (place_table w.place) (at_work w.station.now w.model.now w.place w.kernel) };
}

/// Why a worker could not be made, and its place.
#[derive(Drop)]
pub struct NotMade<P> {
    /// [`Fault::Memory`]: memory was refused.
    pub fault: Fault,
    /// The place, unchanged.
    pub place: Place<P>,
}

/// The kernel of worker `w` at the opening.
fn open<M: EventModel>(
    alloc: Global,
    model: &M,
    config: Config,
    w: u32,
) -> Result<Engine<M, KERNEL>, Fault>
    requires known { w < config.workers }
    ensures opening { IfOk result (λ k. StandsFor (M.handlers model.now) k (opening_part (simulation_of (M.handlers model.now) config) 0 w)) }
    ensures made { IfOk result (λ k. (k.worker ≡ w) × (k.config ≡ config)) }
    ensures refused { IfErr result (λ fault. fault ≡ Memory) }
{
    let kernel = Kernel::new(alloc, model, config, w)?;
    let engine = Engine::of(alloc, kernel)?;
    Ok(engine)
}

impl<'a, M: EventModel> Worker<'a, M> {
    /// Worker `w` with its kernel at the opening, at the place that the station made for it.
    ///
    /// [`NotMade`]: memory was refused.
    pub fn new(
        alloc: Global,
        station: &'a Station<M>,
        model: &'a M,
        config: Config,
        w: u32,
        place: Place<M::Payload>,
    ) -> Result<Worker<'a, M>, NotMade<M::Payload>>
        requires known { w < config.workers }
        requires told { (station_model station.now ≡ model.now) × (station_config station.now ≡ config) }
        requires place { IsNew (simulation_of (M.handlers model.now) config) (station_table station.now) w place }
        ensures made { IfOk result (λ made. (made.model ≡ model.now) × (made.config ≡ config) × (made.table ≡ station_table station.now)
            × (made.view ≡ place_view place) × (made.kernel.worker ≡ w) × (made.kernel.config ≡ config) × StandsFor (M.handlers model.now) made.kernel (opening_part (simulation_of (M.handlers model.now) config) 0 w)) }
        ensures refused { IfErr result (λ not. (not.fault ≡ Memory) × (not.place ≡ place)) }
    {
        match open(alloc, model, config, w) {
            Ok(kernel) => Ok(Worker {
                alloc,
                station,
                model,
                config,
                place,
                kernel,
            }),
            Err(fault) => Err(NotMade { fault, place }),
        }
    }

    /// Drops the worker's kernel and returns its place.
    pub fn leave(self) -> Place<M::Payload>
        ensures table { place_table result ≡ self.entry.table }
        ensures view { place_view result ≡ self.entry.view }
    {
        self.place
    }

    /// What the type guarantees, for the proof of a caller: the kernel is what local steps make of the worker's part after the
    /// place's last visit.
    pub fn is_at_work(&self)
        ensures { Reaches (M.handlers self.now.model) self.now.config self.now.view self.now.kernel }
    {
        let _ = &self.kernel;
    }

    /// The number of the worker.
    pub fn number(&self) -> u32
        ensures { result ≡ self.now.kernel.worker }
    {
        self.place.worker
    }

    /// The config of the run.
    pub fn config(&self) -> Config
        ensures { result ≡ self.now.config }
    {
        self.config
    }
}

impl<'a, M: EventModel> Worker<'a, M> {
    /// Executes the least pending event of process `lp`.
    ///
    /// [`Fault`]: as [`Kernel::execute`] says; the worker is unchanged.
    pub fn execute(&mut self, lp: u32) -> Result<(), Fault>
        ensures place { IsAtSamePlace self.old self.new }
        ensures done { DoesStep (M.handlers self.old.model) self.old.kernel self.new.kernel (step.Execute lp) result }
        ensures counted { (part : Part _) → StandsFor (M.handlers self.old.model) self.new.kernel part → IfOk result (λ done. PassesIn (simulation_of (M.handlers self.old.model) self.old.kernel.config) (step.Execute lp) part 0 → ⊥) }
        ensures refused { RefusesExecute (M.handlers self.old.model) self.old.kernel lp result }
        ensures kept { IfErr result (λ _. self.new.kernel ≡ self.old.kernel) }
    {
        self.kernel.execute(self.alloc, self.model, lp)
    }

    /// Undoes the last past event of process `lp`.
    ///
    /// [`Fault::NotLawful`]: as [`Kernel::undo`] says; the worker is unchanged.
    pub fn undo(&mut self, lp: u32) -> Result<(), Fault>
        ensures place { IsAtSamePlace self.old self.new }
        ensures done { DoesStep (M.handlers self.old.model) self.old.kernel self.new.kernel (step.Undo lp) result }
        ensures refused { RefusesStep (M.handlers self.old.model) self.old.kernel (step.Undo lp) result }
        ensures kept { IfErr result (λ fault. (fault ≡ NotLawful) × (self.new.kernel ≡ self.old.kernel)) }
    {
        self.kernel.undo(self.model, lp)
    }

    /// Annihilates the message and the anti-message of this stamp at process `lp`.
    ///
    /// [`Fault::NotLawful`]: as [`Kernel::cancel`] says; the worker is unchanged.
    pub fn cancel(&mut self, lp: u32, stamp: Stamp) -> Result<(), Fault>
        ensures place { IsAtSamePlace self.old self.new }
        ensures done { DoesStep (M.handlers self.old.model) self.old.kernel self.new.kernel (step.Cancel lp stamp) result }
        ensures refused { RefusesStep (M.handlers self.old.model) self.old.kernel (step.Cancel lp stamp) result }
        ensures kept { IfErr result (λ fault. (fault ≡ NotLawful) × (self.new.kernel ≡ self.old.kernel)) }
    {
        self.kernel.cancel(lp, stamp)
    }

    /// Takes the first letter of the outbox that is for a process of this worker to it.
    ///
    /// [`Fault::NotLawful`]: there is none, or its process holds it already; the worker is unchanged.
    pub fn home(&mut self) -> Result<(), Fault>
        ensures place { IsAtSamePlace self.old self.new }
        ensures done { DoesStep (M.handlers self.old.model) self.old.kernel self.new.kernel (step.Home self.old.kernel.worker) result }
        ensures refused { RefusesStep (M.handlers self.old.model) self.old.kernel (step.Home self.old.kernel.worker) result }
        ensures kept { IfErr result (λ fault. (fault ≡ NotLawful) × (self.new.kernel ≡ self.old.kernel)) }
    {
        self.kernel.home()
    }

    /// Takes the letter at index `i`, from 0, of the mail that has arrived to its process.
    ///
    /// [`Fault`]: as [`Kernel::accept`] says; the worker is unchanged.
    pub fn accept(&mut self, i: u64) -> Result<(), Fault>
        ensures place { IsAtSamePlace self.old self.new }
        ensures done { DoesStep (M.handlers self.old.model) self.old.kernel self.new.kernel (step.Accept self.old.kernel.worker i) result }
        ensures refused { RefusesAccept (M.handlers self.old.model) self.old.kernel i result }
        ensures kept { IfErr result (λ _. self.new.kernel ≡ self.old.kernel) }
    {
        self.kernel.accept(self.alloc, i)
    }

    /// Undoes and cancels at process `lp` until neither is lawful there, and returns how many events it has undone, modulo 2^64.
    pub fn settle(&mut self, lp: u32) -> u64
        ensures place { IsAtSamePlace self.old self.new }
        ensures settles { (part : Part _) → StandsFor (M.handlers self.old.model) self.old.kernel part → (new : Part _) × SettlesTo (simulation_of (M.handlers self.old.model) self.old.kernel.config) self.old.kernel.worker lp part new result × StandsFor (M.handlers self.old.model) self.new.kernel new }
    {
        self.kernel.settle(self.model, lp)
    }
}

impl<'a, M: EventModel> Worker<'a, M> {
    /// Sends all letters for processes of worker `v`.
    ///
    /// [`Fault`]: as [`Station::post`] says; the worker is unchanged.
    pub fn post(&mut self, v: u32) -> Result<(), Fault>
        ensures station { IsAtSameStation self.old self.new }
        ensures done { MatchResult result
            (λ _. MakesVisit M.handlers self.old self.new (step.Send self.old.kernel.worker v) reply.Done self.old.view.seen)
            (λ _. KeepsAll self.old self.new) }
        ensures unlawful { (part : Part _) → StandsFor (M.handlers self.old.model) self.old.kernel part → may_send (simulation_at M.handlers self.old).workers self.old.kernel.worker v part.outbox ≡ false → result ≡ Err NotLawful }
        ensures refused { (part : Part _) → StandsFor (M.handlers self.old.model) self.old.kernel part → IfErr result (λ fault. IsPostRefusal (simulation_at M.handlers self.old) self.old.kernel.worker v part fault) }
    {
        self.station.post(&mut self.place, &mut self.kernel, v)
    }

    /// Fetches the mail that was sent to this worker.
    ///
    /// [`Fault`]: as [`Station::fetch`] says; the worker is unchanged.
    pub fn fetch(&mut self) -> Result<(), Fault>
        ensures station { IsAtSameStation self.old self.new }
        ensures done { MatchResult result
            (λ _. MakesVisit M.handlers self.old self.new (step.Fetch self.old.kernel.worker) reply.Done self.old.view.seen)
            (λ _. KeepsAll self.old self.new) }
        ensures unlawful { (part : Part _) → StandsFor (M.handlers self.old.model) self.old.kernel part → is_empty part.arrived ≡ false → result ≡ Err NotLawful }
        ensures refused { (part : Part _) → StandsFor (M.handlers self.old.model) self.old.kernel part → IfErr result (λ fault. IsFetchRefusal (simulation_at M.handlers self.old) self.old.view part fault) }
    {
        self.station.fetch(&mut self.place, &mut self.kernel)
    }

    /// Joins the open round of global virtual time; if none is open, it opens one.
    ///
    /// [`Fault`]: as [`Station::cut`] says; the worker is unchanged.
    pub fn cut(&mut self) -> Result<(), Fault>
        ensures station { IsAtSameStation self.old self.new }
        ensures done { MatchResult result
            (λ _. MakesVisit M.handlers self.old self.new (step.Cut self.old.kernel.worker) reply.Done self.old.view.seen)
            (λ _. KeepsAll self.old self.new) }
        ensures refused { IfErr result (λ fault. IsCutRefusal (simulation_at M.handlers self.old) self.old.view fault) }
        ensures alone { RefusesAlone (M.handlers self.old.model) self.old.config self.old.view self.old.kernel (step.Cut self.old.kernel.worker) result }
    {
        self.station.cut(&mut self.place, &mut self.kernel)
    }

    /// Reports to the board, and returns the outcome.
    ///
    /// [`Fault`]: as [`Station::report`] says; the worker is unchanged.
    pub fn report(&mut self) -> Result<Report, Fault>
        ensures station { IsAtSameStation self.old self.new }
        ensures done { MatchResult result
            (λ report. MakesVisit M.handlers self.old self.new (step.Report self.old.kernel.worker) (reply_of report) self.old.view.seen)
            (λ _. KeepsAll self.old self.new) }
        ensures refused { IfErr result (λ fault. IsReportRefusal (simulation_at M.handlers self.old) self.old.view fault) }
        ensures alone { RefusesAlone (M.handlers self.old.model) self.old.config self.old.view self.old.kernel (step.Report self.old.kernel.worker) result }
    {
        self.station.report(&mut self.place, &mut self.kernel)
    }

    /// Hands the rows of the events below the worker's floor in to the book.
    ///
    /// [`Fault`]: as [`Station::commit`] says; the worker is unchanged.
    pub fn commit(&mut self) -> Result<(), Fault>
        ensures station { IsAtSameStation self.old self.new }
        ensures done { MatchResult result
            (λ _. (shown : Time) × (visited : MakesVisit M.handlers self.old self.new (step.Commit self.old.kernel.worker) reply.Done shown)
            × ShowsFloor (end_of self.old.config) shown visited.visits.at.now × IsFloorLeft (simulation_at M.handlers self.old) self.old.view (step.Commit self.old.kernel.worker) shown)
            (λ _. KeepsAll self.old self.new) }
        ensures refused { IfErr result (λ fault. IsCommitRefusal (simulation_at M.handlers self.old) self.old.view fault) }
        ensures closed { IsRefusedOnceClosed self.old.view result }
        ensures alone { RefusesAlone (M.handlers self.old.model) self.old.config self.old.view self.old.kernel (step.Commit self.old.kernel.worker) result }
    {
        self.station
            .commit(self.alloc, &mut self.place, &mut self.kernel)
    }

    /// Closes the book.
    ///
    /// [`Fault`]: as [`Station::close`] says; the worker is unchanged.
    pub fn close(&mut self) -> Result<(), Fault>
        ensures station { IsAtSameStation self.old self.new }
        ensures done { MatchResult result (λ _. Closes (simulation_at M.handlers self.old) self.old.view (end_of self.old.config) self.new.view) (λ _. Stays self.old.view self.new.view) }
        ensures kernel { self.new.kernel ≡ self.old.kernel }
        ensures refused { IfErr result (λ fault. IsCloseRefusal (simulation_at M.handlers self.old) self.old.view fault) }
        ensures closed { IsRefusedOnceClosed self.old.view result }
        ensures alone { IsRefusedAlone (simulation_at M.handlers self.old) self.old.view [] step.Close result }
    {
        self.station.close(&mut self.place)
    }

    /// The records that the book shows.
    ///
    /// [`Fault`]: as [`Station::records`] says; the worker is unchanged.
    pub fn records(&mut self) -> Result<Vec<Record>, Fault>
        ensures station { IsAtSameStation self.old self.new }
        ensures kernel { self.new.kernel ≡ self.old.kernel }
        ensures done { MatchResult result
            (λ v. (floor : Time) × AreRecordsShown (simulation_at M.handlers self.old) self.old.view floor v.items × Unvisited self.old.view floor self.new.view)
            (λ _. Stays self.old.view self.new.view) }
        ensures refused { IfErr result (λ fault. IsRecordsRefusal (simulation_at M.handlers self.old) fault) }
    {
        self.station.records(self.alloc, &mut self.place)
    }

    /// Hands out the records that the book shows but for the first `from`, in place of those in `records`.
    ///
    /// [`Fault`]: as [`Station::hand_out`] says; the worker and `records` are unchanged.
    pub fn hand_out(&mut self, from: usize, records: &mut Vec<Record>) -> Result<(), Fault>
        ensures station { IsAtSameStation self.old self.new }
        ensures kernel { self.new.kernel ≡ self.old.kernel }
        ensures done { MatchResult result
            (λ _. (floor : Time) × AreHandedOut (simulation_at M.handlers self.old) self.old.view floor from records.new.items × Unvisited self.old.view floor self.new.view)
            (λ _. Stays self.old.view self.new.view) }
        ensures unchanged { IfErr result (λ _. records.new.items ≡ records.old.items) }
        ensures refused { IfErr result (λ fault. IsHandOutRefusal (simulation_at M.handlers self.old) fault) }
        ensures alone { self.old.config.workers ≡ 1 → result ≡ Err NotLawful }
    {
        self.station.hand_out(&mut self.place, from, records)
    }

    /// The final value of each process of this worker, in rising order of processes.
    ///
    /// [`Fault`]: as [`Station::finals`] says; the worker is unchanged.
    pub fn finals(&mut self) -> Result<Vec<u64>, Fault>
        ensures place { IsAtSamePlace self.old self.new }
        ensures kernel { self.new.kernel ≡ self.old.kernel }
        ensures values { IfOk result (λ v. v.items ≡ worker_finals (simulation_at M.handlers self.old) self.old.view.worker) }
        ensures not_lawful { TimeBefore self.old.kernel.floor (end_of self.old.config) → result ≡ Err NotLawful }
        ensures refused { TimeAtMost (end_of self.old.config) self.old.kernel.floor → IfErr result (λ fault. fault ≡ Memory) }
    {
        self.station.finals(
            self.alloc,
            self.model,
            self.config,
            &mut self.place,
            &self.kernel,
        )
    }

    /// The worker's kernel, to be read.
    pub fn kernel(&self) -> &Kernel<M>
        ensures { result.now ≡ self.now.kernel }
    {
        self.kernel.kernel()
    }
}
