//! The work of one worker, in one piece or in several.
//!
//! `bench/rounds` counts by edits of this file: after a change here `bench/rounds --check` has to pass.

ghost use Rattle.std.specs.Prelude.{◌≡◌, ◌<◌, ◌⊎◌, [], None, Some, Ok, Err, length, IfOk, IfErr, IfSome, ◌*◌, ◌+◌};
ghost use Rattle.vt_key.specs.promise.Times.{Time as TimeValue};
ghost use Rattle.vt_key.specs.declared.fault.Fault.TheVariants.{Memory, Busy, NotLawful};
ghost use Rattle.vt_model.specs.promise.Simulation.{simulation_of};
ghost use Rattle.vt_model.specs.promise.Sequential.{seq_records};
ghost use Rattle.vt_model.specs.promise.Settings.{end_of};
ghost use Rattle.vt_steps.specs.promise.World.{opening_part};
ghost use Rattle.vt_pool.specs.inside.Steps.{IsLedFrom};
ghost use Rattle.vt_steps.specs.inside.Finals.{final_value};
ghost use Rattle.vt_station.specs.declared.driver.Outcome.TheVariants.{Spent, Closed};
ghost use Rattle.vt_station.specs.declared.job.Post.TheVariants.{Begun};
ghost use Rattle.vt_places.specs.inside.Told.{station_model, station_config, station_table, place_table, place_view};
ghost use Rattle.vt_places.specs.inside.Making.{IsNew, AreNew};
ghost use Rattle.vt_places.specs.inside.Calls.{IsHandOutRefusal};
ghost use Rattle.vt_station.specs.inside.Crew.{IsSameJob, AllAt, AreInOrder, AreUnbegun, CannotBegin, StandsThere, StandsFrom, view_of, table_of, IsPieceOf};

use crate::bell::{Bells, Start};
use crate::driver::{Driver, Outcome, Wanted};
use crate::gate::Gate;
use std::alloc::Global;
use std::marker::Model;
use std::sync::Wait;
use vt_engine::{Engine, SHARE};
use vt_key::Fault;
use vt_model::{Config, Model as EventModel, Record};
use vt_places::{Place, Station};
use vt_share::Share;
use vt_watch::Watch;

/// What is asked of all workers in a piece of a run, what their executions go through, and what watches them.
#[derive(Drop)]
pub(crate) struct Task<'a, G, W> {
    pub(crate) gate: &'a G,
    pub(crate) watch: &'a W,
    // How many turns each worker makes at most, counted from the beginning of the run.
    pub(crate) turns: u64,
    pub(crate) wanted: Wanted,
}

/// Where a worker stands.
#[derive(Drop)]
pub(crate) enum Post<'a, M: EventModel> {
    /// It has not begun: at its place as it was made.
    New(Place<M::Payload>),
    /// It is at work, with its kernel.
    Begun(Driver<'a, M>),
    /// It has nothing more to do, and has given up its kernel.
    Left(Place<M::Payload>),
}

/// The work of one worker: where it stands, and how its last piece ended.
#[derive(Drop)]
pub(crate) struct Job<'a, M: EventModel> {
    station: &'a Station<M>,
    bells: &'a Bells,
    model: &'a M,
    config: Config,
    worker: u32,
    post: Option<Post<'a, M>>,
    pub(crate) outcome: Option<Outcome>,
    // The final values of the worker's processes, once they are made.
    finals: Option<Vec<u64>>,
}

impl<'a, M: EventModel> Model for Job<'a, M> {
    ghost use Rattle.std.specs.Option.{option_map};
    ghost use Rattle.vt_places.specs.inside.Told.{station_model, station_config, station_table};
    ghost use Rattle.vt_station.specs.inside.Crew.{AtJob, IsJob};

    ghost Value = { AtJob M };

    ghost view = { λ j. record {
      model = j.model.now;
      config = j.config;
      table = station_table j.station.now;
      worker = j.worker;
      outcome = j.outcome;
      finals = option_map (λ v. v.items) j.finals;
    } };

    ghost invariant = { λ j. IsJob M.handlers (station_model j.station.now) (station_config j.station.now) (station_table j.station.now) j.model.now j.config j.worker j.post j.outcome (option_map (λ v. v.items) j.finals) };
}

/// The kernel of a worker at the opening.
fn open<M: EventModel>(
    alloc: Global,
    model: &M,
    config: Config,
    worker: u32,
) -> Result<Engine<M, SHARE>, Fault>
    requires known { worker < config.workers }
    ensures opening { IfOk result (λ k. IsLedFrom (M.handlers model.now) k (opening_part (simulation_of (M.handlers model.now) config) 0 worker) k) }
    ensures made { IfOk result (λ k. (k.worker ≡ worker) × (k.config ≡ config)) }
    ensures refused { IfErr result (λ fault. fault ≡ Memory) }
{
    let share = Share::new(alloc, model, config, worker)?;
    let engine = Engine::of_share(alloc, share)?;
    Ok(engine)
}

/// The worker at its post, with its kernel, which is made if it hasn't begun. A worker that has left has none.
///
/// An error gives the post back as it was, and the fault if memory for the kernel was refused.
fn begin<'a, M: EventModel>(
    alloc: Global,
    station: &'a Station<M>,
    bells: &'a Bells,
    model: &'a M,
    config: Config,
    worker: u32,
    post: Post<'a, M>,
) -> Result<Driver<'a, M>, (Post<'a, M>, Option<Fault>)>
    requires known { worker < config.workers }
    requires told { (station_model station.now ≡ model.now) × (station_config station.now ≡ config) }
    requires there { StandsThere (simulation_of (M.handlers model.now) config) model.now config (station_table station.now) worker post }
    ensures begun { IfOk result (λ driver. StandsThere (simulation_of (M.handlers model.now) config) model.now config (station_table station.now) worker (Begun driver)) }
    ensures refused { IfErr result (λ not. (not.0 ≡ post.entry) × CannotBegin post.entry not.1) }
{
    match post {
        Post::Begun(driver) => Ok(driver),
        Post::New(place) => match open(alloc, model, config, worker) {
            Ok(kernel) => Ok(Driver::new(alloc, station, model, config, place, kernel, bells)),
            Err(fault) => Err((Post::New(place), Some(fault))),
        },
        Post::Left(place) => Err((Post::Left(place), None)),
    }
}

/// Where a worker stands after a piece of its work that ended so. Where there is more to do, it keeps its kernel.
fn rest<'a, M: EventModel>(driver: Driver<'a, M>, outcome: Outcome) -> Post<'a, M>
    ensures there { StandsFrom driver.entry result }
    ensures kept { outcome ≡ Spent → result ≡ Begun driver.entry }
{
    match outcome {
        Outcome::Spent => Post::Begun(driver),
        _ => Post::Left(driver.leave()),
    }
}

/// What is handed out at a place that has shown nothing: no record.
///
/// [`Fault::NotLawful`]: there is one worker. [`Fault::Busy`]: more was handed out before. The records are unchanged.
fn hand_out_none(config: Config, from: usize, records: &mut Vec<Record>) -> Result<(), Fault>
    ensures none { IfOk result (λ _. (from ≡ 0) × (records.new.items ≡ [])) }
    ensures unchanged { IfErr result (λ _. records.new.items ≡ records.old.items) }
    ensures refused { IfErr result (λ fault. ((fault ≡ NotLawful) × (config.workers ≡ 1)) ⊎ ((fault ≡ Busy) × (1 < config.workers))) }
    ensures alone { config.workers ≡ 1 → result ≡ Err NotLawful }
{
    if config.workers == 1 {
        return Err(Fault::NotLawful);
    }
    if from > 0 {
        return Err(Fault::Busy);
    }
    records.clear();
    Ok(())
}

/// Gives up the worker, and returns its place.
fn leave<M: EventModel>(post: Post<'_, M>) -> Place<M::Payload>
    ensures view { place_view result ≡ view_of post.entry }
    ensures table { place_table result ≡ table_of post.entry }
{
    match post {
        Post::New(place) | Post::Left(place) => place,
        Post::Begun(driver) => driver.leave(),
    }
}

impl<'a, M: EventModel> Job<'a, M> {
    /// Makes the kernel, unless it is made, and all turns of the worker that are left, and then the final values if they are wanted.
    fn work<R: Wait, G: Gate, W: Watch>(&mut self, rt: &R, alloc: Global, task: &Task<'_, G, W>)
        ensures same { IsSameJob self.old self.new }
    {
        let Some(post) = self.post.take() else {
            return;
        };
        match begin(
            alloc,
            self.station,
            self.bells,
            self.model,
            self.config,
            self.worker,
            post,
        ) {
            Ok(mut driver) => {
                let outcome = driver.run(rt, task.gate, task.watch, task.turns);
                driver.tell(task.watch);
                self.outcome = Some(outcome);
                self.finals = driver.finals(task.wanted);
                self.post = Some(rest(driver, outcome));
            }
            Err((post, fault)) => {
                if let Some(fault) = fault {
                    self.outcome = Some(Outcome::Refused(fault));
                }
                self.post = Some(post);
            }
        }
    }
}

impl<'a, M: EventModel> Job<'a, M> {
    /// The worker's work in a piece of the run, once all workers have begun it. It lets the others know how it ends.
    pub(crate) fn run<R: Wait, G: Gate, W: Watch>(
        &mut self,
        rt: &R,
        alloc: Global,
        task: &Task<'_, G, W>,
    )
        ensures same { IsSameJob self.old self.new }
    {
        match self.bells.begin(rt) {
            Start::Whole => self.work(rt, alloc, task),
            Start::Short => self.outcome = Some(Outcome::Refused(Fault::Memory)),
            Start::Over => self.outcome = Some(Outcome::Spent),
        }
        match self.outcome {
            Some(Outcome::Closed) => self.bells.ring_others(self.worker),
            Some(Outcome::Ended) => {}
            _ => self.bells.stop(self.worker),
        }
    }
}

impl<'a, M: EventModel> Job<'a, M> {
    /// Hands out the records that the worker's place shows but for the first `from`, in place of those in `records`.
    ///
    /// [`Fault`]: as [`Station::hand_out`] says; all is unchanged.
    pub(crate) fn hand_out(&mut self, from: usize, records: &mut Vec<Record>) -> Result<(), Fault>
        ensures same { self.new ≡ self.old }
        ensures piece { IfOk result (λ _. (floor : TimeValue) × IsPieceOf (simulation_of (M.handlers self.old.model) self.old.config) from records.new.items floor × (self.old.outcome ≡ Some Closed → floor ≡ end_of self.old.config)) }
        ensures unchanged { IfErr result (λ _. records.new.items ≡ records.old.items) }
        ensures refused { IfErr result (λ fault. IsHandOutRefusal (simulation_of (M.handlers self.old.model) self.old.config) fault) }
        ensures alone { self.old.config.workers ≡ 1 → result ≡ Err NotLawful }
    {
        match &mut self.post {
            Some(Post::Begun(driver)) => driver.hand_out(from, records),
            Some(Post::Left(place)) => self.station.hand_out(place, from, records),
            Some(Post::New(_)) => hand_out_none(self.config, from, records),
            // The worker always stands somewhere. `unreachable!()` would take the names of its fields from the proofs of all arms.
            None => Err(Fault::NotLawful),
        }
    }

    /// The records that the worker's place shows, taken out of the book.
    pub(crate) fn into_records(self, alloc: Global) -> Result<Vec<Record>, Fault>
        ensures shown { IfOk result (λ v. (floor : TimeValue) × (v.items ≡ seq_records (simulation_of (M.handlers self.entry.model) self.entry.config) floor) × (self.entry.outcome ≡ Some Closed → floor ≡ (end_of self.entry.config))) }
        ensures refused { IfErr result (λ fault. (fault ≡ Busy) × (1 < self.entry.config.workers)) }
    {
        // Taken apart first: no field can be used after a move out of the post.
        let Job { station, post, .. } = self;
        let Some(post) = post else { unreachable!() };
        station.take_out(alloc, leave(post))
    }

    /// The final value of the worker's process at this index, if it is made.
    pub(crate) fn final_at(&self, index: usize) -> Option<u64>
        ensures { IfSome result (λ value. value ≡ final_value (simulation_of (M.handlers self.now.model) self.now.config) (index * self.now.config.workers + self.now.worker)) }
    {
        let Some(finals) = &self.finals else {
            return None;
        };
        let Some(value) = finals.get(index) else {
            return None;
        };
        Some(*value)
    }
}

/// The work of worker `worker`, which has not begun.
fn job_of<'a, M: EventModel>(
    station: &'a Station<M>,
    bells: &'a Bells,
    model: &'a M,
    config: Config,
    worker: u32,
    place: Place<M::Payload>,
) -> Job<'a, M>
    requires known { worker < config.workers }
    requires told { (station_model station.now ≡ model.now) × (station_config station.now ≡ config) }
    requires place { IsNew (simulation_of (M.handlers model.now) config) (station_table station.now) worker place }
    ensures told { (result.model ≡ model.now) × (result.config ≡ config) }
    ensures worker { result.worker ≡ worker }
    ensures begins { (result.outcome ≡ None) × (result.finals ≡ None) }
{
    Job {
        station,
        bells,
        model,
        config,
        worker,
        post: Some(Post::New(place)),
        outcome: None,
        finals: None,
    }
}

/// The work of all workers, in order.
pub(crate) fn jobs_at<'a, M: EventModel>(
    alloc: Global,
    station: &'a Station<M>,
    bells: &'a Bells,
    model: &'a M,
    config: Config,
    places: Vec<Place<M::Payload>>,
) -> Result<Vec<Job<'a, M>>, Fault>
    requires told { (station_model station.now ≡ model.now) × (station_config station.now ≡ config) }
    requires count { length places.items ≡ config.workers }
    requires places { AreNew (simulation_of (M.handlers model.now) config) (station_table station.now) 0 places.items }
    ensures told { IfOk result (λ v. AllAt model.now config v.items × (length v.items ≡ config.workers)) }
    ensures order { IfOk result (λ v. AreInOrder v.items) }
    ensures begins { IfOk result (λ v. AreUnbegun v.items) }
    ensures refused { IfErr result (λ fault. fault ≡ Memory) }
{
    let mut places = places;
    let mut jobs = Vec::new(alloc);
    for worker in 0..config.workers {
        let place = places.remove(0);
        let Ok(()) = jobs.push(job_of(station, bells, model, config, worker, place)) else {
            return Err(Fault::Memory);
        };
    }
    Ok(jobs)
}
