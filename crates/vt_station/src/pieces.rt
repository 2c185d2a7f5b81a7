//! A run in pieces, after each of which its records are handed out.

ghost use Rattle.std.specs.Prelude.{◌≡◌, length, Err, IfOk, IfErr};
ghost use Rattle.vt_key.specs.promise.Times.{Time as TimeValue};
ghost use Rattle.vt_key.specs.declared.fault.Fault.TheVariants.{Memory, NotLawful};
ghost use Rattle.vt_model.specs.promise.Simulation.{simulation_of};
ghost use Rattle.vt_model.specs.promise.Settings.{end_of};
ghost use Rattle.vt_places.specs.inside.Told.{station_model, station_config, station_table};
ghost use Rattle.vt_places.specs.inside.Making.{AreNew};
ghost use Rattle.vt_places.specs.inside.Calls.{IsHandOutRefusal};
ghost use Rattle.vt_station.specs.declared.pieces.Standing.TheVariants.{GoesOn, Whole};
ghost use Rattle.vt_station.specs.inside.Crew.{AreUnbegun, IsPieceOf, StandsBy, wanted_finals};

use crate::bell::Bells;
use crate::crew::{closer_of, fault_of, finals_of, work_all};
use crate::driver::Wanted;
use crate::gate::Gate;
use crate::job::{Job, Task, jobs_at};
use std::alloc::Global;
use std::marker::Model;
use std::sync::Wait;
use std::thread::Threads;
use vt_key::Fault;
use vt_model::{Config, Model as EventModel, Record};
use vt_places::{Place, Station};
use vt_watch::Watch;

/// How a run in pieces stands.
#[derive(Clone, Copy)]
pub enum Standing {
    /// It goes on, if more turns may be made.
    GoesOn,
    /// A worker has closed the book: all records are there.
    Whole,
    /// A worker was refused for good: [`Fault::Memory`] or [`Fault::Exhausted`].
    Stopped(Fault),
}

/// All workers of a run in pieces, which stand at their places between one piece and the next.
///
/// The type guarantees that what it says of the run's standing follows from how the work of its workers has ended.
#[derive(Drop)]
pub struct Crew<'a, M: EventModel> {
    jobs: Vec<Job<'a, M>>,
    bells: &'a Bells,
    model: &'a M,
    config: Config,
    wanted: Wanted,
    standing: Standing,
}

impl<'a, M: EventModel> Model for Crew<'a, M> {
    ghost use Rattle.vt_station.specs.inside.Crew.{AtCrew, IsCrew};

    ghost Value = { AtCrew M };

    ghost view = { λ c. record { model = c.model.now; config = c.config; jobs = c.jobs.items; wanted = c.wanted; standing = c.standing } };

    ghost invariant = { λ c. IsCrew c.model.now c.config c.standing c.jobs.items };
}

impl<'a, M: EventModel> Crew<'a, M> {
    /// The workers of a run that has not begun, at the places that their station made for them. The bells are as many as they are. Where
    /// final values are `wanted`, each worker makes those of its own processes at the end of its work.
    ///
    /// [`Fault::Memory`]: memory was refused.
    pub fn new(
        alloc: Global,
        station: &'a Station<M>,
        bells: &'a Bells,
        model: &'a M,
        config: Config,
        places: Vec<Place<M::Payload>>,
        wanted: Wanted,
    ) -> Result<Crew<'a, M>, Fault>
        requires told { (station_model station.now ≡ model.now) × (station_config station.now ≡ config) }
        requires count { length places.items ≡ config.workers }
        requires places { AreNew (simulation_of (M.handlers model.now) config) (station_table station.now) 0 places.items }
        ensures made { IfOk result (λ crew. (crew.model ≡ model.now) × (crew.config ≡ config) × (crew.wanted ≡ wanted) × (crew.standing ≡ GoesOn) × AreUnbegun crew.jobs) }
        ensures refused { IfErr result (λ fault. fault ≡ Memory) }
    {
        let jobs = jobs_at(alloc, station, bells, model, config, places)?;
        Ok(Crew {
            jobs,
            bells,
            model,
            config,
            wanted,
            standing: Standing::GoesOn,
        })
    }

    /// Makes a piece of the run, each worker's turns in a thread of its own, until it has made `turns` of them since the run
    /// began, and returns how the run stands then. A run that doesn't go on is left as it is. All threads are joined.
    ///
    /// What a worker does in a turn, [`run_workers`](crate::run_workers) says.
    pub fn work<R: Threads + Wait + Sync, G: Gate + Sync, W: Watch + Sync>(
        &mut self,
        rt: &R,
        alloc: Global,
        gate: &G,
        watch: &W,
        turns: u64,
    ) -> Standing
    where
        M: Sync,
        M::State: Send,
        M::Kept: Send,
        ensures same { (self.new.model ≡ self.old.model) × (self.new.config ≡ self.old.config) × (self.new.wanted ≡ self.old.wanted) }
        ensures told { (result ≡ self.new.standing) × StandsBy self.new.jobs result }
        ensures over { (self.old.standing ≡ GoesOn → ⊥) → self.new ≡ self.old }
    {
        if let Standing::GoesOn = self.standing {
            let task = Task {
                gate,
                watch,
                turns,
                wanted: self.wanted,
            };
            self.bells.reopen();
            work_all(rt, alloc, &task, self.jobs.as_mut_slice());
            self.standing = standing_of(self.jobs.as_slice());
        }
        self.standing
    }

    /// Hands out the committed records but for the first `from`, in place of those in `records`. All that were handed out since
    /// the run began, one after the other, are those of the sequential run below some time; once the run is whole, all.
    ///
    /// [`Fault`]: as [`Station::hand_out`] says; the workers and `records` are unchanged.
    pub fn hand_out(&mut self, from: usize, records: &mut Vec<Record>) -> Result<(), Fault>
        ensures same { self.new ≡ self.old }
        ensures piece { IfOk result (λ _. (floor : TimeValue) × IsPieceOf (simulation_of (M.handlers self.old.model) self.old.config) from records.new.items floor × (self.old.standing ≡ Whole → floor ≡ end_of self.old.config)) }
        ensures unchanged { IfErr result (λ _. records.new.items ≡ records.old.items) }
        ensures refused { IfErr result (λ fault. IsHandOutRefusal (simulation_of (M.handlers self.old.model) self.old.config) fault) }
        ensures alone { self.old.config.workers ≡ 1 → result ≡ Err NotLawful }
    {
        let reader = closer_of(self.jobs.as_slice()).unwrap_or(0);
        let Some(job) = self.jobs.get_mut(reader) else {
            unreachable!()
        };
        job.hand_out(from, records)
    }

    /// The final value of each process of a run that is whole, in rising order of processes: what the model's `finish` makes of its
    /// state. None if final values aren't wanted.
    ///
    /// [`Fault::NotLawful`]: the run isn't whole. [`Fault::Memory`]: it is, and memory was refused, to a worker or here.
    pub fn finals(&self, alloc: Global) -> Result<Vec<u64>, Fault>
        ensures values { IfOk result (λ v. v.items ≡ wanted_finals self.now.wanted (simulation_of (M.handlers self.now.model) self.now.config)) }
        ensures early { (self.now.standing ≡ Whole → ⊥) → result ≡ Err NotLawful }
        ensures refused { self.now.standing ≡ Whole → IfErr result (λ fault. fault ≡ Memory) }
    {
        let Standing::Whole = self.standing else {
            return Err(Fault::NotLawful);
        };
        let jobs = self.jobs.as_slice();
        finals_of(alloc, self.model, self.config, jobs, self.wanted)
    }
}

/// How the run stands after the work of all.
fn standing_of<M: EventModel>(jobs: &[Job<'_, M>]) -> Standing
    ensures { StandsBy jobs.now result }
{
    if closer_of(jobs).is_some() {
        return Standing::Whole;
    }
    match fault_of(jobs) {
        Fault::Memory => Standing::Stopped(Fault::Memory),
        Fault::Exhausted => Standing::Stopped(Fault::Exhausted),
        _ => Standing::GoesOn,
    }
}
