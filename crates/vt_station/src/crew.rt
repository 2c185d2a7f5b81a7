//! A thread for each worker, and what comes of their work.

ghost use Rattle.std.specs.Prelude.{◌≡◌, ◌<◌, ◌⊎◌, [], true, false, length, None, Some, IfOk, IfErr, IfSome, IfNone, IsOkAnd, MatchResult, Ok, Err, ◌+◌};
ghost use Rattle.vt_key.specs.promise.Times.{Time as TimeValue};
ghost use Rattle.vt_model.specs.promise.Simulation.{simulation_of};
ghost use Rattle.vt_model.specs.promise.Sequential.{seq_records, seq_finals};
ghost use Rattle.vt_model.specs.promise.Settings.{end_of};
ghost use Rattle.vt_key.specs.declared.fault.Fault.TheVariants.{Memory, Busy, TurnsSpent};
ghost use Rattle.vt_steps.specs.inside.Finals.{final_value};
ghost use Rattle.vt_station.specs.declared.driver.Outcome.TheVariants.{Closed};
ghost use Rattle.vt_station.specs.declared.driver.Wanted.TheVariants.{Records};
ghost use Rattle.vt_station.specs.promise.Turns.{IsLasting};
ghost use Rattle.vt_station.specs.promise.Crew.{IsStop};
ghost use Rattle.vt_station.specs.inside.Crew.{IsSameJob, IsSameWork, AllAt, AreInOrder, IsClosedAt, NoneClosed, NoneClosedBefore, first_fault, IsToldBy, wanted_finals};

use crate::bell::Bells;
use crate::driver::{Outcome, Wanted};
use crate::gate::Gate;
use crate::job::{Job, Task, jobs_at};
use std::alloc::Global;
use std::sync::Wait;
use std::thread;
use std::thread::Threads;
use vt_key::Fault;
use vt_model::{Config, Model as EventModel, Record};
use vt_places::Station;
use vt_watch::{Unwatched, Watch};

/// A run that stopped before its end: why, and the records that were committed, a beginning of all.
#[derive(Drop)]
pub struct Stopped {
    /// Why the run stopped. [`Fault::Memory`]: memory was refused, or a thread wasn't started. [`Fault::Exhausted`]: a counter
    /// would pass 2^63. If several workers had one of these, it is that of the least number among them. [`Fault::TurnsSpent`]:
    /// none had one, and a worker made all its turns. [`Fault::Busy`]: the committed records couldn't be taken out of the book,
    /// and `records` is empty. One worker alone never has it.
    pub fault: Fault,
    /// The records that the book showed in the end: those of the sequential run below some time, and perhaps none.
    pub records: Vec<Record>,
}

/// A run that went to its end: its records, in the order of the sequential run, and the final value of each process, in rising order
/// of processes.
#[derive(Drop)]
pub struct Finished {
    /// The records of the whole run.
    pub records: Vec<Record>,
    /// What the model's `finish` makes of the state of each process after the whole run.
    pub finals: Vec<u64>,
}

/// A run that stopped with these records, or without any where they were refused.
fn stop_with(alloc: Global, fault: Fault, records: Result<Vec<Record>, Fault>) -> Stopped
    ensures { MatchResult records (λ v. (result.fault ≡ fault) × (result.records.items ≡ v.items)) (λ refused. (result.fault ≡ refused) × (result.records.items ≡ [])) }
{
    match records {
        Ok(records) => Stopped { fault, records },
        Err(fault) => Stopped {
            fault,
            records: Vec::new(alloc),
        },
    }
}

/// Whether work ended with the closing of the book.
fn has_closed_book(outcome: Option<Outcome>) -> bool
    ensures closed { result ≡ true → outcome ≡ Some Closed }
    ensures open { result ≡ false → outcome ≡ Some Closed → ⊥ }
{
    match outcome {
        Some(Outcome::Closed) => true,
        _ => false,
    }
}

/// The first job whose worker closed the book, if there is one.
pub(crate) fn closer_of<M: EventModel>(jobs: &[Job<'_, M>]) -> Option<usize>
    ensures some { IfSome result (IsClosedAt jobs.now) }
    ensures first { IfSome result (NoneClosedBefore jobs.now) }
    ensures none { IfNone result (NoneClosed jobs.now) }
{
    for i in 0..jobs.len() {
        // Bound first: a field of a job can't be reached at an element.
        let Some(job) = jobs.get(i) else {
            return None;
        };
        if has_closed_book(job.outcome) {
            return Some(i);
        }
    }
    None
}

/// Why the run stopped: the fault of the first worker that had one, else all turns were made.
pub(crate) fn fault_of<M: EventModel>(jobs: &[Job<'_, M>]) -> Fault
    ensures first { result ≡ first_fault jobs.now }
    ensures stop { IsLasting result ⊎ (result ≡ TurnsSpent) }
{
    for job in jobs {
        if let Some(Outcome::Refused(fault)) = job.outcome {
            return fault;
        }
    }
    Fault::TurnsSpent
}

/// The result of all workers' work: the records of the whole run where a worker closed the book, else those that the first
/// worker's place shows.
fn answer_of<M: EventModel>(
    alloc: Global,
    model: &M,
    config: Config,
    jobs: Vec<Job<'_, M>>,
) -> Result<Vec<Record>, Stopped>
    requires told { AllAt model.now config jobs.items }
    requires some { 0 < length jobs.items }
    ensures told { IfErr result (λ stopped. IsToldBy jobs.entry.items stopped.fault stopped.records.items) }
    ensures whole { IfOk result (λ v. v.items ≡ seq_records (simulation_of (M.handlers model.now) config) (end_of config)) }
    ensures begun { IfErr result (λ stopped. (t : TimeValue) × (stopped.records.items ≡ seq_records (simulation_of (M.handlers model.now) config) t)) }
    ensures fault { IfErr result (λ stopped. IsStop config stopped.fault stopped.records.items) }
{
    let mut jobs = jobs;
    if let Some(closer) = closer_of(jobs.as_slice()) {
        return match jobs.remove(closer).into_records(alloc) {
            Ok(records) => Ok(records),
            Err(fault) => Err(stop_with(alloc, fault, Err(fault))),
        };
    }
    let fault = fault_of(jobs.as_slice());
    let records = jobs.remove(0).into_records(alloc);
    Err(stop_with(alloc, fault, records))
}

/// The final value of process `lp`, if its worker has made it.
fn final_of<M: EventModel>(model: &M, config: Config, jobs: &[Job<'_, M>], lp: u32) -> Option<u64>
    requires told { AllAt model.now config jobs.now }
    requires order { AreInOrder jobs.now }
    ensures { IfSome result (λ value. value ≡ final_value (simulation_of (M.handlers model.now) config) lp) }
{
    let Some(job) = jobs.get(config.owner(lp) as usize) else {
        return None;
    };
    job.final_at((lp / config.workers) as usize)
}

/// The final values of all processes, in rising order.
///
/// [`Fault::Memory`]: memory was refused, to a worker or here.
fn all_finals<M: EventModel>(
    alloc: Global,
    model: &M,
    config: Config,
    jobs: &[Job<'_, M>],
) -> Result<Vec<u64>, Fault>
    requires told { AllAt model.now config jobs.now }
    requires order { AreInOrder jobs.now }
    ensures finals { IfOk result (λ v. v.items ≡ seq_finals (simulation_of (M.handlers model.now) config)) }
    ensures refused { IfErr result (λ fault. fault ≡ Memory) }
{
    let mut finals = Vec::new(alloc);
    for lp in 0..config.lps {
        let Some(value) = final_of(model, config, jobs, lp) else {
            return Err(Fault::Memory);
        };
        let Ok(()) = finals.push(value) else {
            return Err(Fault::Memory);
        };
    }
    Ok(finals)
}

/// The final values, if they are wanted; otherwise none.
///
/// [`Fault::Memory`]: as [`all_finals`] says.
pub(crate) fn finals_of<M: EventModel>(
    alloc: Global,
    model: &M,
    config: Config,
    jobs: &[Job<'_, M>],
    wanted: Wanted,
) -> Result<Vec<u64>, Fault>
    requires told { AllAt model.now config jobs.now }
    requires order { AreInOrder jobs.now }
    ensures finals { IfOk result (λ v. v.items ≡ wanted_finals wanted (simulation_of (M.handlers model.now) config)) }
    ensures none { wanted ≡ Records → IsOkAnd result (λ v. v.items ≡ []) }
    ensures refused { IfErr result (λ fault. fault ≡ Memory) }
{
    match wanted {
        Wanted::Records => Ok(Vec::new(alloc)),
        Wanted::Finals => all_finals(alloc, model, config, jobs),
    }
}

/// A run that went to its end, and its final values. Where they were refused it is told as stopped.
fn finish_with(
    records: Result<Vec<Record>, Stopped>,
    finals: Result<Vec<u64>, Fault>,
) -> Result<Finished, Stopped>
    ensures finished { IfOk result (λ v. (records ≡ Ok v.records) × (finals ≡ Ok v.finals)) }
    ensures stopped { IfErr result (λ stopped. (records ≡ Err stopped) ⊎ ((records ≡ Ok stopped.records) × (finals ≡ Err stopped.fault))) }
{
    let records = match records {
        Ok(records) => records,
        Err(stopped) => return Err(stopped),
    };
    match finals {
        Ok(finals) => Ok(Finished { records, finals }),
        Err(fault) => Err(Stopped { fault, records }),
    }
}

/// Does all workers' work, each worker's in a thread of its own.
pub(crate) fn work_all<
    R: Threads + Wait + Sync,
    M: EventModel + Sync,
    G: Gate + Sync,
    W: Watch + Sync,
>(rt: &R, alloc: Global, task: &Task<'_, G, W>, jobs: &mut [Job<'_, M>])
where
    M::State: Send,
    M::Kept: Send,
    requires some { 0 < length jobs.old }
    ensures { IsSameWork jobs.old jobs.new }
{
    let threads = jobs.len();
    // In generic code a closure that is handed a place by value is refused, so each thread is lent a job.
    thread::for_each_mut(
        rt,
        jobs,
        threads,
        &|_, job: &mut Job<'_, M>|
            ensures { IsSameJob job.entry.now job.exit.now }
        { job.run(rt, alloc, task) },
    );
}

/// Makes a station and does all workers' work at it. Where records alone are wanted, there are no final values.
fn run_crew<R: Threads + Wait + Sync, M: EventModel + Sync, G: Gate + Sync, W: Watch + Sync>(
    rt: &R,
    alloc: Global,
    config: Config,
    model: &M,
    task: &Task<'_, G, W>,
) -> Result<Finished, Stopped>
where
    M::State: Send,
    M::Kept: Send,
    ensures whole { IfOk result (λ v. v.records.items ≡ seq_records (simulation_of (M.handlers model.now) config) (end_of config)) }
    ensures finals { IfOk result (λ v. v.finals.items ≡ wanted_finals task.now.wanted (simulation_of (M.handlers model.now) config)) }
    ensures begun { IfErr result (λ stopped. (t : TimeValue) × (stopped.records.items ≡ seq_records (simulation_of (M.handlers model.now) config) t)) }
    ensures fault { IfErr result (λ stopped. IsStop config stopped.fault stopped.records.items) }
{
    task.watch.begin(config.end().ticks(), Some(config.workers));
    let (station, places) = match Station::new(alloc, model, config) {
        Ok(made) => made,
        Err(fault) => return Err(stop_with(alloc, fault, Err(fault))),
    };
    let bells = match Bells::new(alloc, config.workers) {
        Ok(bells) => bells,
        Err(fault) => return Err(stop_with(alloc, fault, Err(fault))),
    };
    let mut jobs = match jobs_at(alloc, &station, &bells, model, config, places) {
        Ok(jobs) => jobs,
        Err(fault) => return Err(stop_with(alloc, fault, Err(fault))),
    };
    work_all(rt, alloc, task, jobs.as_mut_slice());
    let finals = finals_of(alloc, model, config, jobs.as_slice(), task.wanted);
    finish_with(answer_of(alloc, model, config, jobs), finals)
}

/// Runs a model by Time Warp on as many workers as the config has, each in a thread of its own, and gives the records of the whole
/// run, in the order of the sequential run.
///
/// A worker makes at most `max_turns` turns. In each it takes its mail in, undoes what that overtakes, executes at most sixteen events,
/// the least first, sends what they sent, joins the round of global virtual time and commits. Each execution goes through `gate`.
/// A worker that can't go on sleeps until another one lets it. Once a worker has left before the end of the run,
/// the others leave within a few turns. All threads are joined before the answer; nothing promises that there is one.
///
/// [`Stopped`]: memory was refused, or the machine didn't start a thread for each worker; a count would pass 2^63; a worker made all
/// its turns before the end of the run; or the committed records couldn't be read. Its records are those below some time, a
/// beginning of all.
pub fn run_workers<R: Threads + Wait + Sync, M: EventModel + Sync, G: Gate + Sync>(
    rt: &R,
    alloc: Global,
    config: Config,
    model: &M,
    gate: &G,
    max_turns: u64,
) -> Result<Vec<Record>, Stopped>
where
    M::State: Send,
    M::Kept: Send,
    ensures whole { IfOk result (λ v. v.items ≡ seq_records (simulation_of (M.handlers model.now) config) (end_of config)) }
    ensures begun { IfErr result (λ stopped. (t : TimeValue) × (stopped.records.items ≡ seq_records (simulation_of (M.handlers model.now) config) t)) }
    ensures fault { IfErr result (λ stopped. IsStop config stopped.fault stopped.records.items) }
{
    run_workers_watched(rt, alloc, config, model, gate, &Unwatched, max_turns)
}

/// Runs a model as [`run_workers`] does, and tells `watch` of it, in the workers' threads.
///
/// [`Stopped`]: as [`run_workers`] says.
pub fn run_workers_watched<
    R: Threads + Wait + Sync,
    M: EventModel + Sync,
    G: Gate + Sync,
    W: Watch + Sync,
>(
    rt: &R,
    alloc: Global,
    config: Config,
    model: &M,
    gate: &G,
    watch: &W,
    max_turns: u64,
) -> Result<Vec<Record>, Stopped>
where
    M::State: Send,
    M::Kept: Send,
    ensures whole { IfOk result (λ v. v.items ≡ seq_records (simulation_of (M.handlers model.now) config) (end_of config)) }
    ensures begun { IfErr result (λ stopped. (t : TimeValue) × (stopped.records.items ≡ seq_records (simulation_of (M.handlers model.now) config) t)) }
    ensures fault { IfErr result (λ stopped. IsStop config stopped.fault stopped.records.items) }
{
    match run_workers_wanting(
        rt,
        alloc,
        config,
        model,
        gate,
        watch,
        max_turns,
        Wanted::Records,
    ) {
        Ok(finished) => Ok(finished.records),
        Err(stopped) => Err(stopped),
    }
}

/// Runs a model as [`run_workers_watched`] does, and gives the final value of each process too, if that is wanted; otherwise no final
/// values.
///
/// [`Stopped`]: as [`run_workers_to_finals`] says, or [`run_workers`] if none are wanted.
pub fn run_workers_wanting<
    R: Threads + Wait + Sync,
    M: EventModel + Sync,
    G: Gate + Sync,
    W: Watch + Sync,
>(
    rt: &R,
    alloc: Global,
    config: Config,
    model: &M,
    gate: &G,
    watch: &W,
    max_turns: u64,
    wanted: Wanted,
) -> Result<Finished, Stopped>
where
    M::State: Send,
    M::Kept: Send,
    ensures whole { IfOk result (λ v. v.records.items ≡ seq_records (simulation_of (M.handlers model.now) config) (end_of config)) }
    ensures finals { IfOk result (λ v. v.finals.items ≡ wanted_finals wanted (simulation_of (M.handlers model.now) config)) }
    ensures begun { IfErr result (λ stopped. (t : TimeValue) × (stopped.records.items ≡ seq_records (simulation_of (M.handlers model.now) config) t)) }
    ensures fault { IfErr result (λ stopped. IsStop config stopped.fault stopped.records.items) }
{
    let task = Task {
        gate,
        watch,
        turns: max_turns,
        wanted,
    };
    run_crew(rt, alloc, config, model, &task)
}

/// Runs a model as [`run_workers_watched`] does, and gives the final value of each process too: what the model's `finish` makes of its
/// state after the whole run. Each worker makes those of its own processes at the end of its work.
///
/// [`Stopped`]: as [`run_workers`] says; or memory was refused for the final values, and its records are all of the run.
pub fn run_workers_to_finals<
    R: Threads + Wait + Sync,
    M: EventModel + Sync,
    G: Gate + Sync,
    W: Watch + Sync,
>(
    rt: &R,
    alloc: Global,
    config: Config,
    model: &M,
    gate: &G,
    watch: &W,
    max_turns: u64,
) -> Result<Finished, Stopped>
where
    M::State: Send,
    M::Kept: Send,
    ensures whole { IfOk result (λ v. v.records.items ≡ seq_records (simulation_of (M.handlers model.now) config) (end_of config)) }
    ensures finals { IfOk result (λ v. v.finals.items ≡ seq_finals (simulation_of (M.handlers model.now) config)) }
    ensures begun { IfErr result (λ stopped. (t : TimeValue) × (stopped.records.items ≡ seq_records (simulation_of (M.handlers model.now) config) t)) }
    ensures fault { IfErr result (λ stopped. IsStop config stopped.fault stopped.records.items) }
{
    run_workers_wanting(
        rt,
        alloc,
        config,
        model,
        gate,
        watch,
        max_turns,
        Wanted::Finals,
    )
}
