//! The fields of an execution, and its steps on them.

ghost use Rattle.std.specs.Prelude.{◌≡◌, ℕ, suc, ◌<◌, ◌≤◌, ◌↔◌, ◌⊎◌, [], length, map, All, IfOk, IfErr, IsTrue, IfSome, IfNone, Err, slice_index_or, vec_len, false};
ghost use Rattle.std.specs.List.{range_with_len};
ghost use Rattle.vt_key.specs.declared.fault.Fault.TheVariants.{Memory, NotLawful, Exhausted};
ghost use Rattle.vt_key.specs.declared.limits.TheConstants.{MAX_COUNT};
ghost use Rattle.vt_model.specs.inside.Process.{IsProcessStream};
ghost use Rattle.vt_model.specs.promise.Simulation.{simulation_of, after};
ghost use Rattle.vt_model.specs.promise.Sequential.{after_steps, whole_run, events_of, weight};
ghost use Rattle.vt_model.specs.promise.Settings.{end_of};
ghost use Rattle.vt_seq.specs.inside.Given.{AddsStep};
ghost use Rattle.vt_seq.specs.inside.Limits.{IsRunStepRefusal};
ghost use Rattle.vt_seq.specs.inside.Queue.{IsWithinRun};
ghost use Rattle.vt_seq.specs.inside.StandsFor.{StandsAt};

use crate::advancing::{advance, start_process};
use crate::pending::PendingEvents;
use std::alloc::Global;
use vt_key::Fault;
use vt_model::{Config, Model as EventModel, Out, Process, Record};

/// The fields of an execution. Clauses say by `StandsAt sim n` that they are the run's state after `n` steps. The type keeps
/// that there is such an `n`.
#[derive(Drop)]
pub(crate) struct Engine<'m, M: EventModel> {
    pub(crate) model: &'m M,
    pub(crate) config: Config,
    pub(crate) pending: PendingEvents<M::Payload>,
    pub(crate) processes: Vec<Process<M>>,
    ghost within_run: { All (IsWithinRun config.lps (end_of config)) pending },
    ghost all_there: { vec_len processes ≡ config.lps },
    ghost numbered: { (p : ℕ) (d : _) → p < config.lps → (slice_index_or processes.items p d).number ≤ MAX_COUNT },
    ghost streams: { (p : ℕ) (d : _) → p < config.lps → IsProcessStream config.seed p (slice_index_or processes.items p d).stream },
    ghost stands: { ∥ ((n : ℕ) × StandsAt (simulation_of (M.handlers model.now) config) n pending processes.items) ∥₁ },
}

impl<'m, M: EventModel> Engine<'m, M> {
    /// The run before its first event: every process has started, and the sends of all starts are pending.
    ///
    /// [`Fault::Memory`]: memory was refused, and nothing is left of the run.
    pub(crate) fn new(alloc: Global, model: &'m M, config: Config) -> Result<Engine<'m, M>, Fault>
        ensures model { IfOk result (λ run. run.model.now ≡ model.now) }
        ensures config { IfOk result (λ run. run.config ≡ config) }
        ensures stands { IfOk result (λ run. StandsAt (simulation_of (M.handlers model.now) config) 0 run.pending run.processes.items) }
        ensures refused { IfErr result (λ fault. fault ≡ Memory) }
    {
        let Ok(mut pending) = PendingEvents::new(alloc, config.lps) else {
            return Err(Fault::Memory);
        };
        let Ok(mut processes) = Vec::with_capacity(alloc, config.lps as usize) else {
            return Err(Fault::Memory);
        };
        let Ok(()) = start_all(model, config, &mut pending, &mut processes) else {
            return Err(Fault::Memory);
        };
        Ok(Engine {
            model,
            config,
            pending,
            processes,
        })
    }

    /// The send number of process `p` now: how many events it has sent, those at or past the end of the run among them.
    /// None where there is no such process.
    pub(crate) fn number(&self, p: u32) -> Option<u64>
        ensures unknown { IfNone result (self.now.config.lps ≤ p) }
        ensures value { let sim = simulation_of (M.handlers self.now.model.now) self.now.config in (n : ℕ) → StandsAt sim n self.now.pending self.now.processes.items → IfSome result (λ v. (p < self.now.config.lps) × (v ≡ (after sim p (events_of p (after_steps sim n).executed)).number)) }
    {
        let process = self.processes.get(p as usize)?;
        Some(process.number)
    }

    /// The position of the next random word in the stream of process `p`: how many words its start and its events have
    /// drawn, modulo 2^64.
    /// None where there is no such process.
    pub(crate) fn place(&self, p: u32) -> Option<u64>
        ensures unknown { IfNone result (self.now.config.lps ≤ p) }
        ensures value { let sim = simulation_of (M.handlers self.now.model.now) self.now.config in (n : ℕ) → StandsAt sim n self.now.pending self.now.processes.items → IfSome result (λ v. (p < self.now.config.lps) × (v ≡ (after sim p (events_of p (after_steps sim n).executed)).place)) }
    {
        let process = self.processes.get(p as usize)?;
        Some(process.stream.place())
    }

    /// Executes the pending event of least key with this `out`, and puts its records behind `records`; false where none is
    /// pending, which changes nothing.
    ///
    /// [`Fault::Exhausted`]: the process's send number would pass 2^63. [`Fault::Memory`]: it would not, and memory was
    /// refused. After either all but `out` is as it was, and the step may be tried again.
    pub(crate) fn step(
        &mut self,
        records: &mut Vec<Record>,
        out: &mut Out<M::Payload>,
    ) -> Result<bool, Fault>
        ensures model { self.new.model.now ≡ self.old.model.now }
        ensures config { self.new.config ≡ self.old.config }
        ensures more { IfOk result (λ more. IsTrue more ↔ (0 < length self.old.pending)) }
        ensures idle_pending { IfOk result (λ more. more ≡ false → self.new.pending ≡ self.old.pending) }
        ensures idle_processes { IfOk result (λ more. more ≡ false → self.new.processes.items ≡ self.old.processes.items) }
        ensures none_added { IfOk result (λ more. more ≡ false → records.new.items ≡ records.old.items) }
        ensures steps { let sim = simulation_of (M.handlers self.old.model.now) self.old.config in (n : ℕ) → StandsAt sim n self.old.pending self.old.processes.items → IfOk result (λ more. StandsAt sim (suc n) self.new.pending self.new.processes.items) }
        ensures adds { let sim = simulation_of (M.handlers self.old.model.now) self.old.config in (n : ℕ) → StandsAt sim n self.old.pending self.old.processes.items → IfOk result (λ more. AddsStep sim n records.old.items records.new.items) }
        ensures falls { let sim = simulation_of (M.handlers self.old.model.now) self.old.config in IfOk result (λ more. IsTrue more → weight sim self.new.pending < weight sim self.old.pending) }
        ensures pending { IfErr result (λ fault. self.new.pending ≡ self.old.pending) }
        ensures records { IfErr result (λ fault. records.new.items ≡ records.old.items) }
        ensures processes { IfErr result (λ fault. self.new.processes.items ≡ self.old.processes.items) }
        ensures refused { let sim = simulation_of (M.handlers self.old.model.now) self.old.config in (n : ℕ) → StandsAt sim n self.old.pending self.old.processes.items → IfErr result (IsRunStepRefusal sim n) }
        ensures faults { IfErr result (λ fault. (fault ≡ Memory) ⊎ (fault ≡ Exhausted)) }
    {
        let Some(event) = self.pending.first() else {
            return Ok(false);
        };
        match advance(
            &mut self.processes[event.dest as usize],
            self.model,
            self.config,
            &event,
            &mut self.pending,
            records,
            out,
        ) {
            Ok(()) => Ok(true),
            Err(fault) => Err(fault),
        }
    }

    /// The final value of each process, in rising order of processes.
    ///
    /// [`Fault::NotLawful`]: an event is pending still. [`Fault::Memory`]: none is, and memory was refused.
    pub(crate) fn finals(&self, alloc: Global) -> Result<Vec<u64>, Fault>
        ensures values { let sim = simulation_of (M.handlers self.now.model.now) self.now.config in IfOk result (λ v. v.items ≡ map (λ p. (M.handlers self.now.model.now).finish p (after sim p (events_of p (whole_run sim))).state) (range_with_len 0 self.now.config.lps)) }
        ensures nothing_left { IfOk result (λ v. self.now.pending ≡ []) }
        ensures not_lawful { 0 < length self.now.pending → result ≡ Err NotLawful }
        ensures refused { self.now.pending ≡ [] → IfErr result (λ fault. fault ≡ Memory) }
    {
        let None = self.pending.first() else {
            return Err(Fault::NotLawful);
        };
        let mut values = Vec::new(alloc);
        for p in 0..self.config.lps {
            let value = self.model.finish(p, &self.processes[p as usize].state);
            let Ok(()) = values.push(value) else {
                return Err(Fault::Memory);
            };
        }
        Ok(values)
    }
}

/// Starts every process, and puts it behind the others: the sends of all starts are pending then.
///
/// [`Fault::Memory`]: memory was refused.
fn start_all<M: EventModel>(
    model: &M,
    config: Config,
    pending: &mut PendingEvents<M::Payload>,
    processes: &mut Vec<Process<M>>,
) -> Result<(), Fault>
    requires no_pending { pending.old ≡ [] }
    requires no_processes { processes.old.items ≡ [] }
    ensures stands { IfOk result (λ _. StandsAt (simulation_of (M.handlers model.now) config) 0 pending.new processes.new.items) }
    ensures all_there { IfOk result (λ _. vec_len processes.new ≡ config.lps) }
    ensures numbered { IfOk result (λ _. (p : ℕ) (d : _) → p < config.lps → (slice_index_or processes.new.items p d).number ≤ MAX_COUNT) }
    ensures streams { IfOk result (λ _. (p : ℕ) (d : _) → p < config.lps → IsProcessStream config.seed p (slice_index_or processes.new.items p d).stream) }
    ensures refused { IfErr result (λ fault. fault ≡ Memory) }
{
    for p in 0..config.lps {
        let Ok(process) = start_process(model, config, p, pending) else {
            return Err(Fault::Memory);
        };
        let Ok(()) = processes.push(process) else {
            return Err(Fault::Memory);
        };
    }
    Ok(())
}
