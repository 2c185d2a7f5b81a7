//! The sequential run of a model, with its records.

ghost use Rattle.std.specs.Prelude.{◌≡◌, ℕ, suc, ◌+◌, ◌<◌, ◌≤◌, ◌↔◌, ◌⊎◌, [], length, IfOk, IfErr, IsTrue, IfSome, IfNone, Err, filter, false};
ghost use Rattle.vt_key.specs.promise.Times.{time_before};
ghost use Rattle.vt_model.specs.promise.Simulation.{simulation_of, after};
ghost use Rattle.vt_model.specs.promise.Sequential.{after_steps, events_of, rows_after, rows_before, records_of, seq_records, seq_finals};
ghost use Rattle.vt_model.specs.promise.Rows.{record_time};
ghost use Rattle.vt_model.specs.promise.Settings.{end_of};
ghost use Rattle.vt_seq.specs.inside.Limits.{IsCounted, IsCountedWhole, IsRunStepRefusal};
ghost use Rattle.vt_seq.specs.inside.Progress.{IsAfter, IsAfterSomeSteps};

use crate::execution::Execution;
use std::alloc::Global;
use std::marker::Model;
use vt_key::{Fault, When};
use vt_model::{Config, Model as EventModel, Record};

/// A sequential run of a model with the records of the events executed so far: an [`Execution`] that keeps them.
///
/// Contracts see it as its model and config, the pending events, where each process stands and the records so far, and say by
/// `IsAfter sim n` that it is where the sequential run of the definitions is after `n` steps. The type keeps that it is there
/// after some number of steps (`IsAfterSomeSteps`).
#[derive(Drop)]
pub struct Sequential<'m, M: EventModel> {
    execution: Execution<'m, M>,
    records: Vec<Record>,
}

impl<'m, M: EventModel> Model for Sequential<'m, M> {
    ghost use Rattle.vt_seq.specs.inside.Progress.{Progress, IsAfterSomeSteps, with_records};

    ghost Value = { Progress M M.State M.Payload };

    ghost view = { λ s. with_records s.execution s.records.items };

    ghost invariant = { λ s. IsAfterSomeSteps (M.handlers s.execution.model) (with_records s.execution s.records.items) };
}

impl<'m, M: EventModel> Sequential<'m, M> {
    /// The run before its first event: every process has started, and the sends of all starts are pending.
    ///
    /// [`Fault::Memory`]: memory was refused, and nothing is left of the run.
    pub fn new(alloc: Global, model: &'m M, config: Config) -> Result<Sequential<'m, M>, Fault>
        ensures model { IfOk result (λ run. run.model ≡ model.now) }
        ensures config { IfOk result (λ run. run.config ≡ config) }
        ensures opening { IfOk result (λ run. IsAfter (simulation_of (M.handlers model.now) config) 0 run) }
        ensures refused { IfErr result (λ fault. fault ≡ Fault.Memory) }
    {
        let Ok(execution) = Execution::new(alloc, model, config) else {
            return Err(Fault::Memory);
        };
        let records = Vec::new(alloc);
        Ok(Sequential { execution, records })
    }

    /// The send number of process `p` now: how many events it has sent, those at or past the end of the run among them.
    /// None where there is no such process.
    pub fn number(&self, p: u32) -> Option<u64>
        ensures unknown { IfNone result (self.now.config.lps ≤ p) }
        ensures reached { IsAfterSomeSteps (M.handlers self.now.model) self.now }
        ensures value { let sim = simulation_of (M.handlers self.now.model) self.now.config in (n : ℕ) → IsAfter sim n self.now → IfSome result (λ v. (p < self.now.config.lps) × (v ≡ (after sim p (events_of p (after_steps sim n).executed)).number)) }
    {
        self.execution.number(p)
    }

    /// The position of the next random word in the stream of process `p`: how many words its start and its events have
    /// drawn, modulo 2^64. None where there is no such process.
    pub fn place(&self, p: u32) -> Option<u64>
        ensures unknown { IfNone result (self.now.config.lps ≤ p) }
        ensures reached { IsAfterSomeSteps (M.handlers self.now.model) self.now }
        ensures value { let sim = simulation_of (M.handlers self.now.model) self.now.config in (n : ℕ) → IsAfter sim n self.now → IfSome result (λ v. (p < self.now.config.lps) × (v ≡ (after sim p (events_of p (after_steps sim n).executed)).place)) }
    {
        self.execution.place(p)
    }

    /// The records of the events executed so far before time `t`, in the order of their rows.
    ///
    /// [`Fault::Memory`]: memory was refused.
    pub fn records_below(&self, alloc: Global, t: When) -> Result<Vec<Record>, Fault>
        ensures rows { let sim = simulation_of (M.handlers self.now.model) self.now.config in (n : ℕ) → IsAfter sim n self.now → IfOk result (λ v. v.items ≡ records_of (rows_before t (rows_after sim [] (after_steps sim n).executed))) }
        ensures reached { IsAfterSomeSteps (M.handlers self.now.model) self.now }
        ensures refused { IfErr result (λ fault. fault ≡ Fault.Memory) }
    {
        copy_below(alloc, &self.records, t)
    }

    /// Executes the pending event of least key; false where none is pending, which changes nothing.
    ///
    /// [`Fault::Exhausted`]: the process's send number would pass 2^63. [`Fault::Memory`]: it would not, and memory was
    /// refused. After either all is as it was, and the step may be tried again.
    pub fn step(&mut self) -> Result<bool, Fault>
        ensures model { self.new.model ≡ self.old.model }
        ensures config { self.new.config ≡ self.old.config }
        ensures more { IfOk result (λ more. IsTrue more ↔ (0 < length self.old.pending)) }
        ensures idle { IfOk result (λ more. more ≡ false → self.new ≡ self.old) }
        ensures steps { let sim = simulation_of (M.handlers self.old.model) self.old.config in (n : ℕ) → IsAfter sim n self.old → IfOk result (λ more. IsAfter sim (suc n) self.new) }
        ensures kept { IfErr result (λ fault. self.new ≡ self.old) }
        ensures faults { IfErr result (λ fault. (fault ≡ Fault.Memory) ⊎ (fault ≡ Fault.Exhausted)) }
        ensures reached { IsAfterSomeSteps (M.handlers self.old.model) self.old }
        ensures counted { let sim = simulation_of (M.handlers self.old.model) self.old.config in (n : ℕ) → IsAfter sim n self.old → IfOk result (λ more. IsCounted sim (suc n)) }
        ensures refused { let sim = simulation_of (M.handlers self.old.model) self.old.config in (n : ℕ) → IsAfter sim n self.old → IfErr result (IsRunStepRefusal sim n) }
    {
        self.execution.step(&mut self.records)
    }

    /// Executes events until none is pending: then [`Sequential::records`] are those of the whole run.
    ///
    /// [`Fault::Exhausted`]: the next step would let a send number pass 2^63. [`Fault::Memory`]: it would not, and memory was
    /// refused. After either the steps made before stand, and the run may be continued.
    pub fn complete(&mut self) -> Result<(), Fault>
        ensures model { self.new.model ≡ self.old.model }
        ensures config { self.new.config ≡ self.old.config }
        ensures whole { let sim = simulation_of (M.handlers self.old.model) self.old.config in IfOk result (λ _. self.new.records ≡ seq_records sim (end_of self.old.config)) }
        ensures nothing_left { IfOk result (λ _. self.new.pending ≡ []) }
        ensures steps { let sim = simulation_of (M.handlers self.old.model) self.old.config in (n : ℕ) → IsAfter sim n self.old → (k : ℕ) × IsAfter sim (k + n) self.new }
        ensures reached { IsAfterSomeSteps (M.handlers self.old.model) self.old }
        ensures counted { IfOk result (λ _. IsCountedWhole (simulation_of (M.handlers self.old.model) self.old.config)) }
        ensures faults { IfErr result (λ fault. (fault ≡ Fault.Memory) ⊎ (fault ≡ Fault.Exhausted)) }
        ensures refused { let sim = simulation_of (M.handlers self.old.model) self.old.config in (n : ℕ) → IsAfter sim n self.old → IfErr result (λ fault. (k : ℕ) × IsAfter sim (k + n) self.new × IsRunStepRefusal sim (k + n) fault) }
    {
        self.execution.complete(&mut self.records)
    }

    /// The records of the events executed so far, in the order of their rows.
    pub fn records(&self) -> &[Record]
        ensures records { result.now ≡ self.now.records }
        ensures reached { IsAfterSomeSteps (M.handlers self.now.model) self.now }
    {
        self.records.as_slice()
    }

    /// Executes events until none is pending, and answers the records of the whole run.
    ///
    /// [`Fault::Exhausted`]: the next step would let a send number pass 2^63. [`Fault::Memory`]: it would not, and memory was
    /// refused. After either the steps made before stand, and the run may be continued.
    pub fn run(&mut self, alloc: Global) -> Result<Vec<Record>, Fault>
        ensures model { self.new.model ≡ self.old.model }
        ensures config { self.new.config ≡ self.old.config }
        ensures whole { let sim = simulation_of (M.handlers self.old.model) self.old.config in IfOk result (λ v. v.items ≡ seq_records sim (end_of self.old.config)) }
        ensures nothing_left { IfOk result (λ v. self.new.pending ≡ []) }
        ensures steps { let sim = simulation_of (M.handlers self.old.model) self.old.config in (n : ℕ) → IsAfter sim n self.old → (k : ℕ) × IsAfter sim (k + n) self.new }
        ensures reached { IsAfterSomeSteps (M.handlers self.old.model) self.old }
        ensures counted { IfOk result (λ v. IsCountedWhole (simulation_of (M.handlers self.old.model) self.old.config)) }
        ensures faults { IfErr result (λ fault. (fault ≡ Fault.Memory) ⊎ (fault ≡ Fault.Exhausted)) }
        ensures refused { let sim = simulation_of (M.handlers self.old.model) self.old.config in (n : ℕ) → IsAfter sim n self.old → IfErr result (λ fault. (k : ℕ) × IsAfter sim (k + n) self.new × IsRunStepRefusal sim (k + n) fault) }
    {
        self.complete()?;
        let Ok(records) = Vec::from_slice(alloc, &self.records) else {
            return Err(Fault::Memory);
        };
        Ok(records)
    }

    /// The final value of each process, in rising order of processes.
    ///
    /// [`Fault::NotLawful`]: an event is pending still. [`Fault::Memory`]: none is, and memory was refused.
    pub fn finals(&self, alloc: Global) -> Result<Vec<u64>, Fault>
        ensures values { let sim = simulation_of (M.handlers self.now.model) self.now.config in IfOk result (λ v. v.items ≡ seq_finals sim) }
        ensures nothing_left { IfOk result (λ v. self.now.pending ≡ []) }
        ensures reached { IsAfterSomeSteps (M.handlers self.now.model) self.now }
        ensures not_lawful { 0 < length self.now.pending → result ≡ Err Fault.NotLawful }
        ensures refused { self.now.pending ≡ [] → IfErr result (λ fault. fault ≡ Fault.Memory) }
    {
        self.execution.finals(alloc)
    }
}

/// The records before time `t`, in order.
///
/// [`Fault::Memory`]: memory was refused.
fn copy_below(alloc: Global, records: &[Record], t: When) -> Result<Vec<Record>, Fault>
    ensures before { IfOk result (λ v. v.items ≡ filter (λ r. time_before (record_time r) t) records.now) }
    ensures refused { IfErr result (λ fault. fault ≡ Fault.Memory) }
{
    let mut found = Vec::new(alloc);
    for record in records {
        if record.when() < t {
            let Ok(()) = found.push(*record) else {
                return Err(Fault::Memory);
            };
        }
    }
    Ok(found)
}
