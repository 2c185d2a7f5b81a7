//! The execution of a model's events one after the other.

ghost use Rattle.std.specs.Prelude.{◌≡◌, ℕ, ◌+◌, ◌<◌, ◌≤◌, ◌⊎◌, [], length, IfOk, IfErr, IfSome, IfNone, Err, slice_get};
ghost use Rattle.std.specs.Option.{option_map};
ghost use Rattle.vt_key.specs.promise.Times.{ticks_of};
ghost use Rattle.vt_key.specs.declared.fault.Fault.TheVariants.{Memory, NotLawful, Exhausted};
ghost use Rattle.vt_key.specs.promise.Lists.{Among};
ghost use Rattle.vt_model.specs.declared.sending.Sent.{Sent};
ghost use Rattle.vt_model.specs.promise.Simulation.{simulation_of, after};
ghost use Rattle.vt_model.specs.promise.Sequential.{after_steps, events_of, seq_finals};
ghost use Rattle.vt_seq.specs.inside.Given.{AddsSteps, AddsRest};
ghost use Rattle.vt_seq.specs.inside.Limits.{IsCountedWhole, IsRunStepRefusal};
ghost use Rattle.vt_seq.specs.inside.Standing.{IsAt, IsOnWay};
ghost use Rattle.vt_seq.specs.inside.Steps.{IsStep};

use crate::engine::Engine;
use std::alloc::Global;
use std::marker::Model;
use vt_key::{Fault, When};
use vt_model::{Config, Model as EventModel, Out, Record};

/// A sequential run of a model that gives each event's records away and keeps none. So its memory doesn't grow with the
/// number of events.
///
/// Contracts see it as its model and config, the pending events, and where each process stands, and say by `IsAt sim n` that
/// it is where the sequential run of the definitions is after `n` steps. The type keeps that it is there after some number of
/// steps (`IsOnWay`). The records that `n` steps give, `records_to sim n`, begin those of the whole run, and are all of them once no
/// event is pending.
#[derive(Drop)]
pub struct Execution<'m, M: EventModel> {
    engine: Engine<'m, M>,
}

impl<'m, M: EventModel> Model for Execution<'m, M> {
    ghost use Rattle.std.specs.Prelude.{map};
    ghost use Rattle.vt_model.specs.inside.Process.{triple_at};
    ghost use Rattle.vt_seq.specs.inside.Standing.{Standing};

    ghost Value = { Standing M M.State M.Payload };

    ghost view = { λ s. record {
      model = s.engine.model.now;
      config = s.engine.config;
      pending = s.engine.pending;
      triples = map (λ q. triple_at q.state q.number q.stream) s.engine.processes.items;
    } };
}

impl<'m, M: EventModel> Execution<'m, M> {
    /// The execution before its first event: every process has started, and the sends of all starts are pending.
    ///
    /// [`Fault::Memory`]: memory was refused, and nothing is left of the execution.
    pub fn new(alloc: Global, model: &'m M, config: Config) -> Result<Execution<'m, M>, Fault>
        ensures model { IfOk result (λ run. run.model ≡ model.now) }
        ensures config { IfOk result (λ run. run.config ≡ config) }
        ensures opening { IfOk result (λ run. IsAt (simulation_of (M.handlers model.now) config) 0 run) }
        ensures refused { IfErr result (λ fault. fault ≡ Memory) }
    {
        let Ok(engine) = Engine::new(alloc, model, config) else {
            return Err(Fault::Memory);
        };
        Ok(Execution { engine })
    }

    /// The send number of process `p` now: how many events it has sent, those at or past the end of the run among them.
    /// None where there is no such process.
    pub fn number(&self, p: u32) -> Option<u64>
        ensures unknown { IfNone result (self.now.config.lps ≤ p) }
        ensures reached { IsOnWay (M.handlers self.now.model) self.now }
        ensures value { let sim = simulation_of (M.handlers self.now.model) self.now.config in (n : ℕ) → IsAt sim n self.now → IfSome result (λ v. (p < self.now.config.lps) × (v ≡ (after sim p (events_of p (after_steps sim n).executed)).number)) }
    {
        self.engine.number(p)
    }

    /// The position of the next random word in the stream of process `p`: how many words its start and its events have
    /// drawn, modulo 2^64. None where there is no such process.
    pub fn place(&self, p: u32) -> Option<u64>
        ensures unknown { IfNone result (self.now.config.lps ≤ p) }
        ensures reached { IsOnWay (M.handlers self.now.model) self.now }
        ensures value { let sim = simulation_of (M.handlers self.now.model) self.now.config in (n : ℕ) → IsAt sim n self.now → IfSome result (λ v. (p < self.now.config.lps) × (v ≡ (after sim p (events_of p (after_steps sim n).executed)).place)) }
    {
        self.engine.place(p)
    }

    /// The tick of the pending event of least key, which is the least tick of all pending events. None where none is pending.
    pub fn next_tick(&self) -> Option<u64>
        ensures tick { result ≡ option_map (λ event. ticks_of event.key.time) (slice_get self.now.pending 0) }
        ensures least { (e : Sent _) → Among e self.now.pending → IfSome result (λ tick. tick ≤ ticks_of e.key.time) }
    {
        match self.engine.pending.first() {
            Some(event) => Some(event.key.when().ticks()),
            None => None,
        }
    }

    /// Executes the pending event of least key, and puts its records behind `records`; false where none is pending, which
    /// changes nothing.
    ///
    /// [`Fault::Exhausted`]: the process's send number would pass 2^63. [`Fault::Memory`]: it would not, and memory was
    /// refused. After either all is as it was, and the step may be tried again.
    pub fn step(&mut self, records: &mut Vec<Record>) -> Result<bool, Fault>
        ensures { IsStep M.handlers self.old self.new records.old.items records.new.items result }
    {
        let mut out = Out::new(self.engine.config, 0, When::tick(0), 0);
        self.step_reusing(records, &mut out)
    }

    /// Executes the pending event of least key as [`Execution::step`] does, with an `out` that the caller lends. So a loop over many
    /// steps makes one. Any `out` serves, for instance `Out::new(config, 0, When::tick(0), 0)`. What is in it afterwards isn't said.
    pub fn step_reusing(
        &mut self,
        records: &mut Vec<Record>,
        out: &mut Out<M::Payload>,
    ) -> Result<bool, Fault>
        ensures { IsStep M.handlers self.old self.new records.old.items records.new.items result }
    {
        self.engine.step(records, out)
    }

    /// Executes events until none is pending, and puts their records behind `records`, whatever is in it.
    ///
    /// [`Fault::Exhausted`]: the next step would let a send number pass 2^63. [`Fault::Memory`]: it would not, and memory was
    /// refused. After either the steps made before stand, with their records, and the execution may be continued.
    pub fn complete(&mut self, records: &mut Vec<Record>) -> Result<(), Fault>
        ensures model { self.new.model ≡ self.old.model }
        ensures config { self.new.config ≡ self.old.config }
        ensures nothing_left { IfOk result (λ _. self.new.pending ≡ []) }
        ensures steps { let sim = simulation_of (M.handlers self.old.model) self.old.config in (n : ℕ) → IsAt sim n self.old → (k : ℕ) × IsAt sim (k + n) self.new × AddsSteps sim n k records.old.items records.new.items }
        ensures whole { let sim = simulation_of (M.handlers self.old.model) self.old.config in (n : ℕ) → IsAt sim n self.old → IfOk result (λ _. AddsRest sim n records.old.items records.new.items) }
        ensures reached { IsOnWay (M.handlers self.old.model) self.old }
        ensures counted { let sim = simulation_of (M.handlers self.old.model) self.old.config in (n : ℕ) → IsAt sim n self.old → IfOk result (λ _. IsCountedWhole sim) }
        ensures faults { IfErr result (λ fault. (fault ≡ Memory) ⊎ (fault ≡ Exhausted)) }
        ensures refused { let sim = simulation_of (M.handlers self.old.model) self.old.config in (n : ℕ) → IsAt sim n self.old → IfErr result (λ fault. (k : ℕ) × IsAt sim (k + n) self.new × AddsSteps sim n k records.old.items records.new.items × IsRunStepRefusal sim (k + n) fault) }
    {
        let mut out = Out::new(self.engine.config, 0, When::tick(0), 0);
        while self.step_reusing(records, &mut out)? {}
        Ok(())
    }

    /// The final value of each process, in rising order of processes.
    ///
    /// [`Fault::NotLawful`]: an event is pending still. [`Fault::Memory`]: none is, and memory was refused.
    pub fn finals(&self, alloc: Global) -> Result<Vec<u64>, Fault>
        ensures values { let sim = simulation_of (M.handlers self.now.model) self.now.config in IfOk result (λ v. v.items ≡ seq_finals sim) }
        ensures nothing_left { IfOk result (λ v. self.now.pending ≡ []) }
        ensures reached { IsOnWay (M.handlers self.now.model) self.now }
        ensures not_lawful { 0 < length self.now.pending → result ≡ Err NotLawful }
        ensures refused { self.now.pending ≡ [] → IfErr result (λ fault. fault ≡ Memory) }
    {
        self.engine.finals(alloc)
    }
}
