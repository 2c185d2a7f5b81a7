//! Local steps at one process: Execute, Undo and Cancel.

ghost use Rattle.std.specs.Prelude.{ℕ, ◌≡◌, ◌%◌, ◌/◌, ◌<◌, ◌≤◌, ◌⊎◌, IfSome, IfNone, IfOk, IfErr, None, true, false};
ghost use Rattle.vt_key.specs.declared.fault.Fault.TheVariants.{Memory, NotLawful, Exhausted};
ghost use Rattle.vt_model.specs.promise.Handler.{Handlers};
ghost use Rattle.vt_model.specs.promise.Simulation.{simulation_of};
ghost use Rattle.vt_steps.specs.promise.World.{Part};
ghost use Rattle.vt_steps.specs.declared.step.Step.TheVariants as step;
ghost use Rattle.vt_kernel.specs.inside.Held.{StandsFor, process_of};
ghost use Rattle.vt_kernel.specs.inside.Guards.{has_to_undo, may_annihilate};
ghost use Rattle.vt_kernel.specs.inside.Steps.{DoesStep, RefusesStep, RefusesExecute};
ghost use Rattle.vt_kernel.specs.promise.Refusals.{PassesIn};

use crate::kernel::Kernel;
use std::alloc::Global;
use vt_key::{Fault, Stamp};
use vt_list::List;
use vt_model::{Config, Model as EventModel};

impl<M: EventModel> Kernel<M> {
    /// Execute at process `lp`: it executes its least pending event, and what that sends goes to the back of the
    /// outbox.
    ///
    /// [`Fault::NotLawful`]: `lp` is no process of this worker, it has no pending event, or the least one doesn't
    /// come after its last past event. [`Fault::Exhausted`]: its send number or the worker's serial would pass 2^63.
    /// [`Fault::Memory`]: memory was refused. After each nothing has changed.
    ///
    /// That holds for the model that the worker was made with. With another model, the last two faults may leave that
    /// process another state, since that model's `reverse` restores it.
    pub fn execute(&mut self, alloc: Global, model: &M, lp: u32) -> Result<(), Fault>
        ensures done { DoesStep (M.handlers model.now) self.old self.new (step.Execute lp) result }
        ensures counted { (part : Part _) → StandsFor (M.handlers model.now) self.new part → IfOk result (λ done. PassesIn (simulation_of (M.handlers model.now) self.old.config) (step.Execute lp) part 0 → ⊥) }
        ensures refused { RefusesExecute (M.handlers model.now) self.old lp result }
        ensures faults { IfErr result (λ fault. (fault ≡ NotLawful) ⊎ ((fault ≡ Exhausted) ⊎ (fault ≡ Memory))) }
        ensures unchanged { (part : Part _) → StandsFor (M.handlers model.now) self.old part → IfErr result (λ fault. self.new ≡ self.old) }
        ensures restored { IfSome (process_of self.old lp) (λ process. M.IsState model.now process.triple.state) → IfErr result (λ fault. self.new ≡ self.old) }
        ensures not_lawful { IfErr result (λ fault. fault ≡ NotLawful → self.new ≡ self.old) }
        ensures but_processes { IfErr result (λ fault. self.new ≡ record self.old { processes = self.new.processes }) }
        ensures others { (p : ℕ) → (p ≡ lp → ⊥) → process_of self.new p ≡ process_of self.old p }
        ensures same { (self.new.worker ≡ self.old.worker) × (self.new.config ≡ self.old.config) }
    {
        let Some(index) = index_of(self.config, self.worker, lp) else {
            return Err(Fault::NotLawful);
        };
        let mut sent = List::new(alloc);
        let result = self.processes[index].execute(alloc, model, &mut self.serial, &mut sent);
        self.outbox.put(sent);
        result
    }

    /// Undo at process `lp`: its last past event, which a pending message or a waiting anti-message overtakes, is
    /// pending again. The anti-messages of what it sent go to the back of the outbox. It takes no memory.
    ///
    /// [`Fault::NotLawful`]: `lp` is no process of this worker, it has no past event, or no letter overtakes the last
    /// one. Nothing changes.
    pub fn undo(&mut self, model: &M, lp: u32) -> Result<(), Fault>
        ensures done { DoesStep (M.handlers model.now) self.old self.new (step.Undo lp) result }
        ensures refused { RefusesStep (M.handlers model.now) self.old (step.Undo lp) result }
        ensures lawful { IfOk result (λ done. has_to_undo self.old lp ≡ true) }
        ensures unlawful { IfErr result (λ fault. has_to_undo self.old lp ≡ false) }
        ensures kept { IfErr result (λ fault. (fault ≡ NotLawful) × (self.new ≡ self.old)) }
        ensures others { (p : ℕ) → (p ≡ lp → ⊥) → process_of self.new p ≡ process_of self.old p }
        ensures same { (self.new.worker ≡ self.old.worker) × (self.new.config ≡ self.old.config) }
    {
        let Some(index) = index_of(self.config, self.worker, lp) else {
            return Err(Fault::NotLawful);
        };
        let mut sent = List::new(*self.arrived.allocator());
        let result = self.processes[index].undo(model, &mut sent);
        self.outbox.put(sent);
        result
    }

    /// Cancel at process `lp`: its waiting anti-message and its pending message of this stamp annihilate each other.
    /// It takes no memory.
    ///
    /// [`Fault::NotLawful`]: `lp` is no process of this worker, or it doesn't have both, with one key. Nothing
    /// changes.
    pub fn cancel(&mut self, lp: u32, stamp: Stamp) -> Result<(), Fault>
        ensures done { (handlers : Handlers _ _ _) → DoesStep handlers self.old self.new (step.Cancel lp stamp) result }
        ensures refused { (handlers : Handlers _ _ _) → RefusesStep handlers self.old (step.Cancel lp stamp) result }
        ensures lawful { IfOk result (λ done. may_annihilate self.old lp stamp ≡ true) }
        ensures unlawful { IfErr result (λ fault. may_annihilate self.old lp stamp ≡ false) }
        ensures kept { IfErr result (λ fault. (fault ≡ NotLawful) × (self.new ≡ self.old)) }
        ensures others { (p : ℕ) → (p ≡ lp → ⊥) → process_of self.new p ≡ process_of self.old p }
        ensures same { (self.new.worker ≡ self.old.worker) × (self.new.config ≡ self.old.config) }
    {
        let Some(index) = index_of(self.config, self.worker, lp) else {
            return Err(Fault::NotLawful);
        };
        self.processes[index].cancel(stamp)
    }
}

/// The index of process `lp` among the worker's processes; None if it isn't one of them.
pub(crate) fn index_of(config: Config, worker: u32, lp: u32) -> Option<usize>
    ensures own { IfSome result (λ index. (index ≡ lp / config.workers) × (lp % config.workers ≡ worker) × (lp < config.lps)) }
    ensures other { IfNone result (lp % config.workers ≡ worker → config.lps ≤ lp) }
{
    if lp >= config.lps || config.owner(lp) != worker {
        return None;
    }
    Some(config.index(lp) as usize)
}
