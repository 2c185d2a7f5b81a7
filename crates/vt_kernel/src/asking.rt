//! Whether mail can leave for another worker.

ghost use Rattle.std.specs.Prelude.{◌≡◌, ◌⊎◌, true, IfOk, IfErr};
ghost use Rattle.vt_key.specs.declared.fault.Fault.TheVariants.{NotLawful, Exhausted};
ghost use Rattle.vt_model.specs.promise.Handler.{Handlers};
ghost use Rattle.vt_model.specs.promise.Simulation.{simulation_of};
ghost use Rattle.vt_steps.specs.promise.World.{Part};
ghost use Rattle.vt_steps.specs.promise.PartSteps.{part_after_send};
ghost use Rattle.vt_steps.specs.promise.CellSteps.{may_send};
ghost use Rattle.vt_steps.specs.declared.step.Step.TheVariants as step;
ghost use Rattle.vt_kernel.specs.inside.Held.{StandsFor};
ghost use Rattle.vt_kernel.specs.inside.Guards.{IsSendRefusal};
ghost use Rattle.vt_kernel.specs.promise.Refusals.{PassesIn};

use crate::kernel::Kernel;
use vt_key::Fault;
use vt_model::Model as EventModel;

impl<M: EventModel> Kernel<M> {
    /// Whether [`Kernel::letters_for`] worker `v` would succeed if memory isn't refused. It takes no memory and
    /// changes nothing.
    ///
    /// [`Fault::NotLawful`]: `v` is this worker, or the outbox holds no letter for a process of `v`. [`Fault::Exhausted`]: the
    /// count of mail sent would pass 2^63.
    pub fn may_send(&self, v: u32) -> Result<(), Fault>
        ensures lawful { (handlers : Handlers _ _ _) (part : Part _) → StandsFor handlers self.now part → IfOk result (λ _. (may_send (simulation_of handlers self.now.config).workers self.now.worker v part.outbox ≡ true) × (PassesIn (simulation_of handlers self.now.config) (step.Send self.now.worker v) (part_after_send (simulation_of handlers self.now.config) v part) 0 → ⊥)) }
        ensures refused { (handlers : Handlers _ _ _) (part : Part _) → StandsFor handlers self.now part → IfErr result (λ fault. IsSendRefusal (simulation_of handlers self.now.config) self.now.worker v part fault) }
        ensures faults { IfErr result (λ fault. (fault ≡ NotLawful) ⊎ (fault ≡ Exhausted)) }
    {
        if v == self.worker {
            return Err(Fault::NotLawful);
        }
        let room = self.sent.room(self.colour);
        let Some(count) = self.outbox.count_for(v, room) else {
            return Err(Fault::Exhausted);
        };
        if count == 0 {
            return Err(Fault::NotLawful);
        }
        Ok(())
    }
}
