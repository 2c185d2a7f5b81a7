//! What a worker commits.

ghost use Rattle.std.specs.Prelude.{◌≡◌, ℕ, ◌<◌, length, slice_index_or, IfOk, IfErr};
ghost use Rattle.vt_key.specs.declared.fault.Fault.TheVariants.{Memory};
ghost use Rattle.vt_model.specs.promise.Handler.{Handlers};
ghost use Rattle.vt_model.specs.promise.Simulation.{simulation_of};
ghost use Rattle.vt_steps.specs.promise.World.{Part};
ghost use Rattle.vt_steps.specs.promise.PartSteps.{part_after_commit, rows_of_commit};
ghost use Rattle.vt_kernel.specs.inside.Held.{StandsFor};
ghost use Rattle.vt_kernel.specs.inside.Guards.{IsForgotten};

use crate::kernel::Kernel;
use std::alloc::Global;
use vt_key::{Fault, When};
use vt_lp::Lp;
use vt_model::{Model as EventModel, Row};

impl<M: EventModel> Kernel<M> {
    /// The rows of the past events before the worker's floor: process after process, and for each process in the
    /// order of execution.
    ///
    /// [`Fault::Memory`]: memory was refused.
    pub fn rows(&self, alloc: Global) -> Result<Vec<Row>, Fault>
        ensures rows { (handlers : Handlers _ _ _) (part : Part _) → StandsFor handlers self.now part → IfOk result (λ v. v.items ≡ rows_of_commit (simulation_of handlers self.now.config) self.now.worker part) }
        ensures refused { IfErr result (λ fault. fault ≡ Memory) }
    {
        let mut rows = Vec::new(alloc);
        for process in &self.processes {
            process.ripe(self.floor, &mut rows)?;
        }
        Ok(rows)
    }

    /// Forgets the past events before the worker's floor, which are committed (fossil collection). It takes no
    /// memory.
    pub fn fossil(&mut self)
        ensures stands { (handlers : Handlers _ _ _) (part : Part _) → StandsFor handlers self.old part → StandsFor handlers self.new (part_after_commit part) }
        ensures others { self.new ≡ record self.old { processes = self.new.processes } }
    {
        forget_before(self.processes.as_mut_slice(), self.floor);
    }
}

/// Lets each process forget its past events before the floor.
fn forget_before<M: EventModel>(processes: &mut [Lp<M>], floor: When)
    ensures count { length processes.new ≡ length processes.old }
    ensures forgotten { (k : ℕ) (d : _) → k < length processes.old → IsForgotten floor (slice_index_or processes.old k d) (slice_index_or processes.new k d) }
{
    for process in processes.iter_mut() {
        process.fossil(floor);
    }
}
