//! What a worker commits.

ghost use Rattle.std.specs.Prelude.{◌≡◌, IfOk, IfErr};
ghost use Rattle.vt_key.specs.declared.fault.Fault.TheVariants.{Memory};
ghost use Rattle.vt_model.specs.promise.Handler.{Handlers};
ghost use Rattle.vt_model.specs.promise.Simulation.{simulation_of};
ghost use Rattle.vt_steps.specs.promise.World.{Part};
ghost use Rattle.vt_steps.specs.promise.PartSteps.{part_after_commit, rows_of_commit};
ghost use Rattle.vt_kernel.specs.inside.Held.{StandsFor};

use crate::engine::Engine;
use crate::kind::Kind;
use std::alloc::Global;
use vt_book::Batch;
use vt_kernel::Kernel;
use vt_key::Fault;
use vt_model::Model as EventModel;

impl<M: EventModel, const KIND: u8> Engine<M, KIND> {
    /// The rows of the past events before the worker's floor, which it hands in when it commits. The batch may hold them in
    /// any order.
    ///
    /// [`Fault::Memory`]: memory was refused.
    pub fn batch(&self, alloc: Global) -> Result<Batch, Fault>
        ensures rows { (handlers : Handlers _ _ _) (part : Part _) → StandsFor handlers self.now part → IfOk result (λ batch. batch ≡ rows_of_commit (simulation_of handlers self.now.config) self.now.worker part) }
        ensures refused { IfErr result (λ fault. fault ≡ Memory) }
    {
        match &*self.kind {
            Kind::Kernel(kernel) => batch_of(alloc, kernel),
            Kind::Share(share) => share.batch(alloc),
        }
    }

    /// Forgets the past events before the worker's floor, which are committed (fossil collection). It takes no
    /// memory.
    pub fn fossil(&mut self)
        ensures stands { (handlers : Handlers _ _ _) (part : Part _) → StandsFor handlers self.old part → StandsFor handlers self.new (part_after_commit part) }
        ensures others { self.new ≡ record self.old { processes = self.new.processes } }
    {
        match &mut *self.kind {
            Kind::Kernel(kernel) => kernel.fossil(),
            Kind::Share(share) => share.fossil(),
        }
    }
}

/// The rows of a [`Kernel`], as a batch.
fn batch_of<M: EventModel>(alloc: Global, kernel: &Kernel<M>) -> Result<Batch, Fault>
    ensures rows { (handlers : Handlers _ _ _) (part : Part _) → StandsFor handlers kernel.now part → IfOk result (λ batch. batch ≡ rows_of_commit (simulation_of handlers kernel.now.config) kernel.now.worker part) }
    ensures refused { IfErr result (λ fault. fault ≡ Memory) }
{
    let rows = kernel.rows(alloc)?;
    Ok(Batch::of(rows))
}
