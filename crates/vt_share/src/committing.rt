//! What a worker commits, and the final values of its processes.

ghost use Rattle.std.specs.Prelude.{◌≡◌, List, IfOk, IfErr};
ghost use Rattle.vt_key.specs.declared.fault.Fault.TheVariants.{Memory};
ghost use Rattle.vt_model.specs.declared.rows.Row.{Row as RowValue};
ghost use Rattle.vt_model.specs.promise.Handler.{Handlers};
ghost use Rattle.vt_model.specs.promise.Simulation.{simulation_of};
ghost use Rattle.vt_steps.specs.promise.World.{Part};
ghost use Rattle.vt_steps.specs.promise.PartSteps.{part_after_commit, rows_of_commit};
ghost use Rattle.vt_steps.specs.inside.Finals.{part_values};
ghost use Rattle.vt_kernel.specs.inside.Held.{AreProcesses, StandsFor};
ghost use Rattle.vt_pool.specs.inside.Forgotten.{rows_of_held};

use crate::share::Share;
use std::alloc::Global;
use vt_book::Batch;
use vt_key::Fault;
use vt_model::Model as EventModel;

impl<M: EventModel> Share<M> {
    /// The rows of the past events before the worker's floor, made ready to be handed in. Contracts see them process after process, and for
    /// each process in the order of execution.
    ///
    /// [`Fault::Memory`]: memory was refused.
    pub fn batch(&self, alloc: Global) -> Result<Batch, Fault>
        ensures rows { (handlers : Handlers _ _ _) (part : Part _) → StandsFor handlers self.now part → IfOk result (λ batch. batch ≡ rows_of_commit (simulation_of handlers self.now.config) self.now.worker part) }
        ensures refused { IfErr result (λ fault. fault ≡ Memory) }
    {
        self.batch_seen(alloc)
    }

    /// The same batch. The caller picks the list that contracts see.
    fn batch_seen(&self, alloc: Global) -> Result<Batch, Fault>
        ghost told: { List RowValue }
        requires same { told ≡ rows_of_held self.now.floor self.now.processes }
        ensures rows { IfOk result (λ batch. batch ≡ told) }
        ensures own { AreProcesses self.now.config self.now.worker 0 self.now.processes }
        ensures refused { IfErr result (λ fault. fault ≡ Memory) }
    {
        self.pool.fits();
        let rows = self.pool.rows(alloc, self.floor)?;
        Ok(Batch::in_any_order(rows))
    }

    /// Forgets the past events before the worker's floor, which are committed (fossil collection). It takes no
    /// memory.
    pub fn fossil(&mut self)
        ensures stands { (handlers : Handlers _ _ _) (part : Part _) → StandsFor handlers self.old part → StandsFor handlers self.new (part_after_commit part) }
        ensures others { self.new ≡ record self.old { processes = self.new.processes } }
    {
        self.pool.fits();
        self.pool.forget(self.floor);
    }

    /// What the model's `finish` makes of the state of each process, in rising order of processes. These are the final values
    /// once no event is unprocessed or travelling any more.
    ///
    /// [`Fault::Memory`]: memory was refused.
    pub fn finals(&self, alloc: Global, model: &M) -> Result<Vec<u64>, Fault>
        ensures values { (part : Part _) → StandsFor (M.handlers model.now) self.now part → IfOk result (λ v. v.items ≡ part_values (simulation_of (M.handlers model.now) self.now.config) self.now.worker part) }
        ensures refused { IfErr result (λ fault. fault ≡ Memory) }
    {
        self.pool.finals(alloc, model)
    }
}
