//! How past events of a pool are committed, and the final values of its processes.

ghost use Rattle.std.specs.Prelude.{◌≡◌, IfOk, IfErr};
ghost use Rattle.vt_key.specs.declared.fault.Fault.TheVariants.{Memory};
ghost use Rattle.vt_kernel.specs.inside.Held.{held_values};
ghost use Rattle.vt_pool.specs.inside.View.{processes_in};
ghost use Rattle.vt_pool.specs.inside.Forgotten.{rows_of_placed, forgotten_in};

use crate::pool::Pool;
use std::alloc::Global;
use vt_key::{Fault, When};
use vt_model::{Model as EventModel, Row};

impl<M: EventModel> Pool<M> {
    /// The rows of the past events before a floor, in the order of execution.
    ///
    /// [`Fault::Memory`]: memory was refused.
    pub fn rows(&self, alloc: Global, floor: When) -> Result<Vec<Row>, Fault>
        ensures rows { IfOk result (λ v. v.items ≡ rows_of_placed floor self.now.stock.past) }
        ensures refused { IfErr result (λ fault. fault ≡ Memory) }
    {
        self.log.rows(alloc, floor)
    }

    /// Forgets the past events before a floor, which are committed. It takes no memory.
    pub fn forget(&mut self, floor: When)
        ensures { self.new ≡ record self.old { stock = forgotten_in floor self.old.stock } }
    {
        self.log.forget(floor);
    }

    /// What the model's `finish` makes of the state of each process, in rising order of processes.
    ///
    /// [`Fault::Memory`]: memory was refused.
    pub fn finals(&self, alloc: Global, model: &M) -> Result<Vec<u64>, Fault>
        ensures values { IfOk result (λ v. v.items ≡ held_values (M.handlers model.now) (processes_in self.now.config self.now.worker self.now.stock)) }
        ensures refused { IfErr result (λ fault. fault ≡ Memory) }
    {
        let mut values = Vec::new(alloc);
        let mut p = self.worker;
        for process in &self.processes {
            let Ok(()) = values.push(model.finish(p, &process.state)) else {
                return Err(Fault::Memory);
            };
            p += self.config.workers;
        }
        Ok(values)
    }
}
