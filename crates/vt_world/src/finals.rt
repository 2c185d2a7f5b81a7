//! The final values of a world whose book is closed.

ghost use Rattle.std.specs.Prelude.{◌≡◌, ◌<◌, IsTrue, false, Err, IfOk, IfErr};
ghost use Rattle.vt_key.specs.declared.fault.Fault.TheVariants.{Memory, NotLawful};
ghost use Rattle.vt_model.specs.promise.Simulation.{simulation_of, after};
ghost use Rattle.vt_model.specs.promise.Sequential.{events_of, whole_run, seq_finals};

use crate::in_memory::InMemory;
use crate::world::World;
use std::alloc::Global;
use vt_key::Fault;
use vt_model::Model as EventModel;

impl<'m, M: EventModel> World<'m, M> {
    /// Whether the book is closed. A closed book holds the records of the whole run, and doesn't change.
    pub fn is_closed(&self) -> bool
        ensures { result ≡ self.now.world.book.is_closed }
    {
        self.memory.is_closed()
    }

    /// The final value of each process, in rising order of processes: what the model's `finish` makes of the state
    /// after the whole sequential run.
    ///
    /// [`Fault::NotLawful`]: the book isn't closed. [`Fault::Memory`]: it is, and memory was refused.
    pub fn finals(&self, alloc: Global) -> Result<Vec<u64>, Fault>
        ensures values { let sim = simulation_of (M.handlers self.now.model) self.now.config in IfOk result (λ v. v.items ≡ seq_finals sim) }
        ensures not_lawful { self.now.world.book.is_closed ≡ false → result ≡ Err NotLawful }
        ensures refused { IsTrue self.now.world.book.is_closed → IfErr result (λ fault. fault ≡ Memory) }
    {
        if !self.is_closed() {
            return Err(Fault::NotLawful);
        }
        let mut values = Vec::new(alloc);
        for lp in 0..self.memory.config.lps {
            let Ok(()) = values.push(self.memory.final_value(lp)) else {
                return Err(Fault::Memory);
            };
        }
        Ok(values)
    }
}

impl<'m, M: EventModel> InMemory<'m, M> {
    /// The final value of process `lp`.
    fn final_value(&self, lp: u32) -> u64
        requires closed { IsTrue self.now.book.is_closed }
        requires known { lp < self.now.config.lps }
        ensures { let sim = simulation_of (M.handlers self.now.model) self.now.config in result ≡ (M.handlers self.now.model).finish lp (after sim lp (events_of lp (whole_run sim))).state }
    {
        let owner = self.config.owner(lp);
        let Some(state) = self.kernels[owner as usize].kernel().state(lp) else {
            unreachable!();
        };
        self.model.finish(lp, state)
    }
}
