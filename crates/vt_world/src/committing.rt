//! The steps Commit and Close.

ghost use Rattle.vt_steps.specs.declared.step.Step.TheVariants as step;
ghost use Rattle.vt_world.specs.inside.Held.{IsHeldStepOf};

use crate::in_memory::InMemory;
use std::alloc::Global;
use vt_key::Fault;
use vt_model::Model as EventModel;
use vt_steps::Reply;

impl<'m, M: EventModel> InMemory<'m, M> {
    /// Worker `w` hands the rows of its events below its floor in to the book, and forgets these events.
    pub(crate) fn commit(&mut self, alloc: Global, w: u32) -> Result<Reply, Fault>
        ensures { IsHeldStepOf (M.handlers self.old.model) (step.Commit w) self.old self.new result }
    {
        if self.book.is_closed() {
            return Err(Fault::Closed);
        }
        if w >= self.config.workers {
            return Err(Fault::NotLawful);
        }
        vt_cells::commit(alloc, &mut self.kernels[w as usize], w, &mut self.book)?;
        Ok(Reply::Done)
    }

    /// Closes the book, whose floor must be the end of the run.
    pub(crate) fn close(&mut self) -> Result<Reply, Fault>
        ensures { IsHeldStepOf (M.handlers self.old.model) step.Close self.old self.new result }
    {
        vt_cells::close::<M>(&mut self.book)?;
        Ok(Reply::Done)
    }
}
