//! The steps Execute, Undo, Cancel, Home and Accept.

ghost use Rattle.vt_steps.specs.declared.step.Step.TheVariants as step;
ghost use Rattle.vt_world.specs.inside.Held.{IsHeldStepOf};

use crate::in_memory::InMemory;
use std::alloc::Global;
use vt_key::{Fault, Stamp};
use vt_model::Model as EventModel;
use vt_steps::Reply;

impl<'m, M: EventModel> InMemory<'m, M> {
    /// Process `lp` executes its least pending event.
    pub(crate) fn execute(&mut self, alloc: Global, lp: u32) -> Result<Reply, Fault>
        ensures { IsHeldStepOf (M.handlers self.old.model) (step.Execute lp) self.old self.new result }
    {
        let owner = self.config.owner(lp);
        self.kernels[owner as usize].execute(alloc, self.model, lp)?;
        Ok(Reply::Done)
    }

    /// Process `lp` undoes its last past event.
    pub(crate) fn undo(&mut self, lp: u32) -> Result<Reply, Fault>
        ensures { IsHeldStepOf (M.handlers self.old.model) (step.Undo lp) self.old self.new result }
    {
        let owner = self.config.owner(lp);
        self.kernels[owner as usize].undo(self.model, lp)?;
        Ok(Reply::Done)
    }

    /// At process `lp`, the message and the anti-message of this stamp annihilate each other.
    pub(crate) fn cancel(&mut self, lp: u32, stamp: Stamp) -> Result<Reply, Fault>
        ensures { IsHeldStepOf (M.handlers self.old.model) (step.Cancel lp stamp) self.old self.new result }
    {
        let owner = self.config.owner(lp);
        self.kernels[owner as usize].cancel(lp, stamp)?;
        Ok(Reply::Done)
    }

    /// The first letter of the outbox of worker `w` that is for one of its own processes goes there.
    pub(crate) fn home(&mut self, w: u32) -> Result<Reply, Fault>
        ensures { IsHeldStepOf (M.handlers self.old.model) (step.Home w) self.old self.new result }
    {
        if w >= self.config.workers {
            return Err(Fault::NotLawful);
        }
        self.kernels[w as usize].home()?;
        Ok(Reply::Done)
    }

    /// The letter at index `i` of the mail that has arrived at worker `w` goes to its process.
    pub(crate) fn accept(&mut self, alloc: Global, w: u32, i: u64) -> Result<Reply, Fault>
        ensures { IsHeldStepOf (M.handlers self.old.model) (step.Accept w i) self.old self.new result }
    {
        if w >= self.config.workers {
            return Err(Fault::NotLawful);
        }
        self.kernels[w as usize].accept(alloc, i)?;
        Ok(Reply::Done)
    }
}
