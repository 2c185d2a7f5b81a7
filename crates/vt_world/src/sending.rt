//! The steps Send and Fetch.

ghost use Rattle.vt_steps.specs.declared.step.Step.TheVariants.{Send, Fetch};
ghost use Rattle.vt_world.specs.inside.Held.{IsHeldStepOf};

use crate::in_memory::InMemory;
use vt_key::Fault;
use vt_model::Model as EventModel;
use vt_steps::Reply;

impl<'m, M: EventModel> InMemory<'m, M> {
    /// All letters of worker `w`'s outbox for processes of worker `v` go into the inbox of `v`.
    pub(crate) fn send(&mut self, w: u32, v: u32) -> Result<Reply, Fault>
        ensures { IsHeldStepOf (M.handlers self.old.model) (Send w v) self.old self.new result }
    {
        if w >= self.config.workers || v >= self.config.workers {
            return Err(Fault::NotLawful);
        }
        vt_cells::send(
            &mut self.kernels[w as usize],
            v,
            &mut self.inboxes[v as usize].mail,
        )?;
        Ok(Reply::Done)
    }

    /// Worker `w` empties its inbox.
    pub(crate) fn fetch(&mut self, w: u32) -> Result<Reply, Fault>
        ensures { IsHeldStepOf (M.handlers self.old.model) (Fetch w) self.old self.new result }
    {
        if w >= self.config.workers {
            return Err(Fault::NotLawful);
        }
        vt_cells::fetch(
            &mut self.kernels[w as usize],
            &mut self.inboxes[w as usize].mail,
        )?;
        Ok(Reply::Done)
    }
}
