//! The steps Cut and Report.

ghost use Rattle.vt_steps.specs.declared.step.Step.TheVariants as step;
ghost use Rattle.vt_world.specs.inside.Held.{IsHeldStepOf};

use crate::in_memory::InMemory;
use vt_cells::reply_of;
use vt_key::Fault;
use vt_model::Model as EventModel;
use vt_steps::Reply;

impl<'m, M: EventModel> InMemory<'m, M> {
    /// Worker `w` joins the open round; if none is open, it opens one.
    pub(crate) fn cut(&mut self, w: u32) -> Result<Reply, Fault>
        ensures { IsHeldStepOf (M.handlers self.old.model) (step.Cut w) self.old self.new result }
    {
        if w >= self.config.workers {
            return Err(Fault::NotLawful);
        }
        vt_cells::cut(&mut self.kernels[w as usize], w, &mut self.board)?;
        Ok(Reply::Done)
    }

    /// Worker `w` reports its counts and its least time to the board, and learns the announced time.
    pub(crate) fn report(&mut self, w: u32) -> Result<Reply, Fault>
        ensures { IsHeldStepOf (M.handlers self.old.model) (step.Report w) self.old self.new result }
    {
        if w >= self.config.workers {
            return Err(Fault::NotLawful);
        }
        let kernel = &mut self.kernels[w as usize];
        let values = kernel.report_values();
        match vt_cells::report(kernel, w, values, &mut self.board) {
            Ok(report) => Ok(reply_of(report)),
            Err(fault) => Err(fault),
        }
    }
}
