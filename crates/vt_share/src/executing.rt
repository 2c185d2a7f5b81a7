//! Execute, and what it sends home.

ghost use Rattle.std.specs.Prelude.{◌≡◌, ◌⊎◌, true, false, IfOk, IfErr};
ghost use Rattle.vt_key.specs.declared.fault.Fault.TheVariants.{Memory, Exhausted};
ghost use Rattle.vt_model.specs.promise.Settings.{end_of};
ghost use Rattle.vt_steps.specs.promise.Letters.{least_time};
ghost use Rattle.vt_steps.specs.promise.World.{Part};
ghost use Rattle.vt_kernel.specs.inside.Held.{StandsFor};
ghost use Rattle.vt_pool.specs.inside.Steps.{LeadsTo};
ghost use Rattle.vt_share.specs.inside.Calls.{HasNothingPending, all_pending, ExecutesNext, IsNextRefusal};

use crate::share::Share;
use vt_key::{Fault, When};
use vt_model::{Model as EventModel, Out};

impl<M: EventModel> Share<M> {
    /// The time of the event that [`Share::execute_next`] would execute; the end of the run if nothing is pending.
    pub fn next_time(&mut self) -> When
        ensures next { result ≡ least_time (end_of self.old.config) (all_pending self.old) }
        ensures same { self.new ≡ self.old }
    {
        self.pool.fits();
        self.pool.next_time()
    }

    /// Executes the least pending event of all. After that, Home, Undo and Cancel are done as long as one has to be, so that what it sends to the
    /// worker's own processes is there, and no event of a process has to be undone. False, and nothing changes, if nothing is pending.
    ///
    /// `out` is for the handler, so that many events have one. Any `out` serves. What is in it afterwards isn't said.
    ///
    /// [`Fault::Exhausted`]: the send number of the event's process or the worker's serial would pass 2^63. [`Fault::Memory`]: memory was
    /// refused. After either nothing has changed, if the worker was made with this model. Else that process may have another state.
    pub fn execute_next(&mut self, model: &M, out: &mut Out<M::Payload>) -> Result<bool, Fault>
        ensures leads { LeadsTo (M.handlers model.now) self.old self.new }
        ensures executed { IfOk result (λ done. done ≡ true → ExecutesNext (M.handlers model.now) self.old self.new) }
        ensures nothing { IfOk result (λ done. done ≡ false → HasNothingPending self.old × (self.new ≡ self.old)) }
        ensures refused { IfErr result (IsNextRefusal (M.handlers model.now) self.old) }
        ensures faults { IfErr result (λ fault. (fault ≡ Exhausted) ⊎ (fault ≡ Memory)) }
        ensures kept { (part : Part _) → StandsFor (M.handlers model.now) self.old part → IfErr result (λ _. self.new ≡ self.old) }
    {
        self.pool.fits();
        self.pool.execute_next(model, out)
    }
}
