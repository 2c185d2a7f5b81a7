//! The local steps of an engine that is a [`Share`], many in one call.

ghost use Rattle.std.specs.Prelude.{◌≡◌, ◌⊎◌, [], true, false, IfOk, IfErr};
ghost use Rattle.vt_key.specs.declared.fault.Fault.TheVariants.{Memory, NotLawful, Exhausted};
ghost use Rattle.vt_model.specs.promise.Settings.{end_of};
ghost use Rattle.vt_steps.specs.promise.Letters.{least_time};
ghost use Rattle.vt_steps.specs.promise.World.{Part};
ghost use Rattle.vt_kernel.specs.inside.Held.{StandsFor};
ghost use Rattle.vt_pool.specs.inside.Steps.{LeadsTo};
ghost use Rattle.vt_share.specs.inside.Calls.{IsHeldMail, HasNothingPending, all_pending, ExecutesNext, IsNextRefusal};

use crate::engine::Engine;
use crate::kind::{Kind, SHARE};
use std::alloc::Global;
use vt_key::{Fault, When};
use vt_model::{Model as EventModel, Out};
use vt_share::Share;

impl<M: EventModel> Engine<M, SHARE> {
    /// The engine that is this share.
    ///
    /// [`Fault::Memory`]: memory was refused.
    pub fn of_share(alloc: Global, share: Share<M>) -> Result<Engine<M, SHARE>, Fault>
        ensures made { IfOk result (λ engine. engine ≡ share) }
        ensures refused { IfErr result (λ fault. fault ≡ Memory) }
    {
        let Ok(kind) = Box::new(alloc, Kind::Share(share)) else {
            return Err(Fault::Memory);
        };
        Ok(Engine { kind })
    }

    /// The time of the least pending event, as [`Share::next_time`] says.
    pub fn next_time(&mut self) -> When
        ensures next { result ≡ least_time (end_of self.old.config) (all_pending self.old) }
        ensures same { self.new ≡ self.old }
    {
        match &mut *self.kind {
            Kind::Kernel(_) => unreachable!(),
            Kind::Share(share) => share.next_time(),
        }
    }

    /// Executes the least pending event, as [`Share::execute_next`] says.
    ///
    /// [`Fault::Exhausted`], [`Fault::Memory`]: nothing has changed.
    pub fn execute_next(&mut self, model: &M, out: &mut Out<M::Payload>) -> Result<bool, Fault>
        ensures leads { LeadsTo (M.handlers model.now) self.old self.new }
        ensures executed { IfOk result (λ done. done ≡ true → ExecutesNext (M.handlers model.now) self.old self.new) }
        ensures nothing { IfOk result (λ done. done ≡ false → HasNothingPending self.old × (self.new ≡ self.old)) }
        ensures refused { IfErr result (IsNextRefusal (M.handlers model.now) self.old) }
        ensures faults { IfErr result (λ fault. (fault ≡ Exhausted) ⊎ (fault ≡ Memory)) }
        ensures kept { (part : Part _) → StandsFor (M.handlers model.now) self.old part → IfErr result (λ _. self.new ≡ self.old) }
    {
        match &mut *self.kind {
            Kind::Kernel(_) => unreachable!(),
            Kind::Share(share) => share.execute_next(model, out),
        }
    }

    /// Takes all mail that has arrived to its processes, as [`Share::accept_all`] says.
    ///
    /// [`Fault::Memory`]: nothing has changed. [`Fault::NotLawful`]: of the first letter that is left, one of its sign and stamp is
    /// held already.
    pub fn accept_all(&mut self, model: &M) -> Result<(), Fault>
        ensures leads { LeadsTo (M.handlers model.now) self.old self.new }
        ensures accepted { IfOk result (λ _. self.new.arrived ≡ []) }
        ensures refused { IfErr result (λ fault. ((fault ≡ Memory) × (self.new ≡ self.old)) ⊎ ((fault ≡ NotLawful) × IsHeldMail self.old self.new)) }
    {
        match &mut *self.kind {
            Kind::Kernel(_) => unreachable!(),
            Kind::Share(share) => share.accept_all(model),
        }
    }

    /// How many messages events made and how many were taken back since the last call, and how many events were undone. They are
    /// hints: no contract says what they are.
    pub fn take_hints(&mut self) -> (usize, usize, u64)
        ensures { self.new ≡ self.old }
    {
        match &mut *self.kind {
            Kind::Kernel(_) => unreachable!(),
            Kind::Share(share) => share.take_hints(),
        }
    }
}
