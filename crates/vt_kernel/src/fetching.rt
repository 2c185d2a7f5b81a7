//! Mail that arrives.

ghost use Rattle.std.specs.Prelude.{◌≡◌, [], true, IfOk, IfErr};
ghost use Rattle.vt_key.specs.declared.fault.Fault.TheVariants.{NotLawful, Exhausted};
ghost use Rattle.vt_model.specs.promise.Handler.{Handlers};
ghost use Rattle.vt_steps.specs.promise.Letters.{is_empty};
ghost use Rattle.vt_steps.specs.promise.World.{Part};
ghost use Rattle.vt_steps.specs.promise.PartSteps.{part_after_fetch};
ghost use Rattle.vt_kernel.specs.inside.Held.{StandsFor, AllOwnMail, AreCounted};
ghost use Rattle.vt_kernel.specs.inside.Steps.{held_after_fetch, IsTakeRefusal};

use crate::counts::Counts;
use crate::kernel::Kernel;
use std::mem;
use vt_key::{Fault, Mail};
use vt_model::Model as EventModel;

impl<M: EventModel> Kernel<M> {
    /// The worker's part of a fetch: the mail of its inbox becomes its arrived mail, and is counted by colour. It
    /// takes no memory.
    ///
    /// [`Fault::NotLawful`]: mail that arrived before is not accepted yet. [`Fault::Exhausted`]: a count of mail got
    /// would pass 2^63. After either nothing has changed, and the mail is handed back.
    pub fn take_in(
        &mut self,
        mail: Vec<Mail<M::Payload>>,
    ) -> Result<(), (Fault, Vec<Mail<M::Payload>>)>
        requires own { AllOwnMail self.old.config self.old.worker mail.items }
        ensures taken { IfOk result (λ _. self.new ≡ held_after_fetch mail.items self.old) }
        ensures lawful { IfOk result (λ _. (is_empty self.old.arrived ≡ true) × AreCounted self.new.got) }
        ensures done { (handlers : Handlers _ _ _) (part : Part _) → StandsFor handlers self.old part → IfOk result (λ _. (is_empty part.arrived ≡ true) × StandsFor handlers self.new (part_after_fetch mail.items part)) }
        ensures refused { IfErr result (λ e. IsTakeRefusal self.old.arrived self.old.got mail.items e.0) }
        ensures kept { IfErr result (λ e. (self.new ≡ self.old) × (e.1.items ≡ mail.items)) }
    {
        let mut mail = mail;
        match self.fetch(&mut mail) {
            Ok(()) => Ok(()),
            Err(fault) => Err((fault, mail)),
        }
    }

    /// As [`Kernel::take_in`], by exchange: `mail`, the inbox, gets the worker's emptied list, and keeps that list's
    /// room.
    ///
    /// [`Fault`]: as of [`Kernel::take_in`]; the mail stays in the inbox.
    pub fn fetch(&mut self, mail: &mut Vec<Mail<M::Payload>>) -> Result<(), Fault>
        requires own { AllOwnMail self.old.config self.old.worker mail.old.items }
        ensures taken { IfOk result (λ _. self.new ≡ held_after_fetch mail.old.items self.old) }
        ensures emptied { IfOk result (λ _. mail.new.items ≡ []) }
        ensures lawful { IfOk result (λ _. (is_empty self.old.arrived ≡ true) × AreCounted self.new.got) }
        ensures done { (handlers : Handlers _ _ _) (part : Part _) → StandsFor handlers self.old part → IfOk result (λ _. (is_empty part.arrived ≡ true) × StandsFor handlers self.new (part_after_fetch mail.old.items part)) }
        ensures refused { IfErr result (IsTakeRefusal self.old.arrived self.old.got mail.old.items) }
        ensures kept { IfErr result (λ _. (self.new ≡ self.old) × (mail.new ≡ mail.old)) }
    {
        if !self.arrived.is_empty() {
            return Err(Fault::NotLawful);
        }
        let Some(got) = self.got.plus(&Counts::of_mail(mail.as_slice())) else {
            return Err(Fault::Exhausted);
        };
        self.got = got;
        mem::swap(&mut self.arrived, mail);
        Ok(())
    }
}
