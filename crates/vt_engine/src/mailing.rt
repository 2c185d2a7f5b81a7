//! Mail that leaves for another worker, and mail that arrives.

ghost use Rattle.std.specs.Prelude.{◌≡◌, ℕ, ◌<◌, ◌≤◌, ◌⊎◌, ◌++◌, [], true, false, map, IfOk, IfErr, IfSome, IfNone};
ghost use Rattle.vt_key.specs.declared.fault.Fault.TheVariants.{Memory, NotLawful, Exhausted};
ghost use Rattle.vt_model.specs.promise.Handler.{Handlers};
ghost use Rattle.vt_model.specs.promise.Simulation.{simulation_of};
ghost use Rattle.vt_steps.specs.promise.Letters.{is_empty};
ghost use Rattle.vt_steps.specs.promise.World.{Part};
ghost use Rattle.vt_steps.specs.promise.PartSteps.{part_after_send, part_after_fetch, mail_of_send};
ghost use Rattle.vt_steps.specs.promise.CellSteps.{may_send};
ghost use Rattle.vt_steps.specs.declared.step.Step.TheVariants as step;
ghost use Rattle.vt_kernel.specs.inside.Held.{StandsFor, AllOwnMail, AreCounted};
ghost use Rattle.vt_kernel.specs.inside.Guards.{mailed, IsSendRefusal};
ghost use Rattle.vt_kernel.specs.inside.Steps.{outbox_for, held_after_send, held_after_fetch, IsTakeRefusal};
ghost use Rattle.vt_kernel.specs.promise.Refusals.{PassesIn};

use crate::engine::Engine;
use crate::kind::Kind;
use vt_key::{Fault, Mail};
use vt_model::Model as EventModel;

impl<M: EventModel, const KIND: u8> Engine<M, KIND> {
    /// Whether [`Engine::letters_for`] worker `v` would succeed if memory isn't refused. It takes no memory and
    /// changes nothing.
    ///
    /// [`Fault::NotLawful`]: `v` is this worker, or the outbox holds no letter for a process of `v`. [`Fault::Exhausted`]: the
    /// count of mail sent would pass 2^63.
    pub fn may_send(&self, v: u32) -> Result<(), Fault>
        ensures lawful { (handlers : Handlers _ _ _) (part : Part _) → StandsFor handlers self.now part → IfOk result (λ _. (may_send (simulation_of handlers self.now.config).workers self.now.worker v part.outbox ≡ true) × (PassesIn (simulation_of handlers self.now.config) (step.Send self.now.worker v) (part_after_send (simulation_of handlers self.now.config) v part) 0 → ⊥)) }
        ensures refused { (handlers : Handlers _ _ _) (part : Part _) → StandsFor handlers self.now part → IfErr result (λ fault. IsSendRefusal (simulation_of handlers self.now.config) self.now.worker v part fault) }
        ensures faults { IfErr result (λ fault. (fault ≡ NotLawful) ⊎ (fault ≡ Exhausted)) }
    {
        match &*self.kind {
            Kind::Kernel(kernel) => kernel.may_send(v),
            Kind::Share(share) => share.may_send(v),
        }
    }

    /// The first worker from number `v` on, other than this one, that the outbox holds letters for; None if there is none.
    /// A send to it is lawful.
    pub fn receiver_from(&self, v: u32) -> Option<u32>
        ensures first { IfSome result (λ u. (v ≤ u) × (u < self.now.config.workers) × (may_send self.now.config.workers self.now.worker u self.now.outbox ≡ true) × ((k : ℕ) → v ≤ k → k < u → may_send self.now.config.workers self.now.worker k self.now.outbox ≡ false)) }
        ensures nobody { IfNone result ((k : ℕ) → v ≤ k → may_send self.now.config.workers self.now.worker k self.now.outbox ≡ false) }
    {
        match &*self.kind {
            Kind::Kernel(kernel) => kernel.receiver_from(v),
            Kind::Share(share) => share.receiver_from(v),
        }
    }

    /// The worker's part of a send to worker `v`. It moves the letters of the outbox for processes of `v` to the back
    /// of `mail`, in their order and in the worker's colour. It counts them, and lowers the red minimum to the least
    /// of their times.
    ///
    /// [`Fault::NotLawful`]: `v` is this worker, or the outbox holds no letter for a process of `v`.
    /// [`Fault::Exhausted`]: the count of mail sent would pass 2^63. [`Fault::Memory`]: memory was refused. After
    /// each the worker and `mail` are unchanged.
    pub fn letters_for(&mut self, v: u32, mail: &mut Vec<Mail<M::Payload>>) -> Result<(), Fault>
        ensures sent { IfOk result (λ _. self.new ≡ held_after_send v self.old) }
        ensures mail { IfOk result (λ _. mail.new.items ≡ mail.old.items ++ map (mailed self.old.colour) (outbox_for v self.old)) }
        ensures own { IfOk result (λ _. AllOwnMail self.old.config v (map (mailed self.old.colour) (outbox_for v self.old))) }
        ensures done { (handlers : Handlers _ _ _) (part : Part _) → StandsFor handlers self.old part → IfOk result (λ _. (may_send (simulation_of handlers self.old.config).workers self.old.worker v part.outbox ≡ true) × StandsFor handlers self.new (part_after_send (simulation_of handlers self.old.config) v part) × (mail.new.items ≡ mail.old.items ++ mail_of_send (simulation_of handlers self.old.config) v part)) }
        ensures counted { (handlers : Handlers _ _ _) (part : Part _) → StandsFor handlers self.new part → IfOk result (λ _. PassesIn (simulation_of handlers self.old.config) (step.Send self.old.worker v) part 0 → ⊥) }
        ensures refused { (handlers : Handlers _ _ _) (part : Part _) → StandsFor handlers self.old part → IfErr result (λ fault. IsSendRefusal (simulation_of handlers self.old.config) self.old.worker v part fault) }
        ensures faults { IfErr result (λ fault. (fault ≡ NotLawful) ⊎ ((fault ≡ Exhausted) ⊎ (fault ≡ Memory))) }
        ensures kept { IfErr result (λ fault. (self.new ≡ self.old) × (mail.new.items ≡ mail.old.items)) }
    {
        match &mut *self.kind {
            Kind::Kernel(kernel) => kernel.letters_for(v, mail),
            Kind::Share(share) => share.letters_for(v, mail),
        }
    }

    /// The worker's part of a fetch: the mail of its inbox becomes its arrived mail, and is counted by colour. `mail`, the inbox,
    /// gets the worker's emptied list, and keeps that list's room. It takes no memory.
    ///
    /// [`Fault::NotLawful`]: mail that arrived before is not accepted yet. [`Fault::Exhausted`]: a count of mail got
    /// would pass 2^63. After either nothing has changed.
    pub fn fetch(&mut self, mail: &mut Vec<Mail<M::Payload>>) -> Result<(), Fault>
        requires own { AllOwnMail self.old.config self.old.worker mail.old.items }
        ensures taken { IfOk result (λ _. self.new ≡ held_after_fetch mail.old.items self.old) }
        ensures emptied { IfOk result (λ _. mail.new.items ≡ []) }
        ensures lawful { IfOk result (λ _. (is_empty self.old.arrived ≡ true) × AreCounted self.new.got) }
        ensures done { (handlers : Handlers _ _ _) (part : Part _) → StandsFor handlers self.old part → IfOk result (λ _. (is_empty part.arrived ≡ true) × StandsFor handlers self.new (part_after_fetch mail.old.items part)) }
        ensures refused { IfErr result (IsTakeRefusal self.old.arrived self.old.got mail.old.items) }
        ensures kept { IfErr result (λ _. (self.new ≡ self.old) × (mail.new ≡ mail.old)) }
    {
        match &mut *self.kind {
            Kind::Kernel(kernel) => kernel.fetch(mail),
            Kind::Share(share) => share.fetch(mail),
        }
    }
}
