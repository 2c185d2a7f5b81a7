//! Send and Fetch, on a kernel and an inbox.

ghost use Rattle.std.specs.Prelude.{◌≡◌, [], IfOk, IfErr};
ghost use Rattle.vt_model.specs.promise.Handler.{Handlers};
ghost use Rattle.vt_model.specs.promise.Simulation.{simulation_of};
ghost use Rattle.vt_steps.specs.declared.step.Step.TheVariants as step;
ghost use Rattle.vt_steps.specs.declared.step.Reply.TheVariants.{Done};
ghost use Rattle.vt_steps.specs.promise.World.{Part};
ghost use Rattle.vt_steps.specs.inside.Cells.{in_inbox};
ghost use Rattle.vt_kernel.specs.inside.Held.{StandsFor, AllOwnMail};
ghost use Rattle.vt_kernel.specs.inside.Guards.{IsSendRefusal};
ghost use Rattle.vt_kernel.specs.inside.Steps.{IsTakeRefusal};
ghost use Rattle.vt_cells.specs.inside.Calls.{IsCellStepOf, answer_as};

use vt_engine::Engine;
use vt_key::{Fault, Mail};
use vt_model::Model as EventModel;

/// Send: the letters of a kernel's outbox for processes of worker `v` go to the back of the inbox of `v`.
///
/// [`Fault::NotLawful`]: `v` is this worker, or the outbox holds no letter for a process of `v`. [`Fault::Exhausted`]: the
/// count of mail sent would pass 2^63. [`Fault::Memory`]: memory was refused. After each nothing has changed.
pub fn send<M: EventModel, const KIND: u8>(
    kernel: &mut Engine<M, KIND>,
    v: u32,
    inbox: &mut Vec<Mail<M::Payload>>,
) -> Result<(), Fault>
    ensures step { (handlers : Handlers _ _ _) → IsCellStepOf handlers kernel.old.config (step.Send kernel.old.worker v) kernel.old kernel.new (in_inbox inbox.old.items) (in_inbox inbox.new.items) (answer_as (λ _. Done) result) }
    ensures own { AllOwnMail kernel.old.config v inbox.old.items → AllOwnMail kernel.old.config v inbox.new.items }
    ensures why { (handlers : Handlers _ _ _) (part : Part _) → StandsFor handlers kernel.old part → IfErr result (λ fault. IsSendRefusal (simulation_of handlers kernel.old.config) kernel.old.worker v part fault) }
{
    kernel.letters_for(v, inbox)
}

/// Fetch: the mail of a kernel's inbox becomes its arrived mail. The inbox gets the kernel's emptied list, so it keeps room.
///
/// [`Fault::NotLawful`]: mail that arrived before is not accepted yet. [`Fault::Exhausted`]: a count of mail got would pass
/// 2^63. After either nothing has changed.
pub fn fetch<M: EventModel, const KIND: u8>(
    kernel: &mut Engine<M, KIND>,
    inbox: &mut Vec<Mail<M::Payload>>,
) -> Result<(), Fault>
    requires own { AllOwnMail kernel.old.config kernel.old.worker inbox.old.items }
    ensures step { (handlers : Handlers _ _ _) → IsCellStepOf handlers kernel.old.config (step.Fetch kernel.old.worker) kernel.old kernel.new (in_inbox inbox.old.items) (in_inbox inbox.new.items) (answer_as (λ _. Done) result) }
    ensures own { AllOwnMail kernel.old.config kernel.old.worker inbox.new.items }
    ensures emptied { IfOk result (λ _. inbox.new.items ≡ []) }
    ensures why { IfErr result (IsTakeRefusal kernel.old.arrived kernel.old.got inbox.old.items) }
{
    kernel.fetch(inbox)
}
