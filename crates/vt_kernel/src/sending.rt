//! Mail that leaves for another worker.

ghost use Rattle.std.specs.Prelude.{◌≡◌, ℕ, ◌+◌, ◌<◌, ◌≤◌, ◌⊎◌, ◌++◌, true, false, length, map, filter, vec_len, IfOk, IfErr, IfSome, IfNone};
ghost use Rattle.std.specs.Vec.{vec_capacity};
ghost use Rattle.vt_key.specs.declared.fault.Fault.TheVariants.{Memory, NotLawful, Exhausted};
ghost use Rattle.vt_model.specs.promise.Handler.{Handlers};
ghost use Rattle.vt_model.specs.promise.Simulation.{simulation_of};
ghost use Rattle.vt_model.specs.promise.Settings.{end_of};
ghost use Rattle.vt_steps.specs.promise.Letters.{least_time};
ghost use Rattle.vt_steps.specs.promise.World.{Part};
ghost use Rattle.vt_steps.specs.promise.PartSteps.{part_after_send, mail_of_send, is_for};
ghost use Rattle.vt_steps.specs.promise.CellSteps.{may_send};
ghost use Rattle.vt_steps.specs.declared.step.Step.TheVariants as step;
ghost use Rattle.vt_kernel.specs.inside.Held.{StandsFor, AllOwnMail};
ghost use Rattle.vt_kernel.specs.inside.Guards.{mailed, IsSendRefusal};
ghost use Rattle.vt_kernel.specs.inside.Steps.{outbox_for, held_after_send};
ghost use Rattle.vt_kernel.specs.promise.Refusals.{PassesIn};

use crate::kernel::Kernel;
use vt_key::{Colour, Fault, Letter, Mail, When};
use vt_list::List;
use vt_model::{Config, Model as EventModel};
use vt_outbox::Outbox;

impl<M: EventModel> Kernel<M> {
    /// The worker's part of a send to worker `v`. It moves the letters of the outbox for processes of `v` to the back
    /// of `mail`, in their order and in the worker's colour. It counts them, and lowers the red minimum to the least
    /// of their times.
    ///
    /// [`Fault::NotLawful`]: `v` is this worker, or the outbox holds no letter for a process of `v`.
    /// [`Fault::Exhausted`]: the count of mail sent would pass 2^63. [`Fault::Memory`]: memory was refused. After
    /// each the worker and `mail` are unchanged.
    pub fn letters_for(&mut self, v: u32, mail: &mut Vec<Mail<M::Payload>>) -> Result<(), Fault>
        ensures sent { IfOk result (λ _. self.new ≡ held_after_send v self.old) }
        ensures mail { IfOk result (λ _. mail.new.items ≡ mail.old.items ++ map (mailed self.old.colour) (outbox_for v self.old)) }
        ensures own { IfOk result (λ _. AllOwnMail self.old.config v (map (mailed self.old.colour) (outbox_for v self.old))) }
        ensures done { (handlers : Handlers _ _ _) (part : Part _) → StandsFor handlers self.old part → IfOk result (λ _. (may_send (simulation_of handlers self.old.config).workers self.old.worker v part.outbox ≡ true) × StandsFor handlers self.new (part_after_send (simulation_of handlers self.old.config) v part) × (mail.new.items ≡ mail.old.items ++ mail_of_send (simulation_of handlers self.old.config) v part)) }
        ensures counted { (handlers : Handlers _ _ _) (part : Part _) → StandsFor handlers self.new part → IfOk result (λ _. PassesIn (simulation_of handlers self.old.config) (step.Send self.old.worker v) part 0 → ⊥) }
        ensures refused { (handlers : Handlers _ _ _) (part : Part _) → StandsFor handlers self.old part → IfErr result (λ fault. IsSendRefusal (simulation_of handlers self.old.config) self.old.worker v part fault) }
        ensures faults { IfErr result (λ fault. (fault ≡ NotLawful) ⊎ ((fault ≡ Exhausted) ⊎ (fault ≡ Memory))) }
        ensures kept { IfErr result (λ fault. (self.new ≡ self.old) × (mail.new.items ≡ mail.old.items)) }
    {
        if v == self.worker {
            return Err(Fault::NotLawful);
        }
        let room = self.sent.room(self.colour);
        let count = make_room(&self.outbox, v, room, mail)?;
        let letters = self.outbox.take_for(v, *mail.allocator());
        let least = mail_letters(&letters, self.config, self.colour, mail);
        self.sent.raise(self.colour, count);
        self.red_minimum = self.red_minimum.earlier(least);
        Ok(())
    }

    /// The first worker from number `v` on, other than this one, that the outbox holds letters for; None if there is none.
    /// A send to it is lawful.
    pub fn receiver_from(&self, v: u32) -> Option<u32>
        ensures first { IfSome result (λ u. (v ≤ u) × (u < self.now.config.workers) × (may_send self.now.config.workers self.now.worker u self.now.outbox ≡ true) × ((k : ℕ) → v ≤ k → k < u → may_send self.now.config.workers self.now.worker k self.now.outbox ≡ false)) }
        ensures nobody { IfNone result ((k : ℕ) → v ≤ k → may_send self.now.config.workers self.now.worker k self.now.outbox ≡ false) }
    {
        self.outbox.receiver_from(self.worker, v)
    }
}

/// Makes room in `mail` for the letters of an outbox that are for processes of worker `v`, and returns their number, which is at most
/// `most`.
///
/// [`Fault::NotLawful`]: there are none. [`Fault::Exhausted`]: there are more. [`Fault::Memory`]: memory was refused.
pub fn make_room<P: Copy>(
    outbox: &Outbox<P>,
    v: u32,
    most: u64,
    mail: &mut Vec<Mail<P>>,
) -> Result<u64, Fault>
    ensures items { mail.new.items ≡ mail.old.items }
    ensures count { IfOk result (λ n. (n ≡ length (filter (is_for outbox.now.config.workers v) outbox.now.letters)) × (n ≤ most) × (0 < n)) }
    ensures room { IfOk result (λ n. vec_len mail.new + length (filter (is_for outbox.now.config.workers v) outbox.now.letters) ≤ vec_capacity mail.new) }
    ensures refused { let count = length (filter (is_for outbox.now.config.workers v) outbox.now.letters) in IfErr result (λ fault. ((fault ≡ NotLawful) × (count ≡ 0)) ⊎ ((0 < count) × (((fault ≡ Exhausted) × (most < count)) ⊎ ((fault ≡ Memory) × (count ≤ most))))) }
{
    let Some(count) = outbox.count_for(v, most) else {
        return Err(Fault::Exhausted);
    };
    if count == 0 {
        return Err(Fault::NotLawful);
    }
    let Ok(()) = mail.reserve(count as usize) else {
        return Err(Fault::Memory);
    };
    Ok(count)
}

/// Writes letters to the back of `mail`, which must have room, as mail of this colour. Returns their least time, or the end of the run if
/// there are none.
pub fn mail_letters<P: Copy>(
    letters: &List<Letter<P>>,
    config: Config,
    colour: Colour,
    mail: &mut Vec<Mail<P>>,
) -> When
    requires room { vec_len mail.old + length letters.now ≤ vec_capacity mail.old }
    ensures mail { mail.new.items ≡ mail.old.items ++ map (mailed colour) letters.now }
    ensures least { result ≡ least_time (end_of config) letters.now }
{
    let mut least = config.end();
    for letter in letters.iter() {
        least = least.earlier(letter.event.rank.key.when());
        let _ = mail.push(Mail {
            letter: *letter,
            colour,
        });
    }
    least
}
