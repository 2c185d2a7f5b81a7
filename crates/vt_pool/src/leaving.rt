//! How letters of a pool leave for other workers.

ghost use Rattle.std.specs.Prelude.{◌≡◌, ℕ, ◌<◌, ◌≤◌, ◌⊎◌, ◌++◌, ◌%◌, ◌^◌, true, false, not, length, map, filter, IfOk, IfErr, IfSome, IfNone};
ghost use Rattle.vt_key.specs.promise.Times.{earlier};
ghost use Rattle.vt_key.specs.declared.fault.Fault.TheVariants.{Memory, NotLawful, Exhausted};
ghost use Rattle.vt_model.specs.promise.Settings.{end_of};
ghost use Rattle.vt_steps.specs.promise.Letters.{least_time};
ghost use Rattle.vt_steps.specs.promise.PartSteps.{is_for};
ghost use Rattle.vt_steps.specs.promise.CellSteps.{may_send};
ghost use Rattle.vt_kernel.specs.inside.Held.{AllOwnMail};
ghost use Rattle.vt_kernel.specs.inside.Guards.{mailed};

use crate::pool::Pool;
use vt_kernel::{mail_letters, make_room};
use vt_key::{Colour, Fault, Mail, When};
use vt_model::Model as EventModel;

impl<M: EventModel> Pool<M> {
    /// The number of letters in the outbox, modulo 2^64.
    pub fn outbox_len(&self) -> usize
        ensures { result ≡ length self.now.outbox % 2 ^ 64 }
    {
        self.outbox.len()
    }

    /// How many letters of the outbox are for processes of worker `v`; None if there are more than `most`.
    pub fn count_for(&self, v: u32, most: u64) -> Option<u64>
        ensures count { IfSome result (λ n. (n ≡ length (filter (is_for self.now.config.workers v) self.now.outbox)) × (n ≤ most)) }
        ensures more { IfNone result (most < length (filter (is_for self.now.config.workers v) self.now.outbox)) }
    {
        self.outbox.count_for(v, most)
    }

    /// The first worker from number `v` on, other than this one, that the outbox holds letters for; None if there is none.
    pub fn receiver_from(&self, v: u32) -> Option<u32>
        ensures first { IfSome result (λ u. (v ≤ u) × (u < self.now.config.workers) × (may_send self.now.config.workers self.now.worker u self.now.outbox ≡ true) × ((k : ℕ) → v ≤ k → k < u → may_send self.now.config.workers self.now.worker k self.now.outbox ≡ false)) }
        ensures nobody { IfNone result ((k : ℕ) → v ≤ k → may_send self.now.config.workers self.now.worker k self.now.outbox ≡ false) }
    {
        self.outbox.receiver_from(self.worker, v)
    }

    /// Moves the letters of the outbox for processes of worker `v`, which are `most` at most, to the back of `mail`: in their order, as mail
    /// of this colour. Lowers `least` to the least of their times, and returns how many there are. Their nodes are kept for other letters.
    ///
    /// [`Fault::NotLawful`]: there are none. [`Fault::Exhausted`]: there are more. [`Fault::Memory`]: memory was refused. After each nothing
    /// has changed.
    pub fn mail_for(
        &mut self,
        v: u32,
        most: u64,
        colour: Colour,
        mail: &mut Vec<Mail<M::Payload>>,
        least: &mut When,
    ) -> Result<u64, Fault>
        ensures left { IfOk result (λ _. self.new ≡ record self.old { outbox = filter (λ letter. not (is_for self.old.config.workers v letter)) self.old.outbox }) }
        ensures mail { IfOk result (λ _. mail.new.items ≡ mail.old.items ++ map (mailed colour) (filter (is_for self.old.config.workers v) self.old.outbox)) }
        ensures own { IfOk result (λ _. AllOwnMail self.old.config v (map (mailed colour) (filter (is_for self.old.config.workers v) self.old.outbox))) }
        ensures count { IfOk result (λ n. (n ≡ length (filter (is_for self.old.config.workers v) self.old.outbox)) × (n ≤ most) × (0 < n)) }
        ensures least { IfOk result (λ _. least.new ≡ earlier least.old (least_time (end_of self.old.config) (filter (is_for self.old.config.workers v) self.old.outbox))) }
        ensures refused { let count = length (filter (is_for self.old.config.workers v) self.old.outbox) in IfErr result (λ fault. ((fault ≡ NotLawful) × (count ≡ 0)) ⊎ ((0 < count) × (((fault ≡ Exhausted) × (most < count)) ⊎ ((fault ≡ Memory) × (count ≤ most))))) }
        ensures kept { IfErr result (λ _. (self.new ≡ self.old) × (mail.new.items ≡ mail.old.items) × (least.new ≡ least.old)) }
    {
        let count = make_room(&self.outbox, v, most, mail)?;
        let mut letters = self.outbox.take_for(v, *mail.allocator());
        *least = least.earlier(mail_letters(&letters, self.config, colour, mail));
        self.kept.keep_all(&mut letters);
        Ok(count)
    }
}
