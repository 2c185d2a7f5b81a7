//! Mail that arrives.

ghost use Rattle.std.specs.Prelude.{◌≡◌, ◌≤◌, ◌⊎◌, [], true, drop, length, map, slice_get, vec_len, IfOk, IfErr, IfSome};
ghost use Rattle.vt_key.specs.promise.Queues.{letter_rank};
ghost use Rattle.vt_key.specs.declared.fault.Fault.TheVariants.{Memory, NotLawful};
ghost use Rattle.vt_model.specs.promise.Handler.{Handlers};
ghost use Rattle.vt_steps.specs.promise.Letters.{is_empty};
ghost use Rattle.vt_steps.specs.promise.World.{Part};
ghost use Rattle.vt_steps.specs.promise.PartSteps.{part_after_fetch};
ghost use Rattle.vt_kernel.specs.inside.Held.{StandsFor, AllOwnMail, AreCounted};
ghost use Rattle.vt_kernel.specs.inside.Steps.{held_after_fetch, IsTakeRefusal};
ghost use Rattle.vt_pool.specs.inside.Inside.{AreSettled};
ghost use Rattle.vt_pool.specs.inside.Pool.{holds_stamp};
ghost use Rattle.vt_pool.specs.inside.Steps.{LeadsTo};
ghost use Rattle.vt_share.specs.inside.Calls.{AcceptsFirst, IsHeldMail};

use crate::share::Share;
use std::mem;
use vt_kernel::Counts;
use vt_key::{Fault, Letter, Mail};
use vt_list::List;
use vt_model::Model as EventModel;
use vt_pool::Pool;

impl<M: EventModel> Share<M> {
    /// The worker's part of a fetch, by exchange: `mail`, the inbox, becomes its arrived mail, and is counted by colour. The inbox gets the
    /// worker's emptied list, and keeps that list's room. It takes no memory.
    ///
    /// [`Fault::NotLawful`]: mail that arrived before is not accepted yet. [`Fault::Exhausted`]: a count of mail got
    /// would pass 2^63. After either nothing has changed, and the mail stays in the inbox.
    pub fn fetch(&mut self, mail: &mut Vec<Mail<M::Payload>>) -> Result<(), Fault>
        requires own { AllOwnMail self.old.config self.old.worker mail.old.items }
        ensures taken { IfOk result (λ _. self.new ≡ held_after_fetch mail.old.items self.old) }
        ensures emptied { IfOk result (λ _. mail.new.items ≡ []) }
        ensures lawful { IfOk result (λ _. (is_empty self.old.arrived ≡ true) × AreCounted self.new.got) }
        ensures done { (handlers : Handlers _ _ _) (part : Part _) → StandsFor handlers self.old part → IfOk result (λ _. (is_empty part.arrived ≡ true) × StandsFor handlers self.new (part_after_fetch mail.old.items part)) }
        ensures refused { IfErr result (IsTakeRefusal self.old.arrived self.old.got mail.old.items) }
        ensures kept { IfErr result (λ _. (self.new ≡ self.old) × (mail.new ≡ mail.old)) }
    {
        if !self.arrived.is_empty() {
            return Err(Fault::NotLawful);
        }
        let Some(got) = self.got.plus(&Counts::of_mail(mail.as_slice())) else {
            return Err(Fault::Exhausted);
        };
        self.got = got;
        mem::swap(&mut self.arrived, mail);
        Ok(())
    }

    /// Takes all mail that has arrived to its processes, the first letter first. After each, Undo, Cancel and Home are done as long as one
    /// has to be, so that no event of a process is to be undone.
    ///
    /// [`Fault::Memory`]: memory was refused, and nothing has changed. [`Fault::NotLawful`]: of the first letter that is left, one of its
    /// sign and stamp is held already. It and those behind it stay, and those before it are accepted.
    pub fn accept_all(&mut self, model: &M) -> Result<(), Fault>
        ensures leads { LeadsTo (M.handlers model.now) self.old self.new }
        ensures accepted { IfOk result (λ _. self.new.arrived ≡ []) }
        ensures refused { IfErr result (λ fault. ((fault ≡ Memory) × (self.new ≡ self.old)) ⊎ ((fault ≡ NotLawful) × IsHeldMail self.old self.new)) }
    {
        let mut letters = self.pool.parcels_of(self.arrived.as_slice())?;
        let accepted = accept_new(&mut self.pool, model, self.arrived.as_slice(), &mut letters);
        self.pool.keep_all(&mut letters);
        self.pool.fits();
        drop_first(&mut self.arrived, accepted);
        if self.arrived.is_empty() {
            return Ok(());
        }
        Err(Fault::NotLawful)
    }
}

/// Takes letters, which are those of this mail, to their processes, up to the first that is held. Returns how many it took.
fn accept_new<M: EventModel>(
    pool: &mut Pool<M>,
    model: &M,
    mails: &[Mail<M::Payload>],
    letters: &mut List<Letter<M::Payload>>,
) -> usize
    requires letters { letters.old ≡ map (λ mail. mail.letter) mails.now }
    requires own { AllOwnMail pool.old.config pool.old.worker mails.now }
    requires settled { AreSettled pool.old.stock }
    ensures leads { AcceptsFirst (M.handlers model.now) result mails.now pool.old pool.new }
    ensures within { result ≤ length mails.now }
    ensures held { IfSome (slice_get mails.now result) (λ mail. holds_stamp mail.letter.sign (letter_rank mail.letter).stamp pool.new.stock ≡ true) }
    ensures settled { AreSettled pool.new.stock }
    ensures same { (pool.new.worker ≡ pool.old.worker) × (pool.new.config ≡ pool.old.config) }
{
    for accepted in 0..mails.len() {
        let Some(letter) = letters.pop_front() else {
            unreachable!();
        };
        if pool.is_held(letter.get()) {
            letters.push_front(letter);
            return accepted;
        }
        pool.fits();
        pool.accept(model, letter);
    }
    mails.len()
}

/// Drops so many letters from the front of mail.
fn drop_first<P: Copy>(mail: &mut Vec<Mail<P>>, count: usize)
    requires there { count ≤ vec_len mail.old }
    ensures { mail.new.items ≡ drop count mail.old.items }
{
    let left = mail.len() - count;
    if left > 0 {
        mail.rotate_left(count);
    }
    mail.truncate(left);
}
