//! How a process with rollback undoes its last past event.

ghost use Rattle.std.specs.Prelude.{◌≡◌, suc, true, false, not, None, length, IfOk, IfErr};
ghost use Rattle.std.specs.List.{last_or, list_any};
ghost use Rattle.vt_key.specs.promise.Order.{rank_before};
ghost use Rattle.vt_key.specs.declared.fault.Fault.TheVariants.{NotLawful};
ghost use Rattle.vt_steps.specs.promise.ProcessSteps.{undo_process};
ghost use Rattle.vt_lp.specs.inside.Held.{AllWithinRun};
ghost use Rattle.vt_lp.specs.inside.Steps.{DoesAtProcess, RefusesAtProcess};
ghost use Rattle.vt_lp.specs.inside.Past.{must_undo_last};

use crate::lp::Lp;
use crate::making::unstamped;
use vt_key::{Fault, Letter, Rank};
use vt_list::List;
use vt_model::Model as EventModel;
use vt_past::{Past, UndoEntry};
use vt_pending::Pending;

impl<M: EventModel> Lp<M> {
    /// Undoes the last past event. The model's `reverse` takes the state back, the send number and the drawn words
    /// are given back, and the event is pending again. The anti-messages of what it sent, made when it was executed,
    /// go to the back of the outbox. It takes no memory.
    ///
    /// [`Fault::NotLawful`]: there is no past event, or no letter forces the undo of the last one: no pending message
    /// is before it, and every waiting anti-message is after it. Nothing changes.
    pub fn undo(&mut self, model: &M, outbox: &mut List<Letter<M::Payload>>) -> Result<(), Fault>
        ensures done { DoesAtProcess (M.handlers model.now) self.old self.new undo_process outbox.old outbox.new 0 0 result }
        ensures refused { RefusesAtProcess (M.handlers model.now) self.old undo_process result }
        ensures lawful { IfOk result (λ done. must_undo_last self.old.pending self.old.waiting (last_or None self.old.past) ≡ true) }
        ensures unlawful { IfErr result (λ fault. must_undo_last self.old.pending self.old.waiting (last_or None self.old.past) ≡ false) }
        ensures kept { IfErr result (λ fault. (fault ≡ NotLawful) × (self.new ≡ self.old) × (outbox.new ≡ outbox.old)) }
        ensures within { AllWithinRun self.old.config outbox.old → AllWithinRun self.old.config outbox.new }
        ensures same { (self.new.lp ≡ self.old.lp) × (self.new.config ≡ self.old.config) }
        ensures shorter { IfOk result (λ _. (suc (length self.new.past) ≡ length self.old.past) × (length self.new.pending ≡ suc (length self.old.pending)) × (self.new.waiting ≡ self.old.waiting)) }
    {
        if !must_undo_last(&self.pending, &self.waiting, &self.past) {
            return Err(Fault::NotLawful);
        }
        let Some(last) = self.past.pop_back() else {
            return Err(Fault::NotLawful);
        };
        let (letter, undo_entry) = last.into_value().into_parts();
        let UndoEntry {
            mut anti_messages,
            kept,
            bits,
            drawn,
            number,
        } = undo_entry;
        let sent = unstamped(&letter.get().event);
        self.process.undo(model, sent, bits, kept, drawn, number);
        outbox.append(&mut anti_messages);
        self.pending.insert(letter);
        Ok(())
    }
}

/// Whether there is a past event and a letter forces the undo of the last one. It looks only at the least letters,
/// since queues are in rising rank.
fn must_undo_last<P: Copy, K: Copy>(
    pending: &Pending<P>,
    waiting: &Pending<P>,
    past: &Past<P, K>,
) -> bool
    ensures { result ≡ must_undo_last pending.now waiting.now (last_or None past.now) }
{
    let Some(rank) = past.last_rank() else {
        return false;
    };
    has_before(pending, &rank) || has_not_after(waiting, &rank)
}

/// Whether some letter is before this rank.
fn has_before<P: Copy>(letters: &Pending<P>, rank: &Rank) -> bool
    ensures { result ≡ list_any (λ letter. rank_before letter.event.rank rank.now) letters.now }
{
    match letters.least() {
        Some(least) => least.event.rank.is_before(rank),
        None => false,
    }
}

/// Whether some letter is at or before this rank.
fn has_not_after<P: Copy>(letters: &Pending<P>, rank: &Rank) -> bool
    ensures { result ≡ list_any (λ letter. not (rank_before rank.now letter.event.rank)) letters.now }
{
    match letters.least() {
        Some(least) => !rank.is_before(&least.event.rank),
        None => false,
    }
}
