//! Letters at a process: how it accepts one, and how two annihilate.

ghost use Rattle.std.specs.Prelude.{◌≡◌, suc, length, IfSome, IfNone, false, true, [], None, IfOk, IfErr};
ghost use Rattle.vt_key.specs.declared.order.Stamp.{Stamp};
ghost use Rattle.std.specs.List.{list_any, last_or};
ghost use Rattle.vt_key.specs.promise.Order.{rank_same};
ghost use Rattle.vt_key.specs.promise.Times.{TimeBefore};
ghost use Rattle.vt_key.specs.declared.fault.Fault.TheVariants.{NotLawful};
ghost use Rattle.vt_model.specs.promise.Handler.{Handlers};
ghost use Rattle.vt_model.specs.promise.Settings.{end_of};
ghost use Rattle.vt_steps.specs.promise.ProcessSteps.{cancel_process, accept_process, can_annihilate};
ghost use Rattle.vt_lp.specs.inside.Held.{IsRisingPast};
ghost use Rattle.vt_lp.specs.inside.Steps.{DoesAtProcess, RefusesAtProcess};
ghost use Rattle.vt_lp.specs.inside.Guards.{holds_letter, may_come_after};

use crate::Lp;
use vt_key::{Fault, Letter, Rank, Sign, Stamp};
use vt_list::{List, Parcel, Predicate};
use vt_model::Model as EventModel;
use vt_past::{Past, PastEvent};
use vt_pending::Pending;

impl<M: EventModel> Lp<M> {
    /// Whether the process holds a letter of this sign and rank. Messages are held among the pending and the past
    /// ones, anti-messages among the waiting ones.
    pub fn holds(&self, sign: Sign, rank: Rank) -> bool
        ensures { result ≡ holds_letter self.now.pending self.now.waiting self.now.past sign rank }
    {
        let rank = &rank;
        match sign {
            Sign::Plus => self.pending.holds(*rank) || has_executed(&self.past, *rank),
            Sign::Minus => self.waiting.holds(*rank),
        }
    }

    /// Accepts a letter for this process: a message becomes pending, and an anti-message waits. It takes no memory.
    ///
    /// [`Fault::NotLawful`]: the process holds a letter of this sign and rank already. The letter is handed back, and
    /// nothing changes.
    pub fn accept(
        &mut self,
        letter: Parcel<Letter<M::Payload>>,
    ) -> Result<(), (Fault, Parcel<Letter<M::Payload>>)>
        requires dest { letter.event.dest ≡ self.old.lp }
        requires soon { TimeBefore letter.event.rank.key.time (end_of self.old.config) }
        ensures done { (handlers : Handlers _ _ _) → DoesAtProcess handlers self.old self.new (accept_process letter) [] [] 0 0 result }
        ensures held { IfOk result (λ done. holds_letter self.old.pending self.old.waiting self.old.past letter.sign letter.event.rank ≡ false) }
        ensures refused { (handlers : Handlers _ _ _) → RefusesAtProcess handlers self.old (accept_process letter) result }
        ensures kept { IfErr result (λ e. (e.0 ≡ NotLawful) × (e.1 ≡ letter) × (self.new ≡ self.old)) }
        ensures already { IfErr result (λ e. holds_letter self.old.pending self.old.waiting self.old.past letter.sign letter.event.rank ≡ true) }
        ensures same { (self.new.lp ≡ self.old.lp) × (self.new.config ≡ self.old.config) × (self.new.triple ≡ self.old.triple) × (self.new.past ≡ self.old.past) }
    {
        let Letter { event, sign } = *letter.get();
        let put = match sign {
            Sign::Plus if has_executed(&self.past, event.rank) => Err(letter),
            Sign::Plus => self.pending.insert_new(letter),
            Sign::Minus => self.waiting.insert_new(letter),
        };
        match put {
            Ok(()) => Ok(()),
            Err(letter) => Err((Fault::NotLawful, letter)),
        }
    }

    /// Lets the waiting anti-message and the pending message of this stamp annihilate each other. If a queue has
    /// several letters of this stamp, its first one counts. It takes no memory.
    ///
    /// [`Fault::NotLawful`]: one of the two is missing, or their keys differ. Nothing changes.
    pub fn cancel(&mut self, stamp: Stamp) -> Result<(), Fault>
        ensures done { (handlers : Handlers _ _ _) → DoesAtProcess handlers self.old self.new (cancel_process stamp) [] [] 0 0 result }
        ensures refused { (handlers : Handlers _ _ _) → RefusesAtProcess handlers self.old (cancel_process stamp) result }
        ensures kept { IfErr result (λ fault. (fault ≡ NotLawful) × (self.new ≡ self.old)) }
        ensures lawful { IfOk result (λ done. can_annihilate stamp self.old.pending self.old.waiting ≡ true) }
        ensures unlawful { IfErr result (λ fault. can_annihilate stamp self.old.pending self.old.waiting ≡ false) }
        ensures fewer { IfOk result (λ done. (suc (length self.new.pending) ≡ length self.old.pending) × (suc (length self.new.waiting) ≡ length self.old.waiting)) }
        ensures same { (self.new.lp ≡ self.old.lp) × (self.new.config ≡ self.old.config) × (self.new.triple ≡ self.old.triple) × (self.new.past ≡ self.old.past) }
    {
        if !annihilate(stamp, &self.pending, &self.waiting) {
            return Err(Fault::NotLawful);
        }
        self.pending.take_stamp(stamp);
        self.waiting.take_stamp(stamp);
        Ok(())
    }

    /// A stamp by which a waiting anti-message and a pending message annihilate each other, so that [`Lp::cancel`] is
    /// lawful. None if there is no such stamp.
    pub fn cancellable(&self) -> Option<Stamp>
        ensures lawful { IfSome result (λ stamp. can_annihilate stamp self.now.pending self.now.waiting ≡ true) }
        ensures none { IfNone result ((stamp : Stamp) → can_annihilate stamp self.now.pending self.now.waiting ≡ false) }
    {
        let meets_its_message = Annihilates {
            pending: &self.pending,
            waiting: &self.waiting,
        };
        let letter = self.waiting.find(&meets_its_message)?;
        Some(letter.event.rank.stamp)
    }
}

/// Whether the first pending and the first waiting letter of this stamp annihilate each other.
fn annihilate<P: Copy>(stamp: Stamp, pending: &Pending<P>, waiting: &Pending<P>) -> bool
    ensures { result ≡ can_annihilate stamp pending.now waiting.now }
{
    match (waiting.find_stamp(stamp), pending.find_stamp(stamp)) {
        (Some(anti_message), Some(message)) => {
            anti_message.event.rank.key == message.event.rank.key
        }
        _ => false,
    }
}

// Lets a letter pass if a waiting and a pending letter of its stamp annihilate each other.
#[derive(Drop)]
struct Annihilates<'a, P: Copy> {
    pending: &'a Pending<P>,
    waiting: &'a Pending<P>,
}

impl<'a, P: Copy> Predicate<Letter<P>> for Annihilates<'a, P> {
    ghost passes = { λ t letter. can_annihilate letter.event.rank.stamp t.pending.now t.waiting.now };

    fn test(&self, letter: &Letter<P>) -> bool {
        annihilate(letter.event.rank.stamp, self.pending, self.waiting)
    }
}

// Lets a past event pass that isn't after this rank.
#[derive(Drop)]
struct NotAfter(Rank);

impl<P: Copy, K: Copy> Predicate<PastEvent<P, K>> for NotAfter {
    ghost use Rattle.std.specs.Prelude.{not};
    ghost use Rattle.vt_key.specs.promise.Order.{rank_before};

    ghost passes = { λ t e. not (rank_before t.0 e.letter.event.rank) };

    fn test(&self, event: &PastEvent<P, K>) -> bool {
        !self.0.is_before(&event.letter.get().event.rank)
    }
}

/// Whether there is no past event, or the last one is before this rank.
pub(crate) fn ends_before<P: Copy, K: Copy>(past: &Past<P, K>, rank: Rank) -> bool
    ensures { result ≡ may_come_after (last_or None past.now) rank }
{
    match past.last_rank() {
        Some(last) => last.is_before(&rank),
        None => true,
    }
}

/// Whether a past event has this rank. The ranks of past events rise. So only one event can have it: the first one,
/// from the back, that isn't after the rank.
fn has_executed<P: Copy, K: Copy>(past: &Past<P, K>, rank: Rank) -> bool
    requires { IsRisingPast past.now }
    ensures { result ≡ list_any (λ e. rank_same e.letter.event.rank rank) past.now }
{
    if ends_before(past, rank) {
        return false;
    }
    match past.events().find_back(&NotAfter(rank)) {
        Some(event) => event.letter.get().event.rank.is_same(&rank),
        None => false,
    }
}
