//! Undo.

ghost use Rattle.std.specs.Prelude.{◌≡◌, ◌+◌, ◌-◌, ◌%◌, ◌^◌, ◌<◌, ◌≤◌, ◌⊎◌, List as Items, Some, None, not, false, slice_get, length};
ghost use Rattle.std.specs.List.{last_or};
ghost use Rattle.std.specs.Option.{option_map_or};
ghost use Rattle.vt_key.specs.promise.Lists.{Among};
ghost use Rattle.vt_key.specs.promise.Order.{rank_before};
ghost use Rattle.vt_key.specs.inside.Order.{RankBefore};
ghost use Rattle.vt_key.specs.promise.Queues.{letter_rank};
ghost use Rattle.vt_key.specs.declared.letter.Letter.{Letter as LetterValue};
ghost use Rattle.vt_key.specs.declared.order.Rank.{Rank as RankValue};
ghost use Rattle.vt_model.specs.promise.Simulation.{Triple};
ghost use Rattle.vt_model.specs.declared.limits.TheConstants.{MAX_DRAWS};
ghost use Rattle.vt_past.specs.declared.event.PastEvent.{PastEvent as PastEventValue};
ghost use Rattle.vt_pool.specs.inside.View.{number_at, past_at};
ghost use Rattle.vt_pool.specs.inside.Share.{AreSettledBut, PoolLeadsTo};
ghost use Rattle.vt_pool.specs.inside.Pool.{pool_after_undo, weight_of, with_waiting};

use crate::letters::put_letters;
use crate::pool::Pool;
use vt_key::{Letter, Rank, Sign};
use vt_logs::Entry;
use vt_model::{Model as EventModel, Process, Sent};

impl<M: EventModel> Pool<M> {
    /// Undoes the last past event of the process at `index`, where there is one. It is pending again, and the anti-messages of what it
    /// sent go to the back of the outbox.
    pub(crate) fn undo_last(&mut self, model: &M, index: u32)
        requires there { index < length self.old.stock.triples }
        ensures undone { (event : PastEventValue _ _) (triple : Triple _) → last_or None (past_at index self.old.stock.past) ≡ Some event → slice_get self.old.stock.triples index ≡ Some triple → self.new ≡ pool_after_undo (M.handlers model.now) index event triple self.old }
        ensures nothing { last_or None (past_at index self.old.stock.past) ≡ None → self.new ≡ self.old }
    {
        let Some(last) = self.log.last(index) else {
            return;
        };
        let serial = last.serial;
        let sends = self.log.last_sends(index);
        self.hints.count_undo(sends.len());
        put_letters(
            &mut self.kept,
            &mut self.outbox,
            Sign::Minus,
            self.worker,
            serial,
            sends,
        );
        let Some(entry) = self.log.take_last(index) else {
            unreachable!();
        };
        undo_entry(&mut self.processes[index as usize], model, &entry);
        let node = self.kept.put(Letter {
            event: entry.event,
            sign: Sign::Plus,
        });
        self.calendar.put(node);
    }

    /// Whether the last past event of the process at `index` isn't before a rank.
    #[inline(always)]
    pub(crate) fn ends_from(&self, index: u32, rank: &Rank) -> bool
        requires there { index < length self.now.stock.triples }
        ensures { result ≡ option_map_or (λ (e : PastEventValue _ _). not (rank_before e.letter.event.rank rank.now)) (last_or None (past_at index self.now.stock.past)) false }
    {
        match self.log.last(index) {
            Some(entry) => !entry.event.rank.is_before(rank),
            None => false,
        }
    }

    /// Undoes the events of the process at `index` that aren't before this rank. A pending letter or one of `waits` has it.
    pub(crate) fn undo_from(&mut self, model: &M, index: u32, rank: &Rank)
        ghost waits: { Items (LetterValue M.Payload) }
        requires forced { (letter : LetterValue M.Payload) × (Among letter self.old.stock.pending ⊎ Among letter waits) × (letter_rank letter ≡ rank.now) × (letter.event.dest ≡ number_at self.old.config self.old.worker index) }
        requires there { index < length self.old.stock.triples }
        ensures leads { PoolLeadsTo (M.handlers model.now) (with_waiting waits self.old) (with_waiting waits self.new) }
        ensures settled { (r : RankValue) → AreSettledBut r self.old.stock → AreSettledBut r self.new.stock }
        ensures still { (letter : LetterValue M.Payload) → Among letter self.old.stock.pending → Among letter self.new.stock.pending }
        ensures before { (event : PastEventValue _ _) → last_or None (past_at index self.new.stock.past) ≡ Some event → RankBefore event.letter.event.rank rank.now }
        ensures work { weight_of self.new ≤ weight_of self.old }
        ensures same { (self.new.worker ≡ self.old.worker) × (self.new.config ≡ self.old.config) × (self.new.heard ≡ self.old.heard) × (self.new.stock.waiting ≡ self.old.stock.waiting) }
    {
        self.fits();
        while self.ends_from(index, rank) {
            self.undo_last(model, index);
            self.fits();
        }
    }
}

/// Undoes the event of this entry, the last one, at its process.
pub(crate) fn undo_entry<M: EventModel>(
    process: &mut Process<M>,
    model: &M,
    entry: &Entry<M::Payload, M::Kept>,
)
    requires few { entry.now.drawn ≤ MAX_DRAWS }
    ensures state { process.new.state ≡ (M.handlers model.now).reverse entry.now.event.dest entry.now.event.rank.key.time entry.now.event.payload process.old.state entry.now.bits entry.now.kept }
    ensures number { process.new.number ≡ entry.now.number }
    ensures stream { process.new.stream ≡ record process.old.stream { place = (process.old.stream.place + (2 ^ 64 - entry.now.drawn)) % 2 ^ 64 } }
{
    let event = &entry.event;
    let sent = Sent {
        key: event.rank.key,
        dest: event.dest,
        payload: event.payload,
    };
    process.undo(
        model,
        sent,
        entry.bits,
        entry.kept,
        entry.drawn,
        entry.number,
    );
}
