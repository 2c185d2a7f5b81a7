//! Letters that come to their processes, and Cancel.

ghost use Rattle.std.specs.Prelude.{◌≡◌, ◌≤◌, ◌⊎◌, find, MatchOption};
ghost use Rattle.std.specs.List.{AllByRecursion};
ghost use Rattle.vt_key.specs.promise.Queues.{letter_rank, has_rank, insert_letter, without_first};
ghost use Rattle.vt_key.specs.declared.letter.Letter.{Letter as LetterValue};
ghost use Rattle.vt_key.specs.declared.letter.Sign.TheVariants.{Plus, Minus};
ghost use Rattle.vt_pool.specs.inside.View.{Placed};
ghost use Rattle.vt_pool.specs.inside.Inside.{IsWorkersLetter, IsHeard, AreSettled, placed_rank};
ghost use Rattle.vt_pool.specs.inside.Share.{PoolLeadsTo};
ghost use Rattle.vt_pool.specs.inside.Pool.{HasCancelled, MayCome, weight_of, with_letter, with_pending, with_waiting};

use crate::finding::HasRank;
use crate::pool::Pool;
use vt_key::{Letter, Rank, Sign};
use vt_list::Parcel;
use vt_model::Model as EventModel;

impl<M: EventModel> Pool<M> {
    /// Takes a letter, which may come, to its process. Events of that process that aren't before the letter are undone. If its opposite is
    /// there, both annihilate each other.
    pub fn receive(&mut self, model: &M, letter: Parcel<Letter<M::Payload>>)
        requires may { MayCome self.old letter }
        requires settled { AreSettled self.old.stock }
        ensures leads { PoolLeadsTo (M.handlers model.now) (with_letter letter self.old) self.new }
        ensures settled { AreSettled self.new.stock }
        ensures work { weight_of self.new ≤ weight_of self.old }
        ensures same { (self.new.worker ≡ self.old.worker) × (self.new.config ≡ self.old.config) }
    {
        match letter.get().sign {
            Sign::Plus => self.receive_message(model, letter),
            Sign::Minus => self.receive_anti_message(model, letter),
        }
    }
}

impl<M: EventModel> Pool<M> {
    /// Takes a message, which isn't held, to its process. Events of that process that aren't before it are undone. An anti-message that waits
    /// for it annihilates it.
    fn receive_message(&mut self, model: &M, letter: Parcel<Letter<M::Payload>>)
        requires mine { IsWorkersLetter self.old.config self.old.worker Plus letter }
        requires new { AllByRecursion (λ (l : LetterValue M.Payload). (letter_rank letter).stamp ≡ (letter_rank l).stamp → ⊥) self.old.stock.pending }
        requires not_past { AllByRecursion (λ (e : Placed M.Payload M.Kept). (letter_rank letter).stamp ≡ (placed_rank e).stamp → ⊥) self.old.stock.past }
        requires heard { IsHeard self.old.heard (letter_rank letter).stamp }
        requires settled { AreSettled self.old.stock }
        ensures leads { PoolLeadsTo (M.handlers model.now) (with_pending (insert_letter letter self.old.stock.pending) self.old) self.new }
        ensures settled { AreSettled self.new.stock }
        ensures work { weight_of self.new ≤ weight_of self.old }
        ensures same { (self.new.worker ≡ self.old.worker) × (self.new.config ≡ self.old.config) × (self.new.heard ≡ self.old.heard) }
    {
        let rank = letter.get().event.rank;
        let dest = letter.get().event.dest;
        self.fits();
        let index = self.index_of(dest);
        self.put_pending(letter);
        self.fits();
        self.undo_from(model, index, &rank);
        self.fits();
        self.cancel(&rank, dest);
    }

    /// Takes an anti-message, which isn't held, to its process. Events of that process that aren't before it are undone. It annihilates its
    /// message, if that is pending.
    fn receive_anti_message(&mut self, model: &M, letter: Parcel<Letter<M::Payload>>)
        requires mine { IsWorkersLetter self.old.config self.old.worker Minus letter }
        requires new { AllByRecursion (λ (l : LetterValue M.Payload). (letter_rank letter).stamp ≡ (letter_rank l).stamp → ⊥) self.old.stock.waiting }
        requires settled { AreSettled self.old.stock }
        ensures leads { PoolLeadsTo (M.handlers model.now) (with_waiting (insert_letter letter self.old.stock.waiting) self.old) self.new }
        ensures settled { AreSettled self.new.stock }
        ensures work { weight_of self.new ≤ weight_of self.old }
        ensures same { (self.new.worker ≡ self.old.worker) × (self.new.config ≡ self.old.config) × (self.new.heard ≡ self.old.heard) }
    {
        let rank = letter.get().event.rank;
        let dest = letter.get().event.dest;
        self.fits();
        let index = self.index_of(dest);
        self.put_waiting(letter);
        self.fits();
        self.undo_from(model, index, &rank);
        self.fits();
        self.cancel(&rank, dest);
    }
}

impl<M: EventModel> Pool<M> {
    /// Puts a message that isn't held among the pending ones.
    #[inline(always)]
    pub(crate) fn put_pending(&mut self, letter: Parcel<Letter<M::Payload>>)
        requires mine { IsWorkersLetter self.old.config self.old.worker Plus letter }
        requires new { AllByRecursion (λ (l : LetterValue M.Payload). (letter_rank letter).stamp ≡ (letter_rank l).stamp → ⊥) self.old.stock.pending }
        requires not_past { AllByRecursion (λ (e : Placed M.Payload M.Kept). (letter_rank letter).stamp ≡ (placed_rank e).stamp → ⊥) self.old.stock.past }
        requires heard { IsHeard self.old.heard (letter_rank letter).stamp }
        ensures { self.new ≡ record self.old { stock = record self.old.stock { pending = insert_letter letter self.old.stock.pending } } }
    {
        self.calendar.put(letter);
    }

    /// Puts an anti-message that isn't held among those that wait.
    #[inline(always)]
    pub(crate) fn put_waiting(&mut self, letter: Parcel<Letter<M::Payload>>)
        requires mine { IsWorkersLetter self.old.config self.old.worker Minus letter }
        requires new { AllByRecursion (λ (l : LetterValue M.Payload). (letter_rank letter).stamp ≡ (letter_rank l).stamp → ⊥) self.old.stock.waiting }
        ensures { self.new ≡ with_waiting (insert_letter letter self.old.stock.waiting) self.old }
    {
        self.waiting.insert_ordered(letter);
    }

    /// Takes the pending message of a rank out, if it is for process `dest`.
    fn take_for(&mut self, rank: &Rank, dest: u32) -> Option<Parcel<Letter<M::Payload>>>
        ensures { MatchOption result (self.new ≡ self.old) (λ message. (find (has_rank rank.now) self.old.stock.pending ≡ Some message) × (message.event.dest ≡ dest) × (self.new ≡ with_pending (without_first (has_rank rank.now) self.old.stock.pending) self.old)) }
    {
        let Some(message) = self.calendar.take(rank) else {
            return None;
        };
        if message.get().event.dest != dest {
            self.calendar.put(message);
            return None;
        }
        Some(message)
    }

    /// Lets the pending message and the waiting anti-message of a rank annihilate each other, if both are for process `dest`.
    pub(crate) fn cancel(&mut self, rank: &Rank, dest: u32)
        ensures { (self.new ≡ self.old) ⊎ HasCancelled rank.now dest self.old self.new }
    {
        let Some(waiting) = self.waiting.find(&HasRank(*rank)) else {
            return;
        };
        if waiting.event.dest != dest {
            return;
        }
        let Some(message) = self.take_for(rank, dest) else {
            return;
        };
        let Some(anti_message) = self.waiting.remove_first(&HasRank(*rank)) else {
            unreachable!();
        };
        self.kept.keep(anti_message);
        self.kept.keep(message);
    }
}
