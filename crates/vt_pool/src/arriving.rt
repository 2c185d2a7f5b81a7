//! How mail that has arrived comes into a pool.

ghost use Rattle.std.specs.Prelude.{◌≡◌, [], true, map, IfOk, IfErr};
ghost use Rattle.vt_key.specs.declared.fault.Fault.TheVariants.{Memory};
ghost use Rattle.vt_key.specs.declared.letter.Sign.TheVariants.{Plus};
ghost use Rattle.vt_pool.specs.inside.Inside.{AreSettled, ComesAfter};
ghost use Rattle.vt_pool.specs.inside.Share.{PoolLeadsTo};
ghost use Rattle.vt_pool.specs.inside.Pool.{MayCome, with_letter};

use crate::pool::Pool;
use vt_key::{Fault, Letter, Mail, Sign};
use vt_list::{List, Parcel};
use vt_model::Model as EventModel;

impl<M: EventModel> Pool<M> {
    /// The letters of this mail, in their order, in nodes that no other letter needs.
    ///
    /// [`Fault::Memory`]: memory was refused.
    pub fn parcels_of(
        &mut self,
        mails: &[Mail<M::Payload>],
    ) -> Result<List<Letter<M::Payload>>, Fault>
        ensures letters { IfOk result (λ letters. letters ≡ map (λ mail. mail.letter) mails.now) }
        ensures refused { IfErr result (λ fault. fault ≡ Memory) }
        ensures same { self.new ≡ self.old }
    {
        self.kept.letters_of(mails, self.log.needs())
    }

    /// Keeps the nodes of letters for other ones.
    pub fn keep_all(&mut self, letters: &mut List<Letter<M::Payload>>)
        ensures same { self.new ≡ self.old }
        ensures none_left { letters.new ≡ [] }
    {
        self.kept.keep_all(letters);
    }

    /// Takes a letter that may come to its process. Then Undo, Cancel and Home are done as long as one has to be.
    // Mostly a message is later than all that was executed, and no anti-message waits. Then it is put among the pending ones at once.
    #[inline(always)]
    pub fn accept(&mut self, model: &M, letter: Parcel<Letter<M::Payload>>)
        requires may { MayCome self.old letter }
        requires settled { AreSettled self.old.stock }
        ensures leads { PoolLeadsTo (M.handlers model.now) (with_letter letter self.old) self.new }
        ensures settled { AreSettled self.new.stock }
        ensures same { (self.new.worker ≡ self.old.worker) × (self.new.config ≡ self.old.config) }
    {
        if self.comes_last(letter.get()) {
            self.put_pending(letter);
            return;
        }
        self.receive(model, letter);
        self.home_all(model);
    }

    /// Whether a letter is a message that is after all past events. Then it forces no undo.
    #[inline(always)]
    fn comes_last(&self, letter: &Letter<M::Payload>) -> bool
        ensures { result ≡ true → (letter.now.sign ≡ Plus) × ComesAfter self.now.stock.past letter.now }
    {
        letter.sign == Sign::Plus
            && letter.event.rank.key.when() > self.reached
            && self.waiting.is_empty()
    }
}
