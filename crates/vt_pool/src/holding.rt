//! Whether a letter is held.

ghost use Rattle.std.specs.Prelude.{◌≡◌, true, false};
ghost use Rattle.vt_key.specs.promise.Queues.{letter_rank};
ghost use Rattle.vt_key.specs.declared.letter.Sign.TheVariants.{Plus, Minus};
ghost use Rattle.vt_pool.specs.inside.Inside.{IsHeard};
ghost use Rattle.vt_pool.specs.inside.Pool.{holds_stamp};

use crate::finding::HasStamp;
use crate::pool::Pool;
use vt_key::{Letter, Sign, Stamp};
use vt_model::Model as EventModel;

impl<M: EventModel> Pool<M> {
    /// Whether a letter of the sign and the stamp of this one is held: such a letter can't come. If none is, its serial is noted.
    #[inline(always)]
    pub fn is_held(&mut self, letter: &Letter<M::Payload>) -> bool
        ensures held { result ≡ holds_stamp letter.now.sign (letter_rank letter.now).stamp self.old.stock }
        ensures heard { letter.now.sign ≡ Plus → IsHeard self.new.heard (letter_rank letter.now).stamp }
        ensures same { self.new ≡ record self.old { heard = self.new.heard } }
    {
        let stamp = letter.event.rank.stamp;
        match letter.sign {
            Sign::Plus => !self.hear(stamp) && self.has_message(&stamp),
            Sign::Minus => self.has_anti_message(&stamp),
        }
    }

    /// Notes the serial of a stamp. True if it is greater than those that were noted of its worker: then no message has this stamp.
    #[inline(always)]
    fn hear(&mut self, stamp: Stamp) -> bool
        ensures new { result ≡ true → holds_stamp Plus stamp self.old.stock ≡ false }
        ensures heard { IsHeard self.new.heard stamp }
        ensures same { self.new ≡ record self.old { heard = self.new.heard } }
    {
        let Some(most) = self.heard.get_mut(stamp.worker as usize) else {
            return false;
        };
        if stamp.serial <= *most {
            return false;
        }
        *most = stamp.serial;
        true
    }

    /// Whether a message that is pending or past has this stamp. It looks at each.
    #[cold]
    #[inline(never)]
    fn has_message(&self, stamp: &Stamp) -> bool
        ensures { result ≡ holds_stamp Plus stamp.now self.now.stock }
    {
        self.calendar.any(&HasStamp(*stamp)) || self.log.has_stamp(stamp)
    }

    /// Whether an anti-message that waits has this stamp.
    fn has_anti_message(&self, stamp: &Stamp) -> bool
        ensures { result ≡ holds_stamp Minus stamp.now self.now.stock }
    {
        let Some(_found) = self.waiting.find(&HasStamp(*stamp)) else {
            return false;
        };
        true
    }
}
