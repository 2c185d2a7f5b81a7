//! How letters are found.

use vt_key::{Letter, Rank, Stamp};
use vt_list::Predicate;

/// Lets the letter of this rank pass.
#[derive(Drop)]
pub(crate) struct HasRank(pub(crate) Rank);

impl<P> Predicate<Letter<P>> for HasRank {
    ghost use Rattle.vt_key.specs.promise.Queues.{has_rank};

    ghost passes = { λ t letter. has_rank t.0 letter };

    fn test(&self, letter: &Letter<P>) -> bool {
        letter.event.rank.is_same(&self.0)
    }
}

/// Lets a letter of this stamp pass.
#[derive(Drop)]
pub(crate) struct HasStamp(pub(crate) Stamp);

impl<P> Predicate<Letter<P>> for HasStamp {
    ghost use Rattle.vt_key.specs.promise.Queues.{has_stamp};

    ghost passes = { λ t letter. has_stamp t.0 letter };

    fn test(&self, letter: &Letter<P>) -> bool {
        letter.event.rank.stamp.is_same(&self.0)
    }
}
