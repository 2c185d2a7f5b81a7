//! The queue.

ghost use Rattle.std.specs.Prelude.{◌≡◌, ℕ, ◌<◌, ◌-◌, ◌%◌, ◌^◌, ◌↔◌, [], ◌∷◌, false, length, find, slice_get, MatchOption, IfOk, IfErr, IfNone, IsBitSet, IsNone, IsTrue, true};
ghost use Rattle.std.specs.List.{list_any};
ghost use Rattle.std.specs.Option.{option_copied};
ghost use Rattle.vt_key.specs.promise.Queues.{has_stamp, insert_letter};
ghost use Rattle.vt_key.specs.inside.Queues.{holds_rank, IsRising};
ghost use Rattle.vt_pending.specs.inside.Letters.{first_of_stamp, without_stamp};
ghost use Rattle.vt_pending.specs.inside.Buckets.{in_bucket};

use crate::buckets::{
    NotBefore, bucket, find_in, find_least, has_rank, insert_in, put_back, take_marked,
};
use crate::mask::Mask;
use std::alloc::Global;
use std::marker::Model;
use vt_key::{Letter, Rank, Stamp};
use vt_list::{Lines, Parcel, Predicate};

/// A queue of letters in strictly rising rank. Contracts see the list of them.
///
/// The letters lie in 64 lists, by their ticks modulo 64, each in rising rank. The lists that aren't empty stand in
/// the order of their first letters. So the least letter of all is the first one of the first list.
///
/// No call takes memory.
#[derive(Drop)]
pub struct Pending<P: Copy> {
    alloc: Global,
    // Which lists aren't empty.
    mask: Mask,
    lists: Lines<Letter<P>>,
    // The number of letters, modulo 2^64.
    count: usize,
}

impl<P: Copy> Model for Pending<P> {
    ghost use Rattle.std.specs.Prelude.{List as Letters, length, ◌≡◌, ◌%◌, ◌^◌};
    ghost use Rattle.vt_key.specs.declared.letter.Letter.{Letter};
    ghost use Rattle.vt_pending.specs.inside.Buckets.{letters_of, Buckets};

    ghost Value = { Letters (Letter P) };

    ghost view = { λ q. letters_of q.lists };

    ghost invariant = { λ q. Buckets q.mask.bits q.lists (letters_of q.lists) × (q.count ≡ length (letters_of q.lists) % 2 ^ 64) };
}

impl<P: Copy> Pending<P> {
    /// A queue without letters.
    pub fn new(alloc: Global) -> Pending<P>
        ensures { result ≡ [] }
    {
        Pending {
            alloc,
            mask: Mask::new(),
            lists: Lines::new(alloc),
            count: 0,
        }
    }

    /// The number of letters, modulo 2^64. It is the number itself as long as memory can't hold 2^64 letters.
    pub fn len(&self) -> usize
        ensures { result ≡ length self.now % 2 ^ 64 }
    {
        self.count
    }

    /// Whether there is no letter.
    pub fn is_empty(&self) -> bool
        ensures { IsTrue result ↔ (self.now ≡ []) }
    {
        self.lists.is_empty()
    }

    /// The ticks modulo 64 of the letters' times, as a set: bit b is set if some letter has tick b modulo 64.
    pub fn mask(&self) -> u64
        ensures { (b : ℕ) → b < 64 → IsBitSet result b ↔ IsTrue (list_any (in_bucket b) self.now) }
    {
        self.mask.bits
    }

    /// Whether a letter of this rank is there. Only the list of its time is searched, and the search ends at the
    /// first letter that isn't before the rank, since ranks rise there.
    pub fn holds(&self, rank: Rank) -> bool
        ensures { result ≡ holds_rank rank self.now }
    {
        let sought = NotBefore(rank);
        let number = bucket(sought.0);
        if !self.mask.has(number) {
            return false;
        }
        let found = find_in(self.lists.iter(), number, &sought);
        has_rank(found, sought.0)
    }

    /// Puts a letter in front of the first one of greater rank, or last if there is none. No letter of its rank may
    /// be there, which [`Pending::holds`] tells.
    pub fn insert(&mut self, letter: Parcel<Letter<P>>)
        requires { holds_rank letter.event.rank self.old ≡ false }
        ensures letters { self.new ≡ insert_letter letter self.old }
        ensures rising { IsRising self.new }
    {
        let Ok(()) = self.insert_new(letter) else {
            unreachable!();
        };
    }

    /// Puts a letter in as [`Pending::insert`] does, unless a letter of its rank is there.
    ///
    /// An error means that one is there. It hands the letter back, and the queue is unchanged.
    pub fn insert_new(&mut self, letter: Parcel<Letter<P>>) -> Result<(), Parcel<Letter<P>>>
        ensures letters { IfOk result (λ _. self.new ≡ insert_letter letter self.old) }
        ensures new { IfOk result (λ _. holds_rank letter.event.rank self.old ≡ false) }
        ensures held { IfErr result (λ _. holds_rank letter.event.rank self.old ≡ true) }
        ensures unchanged { IfErr result (λ back. (back ≡ letter) × (self.new ≡ self.old)) }
        ensures rising { IsRising self.new }
    {
        let number = bucket(letter.get().event.rank);
        if let Err(back) = insert_in(self.mask, &mut self.lists, number, letter, self.alloc) {
            return Err(back);
        }
        self.mask = self.mask.with(number);
        self.count = self.count.wrapping_add(1);
        Ok(())
    }

    /// The letter of least rank; None if the queue is empty.
    pub fn least(&self) -> Option<&Letter<P>>
        ensures letter { option_copied result ≡ slice_get self.now 0 }
        ensures rising { IsRising self.now }
    {
        self.lists.front()
    }

    /// Takes out the letter of least rank; None if the queue is empty.
    pub fn take_least(&mut self) -> Option<Parcel<Letter<P>>>
        ensures letters { MatchOption result ((self.old ≡ []) × (self.new ≡ [])) (λ letter. self.old ≡ letter ∷ self.new) }
        ensures rising { IsRising self.new }
    {
        let mut list = self.lists.pop_line()?;
        let letter = list.pop_front()?;
        let number = bucket(letter.get().event.rank);
        self.mask = put_back(self.mask, &mut self.lists, number, list);
        self.count = self.count.wrapping_sub(1);
        Some(letter)
    }

    /// The letter of least rank among those that pass the test; None if none passes.
    pub fn find<T: Predicate<Letter<P>>>(&self, test: &T) -> Option<&Letter<P>>
        ensures { option_copied result ≡ find (T.passes test.now) self.now }
    {
        find_least(self.lists.iter(), test)
    }

    /// The letter of least rank among those of this stamp; None if there is none.
    pub fn find_stamp(&self, stamp: Stamp) -> Option<&Letter<P>>
        ensures { option_copied result ≡ first_of_stamp stamp self.now }
    {
        self.find(&HasStamp(stamp))
    }

    /// Takes out the letter of least rank among those of this stamp. If there is none, the result is None, and the
    /// queue is unchanged.
    pub fn take_stamp(&mut self, stamp: Stamp) -> Option<Parcel<Letter<P>>>
        ensures letter { result ≡ first_of_stamp stamp self.old }
        ensures others { self.new ≡ without_stamp stamp self.old }
        ensures absent { IsNone result ↔ (list_any (has_stamp stamp) self.old ≡ false) }
        ensures unchanged { IfNone result (self.new ≡ self.old) }
        ensures rising { IsRising self.new }
    {
        let number = bucket(self.find_stamp(stamp)?.event.rank);
        let mut list = take_marked(self.mask, &mut self.lists, number, self.alloc);
        let Some(letter) = list.remove_first(&HasStamp(stamp)) else {
            unreachable!();
        };
        self.mask = put_back(self.mask, &mut self.lists, number, list);
        self.count = self.count.wrapping_sub(1);
        Some(letter)
    }
}

// Lets a letter of this stamp pass.
#[derive(Drop)]
struct HasStamp(Stamp);

impl<P> Predicate<Letter<P>> for HasStamp {
    ghost use Rattle.vt_key.specs.promise.Queues.{has_stamp};

    ghost passes = { λ t letter. has_stamp t.0 letter };

    fn test(&self, letter: &Letter<P>) -> bool {
        letter.event.rank.stamp.is_same(&self.0)
    }
}
