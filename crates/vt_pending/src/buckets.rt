//! Lists of letters: the 64 buckets by time.

ghost use Rattle.std.specs.Prelude.{◌≡◌, ◌≢◌, ℕ, ◌<◌, ◌↔◌, [], None, false, true, find, nat_eq, IfErr, IfOk, IsBitSet};
ghost use Rattle.std.specs.Option.{option_copied};
ghost use Rattle.vt_key.specs.promise.Order.{rank_before};
ghost use Rattle.vt_key.specs.promise.Queues.{insert_letter};
ghost use Rattle.vt_key.specs.inside.Queues.{holds_rank, IsRising};
ghost use Rattle.vt_pending.specs.inside.Letters.{some_has_rank, reached_has};
ghost use Rattle.vt_pending.specs.inside.Buckets.{bucket_of, some_in_bucket, both_before, lesser, least_from, list_at, without_list, first_holds, insert_here, insert_in, put_list, put_some, letters_of, AreLists};

use crate::mask::Mask;
use std::alloc::Global;
use vt_key::{Letter, Rank};
use vt_list::{IterLines, Line, Lines, Parcel, Predicate};

/// The number of the list that holds letters of this rank: the tick of their time modulo 64.
pub(crate) fn bucket(rank: Rank) -> u32
    ensures value { result ≡ bucket_of rank }
    ensures within { result < 64 }
{
    (rank.key.when().ticks() % 64) as u32
}

/// Whether there is a letter, and it has this rank.
pub(crate) fn has_rank<P: Copy>(letter: Option<&Letter<P>>, rank: Rank) -> bool
    ensures { result ≡ some_has_rank rank (option_copied letter.entry) }
{
    match letter {
        Some(letter) => letter.event.rank.is_same(&rank),
        None => false,
    }
}

/// Whether there is a letter, and it belongs in list `number`.
fn is_in<P: Copy>(letter: Option<&Letter<P>>, number: u32) -> bool
    ensures { result ≡ some_in_bucket number (option_copied letter.entry) }
{
    let Some(letter) = letter else {
        return false;
    };
    bucket(letter.event.rank) == number
}

/// Whether there are two letters, and the first is before the second.
fn is_before<P: Copy>(letter: Option<&Letter<P>>, other: Option<&Letter<P>>) -> bool
    ensures { result ≡ both_before (option_copied letter.entry) (option_copied other.entry) }
{
    match (letter, other) {
        (Some(letter), Some(other)) => letter.event.rank.is_before(&other.event.rank),
        _ => false,
    }
}

/// Takes list `number` out. If it isn't there, the result is empty.
pub(crate) fn take_list<P: Copy>(
    lists: &mut Lines<Letter<P>>,
    number: u32,
    alloc: Global,
) -> Line<Letter<P>>
    ensures list { result ≡ list_at number lists.old }
    ensures others { lists.new ≡ without_list number lists.old }
{
    let Some(list) = lists.pop_line() else {
        return Line::new(alloc);
    };
    if is_in(list.front(), number) {
        return list;
    }
    let found = take_list(lists, number, alloc);
    lists.push_line(list);
    found
}

/// Puts a list, which isn't empty, among the others: behind the lists whose first letters are before its first one.
pub(crate) fn put_list<P: Copy>(lists: &mut Lines<Letter<P>>, list: Line<Letter<P>>)
    requires { list ≢ [] }
    ensures { lists.new ≡ put_list list lists.old }
{
    let Some(first) = list.front() else {
        unreachable!();
    };
    let passed = lists.pass(&NotBefore(first.event.rank));
    lists.push_line(list);
    lists.join(passed);
}

/// Takes list `number` out. If the mask says that it isn't there, the result is empty, and no list is read.
pub(crate) fn take_marked<P: Copy>(
    mask: Mask,
    lists: &mut Lines<Letter<P>>,
    number: u32,
    alloc: Global,
) -> Line<Letter<P>>
    requires within { number < 64 }
    requires marked { (IsBitSet mask.bits number → ⊥) → list_at number lists.old ≡ [] }
    ensures list { result ≡ list_at number lists.old }
    ensures others { lists.new ≡ without_list number lists.old }
{
    if !mask.has(number) {
        return Line::new(alloc);
    }
    take_list(lists, number, alloc)
}

/// Puts a letter into its list, `number`, and that list behind those whose first letters are before its first one.
///
/// An error means that a letter of its rank is there. It hands the letter back, and the lists are unchanged.
pub(crate) fn insert_in<P: Copy>(
    mask: Mask,
    lists: &mut Lines<Letter<P>>,
    number: u32,
    letter: Parcel<Letter<P>>,
    alloc: Global,
) -> Result<(), Parcel<Letter<P>>>
    requires own { number ≡ bucket_of letter.event.rank }
    requires within { number < 64 }
    requires marked { (IsBitSet mask.bits number → ⊥) → list_at number lists.old ≡ [] }
    requires listed { AreLists lists.old (letters_of lists.old) × IsRising (letters_of lists.old) }
    ensures put { IfOk result (λ _. lists.new ≡ insert_in number letter lists.old) }
    ensures new { IfOk result (λ _. holds_rank letter.event.rank (letters_of lists.old) ≡ false) }
    ensures held { IfErr result (λ _. holds_rank letter.event.rank (letters_of lists.old) ≡ true) }
    ensures unchanged { IfErr result (λ back. (back ≡ letter) × (lists.new ≡ lists.old)) }
{
    let passed = lists.pass(&OwnOrNotBefore(letter.get().event.rank));
    let put = insert_here(mask, lists, number, letter, alloc);
    lists.join(passed);
    put
}

/// Puts a letter into list `number` if that is the first one. Else it becomes the first letter of that list, which then
/// is the first one.
///
/// An error means that a letter of its rank is in the first list. It hands the letter back, and the lists are
/// unchanged.
fn insert_here<P: Copy>(
    mask: Mask,
    lists: &mut Lines<Letter<P>>,
    number: u32,
    letter: Parcel<Letter<P>>,
    alloc: Global,
) -> Result<(), Parcel<Letter<P>>>
    requires within { number < 64 }
    requires marked { (IsBitSet mask.bits number → ⊥) → list_at number lists.old ≡ [] }
    ensures put { IfOk result (λ _. lists.new ≡ insert_here number letter lists.old) }
    ensures new { IfOk result (λ _. first_holds number letter.event.rank lists.old ≡ false) }
    ensures held { IfErr result (λ _. first_holds number letter.event.rank lists.old ≡ true) }
    ensures unchanged { IfErr result (λ back. (back ≡ letter) × (lists.new ≡ lists.old)) }
{
    if is_in(lists.front(), number) {
        let Some(mut list) = lists.pop_line() else {
            unreachable!();
        };
        let put = put_new(&mut list, letter);
        lists.push_line(list);
        return put;
    }
    let mut own = take_marked(mask, lists, number, alloc);
    own.push_front(letter);
    lists.push_line(own);
    Ok(())
}

/// Puts a letter into a list of letters in rising rank.
///
/// An error means that a letter of its rank is there. It hands the letter back, and the list is unchanged.
fn put_new<P: Copy>(
    list: &mut Line<Letter<P>>,
    letter: Parcel<Letter<P>>,
) -> Result<(), Parcel<Letter<P>>>
    ensures put { IfOk result (λ _. list.new ≡ insert_letter letter list.old) }
    ensures new { IfOk result (λ _. reached_has letter.event.rank list.old ≡ false) }
    ensures held { IfErr result (λ _. reached_has letter.event.rank list.old ≡ true) }
    ensures unchanged { IfErr result (λ back. (back ≡ letter) × (list.new ≡ list.old)) }
{
    let not_before = NotBefore(letter.get().event.rank);
    let passed = list.pass(&not_before);
    if has_rank(list.front(), not_before.0) {
        list.join(passed);
        return Err(letter);
    }
    list.push_front(letter);
    list.join(passed);
    Ok(())
}

/// Lets a letter pass that belongs in the list of this rank, or isn't before this rank. Letters of other lists have
/// other ticks, so the ticks alone tell their order.
#[derive(Drop)]
struct OwnOrNotBefore(Rank);

impl<P> Predicate<Letter<P>> for OwnOrNotBefore {
    ghost use Rattle.vt_pending.specs.inside.Buckets.{own_or_not_before};

    ghost passes = { λ t letter. own_or_not_before t.0 letter };

    fn test(&self, letter: &Letter<P>) -> bool {
        bucket(letter.event.rank) == bucket(self.0) || !is_earlier(&letter.event.rank, &self.0)
    }
}

/// Whether the tick of a rank is below that of another, in another list.
fn is_earlier(rank: &Rank, other: &Rank) -> bool
    ensures { nat_eq (bucket_of rank.now) (bucket_of other.now) ≡ false → result ≡ rank_before rank.now other.now }
{
    rank.key.when().ticks() < other.key.when().ticks()
}

/// Lets a letter pass that isn't before this rank.
#[derive(Drop)]
pub(crate) struct NotBefore(pub(crate) Rank);

impl<P> Predicate<Letter<P>> for NotBefore {
    ghost use Rattle.vt_pending.specs.inside.Letters.{is_reached};

    ghost passes = { λ t letter. is_reached t.0 letter };

    fn test(&self, letter: &Letter<P>) -> bool {
        !letter.event.rank.is_before(&self.0)
    }
}

/// Puts back what is left of list `number`, and returns the mask afterwards.
pub(crate) fn put_back<P: Copy>(
    mask: Mask,
    lists: &mut Lines<Letter<P>>,
    number: u32,
    list: Line<Letter<P>>,
) -> Mask
    requires within { number < 64 }
    requires marked { IsBitSet mask.bits number }
    ensures lists { lists.new ≡ put_some list lists.old }
    ensures bit { IsBitSet result.bits number ↔ (list ≢ []) }
    ensures others { (c : ℕ) → c ≢ number → IsBitSet result.bits c ↔ IsBitSet mask.bits c }
{
    if list.is_empty() {
        return mask.without(number);
    }
    put_list(lists, list);
    mask
}

/// The first letter of list `number` that passes the test; None if none passes.
pub(crate) fn find_in<'a, P: Copy, T: Predicate<Letter<P>>>(
    lists: IterLines<'a, Letter<P>>,
    number: u32,
    test: &T,
) -> Option<&'a Letter<P>>
    ensures { option_copied result ≡ find (T.passes test.now) (list_at number lists.entry) }
{
    for list in lists {
        if is_in(list.peek(), number) {
            return list.first_passing(test);
        }
    }
    None
}

/// The letter of least rank among those that pass the test, in lists that stand in the order of their first letters.
/// The search ends at the first list that begins behind the letter found so far.
pub(crate) fn find_least<'a, P: Copy, T: Predicate<Letter<P>>>(
    lists: IterLines<'a, Letter<P>>,
    test: &T,
) -> Option<&'a Letter<P>>
    ensures { option_copied result ≡ least_from (T.passes test.now) None lists.entry }
{
    let mut found = None;
    for list in lists {
        if is_before(found, list.peek()) {
            return found;
        }
        found = earlier(found, list.first_passing(test));
    }
    found
}

/// The letter of lesser rank; if only one is there, that one.
fn earlier<'a, P: Copy>(
    letter: Option<&'a Letter<P>>,
    other: Option<&'a Letter<P>>,
) -> Option<&'a Letter<P>>
    ensures { option_copied result ≡ lesser (option_copied letter.entry) (option_copied other.entry) }
{
    match (letter, other) {
        (Some(first), Some(second)) => {
            if second.event.rank.is_before(&first.event.rank) {
                Some(second)
            } else {
                Some(first)
            }
        }
        (None, found) => found,
        (found, None) => found,
    }
}
