//! Events by days.

ghost use Rattle.std.specs.Prelude.{◌≡◌, ◌+◌, ◌-◌, ◌<◌, ◌≤◌, ◌^◌, [], ◌∷◌, ◌++◌, if◌then◌else◌, is_ok, vec_len, IfOk, IfErr, IfSome, IfNone, IsTrue, Some, Err};
ghost use Rattle.vt_key.specs.declared.fault.Fault.TheVariants.{Memory, NotLawful};
ghost use Rattle.vt_seq.specs.declared.days.TheConstants.{DAYS};
ghost use Rattle.vt_seq.specs.inside.Days.{entries_of_days, IsPut, IsDayTaken};

use crate::entry::Entry;
use std::alloc::Global;
use std::marker::Model;
use std::mem;
use vt_key::Fault;
use vt_marks::Marks;
use vt_model::Sent;

/// How many days there are.
pub(crate) const DAYS: usize = 1024;

/// Pending events in lists, one for each of 1,024 days. Contracts see a list of entries for each day.
///
/// A list that was emptied serves the next day that needs one.
#[derive(Drop)]
pub(crate) struct Days<P: Copy> {
    alloc: Global,
    days: Vec<Vec<Entry<P>>>,
    marks: Marks,
    spare: Vec<Vec<Entry<P>>>,
    /// Whether it is known that no day has an event, so that nobody has to look at the marks.
    is_clear: bool,
}

impl<P: Copy> Model for Days<P> {
    ghost use Rattle.std.specs.Prelude.{◌≡◌, List, [], IsTrue, map, vec_len};
    ghost use Rattle.vt_seq.specs.declared.days.TheConstants.{DAYS};
    ghost use Rattle.vt_seq.specs.declared.entry.Entry.{Entry};
    ghost use Rattle.vt_seq.specs.inside.Days.{is_used, entries_of_days};

    ghost Value = { List (List (Entry P)) };

    ghost view = { λ s. map (λ list. list.items) s.days.items };

    ghost invariant = { λ s. (s.marks ≡ map is_used (map (λ list. list.items) s.days.items)) × (IsTrue s.is_clear → entries_of_days (map (λ list. list.items) s.days.items) ≡ []) × (vec_len s.days ≡ DAYS) };
}

impl<P: Copy> Days<P> {
    /// Days without events.
    ///
    /// [`Fault::Memory`]: memory was refused.
    pub(crate) fn new(alloc: Global) -> Result<Days<P>, Fault>
        ensures empty { IfOk result (λ days. entries_of_days days ≡ []) }
        ensures refused { IfErr result (λ fault. fault ≡ Memory) }
    {
        let Ok(mut days) = Vec::with_capacity(alloc, DAYS) else {
            return Err(Fault::Memory);
        };
        for _ in 0..DAYS {
            let Ok(()) = days.push(Vec::new(alloc)) else {
                return Err(Fault::Memory);
            };
        }
        let Ok(marks) = Marks::new(alloc, DAYS) else {
            return Err(Fault::Memory);
        };
        Ok(Days {
            alloc,
            days,
            marks,
            spare: Vec::new(alloc),
            is_clear: true,
        })
    }

    /// Puts an event into a day.
    ///
    /// [`Fault::NotLawful`]: there is no such day. [`Fault::Memory`]: there is, and memory was refused. After either nothing
    /// changes.
    // It is done once for each event.
    #[inline(always)]
    pub(crate) fn put(&mut self, day: usize, event: &Sent<P>) -> Result<(), Fault>
        ensures put { IfOk result (λ _. IsPut day (record { event = event.now }) self.old self.new) }
        ensures kept { IfErr result (λ fault. self.new ≡ self.old) }
        ensures not_lawful { DAYS ≤ day → result ≡ Err NotLawful }
        ensures refused { day < DAYS → IfErr result (λ fault. fault ≡ Memory) }
    {
        if day >= self.days.len() {
            return Err(Fault::NotLawful);
        }
        self.is_clear = false;
        if !self.days[day].is_empty() {
            return push(&mut self.days[day], event);
        }
        let mut list = empty_list(&mut self.spare, self.alloc);
        let Ok(()) = push(&mut list, event) else {
            return Err(Fault::Memory);
        };
        self.days[day] = list;
        self.marks.set(day, true);
        Ok(())
    }

    /// Empties the first day that has an event: its entries take the place of what `present` had. None if no day has one,
    /// which changes nothing.
    pub(crate) fn take_first(&mut self, present: &mut Vec<Entry<P>>) -> Option<usize>
        ensures taken { IfSome result (λ day. IsDayTaken day present.new.items self.old self.new) }
        ensures bound { IfSome result (λ day. day + 1 < 2 ^ 64) }
        ensures nothing { IfNone result (entries_of_days self.old ≡ []) }
        ensures kept { IfNone result (self.new ≡ self.old) }
        ensures present_kept { IfNone result (present.new.items ≡ present.old.items) }
    {
        if self.is_clear {
            return None;
        }
        let Some(day) = self.marks.first_from(0) else {
            self.is_clear = true;
            return None;
        };
        let list = mem::replace(&mut self.days[day], Vec::new(self.alloc));
        self.marks.set(day, false);
        let _ = self.spare.push(mem::replace(present, list));
        Some(day)
    }
}

/// Puts an event behind others.
///
/// [`Fault::Memory`]: memory was refused, and nothing changes.
#[inline(always)]
fn push<P: Copy>(list: &mut Vec<Entry<P>>, event: &Sent<P>) -> Result<(), Fault>
    ensures items { list.new.items ≡ (if is_ok result then list.old.items ++ record { event = event.now } ∷ [] else list.old.items) }
    ensures refused { IfErr result (λ fault. fault ≡ Memory) }
{
    if list.len() >= list.capacity() {
        return push_growing(list, event);
    }
    let Ok(()) = list.push(Entry { event: *event }) else {
        return Err(Fault::Memory);
    };
    Ok(())
}

/// As [`push`], where there is no room yet.
#[cold]
#[inline(never)]
fn push_growing<P: Copy>(list: &mut Vec<Entry<P>>, event: &Sent<P>) -> Result<(), Fault>
    ensures items { list.new.items ≡ (if is_ok result then list.old.items ++ record { event = event.now } ∷ [] else list.old.items) }
    ensures refused { IfErr result (λ fault. fault ≡ Memory) }
{
    let Ok(()) = list.push(Entry { event: *event }) else {
        return Err(Fault::Memory);
    };
    Ok(())
}

/// An empty list: a spare one, or a new one where there is none.
fn empty_list<P: Copy>(spare: &mut Vec<Vec<Entry<P>>>, alloc: Global) -> Vec<Entry<P>>
    ensures empty { result.items ≡ [] }
    ensures spare { vec_len spare.new ≡ vec_len spare.old - 1 }
{
    let Some(mut list) = spare.pop() else {
        return Vec::new(alloc);
    };
    list.clear();
    list
}
