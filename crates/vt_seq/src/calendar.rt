//! A calendar of pending events.

ghost use Rattle.std.specs.Prelude.{◌≡◌, ◌+◌, ◌<◌, ◌≤◌, ◌∷◌, [], IfOk, IfErr, IfSome, IfNone, Err};
ghost use Rattle.std.specs.List.Sorted.{IsPermutation};
ghost use Rattle.vt_key.specs.declared.fault.Fault.TheVariants.{Memory, NotLawful};
ghost use Rattle.vt_key.specs.promise.Times.{ticks_of};
ghost use Rattle.vt_seq.specs.declared.fit.TheConstants.{MOST_SCALE};
ghost use Rattle.vt_seq.specs.inside.Entries.{IsFalling, IsFalling-prop, IsLeastEntry};
ghost use Rattle.vt_seq.specs.inside.Days.{day_of, calendar_entries, AreDated, AreJustBefore, IsNear, NoneWithoutPresent};

use crate::days::Days;
use crate::entry::Entry;
use crate::fit::{Fit, MOST_SCALE};
use crate::sorter::Sorter;
use std::alloc::Global;
use vt_key::Fault;
use vt_model::Sent;

/// Pending events of a window of days: those of the present day in order, the first one last, and a list without order for
/// each later day. A day's events are put in order when it becomes the present one. A day has one tick at first. When the window begins
/// anew, its days become longer if many events came too late for it, and shorter if many came too soon.
#[derive(Drop)]
pub(crate) struct Calendar<P: Copy> {
    /// A day has two to the power of this many ticks.
    scale: u32,
    /// The first day of the window: its first tick by the ticks of a day.
    base: u64,
    /// The day after the present one, counted from the window's first.
    next: usize,
    present: Vec<Entry<P>>,
    days: Days<P>,
    sorter: Sorter,
    fit: Fit,
    ghost scaled: { scale ≤ MOST_SCALE },
    ghost falling: { IsFalling present.items } by { IsFalling-prop present.items },
    ghost just_past: { AreJustBefore scale (base + next) present.items },
    ghost dated: { AreDated scale base next days },
}

impl<P: Copy> Calendar<P> {
    /// A calendar without events, for so many processes.
    ///
    /// [`Fault::Memory`]: memory was refused.
    pub(crate) fn new(alloc: Global, lps: u32) -> Result<Calendar<P>, Fault>
        ensures empty { IfOk result (λ calendar. calendar_entries calendar.present.items calendar.days ≡ []) }
        ensures window { IfOk result (λ calendar. (calendar.base ≡ 0) × (calendar.next ≡ 0)) }
        ensures refused { IfErr result (λ fault. fault ≡ Memory) }
    {
        let Ok(days) = Days::new(alloc) else {
            return Err(Fault::Memory);
        };
        let Ok(sorter) = Sorter::new(alloc, lps) else {
            return Err(Fault::Memory);
        };
        Ok(Calendar {
            scale: 0,
            base: 0,
            next: 0,
            present: Vec::new(alloc),
            days,
            sorter,
            fit: Fit::new(),
        })
    }

    /// The entry of least key.
    pub(crate) fn first(&self) -> Option<&Entry<P>>
        ensures among { IfSome result (λ x. (others : _) × IsPermutation (calendar_entries self.now.present.items self.now.days) (x.now ∷ others)) }
        ensures least { IfSome result (λ x. IsLeastEntry x.now (calendar_entries self.now.present.items self.now.days)) }
        ensures nothing { IfNone result (self.now.present.items ≡ []) }
    {
        let count = self.present.len();
        if count == 0 {
            return None;
        }
        Some(&self.present[count - 1])
    }

    /// Removes the entry of least key.
    pub(crate) fn remove_first(&mut self) -> Option<Entry<P>>
        ensures rest { IfSome result (λ x. IsPermutation (calendar_entries self.old.present.items self.old.days) (x ∷ calendar_entries self.new.present.items self.new.days)) }
        ensures least { IfSome result (λ x. IsLeastEntry x (calendar_entries self.old.present.items self.old.days)) }
        ensures nothing { IfNone result (self.old.present.items ≡ []) }
        ensures window { (self.new.scale ≡ self.old.scale) × (self.new.base ≡ self.old.base) × (self.new.next ≡ self.old.next) }
    {
        if self.present.is_empty() {
            return None;
        }
        let Some(entry) = self.present.pop() else {
            unreachable!();
        };
        Some(entry)
    }

    /// Puts an event into its day, which must be a later one of the window.
    ///
    /// [`Fault::NotLawful`]: its day isn't one. [`Fault::Memory`]: it is, and memory was refused. After either no event has
    /// changed.
    // It is done once for each event.
    #[inline(always)]
    pub(crate) fn put(&mut self, event: &Sent<P>) -> Result<(), Fault>
        ensures put { IfOk result (λ _. IsPermutation (record { event = event.now } ∷ calendar_entries self.old.present.items self.old.days) (calendar_entries self.new.present.items self.new.days)) }
        ensures kept { IfErr result (λ fault. calendar_entries self.new.present.items self.new.days ≡ calendar_entries self.old.present.items self.old.days) }
        ensures not_lawful { (IsNear self.old.base self.old.next (day_of self.old.scale (ticks_of event.now.key.time)) → ⊥) → result ≡ Err NotLawful }
        ensures refused { IsNear self.old.base self.old.next (day_of self.old.scale (ticks_of event.now.key.time)) → IfErr result (λ fault. fault ≡ Memory) }
        ensures window { (self.new.scale ≡ self.old.scale) × (self.new.base ≡ self.old.base) × (self.new.next ≡ self.old.next) }
    {
        let day = day_of(event.key.when().ticks(), self.scale);
        if day < self.base {
            self.fit.count_soon();
            return Err(Fault::NotLawful);
        }
        let day = (day - self.base) as usize;
        if day < self.next {
            self.fit.count_soon();
            return Err(Fault::NotLawful);
        }
        match self.days.put(day, event) {
            Ok(()) => Ok(()),
            Err(fault) => {
                self.fit.count_late();
                Err(fault)
            }
        }
    }

    /// Makes the first day that has an event the present one, if that has none.
    #[inline(always)]
    pub(crate) fn settle(&mut self)
        ensures same { IsPermutation (calendar_entries self.old.present.items self.old.days) (calendar_entries self.new.present.items self.new.days) }
        ensures settled { NoneWithoutPresent self.new.present.items self.new.days }
        ensures base { (self.new.scale ≡ self.old.scale) × (self.new.base ≡ self.old.base) }
        ensures next { self.new.present.items ≡ [] → self.new.next ≡ self.old.next }
    {
        if self.present.is_empty() {
            self.open();
        }
    }

    /// Makes the first day that has an event the present one, which must have none.
    fn open(&mut self)
        requires { self.old.present.items ≡ [] }
        ensures same { IsPermutation (calendar_entries self.old.present.items self.old.days) (calendar_entries self.new.present.items self.new.days) }
        ensures settled { NoneWithoutPresent self.new.present.items self.new.days }
        ensures base { (self.new.scale ≡ self.old.scale) × (self.new.base ≡ self.old.base) }
        ensures next { self.new.present.items ≡ [] → self.new.next ≡ self.old.next }
    {
        if let Some(day) = self.days.take_first(&mut self.present) {
            self.next = day + 1;
            self.fit.count_taken(self.present.len());
            self.sorter.sort(&mut self.present);
        }
    }

    /// Lets the window begin with the day of a tick, if there is no event.
    pub(crate) fn move_to(&mut self, tick: u64)
        requires { NoneWithoutPresent self.old.present.items self.old.days }
        ensures same { calendar_entries self.new.present.items self.new.days ≡ calendar_entries self.old.present.items self.old.days }
        ensures moved { self.old.present.items ≡ [] → (self.new.base ≡ day_of self.new.scale tick) × (self.new.next ≡ 0) }
        ensures stays { (self.old.present.items ≡ [] → ⊥) → (self.new.scale ≡ self.old.scale) × (self.new.base ≡ self.old.base) × (self.new.next ≡ self.old.next) }
    {
        if self.present.is_empty() {
            self.scale = self.fit.better_scale(self.scale);
            self.base = day_of(tick, self.scale);
            self.next = 0;
        }
    }
}

/// The day of a tick, where a day has two to the power of `scale` ticks.
fn day_of(tick: u64, scale: u32) -> u64
    requires { scale ≤ MOST_SCALE }
    ensures { result ≡ day_of scale tick }
{
    tick >> scale
}
