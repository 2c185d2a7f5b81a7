//! The events that are pending, in a calendar and a heap.

ghost use Rattle.std.specs.Prelude.{◌≡◌, ◌+◌, ◌<◌, ◌≤◌, ◌++◌, [], ◌∷◌, false, length, drop, slice_get, slice_index_or, IfOk, IfErr, IfSome, IfNone, IsTrue, Some};
ghost use Rattle.std.specs.BinaryHeap.{heap_items, heap_len, heap_capacity};
ghost use Rattle.std.specs.List.Sorted.{IsPermutation};
ghost use Rattle.vt_key.specs.declared.fault.Fault.TheVariants.{Memory};
ghost use Rattle.vt_key.specs.promise.Times.{ticks_of};
ghost use Rattle.vt_seq.specs.inside.Queue.{all_inserted, HaveNewKeys};
ghost use Rattle.vt_seq.specs.inside.Entries.{in_order, IsLeastEntry, IsQueue};
ghost use Rattle.vt_seq.specs.inside.Days.{day_of, calendar_entries, NoneWithoutPresent};

use crate::calendar::Calendar;
use crate::entry::Entry;
use std::alloc::Global;
use std::collections::BinaryHeap;
use std::marker::Model;
use vt_key::Fault;
use vt_model::Sent;

/// The events that were sent and not yet executed: those of the near days in a calendar, and the others in a heap whose top
/// is the event of least key. An event goes into or out of the heap at a cost that grows with the logarithm of how many
/// there are, and in the calendar only the events of one day are put in order.
///
/// Contracts see the events in the order of their keys.
#[derive(Drop)]
pub(crate) struct PendingEvents<P: Copy> {
    calendar: Calendar<P>,
    far: BinaryHeap<Entry<P>>,
}

impl<P: Copy> Model for PendingEvents<P> {
    ghost use Rattle.std.specs.Prelude.{List, ◌++◌};
    ghost use Rattle.std.specs.BinaryHeap.{heap_items};
    ghost use Rattle.vt_model.specs.declared.sending.Sent.{Sent};
    ghost use Rattle.vt_seq.specs.inside.Entries.{in_order, IsQueue};
    ghost use Rattle.vt_seq.specs.inside.Days.{calendar_entries, NoneWithoutPresent};

    ghost Value = { List (Sent P) };

    ghost view = { λ s. in_order (calendar_entries s.calendar.present.items s.calendar.days ++ heap_items s.far) };

    ghost invariant = { λ s. IsQueue (calendar_entries s.calendar.present.items s.calendar.days) (heap_items s.far) × NoneWithoutPresent s.calendar.present.items s.calendar.days };
}

impl<P: Copy> PendingEvents<P> {
    /// No events, of so many processes.
    ///
    /// [`Fault::Memory`]: memory was refused.
    pub(crate) fn new(alloc: Global, lps: u32) -> Result<PendingEvents<P>, Fault>
        ensures empty { IfOk result (λ pending. pending ≡ []) }
        ensures refused { IfErr result (λ fault. fault ≡ Memory) }
    {
        let Ok(calendar) = Calendar::new(alloc, lps) else {
            return Err(Fault::Memory);
        };
        Ok(PendingEvents {
            calendar,
            far: BinaryHeap::new(alloc),
        })
    }

    /// The event of least key.
    pub(crate) fn first(&self) -> Option<Sent<P>>
        ensures { result ≡ slice_get self.now 0 }
    {
        let Some(entry) = first_of(&self.calendar, &self.far) else {
            return None;
        };
        Some(entry.event)
    }

    /// Replaces the first event by what it sent. An event must be pending.
    ///
    /// [`Fault::Memory`]: memory was refused, and nothing changes.
    pub(crate) fn replace_first(&mut self, sends: &[Sent<P>]) -> Result<(), Fault>
        requires some { 0 < length self.old }
        requires new { HaveNewKeys sends.now (drop 1 self.old) }
        ensures events { IfOk result (λ _. self.new ≡ all_inserted sends.now (drop 1 self.old)) }
        ensures unchanged { IfErr result (λ _. self.new ≡ self.old) }
        ensures refused { IfErr result (λ fault. fault ≡ Memory) }
    {
        // The heap takes what the calendar doesn't. So room in the heap is enough.
        let Ok(()) = self.far.reserve(sends.len()) else {
            return Err(Fault::Memory);
        };
        // The top leaves the heap before the sends enter it: to replace it in place would compare twice at each level.
        remove_first(&mut self.calendar, &mut self.far);
        put_all(&mut self.calendar, &mut self.far, sends);
        Ok(())
    }

    /// Inserts events.
    ///
    /// [`Fault::Memory`]: memory was refused, and nothing changes.
    pub(crate) fn insert_all(&mut self, events: &[Sent<P>]) -> Result<(), Fault>
        requires { HaveNewKeys events.now self.old }
        ensures events { IfOk result (λ _. self.new ≡ all_inserted events.now self.old) }
        ensures unchanged { IfErr result (λ _. self.new ≡ self.old) }
        ensures refused { IfErr result (λ fault. fault ≡ Memory) }
    {
        let Ok(()) = self.far.reserve(events.len()) else {
            return Err(Fault::Memory);
        };
        put_all(&mut self.calendar, &mut self.far, events);
        Ok(())
    }
}

/// Whether the heap's top is the first of all events.
fn is_far_first<P: Copy>(calendar: &Calendar<P>, far: &BinaryHeap<Entry<P>>) -> bool
    requires queue { IsQueue (calendar_entries calendar.now.present.items calendar.now.days) (heap_items far.now) }
    requires settled { NoneWithoutPresent calendar.now.present.items calendar.now.days }
    ensures far { IsTrue result → (x : _) → x ≡ slice_index_or (heap_items far.now) 0 x → IsLeastEntry x (calendar_entries calendar.now.present.items calendar.now.days) }
    ensures some { IsTrue result → 0 < heap_len far.now }
    ensures near { result ≡ false → (x : _) → IsLeastEntry x (calendar_entries calendar.now.present.items calendar.now.days) → IsLeastEntry x (heap_items far.now) }
    ensures nothing { result ≡ false → calendar.now.present.items ≡ [] → calendar_entries calendar.now.present.items calendar.now.days ++ heap_items far.now ≡ [] }
{
    let Some(far) = far.peek() else {
        return false;
    };
    let Some(near) = calendar.first() else {
        return true;
    };
    far.event.key.is_before(&near.event.key)
}

/// The entry of least key of all.
// It is one reference, so that the event is copied in one place.
#[inline(always)]
fn first_of<'a, P: Copy>(
    calendar: &'a Calendar<P>,
    far: &'a BinaryHeap<Entry<P>>,
) -> Option<&'a Entry<P>>
    requires queue { IsQueue (calendar_entries calendar.now.present.items calendar.now.days) (heap_items far.now) }
    requires settled { NoneWithoutPresent calendar.now.present.items calendar.now.days }
    ensures among { IfSome result (λ x. (others : _) × IsPermutation (calendar_entries calendar.now.present.items calendar.now.days ++ heap_items far.now) (x.now ∷ others)) }
    ensures least { IfSome result (λ x. IsLeastEntry x.now (calendar_entries calendar.now.present.items calendar.now.days ++ heap_items far.now)) }
    ensures nothing { IfNone result (calendar_entries calendar.now.present.items calendar.now.days ++ heap_items far.now ≡ []) }
{
    if is_far_first(calendar, far) {
        let Some(entry) = far.peek() else {
            unreachable!();
        };
        return Some(entry);
    }
    let Some(entry) = calendar.first() else {
        return None;
    };
    Some(entry)
}

/// Removes the first of all events, which must be there. A calendar that is empty goes on from its tick.
fn remove_first<P: Copy>(calendar: &mut Calendar<P>, far: &mut BinaryHeap<Entry<P>>)
    requires queue { IsQueue (calendar_entries calendar.old.present.items calendar.old.days) (heap_items far.old) }
    requires settled { NoneWithoutPresent calendar.old.present.items calendar.old.days }
    requires some { 0 < length (in_order (calendar_entries calendar.old.present.items calendar.old.days ++ heap_items far.old)) }
    ensures rest { IsQueue (calendar_entries calendar.new.present.items calendar.new.days) (heap_items far.new) × (in_order (calendar_entries calendar.new.present.items calendar.new.days ++ heap_items far.new) ≡ drop 1 (in_order (calendar_entries calendar.old.present.items calendar.old.days ++ heap_items far.old))) }
    ensures moved { calendar.old.present.items ≡ [] → (d : _) → slice_get (in_order (calendar_entries calendar.old.present.items calendar.old.days ++ heap_items far.old)) 0 ≡ Some d → (calendar.new.base ≡ day_of calendar.new.scale (ticks_of d.key.time)) × (calendar.new.next ≡ 0) }
    ensures stays { (calendar.old.present.items ≡ [] → ⊥) → (calendar.new.scale ≡ calendar.old.scale) × (calendar.new.base ≡ calendar.old.base) × (calendar.new.next ≡ calendar.old.next) }
    ensures capacity { heap_capacity far.new ≡ heap_capacity far.old }
    ensures len { heap_len far.new ≤ heap_len far.old }
{
    if !is_far_first(calendar, far) {
        let Some(_) = calendar.remove_first() else {
            unreachable!();
        };
        return;
    }
    let Some(entry) = far.pop() else {
        unreachable!();
    };
    calendar.move_to(entry.event.key.when().ticks());
}

/// Puts events into the calendar, and those that it doesn't take into the heap, where there must be room for all.
// It is done once for each event.
#[inline(always)]
fn put_all<P: Copy>(calendar: &mut Calendar<P>, far: &mut BinaryHeap<Entry<P>>, events: &[Sent<P>])
    requires room { heap_len far.old + length events.now ≤ heap_capacity far.old }
    requires queue { IsQueue (calendar_entries calendar.old.present.items calendar.old.days) (heap_items far.old) }
    requires new { HaveNewKeys events.now (in_order (calendar_entries calendar.old.present.items calendar.old.days ++ heap_items far.old)) }
    ensures events { in_order (calendar_entries calendar.new.present.items calendar.new.days ++ heap_items far.new) ≡ all_inserted events.now (in_order (calendar_entries calendar.old.present.items calendar.old.days ++ heap_items far.old)) }
    ensures queue { IsQueue (calendar_entries calendar.new.present.items calendar.new.days) (heap_items far.new) }
    ensures settled { NoneWithoutPresent calendar.new.present.items calendar.new.days }
    ensures base { (calendar.new.scale ≡ calendar.old.scale) × (calendar.new.base ≡ calendar.old.base) }
{
    for event in events {
        if calendar.put(event).is_err() {
            let Ok(()) = far.push(Entry { event: *event }) else {
                unreachable!();
            };
        }
    }
    calendar.settle();
}
