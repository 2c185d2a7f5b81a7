//! The log.

ghost use Rattle.std.specs.Prelude.{◌≡◌, ◌<◌, ◌≤◌, [], ◌∷◌, ◌++◌, true, not, length, MatchOption, Some, None, IfOk, IfErr};
ghost use Rattle.std.specs.Option.{option_map};
ghost use Rattle.std.specs.List.{filter, list_any};
ghost use Rattle.vt_key.specs.declared.fault.Fault.TheVariants.{Memory};
ghost use Rattle.vt_model.specs.declared.limits.TheConstants.{MAX_RECORDS, MAX_SENDS};
ghost use Rattle.vt_logs.specs.inside.Events.{is_stamped, is_above, all_nodes, last_of, Logged, without_last, rows_below, AreInOrder};

use crate::entry::Entry;
use crate::shelf::Shelf;
use crate::slot::{NOWHERE, Position, Slot};
use std::alloc::Global;
use std::marker::Model;
use vt_key::{Fault, Stamp, When};
use vt_model::{Record, Row, Sent};

/// The past events of a worker's processes, in the order in which the worker executed them. Processes are named by their indexes among the
/// worker's.
///
/// Contracts see the list of them, the number of processes, and whether there is room for one event more (`HeldLog`). Each entry knows
/// where the one before it of its process lies, so that an undo finds that without a search.
#[derive(Drop)]
pub struct Log<P: Copy, K: Copy> {
    shelf: Shelf<P, K>,
    // Where the last entry of each process lies. For a process without entries it is a position where no entry of it lies.
    lasts: Vec<Position>,
}

impl<P: Copy, K: Copy> Model for Log<P, K> {
    ghost use Rattle.std.specs.Prelude.{length};
    ghost use Rattle.vt_logs.specs.inside.Events.{HeldLog};

    ghost Value = { HeldLog P K };

    ghost use Rattle.vt_logs.specs.inside.Shelves.{placed_events};
    ghost use Rattle.vt_logs.specs.inside.Chains.{AreChained};

    ghost view = { λ l. record { events = placed_events l.shelf.placed; processes = length l.lasts.items; has_room = l.shelf.has_room } };

    ghost invariant = { λ l. AreChained l.lasts.items l.shelf.placed };
}

impl<P: Copy, K: Copy> Log<P, K> {
    /// The log of so many processes, without events.
    ///
    /// [`Fault::Memory`]: memory was refused.
    pub fn new(alloc: Global, count: u32) -> Result<Log<P, K>, Fault>
        ensures empty { IfOk result (λ log. (log.events ≡ []) × (log.processes ≡ count)) }
        ensures refused { IfErr result (λ fault. fault ≡ Memory) }
    {
        let shelf = Shelf::new(alloc)?;
        let Ok(lasts) = vec![in alloc; NOWHERE; count as usize] else {
            return Err(Fault::Memory);
        };
        Ok(Log { shelf, lasts })
    }

    /// How many nodes the undo of all events takes: one for each event, and one for each event that it sent.
    #[inline(always)]
    pub fn needs(&self) -> usize
        ensures { result ≡ all_nodes self.now.events }
    {
        self.shelf.needs()
    }

    /// Takes room for one event more, of this time.
    ///
    /// [`Fault::Memory`]: memory was refused, or the undo of all events takes too many nodes. No event has changed.
    #[inline(always)]
    pub fn make_room(&mut self, time: When) -> Result<(), Fault>
        ensures same { (self.new.events ≡ self.old.events) × (self.new.processes ≡ self.old.processes) }
        ensures room { IfOk result (λ _. self.new.has_room ≡ true) }
        ensures refused { IfErr result (λ fault. fault ≡ Memory) }
    {
        self.shelf.make_room(time)
    }

    /// Writes an executed event of a process, with what it sent and recorded. There must be room for it.
    #[inline(always)]
    pub fn push(&mut self, process: u32, entry: Entry<P, K>, sends: &[Sent<P>], records: &[Record])
        requires room { self.old.has_room ≡ true }
        requires known { process < self.old.processes }
        requires few_sends { length sends.now ≤ MAX_SENDS }
        requires few_records { length records.now ≤ MAX_RECORDS }
        ensures events { self.new.events ≡ self.old.events ++ record { process = process; entry = entry; sends = sends.now; records = records.now } ∷ [] }
        ensures processes { self.new.processes ≡ self.old.processes }
    {
        let before = self.lasts[process as usize];
        self.lasts[process as usize] = self.shelf.push(process, before, entry, sends, records);
    }

    /// The slot of the last event of a process; None if it has none.
    #[inline(always)]
    fn last_slot(&self, process: u32) -> Option<&Slot<P, K>>
        requires { process < self.now.processes }
        ensures { MatchOption result (last_of process self.now.events ≡ None) (λ slot. (e : Logged P K) × (last_of process self.now.events ≡ Some e) × (slot.now.entry ≡ e.entry)) }
    {
        let Some(slot) = self.shelf.get(self.lasts[process as usize]) else {
            return None;
        };
        if slot.process != process {
            return None;
        }
        Some(slot)
    }

    /// The last event of a process; None if it has none.
    #[inline(always)]
    pub fn last(&self, process: u32) -> Option<&Entry<P, K>>
        requires { process < self.now.processes }
        ensures { MatchOption result (last_of process self.now.events ≡ None) (λ entry. (e : Logged P K) × (last_of process self.now.events ≡ Some e) × (entry.now ≡ e.entry)) }
    {
        match self.last_slot(process) {
            Some(slot) => Some(&slot.entry),
            None => None,
        }
    }

    /// What the last event of a process sent; nothing if it has none.
    pub fn last_sends(&self, process: u32) -> &[Sent<P>]
        requires { process < self.now.processes }
        ensures { MatchOption (last_of process self.now.events) (result.now ≡ []) (λ e. result.now ≡ e.sends) }
    {
        let position = self.lasts[process as usize];
        let Some(slot) = self.shelf.get(position) else {
            return &[];
        };
        if slot.process != process {
            return &[];
        }
        self.shelf.sends_at(position)
    }

    /// Takes the last event of a process out; None, and nothing changes, if it has none.
    pub fn take_last(&mut self, process: u32) -> Option<Entry<P, K>>
        requires { process < self.old.processes }
        ensures taken { result ≡ option_map (λ e. e.entry) (last_of process self.old.events) }
        ensures left { self.new.events ≡ without_last process self.old.events }
        ensures processes { self.new.processes ≡ self.old.processes }
    {
        let position = self.lasts[process as usize];
        let Some(slot) = self.shelf.get(position) else {
            return None;
        };
        if slot.process != process {
            return None;
        }
        let before = slot.before;
        let entry = slot.entry;
        self.shelf.take_out(position);
        self.lasts[process as usize] = before;
        Some(entry)
    }

    /// The rows of the events before a floor, in the order of execution.
    ///
    /// [`Fault::Memory`]: memory was refused.
    pub fn rows(&self, alloc: Global, floor: When) -> Result<Vec<Row>, Fault>
        ensures rows { IfOk result (λ v. v.items ≡ rows_below floor self.now.events) }
        ensures refused { IfErr result (λ fault. fault ≡ Memory) }
    {
        self.shelf.rows(alloc, floor)
    }

    /// Forgets the events before a floor, which are committed. The times of each process's events must rise, as they do where an event that
    /// is before another one is executed only after the undo of that.
    pub fn forget(&mut self, floor: When)
        requires { AreInOrder self.old.events }
        ensures events { self.new.events ≡ filter (is_above floor) self.old.events }
        ensures processes { self.new.processes ≡ self.old.processes }
    {
        self.shelf.forget(floor);
    }

    /// Whether an event has this stamp. It looks at each.
    pub fn has_stamp(&self, stamp: &Stamp) -> bool
        ensures { result ≡ list_any (is_stamped stamp.now) self.now.events }
    {
        self.shelf.has_stamp(stamp)
    }
}
