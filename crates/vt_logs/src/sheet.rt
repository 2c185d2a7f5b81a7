//! Entries that were executed one after the other.

ghost use Rattle.std.specs.Prelude.{◌≡◌, ◌+◌, ◌^◌, ◌<◌, ◌≤◌, [], ◌∷◌, ◌++◌, true, false, not, map, length, nat_eq, MatchOption, IfOk, IfErr, IfSome, IfNone, IsTrue, ◌↔◌, List};
ghost use Rattle.std.specs.Vec.{vec_len, vec_capacity};
ghost use Rattle.std.specs.List.{filter, flat_map, list_any, sum_by, AllByRecursion};
ghost use Rattle.vt_key.specs.declared.fault.Fault.TheVariants.{Memory};
ghost use Rattle.vt_logs.specs.inside.Sheets.{Noted, NonePasses, PassesAlone, IsSlotOf, is_at, is_elsewhere, stays, nodes_at, is_blank, noted_event, events_in, range_of, has_slot_stamp, slot_rows};
ghost use Rattle.vt_logs.specs.inside.Events.{is_stamped, rows_below};
ghost use Rattle.vt_model.specs.promise.Simulation.{rows_of};

use crate::entry::Entry;
use crate::slot::{Position, Slot};
use std::alloc::Global;
use std::marker::Model;
use vt_key::{Fault, Key, Stamp, When};
use vt_model::{MAX_RECORDS, MAX_SENDS, Record, Row, Sent};

/// A sheet with so many entries takes a further one only where all have the same time.
const FEW: usize = 32;

/// The most entries of a sheet.
const MOST: usize = 65_536;

/// A sheet with so many sends, or so many records, takes no further entry. So their indexes have 32 bits.
const MOST_PARTS: usize = 4_000_000_000;

/// Entries, what they sent, and what they recorded.
///
/// Contracts see the entries that aren't gone, each with its index (`Page`).
#[derive(Drop)]
pub(crate) struct Sheet<P: Copy, K: Copy> {
    slots: Vec<Slot<P, K>>,
    sends: Vec<Sent<P>>,
    records: Vec<Record>,
    // No entry is before the earliest time, nor after the latest one. Where no entry was written, the earliest is after the latest.
    earliest: When,
    latest: When,
    // How many nodes the undo of all entries takes.
    needs: usize,
    // Whether the next entry has room.
    has_room: bool,
}

impl<P: Copy, K: Copy> Model for Sheet<P, K> {
    ghost use Rattle.std.specs.Prelude.{◌≡◌, true};
    ghost use Rattle.std.specs.Vec.{vec_len, vec_capacity};
    ghost use Rattle.vt_logs.specs.inside.Sheets.{Page};

    ghost Value = { Page P K };

    ghost use Rattle.vt_logs.specs.inside.Sheets.{live_in, IsSheet, IsRoomy};

    ghost view = { λ s. record { live = live_in s.sends.items s.records.items s.slots.items; has_room = s.has_room } };

    ghost invariant = { λ s. IsSheet s.slots.items s.sends.items s.records.items s.earliest s.latest s.needs
        × (s.has_room ≡ true → IsRoomy (vec_len s.slots) (vec_capacity s.slots) (vec_len s.sends) (vec_capacity s.sends) (vec_len s.records) (vec_capacity s.records)) };
}

impl<P: Copy, K: Copy> Sheet<P, K> {
    /// A sheet without entries. It takes no memory.
    pub(crate) fn new(alloc: Global) -> Sheet<P, K>
        ensures { result ≡ record { live = []; has_room = false } }
    {
        Sheet {
            slots: Vec::new(alloc),
            sends: Vec::new(alloc),
            records: Vec::new(alloc),
            earliest: When::new(u64::MAX, u8::MAX),
            latest: When::tick(0),
            needs: 0,
            has_room: false,
        }
    }

    /// Whether an event of this time is written here: all entries have that time, or they are few.
    #[inline(always)]
    pub(crate) fn takes(&self, time: When) -> bool {
        let is_of_one_time = time == self.latest && time == self.earliest;
        let most = if is_of_one_time { MOST } else { FEW };
        self.slots.len() < most && self.sends.len() < MOST_PARTS && self.records.len() < MOST_PARTS
    }

    /// Whether no entry is left.
    pub(crate) fn is_empty(&self) -> bool
        ensures { result ≡ is_blank self.now }
    {
        self.needs == 0
    }

    /// Takes room for one entry more.
    ///
    /// [`Fault::Memory`]: memory was refused, or the sheet is full. No entry has changed.
    #[inline(always)]
    pub(crate) fn make_room(&mut self) -> Result<(), Fault>
        ensures same { self.new.live ≡ self.old.live }
        ensures room { IfOk result (λ _. self.new.has_room ≡ true) }
        ensures refused { IfErr result (λ fault. fault ≡ Memory) }
    {
        self.has_room = false;
        if self.slots.len() >= MOST
            || self.sends.len() >= MOST_PARTS
            || self.records.len() >= MOST_PARTS
        {
            return Err(Fault::Memory);
        }
        let Ok(()) = self.slots.reserve(1) else {
            return Err(Fault::Memory);
        };
        let Ok(()) = self.sends.reserve(MAX_SENDS) else {
            return Err(Fault::Memory);
        };
        let Ok(()) = self.records.reserve(MAX_RECORDS) else {
            return Err(Fault::Memory);
        };
        self.has_room = true;
        Ok(())
    }

    /// How many nodes the undo of all entries takes.
    pub(crate) fn needs(&self) -> usize
        ensures { result ≡ sum_by nodes_at self.now.live }
    {
        self.needs
    }

    /// Writes an entry, with what it sent and recorded, and returns its index. There must be room for it.
    #[inline(always)]
    pub(crate) fn write(
        &mut self,
        process: u32,
        before: Position,
        entry: Entry<P, K>,
        sends: &[Sent<P>],
        records: &[Record],
    ) -> u32
        requires room { self.old.has_room ≡ true }
        requires few_sends { length sends.now ≤ MAX_SENDS }
        requires few_records { length records.now ≤ MAX_RECORDS }
        requires few_nodes { sum_by nodes_at self.old.live ≤ 2 ^ 62 }
        ensures { self.new ≡ record { live = self.old.live ++ (result, noted_event process before entry sends.now records.now) ∷ []; has_room = false } }
    {
        let time = entry.event.rank.key.when();
        self.has_room = false;
        self.needs += 1 + sends.len();
        self.earliest = self.earliest.earlier(time);
        self.latest = later(self.latest, time);
        let index = self.slots.len() as u32;
        self.slots.push_reserved(Slot {
            entry,
            before,
            process,
            first_send: self.sends.len() as u32,
            first_record: self.records.len() as u32,
            send_count: sends.len() as u8,
            record_count: records.len() as u8,
            is_gone: false,
        });
        append(&mut self.sends, sends);
        append(&mut self.records, records);
        index
    }

    /// The slot at an index, if its entry isn't gone.
    #[inline(always)]
    pub(crate) fn get(&self, index: usize) -> Option<&Slot<P, K>>
        ensures { MatchOption result (NonePasses (is_at index) self.now.live) (λ slot. (x : Noted P K) × PassesAlone (is_at index) (index, x) self.now.live × IsSlotOf slot.now x) }
    {
        let Some(slot) = self.slots.get(index) else {
            return None;
        };
        if slot.is_gone {
            return None;
        }
        Some(slot)
    }

    /// What the entry at an index sent; nothing if it is gone.
    pub(crate) fn sends_at(&self, index: usize) -> &[Sent<P>]
        ensures none { NonePasses (is_at index) self.now.live → result.now ≡ [] }
        ensures some { AllByRecursion (λ x. is_at index x ≡ true → result.now ≡ x.1.event.sends) self.now.live }
    {
        let Some(slot) = self.slots.get(index) else {
            return &[];
        };
        if slot.is_gone {
            return &[];
        }
        range(
            self.sends.as_slice(),
            slot.first_send as usize,
            slot.send_count as usize,
        )
    }

    /// Takes the entry at an index out: it is gone then. Entries that are gone at the sheet's end are dropped.
    pub(crate) fn take_out(&mut self, index: usize)
        ensures { self.new ≡ record { live = filter (is_elsewhere index) self.old.live; has_room = false } }
    {
        self.mark(index);
        self.trim();
    }

    /// Marks the entry at an index as one that is gone.
    fn mark(&mut self, index: usize)
        ensures { self.new ≡ record { live = filter (is_elsewhere index) self.old.live; has_room = false } }
    {
        self.has_room = false;
        let Some(slot) = self.slots.get_mut(index) else {
            return;
        };
        if slot.is_gone {
            return;
        }
        slot.is_gone = true;
        let sends = slot.send_count as usize;
        self.needs -= 1 + sends;
    }

    /// Drops the entries at the end that are gone.
    fn trim(&mut self)
        ensures { self.new ≡ record { live = self.old.live; has_room = false } }
    {
        self.has_room = false;
        while let Some(slot) = self.slots.pop() {
            if !slot.is_gone {
                self.slots.push_reserved(slot);
                return;
            }
            self.sends.truncate(slot.first_send as usize);
            self.records.truncate(slot.first_record as usize);
        }
    }

    /// Forgets the entries before a floor.
    pub(crate) fn forget(&mut self, floor: When)
        ensures { self.new ≡ record { live = filter (stays floor) self.old.live; has_room = false } }
    {
        if self.latest < floor {
            self.clear();
        } else if self.earliest < floor {
            self.mark_below(floor);
            self.trim();
            self.begin_at(floor);
        } else {
            self.has_room = false;
        }
    }

    /// Notes that no entry is before a time.
    fn begin_at(&mut self, time: When)
        requires { AllByRecursion (λ x. stays time x ≡ true) self.old.live }
        ensures { self.new ≡ record { live = self.old.live; has_room = false } }
    {
        self.earliest = time;
        self.has_room = false;
    }

    /// Forgets all entries, and keeps their memory.
    pub(crate) fn clear(&mut self)
        ensures { self.new ≡ record { live = []; has_room = false } }
    {
        self.earliest = When::new(u64::MAX, u8::MAX);
        self.latest = When::tick(0);
        self.slots.clear();
        self.sends.clear();
        self.records.clear();
        self.needs = 0;
        self.has_room = false;
    }

    /// Marks the entries before a floor as ones that are gone.
    fn mark_below(&mut self, floor: When)
        ensures { self.new ≡ record { live = filter (stays floor) self.old.live; has_room = false } }
    {
        self.has_room = false;
        for index in 0..self.slots.len() {
            if self.is_below(index, floor) {
                self.mark(index);
            }
        }
    }

    /// Whether the entry at an index is before a floor; false if it is gone.
    fn is_below(&self, index: usize, floor: When) -> bool
        ensures { AllByRecursion (λ x. is_at index x ≡ true → stays floor x ≡ not result) self.now.live }
    {
        match self.get(index) {
            Some(slot) => slot.entry.event.rank.key.when() < floor,
            None => false,
        }
    }

    /// Whether an entry has a stamp. It looks at each.
    pub(crate) fn has_stamp(&self, stamp: &Stamp) -> bool
        ensures { result ≡ list_any (is_stamped stamp.now) (events_in self.now.live) }
    {
        is_any_stamped(self.slots.as_slice(), stamp)
    }

    /// Appends the rows of the entries before a floor. If memory is refused, some may have been appended.
    pub(crate) fn append_rows(&self, floor: When, rows: &mut Vec<Row>) -> Result<(), Fault>
        ensures rows { IfOk result (λ _. rows.new.items ≡ rows.old.items ++ rows_below floor (events_in self.now.live)) }
        ensures refused { IfErr result (λ fault. fault ≡ Memory) }
    {
        if self.earliest >= floor {
            return Ok(());
        }
        append_rows_in(self.slots.as_slice(), self.records.as_slice(), floor, rows)
    }
}

/// Whether an entry has a stamp.
fn is_any_stamped<P: Copy, K: Copy>(slots: &[Slot<P, K>], stamp: &Stamp) -> bool
    ensures { result ≡ list_any (has_slot_stamp stamp.now) slots.now }
{
    for slot in slots {
        if is_stamped(slot, stamp) {
            return true;
        }
    }
    false
}

/// Whether the entry of a slot has a stamp; false if it is gone.
fn is_stamped<P: Copy, K: Copy>(slot: &Slot<P, K>, stamp: &Stamp) -> bool
    ensures { result ≡ has_slot_stamp stamp.now slot.now }
{
    !slot.is_gone && slot.entry.event.rank.stamp.is_same(stamp)
}

/// Appends the rows of the entries before a floor. If memory is refused, some may have been appended.
fn append_rows_in<P: Copy, K: Copy>(
    slots: &[Slot<P, K>],
    records: &[Record],
    floor: When,
    rows: &mut Vec<Row>,
) -> Result<(), Fault>
    requires within { AllByRecursion (λ s. s.first_record + s.record_count ≤ length records.now) slots.now }
    requires few { AllByRecursion (λ s. s.record_count ≤ MAX_RECORDS) slots.now }
    ensures rows { IfOk result (λ _. rows.new.items ≡ rows.old.items ++ flat_map (slot_rows floor records.now) slots.now) }
    ensures refused { IfErr result (λ fault. fault ≡ Memory) }
{
    for slot in slots {
        let Ok(()) = append_rows_at(slot, records, floor, rows) else {
            return Err(Fault::Memory);
        };
    }
    Ok(())
}

/// Appends the rows of the entry of a slot, if it is before a floor and isn't gone. If memory is refused, some may have been appended.
fn append_rows_at<P: Copy, K: Copy>(
    slot: &Slot<P, K>,
    records: &[Record],
    floor: When,
    rows: &mut Vec<Row>,
) -> Result<(), Fault>
    requires within { slot.now.first_record + slot.now.record_count ≤ length records.now }
    requires few { slot.now.record_count ≤ MAX_RECORDS }
    ensures rows { IfOk result (λ _. rows.new.items ≡ rows.old.items ++ slot_rows floor records.now slot.now) }
    ensures refused { IfErr result (λ fault. fault ≡ Memory) }
{
    let key = &slot.entry.event.rank.key;
    if slot.is_gone || key.when() >= floor {
        return Ok(());
    }
    let own = range(
        records,
        slot.first_record as usize,
        slot.record_count as usize,
    );
    append_rows_of(key, own, rows)
}

/// Appends the rows of an event's records. If memory is refused, some may have been appended.
fn append_rows_of(key: &Key, records: &[Record], rows: &mut Vec<Row>) -> Result<(), Fault>
    requires { length records.now ≤ MAX_RECORDS }
    ensures rows { IfOk result (λ _. rows.new.items ≡ rows.old.items ++ rows_of key.now records.now) }
    ensures refused { IfErr result (λ fault. fault ≡ Memory) }
{
    let mut index = 0;
    for record in records {
        let row = Row {
            key: *key,
            index,
            rec: *record,
        };
        let Ok(()) = rows.push(row) else {
            return Err(Fault::Memory);
        };
        index += 1;
    }
    Ok(())
}

/// The later of two times.
fn later(one: When, other: When) -> When
    ensures { (one ≤ result) × (other ≤ result) }
{
    if one < other { other } else { one }
}

/// A range of items, which lies within them.
fn range<T: Copy>(items: &[T], first: usize, count: usize) -> &[T]
    requires { first + count ≤ length items.now }
    ensures { result.now ≡ range_of first count items.now }
{
    &items[first..first + count]
}

/// Appends items, for which there is room.
fn append<T: Copy>(to: &mut Vec<T>, items: &[T])
    requires { vec_len to.old + length items.now ≤ vec_capacity to.old }
    ensures { to.new.items ≡ to.old.items ++ items.now }
{
    let Ok(()) = to.extend_from_slice(items) else {
        unreachable!();
    };
}
