//! The sheets of a log.

ghost use Rattle.std.specs.Prelude.{◌≡◌, ℕ, ◌+◌, ◌%◌, ◌^◌, ◌<◌, ◌≤◌, [], ◌∷◌, ◌++◌, true, false, not, map, length, nat_eq, MatchOption, IfOk, IfErr, IfSome, IfNone};
ghost use Rattle.std.specs.List.{filter, flat_map, list_any, sum_by, count_by, AllByRecursion};
ghost use Rattle.vt_key.specs.declared.fault.Fault.TheVariants.{Memory};
ghost use Rattle.vt_model.specs.declared.limits.TheConstants.{MAX_RECORDS as MOST_RECORDS, MAX_SENDS as MOST_SENDS};
ghost use Rattle.vt_logs.specs.inside.Events.{is_stamped, rows_below};
ghost use Rattle.vt_logs.specs.inside.Sheets.{Noted, NonePasses, PassesAlone, IsSlotOf, noted_event};
ghost use Rattle.vt_logs.specs.inside.Shelves.{lies_at, lies_elsewhere, placed_events, placed_nodes, placed_stays, placed_of, page_at, page_below, page_rows, page_has_stamp, is_used, is_unused};

use crate::entry::Entry;
use crate::sheet::Sheet;
use crate::slot::{Position, Slot};
use std::alloc::Global;
use std::marker::Model;
use vt_key::{Fault, Stamp, When};
use vt_model::{Record, Row, Sent};

/// The most nodes that the undo of all entries may take when one more is written.
const MOST_NODES: usize = 0x4000_0000_0000_0000;

/// Sheets of entries. The last one that was begun is written.
///
/// Contracts see all entries in the order in which they were written, each with its position (`Shelved`).
#[derive(Drop)]
pub(crate) struct Shelf<P: Copy, K: Copy> {
    alloc: Global,
    sheets: Vec<Sheet<P, K>>,
    // The numbers of the sheets that were written before the current one, in order.
    full: Vec<u32>,
    current: u32,
    // The numbers of sheets without entries, to be written again.
    spare: Vec<u32>,
    // How many nodes the undo of all entries takes.
    needs: usize,
}

impl<P: Copy, K: Copy> Model for Shelf<P, K> {
    ghost use Rattle.vt_logs.specs.inside.Shelves.{Shelved};

    ghost Value = { Shelved P K };

    ghost use Rattle.vt_logs.specs.inside.Shelves.{placed_on, has_room_on, IsShelf};

    ghost view = { λ s. record { placed = placed_on s.sheets.items s.full.items s.current; has_room = has_room_on s.sheets.items s.current } };

    ghost invariant = { λ s. IsShelf s.sheets.items s.full.items s.current s.spare.items s.needs };
}

impl<P: Copy, K: Copy> Shelf<P, K> {
    /// A shelf without entries.
    ///
    /// [`Fault::Memory`]: memory was refused.
    pub(crate) fn new(alloc: Global) -> Result<Shelf<P, K>, Fault>
        ensures empty { IfOk result (λ shelf. shelf ≡ record { placed = []; has_room = false }) }
        ensures refused { IfErr result (λ fault. fault ≡ Memory) }
    {
        let mut sheets = Vec::new(alloc);
        let Ok(()) = sheets.push(Sheet::new(alloc)) else {
            return Err(Fault::Memory);
        };
        Ok(Shelf {
            alloc,
            sheets,
            full: Vec::new(alloc),
            current: 0,
            spare: Vec::new(alloc),
            needs: 0,
        })
    }

    /// How many nodes the undo of all entries takes.
    #[inline(always)]
    pub(crate) fn needs(&self) -> usize
        ensures { result ≡ sum_by placed_nodes self.now.placed }
    {
        self.needs
    }

    /// Takes room for one entry more, of this time.
    ///
    /// [`Fault::Memory`]: memory was refused, or the undo of all entries takes too many nodes. No entry has changed.
    #[inline(always)]
    pub(crate) fn make_room(&mut self, time: When) -> Result<(), Fault>
        ensures same { self.new.placed ≡ self.old.placed }
        ensures room { IfOk result (λ _. self.new.has_room ≡ true) }
        ensures refused { IfErr result (λ fault. fault ≡ Memory) }
    {
        if self.needs > MOST_NODES {
            return Err(Fault::Memory);
        }
        if !self.sheets[self.current as usize].takes(time) {
            let Ok(()) = self.begin() else {
                return Err(Fault::Memory);
            };
        }
        self.take_room()
    }

    /// Takes room for one entry more in the current sheet.
    #[inline(always)]
    fn take_room(&mut self) -> Result<(), Fault>
        requires few_nodes { sum_by placed_nodes self.old.placed ≤ 2 ^ 62 }
        ensures same { self.new.placed ≡ self.old.placed }
        ensures room { IfOk result (λ _. self.new.has_room ≡ true) }
        ensures refused { IfErr result (λ fault. fault ≡ Memory) }
    {
        self.sheets[self.current as usize].make_room()
    }

    /// Begins a sheet.
    #[cold]
    #[inline(never)]
    fn begin(&mut self) -> Result<(), Fault>
        ensures same { self.new.placed ≡ self.old.placed }
        ensures refused { IfErr result (λ fault. fault ≡ Memory) }
    {
        let Ok(()) = self.full.reserve(1) else {
            return Err(Fault::Memory);
        };
        let Some(number) = self.spare.pop() else {
            return self.add();
        };
        self.sheets[number as usize].clear();
        self.full.push_reserved(self.current);
        self.current = number;
        Ok(())
    }

    /// Begins a new sheet.
    fn add(&mut self) -> Result<(), Fault>
        ensures same { self.new.placed ≡ self.old.placed }
        ensures refused { IfErr result (λ fault. fault ≡ Memory) }
    {
        let number = self.sheets.len();
        if number >= u32::MAX as usize {
            return Err(Fault::Memory);
        }
        // A sheet whose entries are forgotten has to find room among the spare ones.
        let Ok(()) = self.spare.reserve(number + 1) else {
            return Err(Fault::Memory);
        };
        let Ok(()) = self.full.reserve(1) else {
            return Err(Fault::Memory);
        };
        let Ok(()) = self.sheets.push(Sheet::new(self.alloc)) else {
            return Err(Fault::Memory);
        };
        self.full.push_reserved(self.current);
        self.current = number as u32;
        Ok(())
    }

    /// Writes an entry, with what it sent and recorded, and returns its position. There must be room for it.
    #[inline(always)]
    pub(crate) fn push(
        &mut self,
        process: u32,
        before: Position,
        entry: Entry<P, K>,
        sends: &[Sent<P>],
        records: &[Record],
    ) -> Position
        requires room { self.old.has_room ≡ true }
        requires few_sends { length sends.now ≤ MOST_SENDS }
        requires few_records { length records.now ≤ MOST_RECORDS }
        ensures { self.new.placed ≡ self.old.placed ++ (result, noted_event process before entry sends.now records.now) ∷ [] }
    {
        self.needs += 1 + sends.len();
        let index = self.sheets[self.current as usize].write(
            process, before, entry, sends, records,
        );
        Position {
            sheet: self.current,
            index,
        }
    }

    /// The slot at a position, if an entry lies there.
    #[inline(always)]
    pub(crate) fn get(&self, position: Position) -> Option<&Slot<P, K>>
        ensures { MatchOption result (NonePasses (lies_at position) self.now.placed) (λ slot. (x : Noted P K) × PassesAlone (lies_at position) (position, x) self.now.placed × IsSlotOf slot.now x) }
    {
        let Some(sheet) = self.sheets.get(position.sheet as usize) else {
            return None;
        };
        sheet.get(position.index as usize)
    }

    /// What the entry at a position sent; nothing if none lies there.
    pub(crate) fn sends_at(&self, position: Position) -> &[Sent<P>]
        ensures { AllByRecursion (λ x. lies_at position x ≡ true → result.now ≡ x.1.event.sends) self.now.placed }
    {
        let Some(sheet) = self.sheets.get(position.sheet as usize) else {
            return &[];
        };
        sheet.sends_at(position.index as usize)
    }

    /// Takes the entry at a position out, if one lies there.
    pub(crate) fn take_out(&mut self, position: Position)
        ensures { self.new.placed ≡ filter (lies_elsewhere position) self.old.placed }
    {
        let Some(slot) = self.get(position) else {
            return;
        };
        let nodes = 1 + slot.send_count as usize;
        self.drop_at(position, nodes);
    }

    /// Takes out the entry at a position, whose undo takes so many nodes.
    fn drop_at(&mut self, position: Position, nodes: usize)
        requires { (x : Noted P K) × PassesAlone (lies_at position) (position, x) self.old.placed × (nodes ≡ placed_nodes (position, x)) }
        ensures { self.new.placed ≡ filter (lies_elsewhere position) self.old.placed }
    {
        self.needs -= nodes;
        self.sheets[position.sheet as usize].take_out(position.index as usize);
    }

    /// Forgets the entries before a floor.
    pub(crate) fn forget(&mut self, floor: When)
        ensures { self.new.placed ≡ filter (placed_stays floor) self.old.placed }
    {
        forget_in(self.sheets.as_mut_slice(), floor);
        let full = count_nodes(self.sheets.as_slice(), self.full.as_slice());
        self.needs = full.wrapping_add(self.sheets[self.current as usize].needs());
        self.retire();
    }

    /// Makes the full sheets that have no entries spare.
    fn retire(&mut self)
        ensures { self.new ≡ self.old }
    {
        keep_unused(
            self.sheets.as_slice(),
            self.full.as_slice(),
            &mut self.spare,
        );
        drop_unused(self.sheets.as_slice(), &mut self.full);
    }

    /// The rows of the entries before a floor, in their order.
    ///
    /// [`Fault::Memory`]: memory was refused.
    pub(crate) fn rows(&self, alloc: Global, floor: When) -> Result<Vec<Row>, Fault>
        ensures rows { IfOk result (λ v. v.items ≡ rows_below floor (placed_events self.now.placed)) }
        ensures refused { IfErr result (λ fault. fault ≡ Memory) }
    {
        let mut rows = Vec::new(alloc);
        let Ok(()) = append_rows_in(
            self.sheets.as_slice(),
            self.full.as_slice(),
            floor,
            &mut rows,
        ) else {
            return Err(Fault::Memory);
        };
        let Ok(()) = self.sheets[self.current as usize].append_rows(floor, &mut rows) else {
            return Err(Fault::Memory);
        };
        Ok(rows)
    }

    /// Whether an entry has a stamp. It looks at each.
    pub(crate) fn has_stamp(&self, stamp: &Stamp) -> bool
        ensures { result ≡ list_any (is_stamped stamp.now) (placed_events self.now.placed) }
    {
        self.sheets[self.current as usize].has_stamp(stamp)
            || has_stamp_in(self.sheets.as_slice(), self.full.as_slice(), stamp)
    }
}

/// Forgets the entries before a floor in each sheet.
fn forget_in<P: Copy, K: Copy>(sheets: &mut [Sheet<P, K>], floor: When)
    ensures { sheets.new ≡ map (page_below floor) sheets.old }
{
    for sheet in sheets.iter_mut() {
        sheet.forget(floor);
    }
}

/// How many nodes the undo of all entries of these sheets takes, modulo 2^64.
fn count_nodes<P: Copy, K: Copy>(sheets: &[Sheet<P, K>], numbers: &[u32]) -> usize
    requires { AllByRecursion (λ n. n < length sheets.now) numbers.now }
    ensures { result ≡ sum_by placed_nodes (flat_map (placed_of sheets.now) numbers.now) % 2 ^ 64 }
{
    let mut nodes = 0_usize;
    for number in numbers {
        nodes = nodes.wrapping_add(sheets[*number as usize].needs());
    }
    nodes
}

/// Whether the sheet of a number has no entries.
fn is_unused<P: Copy, K: Copy>(sheets: &[Sheet<P, K>], number: u32) -> bool
    ensures { result ≡ is_unused sheets.now number }
{
    match sheets.get(number as usize) {
        Some(sheet) => sheet.is_empty(),
        None => true,
    }
}

/// Makes the sheets of these numbers that have no entries spare. Where there is no room for a number, its sheet isn't written again.
fn keep_unused<P: Copy, K: Copy>(sheets: &[Sheet<P, K>], numbers: &[u32], spare: &mut Vec<u32>)
    requires known { AllByRecursion (λ n. n < length sheets.now) numbers.now }
    requires spare_known { AllByRecursion (λ n. n < length sheets.now) spare.old.items }
    ensures known { AllByRecursion (λ n. n < length sheets.now) spare.new.items }
    ensures counts { (n : ℕ) → count_by (λ m. nat_eq m n) spare.new.items ≤ count_by (λ m. nat_eq m n) spare.old.items + count_by (λ m. nat_eq m n) (filter (is_unused sheets.now) numbers.now) }
{
    for number in numbers {
        if is_unused(sheets, *number) {
            let _ = spare.push(*number);
        }
    }
}

/// Drops the numbers of the sheets that have no entries.
fn drop_unused<P: Copy, K: Copy>(sheets: &[Sheet<P, K>], numbers: &mut Vec<u32>)
    ensures { numbers.new.items ≡ filter (is_used sheets.now) numbers.old.items }
{
    let mut kept = 0;
    for i in 0..numbers.len() {
        let number = numbers[i];
        if !is_unused(sheets, number) {
            numbers[kept] = number;
            kept += 1;
        }
    }
    numbers.truncate(kept);
}

/// Appends the rows of the entries of these sheets before a floor. If memory is refused, some may have been appended.
fn append_rows_in<P: Copy, K: Copy>(
    sheets: &[Sheet<P, K>],
    numbers: &[u32],
    floor: When,
    rows: &mut Vec<Row>,
) -> Result<(), Fault>
    requires { AllByRecursion (λ n. n < length sheets.now) numbers.now }
    ensures rows { IfOk result (λ _. rows.new.items ≡ rows.old.items ++ flat_map (page_rows floor sheets.now) numbers.now) }
    ensures refused { IfErr result (λ fault. fault ≡ Memory) }
{
    for number in numbers {
        let Ok(()) = sheets[*number as usize].append_rows(floor, rows) else {
            return Err(Fault::Memory);
        };
    }
    Ok(())
}

/// Whether an entry of these sheets has a stamp.
fn has_stamp_in<P: Copy, K: Copy>(sheets: &[Sheet<P, K>], numbers: &[u32], stamp: &Stamp) -> bool
    requires { AllByRecursion (λ n. n < length sheets.now) numbers.now }
    ensures { result ≡ list_any (page_has_stamp stamp.now sheets.now) numbers.now }
{
    for number in numbers {
        if sheets[*number as usize].has_stamp(stamp) {
            return true;
        }
    }
    false
}
