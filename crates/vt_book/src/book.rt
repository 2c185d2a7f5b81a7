//! The book.

ghost use Rattle.std.specs.Prelude.{◌≡◌, ◌≤◌, ◌<◌, ◌+◌, ◌^◌, ◌++◌, List, length, drop, true, None, Ok, Err, IfOk, IfErr, IfSome, OnOk, MatchOption, MatchResult, vec_len, vec_capacity};
ghost use Rattle.std.specs.List.{list_all};
ghost use Rattle.vt_key.specs.declared.fault.Fault.TheVariants.{Memory, Exhausted};
ghost use Rattle.vt_key.specs.declared.limits.TheConstants.{MAX_WORKERS};
ghost use Rattle.vt_model.specs.declared.rows.Record.{Record as RecordValue};
ghost use Rattle.vt_model.specs.declared.rows.Row.{Row as RowValue};
ghost use Rattle.vt_steps.specs.promise.World.{opening_book, book_floor, book_records};
ghost use Rattle.vt_steps.specs.promise.Letters.{least_of};
ghost use Rattle.vt_steps.specs.promise.BookSteps.{with_rows, closed_book};
ghost use Rattle.vt_book.specs.inside.Books.{may_hand, are_within, is_within, refusal_of_hand, refusal_of_close};

use crate::batch::Batch;
use crate::floors::Floors;
use crate::waiting::Waiting;
use std::alloc::Global;
use std::marker::Model;
use std::mem;
use vt_key::{Fault, Seen, When};
use vt_model::{Record, Row};

/// The rows that the workers of a run have handed in, and the floor up to which each has.
///
/// The book's floor is the least of the workers'. Contracts see the end of the run and the book of the definitions: the rows in
/// the order in which they were handed in, the floors by worker, and whether it is closed. They also see how many records were
/// handed out, which the book no longer keeps.
#[derive(Drop)]
pub struct Book {
    end: When,
    floors: Floors,
    // All rows, in the order in which they were handed in.
    history: Seen<Row>,
    // The records that were handed out, and how many they are.
    gone: Seen<Record>,
    handed_out: usize,
    // The other records of rows below the floor.
    shown: Vec<Record>,
    // The rows that aren't below the floor.
    waiting: Waiting,
    closed: bool,
}

impl Model for Book {
    ghost use Rattle.vt_steps.specs.promise.Letters.{least_of};
    ghost use Rattle.vt_book.specs.inside.Books.{RunBook};
    ghost use Rattle.vt_book.specs.inside.Kept.{IsBookInside};

    ghost Value = { RunBook };

    ghost view = { λ b. record {
      end = b.end;
      book = record { rows = b.history.items; floors = b.floors; is_closed = b.closed };
      handed_out = b.handed_out;
    } };

    ghost invariant = { λ b. IsBookInside (least_of b.end b.floors) b.history.items b.gone.items b.handed_out b.shown.items b.waiting };
}

impl Book {
    /// An open book without rows, for a run of `workers` workers, up to 256, that ends at `end`. It takes no memory.
    pub fn new(alloc: Global, workers: u32, end: When) -> Book
        requires { workers ≤ MAX_WORKERS }
        ensures end { result.end ≡ end }
        ensures book { result.book ≡ opening_book workers }
        ensures whole { result.handed_out ≡ 0 }
    {
        Book {
            end,
            floors: Floors::new(workers),
            history: Seen::picked(),
            gone: Seen::picked(),
            handed_out: 0,
            shown: Vec::new(alloc),
            waiting: Waiting::new(alloc),
            closed: false,
        }
    }

    /// Takes the rows, in any order, that a worker hands in, and the floor below which these are its last rows. From then
    /// on the rows are in the book, and the floor is the worker's.
    ///
    /// [`Fault::Closed`]: the book is closed. [`Fault::NotLawful`]: there is no such worker, the floor is below the worker's
    /// or after the end of the run, or a row's time isn't from the worker's floor on and below the new one.
    /// [`Fault::Memory`]: memory was refused. After any of them the book is as it was.
    pub fn hand(&mut self, worker: u32, rows: &[Row], floor: When) -> Result<(), Fault>
        ensures refused { IfSome (refusal_of_hand self.old worker rows.now floor) (λ fault. result ≡ Err fault) }
        ensures taken { refusal_of_hand self.old worker rows.now floor ≡ None → MatchResult result
            (λ _. self.new ≡ record self.old { book = with_rows worker rows.now floor self.old.book })
            (λ fault. fault ≡ Memory) }
        ensures unchanged { IfErr result (λ _. self.new ≡ self.old) }
    {
        if self.is_closed() {
            return Err(Fault::Closed);
        }
        if !self.may_hand(worker, rows, floor) {
            return Err(Fault::NotLawful);
        }
        let batch = Batch::new(*self.shown.allocator(), rows)?;
        self.take(worker, batch, floor)
    }

    /// Takes a prepared batch, as [`Book::hand`] takes rows. Memory is asked for at most twice: for records that will be shown,
    /// and for one more batch in the queue. A batch that is refused is dropped.
    pub fn hand_batch(&mut self, worker: u32, batch: Batch, floor: When) -> Result<(), Fault>
        ensures refused { IfSome (refusal_of_hand self.old worker batch floor) (λ fault. result ≡ Err fault) }
        ensures taken { refusal_of_hand self.old worker batch floor ≡ None → MatchResult result
            (λ _. self.new ≡ record self.old { book = with_rows worker batch floor self.old.book })
            (λ fault. fault ≡ Memory) }
        ensures unchanged { IfErr result (λ _. self.new ≡ self.old) }
    {
        if self.is_closed() {
            return Err(Fault::Closed);
        }
        if !self.may_hand_batch(worker, &batch, floor) {
            return Err(Fault::NotLawful);
        }
        self.take(worker, batch, floor)
    }

    /// Takes a lawful hand-in. The caller picks the list of all rows after that.
    ///
    /// [`Fault::Memory`]: memory was refused, and the book is as it was.
    fn take(&mut self, worker: u32, batch: Batch, floor: When) -> Result<(), Fault>
        ghost rows: { List RowValue }
        requires lawful { may_hand self.old worker batch floor ≡ true }
        requires all { rows ≡ self.old.book.rows ++ batch }
        ensures taken { MatchResult result
            (λ _. self.new ≡ record self.old { book = with_rows worker batch floor self.old.book })
            (λ fault. fault ≡ Memory) }
        ensures unchanged { IfErr result (λ _. self.new ≡ self.old) }
    {
        let Some(waiting) = self.waiting.len() else {
            return Err(Fault::Memory);
        };
        make_room(&mut self.shown, waiting, batch.len())?;
        self.waiting.add(batch.into_rows())?;
        self.history = Seen::picked();
        self.floors.set(worker, floor);
        let risen_to = self.floors.least(self.end);
        self.waiting.show_before(&mut self.shown, risen_to);
        Ok(())
    }

    /// Whether what a worker hands in is lawful, the book's being closed aside.
    fn may_hand(&self, worker: u32, rows: &[Row], floor: When) -> bool
        ensures { result ≡ may_hand self.now worker rows.now floor }
    {
        let Some(handed_in) = self.floors.get(worker) else {
            return false;
        };
        handed_in <= floor && floor <= self.end && are_within(rows, handed_in, floor)
    }

    /// The same of a batch.
    fn may_hand_batch(&self, worker: u32, batch: &Batch, floor: When) -> bool
        ensures { result ≡ may_hand self.now worker batch.now floor }
    {
        let Some(handed_in) = self.floors.get(worker) else {
            return false;
        };
        handed_in <= floor && floor <= self.end && batch.is_within(handed_in, floor)
    }

    /// The book's floor: the least of the floors up to which the workers have handed in, which are 0 at first. No
    /// row below it can be handed in any more.
    pub fn floor(&self) -> When
        ensures { result ≡ book_floor self.now.end self.now.book }
    {
        self.floors.least(self.end)
    }

    /// Copies of the records of the rows below the book's floor, in the order of the rows, but for those that were handed out.
    ///
    /// [`Fault::Memory`]: memory was refused.
    pub fn records(&self, alloc: Global) -> Result<Vec<Record>, Fault>
        ensures records { IfOk result (λ records. records.items ≡ drop self.now.handed_out (book_records self.now.end self.now.book)) }
        ensures refused { IfErr result (λ fault. fault ≡ Memory) }
    {
        Vec::from_slice(alloc, &self.shown).map_err(|_| Fault::Memory)
    }

    /// The same records, taken out of the book. It takes no memory.
    pub fn into_records(self) -> Vec<Record>
        ensures { result.items ≡ drop self.handed_out (book_records self.end self.book) }
    {
        self.shown
    }

    /// How many records were handed out.
    pub fn handed_out(&self) -> usize
        ensures { result ≡ self.now.handed_out }
    {
        self.handed_out
    }

    /// Hands out the records that [`Book::records`] copies, in place of those in `records`, and keeps none of them. It uses the
    /// memory of `records` from then on, and takes no other.
    ///
    /// [`Fault::Exhausted`]: with them it would have handed out 2^64 or more. Then nothing has changed.
    pub fn hand_out(&mut self, records: &mut Vec<Record>) -> Result<(), Fault>
        ensures few { IfOk result (λ _. length (book_records self.old.end self.old.book) < 2 ^ 64) }
        ensures beginning { self.old.handed_out ≤ length (book_records self.old.end self.old.book) }
        ensures handed { IfOk result (λ _. (records.new.items ≡ drop self.old.handed_out (book_records self.old.end self.old.book)) × (self.new ≡ record self.old { handed_out = length (book_records self.old.end self.old.book) })) }
        ensures refused { IfErr result (λ fault. (fault ≡ Exhausted) × (2 ^ 64 ≤ length (book_records self.old.end self.old.book))) }
        ensures unchanged { IfErr result (λ _. (self.new ≡ self.old) × (records.new.items ≡ records.old.items)) }
    {
        let Some(handed_out) = self.handed_out.checked_add(self.shown.len()) else {
            return Err(Fault::Exhausted);
        };
        self.give(handed_out, records);
        Ok(())
    }

    /// Hands its records out, which makes so many that were handed out. The caller picks the list of these.
    fn give(&mut self, handed_out: usize, records: &mut Vec<Record>)
        ghost all: { List RecordValue }
        requires all { all ≡ book_records self.old.end self.old.book }
        requires count { handed_out ≡ length all }
        ensures handed { records.new.items ≡ drop self.old.handed_out all }
        ensures counted { self.new ≡ record self.old { handed_out = handed_out } }
    {
        self.gone = Seen::picked();
        self.handed_out = handed_out;
        records.clear();
        mem::swap(&mut self.shown, records);
    }

    /// Closes the book, which takes nothing more then. It takes no memory.
    ///
    /// [`Fault::Closed`]: it is closed. [`Fault::NotLawful`]: its floor isn't the end of the run. After either the book is as
    /// it was.
    pub fn close(&mut self) -> Result<(), Fault>
        ensures { MatchOption (refusal_of_close self.old)
            ((result ≡ Ok tt) × (self.new ≡ record self.old { book = closed_book self.old.book }))
            (λ fault. (result ≡ Err fault) × (self.new ≡ self.old)) }
    {
        if self.is_closed() {
            return Err(Fault::Closed);
        }
        if self.floor() != self.end {
            return Err(Fault::NotLawful);
        }
        self.closed = true;
        Ok(())
    }

    /// Whether the book is closed.
    pub fn is_closed(&self) -> bool
        ensures { result ≡ self.now.book.is_closed }
    {
        self.closed
    }
}

/// Whether the times of all rows are at least `from` and below `to`.
fn are_within(rows: &[Row], from: When, to: When) -> bool
    ensures { result ≡ list_all (is_within from to) rows.now }
{
    rows.iter()
        .all(|row| from <= row.key.when() && row.key.when() < to)
}

/// Makes room for the records of the waiting rows and of `more` others.
///
/// [`Fault::Memory`]: memory was refused.
fn make_room(shown: &mut Vec<Record>, waiting: usize, more: usize) -> Result<(), Fault>
    ensures shown { shown.new.items ≡ shown.old.items }
    ensures room { OnOk result (vec_len shown.new + (waiting + more) ≤ vec_capacity shown.new) }
    ensures refused { IfErr result (λ fault. fault ≡ Memory) }
{
    let all = waiting.checked_add(more).ok_or(Fault::Memory)?;
    shown.reserve(all).map_err(|_| Fault::Memory)
}
