//! The book alone: rows that are handed in, one by one and in batches.

use crate::page::Page;
use crate::playing::{Pages, Player, index, number, play_all, tick, word};
use std::alloc::Global;
use std::io;
use vt_book::{Batch, Book};
use vt_key::{Fault, Key, When};
use vt_model::{Record, Row};

/// A book, and whether rows are handed in to it in batches.
#[derive(Drop)]
struct Clerk {
    book: Book,
    in_batches: bool,
}

/// The row of an event at this tick.
fn row(time: u64) -> Row {
    let rec = Record {
        time,
        ..Record::default()
    };
    Row {
        key: Key::new(rec.when(), 0, 0),
        index: 0,
        rec,
    }
}

// How many ticks of rows a line says, behind its call, its worker and its floor: up to two.
fn count_ticks(line: &str) -> usize {
    if word(line, 3).is_empty() {
        0
    } else if word(line, 4).is_empty() {
        1
    } else {
        2
    }
}

impl Clerk {
    fn hand(&mut self, w: u32, rows: &[Row], floor: When) -> Result<(), Fault> {
        self.book.hand(w, rows, floor)
    }

    fn hand_batch(&mut self, w: u32, batch: Batch, floor: When) -> Result<(), Fault> {
        self.book.hand_batch(w, batch, floor)
    }

    fn hand_rows(&mut self, alloc: Global, line: &str, rows: &[Row]) -> Result<(), Fault> {
        let (w, floor) = (index(line, 1), tick(line, 2));
        if !self.in_batches {
            return self.hand(w, rows, floor);
        }
        match Batch::new(alloc, rows) {
            Ok(batch) => self.hand_batch(w, batch, floor),
            Err(fault) => Err(fault),
        }
    }

    fn hand_line(&mut self, alloc: Global, line: &str) -> Result<(), Fault> {
        let both = [row(number(line, 3)), row(number(line, 4))];
        let (rows, _) = both
            .split_at_checked(count_ticks(line))
            .unwrap_or((&[], &[]));
        self.hand_rows(alloc, line, rows)
    }

    fn close(&mut self) -> Result<(), Fault> {
        self.book.close()
    }

    fn records(&self, alloc: Global) -> Result<Vec<Record>, Fault> {
        self.book.records(alloc)
    }

    // Its floor, whether it is closed, and how many records were handed out.
    fn numbers(&self) -> [u64; 3] {
        [
            self.book.floor().ticks(),
            self.book.is_closed() as u64,
            self.book.handed_out() as u64,
        ]
    }
}

fn tell_ticks(given: Result<Vec<Record>, Fault>, page: &mut Page) {
    match given {
        Ok(records) => {
            for record in &records {
                page.number(record.time);
            }
        }
        Err(fault) => page.refusal(fault),
    }
}

impl Player for Clerk {
    fn play(&mut self, alloc: Global, line: &str, page: &mut Page) {
        match word(line, 0) {
            "hand" => page.answer(self.hand_line(alloc, line)),
            "records" => tell_ticks(self.records(alloc), page),
            "close" => page.answer(self.close()),
            "floor" => page.numbers(&self.numbers()),
            _ => page.word("unknown"),
        }
    }

    fn tell_all(&mut self, _alloc: Global, page: &mut Page) {
        page.numbers(&self.numbers());
    }
}

/// `hand W FLOOR TICK..`: the floor is the lesser one, and the rows below it come in order, whoever handed them in first. `floor` tells it,
/// whether the book is closed, and how many records were handed out.
const TWO_WORKERS: &str = "\
floor
hand 1 10 2 3
floor
records
hand 0 3 1
floor
records
close
hand 0 10
floor
records
close
floor
close
hand 0 10
hand 2 5
records";

/// What isn't lawful changes nothing: rows outside of the two floors, a floor that falls or is past the end, another worker.
const REFUSED: &str = "\
hand 0 3 3
hand 0 3 2
hand 0 4 2
hand 0 2
hand 0 11
hand 2 5
floor
hand 1 4
floor
records";

/// Books of two workers: their rows one by one, and in batches.
pub(crate) fn hand_ins(rt: &HostRuntime, pages: &mut Pages) -> io::Result<()> {
    for in_batches in [false, true] {
        for lines in [TWO_WORKERS, REFUSED] {
            let book = Book::new(rt.alloc(), 2, When::tick(10));
            play_all(rt, &mut Clerk { book, in_batches }, pages, lines)?;
        }
    }
    Ok(())
}
