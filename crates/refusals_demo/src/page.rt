//! What is told at once: words and numbers, in memory that was taken before.

use std::alloc::Global;
use std::io::{self, Write};
use std::str;
use vt_key::{Event, Fault, Letter, Rank, Sign};
use vt_model::{Record, Row};

// What is told at once has fewer bytes.
const ROOM: usize = 1024;

/// A text that is told. Its memory is taken before any call is made, so that telling takes none.
#[derive(Drop)]
pub(crate) struct Page {
    text: Vec<u8>,
    // Whether all that was told had room.
    is_whole: bool,
}

impl Page {
    pub(crate) fn new(alloc: Global) -> Page {
        Page {
            text: Vec::new(alloc),
            is_whole: true,
        }
    }

    /// Takes the memory, and answers whether it was there.
    pub(crate) fn make_room(&mut self) -> bool {
        self.text.reserve(ROOM).is_ok()
    }

    pub(crate) fn clear(&mut self) {
        self.text.clear();
        self.is_whole = true;
    }

    fn note(&mut self, written: io::Result<()>) {
        if written.is_err() {
            self.is_whole = false;
        }
    }

    pub(crate) fn word(&mut self, word: &str) {
        let written = write!(self.text, " {word}");
        self.note(written);
    }

    pub(crate) fn number(&mut self, number: u64) {
        let written = write!(self.text, " {number}");
        self.note(written);
    }

    /// Tells these numbers, one after the other.
    pub(crate) fn numbers(&mut self, numbers: &[u64]) {
        for number in numbers {
            self.number(*number);
        }
    }

    /// Tells a number, if it is there.
    pub(crate) fn some(&mut self, number: Option<u64>) {
        match number {
            Some(number) => self.number(number),
            None => self.word("none"),
        }
    }

    /// Tells the number of a refusal.
    pub(crate) fn refusal(&mut self, fault: Fault) {
        self.word("refused");
        self.number(u64::from(fault.number()));
    }

    /// Tells that a call was done, or the number of its refusal.
    pub(crate) fn answer(&mut self, answer: Result<(), Fault>) {
        match answer {
            Ok(()) => self.word("ok"),
            Err(fault) => self.refusal(fault),
        }
    }

    /// Tells these numbers, or the number of a refusal.
    pub(crate) fn numbers_given(&mut self, given: Result<Vec<u64>, Fault>) {
        match given {
            Ok(numbers) => self.numbers(&numbers),
            Err(fault) => self.refusal(fault),
        }
    }

    /// Tells a rank: its tick, source and send number, and its worker and serial.
    pub(crate) fn rank(&mut self, rank: Rank) {
        let Rank { key, stamp } = rank;
        let (tick, source, number) = (key.when().ticks(), key.source(), key.number());
        let written = write!(
            self.text,
            "({tick},{source},{number})({},{})",
            stamp.worker, stamp.serial
        );
        self.note(written);
    }

    /// Tells a letter: its sign and its rank.
    pub(crate) fn letter<P: Copy>(&mut self, letter: &Letter<P>) {
        self.word(match letter.sign {
            Sign::Plus => "+",
            Sign::Minus => "-",
        });
        self.rank(letter.event.rank);
    }

    /// Tells the ranks of these events, or the number of a refusal.
    pub(crate) fn events<P: Copy + Drop>(&mut self, given: Result<Vec<Event<P>>, Fault>) {
        match given {
            Ok(events) => self.ranks(&events),
            Err(fault) => self.refusal(fault),
        }
    }

    fn ranks<P: Copy>(&mut self, events: &[Event<P>]) {
        for event in events {
            self.word("");
            self.rank(event.rank);
        }
    }

    fn record(&mut self, record: &Record) {
        let Record {
            time,
            priority,
            lp,
            kind,
            value,
        } = *record;
        let written = write!(self.text, " ({time},{priority},{lp},{kind},{value})");
        self.note(written);
    }

    /// Tells these records, each by its time, priority, process, kind and value.
    pub(crate) fn records(&mut self, records: &[Record]) {
        for record in records {
            self.record(record);
        }
    }

    /// Tells these records, or the number of a refusal.
    pub(crate) fn records_given(&mut self, given: Result<Vec<Record>, Fault>) {
        match given {
            Ok(records) => self.records(&records),
            Err(fault) => self.refusal(fault),
        }
    }

    /// Tells the ticks and values of these rows.
    pub(crate) fn rows(&mut self, rows: &[Row]) {
        for row in rows {
            self.numbers(&[row.rec.time, row.rec.value]);
        }
    }

    /// Tells these rows, or the number of a refusal.
    pub(crate) fn rows_given(&mut self, given: Result<Vec<Row>, Fault>) {
        match given {
            Ok(rows) => self.rows(&rows),
            Err(fault) => self.refusal(fault),
        }
    }

    /// Whether a call was answered by a refusal of memory. No other refusal is one that is tried again.
    pub(crate) fn is_refused(&self) -> bool {
        self.text.as_slice() == b" refused 1".as_slice()
    }

    /// Whether both have the same text.
    pub(crate) fn is_same(&self, other: &Page) -> bool {
        self.is_whole && other.is_whole && self.text.as_slice() == other.text.as_slice()
    }

    /// The text, or one that is wrong where it isn't whole.
    pub(crate) fn text(&self) -> &str {
        let text = str::from_utf8(&self.text).unwrap_or("");
        if self.is_whole { text } else { " WRONG" }
    }
}
