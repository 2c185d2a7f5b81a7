//! Records that are printed, numbers that are read, and bytes that are written.

use crate::tests::told::{holds, is_text};
use std::alloc::AllocGlobal;
use std::io::{self, Error, ErrorKind, Write};
use std::process::Abort;
use std::rt::HostRuntime;
use std::test::Fail;
use vt_key::Fault;
use vt_model::Record;
use vt_text::{TEXT_ROOM, TextBuffer, Version, print_records, read_number, write_bytes};

/// The one record of a hop run of one process without hops.
const FIRST: Record = Record {
    time: 1,
    priority: 0,
    lp: 0,
    kind: 1,
    value: 1,
};

const LARGEST: Record = Record {
    time: u64::MAX,
    priority: u8::MAX,
    lp: u32::MAX,
    kind: u32::MAX,
    value: u64::MAX,
};

// These records must be printed so.
fn prints(
    rt: &(impl Abort + AllocGlobal),
    records: &[Record],
    version: Version,
    want: &str,
) -> Result<(), Fail> {
    let mut text = Vec::new(rt.alloc());
    print_records(&mut text, records, version)?;
    is_text(rt, &text, want);
    Ok(())
}

#[test]
fn prints_the_largest_numbers(rt: HostRuntime) -> Result<(), Fail> {
    let lines = "1 0 1 1\n18446744073709551615 4294967295 4294967295 18446744073709551615\n";
    prints(&rt, &[FIRST, LARGEST], Version::One, lines)?;
    let lines =
        "twarp-records 2\n18446744073709551615 255 4294967295 4294967295 18446744073709551615\n";
    prints(&rt, &[LARGEST], Version::Two, lines)
}

/// What a writer does at one of its calls.
#[derive(Clone, Copy)]
enum Call {
    Takes(usize),
    Fails(ErrorKind),
}

/// A writer that keeps what it takes. Its last call comes again and again.
#[derive(Drop)]
struct Scripted {
    taken: Vec<u8>,
    calls: [Call; 3],
    at: usize,
}

impl Write for Scripted {
    fn write(&mut self, buf: &[u8]) -> io::Result<usize> {
        let call = self.calls[self.at.min(2)];
        self.at = self.at.saturating_add(1);
        match call {
            Call::Takes(most) => {
                let count = most.min(buf.len());
                self.taken.extend_from_slice(&buf[..count])?;
                Ok(count)
            }
            Call::Fails(kind) => Err(Error::from(kind)),
        }
    }

    fn flush(&mut self) -> io::Result<()> {
        Ok(())
    }
}

// The first record is printed to a writer that does so: this must be the result, and what the writer took.
fn writes(rt: &(impl Abort + AllocGlobal), calls: [Call; 3], want: Result<(), Fault>, taken: &str) {
    let mut writer = Scripted {
        taken: Vec::new(rt.alloc()),
        calls,
        at: 0,
    };
    let found = print_records(&mut writer, &[FIRST], Version::One);
    holds(rt, found == want, taken);
    is_text(rt, &writer.taken, taken);
}

/// Short writes are gone on after. A failed, an interrupted and an empty write are a fault.
#[test]
fn writes_may_be_short_and_may_fail(rt: HostRuntime) {
    let (three, two) = (Call::Takes(3), Call::Takes(2));
    let failed = Err(Fault::Output);
    writes(&rt, [three, two, Call::Takes(1)], Ok(()), "1 0 1 1\n");
    let broken = Call::Fails(ErrorKind::BrokenPipe);
    writes(&rt, [three, two, broken], failed, "1 0 1");
    let interrupted = Call::Fails(ErrorKind::Interrupted);
    writes(&rt, [three, interrupted, Call::Takes(9)], failed, "1 0");
    writes(&rt, [three, Call::Takes(0), Call::Takes(9)], failed, "1 0");
}

/// A writer that takes so many bytes a call at most, and so many in all, and then fails.
#[derive(Drop)]
struct Limited {
    taken: Vec<u8>,
    most: usize,
    left: usize,
}

impl Write for Limited {
    fn write(&mut self, buf: &[u8]) -> io::Result<usize> {
        let count = self.most.min(self.left).min(buf.len());
        if count == 0 {
            return Err(Error::from(ErrorKind::BrokenPipe));
        }
        self.taken.extend_from_slice(&buf[..count])?;
        self.left -= count;
        Ok(count)
    }

    fn flush(&mut self) -> io::Result<()> {
        Ok(())
    }
}

fn hop(time: u64, lp: u32, value: u64) -> Record {
    Record {
        time,
        priority: 0,
        lp,
        kind: 1,
        value,
    }
}

/// The records of two tokens that hop twice.
fn hops() -> [Record; 6] {
    [
        hop(1, 0, 1),
        hop(2, 1, 2),
        hop(3, 1, 513),
        hop(4, 0, 258),
        hop(5, 0, 66049),
        hop(6, 1, 131330),
    ]
}

// So many bytes of their text must go out, in pieces of at most so many; and the answer tells whether it is whole.
fn goes_out(
    rt: &(impl Abort + AllocGlobal),
    version: Version,
    text: &str,
    most: usize,
    left: usize,
) {
    let mut writer = Limited {
        taken: Vec::new(rt.alloc()),
        most,
        left,
    };
    let answer = print_records(&mut writer, &hops(), version);
    let want = if left < text.len() {
        Err(Fault::Output)
    } else {
        Ok(())
    };
    holds(rt, answer == want, "whole, or refused");
    let bytes = text.as_bytes();
    let (wanted, _) = bytes.split_at_checked(left).unwrap_or((bytes, &[]));
    holds(rt, writer.taken.as_slice() == wanted, text);
}

const ONE: &str = "1 0 1 1\n2 1 1 2\n3 1 1 513\n4 0 1 258\n5 0 1 66049\n6 1 1 131330\n";

const TWO: &str =
    "twarp-records 2\n1 0 0 1 1\n2 0 1 1 2\n3 0 1 1 513\n4 0 0 1 258\n5 0 0 1 66049\n6 0 1 1 131330\n";

/// A writer that fails has taken a beginning: just as many bytes as it takes. One byte a call is enough.
#[test]
fn what_goes_out_is_a_beginning(rt: HostRuntime) {
    holds(&rt, ONE.len() == 61 && TWO.len() == 89, "61 and 89 bytes");
    for most in [1, 100] {
        for left in 0..62 {
            goes_out(&rt, Version::One, ONE, most, left);
        }
        for left in 0..90 {
            goes_out(&rt, Version::Two, TWO, most, left);
        }
    }
}

// These bytes are put into the buffer. Then so many must have been written.
fn puts(
    rt: &impl Abort,
    text: &mut TextBuffer,
    written: &mut Vec<u8>,
    bytes: &[u8],
    want: usize,
) -> Result<(), Fail> {
    text.put_bytes(written, bytes)?;
    holds(rt, written.len() == want, "so many bytes are written");
    Ok(())
}

#[test]
fn a_buffer_hands_on_what_has_no_room(rt: HostRuntime) -> Result<(), Fail> {
    let mut written = Vec::new(rt.alloc());
    let mut text = TextBuffer::new();
    text.push_number(12);
    let has_room = text.has_room(TEXT_ROOM - 2) && !text.has_room(TEXT_ROOM - 1);
    holds(&rt, has_room, "room for all but two bytes");
    puts(
        &rt,
        &mut text,
        &mut written,
        &[b'x'; TEXT_ROOM],
        TEXT_ROOM + 2,
    )?;
    puts(&rt, &mut text, &mut written, b"end", TEXT_ROOM + 2)?;
    text.flush(&mut written)?;
    holds(&rt, written.starts_with(b"12x"), "12x begins it");
    holds(&rt, written.ends_with(b"xend"), "xend ends it");
    Ok(())
}

#[test]
fn writes_all_bytes(rt: HostRuntime) -> Result<(), Fail> {
    let mut written = Vec::new(rt.alloc());
    write_bytes(&mut written, b"twarp")?;
    is_text(&rt, &written, "twarp");
    Ok(())
}

// This text must be read as this number, or as none.
fn reads(rt: &impl Abort, text: &str, want: Option<u64>) {
    holds(rt, read_number(text.as_bytes()) == want, text);
}

#[test]
fn reads_numbers_of_digits_alone(rt: HostRuntime) {
    reads(&rt, "0", Some(0));
    reads(&rt, "007", Some(7));
    reads(&rt, "4611686018427387904", Some(4_611_686_018_427_387_904));
    reads(&rt, "18446744073709551615", Some(u64::MAX));
    let none =
        "18446744073709551616|99999999999999999999|000000000000000000001||-1|+1| 1|1_000|0x10|1.0";
    for text in none.split('|') {
        reads(&rt, text, None);
    }
}
