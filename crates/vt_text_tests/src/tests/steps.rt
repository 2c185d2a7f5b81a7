//! Step texts that are read, and replies and states that are printed.

use crate::tests::told::{holds, is_text};
use std::alloc::Global;
use std::io::{self, Error, ErrorKind, Read};
use std::rt::HostRuntime;
use std::test::Fail;
use vt_key::{Fault, When};
use vt_step_text::{REPLY_LEN, print_reply, print_state, read_input};
use vt_steps::Reply;
use vt_text::Version;

/// A line of each step, and lines that are passed over.
const TEXT: &str = "\n# execute 9\nhome 1\nexecute 1\nsend 0 1\nfetch 1\naccept 1 0\nundo 1\n#\n\n\
    cancel 0 1 1\ncut 0\nreport 0\ncommit 0\nclose\n";

/// A reader that gives a number of pieces of a text and then fails.
#[derive(Drop)]
struct Failing<'a> {
    rest: &'a [u8],
    reads: usize,
    kind: ErrorKind,
}

impl<'a> Read for Failing<'a> {
    fn read(&mut self, buf: &mut [u8]) -> io::Result<usize> {
        if self.reads == 0 {
            return Err(Error::from(self.kind));
        }
        self.reads -= 1;
        let count = buf.len().min(self.rest.len()).min(10);
        let (piece, rest) = self.rest.split_at(count);
        buf[..count].copy_from_slice(piece);
        self.rest = rest;
        Ok(count)
    }
}

// Whether a text whose reader fails after so many pieces is refused.
fn fails(alloc: Global, rest: &[u8], reads: usize, kind: ErrorKind) -> bool {
    let input = read_input(alloc, &mut Failing { rest, reads, kind });
    matches!(input, Err(Fault::BadOption("input")))
}

#[test]
fn a_failed_read_refuses_the_input(rt: HostRuntime) -> Result<(), Fail> {
    let rest = TEXT.as_bytes();
    let pieces = rest.len().div_ceil(10);
    for reads in 0..=pieces {
        for kind in [
            ErrorKind::Interrupted,
            ErrorKind::UnexpectedEof,
            ErrorKind::BrokenPipe,
        ] {
            holds(&rt, fails(rt.alloc(), rest, reads, kind), "a failed read");
        }
    }
    let reads = pieces.saturating_add(1);
    let kind = ErrorKind::BrokenPipe;
    let input = read_input(rt.alloc(), &mut Failing { rest, reads, kind })?;
    is_text(&rt, &input, TEXT);
    Ok(())
}

/// The numbers are the largest that there are, and no replay has such a line.
#[test]
fn prints_the_largest_reply(rt: HostRuntime) -> Result<(), Fail> {
    let mut text = Vec::new(rt.alloc());
    let announced = Ok(Reply::Announced(When::new(u64::MAX, 255)));
    print_reply(&mut text, u64::MAX, &announced)?;
    let want = "18446744073709551615 announced 18446744073709551615 255\n";
    is_text(&rt, &text, want);
    holds(&rt, text.len() <= REPLY_LEN, "the most bytes of a reply");
    Ok(())
}

#[test]
fn prints_what_the_world_shows(rt: HostRuntime) -> Result<(), Fail> {
    let mut text = Vec::new(rt.alloc());
    let [announced, floor, least] = [When::new(3, 5), When::new(1, 6), When::new(2, 7)];
    print_state(&mut text, announced, floor, least, &[], Version::Two)?;
    let want = "announced 3 5\nfloor 1 6\nleast 2 7\nrecords 0\ntwarp-records 2\n";
    is_text(&rt, &text, want);
    Ok(())
}
