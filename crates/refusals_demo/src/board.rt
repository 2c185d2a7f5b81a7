//! The board alone: cuts, reports and what is announced.

use crate::page::Page;
use crate::playing::{Pages, Player, index, number, play_all, tick, word};
use std::alloc::Global;
use std::io;
use vt_board::{Board, Report};
use vt_key::{MAX_COUNT, When};

/// The board, which a text cuts and reports to.
#[derive(Drop)]
struct Rounds {
    board: Board,
}

impl Rounds {
    fn cut(&mut self, w: u32, page: &mut Page) {
        match self.board.cut(w) {
            Ok(time) => page.number(time.ticks()),
            Err(fault) => page.refusal(fault),
        }
    }

    fn report(&mut self, line: &str, page: &mut Page) {
        let (w, sent, got) = (index(line, 1), number(line, 2), number(line, 3));
        match self.board.report(w, sent, got, tick(line, 4)) {
            Ok(report) => tell_report(report, page),
            Err(fault) => page.refusal(fault),
        }
    }
}

/// Tells what came of a report.
pub(crate) fn tell_report(report: Report, page: &mut Page) {
    match report {
        Report::Waiting => page.word("waiting"),
        Report::Again => page.word("again"),
        Report::Announced(time) => page.number(time.ticks()),
    }
}

impl Player for Rounds {
    fn play(&mut self, alloc: Global, line: &str, page: &mut Page) {
        match word(line, 0) {
            "cut" => self.cut(index(line, 1), page),
            "report" => self.report(line, page),
            "announced" => self.tell_all(alloc, page),
            _ => page.word("unknown"),
        }
    }

    fn tell_all(&mut self, _alloc: Global, page: &mut Page) {
        page.number(self.board.announced().ticks());
    }
}

/// `report W SENT GOT LEAST`: a round in two passes, and a report below what it announced.
const ROUND: &str = "\
announced
report 0 0 0 10
cut 0
cut 0
report 0 1 0 10
cut 1
report 0 1 0 10
report 0 1 0 10
report 1 0 0 2
announced
report 0 1 0 10
report 1 0 1 2
announced
cut 1
cut 0
report 0 0 0 1
report 0 0 0 11
cut 2
report 2 0 0 10
announced";

/// Both sums have 65 bits: they aren't 0.
const LARGE_SUMS: &str = "\
cut 0
cut 1
report 0 9223372036854775808 0 10
report 1 9223372036854775808 0 10
announced";

/// The last round that can be counted.
const LAST_ROUND: &str = "\
cut 0
cut 1
report 0 0 0 10
report 1 0 0 10
cut 0
cut 0
announced";

/// Boards of two workers.
pub(crate) fn boards(rt: &HostRuntime, pages: &mut Pages) -> io::Result<()> {
    let end = When::tick(10);
    for lines in [ROUND, LARGE_SUMS] {
        let board = Board::new(2, end);
        play_all(rt, &mut Rounds { board }, pages, lines)?;
    }
    let board = Board::with_rounds(2, end, MAX_COUNT - 1);
    play_all(rt, &mut Rounds { board }, pages, LAST_ROUND)
}
