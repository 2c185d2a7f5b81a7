//! How a text is played: a line for each call, and behind ` =` what it answers.

use crate::page::Page;
use std::alloc::Global;
use std::io;
use vt_key::{Fault, Stamp, When};
use vt_model::Record;

/// What the lines of a text are played on.
pub(crate) trait Player {
    /// Makes the call that a line says, and tells what it answers.
    fn play(&mut self, alloc: Global, line: &str, page: &mut Page);

    /// Tells all that its readers tell. A reader that is refused for memory is asked once more.
    fn tell_all(&mut self, alloc: Global, page: &mut Page);

    /// Whether a call that was refused left all as it has to: what was told before and after it is the same.
    fn is_kept(&mut self, _alloc: Global, _line: &str, pages: &Pages) -> bool {
        pages.are_same()
    }
}

/// How a player is made.
pub(crate) trait Opening {
    type Made: Player + Drop;

    fn open(&self, alloc: Global) -> Result<Self::Made, Fault>;
}

/// What a line answered, and what the player told before and after a call that was refused.
#[derive(Drop)]
pub(crate) struct Pages {
    answer: Page,
    before: Page,
    pub(crate) after: Page,
}

impl Pages {
    pub(crate) fn new(alloc: Global) -> Pages {
        Pages {
            answer: Page::new(alloc),
            before: Page::new(alloc),
            after: Page::new(alloc),
        }
    }

    /// Takes the memory, and answers whether it was there.
    pub(crate) fn make_room(&mut self) -> bool {
        self.answer.make_room() && self.before.make_room() && self.after.make_room()
    }

    pub(crate) fn are_same(&self) -> bool {
        self.before.is_same(&self.after)
    }
}

/// The word at this index of a line, or an empty one.
pub(crate) fn word(line: &str, at: usize) -> &str {
    line.split_ascii_whitespace().nth(at).unwrap_or("")
}

/// The number at this index of a line, or 0.
pub(crate) fn number(line: &str, at: usize) -> u64 {
    word(line, at).parse::<u64>().unwrap_or(0)
}

/// The number of a process, a worker or the like at this index of a line, or 0.
pub(crate) fn index(line: &str, at: usize) -> u32 {
    word(line, at).parse::<u32>().unwrap_or(0)
}

/// The time of this tick.
pub(crate) fn tick(line: &str, at: usize) -> When {
    When::tick(number(line, at))
}

/// The stamp of a worker and a serial from this index of a line on.
pub(crate) fn stamp(line: &str, at: usize) -> Stamp {
    Stamp {
        worker: index(line, at),
        serial: number(line, at.saturating_add(1)),
    }
}

fn tell_page<P: Player>(alloc: Global, player: &mut P, page: &mut Page) {
    page.clear();
    player.tell_all(alloc, page);
}

fn play_onto<P: Player>(alloc: Global, player: &mut P, line: &str, page: &mut Page) {
    page.clear();
    player.play(alloc, line, page);
}

fn print_line(rt: &HostRuntime, name: &str, what: &str) -> io::Result<()> {
    println!(rt; "{name} {what}")
}

fn print_answer(rt: &HostRuntime, line: &str, answer: &Page) -> io::Result<()> {
    let answer = answer.text();
    println!(rt; "{line} ={answer}")
}

/// Prints the records that a call gave.
pub(crate) fn print_records(
    rt: &HostRuntime,
    pages: &mut Pages,
    name: &str,
    given: Result<Vec<Record>, Fault>,
) -> io::Result<()> {
    pages.answer.clear();
    pages.answer.records_given(given);
    print_answer(rt, name, &pages.answer)
}

/// Prints that a call was refused for memory, and whether all was as before.
pub(crate) fn print_refused(rt: &HostRuntime, name: &str, is_kept: bool) -> io::Result<()> {
    let what = if is_kept {
        "refused and kept"
    } else {
        "refused and CHANGED"
    };
    print_line(rt, name, what)
}

// Plays a line, and prints its answer. Where it is refused for memory, a line tells whether all was as before, and the call is made again.
fn play_line<P: Player>(
    rt: &HostRuntime,
    player: &mut P,
    pages: &mut Pages,
    line: &str,
) -> io::Result<()> {
    tell_page(rt.alloc(), player, &mut pages.before);
    play_onto(rt.alloc(), player, line, &mut pages.answer);
    if pages.answer.is_refused() {
        tell_page(rt.alloc(), player, &mut pages.after);
        print_refused(rt, line, player.is_kept(rt.alloc(), line, pages))?;
        play_onto(rt.alloc(), player, line, &mut pages.answer);
    }
    print_answer(rt, line, &pages.answer)
}

/// Plays the lines of a text.
pub(crate) fn play_all<P: Player>(
    rt: &HostRuntime,
    player: &mut P,
    pages: &mut Pages,
    lines: &str,
) -> io::Result<()> {
    for line in lines.split('\n') {
        play_line(rt, player, pages, line)?;
    }
    Ok(())
}

/// Prints what came of making a player.
pub(crate) fn print_made(rt: &HostRuntime, name: &str, made: Result<(), Fault>) -> io::Result<()> {
    match made {
        Ok(()) => print_line(rt, name, "ok"),
        Err(fault) => println!(rt; "{name} refused {}", fault.number()),
    }
}

/// Whether a call was refused for memory.
pub(crate) fn is_refused<T>(answer: &Result<T, Fault>) -> bool {
    matches!(answer, Err(Fault::Memory))
}

/// Makes a player by the call of this name, and once more where it is refused for memory. Then it plays the lines of a text.
pub(crate) fn play_new<O: Opening>(
    rt: &HostRuntime,
    pages: &mut Pages,
    name: &str,
    opening: &O,
    lines: &str,
) -> io::Result<()> {
    let mut made = opening.open(rt.alloc());
    if is_refused(&made) {
        print_refused(rt, name, true)?;
        made = opening.open(rt.alloc());
    }
    match made {
        Ok(mut player) => {
            print_made(rt, name, Ok(()))?;
            play_all(rt, &mut player, pages, lines)
        }
        Err(fault) => print_made(rt, name, Err(fault)),
    }
}
