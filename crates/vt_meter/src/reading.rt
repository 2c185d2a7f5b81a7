//! What is known of a run at a moment, and the lines that tell it.

use std::alloc::{AllocError, Global};

/// What is known of a run at a moment.
#[derive(Debug, Clone, Copy)]
pub struct Reading {
    /// The tick at which the run ends.
    pub end: u64,
    /// The announced time: the tick before which no event is undone any more, or in one thread the tick of the next event.
    pub tick: u64,
    /// Whether the run is one on workers.
    pub on_workers: bool,
    /// How many events were executed.
    pub executed: u64,
    /// How many of them were undone.
    pub undone: u64,
    /// How many records of traps were written. A trap in a start counts at each event of its process, and one in a finish never.
    pub trapped: u64,
}

impl Reading {
    /// How many events were executed and not undone. When the run has ended, these are the committed ones.
    pub fn kept(&self) -> u64 {
        self.executed.saturating_sub(self.undone)
    }
}

/// A number of hundredths, with two digits behind the point.
fn hundredths(alloc: Global, count: u64) -> Result<String, AllocError> {
    let ones = count % 10;
    let tens = count / 10 % 10;
    let whole = count / 100;
    format!(in alloc; "{whole}.{tens}{ones}")
}

/// The line of a run that goes on: the announced time and the end, and how many events a second were executed and not
/// undone since an earlier reading, so many milliseconds before. On workers also how many events were executed for each that
/// wasn't undone.
///
/// An error means that memory was refused.
pub fn line(
    alloc: Global,
    now: &Reading,
    before: &Reading,
    millis: u64,
) -> Result<String, AllocError> {
    let tick = now.tick;
    let end = now.end;
    let fresh = now.kept().saturating_sub(before.kept());
    let rate = fresh.saturating_mul(1_000) / millis.max(1);
    if !now.on_workers {
        return format!(in alloc; "time {tick} of {end}, {rate} events a second");
    }
    let ratio = hundredths(alloc, now.executed.saturating_mul(100) / now.kept().max(1))?;
    let ratio = ratio.as_str();
    format!(in alloc;
        "time {tick} of {end}, {rate} events a second, {ratio} executed for 1 committed"
    )
}

/// What a last line says of handlers that trapped: nothing where none did.
fn trapped(alloc: Global, count: u64) -> Result<String, AllocError> {
    match count {
        0 => format!(in alloc; ""),
        1 => format!(in alloc; ", 1 handler trapped"),
        _ => format!(in alloc; ", {count} handlers trapped"),
    }
}

/// The last line of a run that took so many milliseconds: how many events were executed and not undone, and the seconds. On
/// workers also how many were undone. Where handlers trapped, also how many.
///
/// An error means that memory was refused.
pub fn last_line(alloc: Global, whole: &Reading, millis: u64) -> Result<String, AllocError> {
    let kept = whole.kept();
    let undone = whole.undone;
    let seconds = millis / 1_000;
    let tenth = millis / 100 % 10;
    let trapped = trapped(alloc, whole.trapped)?;
    let trapped = trapped.as_str();
    if !whole.on_workers {
        return format!(in alloc; "{kept} events in {seconds}.{tenth} seconds{trapped}");
    }
    format!(in alloc; "{kept} events in {seconds}.{tenth} seconds, {undone} undone{trapped}")
}
