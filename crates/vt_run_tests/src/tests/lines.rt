//! The lines that tell of a run, as they are written down by hand.

use crate::tests::told::is_text;
use std::alloc::AllocGlobal;
use std::process::Abort;
use std::rt::HostRuntime;
use std::test::Fail;
use vt_meter::{Reading, last_line, line};

fn reading(tick: u64, on_workers: bool, executed: u64, undone: u64) -> Reading {
    Reading {
        end: 2_000,
        tick,
        on_workers,
        executed,
        undone,
        trapped: 0,
    }
}

// The line of this reading, so many milliseconds after another one, must be this text.
fn tells(
    rt: &(impl Abort + AllocGlobal),
    now: &Reading,
    before: &Reading,
    milliseconds: u64,
    want: &str,
) -> Result<(), Fail> {
    let text = line(rt.alloc(), now, before, milliseconds)?;
    is_text(rt, text.as_str(), want);
    Ok(())
}

#[test]
fn a_line_tells_time_and_rate(rt: HostRuntime) -> Result<(), Fail> {
    let (before, now) = (reading(100, false, 5_000, 0), reading(150, false, 6_000, 0));
    let want = "time 150 of 2000, 2000 events a second";
    tells(&rt, &now, &before, 500, want)?;
    let (before, now) = (
        reading(100, true, 5_000, 500),
        reading(150, true, 6_180, 680),
    );
    let want = "time 150 of 2000, 2000 events a second, 1.12 executed for 1 committed";
    tells(&rt, &now, &before, 500, want)
}

#[test]
fn any_numbers_have_a_line(rt: HostRuntime) -> Result<(), Fail> {
    let (most, none) = (
        reading(u64::MAX, true, u64::MAX, 0),
        reading(0, true, 0, u64::MAX),
    );
    let want = "time 0 of 2000, 0 events a second, 0.00 executed for 1 committed";
    tells(&rt, &none, &most, 0, want)?;
    line(rt.alloc(), &most, &none, 0)?;
    last_line(rt.alloc(), &most, u64::MAX)?;
    Ok(())
}

// The last line of this reading, after so many milliseconds, must be this text.
fn ends_with(
    rt: &(impl Abort + AllocGlobal),
    end: &Reading,
    milliseconds: u64,
    want: &str,
) -> Result<(), Fail> {
    let text = last_line(rt.alloc(), end, milliseconds)?;
    is_text(rt, text.as_str(), want);
    Ok(())
}

#[test]
fn the_last_line_tells_events_and_seconds(rt: HostRuntime) -> Result<(), Fail> {
    let alone = reading(2_000, false, 12_345, 0);
    ends_with(&rt, &alone, 61_990, "12345 events in 61.9 seconds")?;
    let together = reading(2_000, true, 12_345, 345);
    ends_with(
        &rt,
        &together,
        2_000,
        "12000 events in 2.0 seconds, 345 undone",
    )
}

#[test]
fn the_last_line_tells_traps(rt: HostRuntime) -> Result<(), Fail> {
    let one = Reading {
        trapped: 1,
        ..reading(2_000, false, 7, 0)
    };
    ends_with(&rt, &one, 100, "7 events in 0.1 seconds, 1 handler trapped")?;
    let some = Reading {
        trapped: 12,
        ..reading(2_000, true, 20, 3)
    };
    let want = "17 events in 0.0 seconds, 3 undone, 12 handlers trapped";
    ends_with(&rt, &some, 99, want)
}
