//! Runs on two workers, in threads.

use std::alloc::AllocGlobal;
use std::io::{self, Print};
use std::sync::Wait;
use std::sync::atomic::{AtomicU64, Ordering};
use std::thread::Threads;
use vt_model::{Config, Record};
use vt_models::Hop;
use vt_station::{Gate, Stopped, run_workers};

const TURNS: u64 = 100_000;

fn record(time: u64, lp: u32, value: u64) -> Record {
    Record {
        time,
        priority: 0,
        lp,
        kind: 1,
        value,
    }
}

// All that two tokens of two hops leave.
fn all_records() -> [Record; 6] {
    [
        record(1, 0, 1),
        record(2, 1, 2),
        record(3, 1, 513),
        record(4, 0, 258),
        record(5, 0, 66049),
        record(6, 1, 131330),
    ]
}

/// Counts the executions that a run tells it of.
#[derive(Drop)]
struct Counter {
    executions: AtomicU64,
}

impl Gate for Counter {
    fn before_execute(&self, _worker: u32, _turn: u64) {
        self.executions.fetch_add(1, Ordering::SeqCst);
    }
}

// Two tokens that hop twice, on two workers, each of so many turns. Nothing if the options were refused, which they aren't.
fn run<R: Threads + Wait + Sync + AllocGlobal>(
    rt: &R,
    gate: &Counter,
    turns: u64,
) -> Option<Result<Vec<Record>, Stopped>> {
    match (Hop::new(2, 1, 2, 0), Config::new(2, 2, 10, 0)) {
        (Ok(model), Ok(config)) => Some(run_workers(rt, rt.alloc(), config, &model, gate, turns)),
        _ => None,
    }
}

/// How a run ended.
#[derive(Clone, Copy, PartialEq, Eq)]
enum End {
    /// With all records, each of which the gate was told of.
    Whole,
    /// By this fault, with so many records that begin all.
    Stopped(u32, usize),
    /// With other records.
    Wrong,
}

fn end_of(ran: &Option<Result<Vec<Record>, Stopped>>, executions: u64) -> End {
    match ran {
        Some(Ok(records)) if executions >= 6 && records.as_slice() == &all_records()[..] => {
            End::Whole
        }
        Some(Err(stopped)) if all_records().starts_with(&stopped.records) => {
            End::Stopped(stopped.fault.number(), stopped.records.len())
        }
        _ => End::Wrong,
    }
}

fn ended<R: Threads + Wait + Sync + AllocGlobal>(rt: &R, turns: u64) -> End {
    let gate = Counter {
        executions: AtomicU64::new(0),
    };
    let ran = run(rt, &gate, turns);
    end_of(&ran, gate.executions.load(Ordering::SeqCst))
}

/// A run of many turns. A line tells that all was committed, or why the run stopped and how many records it left.
pub(crate) fn hops<R: Threads + Wait + Sync + Print + AllocGlobal>(rt: &R) -> io::Result<()> {
    match ended(rt, TURNS) {
        End::Whole => println!(rt; "run_workers ok"),
        End::Stopped(number, count) => println!(rt; "run_workers stopped {number} {count}"),
        End::Wrong => println!(rt; "run_workers WRONG"),
    }
}

// Whether a run of so many turns may end so: one turn can't close a round, so that nothing is committed.
fn may_end(turns: u64, end: End) -> bool {
    match end {
        End::Whole => turns > 1,
        End::Stopped(number, count) => number == 6 && (turns > 1 || count == 0),
        End::Wrong => false,
    }
}

/// Runs whose turns may end before the run does: each leaves all records, or a beginning since its turns are spent.
pub(crate) fn turns<R: Threads + Wait + Sync + Print + AllocGlobal>(rt: &R) -> io::Result<()> {
    for turns in 1..51u64 {
        let what = if may_end(turns, ended(rt, turns)) {
            "right"
        } else {
            "WRONG"
        };
        println!(rt; "run_workers {turns} = {what}")?;
    }
    Ok(())
}
