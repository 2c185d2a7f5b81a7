//! Runs, and what is expected of them.

use crate::tests::listener::Listener;
use crate::tests::told::holds;
use std::alloc::AllocGlobal;
use std::process::Abort;
use std::sync::Wait;
use std::thread::Threads;
use vt_model::{Config, Record};
use vt_models::Hop;
use vt_station::{Stopped, run_workers_watched};

/// As many turns as the program grants a worker.
pub const TURNS: u64 = 10_000_000;

pub fn record(time: u64, lp: u32, kind: u32, value: u64) -> Record {
    Record {
        time,
        priority: 0,
        lp,
        kind,
        value,
    }
}

/// Two tokens of two hops, with a delay of two.
pub fn two_hops(rt: &impl Abort) -> Hop {
    Hop::new(2, 1, 2, 0).expect(rt, "options")
}

/// All that the run with two hops commits before 10.
pub fn all_records() -> [Record; 6] {
    [
        record(1, 0, 1, 1),
        record(2, 1, 1, 2),
        record(3, 1, 1, 513),
        record(4, 0, 1, 258),
        record(5, 0, 1, 66049),
        record(6, 1, 1, 131330),
    ]
}

fn is_whole(run: &Result<Vec<Record>, Stopped>) -> bool {
    match run {
        Ok(records) => records.as_slice() == &all_records()[..],
        Err(_) => false,
    }
}

// A run of two processes to an end on so many workers, with a listener as its gate and its watch.
fn ran<R: Abort + AllocGlobal + Threads + Wait + Sync>(
    rt: &R,
    model: &Hop,
    workers: u32,
    end: u64,
    listener: &Listener,
) -> Result<Vec<Record>, Stopped> {
    let config = Config::new(2, workers, end, 0).expect(rt, "config");
    run_workers_watched(rt, rt.alloc(), config, model, listener, listener, TURNS)
}

/// A run on one worker, to which this listens, of two tokens of a hundred hops: 202 events. It goes to its end.
pub fn hops_long<R: Abort + AllocGlobal + Threads + Wait + Sync>(rt: &R, listener: &Listener) {
    let model = Hop::new(100, 1, 2, 0).expect(rt, "options");
    let run = ran(rt, &model, 1, 1_000, listener);
    holds(rt, run.is_ok(), "a long run");
}

/// The run on so many workers, to which this listens, goes to its end and has all records.
pub fn goes_to_its_end<R: Abort + AllocGlobal + Threads + Wait + Sync>(
    rt: &R,
    workers: u32,
    listener: &Listener,
) {
    let run = ran(rt, &two_hops(rt), workers, 10, listener);
    holds(rt, is_whole(&run), "the records of the run");
}
