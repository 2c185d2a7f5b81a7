//! Final values from workers.

use crate::tests::listener::Listener;
use crate::tests::running::{TURNS, all_records, two_hops};
use crate::tests::told::holds;
use std::alloc::AllocGlobal;
use std::process::Abort;
use std::rt::HostRuntime;
use std::sync::Wait;
use std::thread::Threads;
use vt_key::Fault;
use vt_model::Config;
use vt_station::{Finished, Stopped, run_workers_to_finals};

// The run with two hops on so many workers, each of so many turns.
fn finals<R: Abort + AllocGlobal + Threads + Wait + Sync>(
    rt: &R,
    workers: u32,
    turns: u64,
) -> Result<Finished, Stopped> {
    let config = Config::new(2, workers, 10, 0).expect(rt, "config");
    let model = two_hops(rt);
    let listener = Listener::new(false);
    run_workers_to_finals(rt, rt.alloc(), config, &model, &listener, &listener, turns)
}

fn is_whole(finished: &Finished) -> bool {
    finished.records.as_slice() == &all_records()[..]
        && finished.finals.as_slice() == &[66049, 131330][..]
}

fn has_spent_its_turns(stopped: &Stopped) -> bool {
    stopped.fault == Fault::TurnsSpent && stopped.records.as_slice() == &all_records()[..4]
}

#[test]
fn hops_end_with_their_last_values(rt: HostRuntime) {
    let is_so = match finals(&rt, 2, TURNS) {
        Ok(finished) => is_whole(&finished),
        Err(_) => false,
    };
    holds(&rt, is_so, "the whole run");
}

#[test]
fn a_run_that_stops_has_no_finals(rt: HostRuntime) {
    let is_so = match finals(&rt, 1, 2) {
        Ok(_) => false,
        Err(stopped) => has_spent_its_turns(&stopped),
    };
    holds(&rt, is_so, "four records of a run whose turns are spent");
}
