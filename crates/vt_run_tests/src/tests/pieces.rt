//! Runs in pieces.

use crate::tests::listener::Listener;
use crate::tests::running::{all_records, two_hops};
use crate::tests::told::holds;
use std::alloc::AllocGlobal;
use std::process::Abort;
use std::rt::HostRuntime;
use std::sync::Wait;
use std::thread::Threads;
use vt_model::{Config, Record};
use vt_models::Hop;
use vt_station::{Bells, Crew, Standing, Station, Wanted};

/// The most pieces of a run, each of which has sixteen turns of a worker.
const MOST_PIECES: u64 = 10_000;

/// Makes a run in pieces, and gives what all pieces have handed out, one after the other. It is empty if the run isn't whole.
fn in_pieces<R: Abort + AllocGlobal + Threads + Wait + Sync>(
    rt: &R,
    crew: &mut Crew<'_, Hop>,
) -> Vec<Record> {
    let listener = Listener::new(false);
    let mut all = Vec::new(rt.alloc());
    let mut records = Vec::new(rt.alloc());
    for piece in 0..MOST_PIECES {
        let standing = crew.work(rt, rt.alloc(), &listener, &listener, 16 * (piece + 1));
        crew.hand_out(all.len(), &mut records).expect(rt, "records");
        all.extend_from_slice(records.as_slice())
            .expect(rt, "memory");
        if let Standing::Whole = standing {
            return all;
        }
    }
    Vec::new(rt.alloc())
}

/// A run that is whole makes no turn more, and has nothing more to hand out.
fn is_over<R: Abort + AllocGlobal + Threads + Wait + Sync>(
    rt: &R,
    crew: &mut Crew<'_, Hop>,
) -> bool {
    let listener = Listener::new(false);
    let mut records = Vec::new(rt.alloc());
    let standing = crew.work(rt, rt.alloc(), &listener, &listener, 16 * MOST_PIECES + 1);
    let handed = crew.hand_out(all_records().len(), &mut records);
    match standing {
        Standing::Whole => handed.is_ok() && records.is_empty(),
        _ => false,
    }
}

/// Whether the final values are there.
fn has_ended(rt: &impl AllocGlobal, crew: &Crew<'_, Hop>) -> bool {
    match crew.finals(rt.alloc()) {
        Ok(finals) => finals.as_slice() == &[66049, 131330][..],
        Err(_) => false,
    }
}

#[test]
fn a_run_in_pieces_hands_each_record_out_once(rt: HostRuntime) {
    let model = two_hops(&rt);
    let config = Config::new(2, 2, 10, 0).expect(&rt, "config");
    let (station, places) = Station::new(rt.alloc(), &model, config).expect(&rt, "memory");
    let bells = Bells::new(rt.alloc(), 2).expect(&rt, "memory");
    let wanted = Wanted::Finals;
    let mut crew = Crew::new(rt.alloc(), &station, &bells, &model, config, places, wanted).expect(
        &rt, "memory",
    );
    holds(&rt, !has_ended(&rt, &crew), "no final values yet");
    let all = in_pieces(&rt, &mut crew);
    holds(
        &rt,
        all.as_slice() == &all_records()[..],
        "the records of all pieces",
    );
    holds(&rt, is_over(&rt, &mut crew), "a run that is over");
    holds(&rt, has_ended(&rt, &crew), "its final values");
}
