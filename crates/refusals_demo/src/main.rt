//! Plays texts of calls on what no run of `twarp` shows alone: a process, workers, the board, the book, a world, a station's workers and
//! the sequential simulator: `refusals_demo SCENARIO`, or all scenarios without a word.
//!
//! A line for each call: `CALL = ANSWER`, with answers that were worked out from the rules of the steps. Where a call is refused for
//! memory, all that readers tell is compared with what they told before, and the same call is made again: `CALL refused and kept`, or
//! `CALL refused and CHANGED`. A library that is preloaded and refuses memory shows by these lines what a refusal leaves.
#![tactic(auto)]

mod board;
mod book;
mod counting;
mod page;
mod playing;
mod process;
mod running;
mod sequential;
mod station;
mod workers;
mod world;

use playing::Pages;
use std::process::ExitCode;
use std::{env, io};

// A scenario's name, or nothing where the words name none.
fn words_of(rt: &HostRuntime) -> io::Result<Vec<String>> {
    Ok(env::args(rt)?.collect(rt.alloc())?)
}

// Plays the texts of this name on what a station is made of, and tells whether there are some.
fn play_part(rt: &HostRuntime, pages: &mut Pages, name: &str) -> io::Result<bool> {
    match name {
        "process" => process::straggler(rt, pages)?,
        "handlers" => process::handlers(rt, pages)?,
        "jobs" => process::empty_station(rt, pages)?,
        "workers" => workers::pairs(rt, pages)?,
        "serials" => workers::serials(rt, pages)?,
        "board" => board::boards(rt, pages)?,
        "book" => book::hand_ins(rt, pages)?,
        _ => return Ok(false),
    }
    Ok(true)
}

// Plays the texts of this name, and tells whether there are some.
fn play(rt: &HostRuntime, pages: &mut Pages, name: &str) -> io::Result<bool> {
    match name {
        "sequential" => sequential::hops(rt, pages)?,
        "stations" => sequential::jobs(rt, pages)?,
        "phold" => sequential::tokens(rt, pages)?,
        "ticks" => sequential::busy_ticks(rt, pages)?,
        "world" => world::straggler(rt, pages)?,
        "orders" => world::orders(rt, pages)?,
        "stop" => world::stop(rt, pages)?,
        "station" => station::straggler(rt, pages)?,
        "handed_out" => station::handed_out(rt, pages)?,
        "refusals" => station::refusals(rt, pages)?,
        "alone" => station::alone(rt, pages)?,
        "taken_out" => station::taken_out(rt, pages)?,
        "into_records" => station::into_records(rt, pages)?,
        _ => return play_part(rt, pages, name),
    }
    Ok(true)
}

const SCENARIOS: [&str; 20] = [
    "sequential",
    "stations",
    "phold",
    "ticks",
    "process",
    "handlers",
    "jobs",
    "workers",
    "serials",
    "board",
    "book",
    "world",
    "orders",
    "stop",
    "station",
    "handed_out",
    "refusals",
    "alone",
    "taken_out",
    "into_records",
];

fn play_named(rt: &HostRuntime, pages: &mut Pages, words: &[String]) -> io::Result<bool> {
    let Some(name) = words.get(1) else {
        for name in SCENARIOS {
            play(rt, pages, name)?;
        }
        return Ok(true);
    };
    play(rt, pages, name.as_str())
}

// Whether one run of many turns is asked for, which is no part of all scenarios.
fn is_running(words: &[String]) -> bool {
    words.get(1).is_some_and(|name| name.as_str() == "running")
}

fn main(rt: HostRuntime) -> ExitCode {
    let Ok(words) = words_of(&rt) else {
        return ExitCode::from(1);
    };
    if is_running(&words) {
        return ExitCode::from(running::hops(&rt).is_err() as u8);
    }
    let mut pages = Pages::new(rt.alloc());
    if !pages.make_room() {
        return ExitCode::from(1);
    }
    match play_named(&rt, &mut pages, &words) {
        Ok(true) if words.len() < 2 => ExitCode::from(running::turns(&rt).is_err() as u8),
        Ok(true) => ExitCode::from(0),
        Ok(false) => ExitCode::from(2),
        Err(_) => ExitCode::from(1),
    }
}
