//! The sequential simulator.

use crate::page::Page;
use crate::playing::{Opening, Pages, Player, index, play_new, tick, word};
use std::alloc::Global;
use std::io;
use vt_key::{Fault, When};
use vt_model::{Config, Model as EventModel, Record};
use vt_models::{Hop, Phold, Stations};
use vt_seq::Sequential;

/// A run, and what it was made of. Its calls say nothing: what is known of the run isn't carried from call to call.
#[derive(Drop)]
struct Run<'m, M: EventModel> {
    model: &'m M,
    config: Config,
    run: Sequential<'m, M>,
}

impl<'m, M: EventModel> Run<'m, M> {
    fn new(alloc: Global, model: &'m M, config: Config) -> Result<Run<'m, M>, Fault> {
        match Sequential::new(alloc, model, config) {
            Ok(run) => Ok(Run { model, config, run }),
            Err(fault) => Err(fault),
        }
    }

    fn step(&mut self) -> Result<bool, Fault> {
        self.run.step()
    }

    fn whole(&mut self, alloc: Global) -> Result<Vec<Record>, Fault> {
        self.run.run(alloc)
    }

    fn records(&self, alloc: Global, time: When) -> Result<Vec<Record>, Fault> {
        self.run.records_below(alloc, time)
    }

    // No process has an end while an event is pending.
    fn finals(&self, alloc: Global) -> Result<Vec<u64>, Fault> {
        self.run.finals(alloc)
    }

    // Its send number and its place, if it is there.
    fn process_of(&self, p: u32) -> [Option<u64>; 2] {
        [self.run.number(p), self.run.place(p)]
    }

    fn tell_process(&self, p: u32, page: &mut Page) {
        let [number, place] = self.process_of(p);
        page.some(number);
        page.some(place);
    }

    fn records_or_again(&self, alloc: Global) -> Result<Vec<Record>, Fault> {
        match self.records(alloc, self.config.end()) {
            Err(Fault::Memory) => self.records(alloc, self.config.end()),
            given => given,
        }
    }

    fn finals_or_again(&self, alloc: Global) -> Result<Vec<u64>, Fault> {
        match self.finals(alloc) {
            Err(Fault::Memory) => self.finals(alloc),
            given => given,
        }
    }

    // Whether a run tells this after some steps, up to a hundred.
    fn comes_to(&mut self, alloc: Global, wanted: &Page, page: &mut Page) -> bool {
        for _ in 0..100 {
            page.clear();
            self.tell_run(alloc, page);
            if page.is_same(wanted) {
                return true;
            }
            if !matches!(self.step(), Ok(true)) {
                return false;
            }
        }
        false
    }

    // Whether another run, step by step, comes to tell this.
    fn is_on_the_way(&self, alloc: Global, wanted: &Page) -> bool {
        match Run::new(alloc, self.model, self.config) {
            Ok(mut twin) => twin.comes_to(alloc, wanted, &mut Page::new(alloc)),
            Err(_) => false,
        }
    }
}

// The records in their order as one number.
fn folded(records: &[Record]) -> u64 {
    let mut sum = 0_u64;
    for record in records {
        for part in [record.time, u64::from(record.lp), record.value] {
            sum = sum.wrapping_mul(31).wrapping_add(part);
        }
    }
    sum
}

// Tells how many records there are, and all of them as one number.
fn tell_folded(given: Result<Vec<Record>, Fault>, page: &mut Page) {
    match given {
        Ok(records) => page.numbers(&[records.len() as u64, folded(&records)]),
        Err(fault) => page.refusal(fault),
    }
}

fn tell_step(answer: Result<bool, Fault>, page: &mut Page) {
    match answer {
        Ok(true) => page.word("true"),
        Ok(false) => page.word("false"),
        Err(fault) => page.refusal(fault),
    }
}

impl<'m, M: EventModel> Run<'m, M> {
    fn play_line(&mut self, alloc: Global, line: &str, page: &mut Page) {
        match word(line, 0) {
            "step" => tell_step(self.step(), page),
            "run" => page.records_given(self.whole(alloc)),
            "run_folded" => tell_folded(self.whole(alloc), page),
            "records_below" => page.records_given(self.records(alloc, tick(line, 1))),
            "finals" => page.numbers_given(self.finals(alloc)),
            "process" => self.tell_process(index(line, 1), page),
            _ => page.word("unknown"),
        }
    }

    fn tell_run(&self, alloc: Global, page: &mut Page) {
        self.tell_process(0, page);
        self.tell_process(1, page);
        page.records_given(self.records_or_again(alloc));
        page.numbers_given(self.finals_or_again(alloc));
    }
}

impl<'m> Player for Run<'m, Hop> {
    fn play(&mut self, alloc: Global, line: &str, page: &mut Page) {
        self.play_line(alloc, line, page);
    }

    fn tell_all(&mut self, alloc: Global, page: &mut Page) {
        self.tell_run(alloc, page);
    }

    // A whole run that is refused keeps the steps before: another run, step by step, comes there.
    fn is_kept(&mut self, alloc: Global, line: &str, pages: &Pages) -> bool {
        match word(line, 0) {
            "run" => self.is_on_the_way(alloc, &pages.after),
            _ => pages.are_same(),
        }
    }
}

impl<'m> Player for Run<'m, Phold> {
    fn play(&mut self, alloc: Global, line: &str, page: &mut Page) {
        self.play_line(alloc, line, page);
    }

    fn tell_all(&mut self, alloc: Global, page: &mut Page) {
        self.tell_run(alloc, page);
    }
}

impl<'m> Player for Run<'m, Stations> {
    fn play(&mut self, alloc: Global, line: &str, page: &mut Page) {
        self.play_line(alloc, line, page);
    }

    fn tell_all(&mut self, alloc: Global, page: &mut Page) {
        self.tell_run(alloc, page);
    }
}

const NEW: &str = "Sequential::new";

#[derive(Drop)]
struct Start<'m, M> {
    model: &'m M,
    config: Config,
}

impl<'m> Opening for Start<'m, Hop> {
    type Made = Run<'m, Hop>;

    fn open(&self, alloc: Global) -> Result<Run<'m, Hop>, Fault> {
        Run::new(alloc, self.model, self.config)
    }
}

impl<'m> Opening for Start<'m, Phold> {
    type Made = Run<'m, Phold>;

    fn open(&self, alloc: Global) -> Result<Run<'m, Phold>, Fault> {
        Run::new(alloc, self.model, self.config)
    }
}

impl<'m> Opening for Start<'m, Stations> {
    type Made = Run<'m, Stations>;

    fn open(&self, alloc: Global) -> Result<Run<'m, Stations>, Fault> {
        Run::new(alloc, self.model, self.config)
    }
}

/// Two tokens that hop twice, event by event, and read on the way. `process` tells the send number and the place.
const STEPS: &str = "\
step
step
step
records_below 3
records_below 10
finals
step
step
step
step
process 0
process 2
records_below 10
finals";

const WHOLE: &str = "\
run
process 1
run";

/// How the processes of a drawn run end.
const ENDINGS: &str = "\
run_folded
finals
process 0
process 1
process 2";

const FOLDED: &str = "run_folded";

/// Two tokens that hop twice: event by event, then at once.
pub(crate) fn hops(rt: &HostRuntime, pages: &mut Pages) -> io::Result<()> {
    let (Ok(model), Ok(config)) = (Hop::new(2, 1, 2, 0), Config::new(2, 1, 10, 0)) else {
        return Ok(());
    };
    let model = &model;
    play_new(rt, pages, NEW, &Start { model, config }, STEPS)?;
    play_new(rt, pages, NEW, &Start { model, config }, WHOLE)
}

fn play_jobs(
    rt: &HostRuntime,
    pages: &mut Pages,
    jobs: Result<Stations, Fault>,
    config: Result<Config, Fault>,
) -> io::Result<()> {
    match (&jobs, config) {
        (Ok(model), Ok(config)) => play_new(rt, pages, NEW, &Start { model, config }, ENDINGS),
        _ => Ok(()),
    }
}

/// How runs of the closed network of stations end, as `expected/models.py` tells, a program of its own in another language:
/// `models.py stations 3 20 258 2 4 3` and `stations 1 5 0 2 1 1`.
pub(crate) fn jobs(rt: &HostRuntime, pages: &mut Pages) -> io::Result<()> {
    let (jobs, config) = (Stations::new(2, 4, 3), Config::new(3, 1, 20, 258));
    play_jobs(rt, pages, jobs, config)?;
    let (jobs, config) = (Stations::new(2, 1, 1), Config::new(1, 1, 5, 0));
    play_jobs(rt, pages, jobs, config)
}

fn play_tokens(
    rt: &HostRuntime,
    pages: &mut Pages,
    tokens: Result<Phold, Fault>,
    config: Result<Config, Fault>,
    lines: &str,
) -> io::Result<()> {
    match (&tokens, config) {
        (Ok(model), Ok(config)) => play_new(rt, pages, NEW, &Start { model, config }, lines),
        _ => Ok(()),
    }
}

/// How runs of PHOLD end: `models.py phold 3 20 258 2 40 2 5`, `phold 2 10 0 1 0 3 1` and `phold 1 4 0 16 0 3 1`.
pub(crate) fn tokens(rt: &HostRuntime, pages: &mut Pages) -> io::Result<()> {
    let (tokens, config) = (Phold::new(2, 40, 2, 5), Config::new(3, 1, 20, 258));
    play_tokens(rt, pages, tokens, config, ENDINGS)?;
    let (tokens, config) = (Phold::new(1, 0, 3, 1), Config::new(2, 1, 10, 0));
    play_tokens(rt, pages, tokens, config, ENDINGS)?;
    let (tokens, config) = (Phold::new(16, 0, 3, 1), Config::new(1, 1, 4, 0));
    play_tokens(rt, pages, tokens, config, ENDINGS)
}

/// Ticks with 100 events, with 8,192, and with 16 of one process: `models.py phold 64 20 258 4 50 1 4`, `phold 2048 4 258 4 100 1 1` and
/// `phold 1 4 258 16 0 1 1`.
pub(crate) fn busy_ticks(rt: &HostRuntime, pages: &mut Pages) -> io::Result<()> {
    let (tokens, config) = (Phold::new(4, 50, 1, 4), Config::new(64, 1, 20, 258));
    play_tokens(rt, pages, tokens, config, FOLDED)?;
    let (tokens, config) = (Phold::new(4, 100, 1, 1), Config::new(2_048, 1, 4, 258));
    play_tokens(rt, pages, tokens, config, FOLDED)?;
    let (tokens, config) = (Phold::new(16, 0, 1, 1), Config::new(1, 1, 4, 258));
    play_tokens(rt, pages, tokens, config, FOLDED)
}
