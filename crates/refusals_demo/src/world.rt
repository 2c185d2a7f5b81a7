//! A world, whose steps are made one by one or as a list.

use crate::counting::Counting;
use crate::page::Page;
use crate::playing::{Opening, Pages, Player, index, number, play_new, stamp, word};
use std::alloc::Global;
use std::io;
use vt_key::{Event, Fault};
use vt_model::{Config, Record};
use vt_models::{Hop, Token};
use vt_steps::Step;
use vt_world::{Stop, World};

/// A world, what it was made of, and how many steps of a list were done before it stopped. Its calls say nothing: what is known of the
/// world isn't carried from call to call.
#[derive(Drop)]
struct Drive<'m> {
    model: &'m Counting<Hop>,
    config: Config,
    world: World<'m, Counting<Hop>>,
    done: usize,
}

// The step that a line says, or a close.
fn step_of(line: &str) -> Step {
    let first = index(line, 1);
    match word(line, 0) {
        "execute" => Step::Execute(first),
        "undo" => Step::Undo(first),
        "cancel" => Step::Cancel(first, stamp(line, 2)),
        "home" => Step::Home(first),
        "send" => Step::Send(first, index(line, 2)),
        "fetch" => Step::Fetch(first),
        "accept" => Step::Accept(first, number(line, 2)),
        "cut" => Step::Cut(first),
        "report" => Step::Report(first),
        "commit" => Step::Commit(first),
        _ => Step::Close,
    }
}

// The steps of a line, behind its first word and with commas between them.
#[derive(Drop)]
struct Steps {
    all: [Step; 24],
    count: usize,
}

fn steps_of(line: &str) -> Steps {
    let (_, list) = line.split_once(' ').unwrap_or((line, ""));
    let mut steps = Steps {
        all: [Step::Close; 24],
        count: 0,
    };
    for line in list.split(',') {
        let count = steps.count;
        if let Some(step) = steps.all.get_mut(count) {
            *step = step_of(line);
            steps.count = count.saturating_add(1);
        }
    }
    steps
}

impl Steps {
    // Those before an index, and those from there on.
    fn parts(&self, at: usize) -> (&[Step], &[Step]) {
        let (all, _) = self.all.split_at_checked(self.count).unwrap_or((&[], &[]));
        all.split_at_checked(at).unwrap_or((all, &[]))
    }
}

impl<'m> Drive<'m> {
    fn new(alloc: Global, model: &'m Counting<Hop>, config: Config) -> Result<Drive<'m>, Fault> {
        match World::new(alloc, model, config) {
            Ok(world) => Ok(Drive {
                model,
                config,
                world,
                done: 0,
            }),
            Err(fault) => Err(fault),
        }
    }

    fn run(&mut self, alloc: Global, steps: &[Step]) -> Result<u64, Stop> {
        self.world.run(alloc, steps)
    }

    fn step(&mut self, alloc: Global, step: &Step) -> Result<(), Fault> {
        match self.world.step(alloc, step) {
            Ok(_) => Ok(()),
            Err(fault) => Err(fault),
        }
    }

    fn past(&self, alloc: Global, p: u32) -> Result<Vec<Event<Token>>, Fault> {
        self.world.past(alloc, p)
    }

    fn records(&self, alloc: Global) -> Result<Vec<Record>, Fault> {
        self.world.records(alloc)
    }

    // No process has an end before the book is closed.
    fn finals(&self, alloc: Global) -> Result<Vec<u64>, Fault> {
        self.world.finals(alloc)
    }

    // The announced time, the floor and the least time, and whether the book is closed.
    fn times(&self) -> [u64; 4] {
        [
            self.world.announced().ticks(),
            self.world.floor().ticks(),
            self.world.least().ticks(),
            self.world.is_closed() as u64,
        ]
    }

    // Makes those steps of a list that weren't made before it stopped, and tells how many were refused.
    fn run_on(&mut self, alloc: Global, line: &str, page: &mut Page) {
        let steps = steps_of(line);
        let (_, left) = steps.parts(self.done);
        match self.run(alloc, left) {
            Ok(refused) => {
                self.done = 0;
                page.number(refused);
            }
            Err(stop) => {
                self.done = self.done.saturating_add(stop.at);
                page.refusal(stop.fault);
            }
        }
    }

    // Makes the steps of a list, and tells how many were refused; or at which one it stopped, and why.
    fn run_once(&mut self, alloc: Global, line: &str, page: &mut Page) {
        match self.run(alloc, steps_of(line).parts(0).1) {
            Ok(refused) => page.number(refused),
            Err(stop) => {
                page.word("stopped");
                page.numbers(&[stop.at as u64, u64::from(stop.fault.number())]);
            }
        }
    }

    fn past_or_again(&self, alloc: Global, p: u32) -> Result<Vec<Event<Token>>, Fault> {
        match self.past(alloc, p) {
            Err(Fault::Memory) => self.past(alloc, p),
            given => given,
        }
    }

    fn records_or_again(&self, alloc: Global) -> Result<Vec<Record>, Fault> {
        match self.records(alloc) {
            Err(Fault::Memory) => self.records(alloc),
            given => given,
        }
    }

    fn finals_or_again(&self, alloc: Global) -> Result<Vec<u64>, Fault> {
        match self.finals(alloc) {
            Err(Fault::Memory) => self.finals(alloc),
            given => given,
        }
    }

    // Whether a new world tells this after these steps.
    fn is_after(&self, alloc: Global, steps: &[Step], wanted: &Page) -> bool {
        match Drive::new(alloc, self.model, self.config) {
            Ok(mut twin) => twin.comes_to(alloc, steps, wanted),
            Err(_) => false,
        }
    }

    fn comes_to(&mut self, alloc: Global, steps: &[Step], wanted: &Page) -> bool {
        let is_done = matches!(self.run(alloc, steps), Ok(0));
        let mut page = Page::new(alloc);
        self.tell_all(alloc, &mut page);
        is_done && page.is_same(wanted)
    }
}

impl<'m> Player for Drive<'m> {
    fn play(&mut self, alloc: Global, line: &str, page: &mut Page) {
        match word(line, 0) {
            "run" => self.run_on(alloc, line, page),
            "run_once" => self.run_once(alloc, line, page),
            "past" => page.events(self.past(alloc, index(line, 1))),
            "records" => page.records_given(self.records(alloc)),
            "finals" => page.numbers_given(self.finals(alloc)),
            "times" => page.numbers(&self.times()),
            "calls" => page.numbers(&self.model.calls()),
            _ => page.answer(self.step(alloc, &step_of(line))),
        }
    }

    fn tell_all(&mut self, alloc: Global, page: &mut Page) {
        page.numbers(&self.times());
        page.events(self.past_or_again(alloc, 0));
        page.events(self.past_or_again(alloc, 1));
        page.records_given(self.records_or_again(alloc));
        page.numbers_given(self.finals_or_again(alloc));
    }

    // Of a list that stopped, the steps before are done: a new world that does these tells the same.
    fn is_kept(&mut self, alloc: Global, line: &str, pages: &Pages) -> bool {
        match word(line, 0) {
            "run" => self.is_after(alloc, steps_of(line).parts(self.done).0, &pages.after),
            _ => pages.are_same(),
        }
    }
}

#[derive(Drop)]
struct Start<'m> {
    model: &'m Counting<Hop>,
    config: Config,
}

impl<'m> Opening for Start<'m> {
    type Made = Drive<'m>;

    fn open(&self, alloc: Global) -> Result<Drive<'m>, Fault> {
        Drive::new(alloc, self.model, self.config)
    }
}

/// Process 1 runs ahead, is overtaken by a straggler, and rolls back; then the end of the run is announced. All is committed, so that
/// nothing is past any more, and a process has its end once the book is closed. `times` tells the announced time, the floor and the
/// least time, and whether the book is closed.
const STRAGGLER: &str = "\
run home 0, home 1, execute 1, execute 0, send 0 1, fetch 1, accept 1 0, undo 1, execute 1, execute 1, send 1 0, fetch 0, \
accept 0 0, accept 0 0, accept 0 0, cancel 0 1 1, execute 0, cut 0, cut 1, report 0, report 1, cut 0
past 0
times
finals
commit 0
commit 1
close
records
finals
times";

/// What process 1 sent twice and took back once is accepted: in the order in which it was sent. At the end no step is lawful. `calls`
/// tells how often `start`, `forward` and `reverse` were called.
const IN_ORDER: &str = "\
run home 0, home 1, execute 1, execute 0, send 0 1, fetch 1, accept 1 0, undo 1, execute 1, execute 1, send 1 0, fetch 0
run accept 0 0, accept 0 0, accept 0 0, cancel 0 1 1, execute 0
run undo 0, undo 1, execute 1
times
calls
past 0
past 1";

/// The anti-message first, which waits for its letter.
const ANTI_MESSAGE_FIRST: &str = "\
run home 0, home 1, execute 1, execute 0, send 0 1, fetch 1, accept 1 0, undo 1, execute 1, execute 1, send 1 0, fetch 0
run accept 0 1, cancel 0 1 1, accept 0 0, cancel 0 1 1, accept 0 0, execute 0
run undo 0, undo 1, execute 1
times
calls
past 0
past 1";

/// The new letter, which has the old one's key, before both.
const NEW_LETTER_FIRST: &str = "\
run home 0, home 1, execute 1, execute 0, send 0 1, fetch 1, accept 1 0, undo 1, execute 1, execute 1, send 1 0, fetch 0
run accept 0 2, accept 0 1, cancel 0 1 1, accept 0 0, cancel 0 1 1, execute 0
run undo 0, undo 1, execute 1
times
calls
past 0
past 1";

/// Where memory is refused, the first step is done.
const STOP: &str = "\
run_once home 0, execute 0
times
past 0";

// Plays a text on a world of so many processes, each on a worker of its own, whose tokens hop by this stride.
fn play(rt: &HostRuntime, pages: &mut Pages, lps: u32, stride: u32, lines: &str) -> io::Result<()> {
    let (Ok(hop), Ok(config)) = (Hop::new(1, stride, 1, 0), Config::new(lps, lps, 10, 0)) else {
        return Ok(());
    };
    let model = &Counting::new(hop);
    play_new(rt, pages, "World::new", &Start { model, config }, lines)
}

/// A straggler and its rollback, as one list of steps; then the calls that follow it.
pub(crate) fn straggler(rt: &HostRuntime, pages: &mut Pages) -> io::Result<()> {
    play(rt, pages, 2, 1, STRAGGLER)
}

/// The processes have one past, in whichever order their letters come.
pub(crate) fn orders(rt: &HostRuntime, pages: &mut Pages) -> io::Result<()> {
    play(rt, pages, 2, 1, IN_ORDER)?;
    play(rt, pages, 2, 1, ANTI_MESSAGE_FIRST)?;
    play(rt, pages, 2, 1, NEW_LETTER_FIRST)
}

/// One process, whose token goes home and is executed.
pub(crate) fn stop(rt: &HostRuntime, pages: &mut Pages) -> io::Result<()> {
    play(rt, pages, 1, 0, STOP)
}
