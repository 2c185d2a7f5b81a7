//! One logical process, and the outbox that it sends to.

ghost use Rattle.std.specs.Prelude.{◌≡◌};

use crate::counting::Counting;
use crate::page::Page;
use crate::playing::{Opening, Pages, Player, index, number, play_new, stamp, tick, word};
use std::alloc::Global;
use std::io;
use vt_key::{Event, Fault, Key, Letter, Rank, Sign, Stamp};
use vt_list::{List, Parcel};
use vt_lp::Lp;
use vt_model::{Config, Model as EventModel, Row};
use vt_models::{Hop, JobEvent, Server, Stations, Token};

/// A model whose payloads and states have words.
trait Spoken: EventModel + Copy + Drop {
    /// The payload that the words of a line from this index on say.
    fn payload(line: &str, at: usize) -> Self::Payload;

    fn tell_state(page: &mut Page, state: &Self::State);
}

impl Spoken for Hop {
    fn payload(line: &str, at: usize) -> Token {
        Token {
            tag: index(line, at),
            left: index(line, at.saturating_add(1)),
        }
    }

    fn tell_state(page: &mut Page, state: &u64) {
        page.number(*state);
    }
}

impl Spoken for Stations {
    fn payload(line: &str, at: usize) -> JobEvent {
        match word(line, at) {
            "depart" => JobEvent::Depart,
            _ => JobEvent::Arrive,
        }
    }

    fn tell_state(page: &mut Page, state: &Server) {
        page.numbers(&[state.length, state.served]);
    }
}

/// Process 1, the model that it was made with, its worker's serial and the outbox.
#[derive(Drop)]
struct Desk<M: Spoken> {
    model: Counting<M>,
    config: Config,
    lp: Lp<Counting<M>>,
    serial: u64,
    outbox: List<Letter<M::Payload>>,
    ghost first: { lp.lp ≡ 1 },
    ghost same: { lp.config ≡ config },
}

fn sign(line: &str) -> Sign {
    match word(line, 1) {
        "-" => Sign::Minus,
        _ => Sign::Plus,
    }
}

fn rank(line: &str) -> Rank {
    Rank {
        key: Key::new(tick(line, 2), index(line, 3), number(line, 4)),
        stamp: stamp(line, 5),
    }
}

fn parcel<P: Copy + Drop>(alloc: Global, letter: Letter<P>) -> Result<Parcel<Letter<P>>, Fault> {
    match Parcel::new(alloc, letter) {
        Ok(letter) => Ok(letter),
        Err(_letter) => Err(Fault::Memory),
    }
}

// The letter that a line says, for process 1: a sign, a key, a stamp and a payload.
fn letter<M: Spoken>(line: &str) -> Letter<M::Payload> {
    let event = Event {
        rank: rank(line),
        dest: 1,
        payload: M::payload(line, 7),
    };
    let sign = sign(line);
    Letter { event, sign }
}

impl<M: Spoken> Desk<M> {
    fn new(alloc: Global, model: M, config: Config) -> Result<Desk<M>, Fault> {
        let model = Counting::new(model);
        let (mut serial, mut outbox) = (0, List::new(alloc));
        match Lp::new(alloc, &model, config, 1, &mut serial, &mut outbox) {
            Ok(lp) => Ok(Desk {
                model,
                config,
                lp,
                serial,
                outbox,
            }),
            Err(fault) => Err(fault),
        }
    }

    // Accepts a letter, or hands it back.
    fn accept(
        &mut self,
        letter: Parcel<Letter<M::Payload>>,
    ) -> Result<(), (Fault, Parcel<Letter<M::Payload>>)> {
        let Letter { event, .. } = *letter.get();
        if event.dest != 1 || event.rank.key.when() >= self.config.end() {
            return Err((Fault::NotLawful, letter));
        }
        self.lp.accept(letter)
    }

    fn tell_accepted(&mut self, letter: Parcel<Letter<M::Payload>>, page: &mut Page) {
        match self.accept(letter) {
            Ok(()) => page.word("ok"),
            Err((fault, letter)) => {
                page.refusal(fault);
                page.letter(letter.get());
            }
        }
    }

    fn accept_made(&mut self, alloc: Global, line: &str, page: &mut Page) {
        match parcel(alloc, letter::<M>(line)) {
            Ok(letter) => self.tell_accepted(letter, page),
            Err(fault) => page.refusal(fault),
        }
    }

    // The first letter of the outbox is accepted.
    fn accept_own(&mut self, page: &mut Page) {
        match self.outbox.pop_front() {
            Some(letter) => self.tell_accepted(letter, page),
            None => page.word("none"),
        }
    }

    fn execute(&mut self, alloc: Global) -> Result<(), Fault> {
        self.lp
            .execute(alloc, &self.model, &mut self.serial, &mut self.outbox)
    }

    fn undo(&mut self) -> Result<(), Fault> {
        self.lp.undo(&self.model, &mut self.outbox)
    }

    fn cancel(&mut self, stamp: Stamp) -> Result<(), Fault> {
        self.lp.cancel(stamp)
    }

    // Its send number and place; then how many letters are past, pending and waiting.
    fn numbers(&self) -> [u64; 5] {
        [
            self.lp.number(),
            self.lp.place(),
            self.lp.past_len() as u64,
            self.lp.pending_len() as u64,
            self.lp.waiting_len() as u64,
        ]
    }

    fn state(&self) -> &M::State {
        self.lp.state()
    }

    fn tell_process(&self, page: &mut Page) {
        M::tell_state(page, self.state());
        page.numbers(&self.numbers());
    }

    fn past(&self, alloc: Global) -> Result<Vec<Event<M::Payload>>, Fault> {
        self.lp.past_events(alloc)
    }

    fn tell_outbox(&self, page: &mut Page) {
        for letter in self.outbox.iter() {
            page.letter(letter);
        }
    }

    fn ripe(&self, line: &str, rows: &mut Vec<Row>) -> Result<(), Fault> {
        self.lp.ripe(tick(line, 1), rows)
    }

    // The records of its past events before a time.
    fn tell_ripe(&self, alloc: Global, line: &str, page: &mut Page) {
        let mut rows: Vec<Row> = Vec::new(alloc);
        match self.ripe(line, &mut rows) {
            Ok(()) => page.rows(&rows),
            Err(fault) => page.refusal(fault),
        }
    }

    // Tells what a line asks of it.
    fn look(&self, alloc: Global, line: &str, page: &mut Page) {
        match word(line, 0) {
            "process" => self.tell_process(page),
            "outbox" => self.tell_outbox(page),
            "past" => page.events(self.past(alloc)),
            "ripe" => self.tell_ripe(alloc, line, page),
            "serial" => page.number(self.serial),
            "calls" => page.numbers(&self.model.calls()),
            _ => page.word("unknown"),
        }
    }
}

impl<M: Spoken> Desk<M> {
    fn play_line(&mut self, alloc: Global, line: &str, page: &mut Page) {
        match word(line, 0) {
            "execute" => page.answer(self.execute(alloc)),
            "undo" => page.answer(self.undo()),
            "cancel" => page.answer(self.cancel(stamp(line, 1))),
            "accept" => self.accept_made(alloc, line, page),
            "accept_own" => self.accept_own(page),
            _ => self.look(alloc, line, page),
        }
    }

    fn tell_desk(&self, page: &mut Page) {
        self.tell_process(page);
        page.number(self.serial);
        self.tell_outbox(page);
    }
}

impl Player for Desk<Hop> {
    fn play(&mut self, alloc: Global, line: &str, page: &mut Page) {
        self.play_line(alloc, line, page);
    }

    fn tell_all(&mut self, _alloc: Global, page: &mut Page) {
        self.tell_desk(page);
    }
}

impl Player for Desk<Stations> {
    fn play(&mut self, alloc: Global, line: &str, page: &mut Page) {
        self.play_line(alloc, line, page);
    }

    fn tell_all(&mut self, _alloc: Global, page: &mut Page) {
        self.tell_desk(page);
    }
}

/// Process 1 executes its own token, and is overtaken by that of process 0. `process` tells the state, the send number, the place, and
/// how many events are past, pending and waiting.
const STRAGGLER: &str = "\
outbox
process
accept_own
execute
process
outbox
undo
process
outbox
accept + 2 0 1 0 1 1 0
execute
process
undo
process
outbox
execute
process
execute
process
outbox
serial
accept + 2 0 1 0 1 1 0
process
past
ripe 2
ripe 3";

/// An execution is one call of `forward`, and an undo is one of `reverse`. What isn't lawful calls nothing. `calls` tells how often `start`,
/// `forward` and `reverse` were called.
const HANDLERS: &str = "\
calls
accept_own
execute
calls
undo
execute
calls
accept + 2 0 1 0 1 1 0
execute
calls
undo
calls
execute
execute
calls";

/// A job arrives at an empty station, and is taken back. The end of its service then finds the station empty, and is taken back too.
const EMPTY_STATION: &str = "\
outbox
process
accept + 2 0 5 0 9 arrive
execute
process
outbox
accept_own
accept - 2 0 5 0 9 arrive
undo
process
outbox
cancel 0 9
process
execute
process
outbox
ripe 10
accept_own
undo
process
outbox
cancel 1 0
process
cancel 1 0
undo
execute";

const NEW: &str = "Lp::new";

/// A process of a run of two processes on two workers.
#[derive(Drop)]
struct Process<M> {
    model: M,
    config: Config,
}

impl Opening for Process<Hop> {
    type Made = Desk<Hop>;

    fn open(&self, alloc: Global) -> Result<Desk<Hop>, Fault> {
        Desk::new(alloc, self.model, self.config)
    }
}

impl Opening for Process<Stations> {
    type Made = Desk<Stations>;

    fn open(&self, alloc: Global) -> Result<Desk<Stations>, Fault> {
        Desk::new(alloc, self.model, self.config)
    }
}

fn hops() -> Result<Process<Hop>, Fault> {
    let (model, config) = (Hop::new(1, 1, 1, 0)?, Config::new(2, 2, 10, 0)?);
    Ok(Process { model, config })
}

fn jobs() -> Result<Process<Stations>, Fault> {
    let (model, config) = (Stations::new(0, 1, 1)?, Config::new(2, 2, 10, 0)?);
    Ok(Process { model, config })
}

/// A process of the hop model is overtaken.
pub(crate) fn straggler(rt: &HostRuntime, pages: &mut Pages) -> io::Result<()> {
    match hops() {
        Ok(process) => play_new(rt, pages, NEW, &process, STRAGGLER),
        Err(_) => Ok(()),
    }
}

/// How often a process of the hop model calls its handlers.
pub(crate) fn handlers(rt: &HostRuntime, pages: &mut Pages) -> io::Result<()> {
    match hops() {
        Ok(process) => play_new(rt, pages, NEW, &process, HANDLERS),
        Err(_) => Ok(()),
    }
}

/// A process of the model of stations.
pub(crate) fn empty_station(rt: &HostRuntime, pages: &mut Pages) -> io::Result<()> {
    match jobs() {
        Ok(process) => play_new(rt, pages, NEW, &process, EMPTY_STATION),
        Err(_) => Ok(()),
    }
}
