//! Workers, and mail that is moved between them by hand.

ghost use Rattle.std.specs.Prelude.{◌≡◌, IfOk, true};
ghost use Rattle.vt_kernel.specs.inside.Held.{AllOwnMail};

use crate::page::Page;
use crate::playing::{Opening, Pages, Player, index, number, play_new, stamp, tick, word};
use std::alloc::Global;
use std::io;
use vt_kernel::Kernel;
use vt_key::{Colour, Event, Fault, MAX_COUNT, Mail, Stamp, When};
use vt_model::{Config, Row};
use vt_models::{Hop, Token};

fn wide(number: Option<usize>) -> Option<u64> {
    match number {
        Some(number) => Some(number as u64),
        None => None,
    }
}

fn index_told(number: Option<u32>) -> Option<u64> {
    match number {
        Some(number) => Some(u64::from(number)),
        None => None,
    }
}

// Its state, send number and place; then how many letters are pending and waiting. Nothing if it is another worker's.
fn process_of(kernel: &Kernel<Hop>, p: u32) -> [Option<u64>; 5] {
    [
        kernel.state(p).copied(),
        kernel.number(p),
        kernel.place(p),
        wide(kernel.pending_len(p)),
        wide(kernel.waiting_len(p)),
    ]
}

// The serial and how many letters the outbox and what arrived have; white mail sent and got; the red minimum and the least time.
fn mail_of(kernel: &Kernel<Hop>) -> [u64; 7] {
    [
        kernel.serial(),
        kernel.outbox_len() as u64,
        kernel.arrived_len() as u64,
        kernel.sent(Colour::White),
        kernel.got(Colour::White),
        kernel.red_minimum().ticks(),
        kernel.least().ticks(),
    ]
}

// Whether it is red, red mail sent and got, and the floor.
fn colours_of(kernel: &Kernel<Hop>) -> [u64; 4] {
    [
        (kernel.colour() == Colour::Red) as u64,
        kernel.sent(Colour::Red),
        kernel.got(Colour::Red),
        kernel.floor().ticks(),
    ]
}

// The process that would execute next, and the worker that would be sent to.
fn choices_of(kernel: &Kernel<Hop>) -> [Option<u64>; 2] {
    [
        index_told(kernel.next()),
        index_told(kernel.receiver_from(0)),
    ]
}

fn tell_each(numbers: &[Option<u64>], page: &mut Page) {
    for number in numbers {
        page.some(*number);
    }
}

/// Tells what a line asks of a worker.
pub(crate) fn look(kernel: &Kernel<Hop>, line: &str, page: &mut Page) {
    match word(line, 1) {
        "process" => tell_each(&process_of(kernel, index(line, 2)), page),
        "mail" => page.numbers(&mail_of(kernel)),
        "colours" => page.numbers(&colours_of(kernel)),
        "choices" => tell_each(&choices_of(kernel), page),
        _ => page.word("unknown"),
    }
}

/// Tells all that a worker tells of itself and of process `p` without memory.
pub(crate) fn tell_kernel(kernel: &Kernel<Hop>, p: u32, page: &mut Page) {
    tell_each(&process_of(kernel, p), page);
    page.numbers(&mail_of(kernel));
    page.numbers(&colours_of(kernel));
    tell_each(&choices_of(kernel), page);
}

/// A worker of a run, its number and the settings of the run.
#[derive(Drop)]
struct Desk {
    kernel: Kernel<Hop>,
    config: Config,
    worker: u32,
    ghost at: { kernel.worker ≡ worker },
    ghost same: { kernel.config ≡ config },
}

// Adds worker `w`.
fn add(
    alloc: Global,
    model: &Hop,
    config: Config,
    worker: u32,
    desks: &mut Vec<Desk>,
) -> Result<(), Fault> {
    if worker >= config.workers {
        return Err(Fault::NotLawful);
    }
    let Ok(kernel) = Kernel::new(alloc, model, config, worker) else {
        return Err(Fault::Memory);
    };
    let Ok(()) = desks.push(Desk {
        kernel,
        config,
        worker,
    }) else {
        return Err(Fault::Memory);
    };
    Ok(())
}

// Adds worker 0, at this serial.
fn add_at(
    alloc: Global,
    model: &Hop,
    config: Config,
    serial: u64,
    desks: &mut Vec<Desk>,
) -> Result<(), Fault> {
    let worker = 0;
    if worker >= config.workers || serial > MAX_COUNT {
        return Err(Fault::NotLawful);
    }
    match Kernel::with_serial(alloc, model, config, worker, serial) {
        Ok(kernel) => match desks.push(Desk {
            kernel,
            config,
            worker,
        }) {
            Ok(()) => Ok(()),
            Err(_) => Err(Fault::Memory),
        },
        Err(fault) => Err(fault),
    }
}

impl Desk {
    fn execute(&mut self, alloc: Global, model: &Hop, p: u32) -> Result<(), Fault> {
        self.kernel.execute(alloc, model, p)
    }

    fn undo(&mut self, model: &Hop, p: u32) -> Result<(), Fault> {
        self.kernel.undo(model, p)
    }

    fn cancel(&mut self, p: u32, stamp: Stamp) -> Result<(), Fault> {
        self.kernel.cancel(p, stamp)
    }

    fn home(&mut self) -> Result<(), Fault> {
        self.kernel.home()
    }

    fn accept(&mut self, alloc: Global, i: u64) -> Result<(), Fault> {
        self.kernel.accept(alloc, i)
    }

    fn settle(&mut self, model: &Hop, p: u32) -> u64 {
        self.kernel.settle(model, p)
    }

    fn set_floor(&mut self, floor: When, page: &mut Page) {
        self.kernel.set_floor(floor);
        page.word("ok");
    }

    fn letters_for(&mut self, alloc: Global, v: u32) -> Result<Vec<Mail<Token>>, Fault>
        ensures own { IfOk result (λ mail. AllOwnMail self.old.config v mail.items) }
    {
        let mut mail = Vec::new(alloc);
        match self.kernel.letters_for(v, &mut mail) {
            Ok(()) => Ok(mail),
            Err(fault) => Err(fault),
        }
    }

    fn take_in(&mut self, mail: Vec<Mail<Token>>) -> Result<(), (Fault, Vec<Mail<Token>>)>
        requires own { AllOwnMail self.old.config self.old.worker mail.items }
    {
        self.kernel.take_in(mail)
    }

    fn rows(&self, alloc: Global) -> Result<Vec<Row>, Fault> {
        self.kernel.rows(alloc)
    }

    fn past(&self, alloc: Global, p: u32) -> Result<Vec<Event<Token>>, Fault> {
        self.kernel.past_events(alloc, p)
    }

    fn finals(&self, alloc: Global, model: &Hop) -> Result<Vec<u64>, Fault> {
        self.kernel.finals(alloc, model)
    }

    // Makes the local step or the like that a line says.
    fn play(&mut self, alloc: Global, model: &Hop, line: &str, page: &mut Page) {
        let p = index(line, 2);
        match word(line, 1) {
            "execute" => page.answer(self.execute(alloc, model, p)),
            "undo" => page.answer(self.undo(model, p)),
            "cancel" => page.answer(self.cancel(p, stamp(line, 3))),
            "home" => page.answer(self.home()),
            "accept" => page.answer(self.accept(alloc, number(line, 2))),
            "settle" => page.number(self.settle(model, p)),
            "floor" => self.set_floor(tick(line, 2), page),
            _ => self.look(alloc, model, line, page),
        }
    }

    // Tells what its readers say.
    fn look(&self, alloc: Global, model: &Hop, line: &str, page: &mut Page) {
        match word(line, 1) {
            "rows" => page.rows_given(self.rows(alloc)),
            "past" => page.events(self.past(alloc, index(line, 2))),
            "finals" => page.numbers_given(self.finals(alloc, model)),
            _ => look(&self.kernel, line, page),
        }
    }

    fn tell_all(&self, page: &mut Page) {
        tell_kernel(&self.kernel, self.worker, page);
    }
}

fn tell_mail(mail: &[Mail<Token>], page: &mut Page) {
    for mail in mail {
        page.word(match mail.colour {
            Colour::White => "white",
            Colour::Red => "red",
        });
        page.letter(&mail.letter);
    }
}

// Of its own, since a comparison of structs leaves the search for a caller's proof without an end.
fn are_same(one: Config, other: Config) -> bool
    ensures { result ≡ true → one ≡ other }
{
    one == other
}

// Takes mail in, and tells what there was, whether it was taken in, and what was handed back.
fn deliver(to: &mut Desk, mail: Vec<Mail<Token>>, page: &mut Page)
    requires own { AllOwnMail to.old.config to.old.worker mail.items }
{
    tell_mail(&mail, page);
    match to.take_in(mail) {
        Ok(()) => page.word("ok"),
        Err((fault, mail)) => {
            page.refusal(fault);
            tell_mail(&mail, page);
        }
    }
}

// Moves the mail for a worker there.
fn carry(alloc: Global, from: &mut Desk, to: &mut Desk, page: &mut Page) {
    if !are_same(from.config, to.config) {
        return page.word("unknown");
    }
    match from.letters_for(alloc, to.worker) {
        Ok(mail) => deliver(to, mail, page),
        Err(fault) => page.refusal(fault),
    }
}

/// The workers of a run, each of which has the number of its process.
#[derive(Drop)]
struct Office {
    model: Hop,
    desks: Vec<Desk>,
}

impl Office {
    // From this worker of two to the other.
    fn carry(&mut self, alloc: Global, from: u32, page: &mut Page) {
        match self.desks.as_mut_slice() {
            [first, second] if from == 0 => carry(alloc, first, second, page),
            [first, second] => carry(alloc, second, first, page),
            _ => page.word("unknown"),
        }
    }
}

impl Player for Office {
    fn play(&mut self, alloc: Global, line: &str, page: &mut Page) {
        let w = index(line, 0);
        if word(line, 1) == "carry" {
            return self.carry(alloc, w, page);
        }
        match self.desks.get_mut(w as usize) {
            Some(desk) => desk.play(alloc, &self.model, line, page),
            None => page.word("unknown"),
        }
    }

    fn tell_all(&mut self, _alloc: Global, page: &mut Page) {
        for desk in &self.desks {
            desk.tell_all(page);
        }
    }
}

/// A straggler makes process 1 undo once. `process` tells the state, the send number, the place, and how many letters are pending and
/// waiting; `mail` the serial, how many letters the outbox and what arrived have, how many were sent and got, the red minimum and the
/// least time; `choices` which process would execute next, and whom the worker would send to; `rows` the ticks and values of records.
const SETTLED: &str = "\
0 home
1 home
0 home
0 execute 1
1 execute 1
1 undo 1
0 execute 0
0 carry
1 accept 1
1 accept 0
1 settle 1
1 settle 1
1 process 1
1 process 0
1 mail
1 carry
0 past 0
0 rows
0 floor 10
0 rows
0 finals";

/// What process 1 had sent is cancelled at process 0, which has executed it.
const CANCELLED: &str = "\
0 home
1 home
1 execute 1
0 execute 0
0 carry
1 accept 0
1 undo 1
1 execute 1
1 execute 1
1 process 1
1 mail
1 choices
1 carry
1 mail
1 carry
1 mail
0 mail
0 accept 0
0 choices
0 execute 0
0 process 0
0 accept 0
0 cancel 0 1 1
0 settle 0
0 process 0
0 choices
0 mail";

/// Mail comes while other mail isn't accepted yet.
const ARRIVED_BEFORE: &str = "\
1 home
1 execute 1
1 carry
0 home
0 execute 0
0 carry
1 accept 0
1 settle 1
1 carry
0 mail";

/// All workers of a run, at its opening.
#[derive(Drop)]
struct Crew {
    model: Hop,
    config: Config,
}

impl Opening for Crew {
    type Made = Office;

    fn open(&self, alloc: Global) -> Result<Office, Fault> {
        let (model, mut desks) = (self.model, Vec::new(alloc));
        for w in 0..self.config.workers {
            let Ok(()) = add(alloc, &model, self.config, w, &mut desks) else {
                return Err(Fault::Memory);
            };
        }
        Ok(Office { model, desks })
    }
}

/// Two workers that move mail.
pub(crate) fn pairs(rt: &HostRuntime, pages: &mut Pages) -> io::Result<()> {
    let (Ok(model), Ok(config)) = (Hop::new(1, 1, 1, 0), Config::new(2, 2, 10, 0)) else {
        return Ok(());
    };
    for lines in [SETTLED, CANCELLED, ARRIVED_BEFORE] {
        play_new(rt, pages, "Kernel::new", &Crew { model, config }, lines)?;
    }
    Ok(())
}

/// The only worker of a run, at this serial.
#[derive(Drop)]
struct Alone {
    model: Hop,
    config: Config,
    serial: u64,
}

impl Opening for Alone {
    type Made = Office;

    fn open(&self, alloc: Global) -> Result<Office, Fault> {
        let (model, mut desks) = (self.model, Vec::new(alloc));
        match add_at(alloc, &model, self.config, self.serial, &mut desks) {
            Ok(()) => Ok(Office { model, desks }),
            Err(fault) => Err(fault),
        }
    }
}

/// A token that comes back to its process. Its execution makes three parcels, and with the last serial but one it can't be stamped.
const TOKEN: &str = "\
0 home
0 process 0
0 mail
0 execute 0
0 process 0
0 mail";

/// Workers alone whose serials begin at 0, and at the last one but one. With the last one none is made.
pub(crate) fn serials(rt: &HostRuntime, pages: &mut Pages) -> io::Result<()> {
    let (Ok(model), Ok(config)) = (Hop::new(1, 0, 1, 0), Config::new(1, 1, 10, 0)) else {
        return Ok(());
    };
    for serial in [0, MAX_COUNT - 1, MAX_COUNT] {
        let alone = Alone {
            model,
            config,
            serial,
        };
        play_new(rt, pages, "Kernel::with_serial", &alone, TOKEN)?;
    }
    Ok(())
}
