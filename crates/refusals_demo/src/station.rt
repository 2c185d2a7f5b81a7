//! A station, whose places are driven by hand from one thread, with answers that were worked out from the rules of the steps.

ghost use Rattle.std.specs.Prelude.{◌≡◌, ◌<◌, length};
ghost use Rattle.vt_model.specs.promise.Simulation.{simulation_of};
ghost use Rattle.vt_places.specs.inside.Told.{station_model, station_config, station_table};
ghost use Rattle.vt_places.specs.inside.Making.{AreNew, IsNew};

use crate::board::tell_report;
use crate::page::Page;
use crate::playing::{
    Pages, Player, index, is_refused, number, play_all, print_made, print_records, print_refused,
    stamp, word,
};
use crate::workers::{look, tell_kernel};
use std::alloc::Global;
use std::io;
use vt_kernel::Kernel;
use vt_key::Fault;
use vt_model::{Config, Model as EventModel, Record};
use vt_models::Hop;
use vt_places::{Place, Station, Worker};

/// Workers of a station, each of which has the number of its process. Their calls say nothing: what is known of a worker isn't carried
/// from call to call.
#[derive(Drop)]
struct Crew<'a> {
    workers: Vec<Worker<'a, Hop>>,
}

// Makes the local step that a line says.
fn local(worker: &mut Worker<'_, Hop>, line: &str) -> Result<(), Fault> {
    let p = index(line, 2);
    match word(line, 1) {
        "execute" => worker.execute(p),
        "undo" => worker.undo(p),
        "cancel" => worker.cancel(p, stamp(line, 3)),
        "home" => worker.home(),
        "accept" => worker.accept(number(line, 2)),
        _ => Err(Fault::Closed),
    }
}

// Makes the step that a line says at what the workers share.
fn shared(worker: &mut Worker<'_, Hop>, line: &str) -> Result<(), Fault> {
    match word(line, 1) {
        "post" => worker.post(index(line, 2)),
        "fetch" => worker.fetch(),
        "cut" => worker.cut(),
        "commit" => worker.commit(),
        "close" => worker.close(),
        _ => Err(Fault::Closed),
    }
}

fn report(worker: &mut Worker<'_, Hop>, page: &mut Page) {
    match worker.report() {
        Ok(report) => tell_report(report, page),
        Err(fault) => page.refusal(fault),
    }
}

fn records(worker: &mut Worker<'_, Hop>) -> Result<Vec<Record>, Fault> {
    worker.records()
}

fn hand_out(
    worker: &mut Worker<'_, Hop>,
    from: usize,
    records: &mut Vec<Record>,
) -> Result<(), Fault> {
    worker.hand_out(from, records)
}

fn finals(worker: &mut Worker<'_, Hop>) -> Result<Vec<u64>, Fault> {
    worker.finals()
}

fn kernel<'k>(worker: &'k Worker<'_, Hop>) -> &'k Kernel<Hop> {
    worker.kernel()
}

// The records of the book that a worker finds.
fn records_or_again(worker: &mut Worker<'_, Hop>) -> Result<Vec<Record>, Fault> {
    match records(worker) {
        Err(Fault::Memory) => records(worker),
        given => given,
    }
}

// Tells what is handed out behind so many records. Where it is refused, the record that was there is kept.
fn tell_handed(alloc: Global, worker: &mut Worker<'_, Hop>, from: usize, page: &mut Page) {
    let mut records = Vec::new(alloc);
    let record = Record {
        time: 9,
        ..Record::default()
    };
    if records.push(record).is_err() {
        return page.refusal(Fault::Memory);
    }
    if let Err(fault) = hand_out(worker, from, &mut records) {
        page.refusal(fault);
    }
    page.records(&records);
}

// Makes the call that a line says, and tells what it answers.
fn play(alloc: Global, worker: &mut Worker<'_, Hop>, line: &str, page: &mut Page) {
    match word(line, 1) {
        "execute" | "undo" | "cancel" | "home" | "accept" => page.answer(local(worker, line)),
        "post" | "fetch" | "cut" | "commit" | "close" => page.answer(shared(worker, line)),
        "report" => report(worker, page),
        "records" => page.records_given(records(worker)),
        "finals" => page.numbers_given(finals(worker)),
        "hand_out" => tell_handed(alloc, worker, number(line, 2) as usize, page),
        _ => look(kernel(worker), line, page),
    }
}

fn tell(worker: &mut Worker<'_, Hop>, p: u32, page: &mut Page) {
    tell_kernel(kernel(worker), p, page);
    page.records_given(records_or_again(worker));
}

impl<'a> Crew<'a> {
    fn tell_worker(&mut self, w: u32, page: &mut Page) {
        if let Some(worker) = self.workers.get_mut(w as usize) {
            tell(worker, w, page);
        }
    }
}

impl<'a> Player for Crew<'a> {
    fn play(&mut self, alloc: Global, line: &str, page: &mut Page) {
        match self.workers.get_mut(index(line, 0) as usize) {
            Some(worker) => play(alloc, worker, line, page),
            None => page.word("unknown"),
        }
    }

    fn tell_all(&mut self, _alloc: Global, page: &mut Page) {
        self.tell_worker(0, page);
        self.tell_worker(1, page);
    }
}

fn drive(
    rt: &HostRuntime,
    pages: &mut Pages,
    crew: &mut Crew<'_>,
    texts: &[&str],
) -> io::Result<()> {
    print_made(rt, CREW, Ok(()))?;
    for lines in texts {
        play_all(rt, crew, pages, lines)?;
    }
    Ok(())
}

// Adds worker `w`, at its place.
fn add<'a, M: EventModel>(
    alloc: Global,
    station: &'a Station<M>,
    model: &'a M,
    config: Config,
    w: u32,
    place: Place<M::Payload>,
    workers: &mut Vec<Worker<'a, M>>,
) -> Result<(), Fault>
    requires known { w < config.workers }
    requires told { (station_model station.now ≡ model.now) × (station_config station.now ≡ config) }
    requires place { IsNew (simulation_of (M.handlers model.now) config) (station_table station.now) w place }
{
    match Worker::new(alloc, station, model, config, w, place) {
        Ok(worker) => match workers.push(worker) {
            Ok(()) => Ok(()),
            Err(_) => Err(Fault::Memory),
        },
        Err(not_made) => Err(not_made.fault),
    }
}

/// A worker at each of these places, which the station made for all of its workers, in order.
///
/// [`Fault::Memory`]: memory was refused.
fn workers_at<'a, M: EventModel>(
    alloc: Global,
    station: &'a Station<M>,
    model: &'a M,
    config: Config,
    places: Vec<Place<M::Payload>>,
) -> Result<Vec<Worker<'a, M>>, Fault>
    requires told { (station_model station.now ≡ model.now) × (station_config station.now ≡ config) }
    requires count { length places.items ≡ config.workers }
    requires places { AreNew (simulation_of (M.handlers model.now) config) (station_table station.now) 0 places.items }
{
    let mut places = places;
    let mut workers = Vec::new(alloc);
    for w in 0..config.workers {
        let place = places.remove(0);
        let Ok(()) = add(alloc, station, model, config, w, place, &mut workers) else {
            return Err(Fault::Memory);
        };
    }
    Ok(workers)
}

const CREW: &str = "Station::new and Worker::new";

// Texts that are played on a new station's workers; or why they weren't made.
fn played(
    rt: &HostRuntime,
    pages: &mut Pages,
    model: &Hop,
    config: Config,
    texts: &[&str],
) -> io::Result<Result<(), Fault>> {
    let (station, places) = match Station::new(rt.alloc(), model, config) {
        Ok(made) => made,
        Err(fault) => return Ok(Err(fault)),
    };
    match workers_at(rt.alloc(), &station, model, config, places) {
        Ok(workers) => Ok(Ok(drive(rt, pages, &mut Crew { workers }, texts)?)),
        Err(fault) => Ok(Err(fault)),
    }
}

// The same, and once more where the workers are refused for memory.
fn play_new(
    rt: &HostRuntime,
    pages: &mut Pages,
    model: &Hop,
    config: Config,
    texts: &[&str],
) -> io::Result<()> {
    let mut made = played(rt, pages, model, config, texts)?;
    if is_refused(&made) {
        print_refused(rt, CREW, true)?;
        made = played(rt, pages, model, config, texts)?;
    }
    match made {
        Ok(()) => Ok(()),
        Err(fault) => print_made(rt, CREW, Err(fault)),
    }
}

/// The second worker runs ahead of what the first one sends it.
const RUN_AHEAD: &str = "\
0 home
1 home
1 execute 1
0 execute 0
0 post 1
1 fetch";

/// What was sent is a straggler: the second worker rolls back, and sends an anti-message, which the first one cancels.
const ROLL_BACK: &str = "\
1 accept 0
1 undo 1
1 execute 1
1 execute 1
1 post 0
0 fetch
0 accept 0
0 accept 0
0 accept 0
0 cancel 0 1 1
0 execute 0
0 cut";

/// Both report, and the end of the run is announced. The first worker has cut already.
const AGREE: &str = "\
1 cut
0 report
1 report";

/// The first worker learns the floor, both commit, and the book is closed.
const COMMIT: &str = "\
0 cut
0 commit
0 records
1 records
1 commit
0 records
0 close";

const BOTH: &str = "\
1 process 1
0 process 0";

const CLOSED: &str = "\
0 commit
0 records
1 records
1 commit
1 close
0 records
0 finals
1 finals";

// Plays texts on two workers with a process each.
fn play_pair(rt: &HostRuntime, pages: &mut Pages, texts: &[&str]) -> io::Result<()> {
    match (Hop::new(1, 1, 1, 0), Config::new(2, 2, 10, 0)) {
        (Ok(model), Ok(config)) => play_new(rt, pages, &model, config, texts),
        _ => Ok(()),
    }
}

/// A straggler and its rollback; then all is committed.
pub(crate) fn straggler(rt: &HostRuntime, pages: &mut Pages) -> io::Result<()> {
    let texts = [RUN_AHEAD, BOTH, ROLL_BACK, BOTH, AGREE, COMMIT, CLOSED];
    play_pair(rt, pages, &texts)
}

/// Records are handed out once. Then copies are refused.
const HANDED_OUT: &str = "\
0 hand_out 1
1 hand_out 0
0 hand_out 4
0 hand_out 0
1 records";

/// Records are handed out, of which there are none before the commit.
pub(crate) fn handed_out(rt: &HostRuntime, pages: &mut Pages) -> io::Result<()> {
    let texts = [
        RUN_AHEAD,
        ROLL_BACK,
        AGREE,
        "0 hand_out 0",
        COMMIT,
        HANDED_OUT,
    ];
    play_pair(rt, pages, &texts)
}

/// Nothing was visited yet. One letter is in the outbox of each, for a process of the worker itself.
const BEFORE_ANY_VISIT: &str = "\
0 finals
0 records
1 records
0 close
0 mail
0 colours
0 post 0
0 post 1
0 post 2
0 mail
0 colours
1 fetch";

/// Mail was fetched and isn't accepted yet.
const MAIL_FETCHED: &str = "\
1 mail
1 colours
1 fetch
1 mail
1 colours
1 report";

/// The first worker has cut.
const CUT: &str = "\
0 mail
0 colours
0 cut
0 report
0 mail
0 colours";

/// Nothing is committed while one worker has not committed. Here that is the first one.
const ONE_COMMITTED: &str = "\
1 commit
0 records
1 records
1 close
0 cut
0 commit
0 records
1 close
0 records
1 records";

/// What is not lawful changes nothing.
pub(crate) fn refusals(rt: &HostRuntime, pages: &mut Pages) -> io::Result<()> {
    let texts = [
        BEFORE_ANY_VISIT,
        RUN_AHEAD,
        MAIL_FETCHED,
        ROLL_BACK,
        CUT,
        AGREE,
        ONE_COMMITTED,
    ];
    play_pair(rt, pages, &texts)
}

const ALONE: &str = "\
0 records
0 home
0 execute 0
0 cut
0 report
0 close
0 records
0 commit
0 records
0 close
0 hand_out 0
0 records
0 finals";

/// One worker alone.
pub(crate) fn alone(rt: &HostRuntime, pages: &mut Pages) -> io::Result<()> {
    match (Hop::new(0, 1, 2, 0), Config::new(1, 1, 2, 0)) {
        (Ok(model), Ok(config)) => play_new(rt, pages, &model, config, &[ALONE]),
        _ => Ok(()),
    }
}

/// The book was taken out by the other place, and stays claimed. The worker, which is the second one of the run, is as it was.
const TAKEN_OUT: &str = "\
0 mail
0 colours
0 commit
0 records
0 mail
0 colours";

// The records that the first place of two takes out. Then the second one's worker stands behind these.
fn take_out<'a, M: EventModel>(
    alloc: Global,
    station: &'a Station<M>,
    model: &'a M,
    config: Config,
    places: Vec<Place<M::Payload>>,
    workers: &mut Vec<Worker<'a, M>>,
) -> Result<Vec<Record>, Fault>
    requires told { (station_model station.now ≡ model.now) × (station_config station.now ≡ config) }
    requires count { length places.items ≡ config.workers }
    requires places { AreNew (simulation_of (M.handlers model.now) config) (station_table station.now) 0 places.items }
{
    let mut places = places;
    if places.len() != 2 {
        return Err(Fault::NotLawful);
    }
    let first = places.remove(0);
    let second = places.remove(0);
    match add(alloc, station, model, config, 1, second, workers) {
        Ok(()) => station.take_out(alloc, first),
        Err(fault) => Err(fault),
    }
}

/// Records that are taken out of the book before any visit.
pub(crate) fn taken_out(rt: &HostRuntime, pages: &mut Pages) -> io::Result<()> {
    let (Ok(model), Ok(config)) = (Hop::new(1, 1, 1, 0), Config::new(2, 2, 10, 0)) else {
        return Ok(());
    };
    match Station::new(rt.alloc(), &model, config) {
        Ok((station, places)) => {
            let mut workers = Vec::new(rt.alloc());
            let records = take_out(rt.alloc(), &station, &model, config, places, &mut workers);
            print_records(rt, pages, "Station::take_out", records)?;
            drive(rt, pages, &mut Crew { workers }, &[TAKEN_OUT])
        }
        Err(fault) => print_made(rt, CREW, Err(fault)),
    }
}

/// The same with the end of the station.
pub(crate) fn into_records(rt: &HostRuntime, pages: &mut Pages) -> io::Result<()> {
    let (Ok(model), Ok(config)) = (Hop::new(1, 1, 1, 0), Config::new(2, 2, 10, 0)) else {
        return Ok(());
    };
    match Station::new(rt.alloc(), &model, config) {
        Ok((station, places)) => {
            let mut places = places;
            let place = places.remove(0);
            let records = station.into_records(rt.alloc(), place);
            print_records(rt, pages, "Station::into_records", records)
        }
        Err(fault) => print_made(rt, CREW, Err(fault)),
    }
}
