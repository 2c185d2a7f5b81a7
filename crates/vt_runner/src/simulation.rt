//! A run of a model, and its text.

ghost use Rattle.std.specs.Prelude.{◌≡◌, ◌<◌, ◌≤◌, ◌⊎◌, OnOk, IfErr};
ghost use Rattle.std.specs.Io.KnownBytes.{Appends};
ghost use Rattle.vt_model.specs.promise.Histories.{IsLawful};
ghost use Rattle.vt_model.specs.promise.Simulation.{simulation_of};
ghost use Rattle.vt_station.specs.declared.pieces.Standing.TheVariants.{GoesOn, Whole};
ghost use Rattle.vt_station.specs.inside.Crew.{wanted_finals};
ghost use Rattle.vt_text.specs.promise.Writing.{AppendsBeginning};
ghost use Rattle.vt_runner.specs.inside.Pieces.{AreWritten, IsUnread, IsDue, wanted_of};
ghost use Rattle.vt_tasks.specs.promise.Printed.{final_lines};
ghost use Rattle.vt_tasks.specs.inside.Runs.{WritesWhole, StopsInThreads, StopsAsSet};

use crate::starting::test_threads;
use std::alloc::Global;
use std::io::Write;
use std::sync::Wait;
use std::thread::Threads;
use vt_key::Fault;
use vt_model::{Config, Model as EventModel};
use vt_options::{RunSettings, Synch};
use vt_station::{Bells, Crew, Open, Standing, Station, Wanted, run_workers_wanting};
use vt_tasks::{Shares, print_result, print_run};
use vt_watch::Watch;

/// How many turns all workers together make in the first piece of a run.
const FIRST_TURNS: u32 = 65_536;

/// After a piece of a run with fewer records, the next one has twice as many turns.
const FEW_RECORDS: usize = 131_072;

/// After a piece of a run with more records, the next one has half as many turns.
const MANY_RECORDS: usize = 1_048_576;

/// How many turns the next piece of a run has, after one of so many turns with so many records.
fn next_turns(turns: u64, records: usize) -> u64 {
    if records < FEW_RECORDS {
        turns.saturating_mul(2)
    } else if records > MANY_RECORDS {
        (turns / 2).max(1)
    } else {
        turns
    }
}

/// What is wanted of a run whose final values are printed, or aren't.
fn wanted_by(finals: bool) -> Wanted
    ensures { result ≡ wanted_of finals }
{
    if finals {
        Wanted::Finals
    } else {
        Wanted::Records
    }
}

/// Makes a run of which all records are kept to its end, and then writes its text as the options say. If the run stops, it writes the
/// committed records before it returns the fault.
fn print_kept<H: Threads + Wait + Sync, M: EventModel + Sync, W: Watch + Sync, O: Write>(
    rt: &H,
    alloc: Global,
    model: &M,
    options: &RunSettings,
    watch: &W,
    out: &mut O,
) -> Result<(), Fault>
where
    M::State: Send,
    M::Kept: Send,
    requires lawful { IsLawful (simulation_of (M.handlers model.now) options.now.config) }
    ensures ok { OnOk result (WritesWhole (M.handlers model.now) options.now (O.contents out.old) (O.contents out.new)) }
    ensures err { IfErr result (StopsInThreads (M.handlers model.now) options.now (O.contents out.old) (O.contents out.new)) }
{
    match run_workers_wanting(
        rt,
        alloc,
        options.config,
        model,
        &Open,
        watch,
        options.turns,
        wanted_by(options.finals),
    ) {
        Ok(run) => print_result(
            out,
            options.records,
            run.records.as_slice(),
            run.finals.as_slice(),
        ),
        Err(stopped) => {
            print_result(out, options.records, stopped.records.as_slice(), &[])?;
            Err(stopped.fault)
        }
    }
}

/// The fault of a run whose records couldn't be read: the one that ended the run, else this refusal of the records.
fn fault_unread(standing: Standing, refusal: Fault) -> Fault
    ensures { IsUnread standing refusal result }
{
    match standing {
        Standing::Stopped(fault) => fault,
        _ => refusal,
    }
}

/// Writes the final values of a run in pieces that is whole, if they are wanted.
///
/// [`Fault::Memory`]: memory was refused, and nothing was written. [`Fault::Output`]: the writer failed.
fn print_last<M: EventModel, O: Write>(
    alloc: Global,
    crew: &Crew<'_, M>,
    out: &mut O,
) -> Result<(), Fault>
    requires whole { crew.now.standing ≡ Whole }
    ensures ok { let sim = simulation_of (M.handlers crew.now.model) crew.now.config in
        OnOk result (Appends (O.contents out.old) (O.contents out.new) (final_lines 0 (wanted_finals crew.now.wanted sim))) }
    ensures err { let sim = simulation_of (M.handlers crew.now.model) crew.now.config in
        IfErr result (λ fault. ((fault ≡ Fault.Memory) × (O.contents out.new ≡ O.contents out.old))
        ⊎ ((fault ≡ Fault.Output) × AppendsBeginning (O.contents out.old) (O.contents out.new) (final_lines 0 (wanted_finals crew.now.wanted sim)))) }
{
    let finals = crew.finals(alloc)?;
    print_result(out, None, &[], finals.as_slice())
}

/// Makes a run in pieces, and writes the lines of each piece's records after it, and the final values at the end, as the options say. The
/// first line of the text is there already.
fn print_pieces<H: Threads + Wait + Sync, M: EventModel + Sync, W: Watch + Sync, O: Write>(
    rt: &H,
    alloc: Global,
    crew: &mut Crew<'_, M>,
    options: &RunSettings,
    watch: &W,
    out: &mut O,
) -> Result<(), Fault>
where
    M::State: Send,
    M::Kept: Send,
    requires config { crew.old.config ≡ options.now.config }
    requires wanted { crew.old.wanted ≡ wanted_of options.now.finals }
    requires many { 1 < options.now.config.workers }
    requires begins { crew.old.standing ≡ GoesOn }
    requires lawful { IsLawful (simulation_of (M.handlers crew.old.model) options.now.config) }
    ensures ok { (start : _) → AreWritten options.now.records (M.handlers crew.old.model) options.now.config start (O.contents out.old) 0
        → OnOk result (WritesWhole (M.handlers crew.old.model) options.now start (O.contents out.new)) }
    ensures err { (start : _) → AreWritten options.now.records (M.handlers crew.old.model) options.now.config start (O.contents out.old) 0
        → IfErr result (StopsInThreads (M.handlers crew.old.model) options.now start (O.contents out.new)) }
    ensures due { IfErr result (IsDue (simulation_of (M.handlers crew.old.model) options.now.config) crew.new.standing) }
{
    let mut shares = Shares::new(alloc, options.config.workers as usize);
    let mut records = Vec::new(alloc);
    let mut written = 0;
    let mut turns = 0;
    let mut more = u64::from(FIRST_TURNS / options.config.workers);
    for _ in 0..options.turns {
        turns = options.turns.min(more.saturating_add(turns));
        let standing = crew.work(rt, alloc, &Open, watch, turns);
        if let Err(refusal) = crew.hand_out(written, &mut records) {
            return Err(fault_unread(standing, refusal));
        }
        shares.print(rt, out, records.as_slice(), options.records)?;
        written += records.len();
        match standing {
            Standing::Whole => return print_last(alloc, crew, out),
            Standing::Stopped(fault) => return Err(fault),
            Standing::GoesOn => {}
        }
        if turns == options.turns {
            break;
        }
        more = next_turns(more, records.len());
    }
    Err(Fault::TurnsSpent)
}

/// Settings with no more workers than processes. Workers beyond that would have no process, so the run is the same.
fn with_own_processes(options: &RunSettings) -> RunSettings
    ensures shown { (result.records ≡ options.now.records) × (result.finals ≡ options.now.finals) }
    ensures run { (result.config.lps ≡ options.now.config.lps) × (result.config.end ≡ options.now.config.end) × (result.config.seed ≡ options.now.config.seed) }
    ensures fewer { result.config.workers ≤ options.now.config.workers }
{
    let config = options.config;
    RunSettings {
        synch: options.synch,
        config: Config {
            lps: config.lps,
            workers: config.workers.min(config.lps),
            end: config.end,
            seed: config.seed,
        },
        turns: options.turns,
        records: options.records,
        finals: options.finals,
    }
}

/// Simulates a model by Time Warp, in a thread for each worker, and writes the records of the run as they are committed, and the final
/// values at its end, as the options say. If the run stops, it writes the committed records before it returns the fault.
fn print_work<H: Threads + Wait + Sync, M: EventModel + Sync, W: Watch + Sync, O: Write>(
    rt: &H,
    alloc: Global,
    model: &M,
    options: &RunSettings,
    watch: &W,
    out: &mut O,
) -> Result<(), Fault>
where
    M::State: Send,
    M::Kept: Send,
    ensures ok { OnOk result (WritesWhole (M.handlers model.now) options.now (O.contents out.old) (O.contents out.new)) }
    ensures err { IfErr result (StopsInThreads (M.handlers model.now) options.now (O.contents out.old) (O.contents out.new)) }
{
    let config = options.config;
    if config.workers == 1 {
        return print_kept(rt, alloc, model, options, watch, out);
    }
    watch.begin(config.end().ticks(), Some(config.workers));
    print_result(out, options.records, &[], &[])?;
    test_threads(rt, config.workers)?;
    let (station, places) = Station::new(alloc, model, config)?;
    let bells = Bells::new(alloc, config.workers)?;
    let wanted = wanted_by(options.finals);
    let mut crew = Crew::new(alloc, &station, &bells, model, config, places, wanted)?;
    print_pieces(rt, alloc, &mut crew, options, watch, out)
}

/// Simulates a model as [`print_work`] does, on no more workers than it has processes.
fn print_optimistic<H: Threads + Wait + Sync, M: EventModel + Sync, W: Watch + Sync, O: Write>(
    rt: &H,
    alloc: Global,
    model: &M,
    options: &RunSettings,
    watch: &W,
    out: &mut O,
) -> Result<(), Fault>
where
    M::State: Send,
    M::Kept: Send,
    ensures ok { OnOk result (WritesWhole (M.handlers model.now) options.now (O.contents out.old) (O.contents out.new)) }
    ensures err { IfErr result (StopsInThreads (M.handlers model.now) options.now (O.contents out.old) (O.contents out.new)) }
{
    let settings = with_own_processes(options);
    print_work(rt, alloc, model, &settings, watch, out)
}

/// Simulates a model with the kind of run that the settings name, and writes the records of the run, in the version that
/// they name, if they name one, and then the final value of each process, if they say so.
///
/// In a sequential run, [`Fault::Memory`] means that memory was refused, and [`Fault::Exhausted`] that a send number
/// would pass 2^63. A beginning of the text was written, which may be nothing or all.
///
/// In a run in threads, records are written as they are committed; with one worker, at the end. The committed records, which are
/// those below some time, are written in that version before each of these faults: [`Fault::Memory`], also if a thread wasn't
/// started; [`Fault::Exhausted`] if a counter would pass 2^63; and [`Fault::TurnsSpent`] if a worker made all its turns before the
/// end of the run. [`Fault::Busy`]: the committed records couldn't be read, and those below some earlier time were written, or none.
/// One worker alone never has it. There are never more workers than processes. Where records aren't printed, none are written; the
/// workers commit them all the same.
///
/// In both, [`Fault::Output`] means that the writer failed. A beginning of the text was written.
///
/// What `watch` is told of the run, no contract says.
pub fn simulate<H: Threads + Wait + Sync, M: EventModel + Sync, W: Watch + Sync, O: Write>(
    rt: &H,
    alloc: Global,
    model: &M,
    options: &RunSettings,
    watch: &W,
    out: &mut O,
) -> Result<(), Fault>
where
    M::State: Send,
    M::Kept: Send,
    ensures ok { OnOk result (WritesWhole (M.handlers model.now) options.now (O.contents out.old) (O.contents out.new)) }
    ensures err { IfErr result (StopsAsSet (M.handlers model.now) options.now (O.contents out.old) (O.contents out.new)) }
{
    match options.synch {
        Synch::Sequential => print_run(alloc, model, options, watch, out),
        Synch::Optimistic => print_optimistic(rt, alloc, model, options, watch, out),
    }
}
