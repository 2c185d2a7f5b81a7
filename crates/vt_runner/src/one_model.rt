//! A whole program of one model, as a function of its words, a reader and two writers.

ghost use Rattle.std.specs.Prelude.{◌≡◌, ◌≢◌, None, Some, length, map};
ghost use Rattle.std.specs.Fn.{FnReturnsAt};
ghost use Rattle.std.specs.Io.KnownBytes.{Keeps};
ghost use Rattle.clap.specs.Words.{Text};
ghost use Rattle.vt_key.specs.promise.Faults.{option_named};
ghost use Rattle.vt_key.specs.declared.fault.Fault.{Fault};
ghost use Rattle.vt_options.specs.promise.Own.{HaveDefaults, AreWithin, own_app, own_line};
ghost use Rattle.vt_options.specs.promise.Requests.{AskHelpOf, IsRefusedAsOf};
ghost use Rattle.vt_tasks.specs.promise.Refusals.{TellsRefusalOf, status_of};
ghost use Rattle.vt_tasks.specs.inside.Tasks.{BeginsWithinLimit};
ghost use Rattle.vt_tasks.specs.promise.Models.{any_handlers};
ghost use Rattle.vt_tasks.specs.inside.Models.{CarriesOut};
ghost use Rattle.vt_runner.specs.promise.OneModel.{MakesBy, option_unsettled, IsDoneOf, EndsOf, IsReadOf, AskBadLineOf};

use crate::carry_out;
use crate::table::{only_model, table_of};
use std::alloc::Global;
use std::convert::AsStr;
use std::io::{Read, Write};
use std::sync::Wait;
use std::thread::Threads;
use vt_key::Fault;
use vt_model::Model as EventModel;
use vt_options::{Chosen, OwnOption, ProgramTexts, Task, Unsettled, settled};
use vt_tasks::models_program;
use vt_watch::Watch;

/// The streams of a program.
#[derive(Debug, Drop)]
pub struct Streams<R, O, E> {
    /// What a replay reads its steps from.
    pub input: R,
    /// Where records, answers and help go.
    pub output: O,
    /// Where the line of a refusal goes.
    pub errors: E,
}

/// A model that was made of the values of its options.
#[derive(Drop)]
pub struct Made<M> {
    /// The model.
    pub model: M,
    /// The number of processes that it fixes, if it fixes one. Then this is what `--lps` is by default, and another value is refused.
    pub processes: Option<u32>,
}

impl<M> Made<M> {
    /// A model that runs with any number of processes.
    pub fn any(model: M) -> Made<M>
        ensures { result ≡ record { model = model; processes = None } }
    {
        Made {
            model,
            processes: None,
        }
    }

    /// A model that runs with this number of processes alone.
    pub fn fixed(model: M, processes: u32) -> Made<M>
        ensures { result ≡ record { model = model; processes = Some processes } }
    {
        Made {
            model,
            processes: Some(processes),
        }
    }
}

/// The number of processes that a model fixes.
pub(crate) fn fixed_by<M>(made: &Made<M>) -> Option<u64>
    ensures { result ≡ made.now.processes }
{
    match made.processes {
        Some(processes) => Some(u64::from(processes)),
        None => None,
    }
}

/// The fault of a model with which nothing is run, since it fixes another number of processes.
pub(crate) fn fault_of(unsettled: Unsettled) -> Fault
    ensures { option_named result ≡ Some (option_unsettled unsettled) }
{
    match unsettled {
        Unsettled::Count => Fault::BadOption("values"),
        Unsettled::Lps(_) => Fault::BadOption("lps"),
    }
}

/// A whole program of one model: does what the words ask for, and returns the exit status. The first word is the program's
/// name, `own` are the model's options, each with a default in its range, and `make` makes the model of their values. It has to work
/// for all values in their ranges, as many as `own` has lines.
///
/// The words are those of `./twarp` without `--model` and the options of programs, and with the model's options in the place of its
/// models': `run`, `replay` or help, with
/// `--workers`, `--lps`, `--end`, `--seed`, `--text` and the model's options, `--synch`, `--turns`, `--finals` and `--records` for `run`
/// alone, and `--serial` for `replay` alone.
///
/// Status 0: the output got all that the words ask for, and nothing else. This is the help, or the records of the model's
/// sequential run and its final values, as far as the words ask for them, or for a replay of the step text from the input a line for each step's answer, and then what the world
/// shows. The model is one that `make` gives for the values that the words give; an option that they don't give has its
/// default. So has `--lps` the number of processes that the model fixes, if it fixes one.
///
/// Any other status comes with one line `NAME: refused N TEXT` on `errors`, or a beginning of it if `errors` fails. The
/// status depends on N alone: 2 for 7, 3 for 8, and 1 for the others. The committed records of a run in threads are those
/// below some time, a beginning of all.
///
/// - N = 1: memory was refused. Nothing was written; or of a sequential run, a beginning of the text; or of a replay, the
///   lines of all answers; or of a run in threads, the committed records.
/// - N = 3: the committed records of a run in threads couldn't be read. Those below some earlier time were written, or none. It is
///   never so with one worker.
/// - N = 5: a send number of a run would pass 2^63, or a serial of a run in threads or at the starts of a replay. Nothing
///   was written; or of a sequential run, a beginning of the text; or of a run in threads, the committed records.
/// - N = 6: a worker of a run in threads made all its turns before the end of the run, and the committed records were
///   written.
/// - N = 7: the words or the input are refused, and nothing was written. TEXT names the first bad option, `command-line` if
///   the words have no meaning, `values` if `make` makes no model of the values or one of no process or too many, `lps` if the model
///   fixes another number of processes than the words give, or `input`.
/// - N = 8: the step text has a bad line. TEXT names the first one. Nothing was run, and nothing was written.
/// - N = 9: the output failed. A beginning of the text was written.
///
/// `watch` is told how far a run is. No contract says what it is told.
pub fn model_program<
    H: Threads + Wait + Sync,
    M: EventModel + Sync + Drop,
    F: Fn(&[u32]) -> Option<Made<M>>,
    S: AsStr,
    R: Read,
    O: Write,
    E: Write,
    W: Watch + Sync,
>(
    rt: &H,
    alloc: Global,
    words: &[S],
    streams: &mut Streams<R, O, E>,
    texts: &ProgramTexts,
    own: &[OwnOption],
    watch: &W,
    make: F,
) -> u8
where
    M::State: Send,
    M::Kept: Send,
    requires defaults { HaveDefaults own.now }
    requires callable { (values : _) → length values.now ≡ length own.now → AreWithin own.now values.now → F.pre make values }
    ensures done { result ≡ 0 → IsDoneOf M.handlers (λ values made. FnReturnsAt F.Fn make values made) texts.now.name.now own.now (map S.text words.now) (R.remaining streams.old.input) (O.contents streams.old.output) (O.contents streams.new.output) }
    ensures silent { result ≡ 0 → Keeps (E.contents streams.old.errors) (E.contents streams.new.errors) }
    ensures refused { result ≢ 0 → (fault : Fault) × (result ≡ status_of fault)
        × EndsOf M.handlers (λ values made. FnReturnsAt F.Fn make values made) texts.now.name.now own.now fault (map S.text words.now) (R.remaining streams.old.input) (O.contents streams.old.output) (O.contents streams.new.output)
        × TellsRefusalOf texts.now.name.now fault (E.contents streams.old.errors) (E.contents streams.new.errors) }
    ensures untouched { (name : Text) → IsRefusedAsOf (own_line texts.now.name.now own.now) (map S.text words.now) name → ¬ AskHelpOf (own_app texts.now.name.now own.now) (map S.text words.now)
        → (result ≢ 0) × Keeps (O.contents streams.old.output) (O.contents streams.new.output) }
    ensures unrun { AskBadLineOf M.handlers (λ values made. FnReturnsAt F.Fn make values made) texts.now.name.now own.now (map S.text words.now) (R.remaining streams.old.input) → (result ≢ 0) × Keeps (O.contents streams.old.output) (O.contents streams.new.output) }
    ensures read { IsReadOf M.handlers (λ values made. FnReturnsAt F.Fn make values made) texts.now.name.now own.now (map S.text words.now) (R.remaining streams.old.input) (R.remaining streams.new.input) }
{
    let model = only_model(own);
    let table = table_of(&model, &[]);
    let on_made = move |rt: &H, alloc: Global, chosen: &Chosen<
        '_,
    >, task: &Task, watch: &W, input: &mut R, output: &mut O| -> Result<(), Fault>
        requires { BeginsWithinLimit task.now × ((values : _) → values.now ≡ chosen.now.values.items → F.pre make values) }
        ensures { CarriesOut (λ model. any_handlers (M.handlers model)) (MakesBy (λ values made. FnReturnsAt F.Fn make values made)) chosen.now task.now (R.remaining input.old) (R.remaining input.new) (O.contents output.old) (O.contents output.new) result }
    {
        let Some(made) = make(chosen.values.as_slice()) else {
            return Err(Fault::BadOption("values"));
        };
        match settled(fixed_by(&made), chosen.lps, task.config()) {
            Ok(config) => carry_out(
                rt,
                alloc,
                &made.model,
                &task.with_config(config),
                watch,
                input,
                output,
            ),
            Err(unsettled) => Err(fault_of(unsettled)),
        }
    };
    models_program(
        rt,
        alloc,
        words,
        &mut streams.input,
        &mut streams.output,
        &mut streams.errors,
        texts,
        &table,
        watch,
        on_made,
    )
}
