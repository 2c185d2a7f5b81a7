//! A whole program of one model, over the words of its process.

ghost use Rattle.std.specs.Prelude.{◌≡◌, ◌≢◌, ◌⊎◌, ◌++◌, List, length, Some, None, codes, IfErr, IfSome, string_bytes};
ghost use Rattle.std.specs.Fn.{FnReturnsAt};
ghost use Rattle.std.specs.Io.KnownBytes.{Keeps};
ghost use Rattle.clap.specs.Words.{Text};
ghost use Rattle.vt_key.specs.promise.Faults.{option_named};
ghost use Rattle.vt_key.specs.declared.fault.Fault.{Fault};
ghost use Rattle.vt_key.specs.declared.fault.Fault.TheVariants.{Memory};
ghost use Rattle.vt_options.specs.inside.Hints.{IsHintOn, TellsTurns};
ghost use Rattle.vt_options.specs.promise.Own.{HaveDefaults, AreWithin, line_for};
ghost use Rattle.vt_options.specs.inside.Taken.{own_names, taken_among, taken_in};
ghost use Rattle.vt_tasks.specs.promise.Refusals.{TellsRefusalOf, status_of};
ghost use Rattle.vt_runner.specs.promise.OneModel.{IsDoneOf, EndsOf, IsReadOf};
ghost use Rattle.vt_runner.specs.inside.OneModel.{IsRefusedUnasked};
ghost use Rattle.vt_runner.specs.inside.WithFiles.{AnswersAt, IsDoneWithFiles, IsReadWithFiles, RefusesTask, own_models};

use crate::files::Files;
use crate::one_model::{Made, Streams, model_program};
use crate::table::{only_model, table_of};
use crate::with_files::{Unmade, model_program_with_files};
use std::alloc::Global;
use std::env;
use std::env::Env;
use std::io::{ErrorKind, Read, Write};
use std::sync::Wait;
use std::thread::Threads;
use vt_key::Fault;
use vt_model::Model as EventModel;
use vt_options::{FileOption, OwnOption, ProgramTexts, hint, taken_among, taken_name, turns_hint};
use vt_tasks::tell_refusal;
use vt_watch::Watch;

/// The words of the process, the program's name first. No contract says so: the library's `env::args` has none.
///
/// [`Fault::Memory`]: memory was refused. [`Fault::BadOption`] with `command-line`: a word isn't text.
pub fn words_of<H: Env + AllocGlobal>(rt: &H) -> Result<Vec<String>, Fault>
    ensures refused { IfErr result (λ fault. (fault ≡ Memory) ⊎ (option_named fault ≡ Some (codes "command-line"))) }
{
    match env::args(rt) {
        Ok(words) => words.collect(rt.alloc()).map_err(|_| Fault::Memory),
        Err(error) if error.kind() == ErrorKind::OutOfMemory => Err(Fault::Memory),
        // A word that isn't text has no meaning.
        Err(_) => Err(Fault::BadOption("command-line")),
    }
}

/// The whole program of a model: does what the words of the process ask for, as [`model_program`] says, and returns the exit
/// status.
///
/// `texts` is what help shows of the program, `own` are the model's options, each with a default in its range, and `watch` is told
/// how far a run is. `make` makes the model of the options' values, which come in the order of `own`, each in its range. It has to
/// work for all such values. `None`: these values make no model, and the program refuses them. A model that fixes a number of processes
/// ([`Made::fixed`]) makes it the default of `--lps`, and refuses any other.
///
/// No contract says what the words of the process are: status 0 means that for some words all that they ask for was written.
///
/// An option of the model with the name of an option of every model, of help, or of another of the model's is refused before
/// anything else: the line is `NAME: refused 7 bad option OPTION`, the status is 2, and nothing was read or written.
// The values come as a slice: a bound `Fn` can't name an array of any length.
pub fn run_program<
    H: Threads + Wait + Sync + Env + AllocGlobal,
    M: EventModel + Sync + Drop,
    F: Fn(&[u32]) -> Option<Made<M>>,
    R: Read,
    O: Write,
    E: Write,
    W: Watch + Sync,
>(
    rt: &H,
    streams: &mut Streams<R, O, E>,
    texts: &ProgramTexts,
    own: &[OwnOption],
    watch: &W,
    make: F,
) -> u8
where
    M::State: Send,
    M::Kept: Send,
    requires defaults { HaveDefaults own.now }
    requires callable { (values : _) → length values.now ≡ length own.now → AreWithin own.now values.now → F.pre make values }
    ensures done { result ≡ 0 → (words : List Text) × IsDoneOf M.handlers (λ values made. FnReturnsAt F.Fn make values made) texts.now.name.now own.now words (R.remaining streams.old.input) (O.contents streams.old.output) (O.contents streams.new.output)
        × IsReadOf M.handlers (λ values made. FnReturnsAt F.Fn make values made) texts.now.name.now own.now words (R.remaining streams.old.input) (R.remaining streams.new.input) }
    ensures silent { result ≡ 0 → Keeps (E.contents streams.old.errors) (E.contents streams.new.errors) }
    ensures refused { result ≢ 0 → (fault : Fault) × (result ≡ status_of fault)
        × (((words : List Text) × EndsOf M.handlers (λ values made. FnReturnsAt F.Fn make values made) texts.now.name.now own.now fault words (R.remaining streams.old.input) (O.contents streams.old.output) (O.contents streams.new.output)
        × IsReadOf M.handlers (λ values made. FnReturnsAt F.Fn make values made) texts.now.name.now own.now words (R.remaining streams.old.input) (R.remaining streams.new.input))
        ⊎ IsRefusedUnasked (taken_in (own_names own.now)) fault (R.remaining streams.old.input) (R.remaining streams.new.input) (O.contents streams.old.output) (O.contents streams.new.output))
        × TellsRefusalOf texts.now.name.now fault (E.contents streams.old.errors) (E.contents streams.new.errors) }
    ensures taken { (name : Text) → taken_in (own_names own.now) ≡ Some name → (result ≡ 2)
        × Keeps (R.remaining streams.old.input) (R.remaining streams.new.input) × Keeps (O.contents streams.old.output) (O.contents streams.new.output)
        × ((fault : Fault) × (option_named fault ≡ Some name) × TellsRefusalOf texts.now.name.now fault (E.contents streams.old.errors) (E.contents streams.new.errors)) }
{
    if let Some(name) = taken_name(own) {
        return tell_refusal(&mut streams.errors, texts.name, Fault::BadOption(name));
    }
    match words_of(rt) {
        Ok(words) => model_program(
            rt,
            rt.alloc(),
            words.as_slice(),
            streams,
            texts,
            own,
            watch,
            make,
        ),
        Err(fault) => tell_refusal(&mut streams.errors, texts.name, fault),
    }
}

/// The whole program of a model, some of whose options are files: does what the words of the process ask for, as
/// [`model_program_with_files`] says, and returns the exit status. All else is as [`run_program`] says; the name of a file's option is taken
/// as that of a number is.
// It stands beside `run_program`, since what a closure promises can't be weakened under `AskBadLine`.
pub fn run_program_with_files<
    H: Threads + Wait + Sync + Env + AllocGlobal,
    M: EventModel + Sync + Drop,
    D: Files,
    F: Fn(&[u32], &[Option<Vec<u8>>]) -> Result<Made<M>, Unmade>,
    R: Read,
    O: Write,
    E: Write,
    W: Watch + Sync,
>(
    rt: &H,
    streams: &mut Streams<R, O, E>,
    texts: &ProgramTexts,
    own: &[OwnOption],
    files: &[FileOption],
    opened: &D,
    watch: &W,
    make: F,
) -> u8
where
    M::State: Send,
    M::Kept: Send,
    requires defaults { HaveDefaults own.now }
    requires callable { (values : _) (bytes : _) → length values.now ≡ length own.now → AreWithin own.now values.now → length bytes.now ≡ length files.now → F.pre make values bytes }
    ensures done { result ≡ 0 → (words : List Text) × IsDoneWithFiles M.handlers (D.told opened.now) (λ values files answer. AnswersAt F.Fn make values files answer) texts.now.name.now own.now files.now words (R.remaining streams.old.input) (O.contents streams.old.output) (O.contents streams.new.output)
        × IsReadWithFiles M.handlers (D.told opened.now) (λ values files answer. AnswersAt F.Fn make values files answer) texts.now.name.now own.now files.now words (R.remaining streams.old.input) (R.remaining streams.new.input) }
    ensures silent { result ≡ 0 → Keeps (E.contents streams.old.errors) (E.contents streams.new.errors) }
    ensures refused { result ≢ 0 → ((words : List Text) × RefusesTask M.handlers (D.told opened.now) (λ values files answer. AnswersAt F.Fn make values files answer) texts.now.name.now own.now files.now words result (R.remaining streams.old.input) (O.contents streams.old.output) (O.contents streams.new.output) (E.contents streams.old.errors) (E.contents streams.new.errors)
        × IsReadWithFiles M.handlers (D.told opened.now) (λ values files answer. AnswersAt F.Fn make values files answer) texts.now.name.now own.now files.now words (R.remaining streams.old.input) (R.remaining streams.new.input))
        ⊎ ((fault : Fault) × (result ≡ status_of fault)
        × IsRefusedUnasked (taken_among own.now files.now) fault (R.remaining streams.old.input) (R.remaining streams.new.input) (O.contents streams.old.output) (O.contents streams.new.output)
        × TellsRefusalOf texts.now.name.now fault (E.contents streams.old.errors) (E.contents streams.new.errors)) }
    ensures taken { (name : Text) → taken_among own.now files.now ≡ Some name → (result ≡ 2)
        × Keeps (R.remaining streams.old.input) (R.remaining streams.new.input) × Keeps (O.contents streams.old.output) (O.contents streams.new.output)
        × ((fault : Fault) × (option_named fault ≡ Some name) × TellsRefusalOf texts.now.name.now fault (E.contents streams.old.errors) (E.contents streams.new.errors)) }
{
    if let Some(name) = taken_among(own, files) {
        return tell_refusal(&mut streams.errors, texts.name, Fault::BadOption(name));
    }
    match words_of(rt) {
        Ok(words) => model_program_with_files(
            rt,
            rt.alloc(),
            words.as_slice(),
            streams,
            texts,
            own,
            files,
            opened,
            watch,
            make,
        ),
        Err(fault) => tell_refusal(&mut streams.errors, texts.name, fault),
    }
}

/// A line for a terminal on an option of a program that has the name of another. None: memory was refused.
fn hint_on_taken(alloc: Global, program: &str, name: &str) -> Option<String>
    ensures { IfSome result (λ line. string_bytes line ≡ program.now ++ (codes ": another option of it is named --" ++ (name.now ++ codes " too"))) }
{
    format!(in alloc; "{program}: another option of it is named --{name} too").ok()
}

/// A line for a terminal where [`run_program`] has refused the words of the process: which word it was, and what is allowed; or
/// that an option's name is taken. None: none of these was refused, or memory was refused.
///
/// No contract says what the words of the process are: if no name is taken, a line is right for some words.
pub fn hint_of_process<H: Env + AllocGlobal>(
    rt: &H,
    texts: &ProgramTexts,
    own: &[OwnOption],
    files: &[FileOption],
) -> Option<String>
    requires defaults { HaveDefaults own.now }
    ensures taken { (name : Text) → taken_among own.now files.now ≡ Some name → IfSome result (λ line. string_bytes line ≡ texts.now.name.now ++ (codes ": another option of it is named --" ++ (name ++ codes " too"))) }
    ensures words { taken_among own.now files.now ≡ None → IfSome result (λ line. (words : List Text) × IsHintOn texts.now.name.now (line_for texts.now.name.now (own_models own.now files.now)) words (string_bytes line)) }
{
    if let Some(name) = taken_among(own, files) {
        return hint_on_taken(rt.alloc(), texts.name, name);
    }
    let Ok(words) = words_of(rt) else {
        return None;
    };
    let model = only_model(own);
    let table = table_of(&model, files);
    hint(rt.alloc(), texts, &table, words.as_slice())
}

/// A line for a terminal where [`run_program`] has refused a run for its turns: how many would allow more. None: the words of the process
/// ask for no run, its turns are the most that there may be, or memory was refused.
///
/// No contract says what the words of the process are: a line is right for some words.
pub fn turns_hint_of_process<H: Env + AllocGlobal>(
    rt: &H,
    texts: &ProgramTexts,
    own: &[OwnOption],
    files: &[FileOption],
) -> Option<String>
    requires defaults { HaveDefaults own.now }
    ensures words { IfSome result (λ line. (words : List Text) × TellsTurns texts.now.name.now (own_models own.now files.now) words (string_bytes line)) }
{
    let Ok(words) = words_of(rt) else {
        return None;
    };
    let model = only_model(own);
    let table = table_of(&model, files);
    turns_hint(rt.alloc(), texts, &table, words.as_slice())
}
