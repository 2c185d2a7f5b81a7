//! A whole program of one model, some of whose options are files, as a function of its words, files, a reader and two writers.

ghost use Rattle.std.specs.Prelude.{◌≡◌, ◌≢◌, Ok, IfOk, IfErr, IfSome, length, map, string_bytes};
ghost use Rattle.std.specs.Io.KnownBytes.{Keeps};
ghost use Rattle.clap.specs.Words.{Text};
ghost use Rattle.vt_options.specs.promise.Own.{AreWithin, HaveDefaults, app_for, line_for};
ghost use Rattle.vt_options.specs.promise.Requests.{AskHelpOf, IsRefusedAsOf};
ghost use Rattle.vt_options.specs.inside.Shown.{IsShownSentence};
ghost use Rattle.vt_tasks.specs.inside.Tasks.{BeginsWithinLimit};
ghost use Rattle.vt_runner.specs.inside.WithFiles.{AnswersAt, AnswersWords, AreFilesRefused, AskBadLineWithFiles, CarriesWithFiles, IsDoneWithFiles, IsFileRefused, IsReadWithFiles, IsRefusedWith, IsSaidBy, MakesWithFiles, MayHaveAll, MayHaveAt, RefusesTask, TellsOption, TellsRefused, option_at, own_models, plain, why_line};

use crate::carry_out;
use crate::files::{Files, ReadFault, bytes_of};
use crate::one_model::{Made, Streams, fault_of, fixed_by};
use crate::table::{only_model, table_of};
use std::alloc::Global;
use std::convert::AsStr;
use std::io::{Read, Write};
use std::sync::Wait;
use std::thread::Threads;
use vt_key::Fault;
use vt_model::{Config, Model as EventModel};
use vt_options::{
    Chosen, FileChoice, FileOption, OwnOption, ProgramTexts, Request, Task, read_request, settled,
    shown_sentence,
};
use vt_tasks::tell_refusal;
use vt_text::write_bytes;
use vt_watch::Watch;

/// The most bytes of a file that is an option: 16 MiB.
pub const MAX_FILE: usize = 16 * 1_048_576;

/// Why no model is made of the values of options and of the bytes of files.
#[derive(Debug, Drop)]
pub enum Unmade {
    /// Memory was refused.
    Memory,
    /// The values make no model, for this reason.
    Values(String),
    /// The file of this index, in the order of the table, makes no model, for this reason.
    // An index: a closure's answer with a `&'static str` is refused by the borrow checker.
    File(usize, String),
}

/// Why a task isn't done.
#[derive(Drop)]
pub(crate) enum Refused<'a> {
    /// For this fault.
    Plain(Fault),
    /// This option is bad, for this reason.
    Bad(&'a str, String),
}

/// An answer that says nothing of an option.
fn plain<'a>(answer: Result<(), Fault>) -> Result<(), Refused<'a>>
    ensures { result ≡ plain answer }
{
    match answer {
        Ok(()) => Ok(()),
        Err(fault) => Err(Refused::Plain(fault)),
    }
}

/// The bytes of the file of an option, if the words give one.
fn read_file<'a, D: Files>(
    alloc: Global,
    opened: &D,
    choice: &FileChoice<'a>,
) -> Result<Option<Vec<u8>>, Refused<'a>>
    ensures ok { IfOk result (λ bytes. MayHaveAt (D.told opened.now) choice.now.path bytes) }
    ensures err { IfErr result (IsFileRefused (D.told opened.now) choice.now) }
{
    let Some(path) = choice.path else {
        return Ok(None);
    };
    match bytes_of(alloc, opened, path, MAX_FILE) {
        Ok(bytes) => Ok(Some(bytes)),
        Err(ReadFault::Memory) => Err(Refused::Plain(Fault::Memory)),
        Err(fault) => match fault.to_string(alloc) {
            Ok(text) => Err(Refused::Bad(choice.option, text)),
            Err(_) => Err(Refused::Plain(Fault::Memory)),
        },
    }
}

/// The bytes of the files of options.
fn read_files<'a, D: Files>(
    alloc: Global,
    opened: &D,
    choices: &[FileChoice<'a>],
) -> Result<Vec<Option<Vec<u8>>>, Refused<'a>>
    ensures ok { IfOk result (λ files. MayHaveAll (D.told opened.now) choices.now files.items) }
    ensures err { IfErr result (AreFilesRefused (D.told opened.now) choices.now) }
{
    let mut files = Vec::new(alloc);
    for choice in choices {
        let bytes = match read_file(alloc, opened, choice) {
            Ok(bytes) => bytes,
            Err(refused) => return Err(refused),
        };
        let Ok(()) = files.push(bytes) else {
            return Err(Refused::Plain(Fault::Memory));
        };
    }
    Ok(files)
}

/// The option at this index.
fn option_at<'a>(choices: &[FileChoice<'a>], index: usize) -> &'a str
    ensures { result.now ≡ option_at choices.now index }
{
    match choices.get(index) {
        Some(choice) => choice.option,
        None => "values",
    }
}

/// Why a task is refused whose model can't be made.
fn refused_by<'a>(choices: &[FileChoice<'a>], unmade: Unmade) -> Refused<'a>
    ensures { IsSaidBy choices.now unmade result }
{
    match unmade {
        Unmade::Memory => Refused::Plain(Fault::Memory),
        Unmade::Values(text) => Refused::Bad("values", text),
        Unmade::File(index, text) => Refused::Bad(option_at(choices, index), text),
    }
}

/// The model that a choice makes, and the config with which it is run.
fn made_of<'a, M: Drop, D: Files, F: Fn(&[u32], &[Option<Vec<u8>>]) -> Result<Made<M>, Unmade>>(
    alloc: Global,
    opened: &D,
    chosen: &Chosen<'a>,
    config: Config,
    make: &F,
) -> Result<(M, Config), Refused<'a>>
    requires { (values : _) (files : _) → values.now ≡ chosen.now.values.items → length files.now ≡ length chosen.now.files.items → F.pre make.now values files }
    ensures ok { IfOk result (λ made. MakesWithFiles (D.told opened.now) (λ values files answer. AnswersAt F.Fn make.now values files answer) chosen.now config (Ok made)) }
    ensures err { IfErr result (IsRefusedWith (D.told opened.now) (λ values files answer. AnswersAt F.Fn make.now values files answer) chosen.now config) }
{
    let files = match read_files(alloc, opened, chosen.files.as_slice()) {
        Ok(files) => files,
        Err(refused) => return Err(refused),
    };
    let made = match make(chosen.values.as_slice(), files.as_slice()) {
        Ok(made) => made,
        Err(unmade) => return Err(refused_by(chosen.files.as_slice(), unmade)),
    };
    match settled(fixed_by(&made), chosen.lps, config) {
        Ok(config) => Ok((made.model, config)),
        Err(unsettled) => Err(Refused::Plain(fault_of(unsettled))),
    }
}

/// Does a task with the model that a choice makes.
fn carry<
    'a,
    H: Threads + Wait + Sync,
    M: EventModel + Sync + Drop,
    D: Files,
    F: Fn(&[u32], &[Option<Vec<u8>>]) -> Result<Made<M>, Unmade>,
    R: Read,
    O: Write,
    W: Watch + Sync,
>(
    rt: &H,
    alloc: Global,
    opened: &D,
    chosen: &Chosen<'a>,
    task: &Task,
    watch: &W,
    input: &mut R,
    output: &mut O,
    make: &F,
) -> Result<(), Refused<'a>>
where
    M::State: Send,
    M::Kept: Send,
    requires counted { BeginsWithinLimit task.now }
    requires callable { (values : _) (files : _) → values.now ≡ chosen.now.values.items → length files.now ≡ length chosen.now.files.items → F.pre make.now values files }
    ensures { CarriesWithFiles M.handlers (D.told opened.now) (λ values files answer. AnswersAt F.Fn make.now values files answer) chosen.now task.now (R.remaining input.old) (R.remaining input.new) (O.contents output.old) (O.contents output.new) result }
{
    let (model, config) = match made_of(alloc, opened, chosen, task.config(), make) {
        Ok(made) => made,
        Err(refused) => return Err(refused),
    };
    plain(carry_out(
        rt,
        alloc,
        &model,
        &task.with_config(config),
        watch,
        input,
        output,
    ))
}

/// Does what the words ask for.
fn answer<
    'a,
    H: Threads + Wait + Sync,
    M: EventModel + Sync + Drop,
    D: Files,
    F: Fn(&[u32], &[Option<Vec<u8>>]) -> Result<Made<M>, Unmade>,
    S: AsStr,
    R: Read,
    O: Write,
    W: Watch + Sync,
>(
    rt: &H,
    alloc: Global,
    words: &'a [S],
    input: &mut R,
    output: &mut O,
    texts: &ProgramTexts,
    own: &[OwnOption],
    files: &[FileOption],
    opened: &D,
    watch: &W,
    make: &F,
) -> Result<(), Refused<'a>>
where
    M::State: Send,
    M::Kept: Send,
    requires defaults { HaveDefaults own.now }
    requires callable { (values : _) (bytes : _) → length values.now ≡ length own.now → AreWithin own.now values.now → length bytes.now ≡ length files.now → F.pre make.now values bytes }
    ensures { AnswersWords M.handlers (D.told opened.now) (λ values files answer. AnswersAt F.Fn make.now values files answer) texts.now.name.now own.now files.now (map S.text words.now) (R.remaining input.old) (R.remaining input.new) (O.contents output.old) (O.contents output.new) result }
{
    let model = only_model(own);
    let table = table_of(&model, files);
    let (task, chosen) = match read_request(alloc, texts, &table, words) {
        Ok(Request::Task(task, chosen)) => (task, chosen),
        Ok(Request::Help(text)) => return plain(write_bytes(output, text.as_bytes())),
        Err(fault) => return Err(Refused::Plain(fault)),
    };
    carry(
        rt, alloc, opened, &chosen, &task, watch, input, output, make,
    )
}

/// The line of a refusal that says why an option is bad. None: memory was refused.
fn line_of(alloc: Global, name: &str, option: &str, shown: &str) -> Option<String>
    ensures { IfSome result (λ line. string_bytes line ≡ why_line name.now option.now shown.now) }
{
    format!(in alloc; "{name}: refused 7 bad option {option}: {shown}\n").ok()
}

/// The same, by what was said of the option, which is shown as [`shown_sentence`] shows it.
fn why_line(alloc: Global, name: &str, option: &str, said: &str) -> Option<String>
    ensures { IfSome result (λ line. (shown : Text) × IsShownSentence said.now shown × (string_bytes line ≡ why_line name.now option.now shown)) }
{
    let shown = shown_sentence(alloc, said)?;
    line_of(alloc, name, option, shown.as_str())
}

/// Tells why an option is bad, and returns the exit status.
fn tell_why<E: Write>(alloc: Global, errors: &mut E, name: &str, option: &str, said: &str) -> u8
    ensures { TellsOption name.now option.now said.now result (E.contents errors.old) (E.contents errors.new) }
{
    let Some(line) = why_line(alloc, name, option, said) else {
        return tell_refusal(errors, name, Fault::Memory);
    };
    // As for any refusal, a line that can't be written leaves the status as it is.
    let _ = write_bytes(errors, line.as_bytes());
    2
}

/// Tells why a task isn't done, and returns the exit status.
fn tell_refused<E: Write>(alloc: Global, errors: &mut E, name: &str, why: Refused<'_>) -> u8
    ensures { TellsRefused name.now why.entry result (E.contents errors.old) (E.contents errors.new) }
{
    match why {
        Refused::Plain(fault) => tell_refusal(errors, name, fault),
        Refused::Bad(option, text) => tell_why(alloc, errors, name, option, text.as_str()),
    }
}

/// A whole program of one model, some of whose options are files. It does what the words ask for as [`model_program`](crate::model_program) does, whose
/// account of statuses holds here too. Further:
///
/// - `files` are the options that are paths of files, each of at most [`MAX_FILE`] bytes, and `opened` has these files. It is asked for those
///   that the words give, and for nothing else.
/// - `make` makes the model of the values of `own`, as there, and of the bytes of the files, in the order of `files`: None where the
///   words give none. It has to work for all bytes.
/// - Where `make` answers [`Unmade`], or a file can't be read, the line of the refusal is `NAME: refused 7 bad option OPTION: TEXT`, and the
///   status 2. OPTION is the file's, or `values`. TEXT is what was said, as a terminal is shown a sentence: in one line, without control
///   characters and of bounded length. Nothing was read from the input, and nothing was written to the output. Options that are numbers are tested before, and files in
///   the order of their table.
pub fn model_program_with_files<
    H: Threads + Wait + Sync,
    M: EventModel + Sync + Drop,
    D: Files,
    F: Fn(&[u32], &[Option<Vec<u8>>]) -> Result<Made<M>, Unmade>,
    S: AsStr,
    R: Read,
    O: Write,
    E: Write,
    W: Watch + Sync,
>(
    rt: &H,
    alloc: Global,
    words: &[S],
    streams: &mut Streams<R, O, E>,
    texts: &ProgramTexts,
    own: &[OwnOption],
    files: &[FileOption],
    opened: &D,
    watch: &W,
    make: F,
) -> u8
where
    M::State: Send,
    M::Kept: Send,
    requires defaults { HaveDefaults own.now }
    requires callable { (values : _) (bytes : _) → length values.now ≡ length own.now → AreWithin own.now values.now → length bytes.now ≡ length files.now → F.pre make values bytes }
    ensures done { result ≡ 0 → IsDoneWithFiles M.handlers (D.told opened.now) (λ values files answer. AnswersAt F.Fn make values files answer) texts.now.name.now own.now files.now (map S.text words.now) (R.remaining streams.old.input) (O.contents streams.old.output) (O.contents streams.new.output) }
    ensures silent { result ≡ 0 → Keeps (E.contents streams.old.errors) (E.contents streams.new.errors) }
    ensures refused { result ≢ 0 → RefusesTask M.handlers (D.told opened.now) (λ values files answer. AnswersAt F.Fn make values files answer) texts.now.name.now own.now files.now (map S.text words.now) result (R.remaining streams.old.input) (O.contents streams.old.output) (O.contents streams.new.output) (E.contents streams.old.errors) (E.contents streams.new.errors) }
    ensures untouched { (name : Text) → IsRefusedAsOf (line_for texts.now.name.now (own_models own.now files.now)) (map S.text words.now) name → ¬ AskHelpOf (app_for texts.now.name.now (own_models own.now files.now)) (map S.text words.now)
        → (result ≢ 0) × Keeps (O.contents streams.old.output) (O.contents streams.new.output) }
    ensures unrun { AskBadLineWithFiles M.handlers (D.told opened.now) (λ values files answer. AnswersAt F.Fn make values files answer) texts.now.name.now own.now files.now (map S.text words.now) (R.remaining streams.old.input) → (result ≢ 0) × Keeps (O.contents streams.old.output) (O.contents streams.new.output) }
    ensures read { IsReadWithFiles M.handlers (D.told opened.now) (λ values files answer. AnswersAt F.Fn make values files answer) texts.now.name.now own.now files.now (map S.text words.now) (R.remaining streams.old.input) (R.remaining streams.new.input) }
{
    match answer(
        rt,
        alloc,
        words,
        &mut streams.input,
        &mut streams.output,
        texts,
        own,
        files,
        opened,
        watch,
        &make,
    ) {
        Ok(()) => 0,
        Err(refused) => tell_refused(alloc, &mut streams.errors, texts.name, refused),
    }
}
