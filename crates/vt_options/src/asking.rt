//! Requests: what the command line of a program of models asks for.

ghost use Rattle.std.specs.Prelude.{◌≡◌, ◌++◌, [], List, None, Some, IfOk, IfErr, codes, map};
ghost use Rattle.clap.specs.Words.{Text, fault_of, subcommand_of, subcommand_rows_of, first_value, found_of, HasKind};
ghost use Rattle.vt_options.specs.promise.Line.{once};
ghost use Rattle.vt_options.specs.inside.Line.{helps_of, options_of, texts_in};
ghost use Rattle.vt_options.specs.inside.Texts.{help_of, own_help};
ghost use Rattle.vt_options.specs.promise.Table.{lps, value_in};
ghost use Rattle.vt_options.specs.promise.Programs.{value_given};
ghost use Rattle.vt_options.specs.promise.Own.{GiveModel, GivePaths, GiveProgram, number_table, path_of, table_names, naming_names, app_for, line_for, program_options, run_options, replay_options, first_bad_of_program, first_bad_of_run, first_bad_of_replay};
ghost use Rattle.vt_options.specs.inside.Own.{AllHaveDefaults, NamesBad, models_of, file_names, options_round, tables_of};
ghost use Rattle.vt_options.specs.inside.Requests.{IsRefusedByOf};
ghost use Rattle.vt_options.specs.inside.Asked.{AsksReplay, AsksRun, IsAsked};

use crate::helping::{parsed_in, told_options};
use crate::line::{LineOption, ProgramTexts, Uses, matches_in};
use crate::models::{model_option, model_values};
use crate::own::{Chosen, FileOption, ModelOptions, ModelTable, OwnOption, file_options, range_of};
use crate::programs::{lps_given, program_option};
use crate::reading::{
    config_options, finals_option, number_option, records_option, synch_option, text_option,
};
use crate::refusing::help_of;
use crate::texts::{
    DATA, END, FILES_HEADING, FINALS, FUEL, LPS, OptionText, PROGRAM, RECORDS, REPLAY_WORKERS,
    SEED, SERIAL, SET, SYNCH, TEXT, TURNS, Takes, WORKERS,
};
use crate::{ReplaySettings, RunSettings, Task, limits};
use clap::error::ErrorKind;
use clap::{ArgMatches, Error};
use std::alloc::{AllocError, Global};
use std::convert::AsStr;
use vt_key::Fault;

/// What the command line of a program asks for.
#[derive(Debug, Drop)]
pub enum Request<'a> {
    /// A task, for this model with these values of its options, or for a program.
    Task(Task, Chosen<'a>),
    /// Help, with its text.
    Help(String),
}

/// The options of `run` before those of models.
static RUN_FIRST: [LineOption; 5] = [
    LineOption {
        text: SYNCH,
        uses: Uses::Once,
    },
    LineOption {
        text: WORKERS,
        uses: Uses::Once,
    },
    LineOption {
        text: LPS,
        uses: Uses::Once,
    },
    LineOption {
        text: END,
        uses: Uses::Once,
    },
    LineOption {
        text: SEED,
        uses: Uses::Once,
    },
];

/// The options of `run` behind those of models.
static RUN_LAST: [LineOption; 4] = [
    LineOption {
        text: TURNS,
        uses: Uses::Once,
    },
    LineOption {
        text: TEXT,
        uses: Uses::Once,
    },
    LineOption {
        text: FINALS,
        uses: Uses::Flag,
    },
    LineOption {
        text: RECORDS,
        uses: Uses::Once,
    },
];

/// The options of `replay` before those of models.
static REPLAY_FIRST: [LineOption; 4] = [
    LineOption {
        text: REPLAY_WORKERS,
        uses: Uses::Once,
    },
    LineOption {
        text: LPS,
        uses: Uses::Once,
    },
    LineOption {
        text: END,
        uses: Uses::Once,
    },
    LineOption {
        text: SEED,
        uses: Uses::Once,
    },
];

/// The options of `replay` behind those of models.
static REPLAY_LAST: [LineOption; 2] = [
    LineOption {
        text: SERIAL,
        uses: Uses::Once,
    },
    LineOption {
        text: TEXT,
        uses: Uses::Once,
    },
];

/// The options of programs.
static OF_A_PROGRAM: [LineOption; 4] = [
    LineOption {
        text: PROGRAM,
        uses: Uses::Once,
    },
    LineOption {
        text: SET,
        uses: Uses::ManyTimes,
    },
    LineOption {
        text: DATA,
        uses: Uses::Once,
    },
    LineOption {
        text: FUEL,
        uses: Uses::Once,
    },
];

/// An option that a line gives once at most, with a value.
fn once(text: OptionText<'static>) -> LineOption<'static>
    ensures { (result.text ≡ text.entry) × (result.uses ≡ Uses.Once) }
{
    LineOption {
        text,
        uses: Uses::Once,
    }
}

/// Adds these options to a list.
fn add_all(
    list: &mut Vec<LineOption<'static>>,
    more: &[LineOption<'static>],
) -> Result<(), AllocError>
    ensures { IfOk result (λ _. options_of list.new.items ≡ options_of list.old.items ++ options_of more.now) }
{
    for option in more {
        list.push(*option)?;
    }
    Ok(())
}

/// Adds the option that names the model to a list, where there is one.
fn add_naming(list: &mut Vec<LineOption<'static>>, table: &ModelTable<'_>) -> Result<(), AllocError>
    ensures { IfOk result (λ _. options_of list.new.items ≡ options_of list.old.items ++ map once (naming_names (models_of table.now).naming)) }
{
    if let Some(text) = &table.naming {
        list.push(once(*text))?;
    }
    Ok(())
}

/// What help shows of an option of a model.
fn own_text(heading: &'static str, option: &OwnOption) -> OptionText<'static>
    ensures name { result.name.now ≡ option.now.name.now }
    ensures heading { result.heading.now ≡ heading.now }
    ensures help { help_of result ≡ own_help option.now }
{
    OptionText {
        name: option.name,
        value: "N",
        heading,
        takes: Takes::Number(range_of(option)),
        help: option.help,
    }
}

/// Adds the options of a model to a list.
fn add_own(
    list: &mut Vec<LineOption<'static>>,
    heading: &'static str,
    own: &[OwnOption],
) -> Result<(), AllocError>
    ensures options { IfOk result (λ _. options_of list.new.items ≡ options_of list.old.items ++ map once (map (λ o. o.name) (number_table own.now))) }
    ensures helps { IfOk result (λ _. helps_of list.new.items ≡ helps_of list.old.items ++ map own_help own.now) }
{
    for option in own {
        list.push(once(own_text(heading, option)))?;
    }
    Ok(())
}

/// Adds the options of all models to a list.
fn add_models(
    list: &mut Vec<LineOption<'static>>,
    models: &[ModelOptions<'_>],
) -> Result<(), AllocError>
    ensures { IfOk result (λ _. options_of list.new.items ≡ options_of list.old.items ++ map once (table_names (tables_of models.now))) }
{
    for model in models {
        add_own(list, model.heading, model.options)?;
    }
    Ok(())
}

/// What help shows of an option that is a file.
fn file_text(option: &FileOption) -> OptionText<'static>
    ensures name { result.name.now ≡ option.now.name.now }
    ensures help { help_of result ≡ option.now.help.now }
{
    OptionText {
        name: option.name,
        value: "FILE",
        heading: FILES_HEADING,
        takes: Takes::Other("a file"),
        help: option.help,
    }
}

/// Adds the options that are files to a list.
fn add_files(list: &mut Vec<LineOption<'static>>, files: &[FileOption]) -> Result<(), AllocError>
    ensures { IfOk result (λ _. options_of list.new.items ≡ options_of list.old.items ++ map once (file_names files.now)) }
{
    for option in files {
        list.push(once(file_text(option)))?;
    }
    Ok(())
}

/// Adds the options of programs to a list, where the table lets them take a model's place.
fn add_programs(list: &mut Vec<LineOption<'static>>, programs: bool) -> Result<(), AllocError>
    ensures { IfOk result (λ _. options_of list.new.items ≡ options_of list.old.items ++ program_options programs) }
{
    if programs {
        add_all(list, &OF_A_PROGRAM)
    } else {
        Ok(())
    }
}

/// The options of a subcommand that has these before and behind those of models and files, in the order in which they are tested.
fn line_options(
    alloc: Global,
    table: &ModelTable<'_>,
    first: &[LineOption<'static>],
    last: &[LineOption<'static>],
) -> Result<Vec<LineOption<'static>>, AllocError>
    ensures { IfOk result (λ list. options_of list.items ≡ options_round (models_of table.now) (options_of first.now) (options_of last.now)) }
{
    let mut list: Vec<LineOption<'static>> = Vec::new(alloc);
    add_naming(&mut list, table)?;
    add_all(&mut list, first)?;
    add_models(&mut list, table.models)?;
    add_files(&mut list, table.files)?;
    add_all(&mut list, last)?;
    add_programs(&mut list, table.programs)?;
    Ok(list)
}

/// The options of `run`, in the order in which they are tested.
fn run_options(
    alloc: Global,
    table: &ModelTable<'_>,
) -> Result<Vec<LineOption<'static>>, AllocError>
    ensures { IfOk result (λ list. options_of list.items ≡ run_options (models_of table.now)) }
{
    line_options(alloc, table, &RUN_FIRST, &RUN_LAST)
}

/// The options of `replay`, in the order in which they are tested.
fn replay_options(
    alloc: Global,
    table: &ModelTable<'_>,
) -> Result<Vec<LineOption<'static>>, AllocError>
    ensures { IfOk result (λ list. options_of list.items ≡ replay_options (models_of table.now)) }
{
    line_options(alloc, table, &REPLAY_FIRST, &REPLAY_LAST)
}

/// The model of an index with these values, and what else the words choose: the number of processes, which is this one if they give
/// one, the files, and the program in the model's place.
fn chosen_of<'a>(
    alloc: Global,
    matches: &ArgMatches<'a>,
    table: &ModelTable<'_>,
    model: usize,
    values: Vec<u32>,
    processes: u32,
) -> Result<Chosen<'a>, Fault>
    requires model { GiveModel (models_of table.now) (first_value (found_of matches.now)) model values.items }
    requires processes { value_in (first_value (found_of matches.now)) lps ≡ Some processes }
    ensures model { IfOk result (λ c. GiveModel (models_of table.now) (first_value (found_of matches.now)) c.model c.values.items) }
    ensures processes { IfOk result (λ c. value_given (first_value (found_of matches.now)) lps ≡ c.lps) }
    ensures program { IfOk result (λ c. GiveProgram (models_of table.now) (first_value (found_of matches.now)) (texts_in matches.now (codes "set")) c.program) }
    ensures paths { IfOk result (λ c. GivePaths (first_value (found_of matches.now)) (file_names table.now.files.now) (map path_of c.files.items)) }
    ensures good { IfOk result (λ _. first_bad_of_program (models_of table.now) (first_value (found_of matches.now)) (texts_in matches.now (codes "set")) ≡ None) }
    ensures err { IfErr result (NamesBad (first_bad_of_program (models_of table.now) (first_value (found_of matches.now)) (texts_in matches.now (codes "set")))) }
{
    let program = program_option(alloc, matches, table)?;
    let files = file_options(alloc, matches, table.files)?;
    Ok(Chosen {
        model,
        values,
        files,
        lps: lps_given(matches, processes),
        program,
    })
}

/// The request for a run: its settings, and the model with the values of its options, or the program.
fn read_run<'a>(
    alloc: Global,
    matches: &ArgMatches<'a>,
    table: &ModelTable<'_>,
) -> Result<Request<'a>, Fault>
    requires { AllHaveDefaults table.now.models.now }
    ensures ok { IfOk result (AsksRun (models_of table.now) (first_value (found_of matches.now)) (texts_in matches.now (codes "set"))) }
    ensures err { IfErr result (NamesBad (first_bad_of_run (models_of table.now) (first_value (found_of matches.now)) (texts_in matches.now (codes "set")))) }
{
    let model = model_option(matches, table)?;
    let synch = synch_option(matches)?;
    let config = config_options(matches)?;
    let values = model_values(alloc, matches, table.models, model)?;
    let turns = number_option(matches, "turns", limits::TURNS)?;
    let text = text_option(matches)?;
    let finals = finals_option(matches, text)?;
    let records = records_option(matches, text)?;
    let settings = RunSettings {
        synch,
        config,
        turns,
        records,
        finals,
    };
    let chosen = chosen_of(alloc, matches, table, model, values, config.lps)?;
    Ok(Request::Task(Task::Run(settings), chosen))
}

/// The request for a replay: its settings, and the model with the values of its options, or the program.
fn read_replay<'a>(
    alloc: Global,
    matches: &ArgMatches<'a>,
    table: &ModelTable<'_>,
) -> Result<Request<'a>, Fault>
    requires { AllHaveDefaults table.now.models.now }
    ensures ok { IfOk result (AsksReplay (models_of table.now) (first_value (found_of matches.now)) (texts_in matches.now (codes "set"))) }
    ensures err { IfErr result (NamesBad (first_bad_of_replay (models_of table.now) (first_value (found_of matches.now)) (texts_in matches.now (codes "set")))) }
{
    let model = model_option(matches, table)?;
    let config = config_options(matches)?;
    let values = model_values(alloc, matches, table.models, model)?;
    let serial = number_option(matches, "serial", limits::SERIAL)?;
    let text = text_option(matches)?;
    let settings = ReplaySettings {
        config,
        serial,
        text,
    };
    let chosen = chosen_of(alloc, matches, table, model, values, config.lps)?;
    Ok(Request::Task(Task::Replay(settings), chosen))
}

/// What the parser makes of a command line of a program of these models.
pub(crate) fn table_matches<'a, S: AsStr>(
    alloc: Global,
    texts: &ProgramTexts,
    table: &ModelTable<'_>,
    words: &'a [S],
) -> Result<ArgMatches<'a>, Error>
    ensures ok { IfOk result (λ m. subcommand_rows_of m ≡ subcommand_of (app_for texts.now.name.now (models_of table.now)) (map S.text words.entry.now)) }
    ensures accepted { IfOk result (λ _. fault_of (app_for texts.now.name.now (models_of table.now)) (map S.text words.entry.now) ≡ []) }
    ensures err { IfErr result (HasKind (fault_of (app_for texts.now.name.now (models_of table.now)) (map S.text words.entry.now))) }
{
    let run = run_options(alloc, table)?;
    let replay = replay_options(alloc, table)?;
    matches_in(alloc, texts, run.as_slice(), replay.as_slice(), words)
}

/// What the parser makes of a command line where help shows of each option which values it takes.
fn parsed_with_helps<S: AsStr>(
    alloc: Global,
    texts: &ProgramTexts,
    table: &ModelTable<'_>,
    words: &[S],
) -> Result<(), Error>
    ensures ok { IfOk result (λ _. fault_of (app_for texts.now.name.now (models_of table.now)) (map S.text words.now) ≡ []) }
    ensures err { IfErr result (HasKind (fault_of (app_for texts.now.name.now (models_of table.now)) (map S.text words.now))) }
{
    let run = run_options(alloc, table)?;
    let replay = replay_options(alloc, table)?;
    let run = told_options(alloc, run.as_slice())?;
    let replay = told_options(alloc, replay.as_slice())?;
    parsed_in(alloc, texts, run.as_slice(), replay.as_slice(), words)
}

/// The parser's error as it is told: where it shows help, each option with the values that it takes. Only help needs their texts, so
/// they are made for it alone.
fn told_error<S: AsStr>(
    alloc: Global,
    texts: &ProgramTexts,
    table: &ModelTable<'_>,
    words: &[S],
    error: Error,
) -> Error
    requires { HasKind (fault_of (app_for texts.now.name.now (models_of table.now)) (map S.text words.now)) error }
    ensures { HasKind (fault_of (app_for texts.now.name.now (models_of table.now)) (map S.text words.now)) result }
{
    if error.kind() != ErrorKind::DisplayHelp {
        return error;
    }
    match parsed_with_helps(alloc, texts, table, words) {
        Ok(()) => error,
        Err(told) => told,
    }
}

/// The request of a command line that the parser has accepted.
fn request_of<'a>(
    alloc: Global,
    matches: &ArgMatches<'a>,
    table: &ModelTable<'_>,
) -> Result<Request<'a>, Fault>
    requires { AllHaveDefaults table.now.models.now }
    ensures ok { (name : Text) (words : List Text) → fault_of (app_for name (models_of table.now)) words ≡ [] → subcommand_rows_of matches.now ≡ subcommand_of (app_for name (models_of table.now)) words
        → IfOk result (IsAsked name (models_of table.now) words) }
    ensures err { (name : Text) (words : List Text) → fault_of (app_for name (models_of table.now)) words ≡ [] → subcommand_rows_of matches.now ≡ subcommand_of (app_for name (models_of table.now)) words
        → IfErr result (IsRefusedByOf (line_for name (models_of table.now)) words) }
{
    let Some((name, inner)) = matches.subcommand() else {
        return Err(Fault::BadOption("command-line"));
    };
    if name == "run" {
        read_run(alloc, inner, table)
    } else if name == "replay" {
        read_replay(alloc, inner, table)
    } else {
        Err(Fault::BadOption("command-line"))
    }
}

/// What the command line of a program asks for. `table` are the program's models with their options, each with a default in its
/// range. The first word is the program's name.
///
/// Options are tested in this order. Of `run`: the one that names the model, `synch`, `workers`, `lps`, `end`, `seed`, those of all
/// models, `turns`, `text`, `finals`, `records`. Of `replay`: the one that names the model, `workers`, `lps`, `end`, `seed`, those of all models, `serial`,
/// `text`. Then, where the table lets a program take a model's place: `program`, `set`, `fuel`. `program` is bad if a model is named
/// too, `set` if it isn't NAME=VALUE, and `finals` with version 1 of the text, which has no final values. The words say nothing of what the files have.
///
/// [`Fault::BadOption`] with an option's name: this is the first bad option in that order. Options of models that aren't
/// chosen are tested too. [`Fault::BadOption`] with `command-line`: the words have no meaning. A word is unknown, an option has
/// no value or is given twice, or the subcommand is missing or unknown. [`Fault::Memory`]: memory was refused.
pub fn read_request<'a, S: AsStr>(
    alloc: Global,
    texts: &ProgramTexts,
    table: &ModelTable<'_>,
    words: &'a [S],
) -> Result<Request<'a>, Fault>
    requires { AllHaveDefaults table.now.models.now }
    ensures ok { IfOk result (IsAsked texts.now.name.now (models_of table.now) (map S.text words.now)) }
    ensures err { IfErr result (IsRefusedByOf (line_for texts.now.name.now (models_of table.now)) (map S.text words.now)) }
{
    match table_matches(alloc, texts, table, words) {
        Ok(matches) => request_of(alloc, &matches, table),
        Err(error) => {
            let told = told_error(alloc, texts, table, words, error);
            Ok(Request::Help(help_of(alloc, told)?))
        }
    }
}
