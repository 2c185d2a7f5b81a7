//! The command line as `clap` reads it.

ghost use Rattle.std.specs.Prelude.{◌≡◌, IfOk, IfErr, map, false, []};
ghost use Rattle.clap.specs.Words.{app_of, new_app, with_subcommand, rule_of, subcommand_of, subcommand_rows_of, fault_of, HasKind};
ghost use Rattle.clap.specs.declared.builder.command.Command.TheViews.{out-Command};
ghost use Rattle.vt_options.specs.promise.Line.{option_rule, with_options, program_app};
ghost use Rattle.vt_options.specs.inside.Line.{option_of, options_of};

use crate::texts::OptionText;
use clap::{Arg, ArgAction, ArgMatches, Command, Error};
use std::alloc::{AllocError, Global};
use std::convert::AsStr;

/// What help shows of a program.
#[derive(Debug, Clone, Copy)]
pub struct ProgramTexts {
    /// The program's name.
    pub name: &'static str,
    /// What it does, in a line.
    pub about: &'static str,
    /// The usage line of the program, for instance `twarp <COMMAND>`.
    pub usage: &'static str,
    /// What help ends with, for instance a first call.
    pub in_short: &'static str,
}

const RUN_ABOUT: &str =
    "Simulates a model, and prints its records, one a line: TIME PRIORITY PROCESS KIND VALUE";

const REPLAY_ABOUT: &str =
    "Reads the steps of a Time Warp run, a line for each, and prints what they are answered";

/// How a line may use an option.
#[derive(Debug, Clone, Copy)]
pub(crate) enum Uses {
    /// Once, with a value.
    Once,
    /// Any number of times, each with a value.
    ManyTimes,
    /// Once, without a value.
    Flag,
}

/// An option of a subcommand.
#[derive(Debug, Clone, Copy)]
pub(crate) struct LineOption<'a> {
    /// What help shows of it.
    pub(crate) text: OptionText<'a>,
    /// How a line may use it.
    pub(crate) uses: Uses,
}

/// An option as the parser takes it.
fn option<'a>(alloc: Global, option: &LineOption<'a>) -> Arg<'a>
    ensures rule { rule_of result ≡ option_rule (option_of option.now) }
    ensures local { result.global ≡ false }
{
    let text = &option.text;
    let arg = Arg::new(alloc, text.name)
        .long(text.name)
        .help_heading(text.heading)
        .help(text.help);
    match option.uses {
        Uses::Once => arg.value_name(text.value),
        Uses::ManyTimes => arg.value_name(text.value).action(ArgAction::Append),
        Uses::Flag => arg.action(ArgAction::SetTrue),
    }
}

/// A command with these options.
fn command_of<'a>(
    alloc: Global,
    name: &'a str,
    about: &'static str,
    options: &[LineOption<'a>],
) -> Result<Command<'a>, AllocError>
    ensures app { IfOk result (λ c. app_of c ≡ with_options (new_app name.entry.now) (options_of options.now)) }
    ensures local { IfOk result (λ c. (out-Command c).has_globals ≡ false) }
{
    let mut command = Command::new(alloc, name).about(about);
    for taken in options {
        command = command.arg(option(alloc, taken))?;
    }
    Ok(command)
}

/// A program with one more subcommand, which has these options.
fn with_command<'a>(
    alloc: Global,
    program: Command<'a>,
    name: &'a str,
    about: &'static str,
    options: &[LineOption<'a>],
) -> Result<Command<'a>, AllocError>
    ensures { IfOk result (λ c. app_of c ≡ with_subcommand (app_of program.entry) (with_options (new_app name.entry.now) (options_of options.now)).top) }
{
    let command = command_of(alloc, name, about, options)?;
    program.subcommand(command)
}

/// The parser of a program's command line: the subcommands `run` and `replay`, each with its options.
///
/// An error means that memory was refused.
fn program_command<'a>(
    alloc: Global,
    texts: &ProgramTexts,
    run: &[LineOption<'a>],
    replay: &[LineOption<'a>],
) -> Result<Command<'a>, AllocError>
    ensures { IfOk result (λ c. app_of c ≡ program_app texts.now.name.now (options_of run.now) (options_of replay.now)) }
{
    let program = Command::new(alloc, texts.name)
        .about(texts.about)
        .override_usage(texts.usage)
        .after_help(texts.in_short);
    let program = with_command(alloc, program, "run", RUN_ABOUT, run)?;
    with_command(alloc, program, "replay", REPLAY_ABOUT, replay)
}

/// What the parser makes of a command line of a program with these options of `run` and `replay`. The first word is the
/// program's name.
///
/// An error means that memory was refused, that the words ask for help, or that they have no meaning. Its kind is one
/// that the definitions give for these words.
pub(crate) fn matches_in<'a, S: AsStr>(
    alloc: Global,
    texts: &ProgramTexts,
    run: &[LineOption<'a>],
    replay: &[LineOption<'a>],
    words: &'a [S],
) -> Result<ArgMatches<'a>, Error>
    ensures ok { IfOk result (λ m. subcommand_rows_of m ≡ subcommand_of (program_app texts.now.name.now (options_of run.now) (options_of replay.now)) (map S.text words.entry.now)) }
    ensures accepted { IfOk result (λ _. fault_of (program_app texts.now.name.now (options_of run.now) (options_of replay.now)) (map S.text words.entry.now) ≡ []) }
    ensures err { IfErr result (HasKind (fault_of (program_app texts.now.name.now (options_of run.now) (options_of replay.now)) (map S.text words.entry.now))) }
{
    let command = program_command(alloc, texts, run, replay)?;
    command.try_get_matches_from(words)
}
