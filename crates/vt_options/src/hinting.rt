//! What a terminal is told after a refusal: which word it was, and what is allowed; and after a run without enough turns, how many
//! would allow more. Words of the command line are told as [`shown_word`] shows them.

ghost use Rattle.std.specs.Prelude.{◌≡◌, ◌⊎◌, List, Some, IfSome, codes, map, string_bytes};
ghost use Rattle.clap.specs.Words.{Text, first_value, found_of, subcommand_of, subcommand_rows_of};
ghost use Rattle.vt_options.specs.inside.Line.{texts_in};
ghost use Rattle.vt_options.specs.inside.Programs.{SetsNothing};
ghost use Rattle.vt_options.specs.promise.Own.{line_for};
ghost use Rattle.vt_options.specs.promise.Requests.{Line};
ghost use Rattle.vt_options.specs.inside.Own.{AllHaveDefaults, models_of};
ghost use Rattle.vt_options.specs.inside.Hints.{IsHintOn, Tells, TellsTurns, finals_need, more_turns, no_command, option_takes, parser_says};
ghost use Rattle.vt_options.specs.inside.Shown.{IsShownSentence, IsShownWord};

use crate::asking::{Request, read_request, table_matches};
use crate::choices::Task;
use crate::limits::MAX_TURNS;
use crate::line::ProgramTexts;
use crate::own::{ModelTable, OwnOption, range_of};
use crate::programs::unset_in;
use crate::shown::{shown_sentence, shown_word};
use crate::texts::{EVERY_MODEL, OF_PROGRAMS, OptionText, Takes, allowed_text};
use clap::error::ErrorKind;
use clap::{ArgMatches, Error};
use std::alloc::Global;
use std::convert::AsStr;
use vt_key::Fault;

/// Which values an option takes, where a table has it.
fn takes_of(options: &[OptionText<'_>], name: &str) -> Option<Takes> {
    for option in options {
        if option.name == name {
            return Some(option.takes);
        }
    }
    None
}

/// A line on an option that is refused: what is shown of the word that it was given, and what it takes. None: memory was refused.
fn option_line(alloc: Global, program: &str, name: &str, takes: &str, shown: &str) -> Option<String>
    ensures { IfSome result (λ line. string_bytes line ≡ option_takes program.now name.now takes.now shown.now) }
{
    format!(in alloc; "{program}: --{name} takes {takes}, not '{shown}'").ok()
}

/// The same, by the word that it was given.
fn hint_on_option(
    alloc: Global,
    program: &str,
    name: &str,
    takes: &str,
    word: &str,
) -> Option<String>
    ensures { IfSome result (λ line. (shown : Text) × IsShownWord word.now shown × (string_bytes line ≡ option_takes program.now name.now takes.now shown)) }
{
    let shown = shown_word(alloc, word)?;
    option_line(alloc, program, name, takes, shown.as_str())
}

/// A line on the flag for final values, which needs version 2 of the text. None: memory was refused.
fn hint_on_finals(alloc: Global, program: &str) -> Option<String>
    ensures { IfSome result (λ line. string_bytes line ≡ finals_need program.now) }
{
    format!(in alloc; "{program}: --finals needs --text 2").ok()
}

/// A line on words without a command. None: memory was refused.
fn hint_on_missing(alloc: Global, program: &str) -> Option<String>
    ensures { IfSome result (λ line. string_bytes line ≡ no_command program.now) }
{
    format!(in alloc; "{program}: there is no command; {program} --help says what is allowed").ok()
}

/// A line on words that have no meaning: what the parser says of them, and where to read what is allowed. None: memory was refused.
fn hint_on_words(alloc: Global, program: &str, said: &str) -> Option<String>
    ensures { IfSome result (λ line. string_bytes line ≡ parser_says program.now said.now) }
{
    format!(in alloc; "{program}: {said}; {program} --help says what is allowed").ok()
}

/// The same, by the parser's error.
fn hint_on_error(alloc: Global, program: &str, error: Error) -> Option<String>
    ensures { IfSome result (λ line. (said : Text) × (shown : Text) × IsShownSentence said shown × (string_bytes line ≡ parser_says program.now shown)) }
{
    let text = error.to_string(alloc).ok()?;
    let first = text.as_str().lines().next()?;
    let said = first.strip_prefix("error: ").unwrap_or(first);
    let shown = shown_sentence(alloc, said)?;
    hint_on_words(alloc, program, shown.as_str())
}

/// Which values an option of a model takes, where a table has it.
fn own_takes(own: &[OwnOption], name: &str) -> Option<Takes> {
    for option in own {
        if option.name == name {
            return Some(Takes::Number(range_of(option)));
        }
    }
    None
}

/// Which values an option of a program of these models takes.
fn table_takes(table: &ModelTable<'_>, name: &str) -> Option<Takes> {
    if let Some(naming) = &table.naming {
        if naming.name == name {
            return Some(naming.takes);
        }
    }
    for model in table.models {
        if let Some(takes) = own_takes(model.options, name) {
            return Some(takes);
        }
    }
    takes_of(&EVERY_MODEL, name).or(takes_of(&OF_PROGRAMS, name))
}

/// The word that is refused of those that an option is given: of `set`, where it belongs to programs, the first that sets nothing, and
/// else the first.
fn refused_word<'a>(matches: &ArgMatches<'a>, programs: bool, name: &str) -> Option<&'a str>
    ensures { IfSome result (λ word. (first_value (found_of matches.now) name.now ≡ Some word.now)
        ⊎ ((name.now ≡ codes "set") × SetsNothing (texts_in matches.now (codes "set")) word.now)) }
{
    if programs && name == "set" {
        return unset_in(matches.get_strs("set")?);
    }
    matches.get_str(name)
}

/// A line on words that the parser has accepted, and that are refused under this name. None: memory was refused.
fn hint_on_matches(
    alloc: Global,
    program: &str,
    table: &ModelTable<'_>,
    matches: &ArgMatches,
    name: &str,
) -> Option<String>
    ensures { (line : Line) (words : List Text) → subcommand_rows_of matches.now ≡ subcommand_of line.app words → IfSome result (λ text. Tells program.now line words name.now (string_bytes text)) }
{
    let Some((_, inner)) = matches.subcommand() else {
        return hint_on_missing(alloc, program);
    };
    if name == "finals" {
        return hint_on_finals(alloc, program);
    }
    let word = refused_word(inner, table.programs, name)?;
    let takes = table_takes(table, name)?;
    let allowed = allowed_text(alloc, &takes).ok()?;
    hint_on_option(alloc, program, name, allowed.as_str(), word)
}

/// A line for a terminal where [`read_request`] refuses a command line: which word it was, and what is allowed. There is one only for
/// words that have no meaning or a bad option. None: the command line isn't refused, or memory was refused.
pub fn hint<S: AsStr>(
    alloc: Global,
    texts: &ProgramTexts,
    table: &ModelTable<'_>,
    words: &[S],
) -> Option<String>
    requires { AllHaveDefaults table.now.models.now }
    ensures { IfSome result (λ line. IsHintOn texts.now.name.now (line_for texts.now.name.now (models_of table.now)) (map S.text words.now) (string_bytes line)) }
{
    let Err(Fault::BadOption(name)) = read_request(alloc, texts, table, words) else {
        return None;
    };
    let matches = match table_matches(alloc, texts, table, words) {
        Ok(matches) => matches,
        Err(error) => {
            return match error.kind() {
                ErrorKind::OutOfMemory => None,
                _ => hint_on_error(alloc, texts.name, error),
            };
        }
    };
    hint_on_matches(alloc, texts.name, table, &matches, name)
}

/// A line on a run without enough turns. None: memory was refused.
fn hint_on_turns(alloc: Global, program: &str, more: u64, turns: u64) -> Option<String>
    ensures { IfSome result (λ line. string_bytes line ≡ more_turns program.now more turns) }
{
    format!(in alloc; "{program}: --turns {more} allows more than {turns}").ok()
}

/// A line for a terminal where a run that the words ask for was refused for its turns: it names ten times as many, or the most that there
/// may be. None: the words ask for no run, its turns are the most, or memory was refused.
pub fn turns_hint<S: AsStr>(
    alloc: Global,
    texts: &ProgramTexts,
    table: &ModelTable<'_>,
    words: &[S],
) -> Option<String>
    requires { AllHaveDefaults table.now.models.now }
    ensures { IfSome result (λ line. TellsTurns texts.now.name.now (models_of table.now) (map S.text words.now) (string_bytes line)) }
{
    let Ok(Request::Task(Task::Run(settings), _)) = read_request(alloc, texts, table, words) else {
        return None;
    };
    let more = settings.turns.saturating_mul(10).min(MAX_TURNS);
    if more <= settings.turns {
        return None;
    }
    hint_on_turns(alloc, texts.name, more, settings.turns)
}
