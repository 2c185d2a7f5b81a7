//! The options of a program, whose file takes the place of a model.

ghost use Rattle.std.specs.Prelude.{◌≡◌, ℕ, List, None, Some, IfOk, IfErr, IfSome, codes, map, option_map};
ghost use Rattle.clap.specs.Words.{first_value, found_of};
ghost use Rattle.vt_key.specs.promise.Faults.{fault_number, option_named};
ghost use Rattle.vt_options.specs.inside.Line.{texts_in};
ghost use Rattle.vt_options.specs.promise.Table.{lps, value_in};
ghost use Rattle.vt_options.specs.promise.Programs.{SetNumbers, assignment_said, bad_sets, pair_of, value_given};
ghost use Rattle.vt_options.specs.inside.Programs.{SetsNothing};
ghost use Rattle.vt_options.specs.promise.Own.{GiveProgram, bad_program, first_bad_of_program};
ghost use Rattle.vt_options.specs.inside.Own.{NamesBad, models_of, naming_of};

use crate::limits::FUEL;
use crate::own::ModelTable;
use crate::reading::number_option;
use crate::texts::OptionText;
use clap::ArgMatches;
use std::alloc::Global;
use vt_key::Fault;
use vt_text::read_number;

/// A number that is set before a run, as `--set NAME=VALUE` says it.
#[derive(Debug, Clone, Copy)]
pub struct Assignment<'a> {
    /// What is set. The name isn't empty and has no `=`.
    pub name: &'a str,
    /// The number.
    pub value: u64,
}

/// A program that a command line chooses in the place of a model, and what it is given.
#[derive(Debug, Drop)]
pub struct ProgramChoice<'a> {
    /// The name of its file.
    pub file: &'a str,
    /// The numbers that are set before the run, in the order of the words.
    pub sets: Vec<Assignment<'a>>,
    /// The name of the file of its data, if the words give one.
    pub data_file: Option<&'a str>,
    /// The most instructions of a handler, from 1 to 2^32.
    pub fuel: u64,
}

/// The number that a text NAME=VALUE sets, with NAME before the first `=` and VALUE of 1 to 20 decimal digits below 2^64.
fn assignment_of(text: &str) -> Option<Assignment<'_>>
    ensures { option_map pair_of result ≡ assignment_said text.now }
{
    let (name, digits) = text.split_once('=')?;
    if name.is_empty() {
        return None;
    }
    let value = read_number(digits.as_bytes())?;
    Some(Assignment { name, value })
}

/// The numbers that texts set.
///
/// [`Fault::BadOption`] with `set`: one of them sets nothing. [`Fault::Memory`]: memory was refused.
fn assignments_of<'a>(alloc: Global, texts: &[&'a str]) -> Result<Vec<Assignment<'a>>, Fault>
    ensures ok { IfOk result (λ sets. SetNumbers (map (λ text. text.now) texts.now) sets.items) }
    ensures good { IfOk result (λ _. bad_sets (map (λ text. text.now) texts.now) ≡ None) }
    ensures err { IfErr result (NamesBad (bad_sets (map (λ text. text.now) texts.now))) }
{
    let mut sets = Vec::new(alloc);
    for text in texts {
        let Some(set) = assignment_of(text) else {
            return Err(Fault::BadOption("set"));
        };
        let Ok(()) = sets.push(set) else {
            return Err(Fault::Memory);
        };
    }
    Ok(sets)
}

/// The first of these texts that sets nothing.
pub(crate) fn unset_in<'a>(texts: &[&'a str]) -> Option<&'a str>
    ensures { IfSome result (λ text. SetsNothing (map (λ t. t.now) texts.now) text.now) }
{
    for text in texts {
        if assignment_of(text).is_none() {
            return Some(*text);
        }
    }
    None
}

/// The numbers that `set` sets.
fn set_options<'a>(alloc: Global, matches: &ArgMatches<'a>) -> Result<Vec<Assignment<'a>>, Fault>
    ensures ok { IfOk result (λ sets. SetNumbers (texts_in matches.now (codes "set")) sets.items) }
    ensures good { IfOk result (λ _. bad_sets (texts_in matches.now (codes "set")) ≡ None) }
    ensures err { IfErr result (NamesBad (bad_sets (texts_in matches.now (codes "set")))) }
{
    match matches.get_strs("set") {
        Some(texts) => assignments_of(alloc, texts),
        None => Ok(Vec::new(alloc)),
    }
}

/// The name of the program's file, if there is one.
///
/// [`Fault::BadOption`] with `program`: a model is named too.
fn file_option<'a>(
    matches: &ArgMatches<'a>,
    naming: &Option<OptionText<'_>>,
) -> Result<Option<&'a str>, Fault>
    ensures ok { IfOk result (λ file. first_value (found_of matches.now) (codes "program") ≡ option_map (λ name. name.now) file) }
    ensures good { (names : List (List ℕ)) → IfOk result (λ _. bad_program (naming_of naming.now names) (first_value (found_of matches.now)) ≡ None) }
    ensures err { IfErr result (λ fault. fault_number fault ≡ 7) }
    ensures bad { (names : List (List ℕ)) → IfErr result (λ fault. option_named fault ≡ bad_program (naming_of naming.now names) (first_value (found_of matches.now))) }
{
    let Some(file) = matches.get_str("program") else {
        return Ok(None);
    };
    if let Some(naming) = naming {
        if matches.get_str(naming.name).is_some() {
            return Err(Fault::BadOption("program"));
        }
    }
    Ok(Some(file))
}

/// The number of processes, where it is given.
pub(crate) fn lps_given(matches: &ArgMatches, processes: u32) -> Option<u32>
    requires { value_in (first_value (found_of matches.now)) lps ≡ Some processes }
    ensures { value_given (first_value (found_of matches.now)) lps ≡ result }
{
    matches.get_str("lps")?;
    Some(processes)
}

/// The program that takes the place of a model, if the table lets it and the words give one.
///
/// [`Fault::BadOption`] names the first bad option of programs. [`Fault::Memory`]: memory was refused.
pub(crate) fn program_option<'a>(
    alloc: Global,
    matches: &ArgMatches<'a>,
    table: &ModelTable<'_>,
) -> Result<Option<ProgramChoice<'a>>, Fault>
    ensures ok { IfOk result (λ program. GiveProgram (models_of table.now) (first_value (found_of matches.now)) (texts_in matches.now (codes "set")) program) }
    ensures good { IfOk result (λ _. first_bad_of_program (models_of table.now) (first_value (found_of matches.now)) (texts_in matches.now (codes "set")) ≡ None) }
    ensures err { IfErr result (NamesBad (first_bad_of_program (models_of table.now) (first_value (found_of matches.now)) (texts_in matches.now (codes "set")))) }
{
    if !table.programs {
        return Ok(None);
    }
    let file = file_option(matches, &table.naming)?;
    let sets = set_options(alloc, matches)?;
    let fuel = number_option(matches, "fuel", FUEL)?;
    let Some(file) = file else {
        return Ok(None);
    };
    Ok(Some(ProgramChoice {
        file,
        sets,
        data_file: matches.get_str("data"),
        fuel,
    }))
}
