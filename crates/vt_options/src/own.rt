//! The options of models of one's own, as tables.

ghost use Rattle.std.specs.Prelude.{◌≡◌, ◌<◌, ◌^◌, None, Some, IfOk, IfErr, map, true};
ghost use Rattle.clap.specs.Words.{first_value, found_of};
ghost use Rattle.vt_model.specs.promise.Settings.{is_between};
ghost use Rattle.vt_options.specs.promise.Table.{first_bad_of, value_in};
ghost use Rattle.vt_options.specs.promise.Own.{HaveDefaults, AreWithin, GivePaths, GiveValues, has_default, number_option, number_table, path_of};
ghost use Rattle.vt_options.specs.inside.Own.{NamesBad, file_names};
ghost use Rattle.vt_options.specs.inside.Texts.{range_of};

use crate::limits::NumberRange;
use crate::programs::ProgramChoice;
use crate::reading::small_option;
use crate::texts::OptionText;
use clap::ArgMatches;
use std::alloc::Global;
use vt_key::Fault;

/// An option of a model, which is a number of up to 32 bits.
#[derive(Debug, Clone, Copy)]
pub struct OwnOption {
    /// The option's name, without its dashes. No other option of the program may have it.
    pub name: &'static str,
    /// The least number that it takes.
    pub least: u32,
    /// The greatest number that it takes.
    pub most: u32,
    /// Its value if it isn't given, from `least` to `most`.
    pub default: u32,
    /// What it is, in a phrase. Help shows its range and its default behind it.
    pub help: &'static str,
}

/// An option of a model whose value is the path of a file. Any text is one; without the option there is no file.
#[derive(Debug, Clone, Copy)]
pub struct FileOption {
    /// The option's name, without its dashes. No other option of the program may have it.
    pub name: &'static str,
    /// What help says of it.
    pub help: &'static str,
}

/// A model of a program, with its options.
#[derive(Debug, Clone, Copy)]
pub struct ModelOptions<'a> {
    /// The name by which a command line chooses it.
    pub name: &'static str,
    /// The heading of its options in help.
    pub heading: &'static str,
    /// Its options, in the order in which they are tested.
    pub options: &'a [OwnOption],
}

/// The models of a program.
#[derive(Debug, Clone, Copy)]
pub struct ModelTable<'a> {
    /// The option that names the model. If it isn't given, the first model is meant. None: the first is always meant.
    pub naming: Option<OptionText<'static>>,
    /// The models, in the order in which their options are tested.
    pub models: &'a [ModelOptions<'a>],
    /// The options that are paths of files. Each model has them.
    pub files: &'a [FileOption],
    /// Whether the file of a program may take the place of a model. Then a line may have `--program`, `--set`, `--data` and `--fuel`
    /// too.
    pub programs: bool,
}

/// The file that the words give to an option.
#[derive(Debug, Clone, Copy)]
pub struct FileChoice<'a> {
    /// The option's name.
    pub option: &'a str,
    /// The path of the file, if the words give one.
    pub path: Option<&'a str>,
}

/// The model that a command line chooses, and the values of its options; or the program in its place.
#[derive(Debug, Drop)]
pub struct Chosen<'a> {
    /// The model's index in the table of models.
    pub model: usize,
    /// The values of its options, in the order of its own table. Each is in its range.
    pub values: Vec<u32>,
    /// The files of its options, in the order of their table.
    pub files: Vec<FileChoice<'a>>,
    /// The number of processes, if the words give one.
    pub lps: Option<u32>,
    /// The program that takes the model's place, if the words give one.
    pub program: Option<ProgramChoice<'a>>,
}

/// The numbers that an option of a model takes.
pub(crate) fn range_of(own: &OwnOption) -> NumberRange
    ensures range { result ≡ range_of own.now }
    ensures small { result.most < 2 ^ 32 }
{
    NumberRange {
        least: u64::from(own.least),
        most: u64::from(own.most),
        default: u64::from(own.default),
    }
}

/// The value of an option of a model; its default if it isn't given.
///
/// [`Fault::BadOption`]: it is no number in its range.
fn own_option(matches: &ArgMatches, own: &OwnOption) -> Result<u32, Fault>
    requires { has_default own.now ≡ true }
    ensures ok { IfOk result (λ n. value_in (first_value (found_of matches.now)) (number_option own.now) ≡ Some n) }
    ensures within { IfOk result (λ n. is_between own.now.least own.now.most n ≡ true) }
    ensures err { IfErr result (λ fault. fault ≡ Fault.BadOption own.now.name) }
    ensures none { IfErr result (λ _. value_in (first_value (found_of matches.now)) (number_option own.now) ≡ None) }
{
    small_option(matches, own.name, range_of(own))
}

/// The values of the options of a model, in the order of their table. Each is in its range; an option that isn't given has
/// its default.
///
/// [`Fault::BadOption`] names the first option of the table that is no number in its range. [`Fault::Memory`]: memory was
/// refused.
pub(crate) fn own_options(
    alloc: Global,
    matches: &ArgMatches,
    table: &[OwnOption],
) -> Result<Vec<u32>, Fault>
    requires { HaveDefaults table.now }
    ensures ok { IfOk result (λ values. GiveValues (first_value (found_of matches.now)) (number_table table.now) values.items) }
    ensures within { IfOk result (λ values. AreWithin table.now values.items) }
    ensures good { IfOk result (λ _. first_bad_of (first_value (found_of matches.now)) (number_table table.now) ≡ None) }
    ensures err { IfErr result (NamesBad (first_bad_of (first_value (found_of matches.now)) (number_table table.now))) }
{
    let mut values = Vec::new(alloc);
    for own in table {
        let value = own_option(matches, own)?;
        let Ok(()) = values.push(value) else {
            return Err(Fault::Memory);
        };
    }
    Ok(values)
}

/// The files that the words give to options, in the order of their table.
///
/// [`Fault::Memory`]: memory was refused.
pub(crate) fn file_options<'a>(
    alloc: Global,
    matches: &ArgMatches<'a>,
    table: &[FileOption],
) -> Result<Vec<FileChoice<'a>>, Fault>
    ensures ok { IfOk result (λ files. GivePaths (first_value (found_of matches.now)) (file_names table.now) (map path_of files.items)) }
    ensures err { IfErr result (λ fault. fault ≡ Fault.Memory) }
{
    let mut files = Vec::new(alloc);
    for file in table {
        let choice = FileChoice {
            option: file.name,
            path: matches.get_str(file.name),
        };
        let Ok(()) = files.push(choice) else {
            return Err(Fault::Memory);
        };
    }
    Ok(files)
}
