//! Options of a model whose names are taken.

ghost use Rattle.std.specs.Prelude.{◌≡◌, option_map};
ghost use Rattle.vt_options.specs.inside.Line.{names_of};
ghost use Rattle.vt_options.specs.inside.Own.{file_names};
ghost use Rattle.vt_options.specs.inside.Taken.{is_among, is_general, own_names, taken_among, taken_file_in, taken_in};

use crate::own::{FileOption, OwnOption};
use crate::texts::{EVERY_MODEL, OptionText};

/// Whether one of these options has the name.
fn has_text(options: &[OptionText<'_>], name: &str) -> bool
    ensures { result ≡ is_among (names_of options.now) name.now }
{
    for option in options {
        if option.name == name {
            return true;
        }
    }
    false
}

/// Whether one of a model's options has the name.
fn has_own(own: &[OwnOption], name: &str) -> bool
    ensures { result ≡ is_among (own_names own.now) name.now }
{
    for option in own {
        if option.name == name {
            return true;
        }
    }
    false
}

/// Whether one of these options that are files has the name.
fn has_file(files: &[FileOption], name: &str) -> bool
    ensures { result ≡ is_among (file_names files.now) name.now }
{
    for option in files {
        if option.name == name {
            return true;
        }
    }
    false
}

/// Whether an option of every model has the name, or help.
fn is_taken(name: &str) -> bool
    ensures { result ≡ is_general name.now }
{
    has_text(&EVERY_MODEL, name) || name == "help"
}

/// The first name of an option of a model that is taken: by an option of every model, by help, or by an option behind it. A command
/// line would set both by one word. None: no name is taken.
pub fn taken_name(own: &[OwnOption]) -> Option<&'static str>
    ensures { option_map (λ name. name.now) result ≡ taken_in (own_names own.now) }
{
    let mut rest = own;
    while let Some((option, others)) = rest.split_first() {
        if is_taken(option.name) || has_own(others, option.name) {
            return Some(option.name);
        }
        rest = others;
    }
    None
}

/// The first name of an option that is a file, which is taken: by an option of every model, by help, by a number of the model's, or by
/// a file behind it. None: no such name is taken.
fn taken_file_name(own: &[OwnOption], files: &[FileOption]) -> Option<&'static str>
    ensures { option_map (λ name. name.now) result ≡ taken_file_in (own_names own.now) (file_names files.now) }
{
    let mut rest = files;
    while let Some((option, others)) = rest.split_first() {
        if is_taken(option.name) || has_own(own, option.name) || has_file(others, option.name) {
            return Some(option.name);
        }
        rest = others;
    }
    None
}

/// The first name of an option of a model that is taken, its numbers before its files. None: no name is taken.
pub fn taken_among(own: &[OwnOption], files: &[FileOption]) -> Option<&'static str>
    ensures { option_map (λ name. name.now) result ≡ taken_among own.now files.now }
{
    match taken_name(own) {
        Some(name) => Some(name),
        None => taken_file_name(own, files),
    }
}
