//! What help shows of options: of each what it is, and which values it takes.

ghost use Rattle.std.specs.Prelude.{◌≡◌, [], IfOk, IfErr, map, string_bytes};
ghost use Rattle.clap.specs.Words.{HasKind, fault_of};
ghost use Rattle.vt_options.specs.promise.Line.{program_app};
ghost use Rattle.vt_options.specs.inside.Line.{helps_of, option_of, options_of};
ghost use Rattle.vt_options.specs.inside.Texts.{help_of};

use crate::line::{LineOption, ProgramTexts, matches_in};
use crate::texts::{OptionText, help_text};
use clap::Error;
use std::alloc::{AllocError, Global};
use std::convert::AsStr;

/// An option with what help shows of it.
#[derive(Debug, Drop)]
pub(crate) struct ToldOption {
    option: LineOption<'static>,
    help: String,
}

/// An option with what help shows of it.
fn told(alloc: Global, option: &LineOption<'static>) -> Result<ToldOption, AllocError>
    ensures option { IfOk result (λ told. told.option ≡ option.now) }
    ensures help { IfOk result (λ told. string_bytes told.help ≡ help_of option.now.text) }
{
    Ok(ToldOption {
        option: *option,
        help: help_text(alloc, &option.text)?,
    })
}

/// Options with what help shows of each.
pub(crate) fn told_options(
    alloc: Global,
    options: &[LineOption<'static>],
) -> Result<Vec<ToldOption>, AllocError>
    ensures options { IfOk result (λ list. map (λ t. t.option) list.items ≡ options.now) }
    ensures helps { IfOk result (λ list. map (λ t. string_bytes t.help) list.items ≡ helps_of options.now) }
{
    let mut list = Vec::new(alloc);
    for option in options {
        list.push(told(alloc, option)?)?;
    }
    Ok(list)
}

/// The option whose text is all that help shows of this one.
fn shown<'a>(told: &'a ToldOption) -> LineOption<'a>
    ensures option { option_of result ≡ option_of told.entry.now.option }
    ensures help { result.text.help.now ≡ string_bytes told.entry.now.help }
{
    let text = &told.option.text;
    LineOption {
        text: OptionText {
            name: text.name,
            value: text.value,
            heading: text.heading,
            takes: text.takes,
            help: told.help.as_str(),
        },
        uses: told.option.uses,
    }
}

/// The options whose texts are all that help shows of these.
fn shown_options<'a>(
    alloc: Global,
    told: &'a [ToldOption],
) -> Result<Vec<LineOption<'a>>, AllocError>
    ensures options { IfOk result (λ list. options_of list.items ≡ options_of (map (λ t. t.option) told.entry.now)) }
    ensures helps { IfOk result (λ list. map (λ o. o.text.help.now) list.items ≡ map (λ t. string_bytes t.help) told.entry.now) }
{
    let mut list = Vec::new(alloc);
    for option in told {
        list.push(shown(option))?;
    }
    Ok(list)
}

/// What the parser makes of a command line of a program with these options of `run` and `replay`, whose help it shows.
pub(crate) fn parsed_in<S: AsStr>(
    alloc: Global,
    texts: &ProgramTexts,
    run: &[ToldOption],
    replay: &[ToldOption],
    words: &[S],
) -> Result<(), Error>
    ensures ok { IfOk result (λ _. fault_of (program_app texts.now.name.now (options_of (map (λ t. t.option) run.now)) (options_of (map (λ t. t.option) replay.now))) (map S.text words.now) ≡ []) }
    ensures err { IfErr result (HasKind (fault_of (program_app texts.now.name.now (options_of (map (λ t. t.option) run.now)) (options_of (map (λ t. t.option) replay.now))) (map S.text words.now))) }
{
    let run = shown_options(alloc, run)?;
    let replay = shown_options(alloc, replay)?;
    matches_in(alloc, texts, run.as_slice(), replay.as_slice(), words)?;
    Ok(())
}
