//! What the parser's error means.

ghost use Rattle.std.specs.Prelude.{◌≡◌, ◌⊎◌, List, IfOk, IfErr};
ghost use Rattle.clap.specs.Values.{kind_of};
ghost use Rattle.clap.specs.Words.{App, HasKind, Text, fault_of};
ghost use Rattle.vt_options.specs.promise.Requests.{AskHelpOf};
ghost use Rattle.vt_options.specs.inside.Requests.{IsParserRefusal};

use clap::Error;
use clap::error::ErrorKind;
use std::alloc::Global;
use vt_key::Fault;

/// The text of the help that the words ask for, where the parser has refused them.
///
/// [`Fault::BadOption`] with `command-line`: they ask for no help. The fault is [`Fault::Memory`] only if the parser or
/// the text of the help was refused memory.
pub(crate) fn help_of(alloc: Global, error: Error) -> Result<String, Fault>
    ensures ok { (app : App) (words : List Text) → HasKind (fault_of app words) error → IfOk result (λ _. AskHelpOf app words) }
    ensures err { (app : App) (words : List Text) → HasKind (fault_of app words) error → IfErr result (IsParserRefusal app words) }
    ensures memory { IfErr result (λ fault. fault ≡ Fault.Memory → (kind_of error ≡ ErrorKind.OutOfMemory) ⊎ (kind_of error ≡ ErrorKind.DisplayHelp)) }
{
    match error.kind() {
        ErrorKind::OutOfMemory => Err(Fault::Memory),
        ErrorKind::DisplayHelp => match error.to_string(alloc) {
            Ok(text) => Ok(text),
            Err(_) => Err(Fault::Memory),
        },
        _ => Err(Fault::BadOption("command-line")),
    }
}
