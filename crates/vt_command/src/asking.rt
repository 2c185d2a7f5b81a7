//! Requests: what a command line asks for.

ghost use Rattle.std.specs.Prelude.{IfOk, IfErr, IfSome, map, codes, string_bytes};
ghost use Rattle.vt_options.specs.inside.Asked.{IsAsked};
ghost use Rattle.vt_options.specs.inside.Hints.{IsHintOn, TellsTurns};
ghost use Rattle.vt_command.specs.promise.Table.{twarp_models};
ghost use Rattle.vt_command.specs.promise.Requests.{twarp_line};
ghost use Rattle.vt_command.specs.inside.Requests.{IsRefusedBy};

use crate::table::{MODELS, TEXTS};
use std::alloc::Global;
use std::convert::AsStr;
use vt_key::Fault;
use vt_options::Request;

/// What a command line asks for. The first word is the program's name.
///
/// [`Fault::BadOption`] with an option's name: this is the first bad option in the order of the table.
/// [`Fault::BadOption`] with `command-line`: the words have no meaning. A word is unknown, an option has no value or
/// is given twice, or the subcommand is missing or unknown. [`Fault::Memory`]: memory was refused.
pub fn read_request<'a, S: AsStr>(alloc: Global, words: &'a [S]) -> Result<Request<'a>, Fault>
    ensures ok { IfOk result (IsAsked (codes "twarp") twarp_models (map S.text words.now)) }
    ensures err { IfErr result (IsRefusedBy (map S.text words.now)) }
{
    vt_options::read_request(alloc, &TEXTS, &MODELS, words)
}

/// A line for a terminal on a command line that [`read_request`] refuses: which word it was, and what is allowed. There is one only
/// for words that have no meaning or a bad option. None: the command line isn't refused, or memory was.
pub fn hint<S: AsStr>(alloc: Global, words: &[S]) -> Option<String>
    ensures { IfSome result (λ line. IsHintOn (codes "twarp") twarp_line (map S.text words.now) (string_bytes line)) }
{
    vt_options::hint(alloc, &TEXTS, &MODELS, words)
}

/// A line for a terminal where a run that the words ask for was refused for its turns: how many would allow more. None: the words ask
/// for no run, its turns are the most that there may be, or memory was refused.
pub fn turns_hint<S: AsStr>(alloc: Global, words: &[S]) -> Option<String>
    ensures { IfSome result (λ line. TellsTurns (codes "twarp") twarp_models (map S.text words.now) (string_bytes line)) }
{
    vt_options::turns_hint(alloc, &TEXTS, &MODELS, words)
}
