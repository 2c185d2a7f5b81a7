//! The line of a refusal, and the exit status.

ghost use Rattle.std.specs.Prelude.{◌≡◌};
ghost use Rattle.vt_program.specs.promise.Refusals.{TellsRefusal, status_of};

use std::io::Write;
use vt_key::Fault;

/// Writes the line `twarp: refused N TEXT` of a refusal, and returns the exit status: 2 for [`Fault::BadOption`], 3
/// for [`Fault::BadStep`] and 1 for the others.
///
/// If `err` fails, a beginning of the line was written. The status is the same.
pub fn tell_refusal<E: Write>(err: &mut E, fault: Fault) -> u8
    ensures status { result ≡ status_of fault }
    ensures told { TellsRefusal fault (E.contents err.old) (E.contents err.new) }
{
    vt_runner::tell_refusal(err, "twarp", fault)
}
