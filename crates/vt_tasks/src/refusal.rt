//! The line of a refusal, and the exit status.

ghost use Rattle.std.specs.Prelude.{◌≡◌, ◌++◌, OnOk, OnErr};
ghost use Rattle.std.specs.Io.KnownBytes.{Appends};
ghost use Rattle.vt_text.specs.promise.Writing.{AppendsBeginning};
ghost use Rattle.vt_text.specs.inside.Writing.{AppendsAllButHeld};
ghost use Rattle.vt_tasks.specs.promise.Refusals.{head_text, carried_text, refusal_text, TellsRefusalOf, status_of};

use std::io::Write;
use vt_key::Fault;
use vt_text::{NUMBER_LEN, TextBuffer};

/// What a refusal says behind the program's name, without the option or the line that the fault names.
// One binding and one tail give one goal, where each arm would have its own.
fn head_of(fault: Fault) -> &'static [u8]
    ensures { result.now ≡ head_text fault }
{
    let head = match fault {
        Fault::Memory => ": refused 1 memory",
        Fault::NotLawful => ": refused 2 not lawful",
        Fault::Busy => ": refused 3 busy",
        Fault::Closed => ": refused 4 closed",
        Fault::Exhausted => ": refused 5 exhausted",
        Fault::TurnsSpent => ": refused 6 turns spent",
        Fault::BadOption(_) => ": refused 7 bad option ",
        Fault::BadStep(_) => ": refused 8 bad step at line ",
        Fault::Output => ": refused 9 output",
    };
    head.as_bytes()
}

/// Puts the option or the line that a fault names, if it names one.
fn put_carried<W: Write>(text: &mut TextBuffer, writer: &mut W, fault: Fault) -> Result<(), Fault>
    ensures ok { OnOk result (AppendsAllButHeld (W.contents writer.old) (W.contents writer.new) text.new (text.old ++ carried_text fault)) }
    ensures err { OnErr result (AppendsBeginning (W.contents writer.old) (W.contents writer.new) (text.old ++ carried_text fault)) }
{
    match fault {
        Fault::BadOption(name) => text.put_bytes(writer, name.as_bytes()),
        Fault::BadStep(line) => {
            text.make_room(writer, NUMBER_LEN)?;
            text.push_number(line);
            Ok(())
        }
        _ => Ok(()),
    }
}

/// Writes the line of a refusal, in one write unless the program's name or that of an option is very long.
fn print_refusal<W: Write>(writer: &mut W, name: &str, fault: Fault) -> Result<(), Fault>
    ensures ok { OnOk result (Appends (W.contents writer.old) (W.contents writer.new) (refusal_text name.now fault)) }
    ensures err { OnErr result (AppendsBeginning (W.contents writer.old) (W.contents writer.new) (refusal_text name.now fault)) }
{
    let mut text = TextBuffer::new();
    text.put_bytes(writer, name.as_bytes())?;
    text.put_bytes(writer, head_of(fault))?;
    put_carried(&mut text, writer, fault)?;
    text.put_bytes(writer, b"\n")?;
    text.flush(writer)
}

/// The exit status after a refusal.
fn status(fault: Fault) -> u8
    ensures { result ≡ status_of fault }
{
    match fault {
        Fault::BadOption(_) => 2,
        Fault::BadStep(_) => 3,
        _ => 1,
    }
}

/// Writes the line `NAME: refused N TEXT` of a refusal of the program NAME, and returns the exit status: 2 for [`Fault::BadOption`], 3
/// for [`Fault::BadStep`] and 1 for the others.
///
/// If `err` fails, a beginning of the line was written. The status is the same.
pub fn tell_refusal<E: Write>(err: &mut E, name: &str, fault: Fault) -> u8
    ensures status { result ≡ status_of fault }
    ensures told { TellsRefusalOf name.now fault (E.contents err.old) (E.contents err.new) }
{
    // A line that can't be written is no refusal of its own: the status stays.
    let _ = print_refusal(err, name, fault);
    status(fault)
}
