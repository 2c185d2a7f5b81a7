//! What a run prints: records, and final values.

ghost use Rattle.std.specs.Prelude.{◌≡◌, ◌+◌, ◌*◌, ◌≤◌, ◌++◌, length, OnOk, IfErr, OnErr};
ghost use Rattle.std.specs.Io.KnownBytes.{Appends};
ghost use Rattle.vt_text.specs.declared.buffer.TheConstants.{TEXT_ROOM};
ghost use Rattle.vt_text.specs.promise.Writing.{AppendsBeginning};
ghost use Rattle.vt_text.specs.inside.Writing.{AppendsAllButHeld, AppendsIntoHeld};
ghost use Rattle.vt_tasks.specs.promise.Printed.{final_lines, final_text, printed_first, printed_lines, printed_text};

use std::io::Write;
use vt_key::Fault;
use vt_model::Record;
use vt_text::{NUMBER_LEN, TextBuffer, Version, put_lines};

/// What the line of a final value begins with.
const FINAL: &[u8] = b"final ";

/// The most bytes of the line of a final value: that word, two numbers, a space and a newline.
const FINAL_LEN: usize = 6 + 2 * NUMBER_LEN + 2;

/// The line with which the text of records begins in a version; nothing without one, since the line names the version of the records.
pub(crate) fn first_of(shown: Option<Version>) -> &'static [u8]
    ensures { result.now ≡ printed_first shown }
{
    match shown {
        Some(version) => version.first_line(),
        None => b"",
    }
}

/// Adds the lines of records to the buffer, as [`put_lines`] does; nothing without a version.
///
/// [`Fault::Output`]: as there.
pub(crate) fn put_shown<W: Write>(
    text: &mut TextBuffer,
    writer: &mut W,
    records: &[Record],
    shown: Option<Version>,
) -> Result<(), Fault>
    ensures ok { OnOk result (AppendsAllButHeld (W.contents writer.old) (W.contents writer.new) text.new (text.old ++ printed_lines shown records.now)) }
    ensures err { OnErr result (AppendsIntoHeld (W.contents writer.old) (W.contents writer.new) text.new (text.old ++ printed_lines shown records.now)) }
    ensures fault { IfErr result (λ fault. fault ≡ Fault.Output) }
{
    match shown {
        Some(version) => put_lines(text, writer, records, version),
        None => Ok(()),
    }
}

/// Adds the line of a final value. There must be room for [`FINAL_LEN`] bytes.
fn push_final(text: &mut TextBuffer, lp: u64, value: u64)
    requires room { length text.old + FINAL_LEN ≤ TEXT_ROOM }
    ensures { text.new ≡ text.old ++ final_text lp value }
{
    text.push_bytes(FINAL);
    text.push_number(lp);
    text.push_bytes(b" ");
    text.push_number(value);
    text.push_bytes(b"\n");
}

/// Adds a line for each final value, from process 0 on, to the buffer. It writes the buffer whenever there is no room for a line.
///
/// [`Fault::Output`] where the writer failed: then a beginning of what the buffer held and of the lines was written.
pub(crate) fn put_finals<W: Write>(
    text: &mut TextBuffer,
    writer: &mut W,
    finals: &[u64],
) -> Result<(), Fault>
    ensures ok { OnOk result (AppendsAllButHeld (W.contents writer.old) (W.contents writer.new) text.new (text.old ++ final_lines 0 finals.now)) }
    ensures err { OnErr result (AppendsBeginning (W.contents writer.old) (W.contents writer.new) (text.old ++ final_lines 0 finals.now)) }
    ensures fault { IfErr result (λ fault. fault ≡ Fault.Output) }
{
    for lp in 0..finals.len() {
        text.make_room(writer, FINAL_LEN)?;
        push_final(text, lp as u64, finals[lp]);
    }
    Ok(())
}

/// Writes records in a version of their text, or nothing of them without one, and then a line `final LP VALUE` for each final value,
/// from process 0 on. It takes no memory.
///
/// [`Fault::Output`] where the writer failed: then a beginning of this was written, and the last of it was not.
pub fn print_result<W: Write>(
    writer: &mut W,
    shown: Option<Version>,
    records: &[Record],
    finals: &[u64],
) -> Result<(), Fault>
    ensures ok { OnOk result (Appends (W.contents writer.old) (W.contents writer.new) (printed_text shown records.now ++ final_lines 0 finals.now)) }
    ensures err { OnErr result (AppendsBeginning (W.contents writer.old) (W.contents writer.new) (printed_text shown records.now ++ final_lines 0 finals.now)) }
    ensures fault { IfErr result (λ fault. fault ≡ Fault.Output) }
{
    let mut text = TextBuffer::new();
    text.put_bytes(writer, first_of(shown))?;
    put_shown(&mut text, writer, records, shown)?;
    put_finals(&mut text, writer, finals)?;
    text.flush(writer)
}
