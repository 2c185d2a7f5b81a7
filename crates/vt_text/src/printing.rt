//! Records as text.

ghost use Rattle.std.specs.Prelude.{◌≡◌, ◌++◌, OnOk, IfErr, OnErr};
ghost use Rattle.std.specs.Io.KnownBytes.{Appends};
ghost use Rattle.vt_text.specs.promise.Records.{record_lines, records_text};
ghost use Rattle.vt_text.specs.promise.Writing.{AppendsBeginning};
ghost use Rattle.vt_text.specs.inside.Writing.{AppendsAllButHeld, AppendsIntoHeld};

use crate::{RECORD_LEN, TextBuffer, Version};
use std::io::Write;
use vt_key::Fault;
use vt_model::Record;

/// Adds the lines of records, without a first line, to the buffer. It writes the buffer whenever there is no room for a line.
///
/// [`Fault::Output`] where the writer failed: then a beginning of what the buffer held and of the lines was written. It ends
/// in the part of them that the buffer holds.
pub fn put_lines<W: Write>(
    text: &mut TextBuffer,
    writer: &mut W,
    records: &[Record],
    version: Version,
) -> Result<(), Fault>
    ensures ok { OnOk result (AppendsAllButHeld (W.contents writer.old) (W.contents writer.new) text.new (text.old ++ record_lines version records.now)) }
    ensures err { OnErr result (AppendsIntoHeld (W.contents writer.old) (W.contents writer.new) text.new (text.old ++ record_lines version records.now)) }
    ensures fault { IfErr result (λ fault. fault ≡ Fault.Output) }
{
    for item in records {
        text.make_room(writer, RECORD_LEN)?;
        text.push_record(item, version);
    }
    Ok(())
}

/// Adds the text of records, as [`print_records`] has it, to the buffer. It writes the buffer whenever there is no room.
///
/// [`Fault::Output`] where the writer failed: then a beginning of what the buffer held and of the text was written. It ends
/// in the part of them that the buffer holds.
pub fn put_records<W: Write>(
    text: &mut TextBuffer,
    writer: &mut W,
    records: &[Record],
    version: Version,
) -> Result<(), Fault>
    ensures ok { OnOk result (AppendsAllButHeld (W.contents writer.old) (W.contents writer.new) text.new (text.old ++ records_text version records.now)) }
    ensures err { OnErr result (AppendsIntoHeld (W.contents writer.old) (W.contents writer.new) text.new (text.old ++ records_text version records.now)) }
    ensures fault { IfErr result (λ fault. fault ≡ Fault.Output) }
{
    text.put_bytes(writer, version.first_line())?;
    put_lines(text, writer, records, version)
}

/// Writes the text of records, in a version. It takes no memory, and gathers lines into writes of up to
/// [`TEXT_ROOM`](crate::TEXT_ROOM) bytes.
///
/// In [`Version::Two`] the text is the line `twarp-records 2` and then a line `time priority lp kind value` for each record, in
/// order: five decimal numbers with single spaces. The time is in ticks, and the priority is 0 to 255. In [`Version::One`] the
/// text is a line `time lp kind value` for each record. A newline ends each line.
///
/// [`Fault::Output`] where the writer failed or took nothing: then a beginning of the text was written, and the last of it
/// was not.
pub fn print_records<W: Write>(
    writer: &mut W,
    records: &[Record],
    version: Version,
) -> Result<(), Fault>
    ensures ok { OnOk result (Appends (W.contents writer.old) (W.contents writer.new) (records_text version records.now)) }
    ensures err { OnErr result (AppendsBeginning (W.contents writer.old) (W.contents writer.new) (records_text version records.now)) }
    ensures fault { IfErr result (λ fault. fault ≡ Fault.Output) }
{
    let mut text = TextBuffer::new();
    put_records(&mut text, writer, records, version)?;
    text.flush(writer)
}
