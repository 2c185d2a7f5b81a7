//! The output of a replay.

ghost use Rattle.std.specs.Prelude.{◌≡◌, ◌≤◌, ◌+◌, ◌*◌, ◌++◌, length, OnOk, OnErr, IfErr};
ghost use Rattle.std.specs.Io.KnownBytes.{Appends};
ghost use Rattle.vt_text.specs.promise.Writing.{AppendsBeginning};
ghost use Rattle.vt_text.specs.inside.Writing.{AppendsAllButHeld, AppendsIntoHeld};
ghost use Rattle.vt_text.specs.declared.buffer.TheConstants.{TEXT_ROOM};
ghost use Rattle.vt_step_text.specs.promise.Replies.{time_text, answer_text, reply_text, time_line, shown_text, state_text};

use std::io::Write;
use vt_key::{Fault, When};
use vt_model::Record;
use vt_steps::Reply;
use vt_text::{NUMBER_LEN, PRIORITY_LEN, TextBuffer, Version, put_records};

/// The most bytes of a time: its tick, a space and its priority.
const TIME_LEN: usize = NUMBER_LEN + 1 + PRIORITY_LEN;

/// The most bytes of a word before a number, with the space between them.
const WORD_LEN: usize = 10;

/// The most bytes of an answer: a word and a time, or a number.
const ANSWER_LEN: usize = WORD_LEN + TIME_LEN;

/// The most bytes of a reply's line: the number of the step's line, a space, the answer and a newline.
pub const REPLY_LEN: usize = NUMBER_LEN + ANSWER_LEN + 2;

/// The most bytes of the four lines at the end of a replay: three times and the number of records.
const SHOWN_LEN: usize = 4 * (WORD_LEN + TIME_LEN + 1);

/// Adds a time: its tick, a space and its priority.
fn push_time(text: &mut TextBuffer, time: When)
    requires room { length text.old + TIME_LEN ≤ TEXT_ROOM }
    ensures text { text.new ≡ text.old ++ time_text time }
    ensures len { length text.new ≤ length text.old + TIME_LEN }
{
    text.push_number(time.ticks());
    text.push_bytes(b" ");
    text.push_priority(time.priority());
}

/// Adds the answer to a step.
fn push_answer(text: &mut TextBuffer, answer: &Result<Reply, Fault>)
    requires room { length text.old + ANSWER_LEN ≤ TEXT_ROOM }
    ensures text { text.new ≡ text.old ++ answer_text answer.now }
    ensures len { length text.new ≤ length text.old + ANSWER_LEN }
{
    match answer {
        Ok(Reply::Done) => text.push_bytes(b"ok"),
        Ok(Reply::Waiting) => text.push_bytes(b"waiting"),
        Ok(Reply::Again) => text.push_bytes(b"again"),
        Ok(Reply::Announced(time)) => {
            text.push_bytes(b"announced ");
            push_time(text, *time);
        }
        Err(fault) => {
            text.push_bytes(b"refused ");
            text.push_number(u64::from(fault.number()));
        }
    }
}

/// Adds the line of a reply: the number of the step's line, a space, the answer and a newline.
fn push_reply(text: &mut TextBuffer, line: u64, answer: &Result<Reply, Fault>)
    requires room { length text.old + REPLY_LEN ≤ TEXT_ROOM }
    ensures text { text.new ≡ text.old ++ reply_text line answer.now }
    ensures len { length text.new ≤ length text.old + REPLY_LEN }
{
    text.push_number(line);
    text.push_bytes(b" ");
    push_answer(text, answer);
    text.push_bytes(b"\n");
}

/// Adds a line with a word and a time.
fn push_time_line(text: &mut TextBuffer, word: &[u8], time: When)
    requires short { length word.now ≤ WORD_LEN }
    requires room { length text.old + WORD_LEN + TIME_LEN + 1 ≤ TEXT_ROOM }
    ensures text { text.new ≡ text.old ++ time_line word.now time }
    ensures len { length text.new ≤ length text.old + WORD_LEN + TIME_LEN + 1 }
{
    text.push_bytes(word);
    push_time(text, time);
    text.push_bytes(b"\n");
}

/// Adds the four lines at the end of a replay: announced time, floor, least time, and number of records.
#[tactic(auto, unfolding(crate::specs::promise::Replies::shown_text))]
fn push_shown(text: &mut TextBuffer, announced: When, floor: When, least: When, records: usize)
    requires room { length text.old + SHOWN_LEN ≤ TEXT_ROOM }
    ensures text { text.new ≡ text.old ++ shown_text announced floor least records }
    ensures len { length text.new ≤ length text.old + SHOWN_LEN }
{
    push_time_line(text, b"announced ", announced);
    push_time_line(text, b"floor ", floor);
    push_time_line(text, b"least ", least);
    text.push_bytes(b"records ");
    text.push_number(records as u64);
    text.push_bytes(b"\n");
}

/// Adds the line of a reply to the buffer. If there is no room for the line, it writes the buffer first.
///
/// [`Fault::Output`]: the writer failed. A beginning of the buffer was written, and the buffer is as it was.
pub fn put_reply<W: Write>(
    text: &mut TextBuffer,
    writer: &mut W,
    line: u64,
    answer: &Result<Reply, Fault>,
) -> Result<(), Fault>
    ensures ok { OnOk result (AppendsAllButHeld (W.contents writer.old) (W.contents writer.new) text.new (text.old ++ reply_text line answer.now)) }
    ensures err { OnErr result (AppendsIntoHeld (W.contents writer.old) (W.contents writer.new) text.new (text.old ++ reply_text line answer.now)) }
    ensures begun { OnErr result (AppendsBeginning (W.contents writer.old) (W.contents writer.new) text.old) }
    ensures kept { OnErr result (text.new ≡ text.old) }
    ensures fault { IfErr result (λ fault. fault ≡ Fault.Output) }
{
    text.make_room(writer, REPLY_LEN)?;
    push_reply(text, line, answer);
    Ok(())
}

/// Adds what the world shows at the end of a replay to the buffer, and writes the buffer whenever there is no room.
/// These are the announced time, the floor of the book, the least time, the number of records that the book shows,
/// and the text of these records in a version.
///
/// [`Fault::Output`]: the writer failed. A beginning of the buffer and of these lines was written. It ends in the part of
/// them that the buffer holds.
pub fn put_state<W: Write>(
    text: &mut TextBuffer,
    writer: &mut W,
    announced: When,
    floor: When,
    least: When,
    records: &[Record],
    version: Version,
) -> Result<(), Fault>
    ensures ok { OnOk result (AppendsAllButHeld (W.contents writer.old) (W.contents writer.new) text.new
        (text.old ++ state_text version announced floor least records.now)) }
    ensures err { OnErr result (AppendsIntoHeld (W.contents writer.old) (W.contents writer.new) text.new
        (text.old ++ state_text version announced floor least records.now)) }
    ensures fault { IfErr result (λ fault. fault ≡ Fault.Output) }
{
    text.make_room(writer, SHOWN_LEN)?;
    push_shown(text, announced, floor, least, records.len());
    put_records(text, writer, records, version)
}

/// Writes the line of a reply: the number of the step's line, a space, and `ok`, `waiting`, `again`, `announced T P` or
/// `refused N`. A time is its tick `T` and its priority `P`. For many replies [`put_reply`] needs fewer writes.
///
/// [`Fault::Output`]: the writer failed or took nothing. A beginning of the line was written, but not all of it.
pub fn print_reply<W: Write>(
    writer: &mut W,
    line: u64,
    answer: &Result<Reply, Fault>,
) -> Result<(), Fault>
    ensures ok { OnOk result (Appends (W.contents writer.old) (W.contents writer.new) (reply_text line answer.now)) }
    ensures err { OnErr result (AppendsBeginning (W.contents writer.old) (W.contents writer.new) (reply_text line answer.now)) }
    ensures fault { IfErr result (λ fault. fault ≡ Fault.Output) }
{
    let mut text = TextBuffer::new();
    push_reply(&mut text, line, answer);
    text.flush(writer)
}

/// Writes what the world shows at the end of a replay: the lines `announced T P`, `floor T P`, `least T P` and
/// `records N`, and the text of the records in a version, as [`print_records`](vt_text::print_records) has it.
///
/// A time is its tick `T` and its priority `P`.
///
/// [`Fault::Output`]: the writer failed or took nothing. A beginning of the text was written, but not all of it.
pub fn print_state<W: Write>(
    writer: &mut W,
    announced: When,
    floor: When,
    least: When,
    records: &[Record],
    version: Version,
) -> Result<(), Fault>
    ensures ok { OnOk result (Appends (W.contents writer.old) (W.contents writer.new) (state_text version announced floor least records.now)) }
    ensures err { OnErr result (AppendsBeginning (W.contents writer.old) (W.contents writer.new) (state_text version announced floor least records.now)) }
    ensures fault { IfErr result (λ fault. fault ≡ Fault.Output) }
{
    let mut text = TextBuffer::new();
    put_state(&mut text, writer, announced, floor, least, records, version)?;
    text.flush(writer)
}
