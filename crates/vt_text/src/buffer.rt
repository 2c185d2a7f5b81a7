//! Text that is gathered before it is written.

ghost use Rattle.std.specs.Prelude.{◌≡◌, ◌+◌, ◌*◌, ◌≤◌, ◌<◌, ◌↔◌, ◌⊎◌, [], ◌∷◌, ◌++◌, length, drop, IsTrue, OnOk, IfErr, OnErr};
ghost use Rattle.std.specs.Fmt.{decimal};
ghost use Rattle.std.specs.Io.KnownBytes.{Appends};
ghost use Rattle.vt_text.specs.promise.Records.{record_text, tail_text};
ghost use Rattle.vt_text.specs.promise.Writing.{AppendsBeginning};
ghost use Rattle.vt_text.specs.inside.Writing.{AppendsAllButHeld, AppendsIntoHeld};

use crate::{NUMBER_LEN, PRIORITY_LEN, Version, write_bytes};
use itoa::write_digits;
use std::io::Write;
use std::marker::Model;
use vt_key::Fault;
use vt_model::Record;

/// How many bytes a [`TextBuffer`] holds.
pub const TEXT_ROOM: usize = 8_192;

/// The most bytes of a record's line in either version: four numbers and a priority, four spaces and a newline.
pub const RECORD_LEN: usize = 4 * NUMBER_LEN + PRIORITY_LEN + 5;

/// Puts the digits of a number before index `end`, and returns the index where they begin.
fn put_number(n: u64, text: &mut [u8], end: usize) -> usize
    requires room { NUMBER_LEN ≤ end }
    requires within { end ≤ length text.old }
    ensures short { end ≤ result + NUMBER_LEN }
    ensures small { n < 256 → end ≤ result + PRIORITY_LEN }
    ensures before { result ≤ end }
    ensures written { drop result text.new ≡ decimal n ++ drop end text.old }
{
    write_digits(n, text, end)
}

/// Puts what ends the line of a record, which is its process, kind and value, at the end, and answers where it begins.
fn put_tail(item: &Record, text: &mut [u8; RECORD_LEN]) -> usize
    ensures within { result ≤ RECORD_LEN }
    ensures short { RECORD_LEN ≤ result + 3 * NUMBER_LEN + 3 }
    ensures written { drop result text.new ≡ tail_text item.now }
{
    text[RECORD_LEN - 1] = b'\n';
    let value = put_number(item.value, text, RECORD_LEN - 1);
    text[value - 1] = b' ';
    let kind = put_number(u64::from(item.kind), text, value - 1);
    text[kind - 1] = b' ';
    put_number(u64::from(item.lp), text, kind - 1)
}

/// Puts the line of a record at the end, and answers where it begins.
fn put_record(item: &Record, version: Version, text: &mut [u8; RECORD_LEN]) -> usize
    ensures within { result ≤ RECORD_LEN }
    ensures written { drop result text.new ≡ record_text version item.now }
{
    let tail = put_tail(item, text);
    text[tail - 1] = b' ';
    match version {
        Version::One => put_number(item.time, text, tail - 1),
        Version::Two => {
            let priority = put_number(u64::from(item.priority), text, tail - 1);
            text[priority - 1] = b' ';
            put_number(item.time, text, priority - 1)
        }
    }
}

/// Text that is gathered before it is written, so that many short lines go out in few writes. Contracts see the bytes that
/// it holds.
#[derive(Drop)]
pub struct TextBuffer {
    bytes: [u8; TEXT_ROOM],
    len: usize,
}

impl Model for TextBuffer {
    ghost use Rattle.std.specs.Prelude.{◌≤◌, ℕ, List, take};
    ghost use Rattle.vt_text.specs.declared.buffer.TheConstants.{TEXT_ROOM};

    ghost Value = { List ℕ };

    ghost view = { λ t. take t.len t.bytes };

    ghost invariant = { λ t. t.len ≤ TEXT_ROOM };
}

impl TextBuffer {
    /// A buffer that holds nothing.
    pub fn new() -> Self
        ensures { result ≡ [] }
    {
        TextBuffer {
            bytes: [0; TEXT_ROOM],
            len: 0,
        }
    }

    /// Whether `count` more bytes can be pushed.
    pub fn has_room(&self, count: usize) -> bool
        ensures { IsTrue result ↔ (length self.now + count ≤ TEXT_ROOM) }
    {
        count <= TEXT_ROOM - self.len
    }

    /// Adds bytes at the end. There must be room for them ([`TextBuffer::has_room`]).
    pub fn push_bytes(&mut self, bytes: &[u8])
        requires room { length self.old + length bytes.now ≤ TEXT_ROOM }
        ensures text { self.new ≡ self.old ++ bytes.now }
        ensures len { length self.new ≡ length self.old + length bytes.now }
    {
        let end = self.len + bytes.len();
        self.bytes[self.len..end].copy_from_slice(bytes);
        self.len = end;
    }

    /// Adds the decimal digits of a number. There must be room for [`NUMBER_LEN`] bytes.
    pub fn push_number(&mut self, n: u64)
        requires room { length self.old + NUMBER_LEN ≤ TEXT_ROOM }
        ensures text { self.new ≡ self.old ++ decimal n }
        ensures len { length self.new ≤ length self.old + NUMBER_LEN }
    {
        let mut digits = [0; NUMBER_LEN];
        let start = put_number(n, &mut digits, NUMBER_LEN);
        self.push_bytes(&digits[start..]);
    }

    /// Adds the decimal digits of a priority. There must be room for [`PRIORITY_LEN`] bytes.
    pub fn push_priority(&mut self, priority: u8)
        requires room { length self.old + PRIORITY_LEN ≤ TEXT_ROOM }
        ensures text { self.new ≡ self.old ++ decimal priority }
        ensures len { length self.new ≤ length self.old + PRIORITY_LEN }
    {
        let mut digits = [0; NUMBER_LEN];
        let start = put_number(u64::from(priority), &mut digits, NUMBER_LEN);
        self.push_bytes(&digits[start..]);
    }

    /// Adds the line of a record in a version of the text. There must be room for [`RECORD_LEN`] bytes.
    pub fn push_record(&mut self, item: &Record, version: Version)
        requires room { length self.old + RECORD_LEN ≤ TEXT_ROOM }
        ensures text { self.new ≡ self.old ++ record_text version item.now }
        ensures len { length self.new ≤ length self.old + RECORD_LEN }
    {
        let mut line = [0; RECORD_LEN];
        let start = put_record(item, version, &mut line);
        self.push_bytes(&line[start..]);
    }

    /// Makes room for `count` bytes: where there is none, what the buffer holds is written, and it holds nothing.
    ///
    /// [`Fault::Output`] where the writer failed: then a beginning of what the buffer holds was written, and the buffer is as it was.
    pub fn make_room<W: Write>(&mut self, writer: &mut W, count: usize) -> Result<(), Fault>
        requires { count ≤ TEXT_ROOM }
        ensures room { OnOk result (length self.new + count ≤ TEXT_ROOM) }
        ensures ok { OnOk result (AppendsAllButHeld (W.contents writer.old) (W.contents writer.new) self.new self.old) }
        ensures err { OnErr result (AppendsBeginning (W.contents writer.old) (W.contents writer.new) self.old) }
        ensures kept { OnErr result (self.new ≡ self.old) }
        ensures fault { IfErr result (λ fault. fault ≡ Fault.Output) }
    {
        if self.has_room(count) {
            Ok(())
        } else {
            self.flush(writer)
        }
    }

    /// Adds bytes at the end, however many: where there is no room for them, what the buffer holds and then the bytes are
    /// written, and the buffer holds nothing.
    ///
    /// [`Fault::Output`] where the writer failed: then a beginning of what the buffer held and of the bytes was written. The buffer
    /// is as it was, or holds nothing.
    pub fn put_bytes<W: Write>(&mut self, writer: &mut W, bytes: &[u8]) -> Result<(), Fault>
        ensures ok { OnOk result (AppendsAllButHeld (W.contents writer.old) (W.contents writer.new) self.new (self.old ++ bytes.now)) }
        ensures err { OnErr result (AppendsIntoHeld (W.contents writer.old) (W.contents writer.new) self.new (self.old ++ bytes.now)) }
        ensures kept { OnErr result ((self.new ≡ self.old) ⊎ (self.new ≡ [])) }
        ensures fault { IfErr result (λ fault. fault ≡ Fault.Output) }
    {
        if self.has_room(bytes.len()) {
            self.push_bytes(bytes);
            return Ok(());
        }
        self.flush(writer)?;
        write_bytes(writer, bytes)
    }

    /// Writes what the buffer holds, which then holds nothing.
    ///
    /// [`Fault::Output`] where the writer failed: then a beginning was written, and the buffer is as it was.
    pub fn flush<W: Write>(&mut self, writer: &mut W) -> Result<(), Fault>
        ensures ok { OnOk result (Appends (W.contents writer.old) (W.contents writer.new) self.old) }
        ensures empty { OnOk result (self.new ≡ []) }
        ensures err { OnErr result (AppendsBeginning (W.contents writer.old) (W.contents writer.new) self.old) }
        ensures kept { OnErr result (self.new ≡ self.old) }
        ensures fault { IfErr result (λ fault. fault ≡ Fault.Output) }
    {
        write_bytes(writer, &self.bytes[..self.len])?;
        self.len = 0;
        Ok(())
    }
}
