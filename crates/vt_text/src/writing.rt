//! Writing to the end, or to the first fault.

ghost use Rattle.std.specs.Prelude.{◌≡◌, OnOk, IfErr, OnErr};
ghost use Rattle.std.specs.Io.KnownBytes.{Appends};
ghost use Rattle.vt_text.specs.promise.Writing.{AppendsBeginning};

use std::io::Write;
use vt_key::Fault;

/// Writes all of the bytes, by as many calls of `write` as the writer needs.
///
/// [`Fault::Output`] where a call failed, an interrupted one too, or took nothing: then a beginning of the bytes was
/// written, and the last of them was not.
pub fn write_bytes<W: Write>(writer: &mut W, bytes: &[u8]) -> Result<(), Fault>
    ensures ok { OnOk result (Appends (W.contents writer.old) (W.contents writer.new) bytes.now) }
    ensures err { OnErr result (AppendsBeginning (W.contents writer.old) (W.contents writer.new) bytes.now) }
    ensures fault { IfErr result (λ fault. fault ≡ Fault.Output) }
{
    let mut done = 0;
    while done < bytes.len() {
        match writer.write(&bytes[done..]) {
            Ok(0) => return Err(Fault::Output),
            Ok(count) => done += count,
            Err(_) => return Err(Fault::Output),
        }
    }
    Ok(())
}
