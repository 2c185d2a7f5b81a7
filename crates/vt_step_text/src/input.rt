//! The input of a replay.

ghost use Rattle.std.specs.Prelude.{◌≡◌, ◌≤◌, ◌⊎◌, IfOk, OnOk, IfErr, IfSome, Some, codes, vec_len};
ghost use Rattle.std.specs.Io.KnownBytes.{IsAtEnd};
ghost use Rattle.vt_key.specs.promise.Faults.{option_named};

use crate::MAX_INPUT;
use std::alloc::Global;
use std::io::Read;
use vt_key::Fault;

/// How many bytes a read asks for.
const PIECE_LEN: usize = 8_192;

/// All bytes that a reader has left, at most [`MAX_INPUT`]. Beside them it takes a buffer of a fixed size.
///
/// [`Fault::BadOption`] with `input`: a read failed or was interrupted, or there are more bytes. [`Fault::Memory`]:
/// memory was refused.
pub fn read_input<R: Read>(alloc: Global, reader: &mut R) -> Result<Vec<u8>, Fault>
    ensures ok { IfOk result (λ input. IfSome (R.remaining reader.old) (λ bytes. input.items ≡ bytes)) }
    ensures whole { OnOk result (IsAtEnd (R.remaining reader.new)) }
    ensures within { IfOk result (λ input. vec_len input ≤ MAX_INPUT) }
    ensures err { IfErr result (λ fault. (fault ≡ Fault.Memory) ⊎ (option_named fault ≡ Some (codes "input"))) }
{
    let mut input = Vec::new(alloc);
    let mut piece = [0u8; PIECE_LEN];
    'reads: while input.len() <= MAX_INPUT {
        let Ok(count) = reader.read(&mut piece) else {
            return Err(Fault::BadOption("input"));
        };
        if count == 0 {
            return Ok(input);
        }
        let Ok(()) = input.extend_from_slice(&piece[..count]) else {
            return Err(Fault::Memory);
        };
    }
    Err(Fault::BadOption("input"))
}
