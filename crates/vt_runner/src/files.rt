//! Where the bytes of files come from.

ghost use Rattle.std.specs.Prelude.{◌≡◌, ◌⊎◌, IfOk, IfErr};
ghost use Rattle.vt_runner.specs.promise.Files.{MayFail, MayHave};

use std::alloc::Global;
use std::fs::File;
use std::io::{ErrorKind, Read};
use std::rt;
use thiserror::Error;

/// Why a file isn't read.
#[derive(Debug, Clone, Copy, PartialEq, Eq, Error)]
pub enum ReadFault {
    /// Memory was refused.
    #[error("memory was refused")]
    Memory,
    /// There is no such file, or a read failed.
    #[error("the file can't be read")]
    Unreadable,
    /// It is longer than it may be.
    #[error("the file is too long")]
    TooLong,
}

/// Files, by the names that words give them.
pub trait Files {
    ghost use Rattle.std.specs.Prelude.{◌≡◌, ◌<◌, ◌≤◌, ℕ, List, Option, None, IfOk, IfErr, IfSome, length};
    ghost use Rattle.vt_runner.specs.declared.files.ReadFault.TheVariants.{Unreadable, TooLong};

    /// The bytes of the file of a name, where they are known.
    ghost told: { Self → List ℕ → Option (List ℕ) };

    /// The bytes of the file of a name, which are at most `most`.
    ///
    /// [`ReadFault::Unreadable`]: there is no such file, or a read failed; so it is never where its bytes are known.
    /// [`ReadFault::TooLong`]: there are more bytes. [`ReadFault::Memory`]: memory was refused.
    fn read(&self, alloc: Global, name: &str, most: usize) -> Result<Vec<u8>, ReadFault>
        ensures known { IfOk result (λ bytes. IfSome (told self.now name.now) (λ known. bytes.items ≡ known)) }
        ensures within { IfOk result (λ bytes. length bytes.items ≤ most) }
        ensures unreadable { IfErr result (λ fault. fault ≡ Unreadable → told self.now name.now ≡ None) }
        ensures long { IfErr result (λ fault. fault ≡ TooLong → IfSome (told self.now name.now) (λ known. most < length known)) };
}

/// The files of the machine, by their paths.
#[derive(Drop)]
pub struct MachineFiles<'a, R> {
    rt: &'a R,
}

impl<'a, R: rt::Files> MachineFiles<'a, R> {
    /// Those that the runtime opens.
    pub fn new(rt: &'a R) -> MachineFiles<'a, R> {
        MachineFiles { rt }
    }
}

impl<'a, R: rt::Files> Files for MachineFiles<'a, R> {
    ghost use Rattle.std.specs.Prelude.{None};

    // No contract says what a machine's files have.
    ghost told = { λ files name. None };

    fn read(&self, alloc: Global, name: &str, most: usize) -> Result<Vec<u8>, ReadFault> {
        let Ok(file) = File::open(self.rt, name) else {
            return Err(ReadFault::Unreadable);
        };
        let mut bytes = Vec::new(alloc);
        match file
            .take((most as u64).saturating_add(1))
            .read_to_end(&mut bytes)
        {
            Ok(_) if bytes.len() <= most => Ok(bytes),
            Ok(_) => Err(ReadFault::TooLong),
            Err(error) if error.kind() == ErrorKind::OutOfMemory => Err(ReadFault::Memory),
            Err(_) => Err(ReadFault::Unreadable),
        }
    }
}

/// The bytes of a file, which are at most `most`.
pub fn bytes_of<D: Files>(
    alloc: Global,
    files: &D,
    name: &str,
    most: usize,
) -> Result<Vec<u8>, ReadFault>
    ensures ok { IfOk result (λ bytes. MayHave (D.told files.now) name.now most bytes.items) }
    ensures err { IfErr result (λ fault. (fault ≡ ReadFault.Memory) ⊎ MayFail (D.told files.now) name.now most) }
{
    files.read(alloc, name, most)
}
