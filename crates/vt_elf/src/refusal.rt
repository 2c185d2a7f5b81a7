//! Why a file is no executable that can be taken.

ghost use Rattle.std.specs.Prelude.{◌≡◌};
ghost use Rattle.vt_elf.specs.declared.refusal.Refusal.TheVariants.{Memory};

use std::alloc::AllocError;
use std::error::Error;
use std::fmt;

/// Why a file is no executable that can be taken. A number is the address at which the segment begins that is wrong.
#[derive(Debug, Clone, Copy, PartialEq, Eq)]
pub enum Refusal {
    /// It doesn't begin with the header of an ELF file.
    NotElf,
    /// It is an ELF file, but not a little-endian one of 64 bits for RISC-V.
    OtherMachine,
    /// It isn't linked to an executable, or needs a dynamic linker.
    NotStatic,
    /// Its program headers have another size, or lie past the end of the file.
    DamagedHeaders,
    /// A segment may be both written and executed.
    WritableCode(u64),
    /// A segment has bytes past the end of the file, or more bytes in the file than in memory.
    OutsideFile(u64),
    /// A segment begins before the end of the one that the file lists before it.
    Overlap(u64),
    /// A segment begins outside of its region: code and constants from [`crate::IMAGE`] on, the code first; what may be written
    /// from [`crate::STATE`] on.
    OutsideRegion(u64),
    /// The code ends past [`crate::MAX_CODE`] bytes.
    CodeTooLarge,
    /// Code and constants end past [`crate::MAX_IMAGE`] bytes.
    ImageTooLarge,
    /// What may be written ends past [`crate::MAX_STATE`] bytes.
    StateTooLarge,
    /// It has no symbol table.
    NoSymbols,
    /// The section headers, the symbol table or its names have another form, or lie past the end of the file.
    DamagedSymbols,
    /// The machine refused memory.
    Memory,
}

impl Refusal {
    // Where the segment begins that is wrong, if it is one.
    fn segment(self) -> Option<u64> {
        match self {
            Refusal::WritableCode(address)
            | Refusal::OutsideFile(address)
            | Refusal::Overlap(address)
            | Refusal::OutsideRegion(address) => Some(address),
            _ => None,
        }
    }

    // What is wrong with that segment, or with the file.
    fn text(self) -> &'static str {
        match self {
            Refusal::NotElf => "it isn't an ELF file",
            Refusal::OtherMachine => "it isn't for 64-bit RISC-V",
            Refusal::NotStatic => "it isn't a static executable",
            Refusal::DamagedHeaders => "its program headers are damaged",
            Refusal::WritableCode(_) => "may be both written and executed",
            Refusal::OutsideFile(_) => "isn't whole in the file",
            Refusal::Overlap(_) => "overlaps the one before it, or should come before it",
            Refusal::OutsideRegion(_) => "lies outside of its region",
            Refusal::CodeTooLarge => "its code has more than 1 MiB",
            Refusal::ImageTooLarge => "its code and constants have more than 16 MiB",
            Refusal::StateTooLarge => "its state has more than 4,096 bytes",
            Refusal::NoSymbols => "it has no symbol table (it may be stripped)",
            Refusal::DamagedSymbols => "its symbol table is damaged",
            Refusal::Memory => "there is too little memory for it",
        }
    }
}

impl fmt::Display for Refusal {
    fn fmt<W: fmt::Write>(&self, f: &mut fmt::Formatter<W>) -> fmt::Result {
        match self.segment() {
            Some(address) => write!(f, "the segment at {address:#x} {}", self.text()),
            None => f.write_str(self.text()),
        }
    }
}

impl Error for Refusal {}

impl From<AllocError> for Refusal {
    ghost from_gives = { λ _ refusal. refusal ≡ Memory };

    fn from(_: AllocError) -> Refusal {
        Refusal::Memory
    }
}
