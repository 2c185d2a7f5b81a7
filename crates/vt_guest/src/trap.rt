//! Traps: why a handler doesn't end.

ghost use Rattle.std.specs.Prelude.{◌≡◌};
ghost use Rattle.vt_guest.specs.promise.Traps.{number_of, reason_of, trap_value};

use vt_riscv::Trap;

/// The kind of a trap's record. No program makes a record of this kind.
pub const TRAP: u32 = 0xffff_ffff;

/// Why a handler trapped.
#[derive(Debug, Clone, Copy, PartialEq, Eq)]
pub enum Reason {
    /// It jumped to an address at which no instruction may begin, or at which there is none.
    BadJump,
    /// What stands there isn't an instruction.
    BadInstruction,
    /// It read or wrote what isn't memory, or wrote what is only read.
    BadAddress,
    /// The simulator has no such call, or not with these arguments, or not in this handler.
    BadCall,
    /// It sent, recorded or drew more than its handler may.
    TooMany,
    /// It sent to a process that doesn't exist, with a priority above 255, or not to be received later than now.
    BadSend,
    /// It made all the steps that a handler may make, and didn't end.
    Spent,
    /// It came to an EBREAK.
    Breakpoint,
}

impl Reason {
    /// The number of the reason, from 1 to 8, as a trap's record has it.
    pub fn number(self) -> u64
        ensures { result ≡ number_of self }
    {
        match self {
            Reason::BadJump => 1,
            Reason::BadInstruction => 2,
            Reason::BadAddress => 3,
            Reason::BadCall => 4,
            Reason::TooMany => 5,
            Reason::BadSend => 6,
            Reason::Spent => 7,
            Reason::Breakpoint => 8,
        }
    }
}

/// The reason of a trap of the machine.
pub(crate) fn reason_of(trap: Trap) -> Reason
    ensures { result ≡ reason_of trap }
{
    match trap {
        Trap::BadJump => Reason::BadJump,
        Trap::BadInstruction => Reason::BadInstruction,
        Trap::BadAddress => Reason::BadAddress,
        Trap::Breakpoint => Reason::Breakpoint,
    }
}

/// The value of a trap's record: the reason's number times 2^32, and the low 32 bits of the address.
pub(crate) fn trap_value(reason: Reason, address: u64) -> u64
    ensures { result ≡ trap_value reason address }
{
    reason.number() * 0x1_0000_0000 + address % 0x1_0000_0000
}
