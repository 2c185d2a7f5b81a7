//! Why a call was refused.

ghost use Rattle.std.specs.Prelude.{◌≡◌};
ghost use Rattle.vt_key.specs.promise.Faults.{fault_number};

use thiserror::Error;

/// Why a call was refused. A call that answers fault 1 to 5 leaves its receiver and its arguments unchanged, unless its own
/// comment says otherwise.
#[derive(Debug, Clone, Copy, PartialEq, Eq, Error)]
pub enum Fault {
    /// 1: the machine refused memory, or refused to start a thread.
    #[error("memory")]
    Memory,
    /// 2: the call isn't allowed in the present state. Its comment says when it is.
    #[error("not lawful")]
    NotLawful,
    /// 3: another worker has claimed the cell at this moment.
    #[error("busy")]
    Busy,
    /// 4: the book of committed records is closed.
    #[error("closed")]
    Closed,
    /// 5: a counter would pass 2^63.
    #[error("exhausted")]
    Exhausted,
    /// 6: a worker made all its turns before the end of the run.
    #[error("turns spent")]
    TurnsSpent,
    /// 7: a bad option, by its name without dashes; `command-line` for a bad command line, `input` for a bad input.
    #[error("bad option {0}")]
    BadOption(&'static str),
    /// 8: a bad line of a step text, by its number from 1.
    #[error("bad step at line {0}")]
    BadStep(u64),
    /// 9: a write failed, or took no byte.
    #[error("output")]
    Output,
}

impl Fault {
    /// The number of this fault, from 1 to 9. Numbers are the same in all crates.
    pub fn number(self) -> u32
        ensures { result ≡ fault_number self }
    {
        match self {
            Fault::Memory => 1,
            Fault::NotLawful => 2,
            Fault::Busy => 3,
            Fault::Closed => 4,
            Fault::Exhausted => 5,
            Fault::TurnsSpent => 6,
            Fault::BadOption(_) => 7,
            Fault::BadStep(_) => 8,
            Fault::Output => 9,
        }
    }
}
