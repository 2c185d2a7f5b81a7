//! The calls of the simulator.

ghost use Rattle.std.specs.Prelude.{◌≡◌, ℕ, List, ◌+◌, ◌<◌, ◌≤◌, [], ◌∷◌, length};
ghost use Rattle.vt_model.specs.declared.limits.TheConstants.{MAX_DRAWS, MAX_SENDS, MAX_RECORDS};
ghost use Rattle.vt_model.specs.inside.Handler.{IsSendable};
ghost use Rattle.vt_model.specs.inside.Sends.{with_requests};
ghost use Rattle.vt_guest.specs.promise.Calls.{most_draws, most_records, low, call_of, send_of, emit_of, below_of, lps_of, passed, request_of, note_of, answered_by};
ghost use Rattle.vt_guest.specs.inside.Progresses.{handling_of, bare, progress_of};

use crate::process::Words;
use crate::trap::{Reason, TRAP};
use vt_model::{MAX_DRAWS, MAX_RECORDS, Out};
use vt_riscv::Core;

/// The handlers that a program has.
#[derive(Clone, Copy)]
pub(crate) enum Handler {
    Start,
    Forward,
    Finish,
}

impl Handler {
    /// How many words it may draw.
    pub fn most_draws(self) -> u32
        ensures most { result ≡ most_draws self }
        ensures limit { result ≤ MAX_DRAWS }
    {
        match self {
            Handler::Start | Handler::Forward => MAX_DRAWS,
            Handler::Finish => 0,
        }
    }

    /// How many records it may make.
    pub fn most_records(self) -> usize
        ensures most { result ≡ most_records self }
        ensures limit { result ≤ MAX_RECORDS }
    {
        match self {
            Handler::Forward => MAX_RECORDS,
            Handler::Start | Handler::Finish => 0,
        }
    }
}

/// What a handler is told of its simulation.
#[derive(Clone, Copy)]
pub(crate) struct Host {
    /// Which handler it is.
    pub handler: Handler,
    /// The number of processes, or 0 in `finish`, which isn't told it.
    pub lps: u32,
    /// The priority of the handler's time.
    pub priority: u8,
    /// How many bytes the data file has.
    pub data_size: u64,
}

/// How far a handler has come: its machine but for the state, and how many words it has drawn so far.
#[derive(Drop)]
pub(crate) struct Progress {
    pub core: Core,
    /// How many steps it may still make.
    pub left: u64,
    pub drawn: u32,
}

/// How a handler goes on.
#[derive(Clone, Copy)]
pub(crate) enum Next {
    /// With the next instruction.
    On,
    /// Once a word is drawn.
    Draw,
    /// Once an event is sent.
    Send,
    /// Once a record is made.
    Emit,
    /// It has ended.
    Ended,
    /// It trapped.
    Trapped(Reason),
}

// The low 32 bits of a number. C extends numbers of 32 bits by their sign, so these alone count.
#[inline(always)]
fn low(x: u64) -> u32
    ensures { result ≡ low x }
{
    (x % 0x1_0000_0000) as u32
}

impl Progress {
    // Goes on behind a call that has no answer.
    #[inline(always)]
    fn pass(&mut self)
        ensures { self.new ≡ progress_of (passed (bare self.old)) }
    {
        let same = self.core.registers[10];
        self.core.answer(same);
    }

    // A number below another is to be drawn.
    #[inline(always)]
    fn below(&self) -> Next
        ensures { (n : ℕ) (bytes : List ℕ) → result ≡ (below_of (handling_of n self.now bytes)).next }
    {
        let n = self.core.registers[10];
        if n == 0 || n > 0x1_0000_0000 {
            Next::Trapped(Reason::BadCall)
        } else {
            Next::Draw
        }
    }

    // An event is to be sent.
    #[inline(always)]
    fn send(&self, host: Host) -> Next
        ensures { (n : ℕ) (bytes : List ℕ) → result ≡ (send_of host (handling_of n self.now bytes)).next }
    {
        let dest = low(self.core.registers[10]);
        let delay = self.core.registers[11];
        let priority = low(self.core.registers[12]);
        let known = dest < host.lps;
        let ordered = priority < 256;
        let later = delay > 0 || priority > u32::from(host.priority);
        if known && (ordered && later) {
            Next::Send
        } else {
            Next::Trapped(Reason::BadSend)
        }
    }

    // A record is to be made.
    #[inline(always)]
    fn emit(&self) -> Next
        ensures { (n : ℕ) (bytes : List ℕ) → result ≡ (emit_of (handling_of n self.now bytes)).next }
    {
        if low(self.core.registers[10]) == TRAP {
            Next::Trapped(Reason::BadCall)
        } else {
            Next::Emit
        }
    }

    // The number of processes is asked for.
    #[tactic(auto, unfolding(crate::specs::promise::Calls::lps_of))]
    #[inline(always)]
    fn lps(&mut self, host: Host) -> Next
        ensures next { (n : ℕ) (bytes : List ℕ) → result ≡ (lps_of host (handling_of n self.old bytes)).next }
        ensures handling { (n : ℕ) (bytes : List ℕ) → handling_of n self.new bytes ≡ (lps_of host (handling_of n self.old bytes)).handling }
    {
        if host.lps == 0 {
            return Next::Trapped(Reason::BadCall);
        }
        self.core.answer(u64::from(host.lps));
        Next::On
    }

    /// A call of the simulator, at which the machine stopped.
    #[tactic(auto, unfolding(crate::specs::promise::Calls::call_of))]
    #[inline(always)]
    pub fn call(&mut self, host: Host) -> Next
        ensures next { (n : ℕ) (bytes : List ℕ) → result ≡ (call_of host (handling_of n self.old bytes)).next }
        ensures handling { (n : ℕ) (bytes : List ℕ) → handling_of n self.new bytes ≡ (call_of host (handling_of n self.old bytes)).handling }
    {
        match self.core.registers[17] {
            0 => self.below(),
            1 => Next::Draw,
            2 => self.send(host),
            3 => self.emit(),
            4 => self.lps(host),
            5 => {
                self.core.answer(host.data_size);
                Next::On
            }
            _ => Next::Trapped(Reason::BadCall),
        }
    }

    /// A word that was drawn is the answer of a call, or a number below another that it gives.
    #[inline(always)]
    pub fn answer(&mut self, word: u32)
        requires { self.old.drawn < MAX_DRAWS }
        ensures { self.new ≡ progress_of (answered_by (bare self.old) word) }
    {
        self.drawn += 1;
        let n = self.core.registers[10];
        let value = if self.core.registers[17] == 0 && n <= 0x1_0000_0000 {
            u64::from(word) * n / 0x1_0000_0000
        } else {
            u64::from(word)
        };
        self.core.answer(value);
    }

    /// The event of a call is sent.
    #[inline(always)]
    pub fn send_into(&mut self, out: &mut Out<Words>)
        requires sendable { IsSendable out.old.lps out.old.time (request_of (bare self.old)) }
        requires room { out.old.number < out.old.first + MAX_SENDS }
        ensures handling { self.new ≡ progress_of (passed (bare self.old)) }
        ensures out { out.new ≡ with_requests out.old (request_of (bare self.old) ∷ []) [] }
    {
        let words = Words {
            a: self.core.registers[13],
            b: self.core.registers[14],
        };
        out.send(
            low(self.core.registers[10]),
            self.core.registers[11],
            low(self.core.registers[12]) as u8,
            words,
        );
        self.pass();
    }

    /// The record of a call is made.
    #[inline(always)]
    pub fn emit_into(&mut self, out: &mut Out<Words>)
        requires { length out.old.records < MAX_RECORDS }
        ensures handling { self.new ≡ progress_of (passed (bare self.old)) }
        ensures out { out.new ≡ with_requests out.old [] (note_of (bare self.old) ∷ []) }
    {
        let kind = low(self.core.registers[10]);
        out.emit(kind, self.core.registers[11]);
        self.pass();
    }
}
