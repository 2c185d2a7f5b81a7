//! The model.

ghost use Rattle.std.specs.Prelude.{◌≡◌, length};
ghost use Rattle.vt_guest.specs.promise.Handlers.{host_of};
ghost use Rattle.vt_guest.specs.inside.Handlers.{padded, state_size_of};

use crate::calls::{Handler, Host, Progress};
use crate::process::{Class, Process, StateSize, Words};
use crate::trap::{TRAP, trap_value};
use vt_key::When;
use vt_model::{Bits, Draws, Model as EventModel, Out};
use vt_riscv::Code;

/// A program whose handlers are those of a model.
#[derive(Drop)]
pub struct Program {
    /// Its instructions and constants, and the bytes of its data file.
    pub code: Code,
    /// What lies in the state before the start of a process.
    pub first: Vec<u8>,
    /// Where `start` begins.
    pub start: u64,
    /// Where `forward` begins.
    pub forward: u64,
    /// Where `finish` begins.
    pub finish: u64,
    /// The most steps of one handler.
    pub fuel: u64,
}

/// The model whose handlers are a program's, with `SIZE` bytes of state for each process.
#[derive(Drop)]
pub struct Guest<const SIZE: usize> {
    /// The program.
    pub program: Program,
    /// The state before the start of a process.
    pub first: [u8; SIZE],
}

impl Program {
    /// The least size that holds the first state, or the largest size where none does.
    pub fn state_size(&self) -> StateSize
        ensures { result ≡ state_size_of (length self.now.first.items) }
    {
        match self.first.len() {
            0..=64 => StateSize::Bytes64,
            65..=256 => StateSize::Bytes256,
            257..=1_024 => StateSize::Bytes1024,
            _ => StateSize::Bytes4096,
        }
    }

    // What a handler of this program is told.
    fn host(&self, handler: Handler, lps: u32, priority: u8) -> Host
        ensures { result ≡ host_of self.now handler lps priority }
    {
        Host {
            handler,
            lps,
            priority,
            data_size: self.code.input.len() as u64,
        }
    }
}

impl<const SIZE: usize> Guest<SIZE> {
    /// The model of a program. Behind the program's first state there are zeros; what doesn't fit into `SIZE` bytes is left out.
    pub fn new(program: Program) -> Self
        ensures program { result.program ≡ program }
        ensures first { result.first ≡ padded SIZE program.first.items }
    {
        let mut first = [0; SIZE];
        let fits = program.first.len().min(SIZE);
        first[..fits].copy_from_slice(&program.first[..fits]);
        Guest { program, first }
    }
}

impl<const SIZE: usize> EventModel for Guest<SIZE>
where
    Process<SIZE>: Class,
{
    type State = Process<SIZE>;

    type Payload = Words;

    // The whole state. What is kept has one size, so the words that changed would take as much room.
    type Kept = Process<SIZE>;

    ghost use Rattle.std.proofs.Common.{lit<, lit≤};
    ghost use Rattle.vt_guest.specs.promise.Handlers.{guest_handlers};
    ghost use Rattle.vt_guest.specs.inside.Laws.{start_within, forward_within, undoes};

    ghost handlers = { guest_handlers {N = SIZE} };

    ghost IsState = { λ m s. Unit {0} };

    fn start(&self, lp: u32, draws: &mut Draws<'_>, out: &mut Out<Words>) -> Process<SIZE> {
        let program = &self.program;
        let host = program.host(Handler::Start, out.lps(), 0);
        let none = Words { a: 0, b: 0 };
        let mut process = Process {
            bytes: self.first,
            failed: 0,
        };
        let mut progress = Progress::begin(program.start, program.fuel, lp, 0, 0, none);
        match progress.run(&program.code, &mut process.bytes, host, draws, out) {
            Ok(()) => process,
            Err(reason) => {
                out.take_back();
                out.send(lp, 0, 1, none);
                Process {
                    bytes: self.first,
                    failed: trap_value(reason, progress.core.pc),
                }
            }
        }
    }

    fn forward(
        &self,
        lp: u32,
        now: When,
        payload: Words,
        state: &mut Process<SIZE>,
        _bits: &mut Bits,
        draws: &mut Draws<'_>,
        out: &mut Out<Words>,
    ) -> Process<SIZE> {
        let before = *state;
        if before.failed != 0 {
            out.emit(TRAP, before.failed);
            return before;
        }
        let program = &self.program;
        let host = program.host(Handler::Forward, out.lps(), now.priority());
        let mut progress = Progress::begin(
            program.forward,
            program.fuel,
            lp,
            now.ticks(),
            now.priority(),
            payload,
        );
        if let Err(reason) = progress.run(&program.code, &mut state.bytes, host, draws, out) {
            // Of the state it may have changed the bytes alone.
            let bytes = before.bytes;
            state.bytes = bytes;
            out.take_back();
            out.emit(TRAP, trap_value(reason, progress.core.pc));
        }
        before
    }

    fn reverse(
        &self,
        _lp: u32,
        _now: When,
        _payload: Words,
        state: &mut Process<SIZE>,
        _bits: Bits,
        kept: Process<SIZE>,
    ) {
        *state = kept;
    }

    fn finish(&self, lp: u32, state: &Process<SIZE>) -> u64 {
        if state.failed != 0 {
            return u64::MAX;
        }
        let program = &self.program;
        let host = program.host(Handler::Finish, 0, 0);
        let mut bytes = state.bytes;
        let mut progress = Progress::begin(
            program.finish,
            program.fuel,
            lp,
            0,
            0,
            Words { a: 0, b: 0 },
        );
        match progress.run_finish(&program.code, &mut bytes, host) {
            Ok(()) => progress.core.registers[10],
            Err(_) => u64::MAX,
        }
    }

    ghost start_within = { start_within };

    ghost forward_within = { forward_within };

    ghost start_state = { λ m lps lp words. tt };

    ghost forward_state = { λ m lps lp now p s words fits. tt };

    ghost undoes = { undoes };

    ghost payload_size = { lit< tt };

    ghost payload_align = { (lit≤ tt, lit≤ tt) };

    ghost kept_size = { bound-1.kept_size };

    ghost kept_align = { bound-1.kept_align };
}
