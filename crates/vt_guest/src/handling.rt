//! The run of a handler.

ghost use Rattle.std.specs.Prelude.{◌≡◌, ℕ, []};
ghost use Rattle.vt_key.specs.promise.Times.{priority_of};
ghost use Rattle.vt_stream.specs.inside.Words.{word_of, moved};
ghost use Rattle.vt_model.specs.inside.Drawn.{drawn_in, stream_in, IsSameSource};
ghost use Rattle.vt_model.specs.inside.Handler.{IsUndrawn};
ghost use Rattle.vt_model.specs.inside.Sends.{with_requests};
ghost use Rattle.vt_model.specs.declared.limits.TheConstants.{MAX_SENDS};
ghost use Rattle.vt_guest.specs.declared.calls.Handler.TheVariants.{Finish};
ghost use Rattle.vt_guest.specs.promise.Calls.{most_sends};
ghost use Rattle.vt_guest.specs.inside.Progresses.{handling_of, progress_of};
ghost use Rattle.vt_guest.specs.promise.Handling.{blank_stack, begun, turn_of, handled};

use crate::calls::{Host, Next, Progress};
use crate::process::Words;
use crate::trap::{Reason, reason_of};
use vt_model::{Draws, Out};
use vt_riscv::{Code, Core, RETURN, STACK, STATE, Stop};

// The stack at the beginning of a handler: all zero, since nothing but the state is kept from one handler to the next.
#[inline]
fn blank_stack() -> [u8; STACK]
    ensures { result ≡ blank_stack }
{
    [0; STACK]
}

impl Progress {
    /// A handler at its beginning, with so many steps to make. Registers a0 to a4 have its arguments.
    #[inline(always)]
    pub fn begin(entry: u64, fuel: u64, lp: u32, tick: u64, priority: u8, words: Words) -> Self
        ensures { result ≡ progress_of (begun {N = 0} entry fuel lp tick priority words []) }
    {
        let registers = [
            0,
            RETURN,
            STATE,
            0,
            0,
            0,
            0,
            0,
            0,
            0,
            u64::from(lp),
            tick,
            u64::from(priority),
            words.a,
            words.b,
            0,
            0,
            0,
            0,
            0,
            0,
            0,
            0,
            0,
            0,
            0,
            0,
            0,
            0,
            0,
            0,
            0,
        ];
        Progress {
            core: Core {
                pc: entry,
                registers,
                stack: blank_stack(),
            },
            left: fuel,
            drawn: 0,
        }
    }

    // On to where the machine stops next. If it stops at a call, the call is made. Each caller gives another `COPY`, as to `Core::run`.
    #[inline(always)]
    fn turn<const SIZE: usize, const COPY: u8>(
        &mut self,
        code: &Code,
        state: &mut [u8; SIZE],
        host: Host,
    ) -> Next
        ensures next { result ≡ (turn_of code.now host (handling_of SIZE self.old state.old)).next }
        ensures handling { handling_of SIZE self.new state.new ≡ (turn_of code.now host (handling_of SIZE self.old state.old)).handling }
    {
        let outcome = self.core.run::<SIZE, COPY>(code, state, self.left);
        self.left = outcome.left;
        match outcome.stop {
            Stop::Called => self.call(host),
            Stop::Ended => Next::Ended,
            Stop::Trapped(trap) => Next::Trapped(reason_of(trap)),
            Stop::Spent => Next::Trapped(Reason::Spent),
        }
    }

    /// Runs a handler to its end. An error tells why it trapped, and what it did to the state until then stays.
    pub fn run<const SIZE: usize>(
        &mut self,
        code: &Code,
        state: &mut [u8; SIZE],
        host: Host,
        draws: &mut Draws<'_>,
        out: &mut Out<Words>,
    ) -> Result<(), Reason>
        requires undrawn { IsUndrawn (drawn_in draws.old) (stream_in draws.old) }
        requires fresh { self.old.drawn ≡ 0 }
        requires unsent { out.old.number ≡ out.old.first }
        requires unrecorded { out.old.records ≡ [] }
        requires lps { host.lps ≡ out.old.lps }
        requires priority { host.priority ≡ priority_of out.old.time }
        requires most { most_sends host.handler ≡ MAX_SENDS }
        ensures end { result ≡ (handled code.now host (word_of (stream_in draws.old)) self.old.left (handling_of SIZE self.old state.old) [] []).end }
        ensures handling { handling_of SIZE self.new state.new ≡ (handled code.now host (word_of (stream_in draws.old)) self.old.left (handling_of SIZE self.old state.old) [] []).handling }
        ensures out { let run = handled code.now host (word_of (stream_in draws.old)) self.old.left (handling_of SIZE self.old state.old) [] [] in out.new ≡ with_requests out.old run.sends run.notes }
        ensures same_reference { IsSameSource draws.old draws.new }
        ensures drawn { drawn_in draws.new ≡ self.new.drawn }
        ensures stream { stream_in draws.new ≡ moved (stream_in draws.old) self.new.drawn }
    {
        let mut calls = self.left;
        'calls: while calls > 0 {
            calls -= 1;
            match self.turn::<SIZE, 1>(code, state, host) {
                Next::On => {}
                Next::Draw => {
                    if self.drawn >= host.handler.most_draws() {
                        return Err(Reason::TooMany);
                    }
                    let word = draws.word();
                    self.answer(word);
                }
                Next::Send => {
                    if !out.room() {
                        return Err(Reason::TooMany);
                    }
                    self.send_into(out);
                }
                Next::Emit => {
                    if out.records().len() >= host.handler.most_records() {
                        return Err(Reason::TooMany);
                    }
                    self.emit_into(out);
                }
                Next::Ended => return Ok(()),
                Next::Trapped(reason) => return Err(reason),
            }
        }
        Err(Reason::Spent)
    }

    /// Runs a `finish`, which may draw, send and record nothing.
    pub fn run_finish<const SIZE: usize>(
        &mut self,
        code: &Code,
        state: &mut [u8; SIZE],
        host: Host,
    ) -> Result<(), Reason>
        requires { host.handler ≡ Finish }
        ensures end { (words : ℕ → ℕ) → result ≡ (handled code.now host words self.old.left (handling_of SIZE self.old state.old) [] []).end }
        ensures handling { (words : ℕ → ℕ) → handling_of SIZE self.new state.new ≡ (handled code.now host words self.old.left (handling_of SIZE self.old state.old) [] []).handling }
    {
        let mut calls = self.left;
        'calls: while calls > 0 {
            calls -= 1;
            match self.turn::<SIZE, 2>(code, state, host) {
                Next::On => {}
                Next::Draw | Next::Send | Next::Emit => return Err(Reason::TooMany),
                Next::Ended => return Ok(()),
                Next::Trapped(reason) => return Err(reason),
            }
        }
        Err(Reason::Spent)
    }
}
