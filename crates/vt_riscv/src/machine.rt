//! The machine, and what one instruction does to it.

ghost use Rattle.std.specs.Prelude.{◌≡◌, ℕ, List};
ghost use Rattle.vt_riscv.specs.inside.Cores.{machine_of, bare, core_of};
ghost use Rattle.vt_riscv.specs.promise.Steps.{is_misaligned, fetch_of, with_register, put_in, passed, jumped, branched, register_of, loaded_from, loaded, loaded_signed, stored_at, exec_of, step_of, run_of, answered};

use crate::effect::{Effect, effect_of};
use crate::memory::{Size, extended, number_within, store, width};
use crate::{Code, DATA, IMAGE, Instruction, RETURN, STACK, STATE};

/// Why an instruction can't be done. The machine is as before it, with pc at it.
#[derive(Debug, Clone, Copy, PartialEq, Eq)]
pub enum Trap {
    /// It jumps to an address at which no instruction may begin, or there is no instruction at pc.
    BadJump,
    /// It isn't an instruction.
    BadInstruction,
    /// It reads or writes what isn't memory, or writes what is only read. All of a number lies in one part of memory.
    BadAddress,
    /// It is EBREAK.
    Breakpoint,
}

/// Why a run stops.
#[derive(Debug, Clone, Copy, PartialEq, Eq)]
pub enum Stop {
    /// The instruction is ECALL. The machine is as before it, with pc at it: [`Core::answer`] goes on behind it.
    Called,
    /// The program came to `RETURN`.
    Ended,
    /// The instruction can't be done.
    Trapped(Trap),
    /// All steps are made.
    Spent,
}

/// How a run came out.
#[derive(Debug, Clone, Copy, PartialEq, Eq)]
pub struct Outcome {
    /// Why it stopped.
    pub stop: Stop,
    /// How many steps it may still make. The step that it stopped at counts as made.
    pub left: u64,
}

/// A machine but for its state: its pc, its registers and its stack.
#[derive(Clone, Copy)]
pub struct Core {
    /// The address of the next instruction.
    pub pc: u64,
    /// The registers x0 to x31. The first stays 0.
    pub registers: [u64; 32],
    /// The bytes right below `STATE`.
    pub stack: [u8; STACK],
}

// Whether no instruction may begin at an address.
#[inline]
pub(crate) fn is_misaligned(code: &Code, address: u64) -> bool
    ensures { result ≡ is_misaligned code.now address }
{
    // The first test is the usual one.
    if address % 4 == 0 {
        return false;
    }
    if code.compressed {
        address % 2 != 0
    } else {
        true
    }
}

// The instruction at an address, if one may stand there.
#[inline]
fn fetch(code: &Code, address: u64) -> Option<Instruction>
    ensures { result ≡ fetch_of code.now address }
{
    if address < IMAGE || is_misaligned(code, address) {
        return None;
    }
    code.instructions
        .get(((address - IMAGE) / 2) as usize)
        .copied()
}

impl Core {
    // The number in a register.
    #[inline]
    fn register(&self, r: u8) -> u64
        ensures { result ≡ register_of (bare self.now) r }
    {
        self.registers[(r % 32) as usize]
    }

    // Puts a number into a register, of which the first stays 0.
    #[inline]
    fn set(&mut self, r: u8, v: u64)
        ensures { self.new ≡ core_of (with_register (bare self.old) r v) }
    {
        self.registers[(r % 32) as usize] = v;
        self.registers[0] = 0;
    }

    // Puts a number into the register of an instruction's result, and goes on behind it.
    #[inline]
    fn put(&mut self, i: Instruction, v: u64) -> Option<Stop>
        ensures stop { result ≡ (put_in (bare self.old) i v).stop }
        ensures machine { self.new ≡ core_of (put_in (bare self.old) i v).machine }
    {
        self.set(i.destination, v);
        self.pass(i)
    }

    // Goes on behind an instruction.
    #[inline]
    fn pass(&mut self, i: Instruction) -> Option<Stop>
        ensures stop { result ≡ (passed (bare self.old) i).stop }
        ensures machine { self.new ≡ core_of (passed (bare self.old) i).machine }
    {
        self.pc = self.pc.wrapping_add(u64::from(i.length));
        None
    }

    // Goes on at another address, and puts the address behind the instruction into a register.
    #[inline]
    fn jump(&mut self, code: &Code, i: Instruction, to: u64) -> Option<Stop>
        ensures stop { (n : ℕ) (bytes : List ℕ) → result ≡ (jumped code.now (machine_of n self.old bytes) i to).stop }
        ensures machine { (n : ℕ) (bytes : List ℕ) → machine_of n self.new bytes ≡ (jumped code.now (machine_of n self.old bytes) i to).machine }
    {
        if is_misaligned(code, to) {
            return Some(Stop::Trapped(Trap::BadJump));
        }
        let behind = self.pc.wrapping_add(u64::from(i.length));
        self.set(i.destination, behind);
        self.pc = to;
        None
    }

    // Goes on at another address, if the branch is taken.
    #[inline]
    fn branch(&mut self, code: &Code, i: Instruction, taken: bool) -> Option<Stop>
        ensures stop { (n : ℕ) (bytes : List ℕ) → result ≡ (branched code.now (machine_of n self.old bytes) i taken).stop }
        ensures machine { (n : ℕ) (bytes : List ℕ) → machine_of n self.new bytes ≡ (branched code.now (machine_of n self.old bytes) i taken).machine }
    {
        if !taken {
            return self.pass(i);
        }
        let to = self.pc.wrapping_add(i.immediate);
        if is_misaligned(code, to) {
            return Some(Stop::Trapped(Trap::BadJump));
        }
        self.pc = to;
        None
    }

    // The number at an address, if all of it lies in one part of memory.
    #[inline(always)]
    pub(crate) fn load_from<const N: usize>(
        &self,
        code: &Code,
        state: &[u8; N],
        size: Size,
        at: u64,
    ) -> Option<u64>
        ensures { result ≡ loaded_from code.now (machine_of N self.now state.now) size at }
    {
        if at >= STATE {
            number_within(state, at - STATE, size)
        } else if at >= STATE - STACK as u64 {
            number_within(&self.stack, at - (STATE - STACK as u64), size)
        } else if at >= DATA {
            number_within(code.input.as_slice(), at - DATA, size)
        } else if at >= IMAGE {
            number_within(code.image.as_slice(), at - IMAGE, size)
        } else {
            None
        }
    }

    // Puts a number from memory into a register.
    #[inline(always)]
    fn load<const N: usize>(
        &mut self,
        code: &Code,
        state: &[u8; N],
        i: Instruction,
        at: u64,
        size: Size,
    ) -> Option<Stop>
        ensures stop { result ≡ (loaded code.now (machine_of N self.old state.now) i size at).stop }
        ensures machine { machine_of N self.new state.now ≡ (loaded code.now (machine_of N self.old state.now) i size at).machine }
    {
        match self.load_from(code, state, size, at) {
            Some(v) => self.put(i, v),
            None => Some(Stop::Trapped(Trap::BadAddress)),
        }
    }

    // Puts a number with a sign from memory into a register.
    #[inline(always)]
    fn load_signed<const N: usize>(
        &mut self,
        code: &Code,
        state: &[u8; N],
        i: Instruction,
        at: u64,
        size: Size,
    ) -> Option<Stop>
        ensures stop { result ≡ (loaded_signed code.now (machine_of N self.old state.now) i size at).stop }
        ensures machine { machine_of N self.new state.now ≡ (loaded_signed code.now (machine_of N self.old state.now) i size at).machine }
    {
        match self.load_from(code, state, size, at) {
            Some(v) => self.put(i, extended(size, v)),
            None => Some(Stop::Trapped(Trap::BadAddress)),
        }
    }

    // Puts a number into memory.
    #[inline(always)]
    fn store<const N: usize>(
        &mut self,
        state: &mut [u8; N],
        i: Instruction,
        at: u64,
        v: u64,
        size: Size,
    ) -> Option<Stop>
        ensures stop { result ≡ (stored_at (machine_of N self.old state.old) i size at v).stop }
        ensures machine { machine_of N self.new state.new ≡ (stored_at (machine_of N self.old state.old) i size at v).machine }
    {
        if at >= STATE {
            if at - STATE > N as u64 || width(size) > N as u64 - (at - STATE) {
                return Some(Stop::Trapped(Trap::BadAddress));
            }
            store(state, (at - STATE) as usize, size, v);
            return self.pass(i);
        }
        let base = STATE - STACK as u64;
        if at < base || width(size) > STATE - at {
            return Some(Stop::Trapped(Trap::BadAddress));
        }
        store(&mut self.stack, (at - base) as usize, size, v);
        self.pass(i)
    }

    // Does an instruction. It gives why the machine stops, if it does.
    #[inline(never)]
    fn exec<const N: usize>(
        &mut self,
        code: &Code,
        state: &mut [u8; N],
        i: Instruction,
    ) -> Option<Stop>
        ensures stop { result ≡ (exec_of code.now (machine_of N self.old state.old) i i.operation).stop }
        ensures machine { machine_of N self.new state.new ≡ (exec_of code.now (machine_of N self.old state.old) i i.operation).machine }
    {
        let x = self.register(i.first);
        let y = self.register(i.second);
        match effect_of(i.operation, x, y, i.immediate) {
            Effect::Put(v) => self.put(i, v),
            Effect::PutAddress => self.put(i, self.pc.wrapping_add(i.immediate)),
            Effect::Jump => self.jump(code, i, self.pc.wrapping_add(i.immediate)),
            Effect::JumpTo => {
                let at = x.wrapping_add(i.immediate);
                self.jump(code, i, at - at % 2)
            }
            Effect::Branch(taken) => self.branch(code, i, taken),
            Effect::Load(size) => self.load(code, state, i, x.wrapping_add(i.immediate), size),
            Effect::LoadSigned(size) => {
                self.load_signed(code, state, i, x.wrapping_add(i.immediate), size)
            }
            Effect::Store(size) => self.store(state, i, x.wrapping_add(i.immediate), y, size),
            Effect::Pass => self.pass(i),
            Effect::Call => Some(Stop::Called),
            Effect::Fail(trap) => Some(Stop::Trapped(trap)),
        }
    }

    // Does the instruction at pc, or stops where there is none.
    #[inline]
    fn step<const N: usize>(&mut self, code: &Code, state: &mut [u8; N]) -> Option<Stop>
        ensures stop { result ≡ (step_of code.now (machine_of N self.old state.old)).stop }
        ensures machine { machine_of N self.new state.new ≡ (step_of code.now (machine_of N self.old state.old)).machine }
    {
        match fetch(code, self.pc) {
            Some(i) => self.exec(code, state, i),
            None => {
                if self.pc == RETURN {
                    Some(Stop::Ended)
                } else {
                    Some(Stop::Trapped(Trap::BadJump))
                }
            }
        }
    }

    /// Makes at most `fuel` steps, each of one instruction, and stops earlier at a call, at the end, or where an instruction can't be
    /// done. At `RETURN` it has ended, even if no step is left. The state is the bytes from `STATE` on.
    ///
    /// Each caller gives another number as `COPY`, and has a loop of steps of its own. A loop that they share makes a call for each step.
    #[inline(always)]
    pub fn run<const N: usize, const COPY: u8>(
        &mut self,
        code: &Code,
        state: &mut [u8; N],
        fuel: u64,
    ) -> Outcome
        ensures outcome { result ≡ (run_of code.now fuel (machine_of N self.old state.old)).outcome }
        ensures machine { machine_of N self.new state.new ≡ (run_of code.now fuel (machine_of N self.old state.old)).machine }
    {
        let mut left = fuel;
        'steps: while left > 0 {
            let sprint = self.sprint::<N, COPY>(code, state, left);
            left = sprint.left;
            if sprint.called {
                return Outcome {
                    stop: Stop::Called,
                    left,
                };
            }
            if left > 0 {
                left -= 1;
                if let Some(stop) = self.step(code, state) {
                    return Outcome { stop, left };
                }
            }
        }
        let stop = if self.pc == RETURN {
            Stop::Ended
        } else {
            Stop::Spent
        };
        Outcome { stop, left: 0 }
    }

    /// Answers the call at which the machine stopped: puts the value into register a0 (x10), and goes on behind the ECALL.
    #[inline(always)]
    pub fn answer(&mut self, value: u64)
        ensures { self.new ≡ core_of (answered (bare self.old) value) }
    {
        self.set(10, value);
        self.pc = self.pc.wrapping_add(4);
    }
}
