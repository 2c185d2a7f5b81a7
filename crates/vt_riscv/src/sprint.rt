//! Many steps in a row. The number of an instruction that is ready stands for pc there.

ghost use Rattle.std.specs.Prelude.{◌≡◌, ℕ, List, ◌+◌, ◌-◌, ◌%◌, ◌<◌, ◌≤◌, length, slice_index};
ghost use Rattle.vt_riscv.specs.promise.Arithmetic.{sum};
ghost use Rattle.vt_riscv.specs.inside.Readiness.{address_at, head_at, instruction_at, IsSmall};
ghost use Rattle.vt_riscv.specs.inside.Cores.{machine_of, bare, core_of};
ghost use Rattle.vt_riscv.specs.promise.Steps.{register_of, with_register, behind, put_in, branched, jumped, loaded, loaded_signed, stored_at, exec_of, run_of};
ghost use Rattle.vt_riscv.specs.inside.Sprints.{at_ready, seen, due, called_at, rest_of, IsAim};

use crate::effect::{Effect, effect_of};
use crate::machine::is_misaligned;
use crate::memory::{Size, extended, store, width};
use crate::ready::{Head, address_at, address_of, head_number};
use crate::{Code, Core, STACK, STATE};

/// How the machine goes on after a ready instruction.
#[derive(Clone, Copy)]
pub(crate) enum Go {
    /// It goes on with the instruction behind it.
    Next,
    /// It goes on with another instruction that is ready, by the number of its head.
    At(u32),
    /// It goes on at an address.
    To(u64),
    /// The instruction is a call.
    Called,
    /// The instruction wasn't done. It has to be looked at more closely.
    Not,
}

/// An instruction that is ready: the number of its head, and its immediate.
#[derive(Clone, Copy)]
pub(crate) struct Here {
    pub at: usize,
    pub immediate: u64,
}

/// How a sprint ended.
#[derive(Clone, Copy)]
pub(crate) struct Sprint {
    /// How many steps may still be made.
    pub left: u64,
    /// Whether the last step was a call.
    pub called: bool,
}

impl Core {
    // What a register that exists holds.
    #[inline(always)]
    fn read(&self, r: u8) -> u64
        requires { r < 32 }
        ensures { result ≡ register_of (bare self.now) r }
    {
        self.registers[r as usize]
    }

    // Puts a number into a register that exists, of which the first stays 0.
    #[inline(always)]
    fn write(&mut self, r: u8, v: u64)
        requires { r < 32 }
        ensures { self.new ≡ core_of (with_register (bare self.old) r v) }
    {
        self.registers[r as usize] = v;
        self.registers[0] = 0;
    }

    // Puts the address behind an instruction into its register.
    #[inline(always)]
    fn link(&mut self, heads: &[Head], here: Here)
        requires within { here.at < length heads.now }
        requires small { IsSmall (head_at heads.now here.at) }
        ensures { self.new ≡ core_of (with_register (bare self.old) (head_at heads.now here.at).destination (behind (at_ready (bare self.old) heads.now here.at) (instruction_at heads.now here.immediate here.at))) }
    {
        let index = heads[here.at].index;
        let length = match heads.get(here.at + 1) {
            Some(next) => next.index.saturating_sub(index),
            None => 0,
        };
        let behind = address_at(index).wrapping_add(2 * u64::from(length));
        self.write(heads[here.at].destination, behind);
    }

    // This and the following ones do for an instruction that is ready what those of `exec` do.
    #[inline(always)]
    fn put_ready(&mut self, heads: &[Head], here: Here, v: u64) -> Go
        requires within { here.at < length heads.now }
        requires small { IsSmall (head_at heads.now here.at) }
        ensures { (n : ℕ) (bytes : List ℕ) → seen (machine_of n self.new bytes) heads.now here.immediate here.at result ≡ due (machine_of n self.old bytes) (put_in (at_ready (machine_of n self.old bytes) heads.now here.at) (instruction_at heads.now here.immediate here.at) v) result }
    {
        self.write(heads[here.at].destination, v);
        Go::Next
    }

    #[inline(always)]
    fn load_ready<const N: usize>(
        &mut self,
        code: &Code,
        state: &[u8; N],
        heads: &[Head],
        here: Here,
        x: u64,
        size: Size,
    ) -> Go
        requires within { here.at < length heads.now }
        requires small { IsSmall (head_at heads.now here.at) }
        ensures { seen (machine_of N self.new state.now) heads.now here.immediate here.at result ≡ due (machine_of N self.old state.now) (loaded code.now (at_ready (machine_of N self.old state.now) heads.now here.at) (instruction_at heads.now here.immediate here.at) size (sum x here.immediate)) result }
    {
        match self.load_from(code, state, size, x.wrapping_add(here.immediate)) {
            Some(v) => self.put_ready(heads, here, v),
            None => Go::Not,
        }
    }

    #[inline(always)]
    fn load_signed_ready<const N: usize>(
        &mut self,
        code: &Code,
        state: &[u8; N],
        heads: &[Head],
        here: Here,
        x: u64,
        size: Size,
    ) -> Go
        requires within { here.at < length heads.now }
        requires small { IsSmall (head_at heads.now here.at) }
        ensures { seen (machine_of N self.new state.now) heads.now here.immediate here.at result ≡ due (machine_of N self.old state.now) (loaded_signed code.now (at_ready (machine_of N self.old state.now) heads.now here.at) (instruction_at heads.now here.immediate here.at) size (sum x here.immediate)) result }
    {
        match self.load_from(code, state, size, x.wrapping_add(here.immediate)) {
            Some(v) => self.put_ready(heads, here, extended(size, v)),
            None => Go::Not,
        }
    }

    #[inline(always)]
    fn store_ready<const N: usize>(
        &mut self,
        state: &mut [u8; N],
        heads: &[Head],
        here: Here,
        x: u64,
        v: u64,
        size: Size,
    ) -> Go
        requires within { here.at < length heads.now }
        ensures { seen (machine_of N self.new state.new) heads.now here.immediate here.at result ≡ due (machine_of N self.old state.old) (stored_at (at_ready (machine_of N self.old state.old) heads.now here.at) (instruction_at heads.now here.immediate here.at) size (sum x here.immediate) v) result }
    {
        let address = x.wrapping_add(here.immediate);
        if address >= STATE {
            if address - STATE > N as u64 || width(size) > N as u64 - (address - STATE) {
                return Go::Not;
            }
            store(state, (address - STATE) as usize, size, v);
            return Go::Next;
        }
        let base = STATE - STACK as u64;
        if address < base || width(size) > STATE - address {
            return Go::Not;
        }
        store(&mut self.stack, (address - base) as usize, size, v);
        Go::Next
    }

    #[inline(always)]
    fn branch_ready(
        &mut self,
        code: &Code,
        heads: &[Head],
        targets: &[u32],
        here: Here,
        taken: bool,
    ) -> Go
        requires within { here.at < length heads.now }
        requires targets { here.at < length targets.now }
        requires aim { IsAim code.now heads.now here.immediate (slice_index targets.now here.at) here.at }
        ensures { (n : ℕ) (bytes : List ℕ) → seen (machine_of n self.new bytes) heads.now here.immediate here.at result ≡ due (machine_of n self.old bytes) (branched code.now (at_ready (machine_of n self.old bytes) heads.now here.at) (instruction_at heads.now here.immediate here.at) taken) result }
    {
        if !taken {
            return Go::Next;
        }
        let target = targets[here.at];
        if target as usize >= heads.len() {
            return Go::Not;
        }
        Go::At(target)
    }

    #[inline(always)]
    fn link_ready(&mut self, code: &Code, heads: &[Head], targets: &[u32], here: Here) -> Go
        requires within { here.at < length heads.now }
        requires small { IsSmall (head_at heads.now here.at) }
        requires targets { here.at < length targets.now }
        requires aim { IsAim code.now heads.now here.immediate (slice_index targets.now here.at) here.at }
        ensures { (n : ℕ) (bytes : List ℕ) → seen (machine_of n self.new bytes) heads.now here.immediate here.at result ≡ due (machine_of n self.old bytes) (jumped code.now (at_ready (machine_of n self.old bytes) heads.now here.at) (instruction_at heads.now here.immediate here.at) (sum (address_at (head_at heads.now here.at).index) here.immediate)) result }
    {
        let target = targets[here.at];
        if target as usize >= heads.len() {
            return Go::Not;
        }
        self.link(heads, here);
        Go::At(target)
    }

    #[inline(always)]
    fn jump_ready(&mut self, code: &Code, heads: &[Head], here: Here, x: u64) -> Go
        requires within { here.at < length heads.now }
        requires small { IsSmall (head_at heads.now here.at) }
        ensures { (n : ℕ) (bytes : List ℕ) → seen (machine_of n self.new bytes) heads.now here.immediate here.at result ≡ due (machine_of n self.old bytes) (jumped code.now (at_ready (machine_of n self.old bytes) heads.now here.at) (instruction_at heads.now here.immediate here.at) (sum x here.immediate - sum x here.immediate % 2)) result }
    {
        let address = x.wrapping_add(here.immediate);
        let to = address - address % 2;
        if is_misaligned(code, to) {
            return Go::Not;
        }
        self.link(heads, here);
        Go::To(to)
    }

    // Does an instruction, if it can be done. A size has an arm of its own, so that the machine's code for it knows the size.
    #[inline(always)]
    fn exec_ready<const N: usize, const COPY: u8>(
        &mut self,
        code: &Code,
        state: &mut [u8; N],
        heads: &[Head],
        targets: &[u32],
        here: Here,
    ) -> Go
        requires within { here.at < length heads.now }
        requires small { IsSmall (head_at heads.now here.at) }
        requires targets { here.at < length targets.now }
        requires aim { IsAim code.now heads.now here.immediate (slice_index targets.now here.at) here.at }
        ensures { seen (machine_of N self.new state.new) heads.now here.immediate here.at result ≡ due (machine_of N self.old state.old) (exec_of code.now (at_ready (machine_of N self.old state.old) heads.now here.at) (instruction_at heads.now here.immediate here.at) (head_at heads.now here.at).operation) result }
    {
        let head = &heads[here.at];
        let x = self.read(head.first);
        let y = self.read(head.second);
        let number = here.immediate;
        match effect_of(head.operation, x, y, number) {
            Effect::Put(v) => self.put_ready(heads, here, v),
            Effect::PutAddress => self.put_ready(
                heads,
                here,
                address_at(head.index).wrapping_add(number),
            ),
            Effect::Jump => self.link_ready(code, heads, targets, here),
            Effect::JumpTo => self.jump_ready(code, heads, here, x),
            Effect::Branch(taken) => self.branch_ready(code, heads, targets, here, taken),
            Effect::Load(Size::Byte) => self.load_ready(code, state, heads, here, x, Size::Byte),
            Effect::Load(Size::Half) => self.load_ready(code, state, heads, here, x, Size::Half),
            Effect::Load(Size::Word) => self.load_ready(code, state, heads, here, x, Size::Word),
            Effect::Load(Size::Double) => self.load_ready(
                code,
                state,
                heads,
                here,
                x,
                Size::Double,
            ),
            Effect::LoadSigned(Size::Byte) => self.load_signed_ready(
                code,
                state,
                heads,
                here,
                x,
                Size::Byte,
            ),
            Effect::LoadSigned(Size::Half) => self.load_signed_ready(
                code,
                state,
                heads,
                here,
                x,
                Size::Half,
            ),
            Effect::LoadSigned(Size::Word) => self.load_signed_ready(
                code,
                state,
                heads,
                here,
                x,
                Size::Word,
            ),
            Effect::LoadSigned(Size::Double) => self.load_signed_ready(
                code,
                state,
                heads,
                here,
                x,
                Size::Double,
            ),
            Effect::Store(Size::Byte) => self.store_ready(state, heads, here, x, y, Size::Byte),
            Effect::Store(Size::Half) => self.store_ready(state, heads, here, x, y, Size::Half),
            Effect::Store(Size::Word) => self.store_ready(state, heads, here, x, y, Size::Word),
            Effect::Store(Size::Double) => self.store_ready(state, heads, here, x, y, Size::Double),
            Effect::Call => Go::Called,
            Effect::Pass => Go::Next,
            Effect::Fail(_) => Go::Not,
        }
    }

    // Does ADDI before a call, if the two are joined, and leaves pc at the call.
    #[inline(always)]
    fn call_ready(&mut self, heads: &[Head], here: Here)
        requires within { here.at + 1 < length heads.now }
        requires small { IsSmall (head_at heads.now here.at) }
        ensures { self.new ≡ core_of (called_at (bare self.old) heads.now here.immediate here.at) }
    {
        let head = heads[here.at];
        if head.destination != 0 {
            let sum = self.read(head.first).wrapping_add(here.immediate);
            self.write(head.destination, sum);
        }
        self.pc = address_at(heads[here.at + 1].index) - 4;
    }

    /// Makes steps up to a call, up to an instruction that has to be looked at more closely, or until few are left.
    // `exec_ready` has one caller in each copy. With more it would stay a call for each step.
    #[inline(always)]
    pub(crate) fn sprint<const N: usize, const COPY: u8>(
        &mut self,
        code: &Code,
        state: &mut [u8; N],
        fuel: u64,
    ) -> Sprint
        ensures run { run_of code.now fuel (machine_of N self.old state.old) ≡ rest_of code.now (machine_of N self.new state.new) result.left result.called }
        ensures left { result.left ≤ fuel }
    {
        let heads = code.ready.heads.as_slice();
        let immediates = code.ready.immediates.as_slice();
        let targets = code.ready.targets.as_slice();
        let starts = code.ready.starts.as_slice();
        let rests = code.ready.rests.as_slice();
        let Some(first) = head_number(heads, starts, self.pc) else {
            return Sprint {
                left: fuel,
                called: false,
            };
        };
        // Without a jump there are at most so many steps up to the end of the code. Those left beyond them are to spare.
        let mut at = first as usize;
        if fuel < rests[at] {
            return Sprint {
                left: fuel,
                called: false,
            };
        }
        let mut spare = fuel - rests[at];
        'steps: loop {
            let here = Here {
                at,
                immediate: immediates[at],
            };
            let to = match self.exec_ready::<N, COPY>(code, state, heads, targets, here) {
                Go::Next => {
                    at += 1;
                    continue 'steps;
                }
                Go::At(to) => to as usize,
                Go::To(address) => {
                    let Some(to) = head_number(heads, starts, address) else {
                        self.pc = address;
                        return Sprint {
                            left: spare + rests[at + 1],
                            called: false,
                        };
                    };
                    to as usize
                }
                Go::Called => {
                    self.call_ready(heads, here);
                    return Sprint {
                        left: spare + rests[at + 1],
                        called: true,
                    };
                }
                Go::Not => {
                    self.pc = address_of(heads, at);
                    return Sprint {
                        left: spare + rests[at],
                        called: false,
                    };
                }
            };
            let left = spare + rests[at + 1];
            if to >= heads.len() || left < rests[to] {
                self.pc = address_of(heads, to);
                return Sprint {
                    left,
                    called: false,
                };
            }
            spare = left - rests[to];
            at = to;
        }
    }
}
