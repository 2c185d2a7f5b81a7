//! What a program is to the machine.

ghost use Rattle.std.specs.Prelude.{◌≡◌, ◌+◌, ◌≤◌, length, IfOk, take};
ghost use Rattle.vt_riscv.specs.promise.Codes.{long_at, short_of, instruction_with, instruction_at, instructions_of};
ghost use Rattle.vt_riscv.specs.inside.Readiness.{AreReady};

use crate::decoding::plain;
use crate::memory::{half, word};
use crate::ready::{Ready, ready_all};
use crate::{Instruction, Operation, decode, decode_compressed};
use std::alloc::{AllocError, Global};
use std::vec::Vec;

/// A program: its instructions, and the bytes that it reads and can't change. One serves any number of machines.
#[derive(Drop)]
pub struct Code {
    /// The instruction at each even address from `IMAGE` on.
    pub instructions: Vec<Instruction>,
    // Some of these once more, as many steps in a row want them.
    pub(crate) ready: Ready,
    /// The bytes from `IMAGE` on: the code, then constants.
    pub image: Vec<u8>,
    /// The bytes from `DATA` on.
    pub input: Vec<u8>,
    /// Whether instructions may be compressed. They may lie at any even address then, and else at multiples of 4.
    pub compressed: bool,
    ghost readied: { AreReady compressed image.items instructions.items ready.heads.items ready.immediates.items ready.targets.items ready.rests.items },
}

impl Code {
    /// The program in these bytes, of which the first `length` are its code. An error means that memory was refused.
    pub fn new(
        alloc: Global,
        image: Vec<u8>,
        length: usize,
        input: Vec<u8>,
        compressed: bool,
    ) -> Result<Code, AllocError>
        ensures instructions { IfOk result (λ code. code.instructions.items ≡ instructions_of compressed (take length image.items)) }
        ensures image { IfOk result (λ code. code.image ≡ image) }
        ensures input { IfOk result (λ code. code.input ≡ input) }
        ensures compressed { IfOk result (λ code. code.compressed ≡ compressed) }
    {
        let instructions = instructions(alloc, image.get(..length).unwrap_or(&image), compressed)?;
        let ready = ready_all(alloc, image.as_slice(), instructions.as_slice(), compressed)?;
        Ok(Code {
            instructions,
            ready,
            image,
            input,
            compressed,
        })
    }
}

// The instruction of 32 bits at an offset in a code.
fn long_at(bytes: &[u8], at: usize) -> Instruction
    requires { at + 2 ≤ length bytes.now }
    ensures { result ≡ long_at bytes.now at }
{
    if at + 4 <= bytes.len() {
        decode(word(bytes, at))
    } else {
        plain(Operation::Bad)
    }
}

// The instruction that 16 bits stand for, where there may be compressed ones.
fn short(half: u16, compressed: bool) -> Instruction
    ensures { result ≡ short_of compressed half }
{
    if compressed {
        decode_compressed(half)
    } else {
        plain(Operation::Bad)
    }
}

// The instruction at an offset in a code, by its first 16 bits.
fn instruction_with(bytes: &[u8], at: usize, half: u16, compressed: bool) -> Instruction
    requires { at + 2 ≤ length bytes.now }
    ensures { result ≡ instruction_with compressed bytes.now at half }
{
    if half % 4 == 3 {
        long_at(bytes, at)
    } else {
        short(half, compressed)
    }
}

// The instruction at an offset in a code.
fn instruction_at(bytes: &[u8], at: usize, compressed: bool) -> Instruction
    requires { at + 2 ≤ length bytes.now }
    ensures { result ≡ instruction_at compressed bytes.now at }
{
    instruction_with(bytes, at, half(bytes, at), compressed)
}

// The instruction at each even offset in a code.
fn instructions(
    alloc: Global,
    bytes: &[u8],
    compressed: bool,
) -> Result<Vec<Instruction>, AllocError>
    ensures { IfOk result (λ list. list.items ≡ instructions_of compressed bytes.now) }
{
    let count = bytes.len() / 2;
    let mut list = Vec::new(alloc);
    let mut index = 0;
    'indices: while index < count {
        list.push(instruction_at(bytes, 2 * index, compressed))?;
        index += 1;
    }
    Ok(list)
}
