//! Runs short programs of RISC-V, one for each line of standard input, and prints what each comes to.
//!
//! A line has two numbers, for registers a0 and a1, and instructions of eight digits, or of four where they are compressed. All are
//! hexadecimal. Registers sp, s0 and s1 hold the addresses of the state, of its middle and of the image, and the others are 0. Byte k of
//! the state is 37 k + 11 modulo 256, and EBREAK stands behind the instructions. A line of the output has why the program stopped, at
//! which address, what a2 holds then, and a sum of all registers, the stack and the state.
#![tactic(auto)]

use std::alloc::{AllocError, Global};
use std::io;
use std::string::String;
use std::vec::Vec;
use vt_riscv::{Code, Core, IMAGE, Outcome, RETURN, STATE, Stop, Trap};

// How many bytes the image has, and the state.
const PAGE: usize = 4_096;

// More steps than any of these programs makes.
const FUEL: u64 = 100_000;

const EBREAK: u32 = 0x10_0073;

// A line: what a0 and a1 hold, and the bytes of the instructions.
#[derive(Drop)]
struct Line {
    x: u64,
    y: u64,
    image: Vec<u8>,
}

fn hexadecimal(word: &str) -> u64 {
    u64::from_str_radix(word, 16).unwrap_or(0)
}

// Puts an instruction behind the others.
fn push(image: &mut Vec<u8>, word: &str) -> Result<(), AllocError> {
    let length = if word.len() == 4 { 2 } else { 4 };
    for byte in hexadecimal(word).to_le_bytes().iter().take(length) {
        image.push(*byte)?;
    }
    Ok(())
}

// Fills the image: EBREAK behind the instructions, and zeros up to its end.
fn fill(image: &mut Vec<u8>) -> Result<(), AllocError> {
    for byte in EBREAK.to_le_bytes() {
        image.push(byte)?;
    }
    for _ in image.len()..PAGE {
        image.push(0)?;
    }
    Ok(())
}

fn read(alloc: Global, text: &str) -> Result<Line, AllocError> {
    let mut words = text.split_ascii_whitespace();
    let x = hexadecimal(words.next().unwrap_or(""));
    let y = hexadecimal(words.next().unwrap_or(""));
    let mut image = Vec::new(alloc);
    for word in words {
        push(&mut image, word)?;
    }
    fill(&mut image)?;
    Ok(Line { x, y, image })
}

// The machine before the first instruction, but for its state.
fn machine(x: u64, y: u64) -> Core {
    let mut core = Core {
        pc: IMAGE,
        registers: [0; 32],
        stack: [0; 1_024],
    };
    core.registers[1] = RETURN;
    core.registers[2] = STATE;
    core.registers[8] = STATE + 2_048;
    core.registers[9] = IMAGE;
    core.registers[10] = x;
    core.registers[11] = y;
    core
}

// Its state.
fn state() -> [u8; PAGE] {
    let mut state = [0; PAGE];
    let mut value = 11_u8;
    for byte in state.iter_mut() {
        *byte = value;
        value = value.wrapping_add(37);
    }
    state
}

// A sum that depends on each number and on where it stands.
fn sum(core: &Core, state: &[u8; PAGE]) -> u64 {
    let mut sum = 0_u64;
    for number in core.registers.iter() {
        sum = sum.wrapping_mul(31).wrapping_add(*number);
    }
    for byte in core.stack.iter().chain(state.iter()) {
        sum = sum.wrapping_mul(31).wrapping_add(u64::from(*byte));
    }
    sum
}

// Why a program stopped, in a word.
fn word(outcome: Outcome) -> &'static str {
    match outcome.stop {
        Stop::Called => "called",
        Stop::Ended => "ended",
        Stop::Spent => "spent",
        Stop::Trapped(Trap::BadJump) => "jump",
        Stop::Trapped(Trap::BadInstruction) => "instruction",
        Stop::Trapped(Trap::BadAddress) => "address",
        Stop::Trapped(Trap::Breakpoint) => "breakpoint",
    }
}

fn describe(alloc: Global, text: &str) -> Result<String, AllocError> {
    let line = read(alloc, text)?;
    let mut core = machine(line.x, line.y);
    let mut state = state();
    let code = Code::new(alloc, line.image, PAGE, Vec::new(alloc), true)?;
    let outcome = core.run::<PAGE, 0>(&code, &mut state, FUEL);
    format!(in alloc;
        "{} {:x} {:x} {:x}",
        word(outcome),
        core.pc,
        core.registers[12],
        sum(&core, &state)
    )
}

fn main(rt: HostRuntime) -> io::Result<()> {
    for line in rt.lines(rt.alloc()) {
        let text = describe(rt.alloc(), line?.as_str())?;
        println!(rt; "{text}")?;
    }
    Ok(())
}
