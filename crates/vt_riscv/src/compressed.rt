//! Decodes halves of 16 bits to compressed instructions.

ghost use Rattle.std.specs.Prelude.{◌≡◌};
ghost use Rattle.vt_riscv.specs.promise.Compressed.{rd_in, rs2_in, high_in, low_in, lwsp_offset, ldsp_offset, swsp_offset, sdsp_offset, word_offset, double_offset, jump_offset, branch_offset, amount_in, immediate_in, upper_in, addi16sp_immediate, addi4spn_immediate, short, no_instruction, unless_reserved, quadrant_0, upper_of, registers_of, arithmetic_of, quadrant_1, move_of, quadrant_2, by_quadrant, decode_compressed_of};

use crate::decoding::by_sign;
use crate::{Instruction, Operation};

// The register that bits 7 to 11 of a half name.
fn rd(h: u32) -> u8
    ensures { result ≡ rd_in h }
{
    (h / 0x80 % 0x20) as u8
}

// The register that bits 2 to 6 of a half name.
fn rs2(h: u32) -> u8
    ensures { result ≡ rs2_in h }
{
    (h / 0x4 % 0x20) as u8
}

// The register, from 8 to 15, that bits 7 to 9 of a half name.
fn high(h: u32) -> u8
    ensures { result ≡ high_in h }
{
    (8 + h / 0x80 % 0x8) as u8
}

// The register, from 8 to 15, that bits 2 to 4 of a half name.
fn low(h: u32) -> u8
    ensures { result ≡ low_in h }
{
    (8 + h / 0x4 % 0x8) as u8
}

// The offset of C.LWSP from the stack pointer.
#[tactic(auto, unfolding(crate::specs::promise::Compressed::lwsp_offset))]
fn lwsp_offset(h: u32) -> u64
    ensures { result ≡ lwsp_offset h }
{
    u64::from(h / 0x1000 % 0x2 * 0x20 + h / 0x10 % 0x8 * 0x4 + h / 0x4 % 0x4 * 0x40)
}

// The offset of C.LDSP from the stack pointer.
#[tactic(auto, unfolding(crate::specs::promise::Compressed::ldsp_offset))]
fn ldsp_offset(h: u32) -> u64
    ensures { result ≡ ldsp_offset h }
{
    u64::from(h / 0x1000 % 0x2 * 0x20 + h / 0x20 % 0x4 * 0x8 + h / 0x4 % 0x8 * 0x40)
}

// The offset of C.SWSP from the stack pointer.
#[tactic(auto, unfolding(crate::specs::promise::Compressed::swsp_offset))]
fn swsp_offset(h: u32) -> u64
    ensures { result ≡ swsp_offset h }
{
    u64::from(h / 0x200 % 0x10 * 0x4 + h / 0x80 % 0x4 * 0x40)
}

// The offset of C.SDSP from the stack pointer.
#[tactic(auto, unfolding(crate::specs::promise::Compressed::sdsp_offset))]
fn sdsp_offset(h: u32) -> u64
    ensures { result ≡ sdsp_offset h }
{
    u64::from(h / 0x400 % 0x8 * 0x8 + h / 0x80 % 0x8 * 0x40)
}

// The offset of C.LW and C.SW from a register.
#[tactic(auto, unfolding(crate::specs::promise::Compressed::word_offset))]
fn word_offset(h: u32) -> u64
    ensures { result ≡ word_offset h }
{
    u64::from(h / 0x400 % 0x8 * 0x8 + h / 0x40 % 0x2 * 0x4 + h / 0x20 % 0x2 * 0x40)
}

// The offset of C.LD and C.SD from a register.
#[tactic(auto, unfolding(crate::specs::promise::Compressed::double_offset))]
fn double_offset(h: u32) -> u64
    ensures { result ≡ double_offset h }
{
    u64::from(h / 0x400 % 0x8 * 0x8 + h / 0x20 % 0x4 * 0x40)
}

// How far C.J leads.
#[tactic(auto, unfolding(crate::specs::promise::Compressed::jump_offset))]
fn jump_offset(h: u32) -> u64
    ensures { result ≡ jump_offset h }
{
    let x = h / 0x1000 % 0x2 * 0x800
        + h / 0x800 % 0x2 * 0x10
        + h / 0x200 % 0x4 * 0x100
        + h / 0x100 % 0x2 * 0x400
        + h / 0x80 % 0x2 * 0x40
        + h / 0x40 % 0x2 * 0x80
        + h / 0x8 % 0x8 * 0x2
        + h / 0x4 % 0x2 * 0x20;
    by_sign(x, 0x800)
}

// How far C.BEQZ and C.BNEZ lead.
#[tactic(auto, unfolding(crate::specs::promise::Compressed::branch_offset))]
fn branch_offset(h: u32) -> u64
    ensures { result ≡ branch_offset h }
{
    let x = h / 0x1000 % 0x2 * 0x100
        + h / 0x400 % 0x4 * 0x8
        + h / 0x20 % 0x4 * 0x40
        + h / 0x8 % 0x4 * 0x2
        + h / 0x4 % 0x2 * 0x20;
    by_sign(x, 0x100)
}

// The amount of a shift, which has six bits.
fn amount(h: u32) -> u32
    ensures { result ≡ amount_in h }
{
    h / 0x1000 % 0x2 * 0x20 + h / 0x4 % 0x20
}

// The immediate of C.ADDI and its like, which has six bits.
fn immediate(h: u32) -> u64
    ensures { result ≡ immediate_in h }
{
    by_sign(amount(h), 0x20)
}

// The immediate of C.LUI.
fn upper_immediate(h: u32) -> u64
    ensures { result ≡ upper_in h }
{
    by_sign(amount(h) * 0x1000, 0x2_0000)
}

// The immediate of C.ADDI16SP.
#[tactic(auto, unfolding(crate::specs::promise::Compressed::addi16sp_immediate))]
fn addi16sp_immediate(h: u32) -> u64
    ensures { result ≡ addi16sp_immediate h }
{
    let x = h / 0x1000 % 0x2 * 0x200
        + h / 0x40 % 0x2 * 0x10
        + h / 0x20 % 0x2 * 0x40
        + h / 0x8 % 0x4 * 0x80
        + h / 0x4 % 0x2 * 0x20;
    by_sign(x, 0x200)
}

// The immediate of C.ADDI4SPN.
#[tactic(auto, unfolding(crate::specs::promise::Compressed::addi4spn_immediate))]
fn addi4spn_immediate(h: u32) -> u64
    ensures { result ≡ addi4spn_immediate h }
{
    u64::from(
        h / 0x800 % 0x4 * 0x10
            + h / 0x80 % 0x10 * 0x40
            + h / 0x40 % 0x2 * 0x4
            + h / 0x20 % 0x2 * 0x8,
    )
}

// A compressed instruction, with its result's register, the two that it reads, and its immediate.
fn short(
    operation: Operation,
    destination: u8,
    first: u8,
    second: u8,
    immediate: u64,
) -> Instruction
    ensures { result ≡ short operation destination first second immediate }
{
    Instruction {
        operation,
        destination,
        first,
        second,
        length: 2,
        immediate,
    }
}

// An instruction of two bytes that is `Bad`.
fn no_instruction() -> Instruction
    ensures { result ≡ no_instruction }
{
    short(Operation::Bad, 0, 0, 0, 0)
}

// An instruction, or none where it is reserved.
fn unless_reserved(reserved: bool, instruction: Instruction) -> Instruction
    ensures { result ≡ unless_reserved reserved instruction }
{
    if reserved {
        no_instruction()
    } else {
        instruction
    }
}

// The instruction of a half of quadrant 0, by its upper three bits.
#[tactic(auto, unfolding(crate::specs::promise::Compressed::quadrant_0))]
fn quadrant_0(h: u32, n: u32) -> Instruction
    ensures { result ≡ quadrant_0 h n }
{
    match n {
        0 => {
            let offset = addi4spn_immediate(h);
            unless_reserved(offset == 0, short(Operation::Addi, low(h), 2, 0, offset))
        }
        2 => short(Operation::Lw, low(h), high(h), 0, word_offset(h)),
        3 => short(Operation::Ld, low(h), high(h), 0, double_offset(h)),
        6 => short(Operation::Sw, 0, high(h), low(h), word_offset(h)),
        7 => short(Operation::Sd, 0, high(h), low(h), double_offset(h)),
        _ => no_instruction(),
    }
}

// The instruction C.ADDI16SP or C.LUI.
#[tactic(auto, unfolding(crate::specs::promise::Compressed::upper_of))]
fn upper(h: u32, rd: u8) -> Instruction
    ensures { result ≡ upper_of h rd }
{
    let instruction = if rd == 2 {
        short(Operation::Addi, 2, 2, 0, addi16sp_immediate(h))
    } else {
        short(Operation::Lui, rd, 0, 0, upper_immediate(h))
    };
    unless_reserved(amount(h) == 0, instruction)
}

// The operation of an instruction of two registers.
#[tactic(auto, unfolding(crate::specs::promise::Compressed::registers_of))]
fn registers(words: u32, n: u32) -> Operation
    ensures { result ≡ registers_of words n }
{
    if words == 0 {
        match n {
            0 => Operation::Sub,
            1 => Operation::Xor,
            2 => Operation::Or,
            _ => Operation::And,
        }
    } else {
        match n {
            0 => Operation::Subw,
            1 => Operation::Addw,
            _ => Operation::Bad,
        }
    }
}

// The instruction of a half that computes with registers from 8 to 15.
#[tactic(auto, unfolding(crate::specs::promise::Compressed::arithmetic_of))]
fn arithmetic(h: u32, n: u32) -> Instruction
    ensures { result ≡ arithmetic_of h n }
{
    let rd = high(h);
    match n {
        0 => short(Operation::Srli, rd, rd, 0, u64::from(amount(h))),
        1 => short(Operation::Srai, rd, rd, 0, u64::from(amount(h))),
        2 => short(Operation::Andi, rd, rd, 0, immediate(h)),
        _ => short(registers(h / 0x1000 % 2, h / 0x20 % 4), rd, rd, low(h), 0),
    }
}

// The instruction of a half of quadrant 1, by its upper three bits.
#[tactic(auto, unfolding(crate::specs::promise::Compressed::quadrant_1))]
fn quadrant_1(h: u32, n: u32) -> Instruction
    ensures { result ≡ quadrant_1 h n }
{
    let rd = rd(h);
    match n {
        0 => short(Operation::Addi, rd, rd, 0, immediate(h)),
        1 => unless_reserved(rd == 0, short(Operation::Addiw, rd, rd, 0, immediate(h))),
        2 => short(Operation::Addi, rd, 0, 0, immediate(h)),
        3 => upper(h, rd),
        4 => arithmetic(h, h / 0x400 % 4),
        5 => short(Operation::Jal, 0, 0, 0, jump_offset(h)),
        6 => short(Operation::Beq, 0, high(h), 0, branch_offset(h)),
        _ => short(Operation::Bne, 0, high(h), 0, branch_offset(h)),
    }
}

// The instruction C.JR or C.MV, or where `adds` isn't 0, C.EBREAK, C.JALR or C.ADD.
#[tactic(auto, unfolding(crate::specs::promise::Compressed::move_of))]
fn move_or_jump(rd: u8, rs2: u8, adds: u32) -> Instruction
    ensures { result ≡ move_of rd rs2 adds }
{
    if adds == 0 {
        if rs2 == 0 {
            unless_reserved(rd == 0, short(Operation::Jalr, 0, rd, 0, 0))
        } else {
            short(Operation::Add, rd, 0, rs2, 0)
        }
    } else if rs2 != 0 {
        short(Operation::Add, rd, rd, rs2, 0)
    } else if rd == 0 {
        short(Operation::Ebreak, 0, 0, 0, 0)
    } else {
        short(Operation::Jalr, 1, rd, 0, 0)
    }
}

// The instruction of a half of quadrant 2, by its upper three bits.
#[tactic(auto, unfolding(crate::specs::promise::Compressed::quadrant_2))]
fn quadrant_2(h: u32, n: u32) -> Instruction
    ensures { result ≡ quadrant_2 h n }
{
    let rd = rd(h);
    match n {
        0 => short(Operation::Slli, rd, rd, 0, u64::from(amount(h))),
        2 => unless_reserved(rd == 0, short(Operation::Lw, rd, 2, 0, lwsp_offset(h))),
        3 => unless_reserved(rd == 0, short(Operation::Ld, rd, 2, 0, ldsp_offset(h))),
        4 => move_or_jump(rd, rs2(h), h / 0x1000 % 2),
        6 => short(Operation::Sw, 0, 2, rs2(h), swsp_offset(h)),
        7 => short(Operation::Sd, 0, 2, rs2(h), sdsp_offset(h)),
        _ => no_instruction(),
    }
}

// The instruction of a half, by its quadrant.
fn by_quadrant(h: u32, n: u32) -> Instruction
    ensures { result ≡ by_quadrant h n }
{
    match n {
        0 => quadrant_0(h, h / 0x2000),
        1 => quadrant_1(h, h / 0x2000),
        2 => quadrant_2(h, h / 0x2000),
        _ => no_instruction(),
    }
}

/// The instruction that a half stands for, as its expansion to 32 bits with a length of 2. Its operation is `Bad` where the half
/// stands for none of RV64C without floating-point numbers: then the other fields mean nothing.
#[tactic(auto, unfolding(crate::specs::promise::Compressed::decode_compressed_of))]
pub fn decode_compressed(half: u16) -> Instruction
    ensures { result ≡ decode_compressed_of half }
{
    let h = u32::from(half);
    by_quadrant(h, h % 4)
}
