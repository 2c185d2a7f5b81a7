//! Decodes words of 32 bits to instructions.

ghost use Rattle.std.specs.Prelude.{◌≡◌};
ghost use Rattle.vt_riscv.specs.promise.Decoding.{by_sign, rd_of, rs1_of, rs2_of, i_immediate, s_immediate, b_immediate, u_immediate, j_immediate, r_type, i_type, s_type, b_type, u_type, j_type, shift_type, plain, branch_of, load_of, store_of, op_imm_of, op_imm_32_of, op_base_of, op_other_of, op_mul_of, op_of, op_32_base_of, op_32_other_of, op_32_mul_of, op_32_of, jalr_of, fence_of, system_of, decode_of};

use crate::{Instruction, Operation};

/// A number as 64 bits, by its sign, where `half` is half of what its bits can hold.
pub(crate) fn by_sign(x: u32, half: u64) -> u64
    ensures { result ≡ by_sign x half }
{
    let x = u64::from(x);
    if x < half {
        x
    } else {
        x.wrapping_sub(half).wrapping_sub(half)
    }
}

// The register that bits 7 to 11 of a word name.
fn rd(w: u32) -> u8
    ensures { result ≡ rd_of w }
{
    (w / 0x80 % 32) as u8
}

// The register that bits 15 to 19 of a word name.
fn rs1(w: u32) -> u8
    ensures { result ≡ rs1_of w }
{
    (w / 0x8000 % 32) as u8
}

// The register that bits 20 to 24 of a word name.
fn rs2(w: u32) -> u8
    ensures { result ≡ rs2_of w }
{
    (w / 0x10_0000 % 32) as u8
}

#[tactic(auto, unfolding(crate::specs::promise::Decoding::r_type))]
fn r_type(operation: Operation, w: u32) -> Instruction
    ensures { result ≡ r_type operation w }
{
    Instruction {
        operation,
        destination: rd(w),
        first: rs1(w),
        second: rs2(w),
        length: 4,
        immediate: 0,
    }
}

#[tactic(auto, unfolding(crate::specs::promise::Decoding::i_type))]
fn i_type(operation: Operation, w: u32) -> Instruction
    ensures { result ≡ i_type operation w }
{
    Instruction {
        operation,
        destination: rd(w),
        first: rs1(w),
        second: 0,
        length: 4,
        immediate: by_sign(w / 0x10_0000, 0x800),
    }
}

#[tactic(auto, unfolding(crate::specs::promise::Decoding::s_type))]
fn s_type(operation: Operation, w: u32) -> Instruction
    ensures { result ≡ s_type operation w }
{
    Instruction {
        operation,
        destination: 0,
        first: rs1(w),
        second: rs2(w),
        length: 4,
        immediate: by_sign(w / 0x200_0000 * 0x20 + w / 0x80 % 32, 0x800),
    }
}

#[tactic(auto, unfolding(crate::specs::promise::Decoding::b_type))]
fn b_type(operation: Operation, w: u32) -> Instruction
    ensures { result ≡ b_type operation w }
{
    let f7 = w / 0x200_0000;
    let x = f7 / 0x40 * 0x1000 + w / 0x80 % 2 * 0x800 + f7 % 0x40 * 0x20 + w / 0x100 % 0x10 * 2;
    Instruction {
        operation,
        destination: 0,
        first: rs1(w),
        second: rs2(w),
        length: 4,
        immediate: by_sign(x, 0x1000),
    }
}

#[tactic(auto, unfolding(crate::specs::promise::Decoding::u_type))]
fn u_type(operation: Operation, w: u32) -> Instruction
    ensures { result ≡ u_type operation w }
{
    Instruction {
        operation,
        destination: rd(w),
        first: 0,
        second: 0,
        length: 4,
        immediate: by_sign(w - w % 0x1000, 0x8000_0000),
    }
}

#[tactic(auto, unfolding(crate::specs::promise::Decoding::j_type))]
fn j_type(operation: Operation, w: u32) -> Instruction
    ensures { result ≡ j_type operation w }
{
    let f7 = w / 0x200_0000;
    let x = f7 / 0x40 * 0x10_0000
        + w / 0x1000 % 0x100 * 0x1000
        + w / 0x10_0000 % 2 * 0x800
        + w / 0x20_0000 % 0x400 * 2;
    Instruction {
        operation,
        destination: rd(w),
        first: 0,
        second: 0,
        length: 4,
        immediate: by_sign(x, 0x10_0000),
    }
}

// An instruction that shifts by `amount` bits.
#[tactic(auto, unfolding(crate::specs::promise::Decoding::shift_type))]
fn shift_type(operation: Operation, w: u32, amount: u32) -> Instruction
    ensures { result ≡ shift_type operation w amount }
{
    Instruction {
        operation,
        destination: rd(w),
        first: rs1(w),
        second: 0,
        length: 4,
        immediate: u64::from(amount),
    }
}

// An instruction that has no registers and no immediate.
pub(crate) fn plain(operation: Operation) -> Instruction
    ensures { result ≡ plain operation }
{
    Instruction {
        operation,
        destination: 0,
        first: 0,
        second: 0,
        length: 4,
        immediate: 0,
    }
}

fn branch(f3: u32) -> Operation
    ensures { result ≡ branch_of f3 }
{
    match f3 {
        0 => Operation::Beq,
        1 => Operation::Bne,
        4 => Operation::Blt,
        5 => Operation::Bge,
        6 => Operation::Bltu,
        7 => Operation::Bgeu,
        _ => Operation::Bad,
    }
}

fn load(f3: u32) -> Operation
    ensures { result ≡ load_of f3 }
{
    match f3 {
        0 => Operation::Lb,
        1 => Operation::Lh,
        2 => Operation::Lw,
        3 => Operation::Ld,
        4 => Operation::Lbu,
        5 => Operation::Lhu,
        6 => Operation::Lwu,
        _ => Operation::Bad,
    }
}

fn store(f3: u32) -> Operation
    ensures { result ≡ store_of f3 }
{
    match f3 {
        0 => Operation::Sb,
        1 => Operation::Sh,
        2 => Operation::Sw,
        3 => Operation::Sd,
        _ => Operation::Bad,
    }
}

// The instruction of a word whose major opcode is OP-IMM, by funct3.
#[tactic(auto, unfolding(crate::specs::promise::Decoding::op_imm_of))]
fn op_imm(w: u32, f3: u32) -> Instruction
    ensures { result ≡ op_imm_of w f3 }
{
    let amount = w / 0x10_0000 % 64;
    match f3 {
        0 => i_type(Operation::Addi, w),
        1 => {
            let operation = match w / 0x400_0000 {
                0 => Operation::Slli,
                _ => Operation::Bad,
            };
            shift_type(operation, w, amount)
        }
        2 => i_type(Operation::Slti, w),
        3 => i_type(Operation::Sltiu, w),
        4 => i_type(Operation::Xori, w),
        5 => {
            let operation = match w / 0x400_0000 {
                0 => Operation::Srli,
                16 => Operation::Srai,
                _ => Operation::Bad,
            };
            shift_type(operation, w, amount)
        }
        6 => i_type(Operation::Ori, w),
        _ => i_type(Operation::Andi, w),
    }
}

// The instruction of a word whose major opcode is OP-IMM-32, by funct3.
#[tactic(auto, unfolding(crate::specs::promise::Decoding::op_imm_32_of))]
fn op_imm_32(w: u32, f3: u32) -> Instruction
    ensures { result ≡ op_imm_32_of w f3 }
{
    let amount = w / 0x10_0000 % 32;
    match f3 {
        0 => i_type(Operation::Addiw, w),
        1 => {
            let operation = match w / 0x200_0000 {
                0 => Operation::Slliw,
                _ => Operation::Bad,
            };
            shift_type(operation, w, amount)
        }
        5 => {
            let operation = match w / 0x200_0000 {
                0 => Operation::Srliw,
                32 => Operation::Sraiw,
                _ => Operation::Bad,
            };
            shift_type(operation, w, amount)
        }
        _ => plain(Operation::Bad),
    }
}

fn op_base(f3: u32) -> Operation
    ensures { result ≡ op_base_of f3 }
{
    match f3 {
        0 => Operation::Add,
        1 => Operation::Sll,
        2 => Operation::Slt,
        3 => Operation::Sltu,
        4 => Operation::Xor,
        5 => Operation::Srl,
        6 => Operation::Or,
        _ => Operation::And,
    }
}

fn op_other(f3: u32) -> Operation
    ensures { result ≡ op_other_of f3 }
{
    match f3 {
        0 => Operation::Sub,
        5 => Operation::Sra,
        _ => Operation::Bad,
    }
}

fn op_mul(f3: u32) -> Operation
    ensures { result ≡ op_mul_of f3 }
{
    match f3 {
        0 => Operation::Mul,
        1 => Operation::Mulh,
        2 => Operation::Mulhsu,
        3 => Operation::Mulhu,
        4 => Operation::Div,
        5 => Operation::Divu,
        6 => Operation::Rem,
        _ => Operation::Remu,
    }
}

// The operation of a word whose major opcode is OP, by funct7 and funct3.
#[tactic(auto, unfolding(crate::specs::promise::Decoding::op_of))]
fn op(f7: u32, f3: u32) -> Operation
    ensures { result ≡ op_of f7 f3 }
{
    match f7 {
        0 => op_base(f3),
        32 => op_other(f3),
        1 => op_mul(f3),
        _ => Operation::Bad,
    }
}

fn op_32_base(f3: u32) -> Operation
    ensures { result ≡ op_32_base_of f3 }
{
    match f3 {
        0 => Operation::Addw,
        1 => Operation::Sllw,
        5 => Operation::Srlw,
        _ => Operation::Bad,
    }
}

fn op_32_other(f3: u32) -> Operation
    ensures { result ≡ op_32_other_of f3 }
{
    match f3 {
        0 => Operation::Subw,
        5 => Operation::Sraw,
        _ => Operation::Bad,
    }
}

fn op_32_mul(f3: u32) -> Operation
    ensures { result ≡ op_32_mul_of f3 }
{
    match f3 {
        0 => Operation::Mulw,
        4 => Operation::Divw,
        5 => Operation::Divuw,
        6 => Operation::Remw,
        7 => Operation::Remuw,
        _ => Operation::Bad,
    }
}

// The operation of a word whose major opcode is OP-32, by funct7 and funct3.
#[tactic(auto, unfolding(crate::specs::promise::Decoding::op_32_of))]
fn op_32(f7: u32, f3: u32) -> Operation
    ensures { result ≡ op_32_of f7 f3 }
{
    match f7 {
        0 => op_32_base(f3),
        32 => op_32_other(f3),
        1 => op_32_mul(f3),
        _ => Operation::Bad,
    }
}

fn jalr(f3: u32) -> Operation
    ensures { result ≡ jalr_of f3 }
{
    match f3 {
        0 => Operation::Jalr,
        _ => Operation::Bad,
    }
}

fn fence(f3: u32) -> Operation
    ensures { result ≡ fence_of f3 }
{
    if f3 < 2 {
        Operation::Fence
    } else {
        Operation::Bad
    }
}

fn system(w: u32) -> Operation
    ensures { result ≡ system_of w }
{
    match w {
        0x73 => Operation::Ecall,
        0x10_0073 => Operation::Ebreak,
        _ => Operation::Bad,
    }
}

/// The instruction that a word stands for. Its operation is `Bad` where the word stands for none of RV64I and M: then the other
/// fields mean nothing.
#[tactic(auto, unfolding(crate::specs::promise::Decoding::decode_of))]
pub fn decode(word: u32) -> Instruction
    ensures { result ≡ decode_of word }
{
    let w = word;
    let f3 = w / 0x1000 % 8;
    let f7 = w / 0x200_0000;
    match w % 0x80 {
        0x37 => u_type(Operation::Lui, w),
        0x17 => u_type(Operation::Auipc, w),
        0x6f => j_type(Operation::Jal, w),
        0x67 => i_type(jalr(f3), w),
        0x63 => b_type(branch(f3), w),
        0x03 => i_type(load(f3), w),
        0x23 => s_type(store(f3), w),
        0x13 => op_imm(w, f3),
        0x1b => op_imm_32(w, f3),
        0x33 => r_type(op(f7, f3), w),
        0x3b => r_type(op_32(f7, f3), w),
        0x0f => plain(fence(f3)),
        0x73 => plain(system(w)),
        _ => plain(Operation::Bad),
    }
}
