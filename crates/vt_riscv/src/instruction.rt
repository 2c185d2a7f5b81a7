//! Decoded instructions.

/// What an instruction does, by its name in the manual.
#[derive(Clone, Copy)]
pub enum Operation {
    /// Nothing: the bytes aren't an instruction.
    Bad,
    Lui,
    Auipc,
    Jal,
    Jalr,
    Beq,
    Bne,
    Blt,
    Bge,
    Bltu,
    Bgeu,
    Lb,
    Lh,
    Lw,
    Ld,
    Lbu,
    Lhu,
    Lwu,
    Sb,
    Sh,
    Sw,
    Sd,
    Addi,
    Slti,
    Sltiu,
    Xori,
    Ori,
    Andi,
    Slli,
    Srli,
    Srai,
    Add,
    Sub,
    Sll,
    Slt,
    Sltu,
    Xor,
    Srl,
    Sra,
    Or,
    And,
    Addiw,
    Slliw,
    Srliw,
    Sraiw,
    Addw,
    Subw,
    Sllw,
    Srlw,
    Sraw,
    /// FENCE and FENCE.I, which do nothing in a machine with one thread whose code doesn't change.
    Fence,
    Ecall,
    Ebreak,
    Mul,
    Mulh,
    Mulhsu,
    Mulhu,
    Div,
    Divu,
    Rem,
    Remu,
    Mulw,
    Divw,
    Divuw,
    Remw,
    Remuw,
}

/// An instruction, decoded. A register or an immediate that its operation doesn't have is 0.
#[derive(Clone, Copy)]
pub struct Instruction {
    /// What it does.
    pub operation: Operation,
    /// The register that it writes (rd), from 0 to 31.
    pub destination: u8,
    /// The first register that it reads (rs1), from 0 to 31.
    pub first: u8,
    /// The second register that it reads (rs2), from 0 to 31.
    pub second: u8,
    /// How many bytes it has: 4, or 2 for a compressed one.
    pub length: u8,
    /// The immediate, sign-extended to 64 bits.
    pub immediate: u64,
}
