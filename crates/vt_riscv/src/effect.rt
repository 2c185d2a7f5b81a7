//! What instructions do, by the numbers in their registers.

ghost use Rattle.std.specs.Prelude.{◌≡◌};
ghost use Rattle.vt_riscv.specs.promise.Effects.{effect_of};

use crate::arithmetic::{
    difference_of_words, left_of_word, less_signed, product_of_words, quotient, quotient_of_words,
    quotient_signed, rest, rest_of_words, rest_signed, right_of_word, right_signed,
    right_signed_of_word, signed_quotient_of_words, signed_rest_of_words, sum_of_words,
    upper_mixed, upper_signed, upper_unsigned,
};
use crate::memory::Size;
use crate::{Operation, Trap};

/// What an instruction does.
#[derive(Clone, Copy)]
pub(crate) enum Effect {
    /// It puts a number into its register.
    Put(u64),
    /// It puts the address that is its immediate away from pc into its register.
    PutAddress,
    /// It jumps to the address that is its immediate away from pc.
    Jump,
    /// It jumps to the address that is its immediate away from its first register's.
    JumpTo,
    /// It branches, if that is so.
    Branch(bool),
    /// It loads a number.
    Load(Size),
    /// It loads a number with a sign.
    LoadSigned(Size),
    /// It stores the number in its second register.
    Store(Size),
    /// It does nothing.
    Pass,
    /// It is a call.
    Call,
    /// It can't be done.
    Fail(Trap),
}

/// What an instruction does by its operation, where its registers and its immediate are these numbers.
// It doesn't call on the machine: a match of so many arms that do takes a minute to prove.
#[inline(always)]
pub(crate) fn effect_of(operation: Operation, x: u64, y: u64, number: u64) -> Effect
    ensures { result ≡ effect_of operation x y number }
{
    match operation {
        Operation::Bad => Effect::Fail(Trap::BadInstruction),
        Operation::Lui => Effect::Put(number),
        Operation::Auipc => Effect::PutAddress,
        Operation::Jal => Effect::Jump,
        Operation::Jalr => Effect::JumpTo,
        Operation::Beq => Effect::Branch(x == y),
        Operation::Bne => Effect::Branch(x != y),
        Operation::Blt => Effect::Branch(less_signed(x, y)),
        Operation::Bge => Effect::Branch(!less_signed(x, y)),
        Operation::Bltu => Effect::Branch(x < y),
        Operation::Bgeu => Effect::Branch(x >= y),
        Operation::Lb => Effect::LoadSigned(Size::Byte),
        Operation::Lh => Effect::LoadSigned(Size::Half),
        Operation::Lw => Effect::LoadSigned(Size::Word),
        Operation::Ld => Effect::Load(Size::Double),
        Operation::Lbu => Effect::Load(Size::Byte),
        Operation::Lhu => Effect::Load(Size::Half),
        Operation::Lwu => Effect::Load(Size::Word),
        Operation::Sb => Effect::Store(Size::Byte),
        Operation::Sh => Effect::Store(Size::Half),
        Operation::Sw => Effect::Store(Size::Word),
        Operation::Sd => Effect::Store(Size::Double),
        Operation::Addi => Effect::Put(x.wrapping_add(number)),
        Operation::Slti => Effect::Put(u64::from(less_signed(x, number))),
        Operation::Sltiu => Effect::Put(u64::from(x < number)),
        Operation::Xori => Effect::Put(x ^ number),
        Operation::Ori => Effect::Put(x | number),
        Operation::Andi => Effect::Put(x & number),
        Operation::Slli => Effect::Put(x << (number % 64)),
        Operation::Srli => Effect::Put(x >> (number % 64)),
        Operation::Srai => Effect::Put(right_signed(x, number)),
        Operation::Add => Effect::Put(x.wrapping_add(y)),
        Operation::Sub => Effect::Put(x.wrapping_sub(y)),
        Operation::Sll => Effect::Put(x << (y % 64)),
        Operation::Slt => Effect::Put(u64::from(less_signed(x, y))),
        Operation::Sltu => Effect::Put(u64::from(x < y)),
        Operation::Xor => Effect::Put(x ^ y),
        Operation::Srl => Effect::Put(x >> (y % 64)),
        Operation::Sra => Effect::Put(right_signed(x, y)),
        Operation::Or => Effect::Put(x | y),
        Operation::And => Effect::Put(x & y),
        Operation::Addiw => Effect::Put(sum_of_words(x, number)),
        Operation::Slliw => Effect::Put(left_of_word(x, number)),
        Operation::Srliw => Effect::Put(right_of_word(x, number)),
        Operation::Sraiw => Effect::Put(right_signed_of_word(x, number)),
        Operation::Addw => Effect::Put(sum_of_words(x, y)),
        Operation::Subw => Effect::Put(difference_of_words(x, y)),
        Operation::Sllw => Effect::Put(left_of_word(x, y)),
        Operation::Srlw => Effect::Put(right_of_word(x, y)),
        Operation::Sraw => Effect::Put(right_signed_of_word(x, y)),
        Operation::Fence => Effect::Pass,
        Operation::Ecall => Effect::Call,
        Operation::Ebreak => Effect::Fail(Trap::Breakpoint),
        Operation::Mul => Effect::Put(x.wrapping_mul(y)),
        Operation::Mulh => Effect::Put(upper_signed(x, y)),
        Operation::Mulhsu => Effect::Put(upper_mixed(x, y)),
        Operation::Mulhu => Effect::Put(upper_unsigned(x, y)),
        Operation::Div => Effect::Put(quotient_signed(x, y)),
        Operation::Divu => Effect::Put(quotient(x, y)),
        Operation::Rem => Effect::Put(rest_signed(x, y)),
        Operation::Remu => Effect::Put(rest(x, y)),
        Operation::Mulw => Effect::Put(product_of_words(x, y)),
        Operation::Divw => Effect::Put(signed_quotient_of_words(x, y)),
        Operation::Divuw => Effect::Put(quotient_of_words(x, y)),
        Operation::Remw => Effect::Put(signed_rest_of_words(x, y)),
        Operation::Remuw => Effect::Put(rest_of_words(x, y)),
    }
}
