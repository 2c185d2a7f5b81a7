//! Pairs of instructions in a row, for which one instruction can stand.

ghost use Rattle.std.specs.Prelude.{◌≡◌, ◌-◌, ◌<◌, ◌^◌, IfSome};
ghost use Rattle.vt_riscv.specs.inside.Pairs.{constant_at, IsJoined};

use crate::effect::{Effect, effect_of};
use crate::memory::{extended, number_within};
use crate::{DATA, IMAGE, Instruction, Operation};

// What an operation loads from an address, if that lies in the image.
fn constant_at(image: &[u8], operation: Operation, address: u64) -> Option<u64>
    ensures { result ≡ constant_at image.now operation address }
{
    if address < IMAGE || address >= DATA {
        return None;
    }
    match effect_of(operation, 0, 0, 0) {
        Effect::Load(size) => number_within(image, address - IMAGE, size),
        Effect::LoadSigned(size) => {
            let number = number_within(image, address - IMAGE, size)?;
            Some(extended(size, number))
        }
        _ => None,
    }
}

// The bits that are left where so many upper ones are cut off.
fn mask(amount: u64) -> u64
    requires { amount < 64 }
    ensures { result ≡ 2 ^ (64 - amount) - 1 }
{
    u64::MAX >> amount
}

// An instruction with the registers of another.
fn with(i: Instruction, operation: Operation, immediate: u64) -> Instruction
    ensures { result ≡ record { operation = operation; destination = i.destination; first = i.first; second = 0; length = i.length; immediate = immediate } }
{
    Instruction {
        operation,
        destination: i.destination,
        first: i.first,
        second: 0,
        length: i.length,
        immediate,
    }
}

/// An instruction that does what two in a row do, if there is one: a call that keeps what ADDI before it does, ANDI for shifts to the
/// left and back, or LUI for a constant that is loaded. Its length stands for nothing.
pub(crate) fn joined(image: &[u8], i: Instruction, j: Instruction) -> Option<Instruction>
    ensures { IfSome result (λ f. IsJoined image.now i j f) }
{
    if i.destination == 0 {
        return None;
    }
    let over = j.first == i.destination && j.destination == i.destination;
    match (i.operation, j.operation) {
        (Operation::Addi, Operation::Ecall) if j.length == 4 => {
            Some(with(i, Operation::Ecall, i.immediate))
        }
        (Operation::Slli, Operation::Srli)
            if over && i.immediate < 64 && j.immediate == i.immediate => {
            Some(with(i, Operation::Andi, mask(i.immediate)))
        }
        (Operation::Lui, _) if over => {
            let address = i.immediate.wrapping_add(j.immediate);
            Some(with(i, Operation::Lui, constant_at(image, j.operation, address)?))
        }
        _ => None,
    }
}
