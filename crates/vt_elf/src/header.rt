//! The file header, and whether it is one of a static executable for 64-bit RISC-V.

ghost use Rattle.std.specs.Prelude.{◌≡◌, ◌+◌, ◌*◌, ◌<◌, ◌≤◌, length, true};
ghost use Rattle.std.specs.Option.{is_some};
ghost use Rattle.std.specs.Result.{result_err};
ghost use Rattle.vt_elf.specs.promise.Fields.{e_phnum, program_header};
ghost use Rattle.vt_elf.specs.promise.Symbols.{first_below};
ghost use Rattle.vt_elf.specs.promise.Executables.{is_elf, is_for_riscv, has_program_headers, is_dynamic, header_fault, is_compressed};

use crate::fields::{double_at, half_at, is_inside, word_at};
use crate::refusal::Refusal;

/// The size of a file header.
const HEADER_SIZE: usize = 64;

/// The size of a program header.
const PROGRAM_HEADER_SIZE: usize = 56;

/// The first types of program headers.
const PT_DYNAMIC: u32 = 2;

const PT_INTERP: u32 = 3;

/// Refuses a file whose headers aren't those of a static executable for 64-bit RISC-V.
pub(crate) fn check_header(bytes: &[u8]) -> Result<(), Refusal>
    ensures { result_err result ≡ header_fault bytes.now }
{
    if !is_elf(bytes) {
        return Err(Refusal::NotElf);
    }
    if !is_for_riscv(bytes) {
        return Err(Refusal::OtherMachine);
    }
    if half_at(bytes, 16) != 2 {
        return Err(Refusal::NotStatic);
    }
    if !has_program_headers(bytes) {
        return Err(Refusal::DamagedHeaders);
    }
    if is_any_dynamic(bytes) {
        return Err(Refusal::NotStatic);
    }
    Ok(())
}

fn is_elf(bytes: &[u8]) -> bool
    ensures { result ≡ is_elf bytes.now }
{
    bytes.len() >= HEADER_SIZE
        && bytes[0] == 0x7f
        && bytes[1] == b'E'
        && bytes[2] == b'L'
        && bytes[3] == b'F'
}

fn is_for_riscv(bytes: &[u8]) -> bool
    requires { 64 ≤ length bytes.now }
    ensures { result ≡ is_for_riscv bytes.now }
{
    bytes[4] == 2
        && bytes[5] == 1
        && bytes[6] == 1
        && word_at(bytes, 20) == 1
        && half_at(bytes, 18) == 243
}

fn has_program_headers(bytes: &[u8]) -> bool
    requires { 64 ≤ length bytes.now }
    ensures { result ≡ has_program_headers bytes.now }
{
    let count = half_at(bytes, 56);
    half_at(bytes, 54) == 56
        && count < 0xffff
        && is_inside(double_at(bytes, 32), 56 * u64::from(count), bytes.len())
}

/// How many program headers there are.
pub(crate) fn program_header_count(bytes: &[u8]) -> usize
    requires { 64 ≤ length bytes.now }
    ensures { result ≡ e_phnum bytes.now }
{
    usize::from(half_at(bytes, 56))
}

/// Where a program header begins.
pub(crate) fn program_header(bytes: &[u8], index: usize) -> usize
    requires header { 64 ≤ length bytes.now }
    requires headers { has_program_headers bytes.now ≡ true }
    requires below { index < e_phnum bytes.now }
    ensures offset { result ≡ program_header bytes.now index }
    ensures inside { result + 56 ≤ length bytes.now }
{
    double_at(bytes, 32) as usize + PROGRAM_HEADER_SIZE * index
}

/// Whether a program header wants a dynamic linker.
fn is_dynamic(bytes: &[u8], index: usize) -> bool
    requires header { 64 ≤ length bytes.now }
    requires headers { has_program_headers bytes.now ≡ true }
    requires below { index < e_phnum bytes.now }
    ensures { result ≡ is_dynamic bytes.now index }
{
    let header_type = word_at(bytes, program_header(bytes, index));
    header_type == PT_DYNAMIC || header_type == PT_INTERP
}

/// Whether any program header does.
fn is_any_dynamic(bytes: &[u8]) -> bool
    requires header { 64 ≤ length bytes.now }
    requires headers { has_program_headers bytes.now ≡ true }
    ensures { result ≡ is_some (first_below (is_dynamic bytes.now) (e_phnum bytes.now)) }
{
    for index in 0..program_header_count(bytes) {
        if is_dynamic(bytes, index) {
            return true;
        }
    }
    false
}

/// Whether instructions may be compressed.
pub(crate) fn is_compressed(bytes: &[u8]) -> bool
    requires { 64 ≤ length bytes.now }
    ensures { result ≡ is_compressed bytes.now }
{
    word_at(bytes, 48) % 2 == 1
}
