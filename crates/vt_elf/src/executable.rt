//! Executables, read from the bytes of a file.

ghost use Rattle.std.specs.Prelude.{◌≡◌, ◌⊎◌, ℕ, ◌+◌, ◌-◌, ◌<◌, ◌≤◌, IfErr, IfOk, MatchResult, None, Some, length, slice_index};
ghost use Rattle.vt_elf.specs.promise.Segments.{code_end, image_end, state_end, memory_byte};
ghost use Rattle.vt_elf.specs.promise.Executables.{fault_of, segments, is_compressed, IsSymbolsOf};
ghost use Rattle.vt_elf.specs.inside.Symbols.{IsTable};
ghost use Rattle.vt_elf.specs.inside.Parts.{AreParts};
ghost use Rattle.vt_elf.specs.declared.refusal.Refusal.TheVariants.{Memory};

use crate::header::{check_header, is_compressed};
use crate::loading::load;
use crate::refusal::Refusal;
use crate::segment::{
    IMAGE, MAX_CODE, MAX_IMAGE, MAX_STATE, Region, STATE, Segment, check_segments, reach,
    read_segments,
};
use crate::symbols::{Symbols, find_symbols, names_section, section_bytes};
use std::alloc::Global;

/// A static executable for 64-bit RISC-V, as it lies in a file.
#[derive(Drop)]
pub struct Executable {
    /// Whether instructions may be compressed.
    pub is_compressed: bool,
    /// Code and constants: what lies in memory from [`IMAGE`] on.
    pub image: Vec<u8>,
    /// How many bytes of the image, from its first one on, are code.
    pub code_size: usize,
    /// What lies in memory from [`STATE`] on before anything runs.
    pub first_state: Vec<u8>,
    /// Which names stand for which addresses.
    pub symbols: Symbols,
}

/// Reads an executable from the bytes of a file. Bytes of a segment that the file doesn't have, and bytes between segments, are
/// zero. An error tells the first thing that is wrong with the file, or that memory ran out.
pub fn read_executable(alloc: Global, bytes: &[u8]) -> Result<Executable, Refusal>
    // It is refused for what is wrong with it, and for nothing else but memory.
    ensures refused { MatchResult result (λ _. fault_of bytes.now ≡ None) (λ refusal. (refusal ≡ Memory) ⊎ (fault_of bytes.now ≡ Some refusal)) }
    ensures compressed { IfOk result (λ executable. executable.is_compressed ≡ is_compressed bytes.now) }
    ensures code { IfOk result (λ executable. executable.code_size ≡ code_end (segments bytes.now) - IMAGE) }
    ensures image_size { IfOk result (λ executable. length executable.image.items ≡ image_end (segments bytes.now) - IMAGE) }
    ensures image { IfOk result (λ executable. (k : ℕ) → k < length executable.image.items → slice_index executable.image.items k ≡ memory_byte bytes.now (segments bytes.now) (IMAGE + k)) }
    ensures state_size { IfOk result (λ executable. length executable.first_state.items ≡ state_end (segments bytes.now) - STATE) }
    ensures state { IfOk result (λ executable. (k : ℕ) → k < length executable.first_state.items → slice_index executable.first_state.items k ≡ memory_byte bytes.now (segments bytes.now) (STATE + k)) }
    ensures symbols { IfOk result (λ executable. IsSymbolsOf bytes.now executable.symbols) }
    // The image and the state aren't longer than their regions.
    ensures code_first { IfOk result (λ executable. executable.code_size ≤ length executable.image.items) }
    ensures code_limit { IfOk result (λ executable. executable.code_size ≤ MAX_CODE) }
    ensures image_limit { IfOk result (λ executable. length executable.image.items ≤ MAX_IMAGE) }
    ensures state_limit { IfOk result (λ executable. length executable.first_state.items ≤ MAX_STATE) }
{
    let (found, section) = match read_parts(alloc, bytes) {
        Ok(parts) => parts,
        Err(refusal) => return Err(refusal),
    };
    let segments = found.as_slice();
    let code_end = reach(Region::Code, IMAGE, segments);
    let image_end = reach(Region::Constants, code_end, segments);
    let state_end = reach(Region::State, STATE, segments);
    let Ok(image) = load(alloc, bytes, segments, IMAGE, (image_end - IMAGE) as usize) else {
        return Err(Refusal::Memory);
    };
    let Ok(first_state) = load(alloc, bytes, segments, STATE, (state_end - STATE) as usize) else {
        return Err(Refusal::Memory);
    };
    let Ok(symbols) = read_symbols(alloc, bytes, section) else {
        return Err(Refusal::Memory);
    };
    Ok(Executable {
        is_compressed: is_compressed(bytes),
        image,
        code_size: (code_end - IMAGE) as usize,
        first_state,
        symbols,
    })
}

/// The segments of a file that is such an executable, and which section is its symbol table.
fn read_parts(alloc: Global, bytes: &[u8]) -> Result<(Vec<Segment>, usize), Refusal>
    ensures refused { MatchResult result (λ _. fault_of bytes.now ≡ None) (λ refusal. (refusal ≡ Memory) ⊎ (fault_of bytes.now ≡ Some refusal)) }
    ensures parts { IfOk result (λ parts. AreParts bytes.now parts.0.items parts.1) }
{
    if let Err(refusal) = check_header(bytes) {
        return Err(refusal);
    }
    let Ok(found) = read_segments(alloc, bytes) else {
        return Err(Refusal::Memory);
    };
    if let Err(refusal) = check_segments(found.as_slice(), bytes.len()) {
        return Err(refusal);
    }
    match find_symbols(bytes) {
        Ok(section) => Ok((found, section)),
        Err(refusal) => Err(refusal),
    }
}

/// The symbols of the table that is a section of the file.
fn read_symbols(alloc: Global, bytes: &[u8], section: usize) -> Result<Symbols, Refusal>
    requires header { 64 ≤ length bytes.now }
    requires table { IsTable bytes.now section }
    ensures symbols { IfOk result (λ symbols. IsSymbolsOf bytes.now symbols) }
    ensures refused { IfErr result (λ refusal. refusal ≡ Memory) }
{
    let names = names_section(bytes, section);
    Ok(Symbols {
        table: Vec::from_slice(alloc, section_bytes(bytes, section))?,
        names: Vec::from_slice(alloc, section_bytes(bytes, names))?,
    })
}
