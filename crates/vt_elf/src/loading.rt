//! The memory that segments describe.

ghost use Rattle.std.specs.Prelude.{◌≡◌, ℕ, ◌+◌, ◌^◌, ◌<◌, ◌≤◌, IfOk, IfErr, if◌then◌else◌, length, slice_index};
ghost use Rattle.std.specs.List.{AllByRecursion};
ghost use Rattle.vt_elf.specs.promise.Segments.{file_byte, has_byte, memory_byte};
ghost use Rattle.vt_elf.specs.inside.Segments.{IsApart};
ghost use Rattle.vt_elf.specs.declared.refusal.Refusal.TheVariants.{Memory};

use crate::refusal::Refusal;
use crate::segment::Segment;
use std::alloc::Global;

/// So many bytes of memory from an address on: those that the segments have in the file, and zeros elsewhere.
pub(crate) fn load(
    alloc: Global,
    bytes: &[u8],
    segments: &[Segment],
    base: u64,
    size: usize,
) -> Result<Vec<u8>, Refusal>
    requires apart { AllByRecursion (IsApart bytes.now base (base + size)) segments.now }
    requires fits { base + size < 2 ^ 64 }
    ensures size { IfOk result (λ memory. length memory.items ≡ size) }
    ensures bytes { IfOk result (λ memory. (k : ℕ) → k < size → slice_index memory.items k ≡ memory_byte bytes.now segments.now (base + k)) }
    ensures refused { IfErr result (λ refusal. refusal ≡ Memory) }
{
    let mut memory = vec![in alloc; 0u8; size]?;
    for index in (0..segments.len()).rev() {
        put(&mut memory, base, &segments[index], bytes);
    }
    Ok(memory)
}

/// Puts the bytes that a segment has in the file into the memory from `base` on, if it begins there.
fn put(memory: &mut [u8], base: u64, segment: &Segment, bytes: &[u8])
    requires apart { IsApart bytes.now base (base + length memory.old) segment.now }
    requires fits { base + length memory.old < 2 ^ 64 }
    ensures { (k : ℕ) → k < length memory.new → slice_index memory.new k ≡ (if has_byte segment.now (base + k) then file_byte bytes.now segment.now (base + k) else slice_index memory.old k) }
{
    if !segment.begins_within(base, memory.len()) {
        return;
    }
    let from = segment.offset as usize;
    let to = (segment.address - base) as usize;
    let count = segment.file_size as usize;
    memory[to..to + count].copy_from_slice(&bytes[from..from + count]);
}
