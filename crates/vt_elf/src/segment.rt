//! The loadable segments, and the regions of memory that they may lie in.

ghost use Rattle.std.specs.Prelude.{◌≡◌, ◌+◌, ◌^◌, ◌<◌, ◌≤◌, ◌&&◌, IfOk, IfErr, length, nat_le, nat_lt, true};
ghost use Rattle.std.specs.List.{AllByRecursion};
ghost use Rattle.std.specs.Result.{result_err};
ghost use Rattle.vt_elf.specs.promise.Executables.{has_program_headers, segments};
ghost use Rattle.vt_elf.specs.promise.Segments.{base_of, limit_of, excess_of, is_executable, is_writable, region_of, is_in, region_fault, segment_fault, segments_fault, is_loaded, segment_at, end_of, reach};
ghost use Rattle.vt_elf.specs.declared.refusal.Refusal.TheVariants.{Memory};

use crate::fields::{double_at, is_inside, word_at};
use crate::header::{program_header, program_header_count};
use crate::refusal::Refusal;
use std::alloc::Global;

/// Where code and constants begin.
pub const IMAGE: u64 = 0x1_0000;

/// The most bytes of code.
pub const MAX_CODE: u64 = 0x10_0000;

/// The most bytes of code and constants.
pub const MAX_IMAGE: u64 = 0x100_0000;

/// Where the state begins.
pub const STATE: u64 = 0x4000_0000;

/// The most bytes of a state.
pub const MAX_STATE: u64 = 4_096;

/// The type of a program header of a loadable segment.
const PT_LOAD: u32 = 1;

/// What a segment holds.
#[derive(Clone, Copy)]
pub(crate) enum Region {
    Code,
    Constants,
    State,
}

impl Region {
    /// Where the region begins.
    fn base(self) -> u64
        ensures { result ≡ base_of self }
    {
        match self {
            Region::Code | Region::Constants => IMAGE,
            Region::State => STATE,
        }
    }

    /// The most bytes of the region.
    fn limit(self) -> u64
        ensures { result ≡ limit_of self }
    {
        match self {
            Region::Code => MAX_CODE,
            Region::Constants => MAX_IMAGE,
            Region::State => MAX_STATE,
        }
    }

    /// What is answered where a segment ends past the region.
    fn excess(self) -> Refusal
        ensures { result ≡ excess_of self }
    {
        match self {
            Region::Code => Refusal::CodeTooLarge,
            Region::Constants => Refusal::ImageTooLarge,
            Region::State => Refusal::StateTooLarge,
        }
    }
}

/// A loadable segment.
#[derive(Clone, Copy)]
pub(crate) struct Segment {
    pub flags: u32,
    pub offset: u64,
    pub address: u64,
    pub file_size: u64,
    pub memory_size: u64,
}

impl Segment {
    fn is_executable(&self) -> bool
        ensures { result ≡ is_executable self.now }
    {
        self.flags % 2 == 1
    }

    fn is_writable(&self) -> bool
        ensures { result ≡ is_writable self.now }
    {
        self.flags / 2 % 2 == 1
    }

    fn region(&self) -> Region
        ensures { result ≡ region_of self.now }
    {
        if self.is_writable() {
            Region::State
        } else if self.is_executable() {
            Region::Code
        } else {
            Region::Constants
        }
    }

    fn is_in(&self, region: Region) -> bool
        ensures { result ≡ is_in region self.now }
    {
        match region {
            Region::Code => self.is_executable(),
            Region::Constants => !self.is_executable() && !self.is_writable(),
            Region::State => self.is_writable(),
        }
    }

    /// Whether the segment begins within so many bytes from an address on.
    pub(crate) fn begins_within(&self, base: u64, size: usize) -> bool
        ensures { result ≡ (nat_le base self.now.address && nat_lt self.now.address (base + size)) }
    {
        base <= self.address && self.address - base < size as u64
    }

    /// Whether the segment lies within its region, and which refusal tells that it doesn't.
    fn check_region(&self, only_code: bool) -> Result<(), Refusal>
        ensures { result_err result ≡ region_fault only_code self.now }
    {
        let region = self.region();
        let end = region.base() + region.limit();
        if self.address < region.base()
            || self.address >= end
            || (!only_code && self.is_executable())
        {
            return Err(Refusal::OutsideRegion(self.address));
        }
        if self.memory_size > end - self.address {
            return Err(region.excess());
        }
        Ok(())
    }

    /// Refuses a segment of a file of `size` bytes, behind segments that end at `before`, of which all are code or not.
    fn check(&self, size: usize, before: u64, only_code: bool) -> Result<(), Refusal>
        ensures { result_err result ≡ segment_fault size before only_code self.now }
    {
        if self.is_writable() && self.is_executable() {
            return Err(Refusal::WritableCode(self.address));
        }
        if self.file_size > self.memory_size || !is_inside(self.offset, self.file_size, size) {
            return Err(Refusal::OutsideFile(self.address));
        }
        if self.address < before {
            return Err(Refusal::Overlap(self.address));
        }
        self.check_region(only_code)
    }
}

/// Whether the program header at an offset is one of a segment that has bytes in memory.
fn is_loaded(bytes: &[u8], at: usize) -> bool
    requires { at + 56 ≤ length bytes.now }
    ensures { result ≡ is_loaded bytes.now at }
{
    word_at(bytes, at) == PT_LOAD && double_at(bytes, at + 40) != 0
}

/// The segment of the program header at an offset.
fn segment_at(bytes: &[u8], at: usize) -> Segment
    requires { at + 56 ≤ length bytes.now }
    ensures { result ≡ segment_at bytes.now at }
{
    Segment {
        flags: word_at(bytes, at + 4),
        offset: double_at(bytes, at + 8),
        address: double_at(bytes, at + 16),
        file_size: double_at(bytes, at + 32),
        memory_size: double_at(bytes, at + 40),
    }
}

/// The loadable segments, in the order of the program headers.
pub(crate) fn read_segments(alloc: Global, bytes: &[u8]) -> Result<Vec<Segment>, Refusal>
    requires header { 64 ≤ length bytes.now }
    requires headers { has_program_headers bytes.now ≡ true }
    ensures segments { IfOk result (λ found. found.items ≡ segments bytes.now) }
    ensures refused { IfErr result (λ refusal. refusal ≡ Memory) }
{
    let mut found = Vec::new(alloc);
    for index in 0..program_header_count(bytes) {
        let at = program_header(bytes, index);
        if is_loaded(bytes, at) {
            let Ok(()) = found.push(segment_at(bytes, at)) else {
                return Err(Refusal::Memory);
            };
        }
    }
    Ok(found)
}

/// Refuses segments that a file of `size` bytes doesn't hold whole, that overlap, that aren't in rising order, or that lie
/// outside of their regions.
pub(crate) fn check_segments(segments: &[Segment], size: usize) -> Result<(), Refusal>
    ensures { result_err result ≡ segments_fault size 0 true segments.now }
{
    let mut before = 0;
    let mut only_code = true;
    for segment in segments {
        segment.check(size, before, only_code)?;
        before = segment.address + segment.memory_size;
        only_code = only_code && segment.is_executable();
    }
    Ok(())
}

/// Where the segments of a region end: their greatest end, or `least` if that is more.
pub(crate) fn reach(region: Region, least: u64, segments: &[Segment]) -> u64
    requires { AllByRecursion (λ s. end_of s < 2 ^ 64) segments.now }
    ensures { result ≡ reach region least segments.now }
{
    let mut end = least;
    for segment in segments {
        if segment.is_in(region) {
            end = end.max(segment.address + segment.memory_size);
        }
    }
    end
}
