//! Instructions as a run of many steps wants them.

ghost use Rattle.std.specs.Prelude.{◌≡◌, ℕ, ◌<◌, ◌≤◌, ◌^◌, List, length, slice_index, IfOk, IfSome};
ghost use Rattle.vt_riscv.specs.declared.instruction.Operation.TheVariants.{Bad};
ghost use Rattle.vt_riscv.specs.declared.ready.TheConstants.{NONE};
ghost use Rattle.vt_riscv.specs.inside.Readiness.{address_at, head_at, ended, head_of, step_of, IsSmall, IsMade, IsReadyAt, AreEnded, IsAimed, AreReady};

use crate::pairs::joined;
use crate::{IMAGE, Instruction, Operation};
use std::alloc::{AllocError, Global};
use std::vec::Vec;

/// What an instruction of a code does, or two that are joined, and with which registers. It is `Bad` where it has to be looked at more
/// closely.
#[derive(Clone, Copy)]
pub(crate) struct Head {
    pub operation: Operation,
    pub destination: u8,
    pub first: u8,
    pub second: u8,
    /// Its index in the code, in units of two bytes.
    pub index: u32,
}

/// The instructions of a code that follow each other from its beginning on, where two that are joined count as one. Each list has
/// something of every one.
#[derive(Drop)]
pub(crate) struct Ready {
    pub heads: Vec<Head>,
    pub immediates: Vec<u64>,
    /// Which instruction a jump or a branch leads to, or none of them.
    pub targets: Vec<u32>,
    /// Which instruction is at an index of the code. A number that is wrong does no harm.
    pub starts: Vec<u32>,
    /// How many steps there are at most from an instruction on without a jump. For the one behind it there are as many fewer as it makes.
    pub rests: Vec<u64>,
}

/// These lists but for the targets.
#[derive(Drop)]
struct Draft {
    heads: Vec<Head>,
    immediates: Vec<u64>,
    starts: Vec<u32>,
    rests: Vec<u64>,
}

/// What stands at an index of a code: one instruction, or two that are joined.
#[derive(Clone, Copy)]
pub(crate) struct Entry {
    pub head: Head,
    pub immediate: u64,
    /// How many indices of the code they take.
    pub span: usize,
    /// How many there are.
    pub steps: u64,
}

// The most instructions of a code that are made ready.
const MOST: usize = 0x8000_0000;

// The number that stands for no instruction.
const NONE: u32 = 0xffff_ffff;

// How many indices of a code an instruction takes.
fn step(i: Instruction, compressed: bool) -> usize
    ensures is { result ≡ step_of compressed i.length }
    ensures some { 1 ≤ result }
    ensures few { result ≤ 2 }
{
    if compressed && i.length == 2 { 1 } else { 2 }
}

// The head that ends the instructions, at an index in the code.
fn ended(index: u32) -> Head
    ensures { result ≡ ended index }
{
    Head {
        operation: Operation::Bad,
        destination: 0,
        first: 0,
        second: 0,
        index,
    }
}

// The head of an instruction at an index in the code, if its registers exist.
fn made(i: Instruction, index: u32) -> Head
    ensures here { result.index ≡ index }
    ensures small { IsSmall result }
    ensures stands { (result.operation ≡ Bad → ⊥) → result ≡ head_of i index }
{
    if i.destination >= 32 || (i.first >= 32 || i.second >= 32) {
        return ended(index);
    }
    Head {
        operation: i.operation,
        destination: i.destination,
        first: i.first,
        second: i.second,
        index,
    }
}

// The instruction at an index in the code. A call that has a register stands for two, so this one has none.
fn one(list: &[Instruction], index: usize, compressed: bool) -> Entry
    requires within { index < length list.now }
    requires few { length list.now ≤ 2 ^ 31 }
    ensures { (image : List ℕ) → IsMade compressed image list.now index result }
{
    let i = list[index];
    let span = step(i, compressed);
    let odd = matches!(i.operation, Operation::Ecall) && (i.destination != 0 || span != 2);
    let head = if odd || usize::from(i.length) != 2 * span {
        ended(index as u32)
    } else {
        made(i, index as u32)
    };
    Entry {
        head,
        immediate: i.immediate,
        span,
        steps: 1,
    }
}

// The one that stands for two from an index in the code on, if one does.
fn two(image: &[u8], list: &[Instruction], index: usize, compressed: bool) -> Option<Entry>
    requires within { index < length list.now }
    requires few { length list.now ≤ 2 ^ 31 }
    ensures { IfSome result (λ e. IsMade compressed image.now list.now index e) }
{
    let i = list[index];
    let span = step(i, compressed);
    let j = *list.get(index + span)?;
    let more = step(j, compressed);
    if usize::from(i.length) != 2 * span || usize::from(j.length) != 2 * more {
        return None;
    }
    let f = joined(image, i, j)?;
    Some(Entry {
        head: made(f, index as u32),
        immediate: f.immediate,
        span: span + more,
        steps: 2,
    })
}

// What stands at an index in the code.
fn entry_at(image: &[u8], list: &[Instruction], index: usize, compressed: bool) -> Entry
    requires within { index < length list.now }
    requires few { length list.now ≤ 2 ^ 31 }
    ensures { IsMade compressed image.now list.now index result }
{
    match two(image, list, index, compressed) {
        Some(entry) => entry,
        None => one(list, index, compressed),
    }
}

// Notes which instruction is at the next index of the code, and none up to another index.
fn note(starts: &mut Vec<u32>, number: u32, end: usize) -> Result<(), AllocError> {
    starts.push(number)?;
    'indices: while starts.len() < end {
        starts.push(NONE)?;
    }
    Ok(())
}

// Drafts the instructions that follow each other from the beginning of a code on.
fn drafted(
    alloc: Global,
    image: &[u8],
    list: &[Instruction],
    compressed: bool,
) -> Result<Draft, AllocError>
    requires { length list.now ≤ 2 ^ 31 }
    ensures few { IfOk result (λ d. length d.heads.items < NONE) }
    ensures immediates { IfOk result (λ d. length d.immediates.items ≡ length d.heads.items) }
    ensures rests { IfOk result (λ d. length d.rests.items ≡ length d.heads.items) }
    ensures ends { IfOk result (λ d. AreEnded d.heads.items) }
    ensures each { IfOk result (λ d. (k : ℕ) → k < length d.heads.items → IsReadyAt compressed image.now list.now d.heads.items d.rests.items (slice_index d.immediates.items k) k) }
{
    let mut heads = Vec::new(alloc);
    let mut immediates = Vec::new(alloc);
    let mut starts = Vec::new(alloc);
    let mut rests = Vec::new(alloc);
    let mut index = 0;
    let mut rest = list.len() as u64;
    'indices: while index < list.len() {
        let entry = entry_at(image, list, index, compressed);
        note(&mut starts, heads.len() as u32, index + entry.span)?;
        heads.push(entry.head)?;
        immediates.push(entry.immediate)?;
        rests.push(rest)?;
        index += entry.span;
        rest -= entry.steps;
    }
    heads.push(ended(index as u32))?;
    immediates.push(0)?;
    rests.push(rest)?;
    Ok(Draft {
        heads,
        immediates,
        starts,
        rests,
    })
}

/// The address of an index in the code.
#[inline(always)]
pub(crate) fn address_at(index: u32) -> u64
    ensures { result ≡ address_at index }
{
    IMAGE + 2 * u64::from(index)
}

/// The address of one of these instructions, or `IMAGE` if there is none of this number.
#[inline(always)]
pub(crate) fn address_of(heads: &[Head], at: usize) -> u64
    ensures { result ≡ address_at (head_at heads.now at).index }
{
    match heads.get(at) {
        Some(head) => address_at(head.index),
        None => IMAGE,
    }
}

/// Which of these instructions is at an address, if one is.
#[inline(always)]
pub(crate) fn head_number(heads: &[Head], starts: &[u32], address: u64) -> Option<u32>
    ensures within { IfSome result (λ n. n < length heads.now) }
    ensures address { IfSome result (λ n. address_at (head_at heads.now n).index ≡ address) }
{
    if address < IMAGE {
        return None;
    }
    let at = *starts.get(((address - IMAGE) / 2) as usize)?;
    let head = heads.get(at as usize)?;
    if address_at(head.index) == address {
        Some(at)
    } else {
        None
    }
}

// Which of these instructions is at an address, or `NONE`.
fn target(heads: &[Head], starts: &[u32], address: u64) -> u32
    requires { length heads.now < NONE }
    ensures { result < length heads.now → address_at (head_at heads.now result).index ≡ address }
{
    match head_number(heads, starts, address) {
        Some(at) => at,
        None => NONE,
    }
}

// Which of these instructions each one leads to that jumps or branches, or `NONE`.
fn targets(
    alloc: Global,
    heads: &[Head],
    immediates: &[u64],
    starts: &[u32],
) -> Result<Vec<u32>, AllocError>
    requires few { length heads.now < NONE }
    requires many { length immediates.now ≡ length heads.now }
    ensures count { IfOk result (λ all. length all.items ≡ length heads.now) }
    ensures each { IfOk result (λ all. (k : ℕ) → k < length heads.now → IsAimed heads.now (slice_index immediates.now k) (slice_index all.items k) k) }
{
    let mut all = Vec::new(alloc);
    'instructions: while all.len() < heads.len() {
        let at = all.len();
        let address = address_at(heads[at].index).wrapping_add(immediates[at]);
        all.push(target(heads, starts, address))?;
    }
    Ok(all)
}

/// The instructions of a code, or none of one that has very many.
pub(crate) fn ready_all(
    alloc: Global,
    image: &[u8],
    list: &[Instruction],
    compressed: bool,
) -> Result<Ready, AllocError>
    ensures { IfOk result (λ ready. AreReady compressed image.now list.now ready.heads.items ready.immediates.items ready.targets.items ready.rests.items) }
{
    if list.len() > MOST {
        return Ok(Ready {
            heads: Vec::new(alloc),
            immediates: Vec::new(alloc),
            targets: Vec::new(alloc),
            starts: Vec::new(alloc),
            rests: Vec::new(alloc),
        });
    }
    let draft = drafted(alloc, image, list, compressed)?;
    let Draft {
        heads,
        immediates,
        starts,
        rests,
    } = draft;
    let targets = targets(
        alloc,
        heads.as_slice(),
        immediates.as_slice(),
        starts.as_slice(),
    )?;
    Ok(Ready {
        heads,
        immediates,
        targets,
        starts,
        rests,
    })
}
