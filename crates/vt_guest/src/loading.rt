//! Programs from executables.

ghost use Rattle.std.specs.Prelude.{◌≡◌, ◌⊎◌, ◌+◌, ◌≤◌, ◌^◌, None, Some, true, IfOk, IfErr, MatchResult, length, option_map, codes};
ghost use Rattle.std.specs.Option.{IfNone, IsSome};
ghost use Rattle.std.specs.String.{string_bytes};
ghost use Rattle.vt_riscv.specs.declared.layout.TheConstants.{IMAGE, STATE};
ghost use Rattle.vt_elf.specs.promise.Symbols.{function_named, object_named};
ghost use Rattle.vt_guest.specs.promise.Loading.{is_inside, is_number, with_number, with_found, with_sets, object_fault, set_fault, sets_fault, number_in, number_of_object, processes_object, processes_fault, entries_wrong, set_refused, IsExecutableRefused, IsAssembled, IsLoaded, IsRefused};
ghost use Rattle.vt_guest.specs.declared.loading.Refusal.TheVariants.{Memory};

use crate::guest::Program;
use std::alloc::{AllocError, Global};
use std::error::Error;
use std::fmt;
use vt_elf::{Executable, Object, Symbols, read_executable};
use vt_riscv::{Code, IMAGE, STATE};

/// The most bytes of a data file: 16 MiB.
pub const MAX_DATA: usize = 16_777_216;

/// A number that a global object of a program is to have before the run.
#[derive(Drop)]
pub struct Set {
    /// The object's name.
    pub name: String,
    /// The number. An object of 4 bytes takes one below 2^32.
    pub value: u64,
}

/// A program, and what its file says about the run.
#[derive(Drop)]
pub struct Loaded {
    /// The program.
    pub program: Program,
    /// The number of processes: what the object `processes` has, if there is one.
    pub processes: Option<u64>,
}

/// Why an object can't be set or read.
#[derive(Debug, Clone, Copy, PartialEq, Eq)]
pub enum ObjectFault {
    /// The program has no object of this name.
    Unknown,
    /// It is no number of 4 or 8 bytes.
    OtherSize,
    /// It lies neither in the constants nor in the state.
    Outside,
    /// It has 4 bytes, and the number needs more.
    TooLarge,
}

impl fmt::Display for ObjectFault {
    fn fmt<W: fmt::Write>(&self, f: &mut fmt::Formatter<W>) -> fmt::Result {
        let text = match self {
            ObjectFault::Unknown => "the program has no such object",
            ObjectFault::OtherSize => "it has neither 4 nor 8 bytes",
            ObjectFault::Outside => "it lies outside of constants and state",
            ObjectFault::TooLarge => "it has 4 bytes, and the number is 2^32 or more",
        };
        f.write_str(text)
    }
}

impl Error for ObjectFault {}

/// Why there is no program.
#[derive(Debug, Drop)]
pub enum Refusal {
    /// The file is no executable that can be taken.
    Executable(vt_elf::Refusal),
    /// The data file has more than [`MAX_DATA`] bytes.
    LargeData,
    /// The program has no function `start`.
    NoStart,
    /// The program has no function `forward`.
    NoForward,
    /// The program has no function `finish`.
    NoFinish,
    /// An object can't be set.
    Set(String, ObjectFault),
    /// The number of processes can't be read.
    Processes(ObjectFault),
    /// The machine refused memory.
    Memory,
}

impl fmt::Display for Refusal {
    fn fmt<W: fmt::Write>(&self, f: &mut fmt::Formatter<W>) -> fmt::Result {
        let text = match self {
            Refusal::Executable(refusal) => return write!(f, "{refusal}"),
            Refusal::Set(name, fault) => return write!(f, "{name} can't be set: {fault}"),
            Refusal::Processes(fault) => return write!(f, "processes can't be read: {fault}"),
            Refusal::LargeData => "the data file has more than 16 MiB",
            Refusal::NoStart => "it has no function named start",
            Refusal::NoForward => "it has no function named forward",
            Refusal::NoFinish => "it has no function named finish",
            Refusal::Memory => "there is too little memory for it",
        };
        f.write_str(text)
    }
}

impl Error for Refusal {}

impl From<AllocError> for Refusal {
    ghost from_gives = { λ _ refusal. refusal ≡ Memory };

    fn from(_: AllocError) -> Refusal {
        Refusal::Memory
    }
}

// Where the handlers begin.
#[derive(Clone, Copy)]
struct Entries {
    start: u64,
    forward: u64,
    finish: u64,
}

fn find_entries(symbols: &Symbols) -> Result<Entries, Refusal>
    ensures start { IfOk result (λ entries. Some entries.start ≡ function_named symbols.now (codes "start")) }
    ensures forward { IfOk result (λ entries. Some entries.forward ≡ function_named symbols.now (codes "forward")) }
    ensures finish { IfOk result (λ entries. Some entries.finish ≡ function_named symbols.now (codes "finish")) }
    ensures fault { MatchResult result (λ _. entries_wrong symbols.now ≡ None) (λ refusal. entries_wrong symbols.now ≡ Some refusal) }
{
    let Some(start) = symbols.address_of(b"start") else {
        return Err(Refusal::NoStart);
    };
    let Some(forward) = symbols.address_of(b"forward") else {
        return Err(Refusal::NoForward);
    };
    let Some(finish) = symbols.address_of(b"finish") else {
        return Err(Refusal::NoFinish);
    };
    Ok(Entries {
        start,
        forward,
        finish,
    })
}

// Whether an object lies within so many bytes from a base on.
fn is_inside(base: u64, size: usize, object: Object) -> bool
    ensures { result ≡ is_inside base size object }
{
    let size = size as u64;
    object.address >= base
        && object.address - base <= size
        && object.size <= size - (object.address - base)
}

// Why an object can't be read, where image and state have so many bytes.
fn object_fault(image: usize, state: usize, object: Object) -> Option<ObjectFault>
    ensures { result ≡ object_fault image state object }
{
    if object.size != 4 && object.size != 8 {
        return Some(ObjectFault::OtherSize);
    }
    if !(is_inside(IMAGE, image, object) || is_inside(STATE, state, object)) {
        return Some(ObjectFault::Outside);
    }
    None
}

// Puts a number into memory from a base on, if the object lies there.
fn put(base: u64, bytes: &mut [u8], object: Object, value: u64)
    requires { is_number object ≡ true }
    ensures bytes { bytes.new ≡ with_number base object value bytes.old }
    ensures size { length bytes.new ≡ length bytes.old }
{
    if !is_inside(base, bytes.len(), object) {
        return;
    }
    let at = (object.address - base) as usize;
    if object.size == 4 {
        let low = (value % 0x1_0000_0000) as u32;
        bytes[at..at + 4].copy_from_slice(&low.to_le_bytes());
    } else {
        bytes[at..at + 8].copy_from_slice(&value.to_le_bytes());
    }
}

// Sets an object, unless there is a fault, which it tells.
fn set_one(symbols: &Symbols, set: &Set, image: &mut [u8], state: &mut [u8]) -> Option<ObjectFault>
    ensures fault { result ≡ set_fault symbols.now (length image.old) (length state.old) set.now }
    ensures image_size { length image.new ≡ length image.old }
    ensures state_size { length state.new ≡ length state.old }
    ensures image { IfNone result (image.new ≡ with_found IMAGE set.now.value image.old (object_named symbols.now (string_bytes set.now.name))) }
    ensures state { IfNone result (state.new ≡ with_found STATE set.now.value state.old (object_named symbols.now (string_bytes set.now.name))) }
{
    let Some(object) = symbols.object(set.name.as_bytes()) else {
        return Some(ObjectFault::Unknown);
    };
    if let Some(fault) = object_fault(image.len(), state.len(), object) {
        return Some(fault);
    }
    if object.size != 8 && set.value >= 0x1_0000_0000 {
        return Some(ObjectFault::TooLarge);
    }
    put(IMAGE, image, object, set.value);
    put(STATE, state, object, set.value);
    None
}

// Sets the objects one after the other.
fn set_all(
    symbols: &Symbols,
    sets: &[Set],
    image: &mut [u8],
    state: &mut [u8],
) -> Result<(), Refusal>
    ensures fine { IfOk result (λ _. sets_fault symbols.now (length image.old) (length state.old) sets.now ≡ None) }
    ensures image { IfOk result (λ _. image.new ≡ with_sets IMAGE symbols.now sets.now image.old) }
    ensures state { IfOk result (λ _. state.new ≡ with_sets STATE symbols.now sets.now state.old) }
    ensures refused { IfErr result (λ refusal. (refusal ≡ Memory) ⊎ (IsSome (sets_fault symbols.now (length image.old) (length state.old) sets.now) × (set_refused refusal ≡ sets_fault symbols.now (length image.old) (length state.old) sets.now))) }
{
    'sets: for set in sets {
        match set_one(symbols, set, image, state) {
            None => {}
            Some(fault) => return Err(Refusal::Set(set.name.clone()?, fault)),
        }
    }
    Ok(())
}

// The number at an object in memory from a base on.
fn number_in(base: u64, bytes: &[u8], object: Object) -> u64
    requires inside { is_inside base (length bytes.now) object ≡ true }
    requires number { is_number object ≡ true }
    ensures { result ≡ number_in base object bytes.now }
{
    let at = (object.address - base) as usize;
    if object.size == 4 {
        return u64::from(u32::from_le_bytes([
            bytes[at],
            bytes[at + 1],
            bytes[at + 2],
            bytes[at + 3],
        ]));
    }
    u64::from_le_bytes([
        bytes[at],
        bytes[at + 1],
        bytes[at + 2],
        bytes[at + 3],
        bytes[at + 4],
        bytes[at + 5],
        bytes[at + 6],
        bytes[at + 7],
    ])
}

// The number of processes, if the program says it.
fn find_processes(symbols: &Symbols, image: &[u8], state: &[u8]) -> Result<Option<u64>, Refusal>
    ensures fault { MatchResult result (λ _. processes_fault (length image.now) (length state.now) (processes_object symbols.now) ≡ None) (λ refusal. processes_fault (length image.now) (length state.now) (processes_object symbols.now) ≡ Some refusal) }
    ensures found { IfOk result (λ processes. processes ≡ option_map (number_of_object image.now state.now) (processes_object symbols.now)) }
{
    let Some(object) = symbols.object(b"processes") else {
        return Ok(None);
    };
    if let Some(fault) = object_fault(image.len(), state.len(), object) {
        return Err(Refusal::Processes(fault));
    }
    if is_inside(IMAGE, image.len(), object) {
        return Ok(Some(number_in(IMAGE, image, object)));
    }
    Ok(Some(number_in(STATE, state, object)))
}

// The program of an executable, with these objects set and these data.
fn assemble(
    alloc: Global,
    executable: Executable,
    sets: &[Set],
    input: Vec<u8>,
    fuel: u64,
) -> Result<Loaded, Refusal>
    ensures assembled { IfOk result (IsAssembled executable sets.now input.items fuel) }
    ensures refused { IfErr result (λ refusal. (refusal ≡ Memory) ⊎ (IsExecutableRefused executable sets.now refusal)) }
{
    let Executable {
        is_compressed,
        mut image,
        code_size,
        mut first_state,
        symbols,
    } = executable;
    let entries = find_entries(&symbols)?;
    // Before `Code::new`, which decodes what it is handed.
    set_all(&symbols, sets, &mut image, &mut first_state)?;
    let processes = find_processes(&symbols, &image, &first_state)?;
    let Ok(code) = Code::new(alloc, image, code_size, input, is_compressed) else {
        return Err(Refusal::Memory);
    };
    let Entries {
        start,
        forward,
        finish,
    } = entries;
    let program = Program {
        code,
        first: first_state,
        start,
        forward,
        finish,
        fuel,
    };
    Ok(Loaded { program, processes })
}

/// The program of an executable's bytes, with these objects set and these data, of which a handler makes at most `fuel` steps.
/// A later set of an object replaces an earlier one. An error tells the first thing that is wrong: with the file, the data, the
/// handlers' names, the sets and the number of processes, in this order.
pub fn load(
    alloc: Global,
    bytes: &[u8],
    sets: &[Set],
    input: Vec<u8>,
    fuel: u64,
) -> Result<Loaded, Refusal>
    ensures loaded { IfOk result (λ loaded. IsLoaded bytes.now sets.now input.items fuel loaded) }
    ensures refused { IfErr result (λ refusal. (refusal ≡ Memory) ⊎ IsRefused bytes.now sets.now input.items refusal) }
{
    let executable = match read_executable(alloc, bytes) {
        Ok(executable) => executable,
        Err(vt_elf::Refusal::Memory) => return Err(Refusal::Memory),
        Err(refusal) => return Err(Refusal::Executable(refusal)),
    };
    if input.len() > MAX_DATA {
        return Err(Refusal::LargeData);
    }
    assemble(alloc, executable, sets, input, fuel)
}
