//! Programs in the place of a model: how one is made of files and of what the words give it.

ghost use Rattle.std.specs.Prelude.{◌≡◌, ℕ, Option, IfOk, IfErr, map};
ghost use Rattle.vt_key.specs.promise.Faults.{option_named};
ghost use Rattle.vt_options.specs.declared.processes.Unsettled.{Unsettled};
ghost use Rattle.vt_options.specs.promise.Processes.{IsUnsettled, Settles};
ghost use Rattle.vt_options.specs.promise.Programs.{pair_of};
ghost use Rattle.vt_program.specs.promise.Programs.{Loads, MayHave, MayHaveData, RefusesProgram, data_name, option_of, set_pair};
ghost use Rattle.vt_program.specs.inside.Programs.{unsettled_refusal};
ghost use Rattle.vt_program.specs.promise.Guests.{IsGuestOf, RunsProgram};

use crate::models::TwarpModel;
use std::alloc::{AllocError, Global};
use thiserror::Error;
use vt_guest::{Guest, Loaded, MAX_DATA, Program, Refusal, Set, load};
use vt_key::{Fault, MAX_PROCESSES};
use vt_model::Config;
use vt_options::{Assignment, ProgramChoice, Unsettled, settled};
use vt_runner::{Files, ReadFault, bytes_of};

/// The most bytes of a program's file: 17 MiB.
pub const MAX_PROGRAM_FILE: usize = 17 * 1_048_576;

/// Why words that choose a program make no model.
#[derive(Debug, Drop, Error)]
pub enum ProgramRefusal {
    /// Memory was refused.
    #[error("memory was refused")]
    Memory,
    /// The program's file isn't read.
    #[error("{0}")]
    File(ReadFault),
    /// The file of its data isn't read.
    #[error("{0}")]
    Data(ReadFault),
    /// The file has no program that may take a model's place, or what is set isn't there.
    #[error("{0}")]
    Load(Refusal),
    /// The program fixes a number of processes that there can't be.
    #[error("it fixes a number of processes that isn't from 1 to {most}", most = MAX_PROCESSES)]
    Processes,
    /// The program fixes this number of processes, and the words give another one.
    #[error("the program fixes {0} processes")]
    Lps(u32),
}

/// The fault of a refusal. It names an option: `program`, `data`, `set` or `lps`.
pub(crate) fn fault_of(refusal: &ProgramRefusal) -> Fault
    ensures named { option_named result ≡ option_of refusal.now }
    ensures memory { refusal.now ≡ ProgramRefusal.Memory → result ≡ Fault.Memory }
{
    match refusal {
        ProgramRefusal::Memory => Fault::Memory,
        ProgramRefusal::File(_) | ProgramRefusal::Processes => Fault::BadOption("program"),
        ProgramRefusal::Data(_) => Fault::BadOption("data"),
        ProgramRefusal::Load(Refusal::Set(_, _)) => Fault::BadOption("set"),
        ProgramRefusal::Load(Refusal::LargeData) => Fault::BadOption("data"),
        ProgramRefusal::Load(_) => Fault::BadOption("program"),
        ProgramRefusal::Lps(_) => Fault::BadOption("lps"),
    }
}

/// The bytes of a program's file.
fn program_bytes<D: Files>(
    alloc: Global,
    files: &D,
    program: &ProgramChoice<'_>,
) -> Result<Vec<u8>, ProgramRefusal>
    ensures ok { IfOk result (λ bytes. MayHave (D.told files.now) program.now.file.now MAX_PROGRAM_FILE bytes.items) }
    ensures err { (lps : Option ℕ) → IfErr result (RefusesProgram (D.told files.now) program.now lps) }
{
    match bytes_of(alloc, files, program.file, MAX_PROGRAM_FILE) {
        Ok(bytes) => Ok(bytes),
        Err(ReadFault::Memory) => Err(ProgramRefusal::Memory),
        Err(fault) => Err(ProgramRefusal::File(fault)),
    }
}

/// The bytes of the file of a program's data: none without a file.
fn data_bytes<D: Files>(
    alloc: Global,
    files: &D,
    program: &ProgramChoice<'_>,
) -> Result<Vec<u8>, ProgramRefusal>
    ensures ok { IfOk result (λ bytes. MayHaveData (D.told files.now) (data_name program.now) bytes.items) }
    ensures err { (lps : Option ℕ) → IfErr result (RefusesProgram (D.told files.now) program.now lps) }
{
    let Some(name) = program.data_file else {
        return Ok(Vec::new(alloc));
    };
    match bytes_of(alloc, files, name, MAX_DATA) {
        Ok(bytes) => Ok(bytes),
        Err(ReadFault::Memory) => Err(ProgramRefusal::Memory),
        Err(fault) => Err(ProgramRefusal::Data(fault)),
    }
}

/// The numbers that are set, as loading takes them. An error means that memory was refused.
fn sets_of(alloc: Global, assignments: &[Assignment<'_>]) -> Result<Vec<Set>, AllocError>
    ensures { IfOk result (λ sets. map set_pair sets.items ≡ map pair_of assignments.now) }
{
    let mut sets = Vec::new(alloc);
    for assignment in assignments {
        sets.push(Set {
            name: String::from_str(alloc, assignment.name)?,
            value: assignment.value,
        })?;
    }
    Ok(sets)
}

/// The program of a file, with what is set and its data.
fn loaded_program<D: Files>(
    alloc: Global,
    files: &D,
    program: &ProgramChoice<'_>,
) -> Result<Loaded, ProgramRefusal>
    ensures ok { IfOk result (λ loaded. Loads (D.told files.now) program.now loaded) }
    ensures err { (lps : Option ℕ) → IfErr result (RefusesProgram (D.told files.now) program.now lps) }
{
    let bytes = program_bytes(alloc, files, program)?;
    let data = data_bytes(alloc, files, program)?;
    let Ok(sets) = sets_of(alloc, program.sets.as_slice()) else {
        return Err(ProgramRefusal::Memory);
    };
    match load(alloc, bytes.as_slice(), sets.as_slice(), data, program.fuel) {
        Ok(loaded) => Ok(loaded),
        Err(Refusal::Memory) => Err(ProgramRefusal::Memory),
        Err(refusal) => Err(ProgramRefusal::Load(refusal)),
    }
}

/// The config with which a program is run that fixes this number of processes, or none. `given` is the number that the words give.
fn settled_config(
    fixed: Option<u64>,
    given: Option<u32>,
    config: Config,
) -> Result<Config, ProgramRefusal>
    ensures ok { IfOk result (λ settled. Settles fixed given config settled) }
    ensures err { IfErr result (λ refusal. (why : Unsettled) × (refusal ≡ unsettled_refusal why) × IsUnsettled fixed given why) }
{
    match settled(fixed, given, config) {
        Ok(config) => Ok(config),
        Err(Unsettled::Count) => Err(ProgramRefusal::Processes),
        Err(Unsettled::Lps(lps)) => Err(ProgramRefusal::Lps(lps)),
    }
}

/// The model whose handlers are a program's, with the least size of states that holds its first state.
fn guest_of(program: Program) -> TwarpModel
    ensures { IsGuestOf program result }
{
    let size = program.first.len();
    if size <= 64 {
        TwarpModel::Guest64(Guest::new(program))
    } else if size <= 256 {
        TwarpModel::Guest256(Guest::new(program))
    } else if size <= 1_024 {
        TwarpModel::Guest1024(Guest::new(program))
    } else {
        TwarpModel::Guest4096(Guest::new(program))
    }
}

/// The model that a program makes, and the config with which it is run. `lps` is the number of processes that the words give.
pub(crate) fn program_model<D: Files>(
    alloc: Global,
    files: &D,
    program: &ProgramChoice<'_>,
    lps: Option<u32>,
    config: Config,
) -> Result<(TwarpModel, Config), ProgramRefusal>
    ensures ok { IfOk result (λ made. RunsProgram (D.told files.now) program.now lps config made.0 made.1) }
    ensures err { IfErr result (RefusesProgram (D.told files.now) program.now lps) }
{
    let loaded = loaded_program(alloc, files, program)?;
    let config = settled_config(loaded.processes, lps, config)?;
    Ok((guest_of(loaded.program), config))
}
