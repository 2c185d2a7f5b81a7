//! What a terminal is told after a refusal.

ghost use Rattle.std.specs.Prelude.{◌≡◌, ◌⊎◌, Some, IfSome, codes, map, string_bytes};
ghost use Rattle.clap.specs.Words.{Text};
ghost use Rattle.vt_options.specs.inside.Hints.{IsHintOn};
ghost use Rattle.vt_command.specs.promise.Requests.{twarp_line};
ghost use Rattle.vt_program.specs.inside.Hints.{TellsProgram, program_line};
ghost use Rattle.vt_program.specs.promise.Models.{Refuses};
ghost use Rattle.vt_program.specs.promise.Programs.{option_of};

use crate::programs::{ProgramRefusal, fault_of, program_model};
use std::alloc::Global;
use std::convert::AsStr;
use vt_command::read_request;
use vt_guest::Refusal;
use vt_key::Fault;
use vt_model::Config;
use vt_options::{ProgramChoice, Request, shown_word};
use vt_runner::Files;

/// The line of an option that is bad, and what is said of it. None: memory was refused.
fn hint_on_program(alloc: Global, option: &str, said: &str) -> Option<String>
    ensures { IfSome result (λ line. string_bytes line ≡ program_line option.now said.now) }
{
    format!(in alloc; "twarp: --{option}: {said}").ok()
}

/// What is said of a refusal. The name of an object that can't be set is told as a terminal is shown a word. None: memory was refused.
fn said_of(alloc: Global, refusal: &ProgramRefusal) -> Option<String> {
    if let ProgramRefusal::Load(Refusal::Set(name, fault)) = refusal {
        let shown = shown_word(alloc, name.as_str())?;
        let shown = shown.as_str();
        return format!(in alloc; "{shown} can't be set: {fault}").ok();
    }
    refusal.to_string(alloc).ok()
}

/// A line on why a program isn't taken. None: memory was refused.
fn line_of(alloc: Global, refusal: ProgramRefusal) -> Option<String>
    ensures { IfSome result (λ line. (bad : Text) × (option_of refusal ≡ Some bad) × ((said : Text) × (string_bytes line ≡ program_line bad said))) }
{
    let Fault::BadOption(option) = fault_of(&refusal) else {
        return None;
    };
    let said = said_of(alloc, &refusal)?;
    hint_on_program(alloc, option, said.as_str())
}

/// A line on a program that is refused. None: it isn't, or memory was refused.
fn hint_on_choice<D: Files>(
    alloc: Global,
    files: &D,
    program: &ProgramChoice<'_>,
    lps: Option<u32>,
    config: Config,
) -> Option<String>
    ensures { IfSome result (λ line. (bad : Text) × Refuses (D.told files.now) program.now lps bad × ((said : Text) × (string_bytes line ≡ program_line bad said))) }
{
    match program_model(alloc, files, program, lps, config) {
        Ok(_) => None,
        Err(refusal) => line_of(alloc, refusal),
    }
}

/// A line for a terminal where [`program`](crate::program) refuses the words: which word it was and what is allowed, or why a program
/// isn't taken. Its files are read anew for it. None: nothing of this is refused, or memory was refused.
pub fn hint<S: AsStr, D: Files>(alloc: Global, words: &[S], files: &D) -> Option<String>
    ensures { IfSome result (λ line. IsHintOn (codes "twarp") twarp_line (map S.text words.now) (string_bytes line) ⊎ TellsProgram (D.told files.now) (map S.text words.now) (string_bytes line)) }
{
    if let Some(line) = vt_command::hint(alloc, words) {
        return Some(line);
    }
    let Ok(Request::Task(task, chosen)) = read_request(alloc, words) else {
        return None;
    };
    let Some(program) = &chosen.program else {
        return None;
    };
    hint_on_choice(alloc, files, program, chosen.lps, task.config())
}
