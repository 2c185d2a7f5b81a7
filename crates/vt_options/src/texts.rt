//! The texts that help shows for the options of every model.

ghost use Rattle.std.specs.Prelude.{◌≡◌, IfOk, string_bytes};
ghost use Rattle.vt_options.specs.inside.Texts.{allowed, default_after, help_of};

use crate::limits::{self, NumberRange};
use std::alloc::{AllocError, Global};

/// Which values an option takes, and which one it has if it isn't given.
#[derive(Debug, Clone, Copy)]
pub enum Takes {
    /// A number in this range. Help shows the range and the default behind what the option is.
    Number(NumberRange),
    /// One of some words. Help shows the default behind what the option is, which says what each word means.
    Words {
        /// The words, as a sentence lists them, for instance `yes or no`.
        listed: &'static str,
        /// The one that is meant if the option isn't given.
        default: &'static str,
    },
    /// What else a sentence says that it takes, for instance `a file`. There is no default.
    Other(&'static str),
}

/// What help shows of an option.
#[derive(Debug, Clone, Copy)]
pub struct OptionText<'a> {
    /// The option's name, without its dashes.
    pub name: &'static str,
    /// What stands for its value.
    pub value: &'static str,
    /// The heading under which it stands.
    pub heading: &'static str,
    /// Which values it takes.
    pub takes: Takes,
    /// What it is, in a phrase. Help shows behind it what [`Takes`] says.
    pub help: &'a str,
}

/// Which values an option takes, as a sentence says it.
pub(crate) fn allowed_text(alloc: Global, takes: &Takes) -> Result<String, AllocError>
    ensures { IfOk result (λ text. string_bytes text ≡ allowed takes.now) }
{
    match takes {
        Takes::Number(range) => {
            let least = range.least;
            let most = range.most;
            format!(in alloc; "{least} to {most}")
        }
        Takes::Words { listed, .. } => listed.to_string(alloc),
        Takes::Other(words) => words.to_string(alloc),
    }
}

/// A phrase with a default behind it.
fn with_default(alloc: Global, phrase: &str, default: &str) -> Result<String, AllocError>
    ensures { IfOk result (λ text. string_bytes text ≡ default_after phrase.now default.now) }
{
    format!(in alloc; "{phrase} [default: {default}]")
}

/// What help shows of an option: what it is, and its range and default.
pub(crate) fn help_text(alloc: Global, option: &OptionText<'_>) -> Result<String, AllocError>
    ensures { IfOk result (λ text. string_bytes text ≡ help_of option.now) }
{
    let help = option.help;
    match option.takes {
        Takes::Number(range) => {
            let least = range.least;
            let most = range.most;
            let default = range.default;
            format!(in alloc; "{help}, {least} to {most} [default: {default}]")
        }
        Takes::Words { default, .. } => with_default(alloc, help, default),
        Takes::Other(_) => help.to_string(alloc),
    }
}

/// The heading of the options of every model.
pub const GENERAL: &str = "Options of every model";

/// How a run keeps events in order.
pub(crate) const SYNCH: OptionText = OptionText {
    name: "synch",
    value: "N",
    heading: GENERAL,
    takes: Takes::Words {
        listed: "1 or 3",
        default: "1",
    },
    help: "1: one thread, in order; 3: Time Warp, a thread for each worker",
};

/// The workers of a run.
pub(crate) const WORKERS: OptionText = OptionText {
    name: "workers",
    value: "N",
    heading: GENERAL,
    takes: Takes::Number(limits::WORKERS),
    help: "Worker threads (--synch 3)",
};

/// The workers of a replay.
pub(crate) const REPLAY_WORKERS: OptionText = OptionText {
    name: "workers",
    value: "N",
    heading: GENERAL,
    takes: Takes::Number(limits::WORKERS),
    help: "Workers (process P belongs to worker P mod N)",
};

/// The logical processes.
pub(crate) const LPS: OptionText = OptionText {
    name: "lps",
    value: "N",
    heading: GENERAL,
    takes: Takes::Number(limits::LPS),
    help: "Logical processes, which send events to each other",
};

/// The end of virtual time.
pub(crate) const END: OptionText = OptionText {
    name: "end",
    value: "N",
    heading: GENERAL,
    takes: Takes::Number(limits::END),
    help: "Only events before this tick happen",
};

/// The seed of all random draws.
pub(crate) const SEED: OptionText = OptionText {
    name: "seed",
    value: "N",
    heading: GENERAL,
    takes: Takes::Number(limits::SEED),
    help: "Seed of all random draws",
};

/// The most turns of a worker.
pub(crate) const TURNS: OptionText = OptionText {
    name: "turns",
    value: "N",
    heading: GENERAL,
    takes: Takes::Number(limits::TURNS),
    help: "A worker's turns (--synch 3)",
};

/// The first serial of each worker's events.
pub(crate) const SERIAL: OptionText = OptionText {
    name: "serial",
    value: "N",
    heading: GENERAL,
    takes: Takes::Number(limits::SERIAL),
    help: "First serial of each worker's events",
};

/// The version of the text of records.
pub(crate) const TEXT: OptionText = OptionText {
    name: "text",
    value: "N",
    heading: GENERAL,
    takes: Takes::Words {
        listed: "1 or 2",
        default: "2",
    },
    help: "Version of the text of records: 1 has no priorities, 2 has them",
};

/// Whether final values are printed.
pub(crate) const FINALS: OptionText = OptionText {
    name: "finals",
    value: "",
    heading: GENERAL,
    takes: Takes::Other("no value"),
    help: "Prints the final value of each process last, in a line: final PROCESS VALUE",
};

/// Whether records are printed.
pub(crate) const RECORDS: OptionText = OptionText {
    name: "records",
    value: "WORD",
    heading: GENERAL,
    takes: Takes::Words {
        listed: "yes or no",
        default: "yes",
    },
    help: "Prints records, yes or no; without them final values alone",
};

/// The heading of the options of programs.
const PROGRAMS_HEADING: &str = "Options of a program, a RISC-V executable in the place of a model";

/// The heading of the options of a model that are files.
pub(crate) const FILES_HEADING: &str = "Files of the model";

/// The file of a program.
pub(crate) const PROGRAM: OptionText = OptionText {
    name: "program",
    value: "FILE",
    heading: PROGRAMS_HEADING,
    takes: Takes::Other("a file where there is no --model"),
    help: "Executable whose handlers are simulated, in the place of --model",
};

/// A number that is set before the run.
pub(crate) const SET: OptionText = OptionText {
    name: "set",
    value: "NAME=VALUE",
    heading: PROGRAMS_HEADING,
    takes: Takes::Other("NAME=VALUE with a number from 0 to 18446744073709551615"),
    help: "Sets a global object to a number, any number of times",
};

/// The file of a program's data.
pub(crate) const DATA: OptionText = OptionText {
    name: "data",
    value: "FILE",
    heading: PROGRAMS_HEADING,
    takes: Takes::Other("a file"),
    help: "File whose bytes the program may read",
};

/// The most instructions of a handler.
pub(crate) const FUEL: OptionText = OptionText {
    name: "fuel",
    value: "N",
    heading: PROGRAMS_HEADING,
    takes: Takes::Number(limits::FUEL),
    help: "Most instructions of a handler",
};

/// The options of programs.
pub(crate) static OF_PROGRAMS: [OptionText; 4] = [PROGRAM, SET, DATA, FUEL];

/// The options of every model, each once. A model's own option can't have one of these names.
pub(crate) static EVERY_MODEL: [OptionText; 10] = [
    SYNCH, WORKERS, LPS, END, SEED, TURNS, SERIAL, TEXT, FINALS, RECORDS,
];
