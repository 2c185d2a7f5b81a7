//! Tokens that are passed on by a table, as a whole program: `relay_demo run --table FILE` reads the table from a file.
#![tactic(auto)]

ghost use Rattle.std.specs.Prelude.{◌≡◌, IfOk, Some, length};
ghost use Rattle.vt_relay.specs.inside.Table.{IsTableOf};

use std::alloc::Global;
use std::process::ExitCode;
use vt_meter::Terminal;
use vt_options::{FileOption, OwnOption, ProgramTexts};
use vt_relay::{MAX_DELAY, Relay, read_table};
use vt_runner::{
    MachineFiles, Made, Streams, Unmade, hint_of_process, run_program_with_files,
    turns_hint_of_process,
};

static TEXTS: ProgramTexts = ProgramTexts {
    name: "relay_demo",
    about: "Simulates tokens that processes pass on by a table",
    usage: "relay_demo <COMMAND>",
    in_short: "A first run: relay_demo run --table FILE, with the next process of each in a line of FILE",
};

static OPTIONS: [OwnOption; 2] = [
    OwnOption {
        name: "hops",
        least: 0,
        most: 1_000_000,
        default: 3,
        help: "How often a token is passed on",
    },
    OwnOption {
        name: "delay",
        least: 1,
        most: MAX_DELAY,
        default: 2,
        help: "Ticks of a token's way",
    },
];

static FILES: [FileOption; 1] = [FileOption {
    name: "table",
    help: "File with the next process of each, from process 0 on, one a line",
}];

/// Why the file of the table makes no model.
fn because(alloc: Global, reason: &str) -> Unmade {
    match reason.to_string(alloc) {
        Ok(text) => Unmade::File(0, text),
        Err(_) => Unmade::Memory,
    }
}

/// The model of the table in a file. It fixes the number of processes.
fn relay_of(
    alloc: Global,
    hops: u32,
    delay: u32,
    file: &Option<Vec<u8>>,
) -> Result<Made<Relay>, Unmade>
    ensures { IfOk result (λ made. (bytes : _) × (file.now ≡ Some bytes) × IsTableOf bytes.items made.model.next.items × (made.processes ≡ Some (length made.model.next.items))) }
{
    let Some(bytes) = file else {
        return Err(because(alloc, "it has to be given"));
    };
    match read_table(alloc, bytes.as_slice()) {
        Ok(next) => {
            let count = next.len() as u32;
            Ok(Made::fixed(Relay::new(next, hops, delay), count))
        }
        Err(fault) => match fault.to_string(alloc) {
            Ok(reason) => Err(Unmade::File(0, reason)),
            Err(_) => Err(Unmade::Memory),
        },
    }
}

/// Standard error may be a terminal. Then a long run shows there how far it is. A refused command line gets a second line that says what is
/// allowed, and so does a run whose turns were too few.
fn main(rt: HostRuntime) -> ExitCode {
    let terminal = Terminal::new(&rt, rt.stderr());
    let mut streams = Streams {
        input: rt.stdin(),
        output: terminal.output(rt.stdout()),
        errors: terminal.errors(),
    };
    let status = terminal.during(
        &rt,
        rt.alloc(),
        || run_program_with_files(
            &rt,
            &mut streams,
            &TEXTS,
            &OPTIONS,
            &FILES,
            &MachineFiles::new(&rt),
            terminal.meter(),
            |values, files| relay_of(rt.alloc(), values[0], values[1], &files[0]),
        ),
    );
    terminal.hint(status, || hint_of_process(&rt, &TEXTS, &OPTIONS, &FILES));
    terminal.hint_on_turns(|| turns_hint_of_process(&rt, &TEXTS, &OPTIONS, &FILES));
    ExitCode::from(status)
}
