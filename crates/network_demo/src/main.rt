//! The network of routers as a whole program: `network_demo run --lps 16 --end 200` prints the records of sixteen routers.
#![tactic(auto)]

use std::process::ExitCode;
use vt_meter::Terminal;
use vt_network::Network;
use vt_options::{OwnOption, ProgramTexts};
use vt_runner::{Made, Streams, hint_of_process, run_program, turns_hint_of_process};

static TEXTS: ProgramTexts = ProgramTexts {
    name: "network_demo",
    about: "Simulates packets in a network of routers on a ring with chords",
    usage: "network_demo <COMMAND>",
    in_short: "A first run: network_demo run --lps 16 --end 200 (sixteen routers)",
};

static OPTIONS: [OwnOption; 4] = [
    OwnOption {
        name: "columns",
        least: 1,
        most: 65_536,
        default: 4,
        help: "How many routers further a chord leads",
    },
    OwnOption {
        name: "gap",
        least: 1,
        most: 1_000_000,
        default: 12,
        help: "Longest time between two packets of a host in ticks",
    },
    OwnOption {
        name: "service",
        least: 1,
        most: 1_000_000,
        default: 4,
        help: "Ticks that a router works on a packet",
    },
    OwnOption {
        name: "link",
        least: 1,
        most: 1_000_000,
        default: 3,
        help: "Ticks that a packet is on a link",
    },
];

/// Standard error may be a terminal. Then a long run shows there how far it is. A refused command line gets a second line that says what is
/// allowed, and so does a run whose turns were too few.
fn main(rt: HostRuntime) -> ExitCode {
    let terminal = Terminal::new(&rt, rt.stderr());
    let mut streams = Streams {
        input: rt.stdin(),
        output: terminal.output(rt.stdout()),
        errors: terminal.errors(),
    };
    let status = terminal.during(
        &rt,
        rt.alloc(),
        || run_program(
            &rt,
            &mut streams,
            &TEXTS,
            &OPTIONS,
            terminal.meter(),
            |values| match Network::new(values[0], values[1], values[2], values[3]) {
                Ok(model) => Some(Made::any(model)),
                Err(_) => None,
            },
        ),
    );
    terminal.hint(status, || hint_of_process(&rt, &TEXTS, &OPTIONS, &[]));
    terminal.hint_on_turns(|| turns_hint_of_process(&rt, &TEXTS, &OPTIONS, &[]));
    ExitCode::from(status)
}
