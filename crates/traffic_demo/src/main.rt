//! The traffic model as a whole program: `traffic_demo run --rows 3 --end 100` prints the records of twelve junctions.
#![tactic(auto)]

ghost use Rattle.std.specs.Prelude.{◌≡◌, None};

use std::process::ExitCode;
use vt_meter::Terminal;
use vt_options::{OwnOption, ProgramTexts};
use vt_runner::{Made, Streams, hint_of_process, run_program, turns_hint_of_process};
use vt_traffic::Traffic;

static TEXTS: ProgramTexts = ProgramTexts {
    name: "traffic_demo",
    about: "Simulates cars on a grid of one-way roads with signalled junctions",
    usage: "traffic_demo <COMMAND>",
    in_short: "A first run: traffic_demo run --rows 3 --end 100 (three rows of four junctions)",
};

static OPTIONS: [OwnOption; 6] = [
    OwnOption {
        name: "columns",
        least: 1,
        most: 65_536,
        default: 4,
        help: "Junctions of a row",
    },
    OwnOption {
        name: "cars",
        least: 0,
        most: 1_000,
        default: 4,
        help: "Cars that wait on each road of a junction at the start",
    },
    OwnOption {
        name: "green",
        least: 1,
        most: 1_000_000,
        default: 12,
        help: "Ticks between two changes of the lights",
    },
    OwnOption {
        name: "travel",
        least: 1,
        most: 1_000_000,
        default: 5,
        help: "Ticks of the shortest way to the next junction",
    },
    OwnOption {
        name: "turning",
        least: 0,
        most: 100,
        default: 25,
        help: "Percent of cars that turn",
    },
    OwnOption {
        name: "rows",
        least: 0,
        most: 65_536,
        default: 0,
        help: "Rows of junctions (0: as many as --lps makes)",
    },
];

/// A grid of so many rows and columns, or one of any number of junctions if there are no rows.
fn grid_of(grid: Traffic, columns: u32, rows: u32) -> Made<Traffic>
    ensures grid { result.model ≡ grid }
    ensures any { rows ≡ 0 → result.processes ≡ None }
{
    if rows == 0 {
        Made::any(grid)
    } else {
        Made::fixed(grid, rows.saturating_mul(columns))
    }
}

/// Standard error may be a terminal. Then a long run shows there how far it is. A refused command line gets a second line that says what is
/// allowed, and so does a run whose turns were too few.
fn main(rt: HostRuntime) -> ExitCode {
    let terminal = Terminal::new(&rt, rt.stderr());
    let mut streams = Streams {
        input: rt.stdin(),
        output: terminal.output(rt.stdout()),
        errors: terminal.errors(),
    };
    let status = terminal.during(
        &rt,
        rt.alloc(),
        || run_program(
            &rt,
            &mut streams,
            &TEXTS,
            &OPTIONS,
            terminal.meter(),
            |values| match Traffic::new(values[0], values[1], values[2], values[3], values[4]) {
                Ok(grid) => Some(grid_of(grid, values[0], values[5])),
                Err(_) => None,
            },
        ),
    );
    terminal.hint(status, || hint_of_process(&rt, &TEXTS, &OPTIONS, &[]));
    terminal.hint_on_turns(|| turns_hint_of_process(&rt, &TEXTS, &OPTIONS, &[]));
    ExitCode::from(status)
}
