//! `twarp`: the program over the process's words and streams.
#![tactic(auto)]

use std::process::ExitCode;
use vt_meter::Terminal;
use vt_program::{MachineFiles, hint, program, tell_refusal, turns_hint, words_of};

/// Standard error may be a terminal. Then a long run shows there how far it is. A refused command line gets a second line that says what is
/// allowed, and so does a run whose turns were too few.
fn main(rt: HostRuntime) -> ExitCode {
    let terminal = Terminal::new(&rt, rt.stderr());
    let mut out = terminal.output(rt.stdout());
    let mut err = terminal.errors();
    let words = match words_of(&rt) {
        Ok(words) => words,
        Err(fault) => return ExitCode::from(tell_refusal(&mut err, fault)),
    };
    let files = MachineFiles::new(&rt);
    let status = terminal.during(
        &rt,
        rt.alloc(),
        || program(
            &rt,
            rt.alloc(),
            words.as_slice(),
            &mut rt.stdin(),
            &mut out,
            &mut err,
            &files,
            terminal.meter(),
        ),
    );
    terminal.hint(status, || hint(rt.alloc(), words.as_slice(), &files));
    terminal.hint_on_turns(|| turns_hint(rt.alloc(), words.as_slice()));
    ExitCode::from(status)
}
