//! The terminal of a program, or none.

ghost use Rattle.std.specs.Prelude.{◌≡◌};
ghost use Rattle.vt_meter.specs.inside.Writers.{terminal_errors};

use crate::clearing::Clearing;
use crate::meter::Meter;
use std::alloc::Global;
use std::io::{IsTerminal, Write};
use std::sync::Wait;
use std::thread::Threads;
use std::time::Clock;

/// The exit status of a refused command line.
const REFUSED: u8 = 2;

/// What a program shows on its terminal beside its output and its errors. Where its stream of errors is no terminal, it shows
/// nothing.
#[derive(Drop)]
pub struct Terminal<E> {
    meter: Meter,
    errors: E,
    shown: bool,
}

impl<E: Write + IsTerminal + Copy + Send + Drop> Terminal<E> {
    /// The terminal to which this stream of errors leads, if it does.
    pub fn new<R: Clock>(rt: &R, errors: E) -> Terminal<E>
        ensures errors { terminal_errors result ≡ errors }
    {
        let shown = errors.is_terminal();
        Terminal {
            meter: Meter::new(rt, shown),
            errors,
            shown,
        }
    }

    /// What watches a run for the terminal.
    pub fn meter(&self) -> &Meter {
        &self.meter
    }

    /// The program's output. Where it leads to a terminal too, the line of a run is taken away before it is written to.
    /// Nothing is written to it yet.
    pub fn output<O: Write + IsTerminal>(&self, output: O) -> Clearing<'_, O, E>
        ensures writes { ⟦<Clearing<'static, O, E> as Write>⟧.contents result ≡ O.contents output }
    {
        let line = if self.shown && output.is_terminal() {
            Some(self.errors)
        } else {
            None
        };
        Clearing::new(&self.meter, output, line)
    }

    /// The program's stream of errors. The line of a run is taken away before it is written to.
    /// Nothing is written to it yet.
    pub fn errors(&self) -> Clearing<'_, E, E>
        ensures writes { ⟦<Clearing<'static, E, E> as Write>⟧.contents result ≡ E.contents (terminal_errors self.now) }
    {
        let line = if self.shown { Some(self.errors) } else { None };
        Clearing::new(&self.meter, self.errors, line)
    }

    /// Does a program's work, and meanwhile shows how far a long run is.
    pub fn during<R: Threads + Wait + Clock + Sync, F: FnOnce() -> u8>(
        &self,
        rt: &R,
        alloc: Global,
        work: F,
    ) -> u8
        requires { F.pre work }
        ensures { F.post work result }
    {
        self.meter.during(rt, alloc, self.errors, work)
    }

    /// Shows a line, if one is made.
    fn show<F: FnOnce() -> Option<String>>(&self, line: F)
    where
        F: Drop,
        requires { F.pre line }
    {
        if let Some(line) = line() {
            let mut errors = self.errors;
            let _ = errors.write_all(line.as_bytes());
            let _ = errors.write_all(b"\n");
        }
    }

    /// Shows a line on what is allowed, where the status is that of a refused command line.
    pub fn hint<F: FnOnce() -> Option<String>>(&self, status: u8, line: F)
    where
        F: Drop,
        requires { F.pre line }
    {
        if self.shown && status == REFUSED {
            self.show(line);
        }
    }

    /// Shows a line on how many turns would allow more, where the program has refused a run whose turns were spent.
    pub fn hint_on_turns<F: FnOnce() -> Option<String>>(&self, line: F)
    where
        F: Drop,
        requires { F.pre line }
    {
        if self.shown && self.meter.is_spent() {
            self.show(line);
        }
    }
}
