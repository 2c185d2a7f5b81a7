//! A writer to the terminal on which a meter shows its line.

ghost use Rattle.std.specs.Prelude.{◌≡◌};

use crate::meter::Meter;
use crate::search::{Search, TRAP, TURNS_SPENT};
use std::io::{self, Write};

/// A writer that may write to the terminal on which a meter shows its line: before it does, the line is taken away. What was
/// written to it is what its own writer took. If the meter is shown, it is told how many traps these bytes record, and whether they say that
/// turns were spent.
#[derive(Drop)]
pub struct Clearing<'m, W, E> {
    meter: &'m Meter,
    writer: W,
    // Where the meter shows its line, if the writer writes to the same terminal.
    line: Option<E>,
    traps: Search,
    spent: Search,
}

impl<'m, W: Write, E: Write> Clearing<'m, W, E> {
    /// The writer, which writes to the meter's terminal where `line` is given: what the meter writes its line to.
    /// Nothing is written yet: what was written to it so far is what its own writer took.
    pub fn new(meter: &'m Meter, writer: W, line: Option<E>) -> Clearing<'m, W, E>
        ensures writes { ⟦<Clearing<'m, W, E> as Write>⟧.contents result ≡ W.contents writer }
    {
        Clearing {
            meter,
            writer,
            line,
            traps: Search::new(TRAP),
            spent: Search::new(TURNS_SPENT),
        }
    }
}

impl<'m, W: Write, E: Write> Write for Clearing<'m, W, E> {
    ghost contents = { λ c. W.contents c.writer };

    fn write(&mut self, buf: &[u8]) -> io::Result<usize> {
        if let Some(line) = &mut self.line {
            self.meter.hush(line);
        }
        let taken = self.writer.write(buf)?;
        if self.meter.is_shown() {
            let piece = buf.get(..taken).unwrap_or(buf);
            self.meter.tell_traps(self.traps.count(piece));
            if self.spent.count(piece) > 0 {
                self.meter.tell_spent();
            }
        }
        Ok(taken)
    }

    fn flush(&mut self) -> io::Result<()> {
        self.writer.flush()
    }
}
