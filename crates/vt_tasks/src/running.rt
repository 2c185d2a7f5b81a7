//! A run in one thread, and its text.

ghost use Rattle.std.specs.Prelude.{◌≡◌, [], OnOk, IfOk, IfErr};
ghost use Rattle.vt_key.specs.declared.fault.Fault.TheVariants.{Memory};
ghost use Rattle.vt_model.specs.promise.Simulation.{simulation_of};
ghost use Rattle.vt_seq.specs.inside.Standing.{IsAt};
ghost use Rattle.vt_tasks.specs.promise.Printed.{final_lines, finals_text};
ghost use Rattle.vt_tasks.specs.inside.Runs.{WritesWhole, StopsInOne};

use crate::counting::EventCount;
use crate::printed::{first_of, put_finals, put_shown};
use std::alloc::Global;
use std::io::Write;
use vt_key::{Fault, When};
use vt_model::{Model as EventModel, Out};
use vt_options::RunSettings;
use vt_seq::Execution;
use vt_text::TextBuffer;
use vt_watch::Watch;

/// How many records are gathered before their lines are written.
const GROUP: usize = 1_024;

/// Simulates a model in this thread, and writes the records of the run while it goes on, in the version that the options
/// name, if they name one, and then the final value of each process, if the options say so.
///
/// [`Fault::Memory`]: memory was refused. [`Fault::Exhausted`]: a send number would pass 2^63. After either a beginning of the
/// text was written, which may be nothing or all. [`Fault::Output`]: the writer failed, and a beginning was written.
///
/// What `watch` is told of the run, no contract says.
pub fn print_run<M: EventModel, W: Watch, O: Write>(
    alloc: Global,
    model: &M,
    options: &RunSettings,
    watch: &W,
    out: &mut O,
) -> Result<(), Fault>
    ensures ok { OnOk result (WritesWhole (M.handlers model.now) options.now (O.contents out.old) (O.contents out.new)) }
    ensures err { IfErr result (StopsInOne (M.handlers model.now) options.now (O.contents out.old) (O.contents out.new)) }
{
    let mut execution = Execution::new(alloc, model, options.config)?;
    print_events(alloc, &mut execution, options, watch, out)
}

/// The final values of an execution that has come to its end, if they are wanted; otherwise none.
///
/// [`Fault::Memory`]: memory was refused.
fn finals_of<M: EventModel>(
    alloc: Global,
    execution: &Execution<'_, M>,
    wanted: bool,
) -> Result<Vec<u64>, Fault>
    requires ended { execution.now.pending ≡ [] }
    ensures values { IfOk result (λ v. final_lines 0 v.items ≡ finals_text wanted (simulation_of (M.handlers execution.now.model) execution.now.config)) }
    ensures refused { IfErr result (λ fault. fault ≡ Memory) }
{
    if wanted {
        execution.finals(alloc)
    } else {
        Ok(Vec::new(alloc))
    }
}

/// Brings an execution from its beginning to its end, and writes the records of its events and the final values as [`print_run`] does.
fn print_events<M: EventModel, W: Watch, O: Write>(
    alloc: Global,
    execution: &mut Execution<'_, M>,
    options: &RunSettings,
    watch: &W,
    out: &mut O,
) -> Result<(), Fault>
    requires config { execution.old.config ≡ options.now.config }
    requires opening { IsAt (simulation_of (M.handlers execution.old.model) options.now.config) 0 execution.old }
    ensures ok { OnOk result (WritesWhole (M.handlers execution.old.model) options.now (O.contents out.old) (O.contents out.new)) }
    ensures err { IfErr result (StopsInOne (M.handlers execution.old.model) options.now (O.contents out.old) (O.contents out.new)) }
{
    let mut records = Vec::new(alloc);
    let mut text = TextBuffer::new();
    let mut handler_out = Out::new(options.config, 0, When::tick(0), 0);
    let mut count = EventCount::new(watch, options.config.end().ticks());
    text.put_bytes(out, first_of(options.records))?;
    while execution.step_reusing(&mut records, &mut handler_out)? {
        count.add(execution);
        if records.len() >= GROUP {
            put_shown(&mut text, out, records.as_slice(), options.records)?;
            records.clear();
        }
    }
    count.end(options.config.end().ticks());
    put_shown(&mut text, out, records.as_slice(), options.records)?;
    let finals = finals_of(alloc, execution, options.finals)?;
    put_finals(&mut text, out, finals.as_slice())?;
    text.flush(out)
}
