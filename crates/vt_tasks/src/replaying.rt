//! A replay: a world that is driven by the steps of a text, and its answers.

ghost use Rattle.std.specs.Prelude.{◌≡◌, ◌≤◌, ◌⊎◌, ◌++◌, OnOk, OnErr, IfOk, IfErr};
ghost use Rattle.std.specs.Io.KnownBytes.{Appends};
ghost use Rattle.vt_key.specs.declared.limits.TheConstants.{MAX_COUNT};
ghost use Rattle.vt_key.specs.declared.fault.Fault.{Fault};
ghost use Rattle.vt_model.specs.promise.Simulation.{simulation_of};
ghost use Rattle.vt_text.specs.promise.Writing.{AppendsBeginning};
ghost use Rattle.vt_world.specs.promise.Answers.{PassesAtStart};
ghost use Rattle.vt_tasks.specs.promise.Replays.{GivesSteps, IsReplayOf, AreRepliesOf, Writes};
ghost use Rattle.vt_tasks.specs.inside.Replays.{IsInputRefusal, StopsReplay, ReplaysAsSet, EndsReplayAsSet};
ghost use Rattle.vt_tasks.specs.inside.Replying.{PutsReplies, StopsReplies, shown_of};

use std::alloc::Global;
use std::io::{Read, Write};
use vt_key::Fault;
use vt_model::{Config, Model as EventModel};
use vt_options::ReplaySettings;
use vt_step_text::{NumberedStep, put_reply, put_state, read_input, read_steps};
use vt_text::{TextBuffer, Version};
use vt_world::World;

/// Reads the steps of the text that a reader gives.
fn read_replay<R: Read>(
    alloc: Global,
    reader: &mut R,
    config: Config,
) -> Result<Vec<NumberedStep>, Fault>
    ensures ok { IfOk result (λ steps. GivesSteps config (R.remaining reader.old) steps.items) }
    ensures err { IfErr result (IsInputRefusal config (R.remaining reader.old)) }
{
    let text = read_input(alloc, reader)?;
    read_steps(alloc, text.as_slice(), config.lps, config.workers)
}

/// Does the steps one after the other, and puts a line for each answer. A step that is refused, for any reason,
/// changes nothing, and the next one follows.
fn put_replies<M: EventModel, O: Write>(
    alloc: Global,
    world: &mut World<'_, M>,
    steps: &[NumberedStep],
    text: &mut TextBuffer,
    out: &mut O,
) -> Result<(), Fault>
    ensures ok { let sim = simulation_of (M.handlers world.old.model) world.old.config in
        OnOk result (PutsReplies sim world.old.world steps.now world.new.world (O.contents out.old) (O.contents out.new) text.old text.new) }
    ensures err { let sim = simulation_of (M.handlers world.old.model) world.old.config in
        OnErr result (StopsReplies sim world.old.world steps.now (O.contents out.old) (O.contents out.new) text.old) }
    ensures same { (world.new.model ≡ world.old.model) × (world.new.config ≡ world.old.config) }
    ensures fault { IfErr result (λ fault. fault ≡ Fault.Output) }
{
    for numbered in steps {
        let answer = world.step(alloc, &numbered.step);
        put_reply(text, out, numbered.line, &answer)?;
    }
    Ok(())
}

/// Writes the gathered lines, and then what the world shows, with a version of the text of records.
///
/// [`Fault::Memory`]: the records couldn't be copied, and only the gathered lines were written. [`Fault::Output`]:
/// the writer failed.
fn show<M: EventModel, O: Write>(
    alloc: Global,
    world: &World<'_, M>,
    version: Version,
    text: &mut TextBuffer,
    out: &mut O,
) -> Result<(), Fault>
    ensures ok { OnOk result (Appends (O.contents out.old) (O.contents out.new) (text.old ++ shown_of (simulation_of (M.handlers world.now.model) world.now.config) version world.now.world)) }
    ensures err { OnErr result (AppendsBeginning (O.contents out.old) (O.contents out.new) (text.old ++ shown_of (simulation_of (M.handlers world.now.model) world.now.config) version world.now.world)) }
    ensures fault { IfErr result (λ fault. ((fault ≡ Fault.Memory) × Appends (O.contents out.old) (O.contents out.new) text.old) ⊎ (fault ≡ Fault.Output)) }
{
    text.flush(out)?;
    let records = world.records(alloc)?;
    put_state(
        text,
        out,
        world.announced(),
        world.floor(),
        world.least(),
        records.as_slice(),
        version,
    )?;
    text.flush(out)
}

/// Replays steps of a model, and writes the output. Of the options it uses the config, the first serial and the version
/// of the text of records.
fn print_replay<M: EventModel, O: Write>(
    alloc: Global,
    model: &M,
    options: &ReplaySettings,
    steps: &[NumberedStep],
    out: &mut O,
) -> Result<(), Fault>
    requires counted { options.now.serial ≤ MAX_COUNT }
    ensures ok { OnOk result (Writes (IsReplayOf options.now.text (M.handlers model.now) options.now.config options.now.serial steps.now) (O.contents out.old) (O.contents out.new)) }
    ensures err { IfErr result (StopsReplay (IsReplayOf options.now.text (M.handlers model.now) options.now.config options.now.serial steps.now) (AreRepliesOf (M.handlers model.now) options.now.config options.now.serial steps.now) (PassesAtStart (simulation_of (M.handlers model.now) options.now.config) options.now.serial) (O.contents out.old) (O.contents out.new)) }
{
    let mut world = World::with_serial(alloc, model, options.config, options.serial)?;
    let mut text = TextBuffer::new();
    put_replies(alloc, &mut world, steps, &mut text, out)?;
    show(alloc, &world, options.text, &mut text, out)
}

/// Reads a step text, replays its steps on a model, and writes each step's answer and what the world shows at the end.
/// It reads the whole text before it runs anything. `options.serial` is at most 2^63.
///
/// [`Fault::BadOption`] with `input`: a read failed, or the text is too long. [`Fault::BadStep`]: the text has a bad
/// line, the first of which is named. [`Fault::Exhausted`]: the starts would make more events than serials are left.
/// After these three nothing was written.
///
/// [`Fault::Memory`]: memory was refused to something other than a step. Nothing was written, or the lines of all
/// answers and nothing of what the world shows. [`Fault::Output`]: the writer failed, and a beginning of the output
/// was written.
pub fn replay<M: EventModel, R: Read, O: Write>(
    alloc: Global,
    model: &M,
    options: &ReplaySettings,
    reader: &mut R,
    out: &mut O,
) -> Result<(), Fault>
    requires counted { options.now.serial ≤ MAX_COUNT }
    ensures ok { OnOk result (ReplaysAsSet (M.handlers model.now) options.now (R.remaining reader.old) (O.contents out.old) (O.contents out.new)) }
    ensures err { IfErr result (EndsReplayAsSet (M.handlers model.now) options.now (R.remaining reader.old) (O.contents out.old) (O.contents out.new)) }
{
    let steps = read_replay(alloc, reader, options.config)?;
    print_replay(alloc, model, options, steps.as_slice(), out)
}
