//! A run or a replay of a model, whichever is asked for.

ghost use Rattle.std.specs.Prelude.{OnOk, IfErr};
ghost use Rattle.vt_tasks.specs.inside.Tasks.{BeginsWithinLimit, IsTaskDone, TaskEnds, KeepsInput};

use crate::simulate;
use std::alloc::Global;
use std::io::{Read, Write};
use std::sync::Wait;
use std::thread::Threads;
use vt_key::Fault;
use vt_model::Model as EventModel;
use vt_options::Task;
use vt_tasks::replay;
use vt_watch::Watch;

/// Does a task with a model: runs it as [`simulate`] does, or replays steps on it as [`replay`](vt_tasks::replay) does. A run reads nothing. The first
/// serial of a replay is at most 2^63. Each fault is one of that call, and leaves what is said there.
pub fn carry_out<
    H: Threads + Wait + Sync,
    M: EventModel + Sync,
    W: Watch + Sync,
    R: Read,
    O: Write,
>(
    rt: &H,
    alloc: Global,
    model: &M,
    task: &Task,
    watch: &W,
    reader: &mut R,
    out: &mut O,
) -> Result<(), Fault>
where
    M::State: Send,
    M::Kept: Send,
    requires counted { BeginsWithinLimit task.now }
    ensures ok { OnOk result (IsTaskDone (M.handlers model.now) task.now (R.remaining reader.old) (O.contents out.old) (O.contents out.new)) }
    ensures err { IfErr result (TaskEnds (M.handlers model.now) task.now (R.remaining reader.old) (O.contents out.old) (O.contents out.new)) }
    ensures unread { KeepsInput task.now (R.remaining reader.old) (R.remaining reader.new) }
{
    match task {
        Task::Run(settings) => simulate(rt, alloc, model, settings, watch, out),
        Task::Replay(settings) => replay(alloc, model, settings, reader, out),
    }
}
