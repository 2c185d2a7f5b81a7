//! A whole program of any models, as a function of its words, a reader and two writers.

ghost use Rattle.std.specs.Prelude.{◌≡◌, ◌≢◌, map, OnOk, IfErr};
ghost use Rattle.std.specs.Io.KnownBytes.{Keeps};
ghost use Rattle.vt_key.specs.declared.fault.Fault.{Fault};
ghost use Rattle.vt_options.specs.inside.Own.{AllHaveDefaults, models_of};
ghost use Rattle.vt_tasks.specs.promise.Refusals.{TellsRefusalOf, status_of};
ghost use Rattle.vt_tasks.specs.inside.Programs.{CallAnswers, IsTaskOf, IsDoneByCall, EndsByCall, IsReadByCall};

use crate::tell_refusal;
use std::alloc::Global;
use std::convert::AsStr;
use std::io::{Read, Write};
use vt_key::Fault;
use vt_options::{Chosen, ModelTable, ProgramTexts, Request, Task, read_request};
use vt_text::write_bytes;

/// Does what the words ask for.
fn answer<
    H,
    S: AsStr,
    R: Read,
    O: Write,
    W,
    A: Into<Result<(), Fault>>,
    F: FnOnce(&H, Global, &Chosen<'_>, &Task, &W, &mut R, &mut O) -> A,
>(
    rt: &H,
    alloc: Global,
    words: &[S],
    reader: &mut R,
    out: &mut O,
    texts: &ProgramTexts,
    table: &ModelTable<'_>,
    watch: &W,
    carry_out: F,
) -> Result<(), Fault>
    requires defaults { AllHaveDefaults table.now.models.now }
    requires callable { (host : _) (memory : _) (chosen : _) (task : _) (watcher : _) (input : _) (output : _) → IsTaskOf texts.now.name.now (models_of table.now) (map S.text words.now) chosen.now task.now → F.pre carry_out host memory chosen task watcher input output }
    ensures ok { OnOk result (IsDoneByCall texts.now.name.now (models_of table.now) (map S.text words.now) (CallAnswers F.FnOnce A.converts carry_out reader.old reader.new out.old out.new) (O.contents out.old) (O.contents out.new)) }
    ensures err { IfErr result (λ fault. EndsByCall texts.now.name.now (models_of table.now) (map S.text words.now) (CallAnswers F.FnOnce A.converts carry_out reader.old reader.new out.old out.new) fault (O.contents out.old) (O.contents out.new)) }
    ensures read { IsReadByCall texts.now.name.now (models_of table.now) (map S.text words.now) (CallAnswers F.FnOnce A.converts carry_out reader.old reader.new out.old out.new) (R.remaining reader.old) (R.remaining reader.new) }
{
    match read_request(alloc, texts, table, words)? {
        Request::Help(text) => write_bytes(out, text.as_bytes()),
        Request::Task(task, chosen) => carry_out(
            rt, alloc, &chosen, &task, watch, reader, out,
        ).into(),
    }
}

/// A whole program of any models: does what the words ask for, and returns the exit status. The first word is the program's
/// name.
///
/// `texts` is what help shows of the program. `table` are its models with their options, each with a default in its range.
/// `carry_out` does a task with the model that the words choose, as `carry_out` of `vt_runner` does. It is handed the choice,
/// the task, `watch`, `reader` and `out`, and answers a `Result<(), Fault>`. It is called once if the words ask for a task, and
/// otherwise not at all.
///
/// Status 0: the help that the words ask for was written to `out`, or their task was answered with Ok. Any other status comes
/// with one line `NAME: refused N TEXT` on `err`, or a beginning of it if `err` fails. The status depends on N alone: 2 for 7, 3
/// for 8, and 1 for the others.
///
/// - The words are refused, by N = 7 with the first bad option in the order of the table, or with `command-line` if they have no
///   meaning; or memory was refused, N = 1. Nothing was written to `out`, and `carry_out` wasn't called.
/// - N = 9: a beginning of the help was written.
/// - The answer to the task was this fault.
///
/// `reader` is read, and records are written, by `carry_out` alone.
// The answer of `carry_out` is a type of its own: a call that hands on a `Fault` from a closure is refused by the borrow checker. No
// trait stands in the closure's place: an `impl` of one can't ask that a model's states are `Send`.
pub fn models_program<
    H,
    S: AsStr,
    R: Read,
    O: Write,
    E: Write,
    W,
    A: Into<Result<(), Fault>>,
    F: FnOnce(&H, Global, &Chosen<'_>, &Task, &W, &mut R, &mut O) -> A,
>(
    rt: &H,
    alloc: Global,
    words: &[S],
    reader: &mut R,
    out: &mut O,
    err: &mut E,
    texts: &ProgramTexts,
    table: &ModelTable<'_>,
    watch: &W,
    carry_out: F,
) -> u8
    requires defaults { AllHaveDefaults table.now.models.now }
    requires callable { (host : _) (memory : _) (chosen : _) (task : _) (watcher : _) (input : _) (output : _) → IsTaskOf texts.now.name.now (models_of table.now) (map S.text words.now) chosen.now task.now → F.pre carry_out host memory chosen task watcher input output }
    ensures done { result ≡ 0 → IsDoneByCall texts.now.name.now (models_of table.now) (map S.text words.now) (CallAnswers F.FnOnce A.converts carry_out reader.old reader.new out.old out.new) (O.contents out.old) (O.contents out.new) }
    ensures silent { result ≡ 0 → Keeps (E.contents err.old) (E.contents err.new) }
    ensures refused { result ≢ 0 → (fault : Fault) × (result ≡ status_of fault)
        × EndsByCall texts.now.name.now (models_of table.now) (map S.text words.now) (CallAnswers F.FnOnce A.converts carry_out reader.old reader.new out.old out.new) fault (O.contents out.old) (O.contents out.new)
        × TellsRefusalOf texts.now.name.now fault (E.contents err.old) (E.contents err.new) }
    ensures read { IsReadByCall texts.now.name.now (models_of table.now) (map S.text words.now) (CallAnswers F.FnOnce A.converts carry_out reader.old reader.new out.old out.new) (R.remaining reader.old) (R.remaining reader.new) }
{
    match answer(
        rt, alloc, words, reader, out, texts, table, watch, carry_out,
    ) {
        Ok(()) => 0,
        Err(fault) => tell_refusal(err, texts.name, fault),
    }
}
