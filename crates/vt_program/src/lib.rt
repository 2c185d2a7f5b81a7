//! The program `twarp`, as a function of its words, the files that they name, a reader and two writers.
//!
//! It stands in a library, since no crate can depend on one with a `main`. So tests and other crates can run the
//! whole program with writers of their own.
#![tactic(auto)]

mod hinting;
mod models;
mod programs;
mod refusal;

ghost use Rattle.std.specs.Prelude.{◌≡◌, ◌≢◌, map};
ghost use Rattle.std.specs.Io.KnownBytes.{Keeps};
ghost use Rattle.clap.specs.Words.{Text};
ghost use Rattle.vt_key.specs.declared.fault.Fault.{Fault};
ghost use Rattle.vt_command.specs.promise.Requests.{AskHelp, IsRefusedAs};
ghost use Rattle.vt_program.specs.promise.Refusals.{TellsRefusal, status_of};
ghost use Rattle.vt_program.specs.promise.Models.{Makes, meaning_of};
ghost use Rattle.vt_program.specs.inside.Models.{IsChoice};
ghost use Rattle.vt_program.specs.promise.Outcomes.{AskWithBadLine, IsDoneByTwarp, IsRead, EndsBy};
ghost use Rattle.vt_tasks.specs.inside.Models.{CarriesOut};
ghost use Rattle.vt_tasks.specs.inside.Tasks.{BeginsWithinLimit};

pub use hinting::hint;
pub use models::TwarpModel;
use models::answer_task;
pub use programs::{MAX_PROGRAM_FILE, ProgramRefusal};
pub use refusal::tell_refusal;
use std::alloc::Global;
use std::convert::AsStr;
use std::io::{Read, Write};
use std::sync::Wait;
use std::thread::Threads;
pub use vt_command::turns_hint;
use vt_command::{model_table, texts};
use vt_key::Fault;
use vt_options::{Chosen, Task};
use vt_runner::models_program;
pub use vt_runner::{Files, MachineFiles, ReadFault, words_of};
pub use vt_text::print_records;
pub use vt_watch::{Progress, Unwatched, Watch};

/// The whole program: does what the words ask for, and returns the exit status. The first word is the program's name.
///
/// Status 0: `out` got all that the words ask for, and nothing else. This is the help, or the records of a run, in the
/// version of their text that `--text` names, unless `--records` is `no`, and then with `--finals` a line `final LP VALUE` for each process
/// in rising order. For a replay of the step text from `reader`, it is a line for each step's
/// answer, and then what the world shows, with its records in that version.
///
/// Any other status comes with one line `twarp: refused N TEXT` on `err`, or a beginning of it if `err` fails. The
/// status depends on N alone: 2 for 7, 3 for 8, and 1 for the others. The committed records of a run in threads are
/// those below some time. They are written in the version that `--text` names: in version 2 the first line is written
/// even if there are none. With `--records no` neither is.
///
/// - N = 1: memory was refused. Nothing was written to `out`; or of a replay, the lines of all answers; or of a sequential
///   run, a beginning of the text; or of a run in threads, the committed records. If memory is refused to a step of a
///   replay, its answer says so, and the replay goes on.
/// - N = 3: the committed records of a run in threads couldn't be read. Those below some earlier time were written to `out`, or
///   none. It is never so with one worker.
/// - N = 5: a send number of a run would pass 2^63, or a serial of a run in threads or at the starts of a replay, or a count of
///   mail or of rounds of a run in threads. Nothing was written to `out`; or of a sequential run, a beginning of the text; or of a run in threads, the
///   committed records.
/// - N = 6: a worker of a run in threads made all its turns before the end of the run, and the committed records were
///   written to `out`.
/// - N = 7: the words or the input are refused, and nothing was written to `out`. TEXT names the first bad option in
///   the order of the table. It names `command-line` if the words have no meaning. It names `input` if a read failed
///   or was interrupted, or if the input is longer than a step text may be. Of a program in a model's place it names `program` if its
///   file isn't read or isn't such a program, `data` if the file of its data isn't read, `set` if what is set isn't there or doesn't
///   take the number, and `lps` if it fixes another number of processes than the words give.
/// - N = 8: the step text has a bad line. TEXT names the first one. Nothing was run, and nothing was written to
///   `out`.
/// - N = 9: `out` failed. A beginning of the text was written, but not all of it.
///
/// The handle `rt` serves only for the threads of a run on workers. A replay reads `reader` to its end; nothing else
/// reads it. `files` has the files that `--program` and `--data` name, and is asked for nothing else. `watch` is told how far a run is; no contract says what it is told.
pub fn program<
    H: Threads + Wait + Sync,
    S: AsStr,
    R: Read,
    O: Write,
    E: Write,
    D: Files,
    W: Watch + Sync,
>(
    rt: &H,
    alloc: Global,
    words: &[S],
    reader: &mut R,
    out: &mut O,
    err: &mut E,
    files: &D,
    watch: &W,
) -> u8
    ensures done { result ≡ 0 → IsDoneByTwarp (D.told files.now) (map S.text words.now) (R.remaining reader.old) (O.contents out.old) (O.contents out.new) }
    ensures silent { result ≡ 0 → Keeps (E.contents err.old) (E.contents err.new) }
    ensures refused { result ≢ 0 → (fault : Fault) × (result ≡ status_of fault)
        × EndsBy (D.told files.now) fault (map S.text words.now) (R.remaining reader.old) (O.contents out.old) (O.contents out.new)
        × TellsRefusal fault (E.contents err.old) (E.contents err.new) }
    ensures untouched { (name : Text) → IsRefusedAs (map S.text words.now) name → ¬ AskHelp (map S.text words.now)
        → (result ≢ 0) × Keeps (O.contents out.old) (O.contents out.new) }
    ensures unrun { AskWithBadLine (D.told files.now) (map S.text words.now) (R.remaining reader.old) → (result ≢ 0) × Keeps (O.contents out.old) (O.contents out.new) }
    ensures read { IsRead (D.told files.now) (map S.text words.now) (R.remaining reader.old) (R.remaining reader.new) }
{
    let on_chosen = move |rt: &H, alloc: Global, chosen: &Chosen<
        '_,
    >, task: &Task, watch: &W, input: &mut R, output: &mut O| -> Result<(), Fault>
        requires { BeginsWithinLimit task.now × IsChoice chosen.now }
        ensures { CarriesOut meaning_of (Makes (D.told files.entry.now)) chosen.now task.now (R.remaining input.old) (R.remaining input.new) (O.contents output.old) (O.contents output.new) result }
    { answer_task(rt, alloc, files, chosen, task, watch, input, output) };
    models_program(
        rt,
        alloc,
        words,
        reader,
        out,
        err,
        texts(),
        model_table(),
        watch,
        on_chosen,
    )
}
