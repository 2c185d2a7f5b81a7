//! Command lines, read into requests. What a line without options asks for is a law of `vt_command`, and the program's help tells
//! each default.

use std::alloc::{AllocGlobal, Global};
use std::process::Abort;
use std::rt::{self, HostRuntime};
use std::test::Fail;
use vt_command::{Request, read_request};
use vt_key::Fault;
use vt_model::Config;
use vt_options::{Chosen, ReplaySettings, RunSettings, Synch, Task};
use vt_text::Version;

/// A run with all its options and those of all models.
const RUN: &str =
    "twarp run --text=1 --travel=14 --service 15 --jobs=16 --span 17 --lookahead=18 --remote 19 \
    --population=6 --rise=8 --delay=7 --stride 3 --hops=9 --seed 258 --end=64 --lps 12 --workers=4 \
    --turns 5 --synch 3 --records yes";

/// A replay with all its options and those of all models.
const REPLAY: &str =
    "twarp replay --text=1 --travel=14 --service 15 --jobs=16 --span 17 --lookahead=18 --remote 19 \
    --population=6 --rise=8 --delay=7 --stride 3 --hops=9 --seed 258 --end=64 --lps 12 --workers=4 \
    --serial=5";

/// The task and the choices that words ask for.
fn asked<'a>(alloc: Global, words: &'a [&'a str]) -> Result<(Task, Chosen<'a>), Fail> {
    match read_request(alloc, words)? {
        Request::Task(task, chosen) => Ok((task, chosen)),
        Request::Help(_) => Err(Fail::from(Fault::NotLawful)),
    }
}

/// Whether a task is the run of that line, or the replay.
fn is_given(task: Task) -> Result<bool, Fault> {
    let config = Config::new(12, 4, 64, 258)?;
    let run = RunSettings {
        synch: Synch::Optimistic,
        config,
        turns: 5,
        records: Some(Version::One),
        finals: false,
    };
    let replay = ReplaySettings {
        config,
        serial: 5,
        text: Version::One,
    };
    match task {
        Task::Run(settings) => Ok(settings == run),
        Task::Replay(settings) => Ok(settings == replay),
    }
}

/// Asserts that a line with one more word asks for its task, and chooses the model of this index with these values.
fn chooses(
    rt: &(impl Abort + AllocGlobal),
    line: &str,
    more: &str,
    model: usize,
    values: &[u32],
) -> Result<(), Fail> {
    let mut words: Vec<&str> = line.split_ascii_whitespace().collect(rt.alloc())?;
    words.push(more)?;
    let (task, chosen) = asked(rt.alloc(), words.as_slice())?;
    let is_chosen = chosen.model == model && chosen.values.as_slice() == values;
    assert!(rt; is_given(task)? && is_chosen, "{more}");
    Ok(())
}

#[test]
fn given_options_are_taken(rt: HostRuntime) -> Result<(), Fail> {
    chooses(&rt, RUN, "--model=hop", 0, &[9, 3, 7, 8])?;
    chooses(&rt, RUN, "--model=phold", 1, &[6, 19, 18, 17])?;
    chooses(&rt, RUN, "--model=stations", 2, &[16, 15, 14])?;
    chooses(&rt, REPLAY, "--model=phold", 1, &[6, 19, 18, 17])
}

/// A process has a first word here, so no call of the program shows this.
#[test]
fn no_word_is_no_command_line(rt: HostRuntime) {
    let words: [&str; 0] = [];
    let answer = read_request(rt.alloc(), &words);
    assert!(rt; matches!(answer, Err(Fault::BadOption("command-line"))));
}
