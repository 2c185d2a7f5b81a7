//! Reading a line of a step text, word by word.

ghost use Rattle.std.specs.Prelude.{◌≡◌};
ghost use Rattle.vt_step_text.specs.promise.Words.{words_of, number_below, step_of_name, step_with_one, step_with_two, step_with_three, step_said};

use crate::lines::cut_once;
use vt_key::Stamp;
use vt_steps::Step;
use vt_text::read_number;

/// The number that a word stands for; None if it is no number, or not below the limit.
fn number_below(word: &[u8], limit: u32) -> Option<u32>
    ensures { result ≡ number_below limit word.now }
{
    let number = read_number(word)?;
    if number < u64::from(limit) {
        Some(number as u32)
    } else {
        None
    }
}

/// The step of a line that is one word; None if the word is no such step.
#[tactic(auto, unfolding(crate::specs::promise::Words::step_of_name))]
fn step_of_name(name: &[u8]) -> Option<Step>
    ensures { result ≡ step_of_name name.now }
{
    if name == b"close".as_slice() {
        Some(Step::Close)
    } else {
        None
    }
}

/// The step of a line with a word and one argument; None if there is no such step.
#[tactic(auto, unfolding(crate::specs::promise::Words::step_with_one))]
fn step_with_one(name: &[u8], a: &[u8], lps: u32, workers: u32) -> Option<Step>
    ensures { result ≡ step_with_one lps workers name.now a.now }
{
    if name == b"execute".as_slice() {
        number_below(a, lps).map(Step::Execute)
    } else if name == b"undo".as_slice() {
        number_below(a, lps).map(Step::Undo)
    } else if name == b"home".as_slice() {
        number_below(a, workers).map(Step::Home)
    } else if name == b"fetch".as_slice() {
        number_below(a, workers).map(Step::Fetch)
    } else if name == b"cut".as_slice() {
        number_below(a, workers).map(Step::Cut)
    } else if name == b"report".as_slice() {
        number_below(a, workers).map(Step::Report)
    } else if name == b"commit".as_slice() {
        number_below(a, workers).map(Step::Commit)
    } else {
        None
    }
}

/// The step of a line with a word and two arguments; None if there is no such step.
#[tactic(auto, unfolding(crate::specs::promise::Words::step_with_two))]
fn step_with_two(name: &[u8], a: &[u8], b: &[u8], workers: u32) -> Option<Step>
    ensures { result ≡ step_with_two workers name.now a.now b.now }
{
    if name == b"send".as_slice() {
        let from = number_below(a, workers)?;
        let to = number_below(b, workers)?;
        Some(Step::Send(from, to))
    } else if name == b"accept".as_slice() {
        let worker = number_below(a, workers)?;
        let index = read_number(b)?;
        Some(Step::Accept(worker, index))
    } else {
        None
    }
}

/// The step of a line with a word and three arguments; None if there is no such step.
#[tactic(auto, unfolding(crate::specs::promise::Words::step_with_three))]
fn step_with_three(
    name: &[u8],
    a: &[u8],
    b: &[u8],
    c: &[u8],
    lps: u32,
    workers: u32,
) -> Option<Step>
    ensures { result ≡ step_with_three lps workers name.now a.now b.now c.now }
{
    if name != b"cancel".as_slice() {
        return None;
    }
    let process = number_below(a, lps)?;
    let worker = number_below(b, workers)?;
    let serial = read_number(c)?;
    Some(Step::Cancel(process, Stamp { worker, serial }))
}

/// The step that a line says, for a run with `lps` logical processes and `workers` workers; None if it says none.
pub(crate) fn step_of_line(line: &[u8], lps: u32, workers: u32) -> Option<Step>
    ensures { result ≡ step_said lps workers (words_of line.now) }
{
    let Some((name, rest)) = cut_once(line, b' ') else {
        return step_of_name(line);
    };
    let Some((a, rest)) = cut_once(rest, b' ') else {
        return step_with_one(name, rest, lps, workers);
    };
    let Some((b, rest)) = cut_once(rest, b' ') else {
        return step_with_two(name, a, rest, workers);
    };
    match cut_once(rest, b' ') {
        None => step_with_three(name, a, b, rest, lps, workers),
        Some(_) => None,
    }
}
