//! Reading a step text.

ghost use Rattle.std.specs.Prelude.{◌≡◌, IfOk, IfErr, Ok};
ghost use Rattle.vt_step_text.specs.promise.StepText.{is_passed_over, steps_of};
ghost use Rattle.vt_step_text.specs.inside.StepText.{IsStepTextRefusal};

use crate::lines::cut_once;
use crate::words::step_of_line;
use std::alloc::Global;
use vt_key::Fault;
use vt_steps::Step;

/// A step with the number of its line, counted from 1.
#[derive(Debug, Clone, Copy, PartialEq, Eq)]
pub struct NumberedStep {
    /// The number of the step's line.
    pub line: u64,
    /// The step.
    pub step: Step,
}

/// Whether a line holds no step: it is empty, or begins with `#`.
fn is_passed_over(line: &[u8]) -> bool
    ensures { result ≡ is_passed_over line.now }
{
    match line.first() {
        Some(byte) => *byte == b'#',
        None => true,
    }
}

/// The steps of a step text, for a run with `lps` logical processes and `workers` workers.
///
/// [`Fault::BadStep`]: a line says no step, or the last one has no newline at its end; the number is that of the first
/// such line, from 1. [`Fault::Memory`]: memory was refused.
pub fn read_steps(
    alloc: Global,
    text: &[u8],
    lps: u32,
    workers: u32,
) -> Result<Vec<NumberedStep>, Fault>
    ensures ok { IfOk result (λ steps. steps_of lps workers text.now ≡ Ok steps.items) }
    ensures err { IfErr result (IsStepTextRefusal (steps_of lps workers text.now)) }
{
    let mut steps = Vec::new(alloc);
    let mut line = 1u64;
    let mut rest = text;
    'lines: while let Some((first, after)) = cut_once(rest, b'\n') {
        if !is_passed_over(first) {
            let Some(step) = step_of_line(first, lps, workers) else {
                return Err(Fault::BadStep(line));
            };
            let numbered = NumberedStep { line, step };
            let Ok(()) = steps.push(numbered) else {
                return Err(Fault::Memory);
            };
        }
        line += 1;
        rest = after;
    }
    if rest.is_empty() {
        Ok(steps)
    } else {
        Err(Fault::BadStep(line))
    }
}
