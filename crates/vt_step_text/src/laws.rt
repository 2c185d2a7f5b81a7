//! What the definitions say of a replay's texts. These functions are theorems: calling them does nothing.

ghost use Rattle.std.specs.Prelude.{◌≡◌, ◌≤◌, ℕ, List, Ok};
ghost use Rattle.std.specs.List.{AllByRecursion};
ghost use Rattle.vt_key.specs.declared.limits.TheConstants.{MAX_PROCESSES, MAX_WORKERS};
ghost use Rattle.vt_model.specs.promise.Simulation.{Simulation};
ghost use Rattle.vt_steps.specs.promise.World.{World};
ghost use Rattle.vt_steps.specs.declared.step.Step.{Step};
ghost use Rattle.vt_step_text.specs.declared.reading.NumberedStep.{NumberedStep};
ghost use Rattle.vt_step_text.specs.promise.Replies.{NumberedAnswer};
ghost use Rattle.vt_step_text.specs.promise.Replays.{AreAnswered};
ghost use Rattle.vt_step_text.specs.inside.Replays.{AreRightlyAnswered};
ghost use Rattle.vt_step_text.specs.inside.StepLines.{IsOf, numbered_from, text_of_steps};
ghost use Rattle.vt_step_text.specs.promise.StepText.{steps_of};

/// A step of a replay to which memory is refused, or that would take a counter past its limit, isn't taken. The world at
/// the end of a replay is that after the steps that were taken. If all were taken, their answers are those of the
/// definitions.
pub fn replies_are_those_of_the_steps<S, P>()
    ghost sim: { Simulation S P }
    ensures { (world end : World P) (steps : List NumberedStep) (replies : List NumberedAnswer) → AreAnswered sim world steps replies end →
        AreRightlyAnswered sim world steps replies end }
{}

/// Reading back steps that were written as text, one a line, gives the same steps, with lines counted from 1.
pub fn steps_are_read_back()
    ensures { (lps workers : ℕ) (steps : List Step) → lps ≤ MAX_PROCESSES → workers ≤ MAX_WORKERS → AllByRecursion (IsOf lps workers) steps →
        steps_of lps workers (text_of_steps steps) ≡ Ok (numbered_from 1 steps) }
{}
