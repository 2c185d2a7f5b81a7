//! Which process or world of the definitions a value in memory stands for. The value keeps no committed events.

ghost use Rattle.std.specs.Prelude.{◌≡◌, ℕ, List, [], ◌∷◌, ◌++◌, map, Result};
ghost use Rattle.vt_key.specs.declared.fault.Fault.{Fault};
ghost use Rattle.vt_model.specs.promise.Simulation.{Simulation};
ghost use Rattle.vt_steps.specs.declared.step.Step.{Step};
ghost use Rattle.vt_steps.specs.declared.step.Reply.{Reply};
ghost use Rattle.vt_steps.specs.promise.World.{Entry, LogicalProcess, triple_after};
ghost use Rattle.vt_steps.specs.inside.StandsFor.{Remembered, ProcessMemory, WorldMemory, entry_of, fired_at, IsRemembered, StandsForProcess, GoesOn, RunsTo, StandsForReached};

/// The state, send number and stream position of a value are those of its process after all its events, committed or
/// not.
pub fn memory_is_where_the_history_leads<S, P>()
    ghost sim: { Simulation S P }
    ensures { (p : ℕ) (memory : ProcessMemory S P) (process : LogicalProcess P) → StandsForProcess sim p memory process →
        triple_after sim p (process.done ++ process.past) ≡ memory.triple }
{}

/// If a value that stands for a process adds one executed event that it remembers rightly, it stands for the process
/// with that event as its last past entry.
pub fn memory_goes_on<S, P>()
    ghost sim: { Simulation S P }
    ensures { (p : ℕ) (memory : ProcessMemory S P) (process : LogicalProcess P) (e : Remembered S P) → StandsForProcess sim p memory process →
        IsRemembered sim p memory.triple e →
        StandsForProcess sim p (record memory { triple = (fired_at sim p memory.triple e).triple; past = memory.past ++ e ∷ [] })
        (record process { past = process.past ++ entry_of e ∷ [] }) }
{}

/// If a value goes back over its last past event, it stands for the process without that entry.
pub fn memory_goes_back<S, P>()
    ghost sim: { Simulation S P }
    ensures { (p : ℕ) (memory : ProcessMemory S P) (process : LogicalProcess P) (past : List (Remembered S P)) (e : Remembered S P) →
        StandsForProcess sim p memory process → memory.past ≡ past ++ e ∷ [] →
        StandsForProcess sim p (record memory { triple = e.back memory.triple; past = past }) (record process { past = map entry_of past }) }
{}

/// The first past events may be forgotten: the value without them stands for the process in which they are committed.
pub fn memory_forgets_what_is_committed<S, P>()
    ghost sim: { Simulation S P }
    ensures { (p : ℕ) (memory : ProcessMemory S P) (process : LogicalProcess P) (first rest : List (Remembered S P)) →
        StandsForProcess sim p memory process → memory.past ≡ first ++ rest →
        StandsForProcess sim p (record memory { past = rest })
        (record process { done = process.done ++ map entry_of first; past = map entry_of rest }) }
{}

/// A value that stands for a reached world, and makes a step or a list of steps, stands for a reached world again.
pub fn values_stay_reached<S, P>()
    ghost sim: { Simulation S P }
    ensures step { (serial : ℕ) (step : Step) (answer : Result Reply Fault) (old new : WorldMemory S P) → GoesOn sim step answer old new →
        StandsForReached sim serial old → StandsForReached sim serial new }
    ensures run { (serial : ℕ) (steps : List Step) (old new : WorldMemory S P) → RunsTo sim steps old new →
        StandsForReached sim serial old → StandsForReached sim serial new }
{}
