//! Theorems on lists of steps that are marked with the workers that make them: what a worker's own steps do, whatever
//! the others do, and what the worker can conclude from their answers.

ghost use Rattle.std.specs.Prelude.{ℕ, ◌≡◌, ◌<◌, ◌++◌, [], ◌∷◌, List, Some, None, Ok, true, false, slice_get};
ghost use Rattle.std.specs.List.{AllByRecursion};
ghost use Rattle.vt_key.specs.promise.Times.{TimeAtMost, TimeBefore};
ghost use Rattle.vt_model.specs.promise.Simulation.{Simulation};
ghost use Rattle.vt_model.specs.promise.Histories.{IsLawful};
ghost use Rattle.vt_steps.specs.declared.step.Step.{Step};
ghost use Rattle.vt_steps.specs.declared.step.Reply.{Reply};
ghost use Rattle.vt_steps.specs.promise.World.{Part, World, book_floor};
ghost use Rattle.vt_steps.specs.promise.BoardSteps.{cut_board};
ghost use Rattle.vt_steps.specs.promise.BookSteps.{may_close};
ghost use Rattle.vt_steps.specs.promise.Cells.{worker_of};
ghost use Rattle.vt_steps.specs.inside.Cells.{CellName, Cell, cell_of, act, local_steps};
ghost use Rattle.vt_steps.specs.inside.Laws.{IsAny};
ghost use Rattle.vt_steps.specs.promise.Next.{next};
ghost use Rattle.vt_steps.specs.inside.Marked.{Marked, made_done, IsMarkedRight, own_steps_of, shown, Leads, has_cut_since, has_closed};

/// Take local steps of a worker and then one step of it at a cell. They do the same in every world with this part of
/// the worker and this cell, and change no other part and no other cell. So they may be put last in a run, whatever
/// other workers did meanwhile.
pub fn own_steps_may_come_last<S, P>()
    ghost sim: { Simulation S P }
    ensures { (w : ℕ) (name : CellName) (steps : List Step) (step : Step) (part before new : Part P) (cell left : Cell P) (reply : Reply) → local_steps sim w steps part ≡ Some before →
        IsAny (worker_of sim step) w → IsAny (cell_of sim step) name → act sim step before cell ≡ record { part = new; cell = left; answer = Ok reply } →
        Leads sim w name part cell (steps ++ step ∷ []) new left (made_done steps ++ record { step = step; reply = reply } ∷ []) }
{}

/// A step changes no part but that of the worker that makes it.
pub fn others_keep_their_parts<S, P>()
    ghost sim: { Simulation S P }
    ensures { (world : World P) (step : Step) (w v : ℕ) → IsAny (worker_of sim step) w → ¬ (v ≡ w) → slice_get (next sim world step).world.parts v ≡ slice_get world.parts v }
{}

/// The board refuses a worker's cut only if the worker has cut and no announcement has reached it since.
pub fn cuts_are_refused_after_a_cut<S, P>()
    ghost sim: { Simulation S P }
    requires { IsLawful sim }
    ensures { (w : ℕ) (marks : List Marked) → AllByRecursion (IsMarkedRight sim) marks → w < sim.workers → cut_board sim.end w (shown sim marks).board ≡ None → has_cut_since false (own_steps_of sim w marks) ≡ true }
{}

/// Once a worker's close was done, the book is closed. If the book is closed, each worker's floor is the end of the
/// run. If the book may not be closed yet, its floor is below the end.
pub fn closes_are_known<S, P>()
    ghost sim: { Simulation S P }
    requires { IsLawful sim }
    ensures closed { (w : ℕ) (marks : List Marked) → AllByRecursion (IsMarkedRight sim) marks → has_closed (own_steps_of sim w marks) ≡ true → (shown sim marks).book.is_closed ≡ true }
    ensures floors { (marks : List Marked) (w : ℕ) (part : Part P) → (shown sim marks).book.is_closed ≡ true → slice_get (shown sim marks).parts w ≡ Some part → part.floor ≡ sim.end }
    ensures early { (marks : List Marked) → may_close sim.end (shown sim marks).book ≡ false → TimeBefore (book_floor sim.end (shown sim marks).book) sim.end }
{}
