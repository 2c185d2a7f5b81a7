//! What the steps keep in every world, reached or not.

ghost use Rattle.std.specs.Prelude.{ℕ, IsTrue};
ghost use Rattle.vt_key.specs.declared.letter.Event.{Event};
ghost use Rattle.vt_model.specs.promise.Simulation.{Simulation};
ghost use Rattle.vt_steps.specs.declared.step.Step.{Step};
ghost use Rattle.vt_steps.specs.promise.World.{LogicalProcess, Part, World};
ghost use Rattle.vt_steps.specs.promise.Next.{next};
ghost use Rattle.vt_steps.specs.inside.Cells.{is_local};
ghost use Rattle.vt_steps.specs.inside.Laws.{IsFreeOf, Annihilate, IsMailKept, IsRefusalRight, ChangesOnePart, IsReplyRight, AreLettersRight, ActsOnOneCell, LeavesCells};

/// A refused step changes nothing. A commit or a close is refused as closed if the book is closed. Every other
/// refusal is not lawful.
pub fn refused_steps_change_nothing<S, P>()
    ghost sim: { Simulation S P }
    ensures { (world : World P) (step : Step) → IsRefusalRight sim world step }
{}

/// A local step (execute, undo, cancel, home or accept) changes the part of one worker alone.
pub fn local_steps_change_one_part<S, P>()
    ghost sim: { Simulation S P }
    ensures { (world : World P) (step : Step) → IsTrue (is_local sim step) → ChangesOnePart sim world step }
{}

/// A report is answered `Waiting`, `Again`, or with the new announced time, which changes only in that case. Every
/// other step that isn't refused is answered `Done`.
pub fn reports_are_answered<S, P>()
    ghost sim: { Simulation S P }
    ensures { (world : World P) (step : Step) → IsReplyRight sim world step }
{}

/// A message and its anti-message annihilate each other, whichever comes first: a process that receives both and
/// cancels them is as it was before (Jefferson, Virtual Time, 1985).
pub fn letters_annihilate<S, P>()
    ghost event: { Event P }
    ensures { (process : LogicalProcess P) → IsFreeOf event.rank.stamp process → Annihilate event process }
{}

/// Letters are made and vanish only where the steps say so. Execute takes a message and makes one for each event that
/// is sent. Undo makes the message again and an anti-message for each event that was sent. Cancel takes a message and
/// its anti-message. All other steps only move letters.
pub fn letters_are_kept<S, P>()
    ghost sim: { Simulation S P }
    ensures { (world : World P) → AreLettersRight sim world }
{}

/// No step makes or loses mail: of each colour, what a step adds to the mail sent, it adds to the mail got and the
/// mail travelling.
pub fn mail_is_kept<S, P>()
    ghost sim: { Simulation S P }
    ensures { (world : World P) (step : Step) → IsMailKept world (next sim world step).world }
{}

/// Every step reads and changes the part of one worker and the content of at most one cell: an inbox, the board or
/// the book. Its effect is that of `act` on these two, put back into the world. A local step leaves every cell as it
/// is.
pub fn steps_act_on_one_cell<S, P>()
    ghost sim: { Simulation S P }
    ensures acts { (world : World P) (step : Step) → ActsOnOneCell sim world step }
    ensures leaves { (step : Step) (part : Part P) → IsTrue (is_local sim step) → LeavesCells sim step part }
{}
