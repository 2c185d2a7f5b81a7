//! Cut and Report, on a kernel and the board.

ghost use Rattle.std.specs.Prelude.{◌≡◌, Ok, Err, IfErr, MatchResult, is_ok};
ghost use Rattle.vt_key.specs.promise.Letters.{other_colour};
ghost use Rattle.vt_key.specs.declared.fault.Fault.TheVariants.{NotLawful};
ghost use Rattle.vt_key.specs.promise.Times.{earlier};
ghost use Rattle.vt_model.specs.promise.Handler.{Handlers};
ghost use Rattle.vt_model.specs.promise.Settings.{end_of};
ghost use Rattle.vt_steps.specs.declared.step.Step.TheVariants as step;
ghost use Rattle.vt_steps.specs.declared.step.Reply.TheVariants.{Done};
ghost use Rattle.vt_steps.specs.promise.Letters.{count_of, least_time};
ghost use Rattle.vt_steps.specs.inside.Cells.{on_board};
ghost use Rattle.vt_kernel.specs.inside.Guards.{held_letters};
ghost use Rattle.vt_board.specs.inside.Calls.{cut_outcome, takes_report, reply_of};
ghost use Rattle.vt_cells.specs.inside.Calls.{IsCellStepOf, answer_as};

use vt_board::{Board, Report};
use vt_engine::Engine;
use vt_key::{Fault, When};
use vt_model::Model as EventModel;
use vt_steps::Reply;

/// Cut: worker `w` joins the open round of the board; if none is open, it opens one.
///
/// [`Fault::NotLawful`]: it has cut in the open round. [`Fault::Exhausted`]: one more round would be more than 2^63. After
/// either nothing has changed.
pub fn cut<M: EventModel, const KIND: u8>(
    kernel: &mut Engine<M, KIND>,
    w: u32,
    board: &mut Board,
) -> Result<(), Fault>
    requires end { board.old.end ≡ end_of kernel.old.config }
    ensures step { (handlers : Handlers _ _ _) → IsCellStepOf handlers kernel.old.config (step.Cut w) kernel.old kernel.new (on_board board.old.board) (on_board board.new.board) (answer_as (λ _. Done) result) }
    ensures end { board.new.end ≡ board.old.end }
    ensures why { MatchResult result (λ _. cut_outcome board.old.end w board.old.board ≡ Ok board.new.board) (λ fault. cut_outcome board.old.end w board.old.board ≡ Err fault) }
{
    match board.cut(w) {
        Ok(announced) => {
            kernel.turn(announced);
            Ok(())
        }
        Err(fault) => Err(fault),
    }
}

/// Report: worker `w` reports to the board what [`Engine::report_values`] gave, and its floor becomes the announced time.
///
/// [`Fault::NotLawful`]: the board doesn't take the report. Nothing has changed then.
pub fn report<M: EventModel, const KIND: u8>(
    kernel: &mut Engine<M, KIND>,
    w: u32,
    values: (u64, u64, When),
    board: &mut Board,
) -> Result<Report, Fault>
    requires sent { values.0 ≡ count_of kernel.old.sent (other_colour kernel.old.colour) }
    requires got { values.1 ≡ count_of kernel.old.got (other_colour kernel.old.colour) }
    requires least { values.2 ≡ earlier kernel.old.red_minimum (least_time (end_of kernel.old.config) (held_letters kernel.old)) }
    requires end { board.old.end ≡ end_of kernel.old.config }
    ensures step { (handlers : Handlers _ _ _) → IsCellStepOf handlers kernel.old.config (step.Report w) kernel.old kernel.new (on_board board.old.board) (on_board board.new.board) (answer_as reply_of result) }
    ensures end { board.new.end ≡ board.old.end }
    ensures lawful { is_ok result ≡ takes_report board.old.end w values.2 board.old.board }
    ensures why { IfErr result (λ fault. fault ≡ NotLawful) }
{
    let (sent, got, least) = values;
    match board.report(w, sent, got, least) {
        Ok(report) => {
            kernel.set_floor(board.announced());
            Ok(report)
        }
        Err(fault) => Err(fault),
    }
}

/// The board's answer as the reply of a step.
pub fn reply_of(report: Report) -> Reply
    ensures { result ≡ reply_of report }
{
    match report {
        Report::Waiting => Reply::Waiting,
        Report::Again => Reply::Again,
        Report::Announced(time) => Reply::Announced(time),
    }
}
