//! Commit, on a kernel and the book, and Close, on the book.

ghost use Rattle.std.specs.Prelude.{◌≡◌, false, IfErr, MatchResult};
ghost use Rattle.vt_key.specs.declared.fault.Fault.TheVariants.{Memory};
ghost use Rattle.vt_model.specs.promise.Handler.{Handlers};
ghost use Rattle.vt_model.specs.promise.Simulation.{Simulation};
ghost use Rattle.vt_model.specs.promise.Settings.{end_of};
ghost use Rattle.vt_steps.specs.declared.step.Step.TheVariants as step;
ghost use Rattle.vt_steps.specs.declared.step.Reply.TheVariants.{Done};
ghost use Rattle.vt_steps.specs.promise.World.{Part, book_floor};
ghost use Rattle.vt_steps.specs.inside.Cells.{in_book, act};
ghost use Rattle.vt_cells.specs.inside.Calls.{IsBatchOf, AreOfOneWorld, IsHandInOf, IsHandInRefusal, IsClosingRefusal, IsCellStepOf, answer_as};

use std::alloc::Global;
use vt_book::{Batch, Book};
use vt_engine::Engine;
use vt_key::Fault;
use vt_model::Model as EventModel;

/// Hands in to the book the batch that was made ready of the kernel of worker `w`. The kernel keeps what it commits, until
/// [`Engine::fossil`].
///
/// [`Fault::Closed`]: the book is closed. [`Fault::Memory`]: memory was refused, here or for the batch. After either the
/// book is as it was.
pub fn hand_in<M: EventModel, const KIND: u8>(
    kernel: &Engine<M, KIND>,
    w: u32,
    batch: Result<Batch, Fault>,
    book: &mut Book,
) -> Result<(), Fault>
    requires worker { kernel.now.worker ≡ w }
    requires rows { IsBatchOf kernel.now batch }
    requires end { book.old.end ≡ end_of kernel.now.config }
    requires reached { (handlers : Handlers _ _ _) × AreOfOneWorld handlers kernel.now book.old.book }
    ensures step { (handlers : Handlers _ _ _) → IsHandInOf handlers kernel.now.config w kernel.now book.old.book book.new.book result }
    ensures end { book.new.end ≡ book.old.end }
    ensures kept { book.new.handed_out ≡ book.old.handed_out }
    ensures why { MatchResult result (λ _. book.old.book.is_closed ≡ false) (IsHandInRefusal book.old.book) }
{
    if book.is_closed() {
        return Err(Fault::Closed);
    }
    let Ok(batch) = batch else {
        return Err(Fault::Memory);
    };
    let floor = kernel.floor();
    book.hand_batch(w, batch, floor)
}

/// Commit: worker `w` hands the rows of its events below its floor in to the book, and forgets these events.
///
/// [`Fault::Closed`]: the book is closed. [`Fault::Memory`]: memory was refused. After either nothing has changed.
pub fn commit<M: EventModel, const KIND: u8>(
    alloc: Global,
    kernel: &mut Engine<M, KIND>,
    w: u32,
    book: &mut Book,
) -> Result<(), Fault>
    requires worker { kernel.old.worker ≡ w }
    requires end { book.old.end ≡ end_of kernel.old.config }
    requires reached { (handlers : Handlers _ _ _) × AreOfOneWorld handlers kernel.old book.old.book }
    ensures step { (handlers : Handlers _ _ _) → IsCellStepOf handlers kernel.old.config (step.Commit w) kernel.old kernel.new (in_book book.old.book) (in_book book.new.book) (answer_as (λ _. Done) result) }
    ensures end { book.new.end ≡ book.old.end }
    ensures kept { book.new.handed_out ≡ book.old.handed_out }
{
    let batch = kernel.batch(alloc);
    hand_in(kernel, w, batch, book)?;
    kernel.fossil();
    Ok(())
}

/// Close: the book, whose floor must be the end of the run, takes nothing more.
///
/// [`Fault::Closed`]: it is closed. [`Fault::NotLawful`]: its floor isn't the end of the run. After either it is as it was.
pub fn close<M: EventModel>(book: &mut Book) -> Result<(), Fault>
    ensures step { (sim : Simulation M.State M.Payload) → sim.end ≡ book.old.end → (part : Part M.Payload) → act sim step.Close part (in_book book.old.book) ≡ record { part = part; cell = in_book book.new.book; answer = answer_as (λ _. Done) result } }
    ensures unchanged { IfErr result (λ _. book.new.book ≡ book.old.book) }
    ensures why { MatchResult result (λ _. (book.old.book.is_closed ≡ false) × (book_floor book.new.end book.new.book ≡ book.new.end)) (IsClosingRefusal book.old) }
    ensures end { book.new.end ≡ book.old.end }
    ensures kept { book.new.handed_out ≡ book.old.handed_out }
{
    book.close()
}
