//! A world in memory.

ghost use Rattle.std.specs.Prelude.{◌≡◌, IfOk, IfErr};
ghost use Rattle.vt_key.specs.declared.fault.Fault.TheVariants.{Memory};
ghost use Rattle.vt_model.specs.promise.Settings.{end_of};
ghost use Rattle.vt_steps.specs.promise.World.{book_floor, book_records};
ghost use Rattle.vt_world.specs.inside.Held.{IsHeldStepOf};

use crate::inbox::Inbox;
use std::alloc::Global;
use std::marker::Model;
use vt_board::Board;
use vt_book::Book;
use vt_engine::{Engine, KERNEL};
use vt_key::{Fault, When};
use vt_model::{Config, Model as EventModel, Record};
use vt_steps::{Reply, Step};

/// The workers, the inboxes between them, the board and the book.
///
/// Contracts see these (`HeldWorld`). The value keeps no committed events. So a contract speaks of every world of the
/// definitions that the value stands for (`StandsForWorld`). The type guarantees that it stands for one that some
/// list of steps makes of the opening world.
#[derive(Drop)]
pub(crate) struct InMemory<'m, M: EventModel> {
    pub(crate) model: &'m M,
    pub(crate) config: Config,
    pub(crate) kernels: Vec<Engine<M, KERNEL>>,
    pub(crate) inboxes: Vec<Inbox<M::Payload>>,
    pub(crate) board: Board,
    pub(crate) book: Book,
    ghost whole: { book.handed_out ≡ 0 },
}

impl<'m, M: EventModel> Model for InMemory<'m, M> {
    ghost use Rattle.vt_world.specs.inside.Held.{HeldWorld, held_world, IsWorldInside};

    ghost Value = { HeldWorld M M.State M.Payload M.Kept };

    ghost view = { λ w. held_world w.model.now w.config w.kernels.items w.inboxes.items w.board.board w.book.book };

    ghost invariant = { λ w. IsWorldInside (M.handlers w.model.now) (held_world w.model.now w.config w.kernels.items w.inboxes.items w.board.board w.book.book) w.board.end w.book.end };
}

impl<'m, M: EventModel> InMemory<'m, M> {
    /// Does one step, and returns its reply.
    pub(crate) fn step(&mut self, alloc: Global, step: &Step) -> Result<Reply, Fault>
        ensures { IsHeldStepOf (M.handlers self.old.model) step.now self.old self.new result }
    {
        match *step {
            Step::Execute(lp) => self.execute(alloc, lp),
            Step::Undo(lp) => self.undo(lp),
            Step::Cancel(lp, stamp) => self.cancel(lp, stamp),
            Step::Home(w) => self.home(w),
            Step::Send(w, v) => self.send(w, v),
            Step::Fetch(w) => self.fetch(w),
            Step::Accept(w, i) => self.accept(alloc, w, i),
            Step::Cut(w) => self.cut(w),
            Step::Report(w) => self.report(w),
            Step::Commit(w) => self.commit(alloc, w),
            Step::Close => self.close(),
        }
    }

    /// The announced time.
    pub(crate) fn announced(&self) -> When
        ensures { result ≡ self.now.board.announced }
    {
        self.board.announced()
    }

    /// The floor of the book.
    pub(crate) fn floor(&self) -> When
        ensures { result ≡ book_floor (end_of self.now.config) self.now.book }
    {
        self.book.floor()
    }

    /// Whether the book is closed.
    pub(crate) fn is_closed(&self) -> bool
        ensures { result ≡ self.now.book.is_closed }
    {
        self.book.is_closed()
    }

    /// The records that the book shows.
    pub(crate) fn records(&self, alloc: Global) -> Result<Vec<Record>, Fault>
        ensures records { IfOk result (λ v. v.items ≡ book_records (end_of self.now.config) self.now.book) }
        ensures refused { IfErr result (λ fault. fault ≡ Memory) }
    {
        self.book.records(alloc)
    }
}
