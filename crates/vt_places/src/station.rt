//! The station and its places.

ghost use Rattle.std.specs.Prelude.{◌≡◌, ◌≢◌, ◌<◌, ◌≤◌, ◌+◌, [], true, false, Ok, MatchResult, unwrap_or};
ghost use Rattle.atomic_table.specs.Table.{Allows};
ghost use Rattle.vt_model.specs.promise.Histories.{IsLawful};
ghost use Rattle.vt_model.specs.promise.Simulation.{simulation_of};
ghost use Rattle.vt_model.specs.promise.Settings.{end_of};
ghost use Rattle.vt_steps.specs.declared.step.Step.TheVariants.{Close};
ghost use Rattle.vt_steps.specs.declared.step.Reply.TheVariants.{Done};
ghost use Rattle.vt_steps.specs.promise.World.{Part};
ghost use Rattle.vt_steps.specs.promise.Cells.{worker_of};
ghost use Rattle.vt_steps.specs.inside.Cells.{Cell, in_inbox, on_board, in_book, cell_of, book_cell, act};
ghost use Rattle.vt_steps.specs.inside.Laws.{IsAny};
ghost use Rattle.vt_key.specs.declared.limits.TheConstants.{MAX_WORKERS};
ghost use Rattle.vt_places.specs.inside.Slots.{cell_count, word_at, empty_word, claimed_word, cell_at};
ghost use Rattle.vt_places.specs.inside.Kept.{IsTableRight, Rests};
ghost use Rattle.vt_places.specs.inside.Commits.{Commits};
ghost use Rattle.vt_cells.specs.inside.Calls.{IsCellStepOf, CommitsTo, answer_as};
ghost use Rattle.vt_places.specs.inside.Calls.{Took, TookThere, Holding, MaySee, Reaches, Visited, Unvisited, Closes, ShowsFloor};

use crate::rule::{About, Aim, Law, Tell};
use crate::slot::Slot;
use crate::view::View;
use atomic_table::{Shared, Table};
use std::alloc::Global;
use std::marker::Brand;
use std::snapshot::Snapshot;
use vt_engine::Engine;
use vt_key::{Fault, Mail, When};
use vt_model::Model as EventModel;
use vt_steps::{Reply, Step};

/// What the threads of a station share.
pub(crate) type Shelf<M> = Shared<
    Slot<<M as EventModel>::Payload>,
    View<<M as EventModel>::Payload>,
    About<M>,
    Law<M>,
>;

/// The seat of a place.
pub(crate) type Seat<M> = atomic_table::Seat<
    Slot<<M as EventModel>::Payload>,
    View<<M as EventModel>::Payload>,
>;

/// A Time Warp world that threads share: an inbox for each worker, the board and the book, each in a cell of one table.
///
/// No call of a place waits. Each tries once to claim the cell that it needs, and gives it back before it returns, but for
/// [`Station::take_out`].
#[derive(Drop)]
pub struct Station<M: EventModel> {
    pub(crate) table: Table<Slot<M::Payload>, View<M::Payload>, About<M>, Law<M>, Global>,
    pub(crate) workers: usize,
    ghost words: { table.shared.table_id.words ≡ word_at (cell_count workers) },
    ghost slots: { table.shared.table_id.slots ≡ cell_count workers },
    ghost counted: { table.shared.key.config.workers ≡ workers },
}

/// A step with its answer, and the kernel before the call and after it.
#[derive(Drop)]
pub(crate) struct Visit<M: EventModel, const KIND: u8> {
    pub(crate) step: Step,
    pub(crate) answer: Result<Reply, Fault>,
    pub(crate) before: Snapshot<Engine<M, KIND>>,
    pub(crate) left: Snapshot<Engine<M, KIND>>,
}

/// The answer of a call, as that of a step whose only reply is that it was done.
pub(crate) fn done_of(answer: &Result<(), Fault>) -> Result<Reply, Fault>
    ensures { result ≡ answer_as (λ _. Done) answer.now }
{
    match answer {
        Ok(()) => Ok(Reply::Done),
        Err(fault) => Err(*fault),
    }
}

/// A commit of a worker, with the kernel before the call, and the floor of the book after the commit.
#[derive(Drop)]
pub(crate) struct Lent<M: EventModel, const KIND: u8> {
    pub(crate) worker: u32,
    pub(crate) kernel: Snapshot<Engine<M, KIND>>,
    pub(crate) seen: When,
}

/// The distance between the words of two neighbouring cells: two cache lines, since processors fetch lines in pairs.
const STRIDE: usize = 16;

/// The word of an inbox that is empty and that nobody has claimed.
pub(crate) const EMPTY: u64 = 0;

/// The word of a cell that a place has claimed.
const CLAIMED: u64 = 1;

/// The word of a cell that nobody has claimed.
pub(crate) const HOME: u64 = 2;

/// The index of the word of cell `cells`; also the number of words that `cells` cells take.
pub(crate) fn words_of(cells: usize) -> usize
    requires few { cells ≤ cell_count MAX_WORKERS }
    ensures { result ≡ word_at cells }
{
    STRIDE * cells
}

/// The word of an inbox that nobody has claimed, by its mail.
pub(crate) fn word_of_inbox<P>(mails: &Vec<Mail<P>>) -> u64
    ensures free { result ≢ claimed_word }
    ensures empty { result ≡ empty_word → mails.now.items ≡ [] }
{
    if mails.is_empty() { EMPTY } else { HOME }
}

impl<M: EventModel> Station<M> {
    /// The index of the word of a cell.
    fn word_of(&self, cell: usize) -> usize
        requires near { cell < cell_count self.now.workers }
        ensures word { result ≡ word_at cell }
        ensures within { result < self.now.table.shared.table_id.words }
        ensures near { let config = self.now.table.shared.key.config in cell < cell_count config.workers }
    {
        words_of(cell)
    }

    /// Puts the word that says that a cell is claimed in the place of the cell's word, and returns what stood there. `_told`
    /// only fixes the type of the aim.
    fn swap<J: Aim<M::Payload>, T>(&self, seat: &mut Seat<M>, cell: usize, _told: &T) -> u64
        requires table { seat.old.table_id ≡ self.now.table.shared.table_id }
        requires near { cell < cell_count self.now.workers }
        requires allowed { let shelf = self.now.table.shared in cell < cell_count shelf.key.config.workers → Allows (IsTableRight (simulation_of (M.handlers shelf.key.model.value) shelf.key.config) shelf.key.config) shelf.table_id.slots seat.old.id seat.old.me (word_at cell) (λ _. claimed_word) J.after }
        ensures told { (seat.new.table_id ≡ seat.old.table_id) × (seat.new.id ≡ seat.old.id) × J.after result seat.new.me }
    {
        self.table
            .shared
            .swap::<Tell<J>>(seat, self.word_of(cell), CLAIMED)
    }

    /// Stores a word. `_told` only fixes the type of the aim.
    fn store<J: Aim<M::Payload>, T>(&self, seat: &mut Seat<M>, cell: usize, word: u64, _told: &T)
        requires table { seat.old.table_id ≡ self.now.table.shared.table_id }
        requires near { cell < cell_count self.now.workers }
        requires allowed { let shelf = self.now.table.shared in let sim = simulation_of (M.handlers shelf.key.model.value) shelf.key.config in IsLawful sim → cell < cell_count shelf.key.config.workers → Allows (IsTableRight sim shelf.key.config) shelf.table_id.slots seat.old.id seat.old.me (word_at cell) (λ _. word) (λ _. J.after word) }
        ensures told { (seat.new.table_id ≡ seat.old.table_id) × (seat.new.id ≡ seat.old.id) × J.after word seat.new.me }
    {
        self.table
            .shared
            .store::<Tell<J>>(seat, self.word_of(cell), word);
    }

    /// Loads a word. `_told` only fixes the type of the aim.
    pub(crate) fn load<J: Aim<M::Payload>, T>(
        &self,
        seat: &mut Seat<M>,
        cell: usize,
        _told: &T,
    ) -> u64
        requires table { seat.old.table_id ≡ self.now.table.shared.table_id }
        requires near { cell < cell_count self.now.workers }
        requires allowed { let shelf = self.now.table.shared in let sim = simulation_of (M.handlers shelf.key.model.value) shelf.key.config in IsLawful sim → Allows (IsTableRight sim shelf.key.config) shelf.table_id.slots seat.old.id seat.old.me (word_at cell) (λ n. n) J.after }
        ensures told { (seat.new.table_id ≡ seat.old.table_id) × (seat.new.id ≡ seat.old.id) × J.after result seat.new.me }
    {
        self.table.shared.load::<Tell<J>>(seat, self.word_of(cell))
    }
}

impl<M: EventModel> Station<M> {
    /// Tries once to claim a cell. The place must hold none yet: a worker that holds a cell does its step there and gives the cell back.
    pub(crate) fn claim(&self, seat: &mut Seat<M>, cell: usize) -> bool
        requires table { seat.old.table_id ≡ self.now.table.shared.table_id }
        requires near { cell < cell_count self.now.workers }
        requires rests { Rests seat.old.me }
        ensures same { (seat.new.table_id ≡ seat.old.table_id) × (seat.new.id ≡ seat.old.id) × (seat.new.me.0.worker ≡ seat.old.me.0.worker) }
        ensures claimed { let key = self.now.table.shared.key in result ≡ true → Took (simulation_of (M.handlers key.model.value) key.config) key.config seat.old.me cell seat.new.me }
        ensures busy { result ≡ false → (seat.new.me ≡ seat.old.me) × (1 < self.now.workers) }
    {
        self.swap::<Brand, ()>(seat, cell, &()) != CLAIMED
    }

    /// Tries once to claim the board.
    pub(crate) fn claim_board(&self, seat: &mut Seat<M>) -> bool
        requires table { seat.old.table_id ≡ self.now.table.shared.table_id }
        requires rests { Rests seat.old.me }
        ensures same { (seat.new.table_id ≡ seat.old.table_id) × (seat.new.id ≡ seat.old.id) × (seat.new.me.0.worker ≡ seat.old.me.0.worker) }
        ensures claimed { let key = self.now.table.shared.key in result ≡ true → TookThere (simulation_of (M.handlers key.model.value) key.config) key.config (λ world. on_board world.board) seat.old.me self.now.workers seat.new.me }
        ensures busy { result ≡ false → (seat.new.me ≡ seat.old.me) × (1 < self.now.workers) }
    {
        self.claim(seat, self.workers)
    }

    /// Tries once to claim the book.
    pub(crate) fn claim_book(&self, seat: &mut Seat<M>) -> bool
        requires table { seat.old.table_id ≡ self.now.table.shared.table_id }
        requires rests { Rests seat.old.me }
        ensures same { (seat.new.table_id ≡ seat.old.table_id) × (seat.new.id ≡ seat.old.id) × (seat.new.me.0.worker ≡ seat.old.me.0.worker) }
        ensures claimed { let key = self.now.table.shared.key in result ≡ true → TookThere (simulation_of (M.handlers key.model.value) key.config) key.config (λ world. in_book world.book) seat.old.me (self.now.workers + 1) seat.new.me }
        ensures busy { result ≡ false → (seat.new.me ≡ seat.old.me) × (1 < self.now.workers) }
    {
        self.claim(seat, self.workers + 1)
    }

    /// Gives a cell back after a step, done or refused. If it was done, the worker's steps are put behind all others in the list
    /// of steps.
    pub(crate) fn release_visit<const KIND: u8>(
        &self,
        seat: &mut Seat<M>,
        cell: usize,
        word: u64,
        visit: &Visit<M, KIND>,
    )
        requires table { seat.old.table_id ≡ self.now.table.shared.table_id }
        requires near { cell < cell_count self.now.workers }
        requires free { word ≢ claimed_word }
        requires marks { let key = self.now.table.shared.key in IsAny (worker_of (simulation_of (M.handlers key.model.value) key.config) visit.now.step) seat.old.me.0.worker × IsAny (cell_of (simulation_of (M.handlers key.model.value) key.config) visit.now.step) (cell_at key.config.workers cell) }
        requires held { let key = self.now.table.shared.key in (found : Cell _) × (now : Cell _) × Holding key.config seat.old.me cell found now × (word ≡ empty_word → now ≡ in_inbox [])
            × IsCellStepOf (M.handlers key.model.value) key.config visit.now.step visit.now.before.value visit.now.left.value found now visit.now.answer }
        requires kernel { let key = self.now.table.shared.key in Reaches (M.handlers key.model.value) key.config seat.old.me.0 visit.now.before.value }
        ensures same { (seat.new.table_id ≡ seat.old.table_id) × (seat.new.id ≡ seat.old.id) × Rests seat.new.me × (seat.new.me.0.worker ≡ seat.old.me.0.worker) }
        ensures done { let key = self.now.table.shared.key in MatchResult visit.now.answer
            (λ reply. Visited (M.handlers key.model.value) key.config seat.old.me.0 visit.now.before.value visit.now.step reply visit.now.left.value seat.old.me.0.seen seat.new.me.0)
            (λ _. Unvisited seat.old.me.0 seat.old.me.0.seen seat.new.me.0) }
        ensures ready { let key = self.now.table.shared.key in Reaches (M.handlers key.model.value) key.config seat.new.me.0 visit.now.left.value }
    {
        self.store::<Brand, Visit<M, KIND>>(seat, cell, word, visit);
    }

    /// Gives a cell back unchanged; a floor of the book may have been shown.
    pub(crate) fn release_unchanged(&self, seat: &mut Seat<M>, cell: usize, seen: Option<When>)
        requires table { seat.old.table_id ≡ self.now.table.shared.table_id }
        requires near { cell < cell_count self.now.workers }
        requires held { let key = self.now.table.shared.key in (found : Cell _) × Holding key.config seat.old.me cell found found × MaySee (end_of key.config) seen found }
        ensures same { (seat.new.table_id ≡ seat.old.table_id) × (seat.new.id ≡ seat.old.id) × Rests seat.new.me × (seat.new.me.0.worker ≡ seat.old.me.0.worker) }
        ensures stays { Unvisited seat.old.me.0 (unwrap_or seen seat.old.me.0.seen) seat.new.me.0 }
    {
        self.store::<Brand, Option<When>>(seat, cell, HOME, &seen);
    }

    /// Gives the cell of the book back after a commit. The worker's steps are put behind all others in the list of steps,
    /// and what was committed leaves its part; its kernel still keeps it.
    pub(crate) fn release_commit<const KIND: u8>(
        &self,
        seat: &mut Seat<M>,
        cell: usize,
        lent: &Lent<M, KIND>,
    )
        requires table { seat.old.table_id ≡ self.now.table.shared.table_id }
        requires near { cell < cell_count self.now.workers }
        requires book { cell_at self.now.table.shared.key.config.workers cell ≡ book_cell }
        requires worker { lent.now.worker ≡ seat.old.me.0.worker }
        requires held { let key = self.now.table.shared.key in (found : Cell _) × (now : Cell _) × Holding key.config seat.old.me cell found now
            × CommitsTo (M.handlers key.model.value) key.config lent.now.worker lent.now.kernel.value found now × ShowsFloor (end_of key.config) lent.now.seen now }
        requires kernel { let key = self.now.table.shared.key in Reaches (M.handlers key.model.value) key.config seat.old.me.0 lent.now.kernel.value }
        ensures same { (seat.new.table_id ≡ seat.old.table_id) × (seat.new.id ≡ seat.old.id) × Rests seat.new.me }
        ensures done { let key = self.now.table.shared.key in Commits (M.handlers key.model.value) key.config seat.old.me.0 lent.now.worker lent.now.kernel.value lent.now.seen seat.new.me.0 }
    {
        self.store::<Brand, Lent<M, KIND>>(seat, cell, HOME, lent);
    }

    /// Gives the cell of the book back closed.
    pub(crate) fn release_close(&self, seat: &mut Seat<M>, cell: usize, seen: When)
        requires table { seat.old.table_id ≡ self.now.table.shared.table_id }
        requires near { cell < cell_count self.now.workers }
        requires book { cell_at self.now.table.shared.key.config.workers cell ≡ book_cell }
        requires held { let key = self.now.table.shared.key in (found : Cell _) × (now : Cell _) × Holding key.config seat.old.me cell found now
            × ((part : Part _) → act (simulation_of (M.handlers key.model.value) key.config) Close part found ≡ record { part = part; cell = now; answer = Ok Done }) × ShowsFloor (end_of key.config) seen now }
        ensures same { (seat.new.table_id ≡ seat.old.table_id) × (seat.new.id ≡ seat.old.id) × Rests seat.new.me }
        ensures done { let key = self.now.table.shared.key in Closes (simulation_of (M.handlers key.model.value) key.config) seat.old.me.0 seen seat.new.me.0 }
    {
        self.store::<Brand, When>(seat, cell, HOME, &seen);
    }
}
