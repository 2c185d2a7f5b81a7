//! Theorems on times, floors and the book: the second half of why an optimistic run is right.
//!
//! "After any steps" means: in the world that a list of the eleven steps makes of the opening world. The simulation
//! is any that meets the laws, and the first serials are any. The list may contain steps that are refused.

ghost use Rattle.std.specs.Prelude.{ℕ, ◌≡◌, IsTrue, List, Some, slice_get};
ghost use Rattle.vt_key.specs.promise.Times.{TimeAtMost};
ghost use Rattle.vt_key.specs.promise.Lists.{IsRisingBy};
ghost use Rattle.vt_model.specs.promise.Simulation.{Simulation};
ghost use Rattle.vt_model.specs.promise.Histories.{IsLawful};
ghost use Rattle.vt_model.specs.promise.Rows.{RowBefore};
ghost use Rattle.vt_steps.specs.declared.step.Step.{Step};
ghost use Rattle.vt_steps.specs.promise.Rows.{rows_in_order};
ghost use Rattle.vt_steps.specs.promise.World.{Part, least};
ghost use Rattle.vt_steps.specs.inside.Finals.{worker_finals, part_values};
ghost use Rattle.vt_steps.specs.promise.Next.{reached, run};
ghost use Rattle.vt_steps.specs.promise.Claims.{AreFloorsRight, AreRecordsRight, NothingFalls, IsWhole, StaysClosed, IsTimeWarpRight};
ghost use Rattle.vt_steps.specs.inside.Claims.{AreProcessesFinal, DoGuardsPass};

/// After any steps, the book's floor is at most the announced time. The announced time is at most the least time of
/// any unprocessed or travelling event or anti-message. In any further steps neither falls, and the records that the
/// book showed remain the first ones that it shows.
pub fn floors_are_right<S, P>()
    ghost sim: { Simulation S P }
    requires { IsLawful sim }
    ensures right { (serial : ℕ) (steps : List Step) →
        AreFloorsRight sim (reached sim serial steps) }
    ensures later { (serial : ℕ) (steps more : List Step) →
        NothingFalls sim (reached sim serial steps) (run sim (reached sim serial steps) more) }
{}

/// After any steps, the book's records are exactly the sequential run's records below the book's floor, in the order
/// in which that run makes them, each once. No two rows of the book have the same key and index. That includes rows
/// that it doesn't show yet.
pub fn records_are_right<S, P>()
    ghost sim: { Simulation S P }
    requires { IsLawful sim }
    ensures right { (serial : ℕ) (steps : List Step) →
        AreRecordsRight sim (reached sim serial steps) }
    ensures once { (serial : ℕ) (steps : List Step) →
        IsRisingBy RowBefore (rows_in_order (reached sim serial steps).book.rows) }
{}

/// Once the book is closed, its floor is the end of the run and its records are those of the whole sequential run.
/// Each commit and each close is refused as closed. Each logical process stands where its events of the whole run
/// leave it. In any further steps the book is unchanged, and each commit and each close is refused as closed.
pub fn closed_book_is_whole<S, P>()
    ghost sim: { Simulation S P }
    requires { IsLawful sim }
    ensures whole { (serial : ℕ) (steps : List Step) →
        IsTrue (reached sim serial steps).book.is_closed →
        IsWhole sim (reached sim serial steps) }
    ensures finals { (serial : ℕ) (steps : List Step) →
        IsTrue (reached sim serial steps).book.is_closed →
        AreProcessesFinal sim (reached sim serial steps) }
    ensures stays { (serial : ℕ) (steps more : List Step) →
        IsTrue (reached sim serial steps).book.is_closed →
        StaysClosed sim (reached sim serial steps) (run sim (reached sim serial steps) more) }
{}

/// Once a worker's floor is the end of the run, nothing is unprocessed or travelling any more, whether the book is closed or
/// not. The processes of each worker then have their final values: those of the sequential run, after the whole run.
pub fn values_at_the_end_are_final<S, P>()
    ghost sim: { Simulation S P }
    requires { IsLawful sim }
    ensures quiet { (serial : ℕ) (steps : List Step) (w : ℕ) (part : Part P) →
        slice_get (reached sim serial steps).parts w ≡ Some part → TimeAtMost sim.end part.floor →
        TimeAtMost sim.end (least sim.end (reached sim serial steps)) }
    ensures values { (serial : ℕ) (steps : List Step) (w v : ℕ) (part other : Part P) →
        slice_get (reached sim serial steps).parts w ≡ Some part → TimeAtMost sim.end part.floor →
        slice_get (reached sim serial steps).parts v ≡ Some other → part_values sim v other ≡ worker_finals sim v }
{}

/// After any steps, four guards never fail. A letter that comes home or is accepted is never held already, so it is
/// delivered. No worker's least time is below the announced time. So in a round in which all have cut, a worker that
/// hasn't reported in the pass can report. No worker's floor is below its hand-in floor. So each worker can commit
/// unless the book is closed.
pub fn guards_never_fail<S, P>()
    ghost sim: { Simulation S P }
    requires { IsLawful sim }
    ensures { (serial : ℕ) (steps : List Step) →
        DoGuardsPass sim (reached sim serial steps) }
{}

/// After any list of steps by any number of workers, with letters accepted in any order:
///
/// - the book's records are exactly the sequential run's records below the book's floor, in that run's order, each
///   once;
/// - the announced time never falls, and never exceeds the least time of any unprocessed or travelling event or
///   anti-message;
/// - once closed, the book holds the whole run and takes nothing more: in any further steps it stays closed and as it is,
///   and each commit and each close is refused as closed.
///
/// Copies, ranks, histories and guards have theorems of their own.
pub fn headline<S, P>()
    ghost sim: { Simulation S P }
    requires { IsLawful sim }
    ensures { IsTimeWarpRight sim }
{}
