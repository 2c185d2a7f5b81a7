//! The steps of a run, and their replies.

use vt_key::{Stamp, When};

/// One step of a run. Processes and workers are given by number, from 0; process `p` belongs to worker `p mod
/// workers`.
///
/// Executing, undoing and cancelling are Jefferson's (Virtual Time, 1985). Cutting and reporting agree on his global
/// virtual time, by Mattern's two cuts (Efficient Algorithms for Distributed Snapshots and Global Virtual Time
/// Approximation, 1993).
///
/// A counter that is spent and memory that is refused are no steps: what they refuse stands in no list of steps.
#[derive(Debug, Clone, Copy, PartialEq, Eq)]
pub enum Step {
    /// This process executes its least pending event.
    Execute(u32),
    /// This process undoes the last event that it executed and that isn't committed: one step of a rollback.
    Undo(u32),
    /// At this process, the message and the anti-message of this stamp annihilate each other.
    Cancel(u32, Stamp),
    /// The first letter of this worker's outbox that is for one of its own processes goes there.
    Home(u32),
    /// All letters of the first worker's outbox that are for processes of the second go into the second one's inbox.
    Send(u32, u32),
    /// This worker empties its inbox.
    Fetch(u32),
    /// The letter at this index, from 0, of the mail that this worker has fetched goes to its process.
    Accept(u32, u64),
    /// This worker joins the open round and changes its colour; if none is open, it opens one.
    Cut(u32),
    /// This worker reports its counts and its least time to the board; the last one closes the pass.
    Report(u32),
    /// This worker hands the records of its events below its floor in to the book. It will never undo these events.
    Commit(u32),
    /// The book is closed: no record will follow.
    Close,
}

/// The answer to a step that was done.
#[derive(Debug, Clone, Copy, PartialEq, Eq)]
pub enum Reply {
    /// The step was done: the answer of all steps but `Report`.
    Done,
    /// The report was taken, and other workers' reports are awaited.
    Waiting,
    /// All have reported, and letters of the old colour were still travelling: a new pass of the same round begins.
    Again,
    /// All have reported, no letter of the old colour was travelling, and this is the new global virtual time.
    Announced(When),
}
