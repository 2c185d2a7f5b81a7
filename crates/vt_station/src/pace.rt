//! How far a worker executes ahead of the others, and for how many turns once another one has left.
//!
//! A turn executes at most as many events as the worker's bound says. Each cut of the worker changes it: it is halved where
//! too much was taken back, and rises by one where little was. Both are counted in messages, as the worker tells by its hints.
//!
//! A worker that has received mail from others is held if its bound is 1 or its patience is over: it executes one event, and
//! then waits for mail or for the round. In a run that isn't calm a cut or a report alone tells nothing of progress: the
//! rounds go on where one worker is behind, and the others would execute far ahead in vain. In a calm one it has to count,
//! since one tick of a large model may have more events than the patience allows. A worker alone is never held.
//!
//! The most events of a turn stay as they are: what [`run_workers`](crate::run_workers) promises of a turn names them. The other numbers may
//! be tuned.

ghost use Rattle.std.specs.Prelude.{◌≡◌, ◌<◌, ◌≤◌, suc, IsTrue, IsFalse};

/// The most events that a worker executes in one turn. It isn't tuned: a turn is said to be sixteen events at most.
const MOST_EXECUTIONS: u32 = 16;

/// The patience of all workers together while little is undone. A worker's share of it is the number of turns in which it executes
/// at full pace since its floor has risen, or, in a calm run, since its last cut or report.
const LONG_PATIENCE: u32 = 128;

/// The patience of all workers together while more is undone.
const PATIENCE: u32 = 16;

/// A worker has the long patience if it may execute at least so many events in a turn.
const HIGH_BOUND: u32 = 8;

/// The least patience of one worker, in turns.
const LEAST_PATIENCE: u32 = 4;

/// If more than one in so many letters is taken back, a turn executes half as many events.
const TOO_MANY: u64 = 16;

/// If at most one in so many letters is taken back, the run is calm: a turn executes one event more, and each cut or report makes
/// the worker patient again.
const FEW: u64 = 32;

/// How many turns a worker makes after another one has left before the end of the run. They are enough to close a
/// book to which all have handed in.
const LAST_TURNS: u32 = 8;

/// How far a worker executes ahead: the less, the more of what it has sent is taken back.
#[derive(Drop)]
pub(crate) struct Pace {
    workers: u32,
    // The most events that a turn executes.
    most: u32,
    // How many letters events made, and how many were taken back, since the worker's last cut.
    made: u64,
    undone: u64,
    // Whether the run was calm when the worker last adapted.
    calm: bool,
    // How many turns executed something since the worker was patient last.
    waited: u32,
    // Whether mail has come from another worker. Such mail may undo what was executed ahead.
    disturbed: bool,
    // How many turns were made since another worker left before the end of the run.
    last_turns: u32,
}

impl Pace {
    /// The pace at the start of a run: as fast as possible.
    pub(crate) fn new(workers: u32) -> Pace {
        Pace {
            workers,
            most: MOST_EXECUTIONS,
            made: 0,
            undone: 0,
            calm: true,
            waited: 0,
            disturbed: false,
            last_turns: 0,
        }
    }

    /// Notes that mail has come from another worker.
    pub(crate) fn disturb(&mut self) {
        self.disturbed = true;
    }

    /// Counts letters that events have made.
    pub(crate) fn make(&mut self, count: usize) {
        self.made = self.made.saturating_add(count as u64);
    }

    /// Counts letters that were taken back.
    pub(crate) fn undo(&mut self, count: usize) {
        self.undone = self.undone.saturating_add(count as u64);
    }

    /// Adapts the pace at a cut to what was taken back since the last one. In a worker that is alone its own letters may
    /// undo what it executed in the turn in which they were sent.
    pub(crate) fn adapt(&mut self) {
        if self.made > 0 || self.undone > 0 {
            self.calm = self.undone.saturating_mul(FEW) <= self.made;
            if self.undone.saturating_mul(TOO_MANY) > self.made {
                self.most = (self.most / 2).max(1);
            } else if self.calm {
                self.most = self.most.saturating_add(1).min(MOST_EXECUTIONS);
            }
        }
        self.made = 0;
        self.undone = 0;
    }

    /// Counts a turn: `agreed` if a cut or a report was done, `committed` if events were committed, since the floor has risen, and
    /// `executed` if an event was executed.
    pub(crate) fn count_turn(&mut self, agreed: bool, committed: bool, executed: bool) {
        if committed || (agreed && self.calm) {
            self.waited = 0;
        } else if executed {
            self.waited = self.waited.saturating_add(1);
        }
    }

    fn patience(&self) -> u32 {
        let all = if self.most >= HIGH_BOUND {
            LONG_PATIENCE
        } else {
            PATIENCE
        };
        (all / self.workers.max(1)).max(LEAST_PATIENCE)
    }

    /// Whether the worker holds back: it executes one event a turn, and waits for the others after it.
    pub(crate) fn is_held(&self) -> bool {
        self.disturbed && (self.most == 1 || self.waited >= self.patience())
    }

    /// How many events a turn may execute: none once another worker has left before the end of the run.
    pub(crate) fn allowed(&self) -> u32
        ensures { 0 < self.now.last_turns → result ≡ 0 }
    {
        if self.last_turns > 0 {
            0
        } else if self.is_held() {
            1
        } else {
            self.most
        }
    }

    /// Forgets that another worker had left, before the next piece of a run.
    pub(crate) fn resume(&mut self) {
        self.last_turns = 0;
    }

    /// Whether another turn may do something. After another worker has left before the end of the run, only a few may.
    pub(crate) fn goes_on(&mut self, is_stopped: bool) -> bool
        ensures running { IsFalse is_stopped → IsTrue result × (self.new ≡ self.old) }
        ensures more { IsTrue is_stopped → IsTrue result → (self.new.last_turns ≡ suc self.old.last_turns) × (self.new.last_turns ≤ LAST_TURNS) }
        ensures enough { IsFalse result → LAST_TURNS ≤ self.old.last_turns }
    {
        if !is_stopped {
            return true;
        }
        self.last_turns = self.last_turns.saturating_add(1);
        self.last_turns <= LAST_TURNS
    }
}
