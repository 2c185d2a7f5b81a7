//! What listens to a run: one gate and one watch for all tests, since a run is proved for each kind of them.

use crate::tests::told::kept;
use std::sync::atomic::{AtomicU64, Ordering};
use vt_station::{Gate, Progress, Watch};

// How often a worker looks for the other at most.
const LOOKS: u32 = 1_000_000_000;

/// Counts and adds up what it is told.
#[derive(Drop)]
pub struct Listener {
    // Whether the first execution of each of two workers waits until that of the other has begun.
    meets: bool,
    // How often worker 0 called, how often the others, and how often one of them gave up waiting.
    first: AtomicU64,
    others: AtomicU64,
    given_up: AtomicU64,
    // The turn of the first call and of the last one, and how often a turn was less than the one before it.
    first_turn: AtomicU64,
    last_turn: AtomicU64,
    falls: AtomicU64,
    // How often a run began, its end and its workers.
    begun: AtomicU64,
    end: AtomicU64,
    workers: AtomicU64,
    executed: AtomicU64,
    undone: AtomicU64,
    tick: AtomicU64,
}

impl Listener {
    /// One that has heard nothing. `meets`: the first execution of each of two workers waits until that of the other has begun.
    pub fn new(meets: bool) -> Listener {
        Listener {
            meets,
            first: AtomicU64::new(0),
            others: AtomicU64::new(0),
            given_up: AtomicU64::new(0),
            first_turn: AtomicU64::new(0),
            last_turn: AtomicU64::new(0),
            falls: AtomicU64::new(0),
            begun: AtomicU64::new(0),
            end: AtomicU64::new(0),
            workers: AtomicU64::new(0),
            executed: AtomicU64::new(0),
            undone: AtomicU64::new(0),
            tick: AtomicU64::new(0),
        }
    }

    /// How often worker 0 was about to execute, and how often the others.
    pub fn calls(&self) -> (u64, u64) {
        (kept(&self.first), kept(&self.others))
    }

    /// How often a worker gave up waiting for the other.
    pub fn given_up(&self) -> u64 {
        kept(&self.given_up)
    }

    /// The turn of the first call, that of the last one, and how often a turn was less than the one before it.
    pub fn turns(&self) -> (u64, u64, u64) {
        (
            kept(&self.first_turn),
            kept(&self.last_turn),
            kept(&self.falls),
        )
    }

    /// How often a run began, its end and its workers.
    pub fn beginning(&self) -> (u64, u64, u64) {
        (kept(&self.begun), kept(&self.end), kept(&self.workers))
    }

    /// How many events were executed, how many undone, and the latest time that was told.
    pub fn progress(&self) -> (u64, u64, u64) {
        (kept(&self.executed), kept(&self.undone), kept(&self.tick))
    }

    fn note(&self, turn: u64) {
        if self.calls() == (0, 0) {
            self.first_turn.store(turn, Ordering::SeqCst);
        }
        if turn < self.last_turn.swap(turn, Ordering::SeqCst) {
            self.falls.fetch_add(1, Ordering::SeqCst);
        }
    }

    fn meet(&self, own: &AtomicU64, other: &AtomicU64) {
        if own.fetch_add(1, Ordering::SeqCst) == 0 && self.meets {
            self.wait_for(other);
        }
    }

    fn wait_for(&self, calls: &AtomicU64) {
        for _ in 0..LOOKS {
            if kept(calls) > 0 {
                return;
            }
        }
        self.given_up.fetch_add(1, Ordering::SeqCst);
    }
}

impl Gate for Listener {
    fn before_execute(&self, worker: u32, turn: u64) {
        self.note(turn);
        if worker == 0 {
            self.meet(&self.first, &self.others);
        } else {
            self.meet(&self.others, &self.first);
        }
    }
}

impl Watch for Listener {
    fn begin(&self, end: u64, workers: Option<u32>) {
        self.begun.fetch_add(1, Ordering::SeqCst);
        self.end.store(end, Ordering::SeqCst);
        let workers = u64::from(workers.unwrap_or(0));
        self.workers.store(workers, Ordering::SeqCst);
    }

    fn tell(&self, _worker: u32, progress: Progress) {
        self.executed.fetch_add(progress.executed, Ordering::SeqCst);
        self.undone.fetch_add(progress.undone, Ordering::SeqCst);
        self.tick.fetch_max(progress.tick, Ordering::SeqCst);
    }
}
