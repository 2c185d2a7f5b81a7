//! How workers wait: a bell for each, and what they count together.
//!
//! The bells stand apart from the inboxes, since no call of a place waits. `bench/rounds` counts by edits of this file: after a
//! change here `bench/rounds --check` has to pass.
//!
//! A worker looks at its bell before it sleeps, and doesn't yield its processor meanwhile: beside other programs a worker
//! that yields waits for a whole time slice, and the round waits with it.
//!
//! # Why no run sleeps for ever
//!
//! Each worker has a bell. It says how often it was **rung**, and one more than the rings at which its worker last
//! went to **sleep**. Beside the bells stand how many cuts were done, and how often the round **moved on**.
//!
//! **When a worker waits.** It reads its rings before a turn tries anything. After the turn it waits for more of
//! them only if all of this holds:
//!
//! - In the turn no cut, report or commit was done.
//! - It executed nothing and its outbox is empty, or it is held.
//! - No cell that it tried was claimed by another.
//! - All mail that had arrived is accepted.
//! - No worker has left before the end of the run.
//! - If its floor is END, its close was not lawful.
//!
//! **When a worker rings**, each time after the cell is given back:
//!
//! 1. A worker that posts rings for the receiver.
//! 2. Each cut is counted. Whoever makes the count a multiple of the number of workers counts that the round has
//!    moved on, and rings for all others. In a round each worker cuts once, and counts it before it can report. So
//!    no cut of the next round is counted before all of this one are. The multiple is reached when all cuts of the
//!    round are done.
//! 3. A worker whose report closes a pass, with or without an announced time, counts that the round has moved on,
//!    and rings for all others.
//! 4. A worker that leaves before the end of the run says so, and then rings for all others.
//! 5. A worker that has closed the book rings for all others.
//!
//! **No ring is lost.** Let a worker have read `e` rings before its turn. What becomes visible after one of its
//! tries is followed by a ring, which comes after `e` was read. So its rings are not `e` any more, or will not be.
//!
//! To sleep the worker writes `e + 1` as asleep, and reads its rings again. Only while they are `e` does it ask the
//! system to sleep, which compares them once more. One ringer moves the rings from `e`, and reads asleep after
//! that. If it reads `e + 1`, it wakes whoever sleeps there. If it reads anything else, the worker wrote `e + 1`
//! later, and its next look finds that the rings have moved. All these accesses have one order that all threads
//! see. Other ringers need not wake anybody: they don't move the rings from `e`.
//!
//! A word `asleep` that ringers take away would not do: a late ringer would take away the word of a later sleep.
//! The system compares the last 32 bits alone. So the argument leaves out that a multiple of 2^32 rings comes
//! between a worker's last look and its sleep.
//!
//! **Not all sleep.** Suppose that all workers that have not left wait, and that no ring is under way. Then three
//! things hold:
//!
//! - No worker has left before the end of the run. The others would have been rung for, and a worker that has read
//!   its rings after that finds it said, and doesn't wait.
//! - All have begun, since none makes a turn before.
//! - The book is open. It closes only when all have handed in END, and who closed it has rung. So each other worker
//!   would have made a turn since, in which its close found the book closed.
//!
//! Look at the round that was opened last, if there is one.
//!
//! - There is no round, or it is closed, or some worker hasn't cut in it. Then a cut of some worker is lawful.
//!   Before its last report the worker had read how often the round had moved on; it asks again once that has
//!   changed. Since then the round before was closed by a report that is counted as a move. It rings for the
//!   worker, or was the worker's own, after which it goes on. So its next turn tried a cut. That was done or met a
//!   claimed board, and after neither does a worker wait.
//! - All have cut, and some worker hasn't reported in the open pass. The pass was opened by the last cut, or by the
//!   report that closed the pass before. Both are counted as moves and ring for the worker, so as above its next
//!   turn tried a report.
//! - All have reported in the open pass. There is no such pass: the last report closes it.
//!
//! So as long as nobody leaves, some worker is awake, or a ring is under way that wakes one. Every turn counts, so
//! a run ends at the latest when a worker's turns are spent; then all others make 8 more turns at most.
//!
//! **The end of the run.** By the same argument rounds go on, and each worker cuts after END was announced. Its
//! floor is END then, and it hands in. That may be in a later turn, since a book that is claimed is no reason to
//! wait. The last one to hand in finds all floors at END, so its close is lawful. It closes the book, or finds it
//! claimed and tries again. Then it rings for all, and each finds the book closed.
//!
//! **Busy cells.** A worker that found a cell claimed makes the next turn after some pauses, and gives its
//! processor away after 32 of these in a row. Nobody sleeps while a cell is claimed, for a claim ends without
//! waiting for anybody.

ghost use Rattle.std.specs.Prelude.{◌≡◌, IfErr};
ghost use Rattle.vt_key.specs.declared.fault.Fault.TheVariants.{Memory};

use std::alloc::Global;
use std::hint::spin_loop;
use std::sync::Wait;
use std::sync::atomic::{AtomicBool, AtomicU64, Ordering};
use std::thread::yield_now;
use std::time::Duration;
use vt_key::Fault;

/// How often a worker that has begun looks whether all have, before it sleeps.
const LOOKS: u32 = 300;

/// How long a worker sleeps at a time while not all have begun, in milliseconds.
const NAP: u64 = 4;

/// How often a worker yields after each nap. On a busy machine each yield takes a time slice, in which a started
/// thread may begin.
const YIELDS: u32 = 8;

/// After so many naps in a row in which no worker has begun, a worker concludes that a thread wasn't started.
const MOST_NAPS: u32 = 300;

/// How the wait for all workers to begin has ended.
#[derive(Clone, Copy)]
pub(crate) enum Start {
    /// All workers have begun.
    Whole,
    /// No further worker has begun for so long that the machine can't have started a thread for each.
    Short,
    /// A worker has left before all had begun.
    Over,
}

/// A word that threads share, padded so that nothing else is on its cache lines.
#[derive(Drop)]
#[repr(C)]
struct Word {
    before: [u64; 8],
    value: AtomicU64,
    after: [u64; 8],
}

impl Word {
    fn new() -> Word {
        Word {
            before: [0; 8],
            value: AtomicU64::new(0),
            after: [0; 8],
        }
    }

    fn get(&self) -> u64 {
        self.value.load(Ordering::SeqCst)
    }

    /// Adds 1, and returns the value before.
    fn raise(&self) -> u64 {
        self.value.fetch_add(1, Ordering::SeqCst)
    }
}

/// The bell of one worker. Only that worker sleeps at it.
#[derive(Drop)]
#[repr(C)]
struct Bell {
    before: [u64; 8],
    // How often the bell was rung.
    rings: AtomicU64,
    // One more than `rings` when the worker last went to sleep.
    asleep: AtomicU64,
    after: [u64; 8],
}

impl Bell {
    fn new() -> Bell {
        Bell {
            before: [0; 8],
            rings: AtomicU64::new(0),
            asleep: AtomicU64::new(0),
            after: [0; 8],
        }
    }

    fn rings(&self) -> u64 {
        self.rings.load(Ordering::SeqCst)
    }

    /// Rings the bell. Only the first ring after the worker went to sleep wakes it.
    fn ring(&self) {
        let before = self.rings.fetch_add(1, Ordering::SeqCst);
        if self.asleep.load(Ordering::SeqCst) == before.wrapping_add(1) {
            self.rings.wake_all();
        }
    }

    /// Waits until the bell has been rung more than `heard` times: looks up to `looks` times, then sleeps. Returns whether
    /// it slept.
    fn wait<R: Wait>(&self, rt: &R, heard: u64, looks: u32) -> bool {
        for _ in 0..looks {
            if self.rings() != heard {
                return false;
            }
            spin_loop();
        }
        for _ in rt.forever() {
            self.asleep.store(heard.wrapping_add(1), Ordering::SeqCst);
            if self.rings() != heard {
                break;
            }
            self.rings.park(rt, (heard & 0xffff_ffff) as u32);
        }
        true
    }
}

/// The bells of all workers, by number, and what the workers count together. By them a worker that can't go on is woken.
#[derive(Drop)]
pub struct Bells {
    bells: Vec<Bell>,
    // How many workers have begun.
    begun: Word,
    // How many cuts were done.
    cuts: Word,
    // How often the round has moved on: all had cut, or a pass was closed. Then a cut or a report may have become lawful.
    moves: Word,
    // Whether a worker has left before the end of the run.
    stopped: AtomicBool,
}

impl Bells {
    /// The bells of so many workers.
    ///
    /// [`Fault::Memory`]: memory was refused.
    pub fn new(alloc: Global, workers: u32) -> Result<Bells, Fault>
        ensures refused { IfErr result (λ fault. fault ≡ Memory) }
    {
        let mut bells = Vec::new(alloc);
        for _ in 0..workers {
            let Ok(()) = bells.push(Bell::new()) else {
                return Err(Fault::Memory);
            };
        }
        Ok(Bells {
            bells,
            begun: Word::new(),
            cuts: Word::new(),
            moves: Word::new(),
            stopped: AtomicBool::new(false),
        })
    }

    /// Forgets who has begun and who has left, before the next piece of a run.
    pub(crate) fn reopen(&self) {
        self.begun.value.store(0, Ordering::SeqCst);
        self.stopped.store(false, Ordering::SeqCst);
    }

    /// How often the bell of worker `w` was rung. A worker reads it before it tries, and waits for more if nothing
    /// was done.
    pub(crate) fn heard(&self, w: u32) -> u64 {
        match self.bells.get(w as usize) {
            Some(bell) => bell.rings(),
            None => 0,
        }
    }

    /// Rings the bell of worker `w`.
    pub(crate) fn ring(&self, w: u32) {
        if let Some(bell) = self.bells.get(w as usize) {
            bell.ring();
        }
    }

    /// How often the round of global virtual time has moved on.
    pub(crate) fn moves(&self) -> u64 {
        self.moves.get()
    }

    /// Counts a cut of worker `w`. The last cut of a round moves the round on, since all may report now.
    pub(crate) fn cut(&self, w: u32) {
        let cuts = self.cuts.raise().wrapping_add(1);
        let all = self.bells.len() as u64;
        if all > 0 && cuts % all == 0 {
            self.move_on(w);
        }
    }

    /// Counts that worker `w` has moved the round on, and rings for all others.
    pub(crate) fn move_on(&self, w: u32) {
        self.moves.raise();
        self.ring_others(w);
    }

    /// Rings the bells of all workers but `w`.
    pub(crate) fn ring_others(&self, w: u32) {
        for (i, bell) in self.bells.iter().enumerate() {
            if i != w as usize {
                bell.ring();
            }
        }
    }

    /// Notes that worker `w` leaves before the end of the run, and rings for all others.
    pub(crate) fn stop(&self, w: u32) {
        self.stopped.store(true, Ordering::SeqCst);
        self.ring_others(w);
    }

    /// Whether a worker has left before the end of the run.
    pub(crate) fn is_stopped(&self) -> bool {
        self.stopped.load(Ordering::SeqCst)
    }

    /// Waits until the bell of worker `w` has been rung more than `heard` times: looks up to `looks` times, then sleeps.
    /// Returns whether it slept.
    pub(crate) fn wait<R: Wait>(&self, rt: &R, w: u32, heard: u64, looks: u32) -> bool {
        match self.bells.get(w as usize) {
            Some(bell) => bell.wait(rt, heard, looks),
            None => false,
        }
    }

    /// Counts a worker that begins, and waits until all have begun.
    pub(crate) fn begin<R: Wait>(&self, rt: &R) -> Start {
        if self.is_stopped() {
            return Start::Over;
        }
        let all = self.bells.len() as u64;
        if self.begun.raise().wrapping_add(1) >= all {
            self.begun.value.wake_all();
            return Start::Whole;
        }
        for _ in 0..LOOKS {
            if self.begun.get() >= all {
                return Start::Whole;
            }
            spin_loop();
        }
        self.await_all(rt, all)
    }

    /// Sleeps until all have begun, or no worker has begun for long.
    fn await_all<R: Wait>(&self, rt: &R, all: u64) -> Start {
        let mut seen = 0;
        let mut naps = 0;
        for _ in rt.forever() {
            let begun = self.begun.get();
            if begun >= all {
                return Start::Whole;
            }
            if self.is_stopped() {
                return Start::Over;
            }
            if naps >= MOST_NAPS {
                break;
            }
            naps = if begun > seen { 0 } else { naps + 1 };
            seen = begun;
            self.begun.value.park_timeout(
                rt,
                (begun & 0xffff_ffff) as u32,
                Duration::from_millis(NAP),
            );
            for _ in 0..YIELDS {
                yield_now();
            }
        }
        Start::Short
    }
}
