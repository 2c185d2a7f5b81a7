//! What the threads of a run tell, and the thread that shows it.

use crate::reading::{Reading, last_line, line};
use std::alloc::Global;
use std::io::Write;
use std::sync::Wait;
use std::sync::atomic::{AtomicBool, AtomicU64, Ordering};
use std::thread;
use std::thread::{Parker, Threads};
use std::time::{Clock, Duration, Instant};
use vt_watch::{Progress, Watch};

/// How many milliseconds a run takes before it is shown. Of a shorter run only traps are shown.
const LONG: u64 = 2_000;

/// How long the line stands before it is written anew, in milliseconds.
const STANDS: u64 = 500;

/// For how many milliseconds a line has stood, at least, before it is written anew. It is less than [`STANDS`], since a wait may end
/// early.
const STANDS_AT_LEAST: u64 = 400;

/// Takes away the line that stands on a terminal.
const CLEAR: &[u8] = b"\r\x1b[K";

/// What the threads of a run tell of it. It is shown on a terminal, or nowhere.
#[derive(Drop)]
pub struct Meter {
    // When the run began, if it is shown.
    start: Option<Instant>,
    // Whether a run has begun, and whether all is over.
    begun: AtomicBool,
    over: AtomicBool,
    // Whether other text has come to the terminal, so that no line is written there any more.
    hushed: AtomicBool,
    // Whether a line stands on the terminal.
    stands: AtomicBool,
    end: AtomicU64,
    on_workers: AtomicBool,
    tick: AtomicU64,
    executed: AtomicU64,
    undone: AtomicU64,
    trapped: AtomicU64,
    // Whether a run's turns were spent.
    spent: AtomicBool,
    // Where the thread that shows the run sleeps.
    parker: Parker,
}

impl Watch for Meter {
    fn begin(&self, end: u64, workers: Option<u32>) {
        self.end.store(end, Ordering::SeqCst);
        self.on_workers.store(workers.is_some(), Ordering::SeqCst);
        self.begun.store(true, Ordering::SeqCst);
    }

    fn tell(&self, _worker: u32, progress: Progress) {
        if self.is_shown() {
            self.tick.fetch_max(progress.tick, Ordering::SeqCst);
            self.executed.fetch_add(progress.executed, Ordering::SeqCst);
            self.undone.fetch_add(progress.undone, Ordering::SeqCst);
        }
    }
}

impl Meter {
    /// A meter that has been told nothing. Where `shown` is false, or the clock can't be read, it shows nothing.
    pub fn new<R: Clock>(rt: &R, shown: bool) -> Meter {
        let start = if shown { Instant::now(rt).ok() } else { None };
        Meter {
            start,
            begun: AtomicBool::new(false),
            over: AtomicBool::new(false),
            hushed: AtomicBool::new(false),
            stands: AtomicBool::new(false),
            end: AtomicU64::new(0),
            on_workers: AtomicBool::new(false),
            tick: AtomicU64::new(0),
            executed: AtomicU64::new(0),
            undone: AtomicU64::new(0),
            trapped: AtomicU64::new(0),
            spent: AtomicBool::new(false),
            parker: Parker::new(),
        }
    }

    /// What is known of the run now.
    fn read(&self) -> Reading {
        Reading {
            end: self.end.load(Ordering::SeqCst),
            tick: self.tick.load(Ordering::SeqCst),
            on_workers: self.on_workers.load(Ordering::SeqCst),
            executed: self.executed.load(Ordering::SeqCst),
            undone: self.undone.load(Ordering::SeqCst),
            trapped: self.trapped.load(Ordering::SeqCst),
        }
    }

    /// Whether it is shown.
    pub(crate) fn is_shown(&self) -> bool {
        self.start.is_some()
    }

    /// Is told that so many more handlers trapped.
    pub(crate) fn tell_traps(&self, count: u64) {
        self.trapped.fetch_add(count, Ordering::SeqCst);
    }

    /// Is told that a run's turns were spent.
    pub(crate) fn tell_spent(&self) {
        self.spent.store(true, Ordering::SeqCst);
    }

    /// Whether a run's turns were spent.
    pub(crate) fn is_spent(&self) -> bool {
        self.spent.load(Ordering::SeqCst)
    }

    /// Takes the line away, for other text on the terminal, and lets no other one come.
    pub(crate) fn hush<E: Write>(&self, terminal: &mut E) {
        self.hushed.store(true, Ordering::SeqCst);
        self.clear(terminal);
    }

    fn clear<E: Write>(&self, terminal: &mut E) {
        if self.stands.swap(false, Ordering::SeqCst) {
            let _ = terminal.write_all(CLEAR);
        }
    }

    /// Writes a line in the place of the one that stands.
    fn show_line<E: Write>(&self, terminal: &mut E, text: &str) {
        if self.hushed.load(Ordering::SeqCst) {
            return;
        }
        self.clear(terminal);
        let _ = terminal.write_all(text.as_bytes());
        self.stands.store(true, Ordering::SeqCst);
    }

    /// How long ago the meter was made, in milliseconds.
    fn age<R: Clock>(&self, rt: &R, start: Instant) -> u64 {
        match start.elapsed(rt) {
            Ok(elapsed) => elapsed.as_millis().min(u128::from(u64::MAX)) as u64,
            Err(_) => 0,
        }
    }

    /// Shows a run that takes long until all is over, and then its last line.
    fn show<R: Wait + Clock, E: Write>(
        &self,
        rt: &R,
        alloc: Global,
        start: Instant,
        terminal: &mut E,
    ) {
        let mut before = self.read();
        let mut shown = 0;
        for _ in rt.forever() {
            if self.over.load(Ordering::SeqCst) {
                break;
            }
            self.parker.park_timeout(rt, Duration::from_millis(STANDS));
            let age = self.age(rt, start);
            let stood = age.saturating_sub(shown);
            if stood < STANDS_AT_LEAST {
                continue;
            }
            let now = self.read();
            if age > LONG && self.begun.load(Ordering::SeqCst) {
                if let Ok(text) = line(alloc, &now, &before, stood) {
                    self.show_line(terminal, text.as_str());
                }
            }
            before = now;
            shown = age;
        }
        self.show_end(alloc, self.age(rt, start), terminal);
    }

    /// Writes the last line of a run that took long, or whose records tell of a trap.
    fn show_end<E: Write>(&self, alloc: Global, age: u64, terminal: &mut E) {
        self.clear(terminal);
        let whole = self.read();
        if (age > LONG || whole.trapped > 0) && self.begun.load(Ordering::SeqCst) {
            if let Ok(text) = last_line(alloc, &whole, age) {
                let _ = terminal.write_all(text.as_bytes());
                let _ = terminal.write_all(b"\n");
            }
        }
    }

    /// Does some work, and meanwhile shows in a thread of its own what the meter is told, if it is shown.
    ///
    /// Where no thread can be started, only the last line is shown.
    pub fn during<R: Threads + Wait + Clock + Sync, E: Write + Send + Drop, F: FnOnce() -> u8>(
        &self,
        rt: &R,
        alloc: Global,
        terminal: E,
        work: F,
    ) -> u8
        requires { F.pre work }
        ensures { F.post work result }
    {
        let Some(start) = self.start else {
            return work();
        };
        let mut terminal = terminal;
        let (_, status) = thread::join(
            rt,
            || self.show(rt, alloc, start, &mut terminal),
            || {
                let status = work();
                self.over.store(true, Ordering::SeqCst);
                self.parker.unpark();
                status
            },
        );
        status
    }
}
