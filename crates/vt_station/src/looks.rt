//! How long a worker looks at its bell before it sleeps.
//!
//! A worker that sleeps has to be woken, and then rings late itself. Where that takes longer than the others look, they sleep too, and so
//! on in every round, though each processor is free: such a run takes ten times as long and more. So a worker begins *patient*: it looks
//! longer than a round takes in which all have to be woken. On a busy machine patience takes processors from those that it waits for. So
//! where patience wasn't enough the worker is impatient for a number of sleeps. That number doubles each time that patience wasn't enough, and
//! is halved after some waits in a row in which it was.
//!
//! `bench/parallel --set dense --late 1` measures it where woken workers begin late, `--loops 4` on a busy machine.

/// How often a patient worker looks. After each look the processor pauses, for 5 to 50 nanoseconds by its kind: some 1 to 10 milliseconds.
const PATIENT: u32 = 200_000;

/// The most looks of an impatient worker: 20 to 200 microseconds, in which another worker makes a turn or more.
const MOST: u32 = 4_000;

/// The fewest looks of an impatient worker. They are few, so that on a busy machine it sleeps nearly at once.
const LEAST: u32 = 100;

/// The fewest sleeps after which an impatient worker is patient again.
const FEW_SLEEPS: u32 = 8;

/// The most sleeps after which an impatient worker is patient again.
const MANY_SLEEPS: u32 = 4_096;

/// After so many waits in a row in which patience was enough, half as many sleeps make an impatient worker patient again.
const CALM: u32 = 16;

/// How often a worker looks at its bell before it sleeps.
#[derive(Drop)]
pub(crate) struct Looks {
    is_patient: bool,
    // Waits in a row in which patience was enough.
    calm: u32,
    // The looks while impatient: halved after each sleep, doubled after each wait without one.
    count: u32,
    // How many sleeps there were while impatient, and how many make patient again.
    sleeps: u32,
    enough: u32,
}

impl Looks {
    /// The looks of a worker that begins.
    pub(crate) fn new() -> Looks {
        Looks {
            is_patient: true,
            calm: 0,
            count: MOST,
            sleeps: 0,
            enough: FEW_SLEEPS,
        }
    }

    /// How often the worker looks at its next wait.
    pub(crate) fn count(&self) -> u32 {
        if self.is_patient { PATIENT } else { self.count }
    }

    /// Adapts the looks to a wait that is over, in which the worker has slept or not.
    pub(crate) fn adapt(&mut self, slept: bool) {
        match (self.is_patient, slept) {
            (true, true) => self.lose_patience(),
            (true, false) => self.calm_down(),
            (false, true) => self.sleep(),
            (false, false) => self.count = self.count.saturating_mul(2).min(MOST),
        }
    }

    // Patience wasn't enough.
    fn lose_patience(&mut self) {
        self.is_patient = false;
        self.calm = 0;
        self.count = LEAST;
        self.enough = self.enough.saturating_mul(2).min(MANY_SLEEPS);
    }

    // Patience was enough.
    fn calm_down(&mut self) {
        self.calm = self.calm.saturating_add(1);
        if self.calm >= CALM {
            self.calm = 0;
            self.enough = (self.enough / 2).max(FEW_SLEEPS);
        }
    }

    // The impatient worker slept.
    fn sleep(&mut self) {
        self.count = (self.count / 2).max(LEAST);
        self.sleeps = self.sleeps.saturating_add(1);
        if self.sleeps >= self.enough {
            self.sleeps = 0;
            self.is_patient = true;
        }
    }
}
