//! What a look at a model finds.

use std::fmt;
use thiserror::Error;
use vt_key::{Fault, When};

/// Where in a run: the process, and the time of the event that it executes. A start is at tick 0 with priority 0.
#[derive(Debug, Clone, Copy, PartialEq, Eq)]
pub struct Moment {
    /// The logical process.
    pub lp: u32,
    /// The tick.
    pub tick: u64,
    /// The priority within the tick.
    pub priority: u8,
}

impl Moment {
    /// The moment of a process at a time.
    pub(crate) fn new(lp: u32, now: When) -> Moment {
        Moment {
            lp,
            tick: now.ticks(),
            priority: now.priority(),
        }
    }
}

impl fmt::Display for Moment {
    fn fmt<W: fmt::Write>(&self, f: &mut fmt::Formatter<W>) -> fmt::Result {
        let lp = self.lp;
        let tick = self.tick;
        let priority = self.priority;
        write!(f, "process {lp} at tick {tick}, priority {priority}")
    }
}

/// What an event gives.
#[derive(Debug, Clone, Copy, PartialEq, Eq)]
pub enum Part {
    /// The state of its process.
    State,
    /// What it sends.
    Sends,
    /// What it records.
    Records,
    /// How many random words it draws.
    Draws,
}

impl fmt::Display for Part {
    fn fmt<W: fmt::Write>(&self, f: &mut fmt::Formatter<W>) -> fmt::Result {
        let name = match self {
            Part::State => "another state",
            Part::Sends => "other sends",
            Part::Records => "other records",
            Part::Draws => "another number of random words",
        };
        f.write_str(name)
    }
}

/// Why a look at a model ended early: the first event with which something is wrong, or a fault.
#[derive(Debug, Drop, Error)]
pub enum Difference {
    /// `reverse` hasn't given back the state from before the event.
    #[error("{0}: reverse gives another state than the one before the event")]
    Undone(Moment),
    /// The event was undone and executed again, and gave something else than in the same state before.
    #[error("{0}: executed again after an undo, the event gives {1}")]
    Again(Moment, Part),
    /// It sends an event to a process that there isn't. The numbers are that process and the last process of the run.
    #[error("{0}: it sends to process {1}, and the last process is {2}")]
    Receiver(Moment, u32, u32),
    /// It sends an event that isn't received later than now. The numbers are the receiver, the tick and the priority of the receipt.
    #[error("{0}: it sends to process {1} for tick {2}, priority {3}, which isn't later")]
    Early(Moment, u32, u64, u8),
    /// The look itself was refused something: memory, or a send number above 2^63.
    #[error("{0}")]
    Refused(Fault),
}
