//! What watches a run.
#![tactic(auto)]

/// What a worker has done since it last told of it, and how far it is.
#[derive(Debug, Clone, Copy)]
pub struct Progress {
    /// The tick that the worker is sure of: nothing before it is undone any more.
    pub tick: u64,
    /// How many events it has executed since it last told of it.
    pub executed: u64,
    /// How many events it has undone since it last told of it.
    pub undone: u64,
}

/// What watches a run. Each call is made in a thread of the run, which waits until it returns.
///
/// No call can change a record of the run. None has to do anything.
pub trait Watch {
    /// Called before a run begins: `end` is the tick at which it ends, and `workers` how many workers it has. None: it is a run in one
    /// thread.
    fn begin(&self, _end: u64, _workers: Option<u32>) {}

    /// Called when worker `worker` has handed in what it committed, and at the end of its work. A run in one thread calls it
    /// now and then, as worker 0.
    fn tell(&self, _worker: u32, _progress: Progress) {}
}

/// Watches no run: none of its calls does anything.
#[derive(Clone, Copy)]
pub struct Unwatched;

impl Watch for Unwatched {}
