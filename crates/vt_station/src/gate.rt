//! What each execution of a run goes through.

/// Called before each execution of a run on workers, in the worker's thread, which waits until the call returns: a test may hold a
/// worker there. It can't change a record of the run.
pub trait Gate {
    /// Called when worker `worker` is about to execute an event in its turn `turn`, counted from 1.
    fn before_execute(&self, worker: u32, turn: u64);
}

/// The gate that does nothing.
#[derive(Clone, Copy)]
pub struct Open;

impl Gate for Open {
    fn before_execute(&self, _worker: u32, _turn: u64) {}
}
