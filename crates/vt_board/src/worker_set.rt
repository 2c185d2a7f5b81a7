//! Sets of workers.

ghost use Rattle.std.specs.Prelude.{◌≡◌, ◌<◌, ◌≤◌, nat_lt, false, true, length, replicate, slice_get, slice_set};
ghost use Rattle.vt_key.specs.declared.limits.TheConstants.{MAX_WORKERS};
ghost use Rattle.vt_steps.specs.promise.BoardSteps.{all_set, is_clear};

use std::marker::Model;
use vt_key::MAX_WORKERS;

/// A set of workers of a run. Contracts see a flag for each worker.
#[derive(Drop)]
pub(crate) struct WorkerSet {
    workers: usize,
    flags: [bool; MAX_WORKERS as usize],
}

impl Model for WorkerSet {
    ghost use Rattle.std.specs.Prelude.{◌≤◌, List, Bool, take};
    ghost use Rattle.vt_key.specs.declared.limits.TheConstants.{MAX_WORKERS};

    ghost Value = { List Bool };

    ghost view = { λ s. take s.workers s.flags };

    ghost invariant = { λ s. s.workers ≤ MAX_WORKERS };
}

impl WorkerSet {
    /// The empty set, in a run of `workers` workers.
    pub(crate) fn none_of(workers: u32) -> WorkerSet
        requires { workers ≤ MAX_WORKERS }
        ensures { result ≡ replicate workers false }
    {
        WorkerSet {
            workers: workers as usize,
            flags: [false; MAX_WORKERS as usize],
        }
    }

    /// Whether `w` is a worker of the run, in the set or not.
    pub(crate) fn knows(&self, w: u32) -> bool
        ensures { result ≡ nat_lt w (length self.now) }
    {
        (w as usize) < self.workers
    }

    /// Whether `w` is a worker that isn't in the set.
    pub(crate) fn lacks(&self, w: u32) -> bool
        ensures { result ≡ is_clear (slice_get self.now w) }
    {
        self.knows(w) && !self.flags[w as usize]
    }

    /// Whether all workers of the run are in the set.
    pub(crate) fn is_full(&self) -> bool
        ensures { result ≡ all_set self.now }
    {
        self.flags[..self.workers].iter().all(|flag| *flag)
    }

    /// Adds a worker.
    pub(crate) fn insert(&mut self, w: u32)
        requires { w < length self.old }
        ensures { self.new ≡ slice_set self.old w true }
    {
        self.flags[w as usize] = true;
    }

    /// Takes all workers out.
    pub(crate) fn clear(&mut self)
        ensures { self.new ≡ replicate (length self.old) false }
    {
        self.flags = [false; MAX_WORKERS as usize];
    }
}
