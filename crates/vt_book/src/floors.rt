//! The floors up to which workers have handed in.

ghost use Rattle.std.specs.Prelude.{◌≡◌, ◌<◌, ◌≤◌, length, replicate, slice_get, slice_set};
ghost use Rattle.vt_key.specs.promise.Times.{opening_time};
ghost use Rattle.vt_key.specs.declared.limits.TheConstants.{MAX_WORKERS};
ghost use Rattle.vt_steps.specs.promise.Letters.{least_of};

use std::marker::Model;
use vt_key::{MAX_WORKERS, When};

/// A floor for each worker. Contracts see the list of them. No call takes memory.
#[derive(Drop)]
pub(crate) struct Floors {
    workers: u32,
    floors: [When; MAX_WORKERS as usize],
}

impl Model for Floors {
    ghost use Rattle.std.specs.Prelude.{List, ◌≤◌, take};
    ghost use Rattle.vt_key.specs.promise.Times.{Time};
    ghost use Rattle.vt_key.specs.declared.limits.TheConstants.{MAX_WORKERS};

    ghost Value = { List Time };

    ghost view = { λ f. take f.workers f.floors };

    ghost invariant = { λ f. f.workers ≤ MAX_WORKERS };
}

impl Floors {
    /// The floors of `workers` workers that have handed in nothing: each is 0.
    pub(crate) fn new(workers: u32) -> Floors
        requires { workers ≤ MAX_WORKERS }
        ensures { result ≡ replicate workers opening_time }
    {
        Floors {
            workers,
            floors: [When::tick(0); MAX_WORKERS as usize],
        }
    }

    /// The floor of a worker; None if there is no such worker.
    pub(crate) fn get(&self, worker: u32) -> Option<When>
        ensures { result ≡ slice_get self.now worker }
    {
        self.floors[..self.workers as usize]
            .get(worker as usize)
            .copied()
    }

    /// Sets the floor of a worker.
    pub(crate) fn set(&mut self, worker: u32, floor: When)
        requires { worker < length self.old }
        ensures { self.new ≡ slice_set self.old worker floor }
    {
        self.floors[worker as usize] = floor;
    }

    /// The least floor, or the end of the run if there is no worker.
    pub(crate) fn least(&self, end: When) -> When
        ensures { result ≡ least_of end self.now }
    {
        least(&self.floors[..self.workers as usize], end)
    }
}

/// The least of these times and the end.
fn least(times: &[When], end: When) -> When
    ensures { result ≡ least_of end times.now }
{
    let mut least = end;
    for time in times {
        least = least.earlier(*time);
    }
    least
}
