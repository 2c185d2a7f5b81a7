//! The numbers of a run.

ghost use Rattle.std.specs.Prelude.{◌≡◌, ◌<◌, ◌≤◌, ◌/◌, ◌%◌, None, IfOk, IfErr, IsSome};
ghost use Rattle.vt_key.specs.promise.Faults.{option_named};
ghost use Rattle.vt_key.specs.declared.limits.TheConstants.{MAX_PROCESSES, MAX_WORKERS, MAX_END};

use vt_key::{Fault, MAX_END, MAX_PROCESSES, MAX_WORKERS, When};

/// The numbers of a run: how many logical processes and workers it has, when it ends, and the seed of its random words.
#[derive(Debug, Clone, Copy, PartialEq, Eq)]
pub struct Config {
    /// The number of logical processes, from 1 to 65,536. They are named from 0.
    pub lps: u32,
    /// The number of workers, from 1 to 256. They are named from 0.
    pub workers: u32,
    /// The end of virtual time, in ticks, from 1 to 2^62: every event of the run is before this tick, and what would be
    /// received at it or later isn't sent.
    pub end: u64,
    /// The seed of all random words.
    pub seed: u64,
    ghost some_process: { 1 ≤ lps },
    ghost few_processes: { lps ≤ MAX_PROCESSES },
    ghost some_worker: { 1 ≤ workers },
    ghost few_workers: { workers ≤ MAX_WORKERS },
    ghost some_time: { 1 ≤ end },
    ghost in_time: { end ≤ MAX_END },
}

impl Config {
    ghost use Rattle.vt_model.specs.promise.Settings.{end_of};
    ghost use Rattle.vt_model.specs.inside.Settings.{first_bad_setting};

    /// The config of these numbers. `end` is in ticks.
    ///
    /// [`Fault::BadOption`] names the first that is out of its range: `lps`, `workers` or `end`.
    pub fn new(lps: u32, workers: u32, end: u64, seed: u64) -> Result<Config, Fault>
        ensures good { IfOk result (λ c. first_bad_setting lps workers end ≡ None) }
        ensures same { IfOk result (λ c. (c.lps ≡ lps) × (c.workers ≡ workers) × (c.end ≡ end) × (c.seed ≡ seed)) }
        ensures bad { IfErr result (λ fault. IsSome (first_bad_setting lps workers end)) }
        ensures named { IfErr result (λ fault. option_named fault ≡ first_bad_setting lps workers end) }
    {
        if lps < 1 || lps > MAX_PROCESSES {
            return Err(Fault::BadOption("lps"));
        }
        if workers < 1 || workers > MAX_WORKERS {
            return Err(Fault::BadOption("workers"));
        }
        if end < 1 || end > MAX_END {
            return Err(Fault::BadOption("end"));
        }
        Ok(Config {
            lps,
            workers,
            end,
            seed,
        })
    }

    /// The end of virtual time: the first time of tick `end`.
    pub fn end(&self) -> When
        ensures { result ≡ end_of self.now }
    {
        When::tick(self.end)
    }

    /// The worker that owns logical process `p`: `p` modulo the number of workers.
    pub fn owner(&self, p: u32) -> u32
        ensures value { result ≡ p % self.now.workers }
        ensures known { result < self.now.workers }
    {
        // By a power of two it is a mask. A division takes as long as many other instructions.
        if 1 << self.workers.trailing_zeros() == self.workers {
            return p & (self.workers - 1);
        }
        p % self.workers
    }

    /// The index of logical process `p` among those of its worker, from 0: `p` divided by the number of workers.
    pub fn index(&self, p: u32) -> u32
        ensures { result ≡ p / self.now.workers }
    {
        let zeros = self.workers.trailing_zeros();
        if 1 << zeros == self.workers {
            return p >> zeros;
        }
        p / self.workers
    }
}
