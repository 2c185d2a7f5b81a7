//! The choices of a command line that belong to no model.

use vt_model::Config;
use vt_text::Version;

/// How a run keeps events in order.
#[derive(Debug, Clone, Copy, PartialEq, Eq)]
pub enum Synch {
    /// `1`: one thread, which always executes the pending event of least key.
    Sequential,
    /// `3`: Time Warp, in a thread for each worker. A worker executes the least event that it knows of, and rolls back if an
    /// earlier one arrives after it.
    Optimistic,
}

/// How a run of any model is made. Each value is in its range, also those that the run doesn't use.
#[derive(Debug, Clone, Copy, PartialEq, Eq)]
pub struct RunSettings {
    /// How events are kept in order.
    pub synch: Synch,
    /// The numbers of processes and workers, the end of virtual time, and the seed.
    pub config: Config,
    /// The most turns of each worker, from 1 to 2^63. A sequential run doesn't use it.
    pub turns: u64,
    /// The version of the text in which the records are printed. None: they aren't.
    pub records: Option<Version>,
    /// Whether the final value of each process is printed after them.
    pub finals: bool,
}

/// How a replay of any model is made. Each value is in its range.
#[derive(Debug, Clone, Copy, PartialEq, Eq)]
pub struct ReplaySettings {
    /// The numbers of processes and workers, the end of virtual time, and the seed.
    pub config: Config,
    /// The serial of the first event that each worker makes, from 0 to 2^63.
    pub serial: u64,
    /// The version of the text in which the records are printed.
    pub text: Version,
}

/// What a program does with a model.
#[derive(Debug, Clone, Copy)]
pub enum Task {
    /// A run with these settings.
    Run(RunSettings),
    /// A replay with these settings.
    Replay(ReplaySettings),
}

impl Task {
    ghost use Rattle.std.specs.Prelude.{◌≡◌};
    ghost use Rattle.vt_options.specs.promise.Tasks.{task_config};
    ghost use Rattle.vt_options.specs.inside.Tasks.{with_config};

    /// The config of its settings.
    pub fn config(&self) -> Config
        ensures { result ≡ task_config self.now }
    {
        match self {
            Task::Run(settings) => settings.config,
            Task::Replay(settings) => settings.config,
        }
    }

    /// The same task with another config.
    pub fn with_config(&self, config: Config) -> Task
        ensures { result ≡ with_config config self.now }
    {
        match self {
            Task::Run(settings) => Task::Run(RunSettings {
                synch: settings.synch,
                config,
                turns: settings.turns,
                records: settings.records,
                finals: settings.finals,
            }),
            Task::Replay(settings) => Task::Replay(ReplaySettings {
                config,
                serial: settings.serial,
                text: settings.text,
            }),
        }
    }
}
