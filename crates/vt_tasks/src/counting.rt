//! What a run in one thread tells of itself.

use vt_model::Model as EventModel;
use vt_seq::Execution;
use vt_watch::{Progress, Watch};

/// After how many events a run in one thread tells what watches it.
const AT_A_TIME: u64 = 1_024;

/// Counts the events of a run in one thread for what watches it.
#[derive(Drop)]
pub(crate) struct EventCount<'w, W: Watch> {
    watch: &'w W,
    // How many events it hasn't been told of.
    untold: u64,
}

impl<'w, W: Watch> EventCount<'w, W> {
    /// The count before the first event of a run that ends at tick `end`.
    pub(crate) fn new(watch: &'w W, end: u64) -> EventCount<'w, W> {
        watch.begin(end, None);
        EventCount { watch, untold: 0 }
    }

    /// Counts an event that was executed.
    pub(crate) fn add<M: EventModel>(&mut self, execution: &Execution<'_, M>) {
        self.untold = self.untold.saturating_add(1);
        if self.untold >= AT_A_TIME {
            if let Some(tick) = execution.next_tick() {
                self.tell(tick);
            }
        }
    }

    /// Tells of the last events of a run that has come to its end, tick `end`.
    pub(crate) fn end(&mut self, end: u64) {
        self.tell(end);
    }

    fn tell(&mut self, tick: u64) {
        self.watch.tell(
            0,
            Progress {
                tick,
                executed: self.untold,
                undone: 0,
            },
        );
        self.untold = 0;
    }
}
