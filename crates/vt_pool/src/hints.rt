//! How much events did, for hints.

ghost use Rattle.std.specs.Prelude.{◌≡◌};

use crate::pool::Pool;
use std::mem;
use vt_model::Model as EventModel;

/// How many messages events made and how many were taken back, and how many events were undone, since these were last told. Nothing that a
/// contract speaks of depends on them.
#[derive(Drop)]
pub(crate) struct Hints {
    made: usize,
    taken: usize,
    undone: u64,
}

impl Hints {
    /// Nothing yet.
    pub(crate) fn new() -> Hints {
        Hints {
            made: 0,
            taken: 0,
            undone: 0,
        }
    }

    /// An event was executed that made so many messages.
    #[inline(always)]
    pub(crate) fn count_event(&mut self, made: usize) {
        self.made = self.made.wrapping_add(made);
    }

    /// An event was undone that had made so many messages.
    pub(crate) fn count_undo(&mut self, taken: usize) {
        self.taken = self.taken.wrapping_add(taken);
        self.undone = self.undone.wrapping_add(1);
    }

    /// The three counts, which begin anew.
    pub(crate) fn take(&mut self) -> (usize, usize, u64) {
        let hints = mem::replace(self, Hints::new());
        (hints.made, hints.taken, hints.undone)
    }
}

impl<M: EventModel> Pool<M> {
    /// How many messages events made and how many were taken back, and how many events were undone, since the last call. No contract says more of
    /// them.
    pub fn take_hints(&mut self) -> (usize, usize, u64)
        ensures { self.new ≡ self.old }
    {
        self.hints.take()
    }
}
