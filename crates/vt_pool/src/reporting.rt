//! What a pool tells of its letters, and whose it is.

ghost use Rattle.std.specs.Prelude.{◌≡◌, ◌++◌, slice_get};
ghost use Rattle.std.specs.Option.{option_map, option_map_or};
ghost use Rattle.vt_key.specs.promise.Times.{earlier};
ghost use Rattle.vt_model.specs.promise.Settings.{end_of};
ghost use Rattle.vt_steps.specs.promise.Letters.{letter_time, least_time};

use crate::pool::Pool;
use vt_key::{Letter, When};
use vt_list::List;
use vt_model::{Config, Model as EventModel};

impl<M: EventModel> Pool<M> {
    /// The number of the worker.
    #[inline(always)]
    pub fn worker(&self) -> u32
        ensures { result ≡ self.now.worker }
    {
        self.worker
    }

    /// The config.
    #[inline(always)]
    pub fn config(&self) -> Config
        ensures { result ≡ self.now.config }
    {
        self.config
    }

    /// The least time of all letters: in the outbox, pending and waiting. The end of the run if there are none.
    pub fn least(&mut self) -> When
        ensures least { result ≡ least_time (end_of self.old.config) (self.old.outbox ++ self.old.stock.pending ++ self.old.stock.waiting) }
        ensures same { self.new ≡ self.old }
    {
        let end = self.config.end();
        let unsent = self.outbox.least(end);
        let pending = earlier_if_some(self.calendar.first_time(), end);
        let waiting = earlier_if_some(time_of_first(&self.waiting), end);
        unsent.earlier(pending).earlier(waiting)
    }

    /// The time of the least pending event; the end of the run if nothing is pending.
    pub fn next_time(&mut self) -> When
        ensures next { result ≡ least_time (end_of self.old.config) self.old.stock.pending }
        ensures same { self.new ≡ self.old }
    {
        let end = self.config.end();
        earlier_if_some(self.calendar.first_time(), end)
    }
}

/// The time of the first letter; None if there is none.
fn time_of_first<P: Copy>(letters: &List<Letter<P>>) -> Option<When>
    ensures { result ≡ option_map letter_time (slice_get letters.now 0) }
{
    let first = letters.front()?;
    Some(first.event.rank.key.when())
}

/// The earlier one of a time, if there is one, and the end.
fn earlier_if_some(time: Option<When>, end: When) -> When
    ensures { result ≡ option_map_or (λ t. earlier t end) time end }
{
    match time {
        Some(time) => time.earlier(end),
        None => end,
    }
}
