//! How long the days of a calendar should be.

ghost use Rattle.std.specs.Prelude.{◌≤◌};

/// So many events that don't fit are a reason to change the length of the days.
const MANY: usize = 64;

/// A count of so many events is begun anew.
const ENOUGH: usize = 4_096;

/// A change makes days four times as long, or a quarter.
const STEP: u32 = 2;

/// The longest days have two to the power of this many ticks: a window of them is longer than any run.
pub(crate) const MOST_SCALE: u32 = 60;

/// Counts how the events that a calendar is given fit into its window.
#[derive(Drop)]
pub(crate) struct Fit {
    /// How many events came to be those of the present day.
    taken: usize,
    /// How many weren't taken, since they were due before the window's next day.
    soon: usize,
    /// How many weren't taken, since they were due after the window's last day.
    late: usize,
}

impl Fit {
    /// Nothing was counted yet.
    pub(crate) fn new() -> Fit {
        Fit {
            taken: 0,
            soon: 0,
            late: 0,
        }
    }

    /// Counts the events of a day that became the present one.
    pub(crate) fn count_taken(&mut self, count: usize) {
        self.taken = self.taken.saturating_add(count);
    }

    /// Counts an event that was due before the window's next day.
    pub(crate) fn count_soon(&mut self) {
        self.soon = self.soon.saturating_add(1);
    }

    /// Counts an event that was due after the window's last day.
    pub(crate) fn count_late(&mut self) {
        self.late = self.late.saturating_add(1);
    }

    /// The scale by which more events fit: a day has two to its power of ticks. It is `scale`, the present one, unless a quarter
    /// of the events came too late for the window, or half of them too soon. A change begins the count anew.
    pub(crate) fn better_scale(&mut self, scale: u32) -> u32
        requires { scale ≤ MOST_SCALE }
        ensures { result ≤ MOST_SCALE }
    {
        if self.late >= MANY && self.late > self.taken / 3 {
            *self = Fit::new();
            return scale.saturating_add(STEP).min(MOST_SCALE);
        }
        if self.soon >= MANY && self.soon > self.taken {
            *self = Fit::new();
            return scale.saturating_sub(STEP);
        }
        if self.taken >= ENOUGH {
            *self = Fit::new();
        }
        scale
    }
}
