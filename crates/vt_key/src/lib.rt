//! What all of the simulator speaks of: virtual times, keys, stamps, ranks, events, letters, mail, and the faults of
//! its calls; and lists that contracts alone see.
#![tactic(auto)]

mod fault;
mod letter;
mod limits;
mod order;
mod seen;
mod when;

pub use fault::Fault;
pub use letter::{Colour, Event, Letter, Mail, Ranked, Sign};
pub use limits::{MAX_COUNT, MAX_END, MAX_PROCESSES, MAX_WORKERS};
pub use order::{Key, Rank, Stamp, orders_are_total};
pub use seen::Seen;
pub use when::{When, times_are_pairs};
