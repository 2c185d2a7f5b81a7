//! The running of workers on threads: each at a place of one station, which `vt_places` makes.
//!
//! Only the loops of the workers wait for each other. No call of a station does. `bench/rounds` counts by edits of this crate: after a change
//! here `bench/rounds --check` has to pass.
#![tactic(auto)]

mod bell;
mod crew;
mod driver;
mod gate;
mod job;
mod looks;
mod pace;
mod pieces;

pub use bell::Bells;
pub use crew::{
    Finished, Stopped, run_workers, run_workers_to_finals, run_workers_wanting, run_workers_watched,
};
pub use driver::Wanted;
pub use gate::{Gate, Open};
pub use pieces::{Crew, Standing};
pub use vt_places::{NotMade, Place, Station, Worker, places_tell_the_list};
pub use vt_watch::{Progress, Unwatched, Watch};
