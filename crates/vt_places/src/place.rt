//! A place at a station.

ghost use Rattle.std.specs.Prelude.{◌≡◌, ◌<◌};
ghost use Rattle.vt_places.specs.inside.Slots.{cell_count};
ghost use Rattle.vt_places.specs.inside.Kept.{Rests};

use crate::slot::Slot;
use crate::view::View;
use atomic_table::Seat;

/// The place of one worker at a station, by which its thread acts there. It may go to another thread.
///
/// A call of the station works on one loan of the seat from its claim to its release: in between the place holds a cell, and `rests` is false.
#[derive(Drop)]
pub struct Place<P> {
    pub(crate) seat: Seat<Slot<P>, View<P>>,
    pub(crate) worker: u32,
    ghost rests: { Rests seat.me },
    ghost own: { seat.me.0.worker ≡ worker },
    ghost known: { cell_count worker < seat.table_id.slots },
}

/// The place with this seat.
pub(crate) fn place_of<P>(seat: Seat<Slot<P>, View<P>>, worker: u32) -> Place<P>
    requires rests { Rests seat.me }
    requires own { seat.me.0.worker ≡ worker }
    requires known { cell_count worker < seat.table_id.slots }
    ensures seat { result.seat ≡ seat }
    ensures worker { result.worker ≡ worker }
{
    Place { seat, worker }
}
