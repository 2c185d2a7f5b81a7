//! How a station and its places are made.

ghost use Rattle.std.specs.Prelude.{◌≡◌, ◌<◌, ◌+◌, ℕ, [], length, IfOk, IfErr};
ghost use Rattle.vt_key.specs.declared.fault.Fault.TheVariants.{Memory};
ghost use Rattle.vt_model.specs.promise.Simulation.{simulation_of};
ghost use Rattle.vt_places.specs.inside.Kept.{first_view};
ghost use Rattle.vt_places.specs.inside.Told.{station_model, station_config, station_run, station_table};
ghost use Rattle.vt_places.specs.inside.Making.{AreSlots, IsMaker, Opens, AreNew};

use crate::place::{Place, place_of};
use crate::rule::About;
use crate::slot::Slot;
use crate::station::{Seat, Station, words_of};
use crate::view::View;
use atomic_table::{Refused, Split, Table};
use std::alloc::{AllocError, Global};
use std::snapshot::Snapshot;
use vt_board::Board;
use vt_book::Book;
use vt_key::Fault;
use vt_model::{Config, Model as EventModel};

/// How a seat is split: the maker's seat stays, and the next worker gets a new one.
pub(crate) struct Next;

impl<P> Split<View<P>> for Next {
    ghost use Rattle.vt_places.specs.inside.Kept.{left_view, next_view};

    ghost left = { left_view };

    ghost right = { next_view };
}

/// The values of the cells at the opening: an inbox for each worker, the board and the book.
fn slots_for<M: EventModel>(
    alloc: Global,
    config: Config,
) -> Result<Vec<Slot<M::Payload>>, AllocError>
    ensures { IfOk result (λ v. AreSlots config v.items) }
{
    let mut slots = Vec::new(alloc);
    for _ in 0..config.workers {
        slots.push(Slot::Inbox(Vec::new(alloc)))?;
    }
    slots.push(Slot::Board(Board::new(config.workers, config.end())))?;
    slots.push(Slot::Book(Book::new(alloc, config.workers, config.end())))?;
    Ok(slots)
}

/// A station with its first seat.
fn lay<M: EventModel>(
    alloc: Global,
    model: &M,
    config: Config,
) -> Result<(Station<M>, Seat<M>), AllocError>
    ensures { IfOk result (λ r. (r.0.workers ≡ config.workers) × (r.0.table.shared.key.model.value ≡ model.now) × (r.0.table.shared.key.config ≡ config) × (r.1.table_id ≡ r.0.table.shared.table_id) × (r.1.me ≡ (first_view (simulation_of (M.handlers model.now) config), []))) }
{
    let workers = config.workers as usize;
    let slots = slots_for::<M>(alloc, config)?;
    let words = Vec::from_elem(alloc, 0u64, words_of(workers + 2))?;
    let about = About {
        model: Snapshot::of(model),
        config,
    };
    match Table::new(alloc, words.as_slice(), slots, &about) {
        Ok((table, seat)) => Ok((Station { table, workers }, seat)),
        Err(Refused { slots: _ }) => Err(AllocError),
    }
}

impl<M: EventModel> Station<M> {
    /// Makes the seat of the next worker out of the maker's.
    fn seat_next(&self, maker: &mut Seat<M>) -> Seat<M>
        requires table { maker.old.table_id ≡ self.now.table.shared.table_id }
        requires maker { (i : ℕ) × (i < (station_config self.now).workers) × IsMaker (station_run M.handlers self.now) i maker.old.me }
        ensures table { (maker.new.table_id ≡ maker.old.table_id) × (result.table_id ≡ maker.old.table_id) }
        ensures made { let sim = station_run M.handlers self.now in (i : ℕ) × IsMaker sim i maker.old.me × IsMaker sim (i + 1) maker.new.me × Opens sim i result.me }
    {
        self.table.shared.split_seat::<Next>(maker)
    }

    /// A station for this model and this config, and a place for each worker, in rising order of workers.
    ///
    /// [`Fault::Memory`]: memory was refused.
    pub fn new(
        alloc: Global,
        model: &M,
        config: Config,
    ) -> Result<(Station<M>, Vec<Place<M::Payload>>), Fault>
        ensures told { IfOk result (λ r. (station_model r.0 ≡ model.now) × (station_config r.0 ≡ config)) }
        ensures places { IfOk result (λ r. (length r.1.items ≡ config.workers) × AreNew (simulation_of (M.handlers model.now) config) (station_table r.0) 0 r.1.items) }
        ensures refused { IfErr result (λ fault. fault ≡ Memory) }
    {
        let Ok((station, maker)) = lay(alloc, model, config) else {
            return Err(Fault::Memory);
        };
        let Ok(places) = station.seat_all(alloc, maker, config.workers) else {
            return Err(Fault::Memory);
        };
        Ok((station, places))
    }

    /// The places of all workers, in rising order.
    fn seat_all(
        &self,
        alloc: Global,
        maker: Seat<M>,
        workers: u32,
    ) -> Result<Vec<Place<M::Payload>>, AllocError>
        requires table { maker.table_id ≡ self.now.table.shared.table_id }
        requires workers { self.now.table.shared.key.config.workers ≡ workers }
        requires maker { maker.me ≡ (first_view (station_run M.handlers self.now), []) }
        ensures places { IfOk result (λ v. (length v.items ≡ workers) × AreNew (station_run M.handlers self.now) self.now.table.shared.table_id 0 v.items) }
    {
        let mut maker = maker;
        let mut places = Vec::new(alloc);
        for worker in 1..workers {
            let seat = self.seat_next(&mut maker);
            places.push(place_of(seat, worker))?;
        }
        places.insert(0, place_of(maker, 0))?;
        Ok(places)
    }
}
