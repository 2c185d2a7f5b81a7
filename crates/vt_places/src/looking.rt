//! Looks at a place, and at a cell without a claim.

ghost use Rattle.std.specs.Prelude.{◌≡◌, ◌<◌, true, false, Err, IfOk, IfErr};
ghost use Rattle.vt_key.specs.promise.Times.{TimeAtMost, TimeBefore};
ghost use Rattle.vt_key.specs.declared.fault.Fault.TheVariants.{Memory, NotLawful};
ghost use Rattle.vt_model.specs.promise.Simulation.{simulation_of};
ghost use Rattle.vt_model.specs.promise.Settings.{end_of};
ghost use Rattle.vt_steps.specs.inside.Finals.{worker_finals};
ghost use Rattle.vt_steps.specs.declared.step.Step.TheVariants as step;
ghost use Rattle.vt_steps.specs.declared.step.Reply.TheVariants as reply;
ghost use Rattle.vt_steps.specs.promise.Letters.{is_empty};
ghost use Rattle.vt_kernel.specs.inside.Held.{AreCounted};
ghost use Rattle.vt_places.specs.inside.Kept.{Rests};
ghost use Rattle.vt_places.specs.inside.Told.{station_model, station_config, station_run, station_table, place_table, place_worker, place_view};
ghost use Rattle.vt_places.specs.inside.Calls.{IsShown, Reaches, Visited};

use crate::place::Place;
use crate::station::{EMPTY, Seat, Station};
use std::alloc::Global;
use std::marker::Brand;
use vt_engine::Engine;
use vt_key::Fault;
use vt_model::{Config, Model as EventModel};

impl<P> Place<P> {
    /// The number of the worker whose place it is.
    pub fn worker(&self) -> u32
        ensures { result ≡ place_worker self.now }
    {
        self.worker
    }
}

impl<M: EventModel> Station<M> {
    /// Looks at a worker's inbox by one load, and answers whether it is empty. If it is, this look was the worker's fetch: its
    /// steps are put behind all others in the list of steps.
    pub(crate) fn finds_nothing<const KIND: u8>(
        &self,
        seat: &mut Seat<M>,
        kernel: &Engine<M, KIND>,
        worker: u32,
    ) -> bool
        requires table { seat.old.table_id ≡ self.now.table.shared.table_id }
        requires rests { Rests seat.old.me }
        requires worker { seat.old.me.0.worker ≡ worker }
        requires known { worker < self.now.workers }
        requires accepted { is_empty kernel.now.arrived ≡ true }
        requires counted { AreCounted kernel.now.got }
        requires kernel { Reaches (M.handlers (station_model self.now)) (station_config self.now) seat.old.me.0 kernel.now }
        ensures same { (seat.new.table_id ≡ seat.old.table_id) × (seat.new.id ≡ seat.old.id) × Rests seat.new.me }
        ensures done { result ≡ true → Visited (M.handlers (station_model self.now)) (station_config self.now) seat.old.me.0 kernel.now (step.Fetch worker) reply.Done kernel.now seat.old.me.0.seen seat.new.me.0 }
        ensures not { result ≡ false → seat.new.me ≡ seat.old.me }
    {
        self.load::<Brand, Engine<M, KIND>>(seat, worker as usize, kernel) == EMPTY
    }

    /// Reads one word of the table and changes nothing. The read tells contracts that some list of steps leads to a world in
    /// which the part of the place's worker is what the place knows.
    pub(crate) fn look(&self, place: &mut Place<M::Payload>)
        requires own { place_table place.old ≡ station_table self.now }
        ensures same { (place_table place.new ≡ place_table place.old) × (place_worker place.new ≡ place_worker place.old) }
        ensures unchanged { place_view place.new ≡ place_view place.old }
        ensures shown { IsShown (station_run M.handlers self.now) (place_view place.old) }
    {
        let _ = self.load::<Brand, ()>(&mut place.seat, 0, &());
    }

    /// The final value of each process of the place's worker, in rising order of processes: what the model's `finish` makes of the
    /// state after the whole sequential run. The book may be open still. The place is unchanged.
    ///
    /// [`Fault::NotLawful`]: the worker's floor isn't the end of the run. [`Fault::Memory`]: it is, and memory was refused.
    pub fn finals<const KIND: u8>(
        &self,
        alloc: Global,
        model: &M,
        config: Config,
        place: &mut Place<M::Payload>,
        kernel: &Engine<M, KIND>,
    ) -> Result<Vec<u64>, Fault>
        requires told { (station_model self.now ≡ model.now) × (station_config self.now ≡ config) }
        requires own { place_table place.old ≡ station_table self.now }
        requires kernel { Reaches (M.handlers (station_model self.now)) (station_config self.now) (place_view place.old) kernel.now }
        ensures same { (place_table place.new ≡ place_table place.old) × (place_worker place.new ≡ place_worker place.old) }
        ensures unchanged { place_view place.new ≡ place_view place.old }
        ensures values { IfOk result (λ v. v.items ≡ worker_finals (simulation_of (M.handlers model.now) config) (place_worker place.old)) }
        ensures not_lawful { TimeBefore kernel.now.floor (end_of config) → result ≡ Err NotLawful }
        ensures refused { TimeAtMost (end_of config) kernel.now.floor → IfErr result (λ fault. fault ≡ Memory) }
    {
        if kernel.floor() < config.end() {
            return Err(Fault::NotLawful);
        }
        self.look(place);
        kernel.finals(alloc, model)
    }
}
