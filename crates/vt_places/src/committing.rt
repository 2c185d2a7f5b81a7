//! The book: commit, close and what it shows.

ghost use Rattle.std.specs.Prelude.{◌≡◌, ◌<◌, [], Err, IfOk, IfErr, MatchResult};
ghost use Rattle.vt_key.specs.promise.Times.{Time as TimeValue};
ghost use Rattle.vt_key.specs.declared.fault.Fault.TheVariants.{Busy, NotLawful};
ghost use Rattle.vt_model.specs.promise.Settings.{end_of};
ghost use Rattle.vt_steps.specs.declared.step.Step.TheVariants as step;
ghost use Rattle.vt_steps.specs.declared.step.Reply.TheVariants as reply;
ghost use Rattle.vt_places.specs.inside.Told.{station_model, station_config, station_run, station_table, place_table, place_worker, place_view};
ghost use Rattle.vt_places.specs.inside.Calls.{Reaches, Visited, Closes, Unvisited, Stays, ShowsFloor, IsCommitRefusal, IsCloseRefusal, IsRecordsRefusal, IsHandOutRefusal, IsFloorLeft, AreRecordsShown, AreHandedOut, IsRefusedOnceClosed, IsRefusedAlone, RefusesAlone};

use crate::place::Place;
use crate::slot::Slot;
use crate::station::{Lent, Station};
use std::alloc::Global;
use std::mem;
use std::snapshot::Snapshot;
use vt_cells::{close, hand_in};
use vt_engine::Engine;
use vt_key::Fault;
use vt_model::{Model as EventModel, Record};

impl<M: EventModel> Station<M> {
    /// The worker hands the rows of its events below its floor in to the book. It will never undo these events.
    ///
    /// [`Fault::Busy`]: another place has claimed the book. [`Fault::Closed`]: the book is closed. [`Fault::Memory`]:
    /// memory was refused. After each of them the place and the kernel are unchanged.
    pub fn commit<const KIND: u8>(
        &self,
        alloc: Global,
        place: &mut Place<M::Payload>,
        kernel: &mut Engine<M, KIND>,
    ) -> Result<(), Fault>
        requires own { place_table place.old ≡ station_table self.now }
        requires kernel { Reaches (M.handlers (station_model self.now)) (station_config self.now) (place_view place.old) kernel.old }
        ensures same { (place_table place.new ≡ place_table place.old) × (place_worker place.new ≡ place_worker place.old) }
        ensures done { MatchResult result
            (λ _. (shown : TimeValue) × (visited : Visited (M.handlers (station_model self.now)) (station_config self.now) (place_view place.old) kernel.old (step.Commit (place_worker place.old)) reply.Done kernel.new shown (place_view place.new))
            × ShowsFloor (end_of (station_config self.now)) shown visited.visits.at.now × IsFloorLeft (station_run M.handlers self.now) (place_view place.old) (step.Commit (place_worker place.old)) shown)
            (λ _. Stays (place_view place.old) (place_view place.new) × (kernel.new ≡ kernel.old)) }
        ensures refused { IfErr result (λ fault. IsCommitRefusal (station_run M.handlers self.now) (place_view place.old) fault) }
        ensures closed { IsRefusedOnceClosed (place_view place.old) result }
        ensures alone { RefusesAlone (M.handlers (station_model self.now)) (station_config self.now) (place_view place.old) kernel.old (step.Commit (place_worker place.old)) result }
        ensures ready { Reaches (M.handlers (station_model self.now)) (station_config self.now) (place_view place.new) kernel.new }
    {
        // Other workers wait for the book. So rows are made before it is claimed, and events are forgotten after it is given back.
        let batch = kernel.batch(alloc);
        let worker = place.worker;
        let seat = &mut place.seat;
        if !self.claim_book(seat) {
            return Err(Fault::Busy);
        }
        let held = seat.slot_mut(&self.table.shared, self.workers + 1);
        let Slot::Book(book) = held else {
            unreachable!()
        };
        match hand_in(kernel, worker, batch, book) {
            Ok(()) => {
                let seen = book.floor();
                let lent = Lent {
                    worker,
                    kernel: Snapshot::of(kernel),
                    seen,
                };
                self.release_commit(seat, self.workers + 1, &lent);
                kernel.fossil();
                Ok(())
            }
            Err(fault) => {
                self.release_unchanged(seat, self.workers + 1, None);
                Err(fault)
            }
        }
    }

    /// Closes the book, whose floor must be the end of the run: no row will follow. It takes no memory.
    ///
    /// [`Fault::Busy`]: another place has claimed the book. [`Fault::Closed`]: the book is closed.
    /// [`Fault::NotLawful`]: its floor isn't the end of the run. After each of them the place is unchanged.
    pub fn close(&self, place: &mut Place<M::Payload>) -> Result<(), Fault>
        requires own { place_table place.old ≡ station_table self.now }
        ensures same { (place_table place.new ≡ place_table place.old) × (place_worker place.new ≡ place_worker place.old) }
        ensures done { MatchResult result (λ _. Closes (station_run M.handlers self.now) (place_view place.old) (end_of (station_config self.now)) (place_view place.new)) (λ _. Stays (place_view place.old) (place_view place.new)) }
        ensures refused { IfErr result (λ fault. IsCloseRefusal (station_run M.handlers self.now) (place_view place.old) fault) }
        ensures alone { IsRefusedAlone (station_run M.handlers self.now) (place_view place.old) [] step.Close result }
        ensures closed { IsRefusedOnceClosed (place_view place.old) result }
    {
        let seat = &mut place.seat;
        if !self.claim_book(seat) {
            return Err(Fault::Busy);
        }
        let held = seat.slot_mut(&self.table.shared, self.workers + 1);
        let Slot::Book(book) = held else {
            unreachable!()
        };
        match close::<M>(book) {
            Ok(()) => {
                let floor = book.floor();
                self.release_close(seat, self.workers + 1, floor);
                Ok(())
            }
            Err(fault) => {
                self.release_unchanged(seat, self.workers + 1, None);
                Err(fault)
            }
        }
    }

    /// Copies of the records that the book shows: exactly the sequential run's below some floor. That floor is at least
    /// each floor that this place was shown before.
    ///
    /// [`Fault::Busy`]: another place has claimed the book, or some of its records were handed out. [`Fault::Memory`]: memory
    /// was refused. After either the place is unchanged.
    pub fn records(
        &self,
        alloc: Global,
        place: &mut Place<M::Payload>,
    ) -> Result<Vec<Record>, Fault>
        requires own { place_table place.old ≡ station_table self.now }
        ensures same { (place_table place.new ≡ place_table place.old) × (place_worker place.new ≡ place_worker place.old) }
        ensures done { MatchResult result
            (λ v. (floor : TimeValue) × AreRecordsShown (station_run M.handlers self.now) (place_view place.old) floor v.items × Unvisited (place_view place.old) floor (place_view place.new))
            (λ _. Stays (place_view place.old) (place_view place.new)) }
        ensures refused { IfErr result (λ fault. IsRecordsRefusal (station_run M.handlers self.now) fault) }
    {
        let seat = &mut place.seat;
        if !self.claim_book(seat) {
            return Err(Fault::Busy);
        }
        let held = seat.slot_mut(&self.table.shared, self.workers + 1);
        let Slot::Book(book) = held else {
            unreachable!()
        };
        if book.handed_out() > 0 {
            self.release_unchanged(seat, self.workers + 1, None);
            return Err(Fault::Busy);
        }
        match book.records(alloc) {
            Ok(records) => {
                let floor = book.floor();
                self.release_unchanged(seat, self.workers + 1, Some(floor));
                Ok(records)
            }
            Err(fault) => {
                self.release_unchanged(seat, self.workers + 1, None);
                Err(fault)
            }
        }
    }
}

impl<M: EventModel> Station<M> {
    /// Hands out the records that the book shows but for the first `from`, which must be those that it has handed out before.
    /// They take the place of those in `records`, and the book keeps none of them. It uses the memory of `records` from then on,
    /// and takes no other.
    ///
    /// All that it has handed out then are exactly the sequential run's records below some floor. That floor is at least each
    /// floor that this place was shown before.
    ///
    /// [`Fault::NotLawful`]: there is one worker, whose book keeps its records. [`Fault::Busy`]: another place has claimed the
    /// book, or not `from` records were handed out. [`Fault::Exhausted`]: with these 2^64 records or more would have been handed
    /// out. After each of them the place and `records` are unchanged.
    pub fn hand_out(
        &self,
        place: &mut Place<M::Payload>,
        from: usize,
        records: &mut Vec<Record>,
    ) -> Result<(), Fault>
        requires own { place_table place.old ≡ station_table self.now }
        ensures same { (place_table place.new ≡ place_table place.old) × (place_worker place.new ≡ place_worker place.old) }
        ensures done { MatchResult result
            (λ _. (floor : TimeValue) × AreHandedOut (station_run M.handlers self.now) (place_view place.old) floor from records.new.items × Unvisited (place_view place.old) floor (place_view place.new))
            (λ _. Stays (place_view place.old) (place_view place.new)) }
        ensures unchanged { IfErr result (λ _. records.new.items ≡ records.old.items) }
        ensures refused { IfErr result (λ fault. IsHandOutRefusal (station_run M.handlers self.now) fault) }
        ensures alone { (station_config self.now).workers ≡ 1 → result ≡ Err NotLawful }
    {
        if self.workers == 1 {
            return Err(Fault::NotLawful);
        }
        let seat = &mut place.seat;
        if !self.claim_book(seat) {
            return Err(Fault::Busy);
        }
        let held = seat.slot_mut(&self.table.shared, self.workers + 1);
        let Slot::Book(book) = held else {
            unreachable!()
        };
        if book.handed_out() != from {
            self.release_unchanged(seat, self.workers + 1, None);
            return Err(Fault::Busy);
        }
        match book.hand_out(records) {
            Ok(()) => {
                let floor = book.floor();
                self.release_unchanged(seat, self.workers + 1, Some(floor));
                Ok(())
            }
            Err(fault) => {
                self.release_unchanged(seat, self.workers + 1, None);
                Err(fault)
            }
        }
    }
}

impl<M: EventModel> Station<M> {
    /// The records that the book shows, taken out of it. The book stays claimed: no place gets at it any more. It takes no memory.
    ///
    /// [`Fault::Busy`]: another place had claimed the book, or some of its records were handed out. Then the book is as it was.
    pub fn take_out(&self, alloc: Global, place: Place<M::Payload>) -> Result<Vec<Record>, Fault>
        requires own { place_table place ≡ station_table self.now }
        ensures shown { IfOk result (λ v. (floor : TimeValue) × AreRecordsShown (station_run M.handlers self.now) (place_view place) floor v.items) }
        ensures refused { IfErr result (λ fault. (fault ≡ Busy) × (1 < (station_config self.now).workers)) }
    {
        let Place { mut seat, .. } = place;
        if !self.claim_book(&mut seat) {
            return Err(Fault::Busy);
        }
        let held = seat.slot_mut(&self.table.shared, self.workers + 1);
        let Slot::Book(book) = held else {
            unreachable!()
        };
        if book.handed_out() > 0 {
            self.release_unchanged(&mut seat, self.workers + 1, None);
            return Err(Fault::Busy);
        }
        let Slot::Book(book) = mem::replace(held, Slot::Inbox(Vec::new(alloc))) else {
            unreachable!()
        };
        Ok(book.into_records())
    }

    /// The records that the book shows, taken out of it and not copied. The station ends. It takes no memory.
    ///
    /// [`Fault::Busy`]: another place had claimed the book, or some of its records were handed out.
    pub fn into_records(self, alloc: Global, place: Place<M::Payload>) -> Result<Vec<Record>, Fault>
        requires own { place_table place ≡ station_table self }
        ensures shown { IfOk result (λ v. (floor : TimeValue) × AreRecordsShown (station_run M.handlers self) (place_view place) floor v.items) }
        ensures refused { IfErr result (λ fault. (fault ≡ Busy) × (1 < (station_config self).workers)) }
    {
        self.take_out(alloc, place)
    }
}
