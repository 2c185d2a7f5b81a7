//! Mail between workers: post and fetch.

ghost use Rattle.std.specs.Prelude.{◌≡◌, ◌<◌, true, false, Err, IfErr, MatchResult};
ghost use Rattle.vt_key.specs.declared.fault.Fault.TheVariants.{NotLawful};
ghost use Rattle.vt_steps.specs.declared.step.Step.TheVariants as step;
ghost use Rattle.vt_steps.specs.declared.step.Reply.TheVariants as reply;
ghost use Rattle.vt_steps.specs.promise.World.{Part};
ghost use Rattle.vt_steps.specs.promise.Letters.{is_empty};
ghost use Rattle.vt_steps.specs.promise.CellSteps.{may_send};
ghost use Rattle.vt_kernel.specs.inside.Held.{StandsFor};
ghost use Rattle.vt_places.specs.inside.Told.{station_model, station_config, station_run, station_table, place_table, place_worker, place_view};
ghost use Rattle.vt_places.specs.inside.Calls.{Reaches, Visited, Stays, IsPostRefusal, IsFetchRefusal};

use crate::place::Place;
use crate::slot::Slot;
use crate::station::{Station, Visit, done_of, word_of_inbox};
use std::snapshot::Snapshot;
use vt_cells::{fetch, send};
use vt_engine::Engine;
use vt_key::Fault;
use vt_model::Model as EventModel;
use vt_steps::Step;

/// Whether a send of the kernel to worker `v` is lawful: `v` is another worker, and the kernel has a letter for a process of `v`.
fn is_receiver<M: EventModel, const KIND: u8>(kernel: &Engine<M, KIND>, v: u32) -> bool
    ensures lawful { result ≡ may_send kernel.now.config.workers kernel.now.worker v kernel.now.outbox }
    ensures known { result ≡ true → v < kernel.now.config.workers }
{
    kernel.receiver_from(v) == Some(v)
}

impl<M: EventModel> Station<M> {
    /// Sends the kernel's letters for processes of worker `v` to the inbox of `v`.
    ///
    /// The kernel must be the place's own. It was made for the place's worker, with the station's model and config,
    /// and only local calls have changed it since the last visit. This holds for every call that takes a kernel.
    ///
    /// [`Fault::NotLawful`]: `v` is this worker, or the kernel has no letter for a process of `v`.
    /// [`Fault::Exhausted`]: the count of mail sent would pass 2^63. [`Fault::Busy`]: another place has claimed the
    /// inbox. [`Fault::Memory`]: memory was refused. Of several faults the first in this order is told. After each of
    /// them the place and the kernel are unchanged.
    pub fn post<const KIND: u8>(
        &self,
        place: &mut Place<M::Payload>,
        kernel: &mut Engine<M, KIND>,
        v: u32,
    ) -> Result<(), Fault>
        requires own { place_table place.old ≡ station_table self.now }
        requires kernel { Reaches (M.handlers (station_model self.now)) (station_config self.now) (place_view place.old) kernel.old }
        ensures same { (place_table place.new ≡ place_table place.old) × (place_worker place.new ≡ place_worker place.old) }
        ensures done { MatchResult result
            (λ _. Visited (M.handlers (station_model self.now)) (station_config self.now) (place_view place.old) kernel.old (step.Send (place_worker place.old) v) reply.Done kernel.new (place_view place.old).seen (place_view place.new))
            (λ _. Stays (place_view place.old) (place_view place.new) × (kernel.new ≡ kernel.old)) }
        ensures refused { (part : Part _) → StandsFor (M.handlers (station_model self.now)) kernel.old part → IfErr result (λ fault. IsPostRefusal (station_run M.handlers self.now) (place_worker place.old) v part fault) }
        ensures unlawful { (part : Part _) → StandsFor (M.handlers (station_model self.now)) kernel.old part → may_send (station_run M.handlers self.now).workers (place_worker place.old) v part.outbox ≡ false → result ≡ Err NotLawful }
        ensures ready { Reaches (M.handlers (station_model self.now)) (station_config self.now) (place_view place.new) kernel.new }
    {
        if !is_receiver(kernel, v) {
            return Err(Fault::NotLawful);
        }
        let worker = place.worker;
        let seat = &mut place.seat;
        if !self.claim(seat, v as usize) {
            // A send counts the letters. Here none is made, so they are counted now: Exhausted is told before Busy.
            kernel.may_send(v)?;
            return Err(Fault::Busy);
        }
        let before = Snapshot::of(kernel);
        let held = seat.slot_mut(&self.table.shared, v as usize);
        let Slot::Inbox(mails) = held else {
            unreachable!()
        };
        let answer = send(kernel, v, mails);
        let visit = Visit {
            step: Step::Send(worker, v),
            answer: done_of(&answer),
            before,
            left: Snapshot::of(kernel),
        };
        let word = word_of_inbox(mails);
        self.release_visit(seat, v as usize, word, &visit);
        answer
    }

    /// Moves the mail of the worker's inbox to its kernel, as arrived. It takes no memory.
    ///
    /// [`Fault::NotLawful`]: mail that arrived before is not accepted yet. [`Fault::Busy`]: another place has claimed
    /// the inbox. [`Fault::Exhausted`]: a count of mail got would pass 2^63. After each of them the place and the
    /// kernel are unchanged.
    pub fn fetch<const KIND: u8>(
        &self,
        place: &mut Place<M::Payload>,
        kernel: &mut Engine<M, KIND>,
    ) -> Result<(), Fault>
        requires own { place_table place.old ≡ station_table self.now }
        requires kernel { Reaches (M.handlers (station_model self.now)) (station_config self.now) (place_view place.old) kernel.old }
        ensures same { (place_table place.new ≡ place_table place.old) × (place_worker place.new ≡ place_worker place.old) }
        ensures done { MatchResult result
            (λ _. Visited (M.handlers (station_model self.now)) (station_config self.now) (place_view place.old) kernel.old (step.Fetch (place_worker place.old)) reply.Done kernel.new (place_view place.old).seen (place_view place.new))
            (λ _. Stays (place_view place.old) (place_view place.new) × (kernel.new ≡ kernel.old)) }
        ensures refused { (part : Part _) → StandsFor (M.handlers (station_model self.now)) kernel.old part → IfErr result (λ fault. IsFetchRefusal (station_run M.handlers self.now) (place_view place.old) part fault) }
        ensures unlawful { let handlers = M.handlers (station_model self.now) in (part : Part _) → StandsFor handlers kernel.old part → is_empty part.arrived ≡ false → result ≡ Err NotLawful }
        ensures ready { Reaches (M.handlers (station_model self.now)) (station_config self.now) (place_view place.new) kernel.new }
    {
        if kernel.arrived_len() > 0 {
            return Err(Fault::NotLawful);
        }
        let worker = place.worker;
        let seat = &mut place.seat;
        if self.finds_nothing(seat, kernel, worker) {
            return Ok(());
        }
        if !self.claim(seat, worker as usize) {
            return Err(Fault::Busy);
        }
        let before = Snapshot::of(kernel);
        let held = seat.slot_mut(&self.table.shared, worker as usize);
        let Slot::Inbox(mails) = held else {
            unreachable!()
        };
        let answer = fetch(kernel, mails);
        let visit = Visit {
            step: Step::Fetch(worker),
            answer: done_of(&answer),
            before,
            left: Snapshot::of(kernel),
        };
        let word = word_of_inbox(mails);
        self.release_visit(seat, worker as usize, word, &visit);
        answer
    }
}
