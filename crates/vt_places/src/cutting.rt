//! Global virtual time: cut and report.

ghost use Rattle.std.specs.Prelude.{◌≡◌, IfErr, MatchResult};
ghost use Rattle.vt_steps.specs.declared.step.Step.TheVariants as step;
ghost use Rattle.vt_steps.specs.declared.step.Reply.TheVariants as reply;
ghost use Rattle.vt_board.specs.inside.Calls.{reply_of};
ghost use Rattle.vt_cells.specs.inside.Calls.{answer_as};
ghost use Rattle.vt_places.specs.inside.Told.{station_model, station_config, station_run, station_table, place_table, place_worker, place_view};
ghost use Rattle.vt_places.specs.inside.Calls.{Reaches, Visited, Stays, IsCutRefusal, IsReportRefusal, RefusesAlone};

use crate::place::Place;
use crate::slot::Slot;
use crate::station::{HOME, Station, Visit, done_of};
use std::snapshot::Snapshot;
use vt_board::Report;
use vt_cells::{cut, reply_of, report};
use vt_engine::Engine;
use vt_key::Fault;
use vt_model::Model as EventModel;
use vt_steps::{Reply, Step};

/// The answer to a report, as the answer to a step.
fn answer_of(answer: &Result<Report, Fault>) -> Result<Reply, Fault>
    ensures { result ≡ answer_as reply_of answer.now }
{
    match answer {
        Ok(report) => Ok(reply_of(*report)),
        Err(fault) => Err(*fault),
    }
}

impl<M: EventModel> Station<M> {
    /// The worker joins the open round; if none is open, it opens one. It changes its colour and learns the announced
    /// time. It takes no memory.
    ///
    /// [`Fault::Busy`]: another place has claimed the board. [`Fault::NotLawful`]: the worker has cut in the open
    /// round. [`Fault::Exhausted`]: one more round would be more than 2^63. After each of them the place and the
    /// kernel are unchanged.
    pub fn cut<const KIND: u8>(
        &self,
        place: &mut Place<M::Payload>,
        kernel: &mut Engine<M, KIND>,
    ) -> Result<(), Fault>
        requires own { place_table place.old ≡ station_table self.now }
        requires kernel { Reaches (M.handlers (station_model self.now)) (station_config self.now) (place_view place.old) kernel.old }
        ensures same { (place_table place.new ≡ place_table place.old) × (place_worker place.new ≡ place_worker place.old) }
        ensures done { MatchResult result
            (λ _. Visited (M.handlers (station_model self.now)) (station_config self.now) (place_view place.old) kernel.old (step.Cut (place_worker place.old)) reply.Done kernel.new (place_view place.old).seen (place_view place.new))
            (λ _. Stays (place_view place.old) (place_view place.new) × (kernel.new ≡ kernel.old)) }
        ensures refused { IfErr result (λ fault. IsCutRefusal (station_run M.handlers self.now) (place_view place.old) fault) }
        ensures alone { RefusesAlone (M.handlers (station_model self.now)) (station_config self.now) (place_view place.old) kernel.old (step.Cut (place_worker place.old)) result }
        ensures ready { Reaches (M.handlers (station_model self.now)) (station_config self.now) (place_view place.new) kernel.new }
    {
        let worker = place.worker;
        let seat = &mut place.seat;
        if !self.claim_board(seat) {
            return Err(Fault::Busy);
        }
        let before = Snapshot::of(kernel);
        let held = seat.slot_mut(&self.table.shared, self.workers);
        let Slot::Board(board) = held else {
            unreachable!()
        };
        let answer = cut(kernel, worker, board);
        let visit = Visit {
            step: Step::Cut(worker),
            answer: done_of(&answer),
            before,
            left: Snapshot::of(kernel),
        };
        self.release_visit(seat, self.workers, HOME, &visit);
        answer
    }

    /// The worker reports its counts and its least time to the board, and learns the announced time. It takes no
    /// memory.
    ///
    /// [`Fault::Busy`]: another place has claimed the board. [`Fault::NotLawful`]: no round is open, some worker
    /// hasn't cut in it, or this worker has reported in this pass. After either the place and the kernel are
    /// unchanged.
    pub fn report<const KIND: u8>(
        &self,
        place: &mut Place<M::Payload>,
        kernel: &mut Engine<M, KIND>,
    ) -> Result<Report, Fault>
        requires own { place_table place.old ≡ station_table self.now }
        requires kernel { Reaches (M.handlers (station_model self.now)) (station_config self.now) (place_view place.old) kernel.old }
        ensures same { (place_table place.new ≡ place_table place.old) × (place_worker place.new ≡ place_worker place.old) }
        ensures done { MatchResult result
            (λ report. Visited (M.handlers (station_model self.now)) (station_config self.now) (place_view place.old) kernel.old (step.Report (place_worker place.old)) (reply_of report) kernel.new (place_view place.old).seen (place_view place.new))
            (λ _. Stays (place_view place.old) (place_view place.new) × (kernel.new ≡ kernel.old)) }
        ensures refused { IfErr result (λ fault. IsReportRefusal (station_run M.handlers self.now) (place_view place.old) fault) }
        ensures alone { RefusesAlone (M.handlers (station_model self.now)) (station_config self.now) (place_view place.old) kernel.old (step.Report (place_worker place.old)) result }
        ensures ready { Reaches (M.handlers (station_model self.now)) (station_config self.now) (place_view place.new) kernel.new }
    {
        let values = kernel.report_values();
        let worker = place.worker;
        let seat = &mut place.seat;
        if !self.claim_board(seat) {
            return Err(Fault::Busy);
        }
        let before = Snapshot::of(kernel);
        let held = seat.slot_mut(&self.table.shared, self.workers);
        let Slot::Board(board) = held else {
            unreachable!()
        };
        let answer = report(kernel, worker, values, board);
        let visit = Visit {
            step: Step::Report(worker),
            answer: answer_of(&answer),
            before,
            left: Snapshot::of(kernel),
        };
        self.release_visit(seat, self.workers, HOME, &visit);
        answer
    }
}
