//! One logical process, and how it executes an event and undoes it: what the sequential simulator and a process with
//! rollback have in common.

ghost use Rattle.std.specs.Prelude.{◌≡◌, ◌+◌, ◌-◌, ◌%◌, ◌<◌, ◌≤◌, ◌^◌, []};
ghost use Rattle.vt_stream.specs.inside.Words.{moved};
ghost use Rattle.vt_model.specs.inside.Handler.{IsFresh};
ghost use Rattle.vt_model.specs.inside.Sends.{with_requests};
ghost use Rattle.vt_model.specs.promise.Simulation.{simulation_of, words_at};
ghost use Rattle.vt_model.specs.inside.Simulation.{IsFiring};
ghost use Rattle.vt_model.specs.inside.Process.{triple_at, IsProcessStream};
ghost use Rattle.vt_model.specs.promise.Settings.{end_of};

use crate::{Bits, Config, Draws, MAX_DRAWS, MAX_SENDS, Model as EventModel, Out, Sent};
use vt_stream::LpStream;

/// A logical process: its state, its next send number and its random words. For simulators.
// The order of the fields matters: what every event reads lies together.
#[derive(Drop)]
pub struct Process<M: EventModel> {
    /// Its random words.
    pub stream: LpStream,
    /// The number of its next send.
    pub number: u64,
    /// The model's state of this process.
    pub state: M::State,
}

/// What undoes an executed event, beside the send number that its process had before it.
#[derive(Drop)]
pub struct Undo<M: EventModel> {
    /// The flags that `forward` set.
    pub bits: Bits,
    /// What `forward` kept.
    pub kept: M::Kept,
    /// How many words it drew.
    pub drawn: u32,
}

impl<M: EventModel> Process<M> {
    /// Starts logical process `lp`, which is below `config.lps`, by the model's `start`. What it sends goes into `out`, which
    /// is as [`Out::new`] gives it for this config and process at time 0, with 0 as the next send number.
    ///
    /// Afterwards the next send number in `out` is the number of events that `start` asks to be sent, and its sends are those
    /// of them that would be received before the end. All else in it is as before, so it holds no record.
    pub fn start(model: &M, config: Config, lp: u32, out: &mut Out<M::Payload>) -> Process<M>
        requires known { lp < config.lps }
        requires fresh { out.old ≡ record { lps = config.lps; end = (end_of config); lp = lp; time = 0; first = 0; number = 0; sends = []; records = [] } }
        ensures triple { triple_at result.state result.number result.stream ≡ ((simulation_of (M.handlers model.now) config).start lp).triple }
        ensures sends { out.new.sends ≡ ((simulation_of (M.handlers model.now) config).start lp).sends }
        ensures out { out.new ≡ with_requests out.old ((M.handlers model.now).start config.lps lp (words_at config.seed lp 0)).send_requests [] }
        ensures stream { IsProcessStream config.seed lp result.stream }
        ensures few { result.number ≤ MAX_SENDS }
    {
        let mut stream = LpStream::new(config.seed, lp);
        let mut draws = Draws::new(&mut stream);
        let state = model.start(lp, &mut draws, out);
        Process {
            state,
            number: out.number(),
            stream,
        }
    }

    /// Executes an event for this process by the model's `forward`. What it sends and records goes into `out`, which must be
    /// as [`Out::new`] gives it for the event's receiver and time and for the process's send number.
    ///
    /// The event's receiver is below `config.lps`, and the stream is the receiver's. The send number may be above 2^63
    /// afterwards: the caller undoes the event then.
    // Inlined, so that what is kept isn't copied where the caller drops it, and once less where it doesn't.
    #[inline(always)]
    pub fn execute_into(
        &mut self,
        model: &M,
        config: Config,
        event: Sent<M::Payload>,
        out: &mut Out<M::Payload>,
    ) -> Undo<M>
        requires known { event.dest < config.lps }
        requires stream { IsProcessStream config.seed event.dest self.old.stream }
        requires fresh { IsFresh out.old event.dest event.key.time }
        requires whole { out.old ≡ record { lps = config.lps; end = (end_of config); lp = event.dest; time = event.key.time; first = self.old.number; number = self.old.number; sends = []; records = [] } }
        ensures number { self.new.number ≡ out.new.number }
        ensures fires { IsFiring ((simulation_of (M.handlers model.now) config).fire event.dest (triple_at self.old.state self.old.number self.old.stream) event) event.key self.new.state self.new.stream out.new }
        ensures stream { self.new.stream ≡ moved self.old.stream result.drawn }
        ensures few { result.drawn ≤ MAX_DRAWS }
        ensures undoes { M.IsState model.now self.old.state → (M.handlers model.now).reverse event.dest event.key.time event.payload self.new.state result.bits result.kept ≡ self.old.state }
        ensures state { M.IsState model.now self.old.state → M.IsState model.now self.new.state }
        ensures in_range { self.old.stream.place < 2 ^ 64 }
    {
        let mut bits = Bits::new();
        let mut draws = Draws::new(&mut self.stream);
        let kept = model.forward(
            event.dest,
            event.key.when(),
            event.payload,
            &mut self.state,
            &mut bits,
            &mut draws,
            out,
        );
        let drawn = draws.drawn();
        self.number = out.number();
        Undo { bits, kept, drawn }
    }

    /// Undoes the last executed event, by what its execution left and the send number before it: the state goes back by
    /// the model's `reverse`, and the drawn words are given back.
    pub fn undo(
        &mut self,
        model: &M,
        event: Sent<M::Payload>,
        bits: Bits,
        kept: M::Kept,
        drawn: u32,
        number: u64,
    )
        requires few { drawn ≤ MAX_DRAWS }
        ensures state { self.new.state ≡ (M.handlers model.now).reverse event.dest event.key.time event.payload self.old.state bits kept }
        ensures number { self.new.number ≡ number }
        ensures stream { self.new.stream ≡ record self.old.stream { place = (self.old.stream.place + (2 ^ 64 - drawn)) % 2 ^ 64 } }
    {
        model.reverse(
            event.dest,
            event.key.when(),
            event.payload,
            &mut self.state,
            bits,
            kept,
        );
        self.stream.back(u64::from(drawn));
        self.number = number;
    }
}
