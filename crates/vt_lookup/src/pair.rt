//! One process twice: one of the two never undoes an event.

ghost use Rattle.std.specs.Prelude.{◌≡◌, ◌<◌, IfOk, true};
ghost use Rattle.vt_lookup.specs.inside.Undoing.{event_gives, state_undone};
ghost use Rattle.vt_model.specs.inside.Handler.{IsFresh};
ghost use Rattle.vt_model.specs.promise.Settings.{end_of};

use crate::difference::{Difference, Moment, Part};
use vt_key::{Fault, MAX_COUNT};
use vt_model::{Bits, Config, Draws, Model as EventModel, Out, Process, Sent, Undo};

/// Executes an event at a process.
fn execute<M: EventModel>(
    model: &M,
    process: &mut Process<M>,
    event: &Sent<M::Payload>,
    out: &mut Out<M::Payload>,
) -> Undo<M>
    requires fresh { IsFresh out.old event.now.dest event.now.key.time }
    ensures state { process.new.state ≡ (event_gives (M.handlers model.now) out.old.lps event.now process.old.state process.old.stream).state }
    ensures bits { result.bits ≡ (event_gives (M.handlers model.now) out.old.lps event.now process.old.state process.old.stream).bits }
    ensures kept { result.kept ≡ (event_gives (M.handlers model.now) out.old.lps event.now process.old.state process.old.stream).kept }
{
    let mut bits = Bits::new();
    let mut draws = Draws::new(&mut process.stream);
    let kept = model.forward(
        event.dest,
        event.key.when(),
        event.payload,
        &mut process.state,
        &mut bits,
        &mut draws,
        out,
    );
    let drawn = draws.drawn();
    process.number = out.number();
    Undo { bits, kept, drawn }
}

/// Undoes the last event of a process, before which its send number was this one.
fn undo<M: EventModel>(
    model: &M,
    process: &mut Process<M>,
    event: &Sent<M::Payload>,
    undo: Undo<M>,
    number: u64,
)
    ensures { process.new.state ≡ (M.handlers model.now).reverse event.now.dest event.now.key.time event.now.payload process.old.state undo.bits undo.kept }
{
    model.reverse(
        event.dest,
        event.key.when(),
        event.payload,
        &mut process.state,
        undo.bits,
        undo.kept,
    );
    process.stream.back(u64::from(undo.drawn));
    process.number = number;
}

/// One process twice, in the same state.
#[derive(Drop)]
pub(crate) struct Pair<M: EventModel> {
    /// The one that only executes.
    pub(crate) steady: Process<M>,
    /// The one that executes, undoes and executes again.
    pub(crate) tried: Process<M>,
}

impl<M: EventModel> Pair<M>
where
    M::State: PartialEq,
    M::Payload: PartialEq,
{
    /// What differs after an event that one executed once and the other again.
    fn differing(&self, once: &Out<M::Payload>, again: &Out<M::Payload>) -> Option<Part> {
        if self.steady.state != self.tried.state {
            Some(Part::State)
        } else if self.steady.stream.place() != self.tried.stream.place() {
            Some(Part::Draws)
        } else if !are_same_sends(once.sends(), again.sends())
            || self.steady.number != self.tried.number
        {
            Some(Part::Sends)
        } else if once.records() != again.records() {
            Some(Part::Records)
        } else {
            None
        }
    }

    /// Executes an event at one, undoes it there, executes it at both, and compares the two. The state after the undo has to be that before
    /// the event, which the other one still has.
    pub(crate) fn look_at(
        &mut self,
        model: &M,
        config: Config,
        event: &Sent<M::Payload>,
        once: &mut Out<M::Payload>,
    ) -> Result<(), Difference>
        requires known { event.now.dest < config.lps }
        requires early { event.now.key.time < end_of config }
        ensures undone { IfOk result (λ _. ⟦<M::State as PartialEq>⟧.eq (state_undone (M.handlers model.now) event.now (event_gives (M.handlers model.now) config.lps event.now self.old.tried.state self.old.tried.stream)) self.old.steady.state ≡ true) }
    {
        let number = self.tried.number;
        if number > MAX_COUNT || self.steady.number > MAX_COUNT {
            return Err(Difference::Refused(Fault::Exhausted));
        }
        let now = event.key.when();
        let moment = Moment::new(event.dest, now);
        let mut again = Out::new(config, event.dest, now, number);
        let left = execute(model, &mut self.tried, event, &mut again);
        undo(model, &mut self.tried, event, left, number);
        if self.tried.state != self.steady.state {
            return Err(Difference::Undone(moment));
        }
        again.renew(config, event.dest, now, number);
        execute(model, &mut self.tried, event, &mut again);
        once.renew(config, event.dest, now, self.steady.number);
        execute(model, &mut self.steady, event, once);
        match self.differing(once, &again) {
            Some(part) => Err(Difference::Again(moment, part)),
            None => Ok(()),
        }
    }
}

/// Whether two lists of sends are the same.
fn are_same_sends<P: Copy + PartialEq>(once: &[Sent<P>], again: &[Sent<P>]) -> bool {
    if once.len() != again.len() {
        return false;
    }
    for (a, b) in once.iter().zip(again) {
        if a.key != b.key || a.dest != b.dest || a.payload != b.payload {
            return false;
        }
    }
    true
}
