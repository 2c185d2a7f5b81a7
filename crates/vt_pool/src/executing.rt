//! Execute of the least pending event of all.

ghost use Rattle.std.specs.Prelude.{◌≡◌, ◌⊎◌, ◌+◌, ◌<◌, ◌≤◌, ◌*◌, ◌++◌, ℕ, [], ◌∷◌, true, false, length, IfOk, IfErr};
ghost use Rattle.vt_key.specs.promise.Times.{TimeBefore, TimeAtMost};
ghost use Rattle.vt_key.specs.declared.fault.Fault.TheVariants.{Memory, Exhausted};
ghost use Rattle.vt_model.specs.declared.limits.TheConstants.{MAX_RECORDS};
ghost use Rattle.vt_model.specs.inside.Process.{triple_at, IsProcessStream};
ghost use Rattle.vt_model.specs.promise.Settings.{end_of};
ghost use Rattle.vt_model.specs.promise.Simulation.{simulation_of};
ghost use Rattle.vt_steps.specs.promise.Letters.{unstamped};
ghost use Rattle.vt_steps.specs.inside.StandsFor.{IsRemembered};
ghost use Rattle.vt_steps.specs.promise.World.{Part};
ghost use Rattle.vt_lp.specs.inside.Held.{remembered};
ghost use Rattle.vt_lp.specs.inside.Past.{IsAdvanceRefusal};
ghost use Rattle.vt_logs.specs.inside.Events.{all_nodes};
ghost use Rattle.vt_kernel.specs.inside.Held.{StandsFor};
ghost use Rattle.vt_pool.specs.inside.Inside.{AreSettled};
ghost use Rattle.vt_pool.specs.inside.Share.{HeldShare, PoolLeadsTo, with_pool, seen};
ghost use Rattle.vt_pool.specs.inside.Executing.{past_of, fired_by, IsFired, HasExecuted, IsNotExecuted};

use crate::delivering::deliver;
use crate::kept::Kept;
use crate::pool::Pool;
use vt_key::{Event, Fault, Letter, MAX_COUNT, When};
use vt_logs::{Entry, Log};
use vt_model::{Config, MAX_SENDS, Model as EventModel, Out, Process, Sent, Undo};

impl<M: EventModel> Pool<M> {
    /// Executes the least pending event of all, and takes what that sends to the worker's own processes home, with the undos that it forces.
    /// False, and nothing changes, if nothing is pending.
    ///
    /// `out` is for the handler, so that many events have one. Any `out` serves. What is in it afterwards isn't said.
    ///
    /// [`Fault::Exhausted`]: the send number of the event's process or the worker's serial would pass 2^63. [`Fault::Memory`]: memory was
    /// refused. After either nothing has changed, if the worker was made with this model. Else that process may have another state.
    pub fn execute_next(&mut self, model: &M, out: &mut Out<M::Payload>) -> Result<bool, Fault>
        requires settled { AreSettled self.old.stock }
        ensures executed { IfOk result (λ some. some ≡ true → HasExecuted (M.handlers model.now) self.old self.new) }
        ensures nothing { IfOk result (λ some. some ≡ false → (self.old.stock.pending ≡ []) × (self.new ≡ self.old)) }
        ensures refused { IfErr result (λ fault. IsNotExecuted (M.handlers model.now) self.old fault) }
        ensures faults { IfErr result (λ fault. (fault ≡ Exhausted) ⊎ (fault ≡ Memory)) }
        ensures unchanged { (rest : HeldShare _ _ _) (part : Part _) → StandsFor (M.handlers model.now) (seen (with_pool rest self.old)) part → IfErr result (λ _. self.new ≡ self.old) }
        ensures but_triples { IfErr result (λ _. self.new ≡ record self.old { stock = record self.old.stock { triples = self.new.stock.triples } }) }
        ensures leads { PoolLeadsTo (M.handlers model.now) self.old self.new }
        ensures settled { AreSettled self.new.stock }
        ensures same { (self.new.worker ≡ self.old.worker) × (self.new.config ≡ self.old.config) }
    {
        let Some(letter) = self.calendar.take_first() else {
            return Ok(false);
        };
        let first = letter.get();
        let event = first.event;
        // By reference: a copy of an event counts as a move, since its time has a model.
        let event = &event;
        let has_room = make_room(&mut self.log, &mut self.kept, first);
        let index = self.config.index(event.dest);
        let process = &mut self.processes[index as usize];
        let config = self.config;
        let entry = match fire(process, model, config, self.serial, event, has_room, out) {
            Ok(entry) => entry,
            Err(fault) => {
                self.calendar.put(letter);
                return Err(fault);
            }
        };
        self.kept.keep(letter);
        self.reached = later(self.reached, event.rank.key.when());
        let serial = self.serial;
        self.serial = write(&mut self.log, index, entry, out);
        let may_go = self.waiting.is_empty();
        let sends = out.sends();
        let most = &mut self.heard[self.worker as usize];
        deliver(
            &mut self.kept,
            &mut self.calendar,
            &mut self.outbox,
            most,
            self.reached,
            may_go,
            self.config,
            self.worker,
            serial,
            sends,
        );
        self.hints.count_event(sends.len());
        self.home_left(model);
        Ok(true)
    }

    /// Takes what is in the outbox for the worker's own processes home. Mostly that is nothing.
    #[inline(always)]
    fn home_left(&mut self, model: &M)
        requires settled { AreSettled self.old.stock }
        ensures leads { PoolLeadsTo (M.handlers model.now) self.old self.new }
        ensures settled { AreSettled self.new.stock }
        ensures same { (self.new.worker ≡ self.old.worker) × (self.new.config ≡ self.old.config) }
    {
        if self.outbox.has_for(self.worker) {
            self.home_all(model);
        }
    }
}

/// Takes room in the log for one event more, and nodes for all that it may send and for the undo of all that is past then. False if memory was
/// refused. The letter is that of the event.
fn make_room<P: Copy, K: Copy>(log: &mut Log<P, K>, kept: &mut Kept<P>, letter: &Letter<P>) -> bool
    ensures same { (log.new.events ≡ log.old.events) × (log.new.processes ≡ log.old.processes) }
    ensures room { result ≡ true → log.new.has_room ≡ true }
    ensures nodes { result ≡ true → all_nodes log.old.events + 2 * MAX_SENDS ≤ kept.new }
    ensures more { kept.old ≤ kept.new }
{
    let Ok(()) = log.make_room(letter.event.rank.key.when()) else {
        return false;
    };
    let Some(count) = log.needs().checked_add(2 * MAX_SENDS) else {
        return false;
    };
    kept.make_room(count, letter).is_ok()
}

/// The later of two times.
#[inline(always)]
fn later(a: When, b: When) -> When
    ensures first { TimeAtMost a result }
    ensures second { TimeAtMost b result }
{
    if a > b { a } else { b }
}

/// An event as the model knows it: without its stamp.
#[inline(always)]
pub(crate) fn unstamped<P: Copy>(event: &Event<P>) -> Sent<P>
    ensures { result ≡ unstamped event.now }
{
    Sent {
        key: event.rank.key,
        dest: event.dest,
        payload: event.payload,
    }
}

/// Executes an event at its receiver, and tells what its undo needs. Its sends and records are in `out` then. A refusal leaves the process
/// unchanged.
///
/// [`Fault::Exhausted`]: the send number or the serial would pass 2^63. [`Fault::Memory`]: there is no room for it.
#[inline(always)]
fn fire<M: EventModel>(
    process: &mut Process<M>,
    model: &M,
    config: Config,
    serial: u64,
    event: &Event<M::Payload>,
    has_room: bool,
    out: &mut Out<M::Payload>,
) -> Result<Entry<M::Payload, M::Kept>, Fault>
    requires known { event.now.dest < config.lps }
    requires early { TimeBefore event.now.rank.key.time (end_of config) }
    requires numbered { process.old.number ≤ MAX_COUNT }
    requires stream { IsProcessStream config.seed event.now.dest process.old.stream }
    requires few_made { serial ≤ MAX_COUNT }
    ensures fired { IfOk result (λ entry. IsFired (M.handlers model.now) config event.now.dest event.now serial (triple_at process.old.state process.old.number process.old.stream) (triple_at process.new.state process.new.number process.new.stream) entry out.new.sends out.new.records) }
    ensures remembered { M.IsState model.now process.old.state → IfOk result (λ entry. (w : ℕ) → IsRemembered (simulation_of (M.handlers model.now) config) event.now.dest (triple_at process.old.state process.old.number process.old.stream) (remembered (M.handlers model.now) event.now.dest (past_of w entry out.new.sends out.new.records))) }
    ensures room { IfOk result (λ _. has_room ≡ true) }
    ensures stream { (process.new.stream.key ≡ process.old.stream.key) × (process.new.stream.process ≡ process.old.stream.process) }
    ensures unchanged { M.IsState model.now process.old.state → IfErr result (λ _. process.new ≡ process.old) }
    ensures but_state { IfErr result (λ _. (process.new.number ≡ process.old.number) × (process.new.stream ≡ process.old.stream)) }
    ensures refused { IfErr result (λ fault. IsAdvanceRefusal (fired_by (M.handlers model.now) config event.now.dest (triple_at process.old.state process.old.number process.old.stream) event.now) serial fault) }
{
    let number = process.number;
    let sent = unstamped(event);
    out.renew(config, event.dest, event.rank.key.when(), number);
    let Undo { bits, kept, drawn } = process.execute_into(model, config, sent, out);
    if let Err(fault) = check_counts(out.number(), serial, out.sends().len(), has_room) {
        process.undo(model, sent, bits, kept, drawn, number);
        return Err(fault);
    }
    Ok(Entry {
        event: *event,
        serial,
        number,
        kept,
        bits,
        drawn,
    })
}

/// Writes an executed event of the process at `index` into the log. There must be room for it. The result is the serial after those of
/// what it sent.
#[inline(always)]
fn write<P: Copy, K: Copy>(log: &mut Log<P, K>, index: u32, entry: Entry<P, K>, out: &Out<P>) -> u64
    requires room { log.old.has_room ≡ true }
    requires known { index < log.old.processes }
    requires few_sends { length out.now.sends ≤ MAX_SENDS }
    requires few_records { length out.now.records ≤ MAX_RECORDS }
    requires counted { entry.serial + length out.now.sends ≤ MAX_COUNT }
    ensures events { log.new.events ≡ log.old.events ++ record { process = index; entry = entry; sends = out.now.sends; records = out.now.records } ∷ [] }
    ensures processes { log.new.processes ≡ log.old.processes }
    ensures next { result ≡ entry.serial + length out.now.sends }
{
    let serial = entry.serial;
    log.push(index, entry, out.sends(), out.records());
    serial + out.sends().len() as u64
}

/// Whether an event that was executed may stay so, by the send number after it, the serial before it and how many events it sent.
///
/// [`Fault::Exhausted`]: the send number or the serial would pass 2^63. [`Fault::Memory`]: there is no room for it.
#[inline(always)]
fn check_counts(number: u64, serial: u64, count: usize, has_room: bool) -> Result<(), Fault>
    requires few_made { serial ≤ MAX_COUNT }
    ensures counted { IfOk result (λ _. (number ≤ MAX_COUNT) × (serial + count ≤ MAX_COUNT)) }
    ensures room { IfOk result (λ _. has_room ≡ true) }
    ensures refused { IfErr result (λ fault. ((fault ≡ Exhausted) × ((MAX_COUNT < number) ⊎ (MAX_COUNT < serial + count))) ⊎ ((fault ≡ Memory) × (number ≤ MAX_COUNT) × (serial + count ≤ MAX_COUNT))) }
{
    if number > MAX_COUNT || count as u64 > MAX_COUNT - serial {
        return Err(Fault::Exhausted);
    }
    if !has_room {
        return Err(Fault::Memory);
    }
    Ok(())
}
