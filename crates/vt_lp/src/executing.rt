//! How a process with rollback executes its least pending event.

ghost use Rattle.std.specs.Prelude.{◌≡◌, ◌+◌, ◌%◌, ◌^◌, ◌<◌, ◌≤◌, ◌⊎◌, [], ◌∷◌, ◌++◌, length, map, All, None, Err, IfOk, IfErr};
ghost use Rattle.vt_key.specs.promise.Times.{TimeBefore};
ghost use Rattle.vt_key.specs.declared.fault.Fault.TheVariants.{Memory, NotLawful, Exhausted};
ghost use Rattle.vt_key.specs.declared.letter.Letter.{Letter};
ghost use Rattle.vt_key.specs.declared.letter.Sign.TheVariants.{Plus, Minus};
ghost use Rattle.vt_model.specs.declared.limits.TheConstants.{MAX_RECORDS};
ghost use Rattle.vt_model.specs.inside.Process.{triple_at, IsProcessStream};
ghost use Rattle.vt_model.specs.promise.Simulation.{simulation_of};
ghost use Rattle.vt_model.specs.promise.Settings.{end_of};
ghost use Rattle.vt_key.specs.inside.Queues.{IsRising};
ghost use Rattle.vt_stream.specs.inside.Words.{moved};
ghost use Rattle.vt_steps.specs.promise.Letters.{unstamped, stamped, signed};
ghost use Rattle.vt_steps.specs.inside.StandsFor.{IsRemembered};
ghost use Rattle.vt_steps.specs.promise.World.{LogicalProcess};
ghost use Rattle.vt_lp.specs.inside.Held.{StandsFor, AllWithinRun, IsReady, remembered};
ghost use Rattle.vt_lp.specs.inside.Steps.{execute_held, DoesAtProcess, RefusesExecution};
ghost use Rattle.vt_past.specs.inside.Events.{past_event};
ghost use Rattle.vt_lp.specs.inside.Past.{ready_event, IsAdvanceRefusal};

use crate::letters::ends_before;
use crate::lp::Lp;
use crate::making::{is_counted, letters, unstamped};
use std::alloc::Global;
use vt_key::{Event, Fault, Letter, MAX_COUNT, Sign, When};
use vt_list::List;
use vt_model::{Config, MAX_DRAWS, Model as EventModel, Out, Process, Record, Sent, Undo};
use vt_past::{Past, PastEvent, UndoEntry};
use vt_pending::Pending;

impl<M: EventModel> Lp<M> {
    /// Executes the least pending event: the model's `forward` takes the process on, and the event becomes the last
    /// past one. The events that it sends below the end of the run go to the back of the outbox. Their stamps are of
    /// the process's worker, with serials from `serial` on. Afterwards `serial` is the next free one.
    ///
    /// [`Fault::NotLawful`]: nothing is pending, or the least pending event doesn't come after the last past one.
    /// [`Fault::Exhausted`]: the send number or the serial would pass 2^63. [`Fault::Memory`]: memory was refused.
    /// After each the process, the outbox and the serial are unchanged.
    ///
    /// That holds for the model that the process was made with. With another model, the last two faults may leave
    /// another state, since that model's `reverse` restores it.
    pub fn execute(
        &mut self,
        alloc: Global,
        model: &M,
        serial: &mut u64,
        outbox: &mut List<Letter<M::Payload>>,
    ) -> Result<(), Fault>
        ensures done { DoesAtProcess (M.handlers model.now) self.old self.new (execute_held (M.handlers model.now) self.old serial.old) outbox.old outbox.new serial.old serial.new result }
        ensures refused { RefusesExecution (M.handlers model.now) self.old serial.old result }
        ensures faults { IfErr result (λ fault. (fault ≡ NotLawful) ⊎ ((fault ≡ Exhausted) ⊎ (fault ≡ Memory))) }
        ensures no_event { ready_event self.old.pending self.old.past ≡ None → result ≡ Err NotLawful }
        ensures unchanged { (h : LogicalProcess _) → StandsFor (M.handlers model.now) self.old h → IfErr result (λ fault. self.new ≡ self.old) }
        ensures restored { M.IsState model.now self.old.triple.state → IfErr result (λ fault. self.new ≡ self.old) }
        ensures not_lawful { IfErr result (λ fault. fault ≡ NotLawful → self.new ≡ self.old) }
        ensures but_state { IfErr result (λ fault. (self.new.past ≡ self.old.past) × (self.new.pending ≡ self.old.pending) × (self.new.waiting ≡ self.old.waiting) × (self.new.triple.number ≡ self.old.triple.number) × (self.new.triple.place ≡ self.old.triple.place)) }
        ensures kept { IfErr result (λ fault. (outbox.new ≡ outbox.old) × (serial.new ≡ serial.old)) }
        ensures counted { IfOk result (λ _. (self.new.triple.number ≤ MAX_COUNT) × (serial.new ≤ MAX_COUNT)) }
        ensures within { AllWithinRun self.old.config outbox.old → AllWithinRun self.old.config outbox.new }
        ensures same { (self.new.lp ≡ self.old.lp) × (self.new.config ≡ self.old.config) }
    {
        let Some(event) = ready_event(&self.pending, &self.past) else {
            return Err(Fault::NotLawful);
        };
        let mut out = Out::new(self.config, 0, When::tick(0), 0);
        let (undo_entry, mut messages) = match advance(
            &mut self.process,
            alloc,
            &mut out,
            model,
            self.config,
            *serial,
            event,
        ) {
            Ok(advanced) => advanced,
            Err(fault) => return Err(fault),
        };
        let bits = undo_entry.bits;
        let kept = undo_entry.kept;
        let drawn = undo_entry.drawn;
        let number = undo_entry.number;
        if let Err(fault) = keep(
            alloc,
            &mut self.pending,
            &mut self.past,
            undo_entry,
            out.records(),
        ) {
            let sent = unstamped(&event);
            self.process.undo(model, sent, bits, kept, drawn, number);
            return Err(fault);
        }
        *serial += messages.len() as u64;
        outbox.append(&mut messages);
        Ok(())
    }
}

/// The least pending event, if it comes after the last past one.
fn ready_event<P: Copy, K: Copy>(pending: &Pending<P>, past: &Past<P, K>) -> Option<Event<P>>
    ensures event { result ≡ ready_event pending.now past.now }
    ensures rising { IsRising pending.now }
{
    let least = pending.least()?;
    if !ends_before(past, least.event.rank) {
        return None;
    }
    Some(least.event)
}

/// Executes an event at its receiver, and makes the messages of what it sends and the anti-messages that it leaves. A
/// refusal leaves the process unchanged.
///
/// [`Fault::Exhausted`]: the send number or the serial would pass 2^63. [`Fault::Memory`]: memory was refused.
fn advance<M: EventModel>(
    process: &mut Process<M>,
    alloc: Global,
    out: &mut Out<M::Payload>,
    model: &M,
    config: Config,
    serial: u64,
    event: Event<M::Payload>,
) -> Result<(UndoEntry<M::Payload, M::Kept>, List<Letter<M::Payload>>), Fault>
    requires known { event.dest < config.lps }
    requires early { TimeBefore event.rank.key.time (end_of config) }
    requires numbered { process.old.number ≤ MAX_COUNT }
    requires stream { IsProcessStream config.seed event.dest process.old.stream }
    ensures triple { let fired = (simulation_of (M.handlers model.now) config).fire event.dest (triple_at process.old.state process.old.number process.old.stream) (unstamped event) in IfOk result (λ a. triple_at process.new.state process.new.number process.new.stream ≡ fired.triple) }
    ensures messages { let fired = (simulation_of (M.handlers model.now) config).fire event.dest (triple_at process.old.state process.old.number process.old.stream) (unstamped event) in IfOk result (λ a. a.1 ≡ map (signed Plus) (stamped (event.dest % config.workers) serial fired.sends)) }
    ensures anti_messages { let fired = (simulation_of (M.handlers model.now) config).fire event.dest (triple_at process.old.state process.old.number process.old.stream) (unstamped event) in IfOk result (λ a. a.0.anti_messages ≡ map (signed Minus) (stamped (event.dest % config.workers) serial fired.sends)) }
    ensures remembered { M.IsState model.now process.old.state → IfOk result (λ a. IsRemembered (simulation_of (M.handlers model.now) config) event.dest (triple_at process.old.state process.old.number process.old.stream) (remembered (M.handlers model.now) event.dest (past_event (signed Plus event) a.0 out.new.records))) }
    ensures few { IfOk result (λ a. a.0.drawn ≤ MAX_DRAWS) }
    ensures few_records { IfOk result (λ a. length out.new.records ≤ MAX_RECORDS) }
    ensures few_sends { IfOk result (λ a. a.0.number ≤ MAX_COUNT) }
    ensures ready { IfOk result (λ a. All (IsReady config.lps (end_of config)) a.0.anti_messages) }
    ensures within { IfOk result (λ a. AllWithinRun config a.1) }
    ensures counted { let fired = (simulation_of (M.handlers model.now) config).fire event.dest (triple_at process.old.state process.old.number process.old.stream) (unstamped event) in IfOk result (λ a. serial + length fired.sends ≤ MAX_COUNT) }
    ensures numbered { process.new.number ≤ MAX_COUNT }
    ensures stream { IsProcessStream config.seed event.dest process.new.stream }
    ensures unchanged { M.IsState model.now process.old.state → IfErr result (λ fault. process.new ≡ process.old) }
    ensures but_state { IfErr result (λ fault. (process.new.number ≡ process.old.number) × (process.new.stream ≡ process.old.stream)) }
    ensures drew { IfOk result (λ a. (a.0.number ≡ process.old.number) × (process.new.stream ≡ moved process.old.stream a.0.drawn)) }
    ensures in_range { process.old.stream.place < 2 ^ 64 }
    ensures refused { let fired = (simulation_of (M.handlers model.now) config).fire event.dest (triple_at process.old.state process.old.number process.old.stream) (unstamped event) in IfErr result (λ fault. IsAdvanceRefusal fired serial fault) }
{
    // By reference: a copy of an event counts as a move, since its time has a model.
    let event = &event;
    let number = process.number;
    let sent = unstamped(event);
    out.renew(config, event.dest, event.rank.key.when(), number);
    let Undo { bits, kept, drawn } = process.execute_into(model, config, sent, out);
    if out.number() > MAX_COUNT || !is_counted(serial, out.sends()) {
        process.undo(model, sent, bits, kept, drawn, number);
        return Err(Fault::Exhausted);
    }
    let worker = config.owner(event.dest);
    let (messages, anti_messages) = match both_letters(alloc, worker, serial, out.sends()) {
        Ok(made) => made,
        Err(fault) => {
            process.undo(model, sent, bits, kept, drawn, number);
            return Err(fault);
        }
    };
    let undo_entry = UndoEntry {
        anti_messages,
        kept,
        bits,
        drawn,
        number,
    };
    Ok((undo_entry, messages))
}

/// The messages of these sends, and the anti-messages that take them back.
///
/// [`Fault::Memory`]: memory was refused.
fn both_letters<P: Copy>(
    alloc: Global,
    worker: u32,
    serial: u64,
    sends: &[Sent<P>],
) -> Result<(List<Letter<P>>, List<Letter<P>>), Fault>
    requires few { serial + length sends.now ≤ MAX_COUNT }
    ensures messages { IfOk result (λ made. made.0 ≡ map (signed Plus) (stamped worker serial sends.now)) }
    ensures anti_messages { IfOk result (λ made. made.1 ≡ map (signed Minus) (stamped worker serial sends.now)) }
    ensures refused { IfErr result (λ fault. fault ≡ Memory) }
{
    let messages = match letters(alloc, Sign::Plus, worker, serial, sends) {
        Ok(messages) => messages,
        Err(fault) => return Err(fault),
    };
    let anti_messages = match letters(alloc, Sign::Minus, worker, serial, sends) {
        Ok(anti_messages) => anti_messages,
        Err(fault) => return Err(fault),
    };
    Ok((messages, anti_messages))
}

/// Moves the least pending event, with the undo entry and the records that it left, behind the last past one. A refusal
/// leaves both lists unchanged.
///
/// [`Fault::Memory`]: memory was refused.
fn keep<P: Copy, K: Copy>(
    alloc: Global,
    pending: &mut Pending<P>,
    past: &mut Past<P, K>,
    undo_entry: UndoEntry<P, K>,
    records: &[Record],
) -> Result<(), Fault>
    requires few { length records.now ≤ MAX_RECORDS }
    requires some { 0 < length pending.old }
    requires rising { IsRising pending.old }
    ensures kept { IfOk result (λ _. (letter : Letter _) × (pending.old ≡ letter ∷ pending.new) × (past.new ≡ past.old ++ past_event letter undo_entry records.now ∷ [])) }
    ensures rising { IsRising pending.new }
    ensures unchanged { IfErr result (λ fault. (pending.new ≡ pending.old) × (past.new ≡ past.old)) }
    ensures refused { IfErr result (λ fault. fault ≡ Memory) }
{
    let Some(letter) = pending.take_least() else {
        return Err(Fault::NotLawful);
    };
    match PastEvent::new(alloc, letter, undo_entry, records) {
        Ok(event) => {
            past.push_back(event);
            Ok(())
        }
        Err(letter) => {
            pending.insert(letter);
            Err(Fault::Memory)
        }
    }
}
