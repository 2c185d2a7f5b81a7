//! How a process starts, and how it executes the first of the pending events.

ghost use Rattle.std.specs.Prelude.{◌≡◌, ◌+◌, ◌<◌, ◌≤◌, ◌++◌, length, drop, vec_len, vec_capacity, IfOk, IfErr};
ghost use Rattle.vt_key.specs.promise.Times.{TimeBefore};
ghost use Rattle.vt_key.specs.declared.fault.Fault.TheVariants.{Memory};
ghost use Rattle.vt_key.specs.promise.Lists.{Among};
ghost use Rattle.vt_model.specs.declared.sending.Sent.{Sent};
ghost use Rattle.vt_model.specs.inside.Process.{triple_at, IsProcessStream};
ghost use Rattle.vt_model.specs.promise.Simulation.{simulation_of};
ghost use Rattle.vt_model.specs.promise.Settings.{end_of};
ghost use Rattle.vt_seq.specs.inside.Queue.{all_inserted, HaveNewKeys};
ghost use Rattle.vt_seq.specs.inside.Limits.{IsRefusal};
ghost use Rattle.vt_seq.specs.inside.StandsFor.{HasExecuted, HasStarted};

use crate::pending::PendingEvents;
use vt_key::{Fault, MAX_COUNT, When};
use vt_model::stream::LpStream;
use vt_model::{Config, Draws, Model as EventModel, Out, Process, Record, Sent, Undo};

/// Executes the first pending event at its receiver, with an `out` that is renewed for it. Its sends join the pending
/// events, and its records the others. If it is refused, nothing else changes.
pub(crate) fn advance<M: EventModel>(
    process: &mut Process<M>,
    model: &M,
    config: Config,
    event: &Sent<M::Payload>,
    pending: &mut PendingEvents<M::Payload>,
    records: &mut Vec<Record>,
    out: &mut Out<M::Payload>,
) -> Result<(), Fault>
    requires known { event.now.dest < config.lps }
    requires early { TimeBefore event.now.key.time (end_of config) }
    requires numbered { process.old.number ≤ MAX_COUNT }
    requires stream { IsProcessStream config.seed event.now.dest process.old.stream }
    requires some { 0 < length pending.old }
    requires earlier { (d : Sent _) → Among d pending.old → d.key.source ≡ event.now.dest → d.key.number < process.old.number }
    ensures done { IfOk result (λ done. HasExecuted ((simulation_of (M.handlers model.now) config).fire event.now.dest (triple_at process.old.state process.old.number process.old.stream) event.now) pending.old records.old.items process.new.state process.new.number process.new.stream pending.new records.new.items) }
    ensures stream { IsProcessStream config.seed event.now.dest process.new.stream }
    ensures numbered { process.new.number ≤ MAX_COUNT }
    ensures pending { IfErr result (λ fault. pending.new ≡ pending.old) }
    ensures records { IfErr result (λ fault. records.new.items ≡ records.old.items) }
    ensures process { M.IsState model.now process.old.state → IfErr result (λ fault. process.new ≡ process.old) }
    ensures refused { IfErr result (λ fault. IsRefusal ((simulation_of (M.handlers model.now) config).fire event.now.dest (triple_at process.old.state process.old.number process.old.stream) event.now).triple.number fault) }
{
    let number = process.number;
    out.renew(config, event.dest, event.key.when(), number);
    let Undo { bits, kept, drawn } = process.execute_into(model, config, *event, out);
    if out.number() > MAX_COUNT {
        process.undo(model, *event, bits, kept, drawn, number);
        return Err(Fault::Exhausted);
    }
    match join(out, pending, records) {
        Ok(()) => Ok(()),
        Err(fault) => {
            process.undo(model, *event, bits, kept, drawn, number);
            Err(fault)
        }
    }
}

/// Starts a process: its sends join the pending events.
pub(crate) fn start_process<M: EventModel>(
    model: &M,
    config: Config,
    p: u32,
    pending: &mut PendingEvents<M::Payload>,
) -> Result<Process<M>, Fault>
    requires known { p < config.lps }
    requires others { (d : Sent _) → Among d pending.old → d.key.source < p }
    ensures done { IfOk result (λ process. HasStarted ((simulation_of (M.handlers model.now) config).start p) pending.old process.state process.number process.stream pending.new) }
    ensures stream { IfOk result (λ process. IsProcessStream config.seed p process.stream) }
    ensures numbered { IfOk result (λ process. process.number ≤ MAX_COUNT) }
    ensures refused { IfErr result (λ fault. fault ≡ Fault.Memory) }
{
    let mut stream = LpStream::new(config.seed, p);
    let mut out = Out::new(config, p, When::tick(0), 0);
    let mut draws = Draws::new(&mut stream);
    let state = model.start(p, &mut draws, &mut out);
    let number = out.number();
    pending.insert_all(out.sends())?;
    Ok(Process {
        state,
        number,
        stream,
    })
}

/// What an event sent takes its place among the pending events, and what it recorded joins the records.
///
/// [`Fault::Memory`]: memory was refused, and nothing changes.
fn join<P: Copy>(
    out: &Out<P>,
    pending: &mut PendingEvents<P>,
    records: &mut Vec<Record>,
) -> Result<(), Fault>
    requires some { 0 < length pending.old }
    requires new { HaveNewKeys out.now.sends (drop 1 pending.old) }
    ensures pending { IfOk result (λ _. pending.new ≡ all_inserted out.now.sends (drop 1 pending.old)) }
    ensures records { IfOk result (λ _. records.new.items ≡ records.old.items ++ out.now.records) }
    ensures pending_kept { IfErr result (λ _. pending.new ≡ pending.old) }
    ensures records_kept { IfErr result (λ _. records.new.items ≡ records.old.items) }
    ensures refused { IfErr result (λ fault. fault ≡ Memory) }
{
    let Ok(()) = records.reserve(out.records().len()) else {
        return Err(Fault::Memory);
    };
    let Ok(()) = pending.replace_first(out.sends()) else {
        return Err(Fault::Memory);
    };
    put_behind(records, out.records());
    Ok(())
}

/// Puts records behind others, for which there must be room.
// Mostly there is one, and a call would cost more than its copy.
#[inline(always)]
fn put_behind(records: &mut Vec<Record>, more: &[Record])
    requires { vec_len records.old + length more.now ≤ vec_capacity records.old }
    ensures { records.new.items ≡ records.old.items ++ more.now }
{
    if more.len() != 1 || records.len() >= records.capacity() {
        let _ = records.extend_from_slice(more);
        return;
    }
    let _ = records.push(more[0]);
}
