//! How a pool is made.

ghost use Rattle.std.specs.Prelude.{◌≡◌, ◌<◌, ◌≤◌, ◌++◌, [], length, map, IfOk, IfErr};
ghost use Rattle.vt_key.specs.declared.fault.Fault.TheVariants.{Memory};
ghost use Rattle.vt_key.specs.declared.letter.Sign.TheVariants.{Plus};
ghost use Rattle.vt_key.specs.declared.limits.TheConstants.{MAX_COUNT};
ghost use Rattle.vt_model.specs.promise.Simulation.{simulation_of};
ghost use Rattle.vt_steps.specs.promise.Letters.{signed};
ghost use Rattle.vt_steps.specs.promise.World.{process_count, start_sends, start_events};
ghost use Rattle.vt_lp.specs.inside.Held.{AllWithinRun};
ghost use Rattle.vt_pool.specs.inside.Inside.{AreSettled};
ghost use Rattle.vt_pool.specs.inside.Opening.{AreStarted, IsLedFromOpening, StandsForOpening};

use crate::hints::Hints;
use crate::kept::Kept;
use crate::pool::Pool;
use std::alloc::Global;
use vt_calendar::Calendar;
use vt_key::{Fault, When};
use vt_list::List;
use vt_logs::Log;
use vt_lp::start;
use vt_model::{Config, Model as EventModel, Process};
use vt_outbox::Outbox;

impl<M: EventModel> Pool<M> {
    /// The pool of worker `w`, which is below `config.workers`, after its processes have started, in rising order, and what they sent to
    /// each other has come home. Serials begin at 0.
    ///
    /// [`Fault::Memory`]: memory was refused.
    pub fn new(alloc: Global, model: &M, config: Config, w: u32) -> Result<Pool<M>, Fault>
        requires known { w < config.workers }
        ensures opening { IfOk result (λ pool. IsLedFromOpening (M.handlers model.now) config w pool) }
        ensures settled { IfOk result (λ pool. AreSettled pool.stock) }
        ensures made { IfOk result (λ pool. (pool.worker ≡ w) × (pool.config ≡ config)) }
        ensures refused { IfErr result (λ fault. fault ≡ Memory) }
    {
        let mut pool = match open(alloc, model, config, w) {
            Ok(pool) => pool,
            Err(fault) => return Err(fault),
        };
        pool.home_all(model);
        Ok(pool)
    }
}

/// The pool of worker `w` at the opening.
fn open<M: EventModel>(alloc: Global, model: &M, config: Config, w: u32) -> Result<Pool<M>, Fault>
    requires known { w < config.workers }
    ensures opening { IfOk result (λ pool. StandsForOpening (M.handlers model.now) config w pool) }
    ensures settled { IfOk result (λ pool. AreSettled pool.stock) }
    ensures made { IfOk result (λ pool. (pool.worker ≡ w) × (pool.config ≡ config)) }
    ensures refused { IfErr result (λ fault. fault ≡ Memory) }
{
    let mut outbox = Outbox::new(alloc, config)?;
    let mut serial = 0;
    let processes = start_all(alloc, model, config, w, &mut serial, &mut outbox)?;
    let (heard, log, calendar) = match stores(alloc, config, processes.len() as u32) {
        Ok(empty) => empty,
        Err(_) => return Err(Fault::Memory),
    };
    Ok(Pool {
        config,
        worker: w,
        processes,
        calendar,
        waiting: List::new(alloc),
        log,
        reached: When::tick(0),
        kept: Kept::new(alloc),
        heard,
        outbox,
        serial,
        hints: Hints::new(),
    })
}

/// Empty stores: for each worker the greatest serial that was heard of it, a log of so many processes, and a calendar.
// It is apart from `open`, so that few values are there at each refusal.
fn stores<P: Copy, K: Copy>(
    alloc: Global,
    config: Config,
    count: u32,
) -> Result<(Vec<u64>, Log<P, K>, Calendar<P>), Fault>
    ensures heard { IfOk result (λ s. length s.0.items ≡ config.workers) }
    ensures log { IfOk result (λ s. (s.1.events ≡ []) × (s.1.processes ≡ count)) }
    ensures calendar { IfOk result (λ s. s.2 ≡ []) }
    ensures refused { IfErr result (λ fault. fault ≡ Memory) }
{
    let Ok(heard) = vec![in alloc; 0; config.workers as usize] else {
        return Err(Fault::Memory);
    };
    let Ok(log) = Log::new(alloc, count) else {
        return Err(Fault::Memory);
    };
    let Ok(calendar) = Calendar::new(alloc, config.lps) else {
        return Err(Fault::Memory);
    };
    Ok((heard, log, calendar))
}

/// Starts the processes of worker `w` in rising order. What they send goes to the back of the outbox, with serials from `serial` on.
fn start_all<M: EventModel>(
    alloc: Global,
    model: &M,
    config: Config,
    w: u32,
    serial: &mut u64,
    outbox: &mut Outbox<M::Payload>,
) -> Result<Vec<Process<M>>, Fault>
    requires known { w < config.workers }
    requires none { serial.old ≡ 0 }
    requires empty { outbox.old ≡ record { config = config; letters = [] } }
    ensures count { IfOk result (λ v. length v.items ≡ process_count (simulation_of (M.handlers model.now) config) w) }
    ensures started { IfOk result (λ v. AreStarted (M.handlers model.now) config w 0 v.items) }
    ensures outbox { IfOk result (λ v. outbox.new ≡ record { config = config; letters = map (signed Plus) (start_events (simulation_of (M.handlers model.now) config) 0 w) }) }
    ensures within { IfOk result (λ v. AllWithinRun config outbox.new.letters) }
    ensures serial { IfOk result (λ v. serial.new ≡ length (start_sends (simulation_of (M.handlers model.now) config) w)) }
    ensures few { IfOk result (λ v. serial.new ≤ MAX_COUNT) }
    ensures refused { IfErr result (λ fault. fault ≡ Memory) }
{
    let mut processes = Vec::new(alloc);
    let mut p = w;
    while p < config.lps {
        let (process, messages) = match start(alloc, model, config, p, *serial) {
            Ok(started) => started,
            Err(_) => return Err(Fault::Memory),
        };
        let Ok(()) = processes.push(process) else {
            return Err(Fault::Memory);
        };
        *serial += messages.len() as u64;
        outbox.put(messages);
        p += config.workers;
    }
    Ok(processes)
}
