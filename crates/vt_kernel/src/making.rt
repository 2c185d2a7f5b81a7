//! How a worker is made.

ghost use Rattle.std.specs.Prelude.{◌≡◌, ◌+◌, ◌<◌, ◌≤◌, ◌⊎◌, ◌↔◌, [], length, map, All, IsTrue, IfOk, IfErr};
ghost use Rattle.vt_key.specs.declared.fault.Fault.TheVariants.{Memory, Exhausted};
ghost use Rattle.vt_key.specs.declared.letter.Sign.TheVariants.{Plus};
ghost use Rattle.vt_key.specs.declared.limits.TheConstants.{MAX_COUNT};
ghost use Rattle.vt_model.specs.promise.Simulation.{simulation_of};
ghost use Rattle.vt_model.specs.declared.limits.TheConstants.{MAX_SENDS};
ghost use Rattle.vt_steps.specs.promise.Letters.{signed};
ghost use Rattle.vt_steps.specs.promise.World.{process_count, start_sends, start_events, opening_part};
ghost use Rattle.vt_lp.specs.inside.Held.{StandsFor as ProcessStandsFor, AllWithinRun, opening_process};
ghost use Rattle.vt_kernel.specs.inside.Held.{StandsFor, AreProcesses};

use crate::counts::Counts;
use crate::kernel::Kernel;
use std::alloc::Global;
use vt_key::{Colour, Fault, Letter, MAX_COUNT, MAX_PROCESSES, MAX_WORKERS, When};
use vt_list::List;
use vt_lp::Lp;
use vt_model::{Config, MAX_SENDS, Model as EventModel, Out, Process};
use vt_outbox::Outbox;

/// The most events that the starts of a worker can send, whatever the model.
const MOST_STARTED: u64 = MAX_SENDS as u64 * (MAX_PROCESSES as u64 + MAX_WORKERS as u64);

impl<M: EventModel> Kernel<M> {
    /// Worker `w`, which is below `config.workers`, at the opening: its processes have started, in rising order. What
    /// they sent below the end of the run is in the outbox, with serials from 0 on.
    ///
    /// [`Fault::Memory`]: memory was refused.
    pub fn new(alloc: Global, model: &M, config: Config, w: u32) -> Result<Kernel<M>, Fault>
        requires known { w < config.workers }
        ensures opening { IfOk result (λ k. StandsFor (M.handlers model.now) k (opening_part (simulation_of (M.handlers model.now) config) 0 w)) }
        ensures made { IfOk result (λ k. (k.worker ≡ w) × (k.config ≡ config)) }
        ensures refused { IfErr result (λ fault. fault ≡ Memory) }
    {
        open(alloc, model, config, w, 0)
    }

    /// As [`Kernel::new`], with serials from `serial` on, which is at most 2^63.
    ///
    /// [`Fault::Exhausted`]: with what the starts send the serial would pass 2^63. [`Fault::Memory`]: memory was refused.
    pub fn with_serial(
        alloc: Global,
        model: &M,
        config: Config,
        w: u32,
        serial: u64,
    ) -> Result<Kernel<M>, Fault>
        requires known { w < config.workers }
        requires counted { serial ≤ MAX_COUNT }
        ensures opening { IfOk result (λ k. StandsFor (M.handlers model.now) k (opening_part (simulation_of (M.handlers model.now) config) serial w)) }
        ensures made { IfOk result (λ k. (k.worker ≡ w) × (k.config ≡ config)) }
        ensures refused { let sent = length (start_sends (simulation_of (M.handlers model.now) config) w) in IfErr result (λ fault. ((fault ≡ Exhausted) × (MAX_COUNT < serial + sent)) ⊎ ((fault ≡ Memory) × (serial + sent ≤ MAX_COUNT))) }
    {
        if !starts_fit(model, config, w, serial) {
            return Err(Fault::Exhausted);
        }
        open(alloc, model, config, w, serial)
    }
}

/// The worker at the opening. Its serials must stay within their limit.
fn open<M: EventModel>(
    alloc: Global,
    model: &M,
    config: Config,
    w: u32,
    serial: u64,
) -> Result<Kernel<M>, Fault>
    requires known { w < config.workers }
    requires fits { serial + length (start_sends (simulation_of (M.handlers model.now) config) w) ≤ MAX_COUNT }
    ensures opening { IfOk result (λ k. StandsFor (M.handlers model.now) k (opening_part (simulation_of (M.handlers model.now) config) serial w)) }
    ensures made { IfOk result (λ k. (k.worker ≡ w) × (k.config ≡ config)) }
    ensures refused { IfErr result (λ fault. fault ≡ Memory) }
{
    let mut serial = serial;
    let mut outbox = Outbox::new(alloc, config)?;
    let mut sent = List::new(alloc);
    let processes = start_all(alloc, model, config, w, &mut serial, &mut sent)?;
    outbox.put(sent);
    Ok(Kernel {
        config,
        worker: w,
        processes,
        outbox,
        arrived: Vec::new(alloc),
        colour: Colour::White,
        sent: Counts::new(),
        got: Counts::new(),
        red_minimum: config.end(),
        floor: When::tick(0),
        serial,
    })
}

/// Starts the processes of worker `w` in rising order. What they send goes to the back of the outbox.
fn start_all<M: EventModel>(
    alloc: Global,
    model: &M,
    config: Config,
    w: u32,
    serial: &mut u64,
    outbox: &mut List<Letter<M::Payload>>,
) -> Result<Vec<Lp<M>>, Fault>
    requires known { w < config.workers }
    requires empty { outbox.old ≡ [] }
    requires fits { serial.old + length (start_sends (simulation_of (M.handlers model.now) config) w) ≤ MAX_COUNT }
    ensures count { IfOk result (λ v. length v.items ≡ process_count (simulation_of (M.handlers model.now) config) w) }
    ensures processes { IfOk result (λ v. AreProcesses config w 0 v.items) }
    ensures started { IfOk result (λ v. All (λ held. ProcessStandsFor (M.handlers model.now) held opening_process) v.items) }
    ensures outbox { IfOk result (λ v. outbox.new ≡ map (signed Plus) (start_events (simulation_of (M.handlers model.now) config) serial.old w)) }
    ensures within { IfOk result (λ v. AllWithinRun config outbox.new) }
    ensures serial { IfOk result (λ v. serial.new ≡ serial.old + length (start_sends (simulation_of (M.handlers model.now) config) w)) }
    ensures refused { IfErr result (λ fault. fault ≡ Memory) }
{
    let mut processes = Vec::new(alloc);
    let mut p = w;
    while p < config.lps {
        let process = Lp::new(alloc, model, config, p, serial, outbox)?;
        let Ok(()) = processes.push(process) else {
            return Err(Fault::Memory);
        };
        p += config.workers;
    }
    Ok(processes)
}

/// Whether the serial of worker `w`, which is below `config.workers`, stays at most 2^63 at its starts; `serial`, at
/// most 2^63, is the serial before them. It takes no memory: it runs the starts and keeps nothing of them.
pub fn starts_fit<M: EventModel>(model: &M, config: Config, w: u32, serial: u64) -> bool
    requires known { w < config.workers }
    requires counted { serial ≤ MAX_COUNT }
    ensures { IsTrue result ↔ (serial + length (start_sends (simulation_of (M.handlers model.now) config) w) ≤ MAX_COUNT) }
{
    if serial <= MAX_COUNT - MOST_STARTED {
        return true;
    }
    let mut serial = serial;
    let mut p = w;
    while p < config.lps {
        let sent = count_started(model, config, p);
        if sent > MAX_COUNT - serial {
            return false;
        }
        serial += sent;
        p += config.workers;
    }
    true
}

/// How many events the start of process `p` sends below the end.
fn count_started<M: EventModel>(model: &M, config: Config, p: u32) -> u64
    requires known { p < config.lps }
    ensures { result ≡ length ((simulation_of (M.handlers model.now) config).start p).sends }
{
    let mut out = Out::new(config, p, When::tick(0), 0);
    Process::start(model, config, p, &mut out);
    out.sends().len() as u64
}
