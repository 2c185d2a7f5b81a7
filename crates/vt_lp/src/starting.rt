//! How a process with rollback starts.

ghost use Rattle.std.specs.Prelude.{◌≡◌, ◌+◌, ◌%◌, ◌<◌, ◌≤◌, ◌⊎◌, ◌++◌, length, map, IfOk, IfErr};
ghost use Rattle.vt_key.specs.declared.fault.Fault.TheVariants.{Memory, NotLawful, Exhausted};
ghost use Rattle.vt_key.specs.declared.letter.Sign.TheVariants.{Plus};
ghost use Rattle.vt_model.specs.inside.Process.{triple_at, IsProcessStream};
ghost use Rattle.vt_model.specs.promise.Simulation.{simulation_of};
ghost use Rattle.vt_steps.specs.promise.Letters.{stamped, signed};
ghost use Rattle.vt_lp.specs.inside.Held.{StandsFor, opening_process, AllWithinRun};

use crate::lp::Lp;
use crate::making::{is_counted, letters};
use std::alloc::Global;
use vt_key::{Fault, Letter, MAX_COUNT, Sign, When};
use vt_list::List;
use vt_model::{Config, Model as EventModel, Out, Process};
use vt_past::Past;
use vt_pending::Pending;

impl<M: EventModel> Lp<M> {
    /// Process `lp` after its start. The events that the start sends below the end of the run go to the back of the
    /// outbox. Their stamps are of the process's worker, with serials from `serial` on. Afterwards `serial` is the
    /// next free one.
    ///
    /// [`Fault::NotLawful`]: there is no such process; `lp` is not below `config.lps`. [`Fault::Exhausted`]: the
    /// serial would pass 2^63. [`Fault::Memory`]: memory was refused. After each the outbox and the serial are
    /// unchanged.
    pub fn new(
        alloc: Global,
        model: &M,
        config: Config,
        lp: u32,
        serial: &mut u64,
        outbox: &mut List<Letter<M::Payload>>,
    ) -> Result<Lp<M>, Fault>
        ensures stands { IfOk result (λ l. StandsFor (M.handlers model.now) l opening_process) }
        ensures made { IfOk result (λ l. (l.lp ≡ lp) × (l.config ≡ config) × (lp < config.lps)) }
        ensures outbox { IfOk result (λ l. outbox.new ≡ outbox.old ++ map (signed Plus) (stamped (lp % config.workers) serial.old ((simulation_of (M.handlers model.now) config).start lp).sends)) }
        ensures serial { IfOk result (λ l. serial.new ≡ serial.old + length ((simulation_of (M.handlers model.now) config).start lp).sends) }
        ensures counted { IfOk result (λ l. serial.new ≤ MAX_COUNT) }
        ensures within { AllWithinRun config outbox.old → AllWithinRun config outbox.new }
        ensures kept { IfErr result (λ fault. (outbox.new ≡ outbox.old) × (serial.new ≡ serial.old)) }
        ensures refused { IfErr result (λ fault. ((fault ≡ NotLawful) × (config.lps ≤ lp)) ⊎ ((lp < config.lps) × (((fault ≡ Exhausted) × (MAX_COUNT < serial.old + length ((simulation_of (M.handlers model.now) config).start lp).sends)) ⊎ ((fault ≡ Memory) × (serial.old + length ((simulation_of (M.handlers model.now) config).start lp).sends ≤ MAX_COUNT))))) }
    {
        if lp >= config.lps {
            return Err(Fault::NotLawful);
        }
        let (process, mut messages) = match start(alloc, model, config, lp, *serial) {
            Ok(started) => started,
            Err(fault) => return Err(fault),
        };
        *serial += messages.len() as u64;
        outbox.append(&mut messages);
        Ok(Lp {
            config,
            lp,
            process,
            past: Past::new(alloc),
            pending: Pending::new(alloc),
            waiting: Pending::new(alloc),
        })
    }
}

/// Starts process `lp`, which is below `config.lps`, and makes the messages of what it sends below the end of the run. Their stamps are of the
/// process's worker, with serials from `serial` on.
///
/// [`Fault::Exhausted`]: the serial would pass 2^63. [`Fault::Memory`]: memory was refused.
pub fn start<M: EventModel>(
    alloc: Global,
    model: &M,
    config: Config,
    lp: u32,
    serial: u64,
) -> Result<(Process<M>, List<Letter<M::Payload>>), Fault>
    requires known { lp < config.lps }
    ensures triple { IfOk result (λ s. triple_at s.0.state s.0.number s.0.stream ≡ ((simulation_of (M.handlers model.now) config).start lp).triple) }
    ensures messages { IfOk result (λ s. s.1 ≡ map (signed Plus) (stamped (lp % config.workers) serial ((simulation_of (M.handlers model.now) config).start lp).sends)) }
    ensures all { IfOk result (λ s. length s.1 ≡ length ((simulation_of (M.handlers model.now) config).start lp).sends) }
    ensures within { IfOk result (λ s. AllWithinRun config s.1) }
    ensures numbered { IfOk result (λ s. s.0.number ≤ MAX_COUNT) }
    ensures stream { IfOk result (λ s. IsProcessStream config.seed lp s.0.stream) }
    ensures counted { IfOk result (λ s. serial + length ((simulation_of (M.handlers model.now) config).start lp).sends ≤ MAX_COUNT) }
    ensures refused { IfErr result (λ fault. ((fault ≡ Exhausted) × (MAX_COUNT < serial + length ((simulation_of (M.handlers model.now) config).start lp).sends)) ⊎ ((fault ≡ Memory) × (serial + length ((simulation_of (M.handlers model.now) config).start lp).sends ≤ MAX_COUNT))) }
{
    let mut out = Out::new(config, lp, When::tick(0), 0);
    let process = Process::start(model, config, lp, &mut out);
    if !is_counted(serial, out.sends()) {
        return Err(Fault::Exhausted);
    }
    let worker = config.owner(lp);
    match letters(alloc, Sign::Plus, worker, serial, out.sends()) {
        Ok(messages) => Ok((process, messages)),
        Err(fault) => Err(fault),
    }
}
