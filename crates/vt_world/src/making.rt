//! How a world is made.

ghost use Rattle.std.specs.Prelude.{◌≡◌, ◌≤◌, [], length, map, replicate, IsTrue, IsFalse, IfOk, IfErr, OnOk};
ghost use Rattle.std.specs.List.{range_with_len};
ghost use Rattle.vt_key.specs.declared.fault.Fault.TheVariants.{Memory};
ghost use Rattle.vt_key.specs.declared.limits.TheConstants.{MAX_COUNT};
ghost use Rattle.vt_model.specs.promise.Simulation.{simulation_of};
ghost use Rattle.vt_steps.specs.promise.World.{opening_part, opening_world};
ghost use Rattle.vt_steps.specs.inside.StandsFor.{StandForParts};
ghost use Rattle.vt_kernel.specs.inside.Held.{part_memory};
ghost use Rattle.vt_world.specs.inside.Held.{AreWorkers};
ghost use Rattle.vt_world.specs.promise.Answers.{PassesAtStart, IsOpeningRefusal};

use crate::in_memory::InMemory;
use crate::inbox::Inbox;
use crate::world::World;
use std::alloc::Global;
use vt_board::Board;
use vt_book::Book;
use vt_engine::{Engine, KERNEL};
use vt_kernel::{Kernel, starts_fit};
use vt_key::{Fault, Seen};
use vt_model::{Config, Model as EventModel};

impl<'m, M: EventModel> World<'m, M> {
    /// The opening world of a model and a config, with serials from 0 on. The processes have started, what they sent
    /// below the end of the run is in their workers' outboxes, and no step was done.
    ///
    /// [`Fault::Memory`]: memory was refused.
    pub fn new(alloc: Global, model: &'m M, config: Config) -> Result<World<'m, M>, Fault>
        ensures opening { IfOk result (λ made. made.world ≡ opening_world (simulation_of (M.handlers model.now) config) 0) }
        ensures made { IfOk result (λ world. (world.model ≡ model.now) × (world.config ≡ config)) }
        ensures refused { IfErr result (λ fault. fault ≡ Memory) }
    {
        open(alloc, model, config, 0)
    }

    /// The opening world, with the serials of each worker from `serial` on, which is at most 2^63.
    ///
    /// [`Fault::Exhausted`]: the serial of some worker would pass 2^63 at the starts of its processes.
    /// [`Fault::Memory`]: none would, and memory was refused.
    pub fn with_serial(
        alloc: Global,
        model: &'m M,
        config: Config,
        serial: u64,
    ) -> Result<World<'m, M>, Fault>
        requires counted { serial ≤ MAX_COUNT }
        ensures opening { IfOk result (λ made. made.world ≡ opening_world (simulation_of (M.handlers model.now) config) serial) }
        ensures made { IfOk result (λ world. (world.model ≡ model.now) × (world.config ≡ config)) }
        ensures fits { OnOk result (PassesAtStart (simulation_of (M.handlers model.now) config) serial → ⊥) }
        ensures refused { IfErr result (λ fault. IsOpeningRefusal (simulation_of (M.handlers model.now) config) serial fault) }
    {
        if !all_starts_fit(model, config, serial) {
            return Err(Fault::Exhausted);
        }
        open(alloc, model, config, serial)
    }
}

/// Whether the serial of each worker stays at most 2^63 at the starts.
fn all_starts_fit<M: EventModel>(model: &M, config: Config, serial: u64) -> bool
    requires counted { serial ≤ MAX_COUNT }
    ensures fits { IsTrue result → PassesAtStart (simulation_of (M.handlers model.now) config) serial → ⊥ }
    ensures passes { IsFalse result → PassesAtStart (simulation_of (M.handlers model.now) config) serial }
{
    for w in 0..config.workers {
        if !starts_fit(model, config, w, serial) {
            return false;
        }
    }
    true
}

/// The opening world. The serials must stay at most 2^63 at the starts.
fn open<'m, M: EventModel>(
    alloc: Global,
    model: &'m M,
    config: Config,
    serial: u64,
) -> Result<World<'m, M>, Fault>
    requires fits { PassesAtStart (simulation_of (M.handlers model.now) config) serial → ⊥ }
    ensures opening { IfOk result (λ made. made.world ≡ opening_world (simulation_of (M.handlers model.now) config) serial) }
    ensures made { IfOk result (λ world. (world.model ≡ model.now) × (world.config ≡ config)) }
    ensures refused { IfErr result (λ fault. fault ≡ Memory) }
{
    let kernels = open_workers(alloc, model, config, serial)?;
    let inboxes = open_inboxes(alloc, config.workers)?;
    let memory = InMemory {
        model,
        config,
        kernels,
        inboxes,
        board: Board::new(config.workers, config.end()),
        book: Book::new(alloc, config.workers, config.end()),
    };
    Ok(World {
        memory,
        serial,
        steps: Seen::picked(),
    })
}

/// All workers at the opening, in rising order.
fn open_workers<M: EventModel>(
    alloc: Global,
    model: &M,
    config: Config,
    serial: u64,
) -> Result<Vec<Engine<M, KERNEL>>, Fault>
    requires fits { PassesAtStart (simulation_of (M.handlers model.now) config) serial → ⊥ }
    ensures count { IfOk result (λ v. length v.items ≡ config.workers) }
    ensures workers { IfOk result (λ v. AreWorkers config 0 v.items) }
    ensures opening { let sim = simulation_of (M.handlers model.now) config in IfOk result (λ v. StandForParts sim 0 (map (part_memory (M.handlers model.now)) v.items) (map (opening_part sim serial) (range_with_len 0 config.workers))) }
    ensures refused { IfErr result (λ fault. fault ≡ Memory) }
{
    let mut kernels = Vec::new(alloc);
    for w in 0..config.workers {
        let kernel = Kernel::with_serial(alloc, model, config, w, serial)?;
        let engine = Engine::of(alloc, kernel)?;
        let Ok(()) = kernels.push(engine) else {
            return Err(Fault::Memory);
        };
    }
    Ok(kernels)
}

/// `count` inboxes without mail.
fn open_inboxes<P: Copy>(alloc: Global, count: u32) -> Result<Vec<Inbox<P>>, Fault>
    ensures empty { IfOk result (λ v. v.items ≡ replicate count []) }
    ensures refused { IfErr result (λ fault. fault ≡ Memory) }
{
    let mut inboxes = Vec::new(alloc);
    for _ in 0..count {
        let Ok(()) = inboxes.push(Inbox::new(alloc)) else {
            return Err(Fault::Memory);
        };
    }
    Ok(inboxes)
}
