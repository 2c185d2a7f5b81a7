//! How a worker is made.

ghost use Rattle.std.specs.Prelude.{◌≡◌, ◌<◌, IfOk, IfErr};
ghost use Rattle.vt_key.specs.declared.fault.Fault.TheVariants.{Memory};
ghost use Rattle.vt_model.specs.promise.Simulation.{simulation_of};
ghost use Rattle.vt_steps.specs.promise.World.{opening_part};
ghost use Rattle.vt_pool.specs.inside.Steps.{IsLedFrom};

use crate::share::Share;
use std::alloc::Global;
use vt_kernel::Counts;
use vt_key::{Colour, Fault, When};
use vt_model::{Config, Model as EventModel};
use vt_pool::Pool;

impl<M: EventModel> Share<M> {
    /// Worker `w`, which is below `config.workers`, after the opening: its processes have started, in rising order. What they sent below the
    /// end of the run has serials from 0 on. What they sent to each other has come home, and the rest is in the outbox.
    ///
    /// [`Fault::Memory`]: memory was refused.
    pub fn new(alloc: Global, model: &M, config: Config, w: u32) -> Result<Share<M>, Fault>
        requires known { w < config.workers }
        ensures opening { IfOk result (λ share. IsLedFrom (M.handlers model.now) share (opening_part (simulation_of (M.handlers model.now) config) 0 w) share) }
        ensures made { IfOk result (λ share. (share.worker ≡ w) × (share.config ≡ config)) }
        ensures refused { IfErr result (λ fault. fault ≡ Memory) }
    {
        let pool = Pool::new(alloc, model, config, w)?;
        Ok(Share {
            pool,
            arrived: Vec::new(alloc),
            colour: Colour::White,
            sent: Counts::new(),
            got: Counts::new(),
            red_minimum: config.end(),
            floor: When::tick(0),
        })
    }
}
