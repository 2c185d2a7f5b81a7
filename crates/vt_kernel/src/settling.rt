//! Undo and Cancel at one process, as long as one of them is lawful.

ghost use Rattle.std.specs.Prelude.{◌≡◌};
ghost use Rattle.vt_model.specs.promise.Simulation.{simulation_of};
ghost use Rattle.vt_steps.specs.promise.World.{LogicalProcess, Part};
ghost use Rattle.vt_lp.specs.inside.Held.{StandsFor as ProcessStandsFor, AllWithinRun};
ghost use Rattle.vt_kernel.specs.inside.Held.{StandsFor, IsProcessOf};
ghost use Rattle.vt_kernel.specs.inside.Guards.{SettlesTo};
ghost use Rattle.vt_kernel.specs.inside.Settled.{IsSettledTo};

use crate::kernel::Kernel;
use crate::local::index_of;
use vt_key::Letter;
use vt_list::List;
use vt_lp::Lp;
use vt_model::Model as EventModel;

impl<M: EventModel> Kernel<M> {
    /// Undoes and cancels at process `lp` until neither is lawful there, and returns how many events it has undone, modulo
    /// 2^64. If the process isn't this worker's, nothing changes, and the answer is 0. It takes no memory.
    pub fn settle(&mut self, model: &M, lp: u32) -> u64
        ensures settles { (part : Part _) → StandsFor (M.handlers model.now) self.old part → (new : Part _) × SettlesTo (simulation_of (M.handlers model.now) self.old.config) self.old.worker lp part new result × StandsFor (M.handlers model.now) self.new new }
        ensures other { (IsProcessOf self.old.config self.old.worker lp → ⊥) → (result ≡ 0) × (self.new ≡ self.old) }
        ensures same { (self.new.worker ≡ self.old.worker) × (self.new.config ≡ self.old.config) }
    {
        let Some(index) = index_of(self.config, self.worker, lp) else {
            return 0;
        };
        let mut sent = List::new(*self.arrived.allocator());
        let undone = settle_process(&mut self.processes[index], model, &mut sent);
        self.outbox.put(sent);
        undone
    }
}

/// Undoes and cancels at one process until neither is lawful, and returns how many events were undone, modulo 2^64. Anti-messages
/// go to the back of the outbox.
fn settle_process<M: EventModel>(
    process: &mut Lp<M>,
    model: &M,
    outbox: &mut List<Letter<M::Payload>>,
) -> u64
    ensures settled { (h : LogicalProcess _) → ProcessStandsFor (M.handlers model.now) process.old h → IsSettledTo (M.handlers model.now) h process.new outbox.old outbox.new result }
    ensures within { AllWithinRun process.old.config outbox.old → AllWithinRun process.old.config outbox.new }
    ensures same { (process.new.lp ≡ process.old.lp) × (process.new.config ≡ process.old.config) }
{
    let mut undone = 0_u64;
    loop {
        if process.undo(model, outbox).is_ok() {
            undone = undone.wrapping_add(1);
            continue;
        }
        let Some(stamp) = process.cancellable() else {
            return undone;
        };
        let _ = process.cancel(stamp);
    }
}
