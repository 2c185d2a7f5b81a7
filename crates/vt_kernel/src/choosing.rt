//! The process to execute next.

ghost use Rattle.std.specs.Prelude.{◌≡◌, ℕ, ◌<◌, ◌/◌, ◌%◌, map, slice_get, Some, None, IfSome, IfNone};
ghost use Rattle.vt_key.specs.declared.order.Rank.{Rank as RankValue};
ghost use Rattle.vt_model.specs.promise.Handler.{Handlers};
ghost use Rattle.vt_model.specs.promise.Simulation.{simulation_of};
ghost use Rattle.vt_steps.specs.promise.World.{Part};
ghost use Rattle.vt_steps.specs.inside.Cells.{local_step};
ghost use Rattle.vt_steps.specs.declared.step.Step.TheVariants as step;
ghost use Rattle.vt_kernel.specs.inside.Choosing.{IsLeast, is_earlier, ready_of};
ghost use Rattle.vt_kernel.specs.inside.Held.{StandsFor};

use crate::kernel::Kernel;
use vt_key::Rank;
use vt_lp::Lp;
use vt_model::Model as EventModel;

impl<M: EventModel> Kernel<M> {
    /// The process to execute next: among the worker's processes at which Execute is lawful, the one whose event has
    /// the least rank. None if Execute is lawful at none. It asks each process.
    pub fn next(&self) -> Option<u32>
        ensures least { IfSome result (λ p. (p < self.now.config.lps) × (p % self.now.config.workers ≡ self.now.worker) × IsLeast (map ready_of self.now.processes) (p / self.now.config.workers)) }
        ensures nothing { IfNone result ((i : ℕ) (rank : RankValue) → slice_get (map ready_of self.now.processes) i ≡ Some (Some rank) → ⊥) }
        ensures lawful { (handlers : Handlers _ _ _) (part : Part _) → StandsFor handlers self.now part → IfSome result (λ p. (after : Part _) × (local_step (simulation_of handlers self.now.config) self.now.worker (step.Execute p) part ≡ Some after)) }
        ensures unlawful { (handlers : Handlers _ _ _) (part : Part _) → StandsFor handlers self.now part → IfNone result ((p : ℕ) → local_step (simulation_of handlers self.now.config) self.now.worker (step.Execute p) part ≡ None) }
    {
        let Some(index) = first_ready(&self.processes) else {
            return None;
        };
        Some(index as u32 * self.config.workers + self.worker)
    }
}

/// The index of the process whose next event has the least rank. None if none is ready.
fn first_ready<M: EventModel>(processes: &[Lp<M>]) -> Option<usize>
    ensures least { IfSome result (IsLeast (map ready_of processes.now)) }
    ensures nothing { IfNone result ((i : ℕ) (rank : RankValue) → slice_get (map ready_of processes.now) i ≡ Some (Some rank) → ⊥) }
{
    let mut least = None;
    let mut index = 0;
    for i in 0..processes.len() {
        let ready = processes[i].ready();
        if is_earlier(&ready, &least) {
            least = ready;
            index = i;
        }
    }
    match least {
        Some(_) => Some(index),
        None => None,
    }
}

/// Whether a rank is there, and another one isn't or is after it.
// By references: the guard of a match may not lend a field of a rank.
fn is_earlier(rank: &Option<Rank>, other: &Option<Rank>) -> bool
    ensures { result ≡ is_earlier rank.now other.now }
{
    match (rank, other) {
        (Some(rank), Some(other)) => rank.is_before(other),
        (Some(_), None) => true,
        (None, _) => false,
    }
}
