//! Readers of a worker's processes.

ghost use Rattle.std.specs.Prelude.{◌≡◌, ◌⊎◌, ◌%◌, ◌^◌, length, Some, IfSome, IfNone, IfOk, IfErr, OnOk};
ghost use Rattle.std.specs.Option.{option_copied, option_map};
ghost use Rattle.vt_key.specs.declared.fault.Fault.TheVariants.{Memory, NotLawful};
ghost use Rattle.vt_model.specs.promise.Simulation.{simulation_of};
ghost use Rattle.vt_steps.specs.promise.World.{Part};
ghost use Rattle.vt_steps.specs.inside.Finals.{part_values};
ghost use Rattle.vt_kernel.specs.inside.Held.{StandsFor, held_values, process_of, IsProcessOf};
ghost use Rattle.vt_lp.specs.inside.Held.{executed_events};

use crate::kernel::Kernel;
use std::alloc::Global;
use vt_key::{Event, Fault};
use vt_lp::Lp;
use vt_model::Model as EventModel;

impl<M: EventModel> Kernel<M> {
    /// Process `p`; None if it isn't one of this worker's.
    pub(crate) fn process(&self, p: u32) -> Option<&Lp<M>>
        ensures value { option_copied result ≡ process_of self.now p }
        ensures known { IfSome result (λ _. IsProcessOf self.now.config self.now.worker p) }
        ensures unknown { IfNone result (IsProcessOf self.now.config self.now.worker p → ⊥) }
    {
        if self.config.owner(p) != self.worker {
            return None;
        }
        self.processes.get(self.config.index(p) as usize)
    }

    /// The state of process `p`; None if it isn't one of this worker's.
    pub fn state(&self, p: u32) -> Option<&M::State>
        ensures value { option_copied result ≡ option_map (λ process. process.triple.state) (process_of self.now p) }
        ensures known { IfSome result (λ _. IsProcessOf self.now.config self.now.worker p) }
        ensures unknown { IfNone result (IsProcessOf self.now.config self.now.worker p → ⊥) }
    {
        Some(self.process(p)?.state())
    }

    /// The number of the next send of process `p`; None if it isn't one of this worker's.
    pub fn number(&self, p: u32) -> Option<u64>
        ensures value { result ≡ option_map (λ process. process.triple.number) (process_of self.now p) }
        ensures known { IfSome result (λ _. IsProcessOf self.now.config self.now.worker p) }
        ensures unknown { IfNone result (IsProcessOf self.now.config self.now.worker p → ⊥) }
    {
        Some(self.process(p)?.number())
    }

    /// The position of the next random word in the stream of process `p`; None if it isn't one of this worker's.
    pub fn place(&self, p: u32) -> Option<u64>
        ensures value { result ≡ option_map (λ process. process.triple.place) (process_of self.now p) }
        ensures known { IfSome result (λ _. IsProcessOf self.now.config self.now.worker p) }
        ensures unknown { IfNone result (IsProcessOf self.now.config self.now.worker p → ⊥) }
    {
        Some(self.process(p)?.place())
    }

    /// The number of pending messages of process `p`, modulo 2^64; None if it isn't one of this worker's.
    pub fn pending_len(&self, p: u32) -> Option<usize>
        ensures value { result ≡ option_map (λ process. length process.pending % 2 ^ 64) (process_of self.now p) }
        ensures known { IfSome result (λ _. IsProcessOf self.now.config self.now.worker p) }
        ensures unknown { IfNone result (IsProcessOf self.now.config self.now.worker p → ⊥) }
    {
        Some(self.process(p)?.pending_len())
    }

    /// The number of anti-messages that wait at process `p`, modulo 2^64; None if it isn't one of this worker's.
    pub fn waiting_len(&self, p: u32) -> Option<usize>
        ensures value { result ≡ option_map (λ process. length process.waiting % 2 ^ 64) (process_of self.now p) }
        ensures known { IfSome result (λ _. IsProcessOf self.now.config self.now.worker p) }
        ensures unknown { IfNone result (IsProcessOf self.now.config self.now.worker p → ⊥) }
    {
        Some(self.process(p)?.waiting_len())
    }

    /// What the model's `finish` makes of the state of each process, in rising order of processes. These are the final values
    /// once no event is unprocessed or travelling any more.
    ///
    /// [`Fault::Memory`]: memory was refused.
    pub fn finals(&self, alloc: Global, model: &M) -> Result<Vec<u64>, Fault>
        ensures values { (part : Part _) → StandsFor (M.handlers model.now) self.now part → IfOk result (λ v. v.items ≡ part_values (simulation_of (M.handlers model.now) self.now.config) self.now.worker part) }
        ensures refused { IfErr result (λ fault. fault ≡ Memory) }
    {
        values_of(alloc, model, &self.processes)
    }

    /// The past events of process `p`, in the order of their execution.
    ///
    /// [`Fault::NotLawful`]: `p` isn't one of this worker's processes. [`Fault::Memory`]: it is, and memory was
    /// refused.
    pub fn past_events(&self, alloc: Global, p: u32) -> Result<Vec<Event<M::Payload>>, Fault>
        ensures events { IfOk result (λ v. option_map (λ process. executed_events process.past) (process_of self.now p) ≡ Some v.items) }
        ensures known { OnOk result (IsProcessOf self.now.config self.now.worker p) }
        ensures refused { IfErr result (λ fault. ((fault ≡ NotLawful) × (IsProcessOf self.now.config self.now.worker p → ⊥)) ⊎ ((fault ≡ Memory) × IsProcessOf self.now.config self.now.worker p)) }
    {
        let Some(process) = self.process(p) else {
            return Err(Fault::NotLawful);
        };
        process.past_events(alloc)
    }
}

/// What the model's `finish` makes of the states of these processes.
fn values_of<M: EventModel>(
    alloc: Global,
    model: &M,
    processes: &[Lp<M>],
) -> Result<Vec<u64>, Fault>
    ensures values { IfOk result (λ v. v.items ≡ held_values (M.handlers model.now) processes.now) }
    ensures refused { IfErr result (λ fault. fault ≡ Memory) }
{
    let mut values = Vec::new(alloc);
    for process in processes {
        let Ok(()) = values.push(process.finish(model)) else {
            return Err(Fault::Memory);
        };
    }
    Ok(values)
}
