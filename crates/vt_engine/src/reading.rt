//! Readers.

ghost use Rattle.std.specs.Prelude.{◌≡◌, ◌%◌, ◌^◌, length, IfOk, IfErr};
ghost use Rattle.vt_key.specs.declared.fault.Fault.TheVariants.{Memory};
ghost use Rattle.vt_model.specs.promise.Simulation.{simulation_of};
ghost use Rattle.vt_model.specs.promise.Settings.{end_of};
ghost use Rattle.vt_steps.specs.promise.Letters.{least_time};
ghost use Rattle.vt_steps.specs.promise.World.{Part};
ghost use Rattle.vt_steps.specs.inside.Finals.{part_values};
ghost use Rattle.vt_kernel.specs.inside.Held.{StandsFor, AreCounted};
ghost use Rattle.vt_kernel.specs.inside.Guards.{held_letters};

use crate::engine::Engine;
use crate::kind::Kind;
use std::alloc::Global;
use vt_key::{Fault, When};
use vt_model::Model as EventModel;

impl<M: EventModel, const KIND: u8> Engine<M, KIND> {
    /// The number of letters in the outbox, modulo 2^64. It is the number itself as long as memory can't hold 2^64
    /// letters.
    pub fn outbox_len(&self) -> usize
        ensures { result ≡ length self.now.outbox % 2 ^ 64 }
    {
        match &*self.kind {
            Kind::Kernel(kernel) => kernel.outbox_len(),
            Kind::Share(share) => share.outbox_len(),
        }
    }

    /// How many letters have arrived and are not accepted yet. No count of the mail that was got is past 2^63.
    pub fn arrived_len(&self) -> usize
        ensures arrived { result ≡ length self.now.arrived }
        ensures counted { AreCounted self.now.got }
    {
        match &*self.kind {
            Kind::Kernel(kernel) => kernel.arrived_len(),
            Kind::Share(share) => share.arrived_len(),
        }
    }

    /// The time below which the worker may commit.
    pub fn floor(&self) -> When
        ensures { result ≡ self.now.floor }
    {
        match &*self.kind {
            Kind::Kernel(kernel) => kernel.floor(),
            Kind::Share(share) => share.floor(),
        }
    }

    /// What the model's `finish` makes of the state of each process, in rising order of processes. These are the final values
    /// once no event is unprocessed or travelling any more.
    ///
    /// [`Fault::Memory`]: memory was refused.
    pub fn finals(&self, alloc: Global, model: &M) -> Result<Vec<u64>, Fault>
        ensures values { (part : Part _) → StandsFor (M.handlers model.now) self.now part → IfOk result (λ v. v.items ≡ part_values (simulation_of (M.handlers model.now) self.now.config) self.now.worker part) }
        ensures refused { IfErr result (λ fault. fault ≡ Memory) }
    {
        match &*self.kind {
            Kind::Kernel(kernel) => kernel.finals(alloc, model),
            Kind::Share(share) => share.finals(alloc, model),
        }
    }
}
