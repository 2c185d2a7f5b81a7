//! The local steps of an engine that is a [`Kernel`], one at a time.

ghost use Rattle.std.specs.Prelude.{◌≡◌, ◌⊎◌, IfOk, IfErr};
ghost use Rattle.vt_key.specs.declared.fault.Fault.TheVariants.{Memory, NotLawful};
ghost use Rattle.vt_model.specs.promise.Handler.{Handlers};
ghost use Rattle.vt_model.specs.promise.Simulation.{simulation_of};
ghost use Rattle.vt_steps.specs.promise.World.{Part};
ghost use Rattle.vt_steps.specs.declared.step.Step.TheVariants as step;
ghost use Rattle.vt_kernel.specs.inside.Held.{StandsFor};
ghost use Rattle.vt_kernel.specs.inside.Guards.{SettlesTo};
ghost use Rattle.vt_kernel.specs.inside.Steps.{DoesStep, RefusesStep, RefusesExecute, RefusesAccept};
ghost use Rattle.vt_kernel.specs.promise.Refusals.{PassesIn};

use crate::engine::Engine;
use crate::kind::{KERNEL, Kind};
use std::alloc::Global;
use vt_kernel::Kernel;
use vt_key::{Fault, Stamp};
use vt_model::Model as EventModel;

impl<M: EventModel> Engine<M, KERNEL> {
    /// Execute at process `lp`, as [`Kernel::execute`] says, for the model that the worker was made with.
    pub fn execute(&mut self, alloc: Global, model: &M, lp: u32) -> Result<(), Fault>
        ensures done { DoesStep (M.handlers model.now) self.old self.new (step.Execute lp) result }
        ensures counted { (part : Part _) → StandsFor (M.handlers model.now) self.new part → IfOk result (λ done. PassesIn (simulation_of (M.handlers model.now) self.old.config) (step.Execute lp) part 0 → ⊥) }
        ensures refused { RefusesExecute (M.handlers model.now) self.old lp result }
        ensures unchanged { (part : Part _) → StandsFor (M.handlers model.now) self.old part → IfErr result (λ fault. self.new ≡ self.old) }
        ensures same { (self.new.worker ≡ self.old.worker) × (self.new.config ≡ self.old.config) }
    {
        match &mut *self.kind {
            Kind::Kernel(kernel) => kernel.execute(alloc, model, lp),
            Kind::Share(_) => unreachable!(),
        }
    }

    /// Undo at process `lp`, as [`Kernel::undo`] says.
    ///
    /// [`Fault::NotLawful`]: nothing changes.
    pub fn undo(&mut self, model: &M, lp: u32) -> Result<(), Fault>
        ensures done { DoesStep (M.handlers model.now) self.old self.new (step.Undo lp) result }
        ensures refused { RefusesStep (M.handlers model.now) self.old (step.Undo lp) result }
        ensures kept { IfErr result (λ fault. (fault ≡ NotLawful) × (self.new ≡ self.old)) }
        ensures same { (self.new.worker ≡ self.old.worker) × (self.new.config ≡ self.old.config) }
    {
        match &mut *self.kind {
            Kind::Kernel(kernel) => kernel.undo(model, lp),
            Kind::Share(_) => unreachable!(),
        }
    }

    /// Cancel at process `lp`, as [`Kernel::cancel`] says.
    ///
    /// [`Fault::NotLawful`]: nothing changes.
    pub fn cancel(&mut self, lp: u32, stamp: Stamp) -> Result<(), Fault>
        ensures done { (handlers : Handlers _ _ _) → DoesStep handlers self.old self.new (step.Cancel lp stamp) result }
        ensures refused { (handlers : Handlers _ _ _) → RefusesStep handlers self.old (step.Cancel lp stamp) result }
        ensures kept { IfErr result (λ fault. (fault ≡ NotLawful) × (self.new ≡ self.old)) }
        ensures same { (self.new.worker ≡ self.old.worker) × (self.new.config ≡ self.old.config) }
    {
        match &mut *self.kind {
            Kind::Kernel(kernel) => kernel.cancel(lp, stamp),
            Kind::Share(_) => unreachable!(),
        }
    }

    /// Home, as [`Kernel::home`] says.
    ///
    /// [`Fault::NotLawful`]: nothing changes.
    pub fn home(&mut self) -> Result<(), Fault>
        ensures done { (handlers : Handlers _ _ _) → DoesStep handlers self.old self.new (step.Home self.old.worker) result }
        ensures refused { (handlers : Handlers _ _ _) → RefusesStep handlers self.old (step.Home self.old.worker) result }
        ensures kept { IfErr result (λ fault. (fault ≡ NotLawful) × (self.new ≡ self.old)) }
        ensures same { (self.new.worker ≡ self.old.worker) × (self.new.config ≡ self.old.config) }
    {
        match &mut *self.kind {
            Kind::Kernel(kernel) => kernel.home(),
            Kind::Share(_) => unreachable!(),
        }
    }

    /// Accept of the letter at index `i`, from 0, of the mail that has arrived, as [`Kernel::accept`] says.
    ///
    /// [`Fault::NotLawful`], [`Fault::Memory`]: nothing changes.
    pub fn accept(&mut self, alloc: Global, i: u64) -> Result<(), Fault>
        ensures done { (handlers : Handlers _ _ _) → DoesStep handlers self.old self.new (step.Accept self.old.worker i) result }
        ensures refused { (handlers : Handlers _ _ _) → RefusesAccept handlers self.old i result }
        ensures faults { IfErr result (λ fault. (fault ≡ NotLawful) ⊎ (fault ≡ Memory)) }
        ensures kept { IfErr result (λ fault. self.new ≡ self.old) }
        ensures same { (self.new.worker ≡ self.old.worker) × (self.new.config ≡ self.old.config) }
    {
        match &mut *self.kind {
            Kind::Kernel(kernel) => kernel.accept(alloc, i),
            Kind::Share(_) => unreachable!(),
        }
    }

    /// Undoes and cancels at process `lp` until neither is lawful there, as [`Kernel::settle`] says, and returns how many events it
    /// has undone, modulo 2^64.
    pub fn settle(&mut self, model: &M, lp: u32) -> u64
        ensures settles { (part : Part _) → StandsFor (M.handlers model.now) self.old part → (new : Part _) × SettlesTo (simulation_of (M.handlers model.now) self.old.config) self.old.worker lp part new result × StandsFor (M.handlers model.now) self.new new }
        ensures same { (self.new.worker ≡ self.old.worker) × (self.new.config ≡ self.old.config) }
    {
        match &mut *self.kind {
            Kind::Kernel(kernel) => kernel.settle(model, lp),
            Kind::Share(_) => unreachable!(),
        }
    }
}
