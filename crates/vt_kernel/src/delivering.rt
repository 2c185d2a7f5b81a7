//! How letters reach a process of the worker: out of its own outbox, or out of the mail that has arrived.

ghost use Rattle.std.specs.Prelude.{◌≡◌, ◌⊎◌, IfErr, true, false};
ghost use Rattle.vt_key.specs.declared.fault.Fault.TheVariants.{NotLawful, Memory};
ghost use Rattle.vt_model.specs.promise.Handler.{Handlers};
ghost use Rattle.vt_steps.specs.declared.step.Step.TheVariants as step;
ghost use Rattle.vt_lp.specs.inside.Guards.{holds_letter};
ghost use Rattle.vt_kernel.specs.inside.Steps.{DoesStep, RefusesStep, RefusesAccept};

use crate::kernel::Kernel;
use std::alloc::Global;
use std::snapshot::Snapshot;
use vt_key::{Fault, Letter};
use vt_list::Parcel;
use vt_lp::Lp;
use vt_model::Model as EventModel;

impl<M: EventModel> Kernel<M> {
    /// Home: the first letter of the outbox that is for a process of this worker goes there. It takes no memory.
    ///
    /// [`Fault::NotLawful`]: there is no such letter, or its process holds it already. Nothing changes.
    pub fn home(&mut self) -> Result<(), Fault>
        ensures done { (handlers : Handlers _ _ _) → DoesStep handlers self.old self.new (step.Home self.old.worker) result }
        ensures refused { (handlers : Handlers _ _ _) → RefusesStep handlers self.old (step.Home self.old.worker) result }
        ensures kept { IfErr result (λ fault. (fault ≡ NotLawful) × (self.new ≡ self.old)) }
        ensures same { (self.new.worker ≡ self.old.worker) × (self.new.config ≡ self.old.config) }
    {
        let before = Snapshot::of(&self.outbox);
        let Some(letter) = self.outbox.pop_for(self.worker) else {
            return Err(Fault::NotLawful);
        };
        let index = self.config.index(letter.get().event.dest) as usize;
        if let Err((fault, letter)) = self.processes[index].accept(letter) {
            self.outbox.put_back(self.worker, letter, &before);
            return Err(fault);
        }
        Ok(())
    }

    /// Accept: the letter at index `i`, from 0, of the mail that has arrived goes to its process, and those behind it
    /// move up.
    ///
    /// [`Fault::NotLawful`]: there is no such index, or its process holds the letter already. [`Fault::Memory`]:
    /// memory was refused. After either nothing has changed.
    pub fn accept(&mut self, alloc: Global, i: u64) -> Result<(), Fault>
        ensures done { (handlers : Handlers _ _ _) → DoesStep handlers self.old self.new (step.Accept self.old.worker i) result }
        ensures refused { (handlers : Handlers _ _ _) → RefusesAccept handlers self.old i result }
        ensures faults { IfErr result (λ fault. (fault ≡ NotLawful) ⊎ (fault ≡ Memory)) }
        ensures kept { IfErr result (λ fault. self.new ≡ self.old) }
        ensures same { (self.new.worker ≡ self.old.worker) × (self.new.config ≡ self.old.config) }
    {
        let i = i as usize;
        let Some(mail) = self.arrived.get(i) else {
            return Err(Fault::NotLawful);
        };
        let letter = mail.letter;
        let index = self.config.index(letter.event.dest) as usize;
        let Ok(parcel) = Parcel::new(alloc, letter) else {
            return Err(unmade(&self.processes[index], letter));
        };
        if let Err((fault, _)) = self.processes[index].accept(parcel) {
            return Err(fault);
        }
        self.arrived.remove(i);
        Ok(())
    }
}

/// The fault of a letter for which memory was refused: not lawful if its process holds it already, else memory.
fn unmade<M: EventModel>(process: &Lp<M>, letter: Letter<M::Payload>) -> Fault
    ensures held { holds_letter process.now.pending process.now.waiting process.now.past letter.sign letter.event.rank ≡ true → result ≡ NotLawful }
    ensures new { holds_letter process.now.pending process.now.waiting process.now.past letter.sign letter.event.rank ≡ false → result ≡ Memory }
{
    if process.holds(letter.sign, letter.event.rank) {
        return Fault::NotLawful;
    }
    Fault::Memory
}
