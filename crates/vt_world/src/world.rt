//! The world.

ghost use Rattle.std.specs.Prelude.{◌≡◌, ◌++◌, IsTrue, [], ◌∷◌, List, IfOk, IfErr};
ghost use Rattle.vt_key.specs.promise.Times.{TimeAtMost};
ghost use Rattle.vt_key.specs.declared.fault.Fault.TheVariants.{Memory};
ghost use Rattle.vt_model.specs.promise.Simulation.{simulation_of};
ghost use Rattle.vt_model.specs.promise.Sequential.{seq_records};
ghost use Rattle.vt_model.specs.promise.Settings.{end_of};
ghost use Rattle.vt_steps.specs.promise.World.{least, book_floor};

use crate::in_memory::InMemory;
use std::alloc::Global;
use std::marker::Model;
use vt_key::{Fault, Seen, When};
use vt_model::{Model as EventModel, Record};
use vt_steps::Step;

/// A Time Warp world: the workers, the inboxes between them, the board and the book.
///
/// Contracts see the model, the config and the world of the definitions (`RunWorld`). The type guarantees that some list of
/// steps makes it of the opening world.
#[derive(Drop)]
pub struct World<'m, M: EventModel> {
    pub(crate) memory: InMemory<'m, M>,
    // Each worker's serials began with this one.
    pub(crate) serial: u64,
    // The steps that were done since. Contracts alone see them.
    pub(crate) steps: Seen<Step>,
}

impl<'m, M: EventModel> Model for World<'m, M> {
    ghost use Rattle.vt_model.specs.promise.Simulation.{simulation_of};
    ghost use Rattle.vt_steps.specs.promise.Next.{reached};
    ghost use Rattle.vt_world.specs.inside.Held.{StandsForWorld};
    ghost use Rattle.vt_world.specs.promise.Calls.{RunWorld};

    ghost Value = { RunWorld M M.Payload };

    ghost view = { λ w. record {
      model = w.memory.model;
      config = w.memory.config;
      world = reached (simulation_of (M.handlers w.memory.model) w.memory.config) w.serial w.steps.items;
    } };

    ghost invariant = { λ w. StandsForWorld (M.handlers w.memory.model) w.memory (reached (simulation_of (M.handlers w.memory.model) w.memory.config) w.serial w.steps.items) };
}

impl<'m, M: EventModel> World<'m, M> {
    /// The announced time. No event or anti-message before it is unprocessed or travelling, now or later.
    pub fn announced(&self) -> When
        ensures value { result ≡ self.now.world.board.announced }
        ensures least { TimeAtMost result (least (end_of self.now.config) self.now.world) }
    {
        self.memory.announced()
    }

    /// The floor of the book: the book shows the records below it. It is at most the announced time. Once
    /// the book is closed, it is the end of the run.
    pub fn floor(&self) -> When
        ensures value { result ≡ book_floor (end_of self.now.config) self.now.world.book }
        ensures announced { TimeAtMost result self.now.world.board.announced }
        ensures closed { IsTrue self.now.world.book.is_closed → result ≡ end_of self.now.config }
    {
        self.memory.floor()
    }

    /// The records that the book shows: exactly the sequential run's records below the floor, in that run's order,
    /// each once. Once the book is closed, these are the records of the whole run.
    ///
    /// [`Fault::Memory`]: memory was refused.
    pub fn records(&self, alloc: Global) -> Result<Vec<Record>, Fault>
        ensures records { IfOk result (λ v. v.items ≡ seq_records (simulation_of (M.handlers self.now.model) self.now.config) (book_floor (end_of self.now.config) self.now.world.book)) }
        ensures closed { IsTrue self.now.world.book.is_closed → IfOk result (λ v. v.items ≡ seq_records (simulation_of (M.handlers self.now.model) self.now.config) (end_of self.now.config)) }
        ensures refused { IfErr result (λ fault. fault ≡ Memory) }
    {
        self.memory.records(alloc)
    }
}

/// Adds a step to the list of those done.
pub(crate) fn add_step(steps: &mut Seen<Step>, step: &Step)
    ghost all: { List Step }
    requires { all ≡ steps.old.items ++ step.now ∷ [] }
    ensures { steps.new.items ≡ all }
{
    *steps = Seen::picked();
}
