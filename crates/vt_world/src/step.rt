//! The eleven steps of a world, and lists of them.

ghost use Rattle.std.specs.Prelude.{◌≡◌, ◌⊎◌, IsTrue, Err, take, slice_get, IfOk, IfErr, MatchOption, MatchResult};
ghost use Rattle.vt_key.specs.promise.Times.{TimeAtMost};
ghost use Rattle.vt_key.specs.declared.fault.Fault.TheVariants.{NotLawful, Closed};
ghost use Rattle.vt_model.specs.promise.Simulation.{simulation_of};
ghost use Rattle.vt_model.specs.promise.Settings.{end_of};
ghost use Rattle.vt_steps.specs.promise.World.{book_floor};
ghost use Rattle.vt_steps.specs.promise.Next.{run, answers};
ghost use Rattle.vt_kernel.specs.promise.Refusals.{IsSpent};
ghost use Rattle.vt_world.specs.promise.Calls.{IsStepOf, IsOfBook, AreWithinLimits, refusals};
ghost use Rattle.vt_world.specs.inside.Calls.{IsAnsweredBy};

use crate::world::{World, add_step};
use std::alloc::Global;
use vt_key::Fault;
use vt_model::Model as EventModel;
use vt_steps::{Reply, Step};

/// Which step of a list could not be done, and why.
#[derive(Debug, Clone, Copy, PartialEq, Eq)]
pub struct Stop {
    /// The index of the step, counted from 0.
    pub at: usize,
    /// [`Fault::Memory`]: memory was refused. [`Fault::Exhausted`]: a counter would pass 2^63.
    pub fault: Fault,
}

impl<'m, M: EventModel> World<'m, M> {
    /// Does one step, and returns its reply. A closed book doesn't change, and refuses each commit and each close as
    /// [`Fault::Closed`].
    ///
    /// [`Fault::NotLawful`]: the step isn't lawful in this world. [`Fault::Closed`]: it is a commit or a close, and
    /// the book is closed. [`Fault::Exhausted`]: it is lawful, and a counter would pass 2^63. [`Fault::Memory`]: none
    /// of these, and memory was refused. After each the world is unchanged.
    pub fn step(&mut self, alloc: Global, step: &Step) -> Result<Reply, Fault>
        ensures step { IsStepOf (simulation_of (M.handlers self.old.model) self.old.config) step.now self.old.world self.new.world result }
        ensures same { (self.new.model ≡ self.old.model) × (self.new.config ≡ self.old.config) }
        ensures announced { TimeAtMost self.old.world.board.announced self.new.world.board.announced }
        ensures floor { TimeAtMost (book_floor (end_of self.old.config) self.old.world.book) (book_floor (end_of self.new.config) self.new.world.book) }
        ensures closed { IsTrue self.old.world.book.is_closed → IsOfBook step.now → result ≡ Err Closed }
        ensures stays { IsTrue self.old.world.book.is_closed → self.new.world.book ≡ self.old.world.book }
    {
        match self.memory.step(alloc, step) {
            Ok(reply) => {
                add_step(&mut self.steps, step);
                Ok(reply)
            }
            Err(fault) => Err(fault),
        }
    }

    /// Does steps one after the other, and returns how many of them were refused. A step that isn't lawful, or that
    /// the closed book refuses, changes nothing and counts as refused, and the next one follows. No step that was done
    /// raised a counter past 2^63. A closed book doesn't change.
    ///
    /// [`Stop`]: a lawful step couldn't be done, since memory was refused or a counter would pass 2^63. The world is
    /// the one after the steps before it.
    pub fn run(&mut self, alloc: Global, steps: &[Step]) -> Result<u64, Stop>
        ensures whole { let sim = simulation_of (M.handlers self.old.model) self.old.config in IfOk result (λ n. self.new.world ≡ run sim self.old.world steps.now) }
        ensures count { let sim = simulation_of (M.handlers self.old.model) self.old.config in IfOk result (λ n. n ≡ refusals (answers sim self.old.world steps.now)) }
        ensures before { let sim = simulation_of (M.handlers self.old.model) self.old.config in IfErr result (λ stop. self.new.world ≡ run sim self.old.world (take stop.at steps.now)) }
        ensures within { let sim = simulation_of (M.handlers self.old.model) self.old.config in MatchResult result (λ n. AreWithinLimits sim self.old.world steps.now) (λ stop. AreWithinLimits sim self.old.world (take stop.at steps.now)) }
        ensures stopped { let sim = simulation_of (M.handlers self.old.model) self.old.config in IfErr result (λ stop. MatchOption (slice_get steps.now stop.at) ⊥ (λ step. IsSpent sim step self.new.world stop.fault)) }
        ensures same { (self.new.model ≡ self.old.model) × (self.new.config ≡ self.old.config) }
        ensures announced { TimeAtMost self.old.world.board.announced self.new.world.board.announced }
        ensures floor { TimeAtMost (book_floor (end_of self.old.config) self.old.world.book) (book_floor (end_of self.new.config) self.new.world.book) }
        ensures stays { IsTrue self.old.world.book.is_closed → self.new.world.book ≡ self.old.world.book }
    {
        let mut refused = 0;
        for at in 0..steps.len() {
            match self.advance(alloc, &steps[at]) {
                Ok(more) => refused += more,
                Err(fault) => return Err(Stop { at, fault }),
            }
        }
        Ok(refused)
    }

    /// Does one step of a list, and returns how many refusals it adds: one if it isn't lawful or the closed book
    /// refuses it, else none.
    fn advance(&mut self, alloc: Global, step: &Step) -> Result<u64, Fault>
        ensures goes { let sim = simulation_of (M.handlers self.old.model) self.old.config in IfOk result (λ more. IsAnsweredBy sim step.now self.old.world self.new.world more) }
        ensures spent { let sim = simulation_of (M.handlers self.old.model) self.old.config in IfErr result (λ fault. IsSpent sim step.now self.old.world fault) }
        ensures unchanged { IfErr result (λ fault. self.new.world ≡ self.old.world) }
        ensures same { (self.new.model ≡ self.old.model) × (self.new.config ≡ self.old.config) }
        ensures announced { TimeAtMost self.old.world.board.announced self.new.world.board.announced }
        ensures floor { TimeAtMost (book_floor (end_of self.old.config) self.old.world.book) (book_floor (end_of self.new.config) self.new.world.book) }
        ensures stays { IsTrue self.old.world.book.is_closed → self.new.world.book ≡ self.old.world.book }
    {
        match self.step(alloc, step) {
            Ok(_) => Ok(0),
            Err(fault) => passed_over(fault),
        }
    }
}

/// Counts a fault that a list of steps passes over as one refusal. Any other fault is an error, and stops the list.
fn passed_over(fault: Fault) -> Result<u64, Fault>
    ensures passed { IfOk result (λ more. (more ≡ 1) × ((fault ≡ NotLawful) ⊎ (fault ≡ Closed))) }
    ensures stopped { IfErr result (λ why. (why ≡ fault) × (fault ≡ NotLawful → ⊥) × (fault ≡ Closed → ⊥)) }
{
    match fault {
        Fault::NotLawful | Fault::Closed => Ok(1),
        _ => Err(fault),
    }
}
