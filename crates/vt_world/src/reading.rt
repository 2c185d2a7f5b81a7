//! What a world still has to do, and what its processes have done.

ghost use Rattle.std.specs.Prelude.{◌≡◌, ◌<◌, ◌≤◌, ◌⊎◌, map, All, IfOk, IfErr, OnOk};
ghost use Rattle.std.specs.List.{flat_map};
ghost use Rattle.vt_key.specs.promise.Times.{Time, TimeAtMost};
ghost use Rattle.vt_key.specs.declared.fault.Fault.TheVariants.{Memory, NotLawful};
ghost use Rattle.vt_model.specs.promise.Simulation.{simulation_of};
ghost use Rattle.vt_model.specs.promise.Settings.{end_of};
ghost use Rattle.vt_steps.specs.promise.Letters.{least_time};
ghost use Rattle.vt_steps.specs.promise.World.{least};
ghost use Rattle.vt_kernel.specs.inside.Guards.{held_letters};
ghost use Rattle.vt_world.specs.inside.Held.{StandsForWorld, least_held};
ghost use Rattle.vt_world.specs.promise.Answers.{IsReachedWorld, IsPastIn, EndsSequential};

use crate::in_memory::InMemory;
use crate::inbox::Inbox;
use crate::world::World;
use std::alloc::Global;
use vt_engine::{Engine, KERNEL};
use vt_kernel::least_of_mail;
use vt_key::{Event, Fault, When};
use vt_model::Model as EventModel;

impl<'m, M: EventModel> World<'m, M> {
    /// The least time of all events and anti-messages that are unprocessed or travelling: in outboxes and
    /// inboxes, fetched, pending and waiting. The end of the run if there are none. It takes no memory. The world is one
    /// that some list of steps makes of an opening world.
    pub fn least(&self) -> When
        ensures value { result ≡ least (end_of self.now.config) self.now.world }
        ensures announced { TimeAtMost self.now.world.board.announced result }
        ensures reached { IsReachedWorld (simulation_of (M.handlers self.now.model) self.now.config) self.now.world }
    {
        self.memory.least()
    }

    /// The past events of process `lp`, which are executed and not committed, in the order of their execution. They are the
    /// last ones of all that the process has executed.
    ///
    /// Nothing before [`World::least`] is unprocessed or travelling. So the process has executed below it exactly
    /// what the sequential run executes there, in the same order. Its past events below it are the last of these.
    ///
    /// [`Fault::NotLawful`]: there is no such process. [`Fault::Memory`]: there is, and memory was refused.
    pub fn past(&self, alloc: Global, lp: u32) -> Result<Vec<Event<M::Payload>>, Fault>
        ensures past { IfOk result (λ v. IsPastIn (simulation_of (M.handlers self.now.model) self.now.config) self.now.world lp v.items) }
        ensures reached { IsReachedWorld (simulation_of (M.handlers self.now.model) self.now.config) self.now.world }
        ensures sequential { (t : Time) → TimeAtMost t (least (end_of self.now.config) self.now.world) → IfOk result (λ v. EndsSequential (simulation_of (M.handlers self.now.model) self.now.config) lp t v.items) }
        ensures known { OnOk result (lp < self.now.config.lps) }
        ensures refused { IfErr result (λ fault. ((fault ≡ NotLawful) × (self.now.config.lps ≤ lp)) ⊎ ((fault ≡ Memory) × (lp < self.now.config.lps))) }
    {
        self.memory.past(alloc, lp)
    }
}

impl<'m, M: EventModel> InMemory<'m, M> {
    /// The least time of all that is unprocessed or travelling.
    pub(crate) fn least(&self) -> When
        ensures { result ≡ least_held self.now }
    {
        let end = self.config.end();
        let held = least_of_workers(&self.kernels, end);
        let travelling = least_of_inboxes(&self.inboxes, end);
        held.earlier(travelling)
    }

    /// The past events of process `lp`.
    pub(crate) fn past(&self, alloc: Global, lp: u32) -> Result<Vec<Event<M::Payload>>, Fault>
        ensures past { (world : _) → StandsForWorld (M.handlers self.now.model) self.now world → IfOk result (λ v. IsPastIn (simulation_of (M.handlers self.now.model) self.now.config) world lp v.items) }
        ensures known { OnOk result (lp < self.now.config.lps) }
        ensures refused { IfErr result (λ fault. ((fault ≡ NotLawful) × (self.now.config.lps ≤ lp)) ⊎ ((fault ≡ Memory) × (lp < self.now.config.lps))) }
    {
        let owner = self.config.owner(lp);
        self.kernels[owner as usize].kernel().past_events(alloc, lp)
    }
}

/// The least time of all letters that these workers have; the end of the run if there are none.
fn least_of_workers<M: EventModel>(kernels: &[Engine<M, KERNEL>], end: When) -> When
    requires same_end { All (λ k. (end_of k.config) ≡ end) kernels.now }
    ensures { result ≡ least_time end (flat_map held_letters kernels.now) }
{
    let mut least = end;
    for kernel in kernels {
        least = least.earlier(kernel.kernel().least());
    }
    least
}

/// The least time of the mail in these inboxes; the end of the run if there is none.
fn least_of_inboxes<P: Copy>(inboxes: &[Inbox<P>], end: When) -> When
    ensures { result ≡ least_time end (map (λ mail. mail.letter) (flat_map (λ inbox. inbox) inboxes.now)) }
{
    let mut least = end;
    for inbox in inboxes {
        least = least.earlier(least_of_mail(&inbox.mail, end));
    }
    least
}
