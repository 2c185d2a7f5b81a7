//! Theorems on copies, ranks, queues and histories: the first half of why an optimistic run is right.
//!
//! "After any steps" means: in the world that a list of the eleven steps makes of the opening world. The simulation
//! is any that meets the laws, and the first serials are any. The list may contain steps that are refused.

ghost use Rattle.std.specs.Prelude.{ℕ, ◌≡◌, List, Some, Ok, slice_get};
ghost use Rattle.std.specs.List.{find};
ghost use Rattle.vt_key.specs.declared.order.Stamp.{Stamp};
ghost use Rattle.vt_key.specs.declared.letter.Letter.{Letter};
ghost use Rattle.vt_key.specs.declared.letter.Mail.{Mail};
ghost use Rattle.vt_model.specs.promise.Simulation.{Simulation};
ghost use Rattle.vt_model.specs.promise.Histories.{IsLawful};
ghost use Rattle.vt_steps.specs.declared.step.Step.{Step};
ghost use Rattle.vt_steps.specs.declared.step.Step.TheVariants.{Home, Accept};
ghost use Rattle.vt_steps.specs.declared.step.Reply.TheVariants.{Done};
ghost use Rattle.vt_steps.specs.promise.World.{LogicalProcess, Part};
ghost use Rattle.vt_steps.specs.promise.PartSteps.{is_for};
ghost use Rattle.vt_steps.specs.promise.Next.{next, reached};
ghost use Rattle.vt_steps.specs.promise.Claims.{IsProcess};
ghost use Rattle.vt_steps.specs.inside.Claims.{AreCopiesRight, DoRanksRise, DoQueuesRise, HasEach, AreHistoriesRight};

/// A stamp is live if a start sent its event, or if the event that sent it is executed. After any steps, a live stamp
/// has one message or executed event, and no anti-message. A stamp that was made and isn't live has one of each, or
/// neither. A stamp that wasn't made has none.
///
/// This holds without the laws of the simulation, and in any order of delivery.
pub fn copies_are_right<S, P>()
    ghost sim: { Simulation S P }
    ensures { (serial : ℕ) (steps : List Step) (stamp : Stamp) → AreCopiesRight sim serial (reached sim serial steps) stamp }
{}

/// After any steps, the ranks of what each process has executed rise strictly, the committed events first.
pub fn ranks_rise<S, P>()
    ghost sim: { Simulation S P }
    requires { IsLawful sim }
    ensures { (serial : ℕ) (steps : List Step) (p : ℕ) (process : LogicalProcess P) → IsProcess sim (reached sim serial steps) p process → DoRanksRise process }
{}

/// After any steps, the pending messages of each process are in strictly rising rank, and so are its waiting
/// anti-messages. So execute takes the least pending message, and no two letters of a queue have one rank.
///
/// This holds without the laws of the simulation, and in any order of delivery.
pub fn queues_rise<S, P>()
    ghost sim: { Simulation S P }
    ensures { (serial : ℕ) (steps : List Step) (p : ℕ) (process : LogicalProcess P) → IsProcess sim (reached sim serial steps) p process → DoQueuesRise process }
{}

/// After any steps, there is a part and an inbox for each worker, and each process below `lps`; and there are no others.
pub fn each_process_is_there<S, P>()
    ghost sim: { Simulation S P }
    requires { IsLawful sim }
    ensures { (serial : ℕ) (steps : List Step) → HasEach sim (reached sim serial steps) }
{}

/// Let the world be quiet below a time: no event and no anti-message before it is unprocessed or travelling. Then, after
/// any steps, each process has executed before that time exactly what the sequential run executes there, in the same order.
pub fn histories_are_right<S, P>()
    ghost sim: { Simulation S P }
    requires { IsLawful sim }
    ensures { (serial : ℕ) (steps : List Step) → AreHistoriesRight sim (reached sim serial steps) }
{}

/// After any steps, a letter that comes home or is accepted out of the mail reaches its process, which doesn't hold
/// it already: the step is answered as done.
pub fn letters_are_delivered<S, P>()
    ghost sim: { Simulation S P }
    requires { IsLawful sim }
    ensures homes { (serial : ℕ) (steps : List Step) (w : ℕ) (part : Part P) (letter : Letter P) → slice_get (reached sim serial steps).parts w ≡ Some part →
        find (is_for sim.workers w) part.outbox ≡ Some letter → (next sim (reached sim serial steps) (Home w)).answer ≡ Ok Done }
    ensures accepts { (serial : ℕ) (steps : List Step) (w i : ℕ) (part : Part P) (mail : Mail P) → slice_get (reached sim serial steps).parts w ≡ Some part →
        slice_get part.arrived i ≡ Some mail → (next sim (reached sim serial steps) (Accept w i)).answer ≡ Ok Done }
{}
