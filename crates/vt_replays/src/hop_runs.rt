//! The theorems on all lists of steps, for the hop model.

ghost use Rattle.std.specs.Prelude.{ℕ, List};
ghost use Rattle.vt_model.specs.promise.Simulation.{simulation_of};
ghost use Rattle.vt_models.specs.promise.Hop.{hop_handlers};
ghost use Rattle.vt_steps.specs.declared.step.Step.{Step};
ghost use Rattle.vt_steps.specs.inside.Claims.{Histories};
ghost use Rattle.vt_steps.specs.promise.Next.{reached};

use vt_model::{Config, models_are_lawful};
use vt_models::Hop;

/// After any steps of a run of the hop model, whatever its options and the config are, the copies of all stamps are right,
/// the ranks of what each process has executed rise, and wherever the run is quiet below a time, what is executed before it
/// is what the sequential run executes.
pub fn hop_histories(model: &Hop, config: Config)
    ensures { let sim = simulation_of (hop_handlers model.now) config in (serial : ℕ) (steps : List Step) → Histories sim serial (reached sim serial steps) }
{
    models_are_lawful(model, config);
}
