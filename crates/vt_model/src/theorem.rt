//! Theorems on the sequential run of every model: it ends, its keys are distinct, its rows rise, and it is the only
//! history.

ghost use Rattle.std.specs.Prelude.{◌≡◌, ◌<◌, ◌≤◌, ℕ, suc, List, [], length};
ghost use Rattle.vt_key.specs.promise.Times.{Time};
ghost use Rattle.vt_key.specs.promise.Lists.{IsRisingBy};
ghost use Rattle.vt_model.specs.promise.Simulation.{simulation_of};
ghost use Rattle.vt_model.specs.promise.Sequential.{opening, after_steps, weight, whole_run, rows_after, seq_rows, seq_events, events_before, events_of};
ghost use Rattle.vt_model.specs.promise.Histories.{IsLawful};
ghost use Rattle.vt_model.specs.inside.Histories.{AreDistinct, IsHistory, IsRising};
ghost use Rattle.vt_model.specs.declared.sending.Sent.{Sent};
ghost use Rattle.vt_model.specs.promise.Rows.{RowBefore};

use crate::{Config, Model};

/// The laws of a model make its simulation lawful, with every config.
pub fn models_are_lawful<M: Model>(model: &M, config: Config)
    ensures { IsLawful (simulation_of (M.handlers model.now) config) }
{}

/// The sequential run ends. Each step lowers the weight of the pending events, so after as many steps as the weight at the
/// opening no event is pending. All events of the whole run are before its end.
pub fn run_ends<M: Model>(model: &M, config: Config)
    ensures falls { let sim = simulation_of (M.handlers model.now) config in (n : ℕ) → 0 < length (after_steps sim n).pending → weight sim (after_steps sim (suc n)).pending < weight sim (after_steps sim n).pending }
    ensures ends { let sim = simulation_of (M.handlers model.now) config in (after_steps sim (weight sim (opening sim).pending)).pending ≡ [] }
    ensures stays { let sim = simulation_of (M.handlers model.now) config in (n : ℕ) → (after_steps sim n).pending ≡ [] → (after_steps sim n).executed ≡ whole_run sim }
    ensures early { let sim = simulation_of (M.handlers model.now) config in (p : ℕ) → seq_events sim p sim.end ≡ events_of p (whole_run sim) }
{}

/// No two pending events of the sequential run have the same key. So exactly one of them comes before all others.
pub fn pending_keys_are_distinct<M: Model>(model: &M, config: Config)
    ensures { (n : ℕ) → AreDistinct (after_steps (simulation_of (M.handlers model.now) config) n).pending }
{}

/// The keys of the executed events rise strictly, so the rows of a run rise by key and then by index: its records stand in
/// the order of their rows, each once. It holds after each step, of the whole run, and before each time.
pub fn rows_rise<M: Model>(model: &M, config: Config)
    ensures keys { let sim = simulation_of (M.handlers model.now) config in (n : ℕ) → IsRising (after_steps sim n).executed }
    ensures whole_keys { IsRising (whole_run (simulation_of (M.handlers model.now) config)) }
    ensures after_each_step { let sim = simulation_of (M.handlers model.now) config in (n : ℕ) → IsRisingBy RowBefore (rows_after sim [] (after_steps sim n).executed) }
    ensures whole { let sim = simulation_of (M.handlers model.now) config in IsRisingBy RowBefore (rows_after sim [] (whole_run sim)) }
    ensures before { (t : Time) → IsRisingBy RowBefore (seq_rows (simulation_of (M.handlers model.now) config) t) }
{}

/// There is only one history. Take for each process, below some time, exactly the events that the processes send to it, in
/// the order of keys: these are the events of the sequential run.
pub fn one_history<M: Model>(model: &M, config: Config)
    ensures { let sim = simulation_of (M.handlers model.now) config in (below : Time) (lists : ℕ → List (Sent M.Payload)) → IsHistory sim below lists
        → (t : Time) → t ≤ below → (p : ℕ) → p < config.lps → events_before t (lists p) ≡ seq_events sim p t }
{}
