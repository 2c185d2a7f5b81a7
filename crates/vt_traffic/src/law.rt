//! A law that holds of every run of the model.

ghost use Rattle.std.specs.Prelude.{◌≡◌, ◌+◌, ◌*◌, ℕ};
ghost use Rattle.vt_model.specs.promise.Simulation.{simulation_of};
ghost use Rattle.vt_model.specs.promise.Sequential.{after_steps};
ghost use Rattle.vt_traffic.specs.inside.Traffic.{traffic_handlers};
ghost use Rattle.vt_traffic.specs.inside.Cars.{cars_on_grid, cars_on_roads, cars_past_end};

use crate::Traffic;
use vt_model::Config;

/// No car is made and none is lost. After each step of the sequential run the cars at the junctions, those on their way
/// between them, and those that would arrive at or past the end of the run are as many as there were at the start: `cars`
/// on each of the two roads of each junction.
pub fn cars_are_kept(model: &Traffic, config: Config)
    ensures { let sim = simulation_of (traffic_handlers model.now) config in (n : ℕ)
        → cars_on_grid model.now config (after_steps sim n) + cars_on_roads (after_steps sim n) + cars_past_end model.now config (after_steps sim n) ≡ 2 * model.now.cars * config.lps }
{}
