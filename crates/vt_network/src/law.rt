//! A law that holds of every run of the model.

ghost use Rattle.std.specs.Prelude.{◌≡◌, ◌+◌, ℕ};
ghost use Rattle.vt_model.specs.promise.Simulation.{simulation_of};
ghost use Rattle.vt_model.specs.promise.Sequential.{after_steps};
ghost use Rattle.vt_network.specs.inside.Network.{network_handlers};
ghost use Rattle.vt_network.specs.inside.Packets.{packets_made, packets_delivered, packets_dropped, packets_in_buffers, packets_under_way, packets_past_end};

use crate::Network;
use vt_model::Config;

/// No packet is made but by a host, and none is lost. After each step of the sequential run the packets that hosts have
/// made are as many as those with a record that they were delivered or dropped, those in buffers, those under way, and
/// those that would come in at or past the end of the run.
pub fn packets_are_kept(model: &Network, config: Config)
    ensures { let m = model.now in let sim = simulation_of (network_handlers m) config in (n : ℕ)
        → packets_made (after_steps sim n)
        ≡ packets_delivered m config (after_steps sim n) + packets_dropped m config (after_steps sim n) + packets_in_buffers m config (after_steps sim n)
        + packets_under_way (after_steps sim n) + packets_past_end m config (after_steps sim n) }
{}
