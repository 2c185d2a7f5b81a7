//! The worker.

ghost use Rattle.std.specs.Prelude.{◌≡◌, ◌%◌, ◌^◌, length};
ghost use Rattle.vt_steps.specs.promise.Letters.{count_of};
ghost use Rattle.vt_kernel.specs.inside.Held.{AreCounted};

use crate::counts::Counts;
use std::marker::Model;
use vt_key::{Colour, Mail, When};
use vt_lp::Lp;
use vt_model::{Config, Model as EventModel};
use vt_outbox::Outbox;

/// One worker: its processes, its outbox, the mail that has arrived, its colour, counts, red minimum, floor and
/// serial.
///
/// Contracts see these (`HeldWorker`). The value keeps no committed events. So a contract speaks of every part of a
/// world that the value stands for (`StandsFor`).
// It keeps no model and no spare nodes: calls are handed the one, and free the others.
#[derive(Drop)]
pub struct Kernel<M: EventModel> {
    pub(crate) config: Config,
    pub(crate) worker: u32,
    pub(crate) processes: Vec<Lp<M>>,
    pub(crate) outbox: Outbox<M::Payload>,
    pub(crate) arrived: Vec<Mail<M::Payload>>,
    pub(crate) colour: Colour,
    pub(crate) sent: Counts,
    pub(crate) got: Counts,
    pub(crate) red_minimum: When,
    pub(crate) floor: When,
    pub(crate) serial: u64,
}

impl<M: EventModel> Model for Kernel<M> {
    ghost use Rattle.vt_kernel.specs.inside.Held.{HeldWorker, IsWorkerInside};

    ghost Value = { HeldWorker M.State M.Payload M.Kept };

    ghost view = { λ k. record {
      worker = k.worker;
      config = k.config;
      processes = k.processes.items;
      outbox = k.outbox.letters;
      arrived = k.arrived.items;
      colour = k.colour;
      sent = k.sent;
      got = k.got;
      red_minimum = k.red_minimum;
      floor = k.floor;
      serial = k.serial;
    } };

    ghost invariant = { λ k. IsWorkerInside k.config k.worker k.processes.items k.outbox k.arrived.items k.sent k.got k.serial };
}

impl<M: EventModel> Kernel<M> {
    /// The serial of the next event that the worker makes.
    pub fn serial(&self) -> u64
        ensures { result ≡ self.now.serial }
    {
        self.serial
    }

    /// The number of letters in the outbox, modulo 2^64. It is the number itself as long as memory can't hold 2^64
    /// letters.
    pub fn outbox_len(&self) -> usize
        ensures { result ≡ length self.now.outbox % 2 ^ 64 }
    {
        self.outbox.len()
    }

    /// How many letters have arrived and are not accepted yet. No count of the mail that was got is past 2^63.
    pub fn arrived_len(&self) -> usize
        ensures arrived { result ≡ length self.now.arrived }
        ensures counted { AreCounted self.now.got }
    {
        self.arrived.len()
    }

    /// The colour of the mail that the worker sends now.
    pub fn colour(&self) -> Colour
        ensures { result ≡ self.now.colour }
    {
        self.colour
    }

    /// The red minimum: the least time of all that the worker sent since its last cut, or since the opening;
    /// the end of the run if it sent nothing.
    pub fn red_minimum(&self) -> When
        ensures { result ≡ self.now.red_minimum }
    {
        self.red_minimum
    }

    /// The time below which the worker may commit.
    pub fn floor(&self) -> When
        ensures { result ≡ self.now.floor }
    {
        self.floor
    }

    /// How much mail of this colour the worker has sent to other workers since the opening.
    pub fn sent(&self, colour: Colour) -> u64
        ensures { result ≡ count_of self.now.sent colour }
    {
        self.sent.of(colour)
    }

    /// How much mail of this colour the worker has got from other workers since the opening.
    pub fn got(&self, colour: Colour) -> u64
        ensures { result ≡ count_of self.now.got colour }
    {
        self.got.of(colour)
    }
}
