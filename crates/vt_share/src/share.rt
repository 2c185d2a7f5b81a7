//! The worker.

ghost use Rattle.std.specs.Prelude.{◌≡◌, ◌%◌, ◌^◌, length};
ghost use Rattle.vt_kernel.specs.inside.Held.{AreCounted};

use std::marker::Model;
use vt_kernel::Counts;
use vt_key::{Colour, Mail, When};
use vt_model::Model as EventModel;
use vt_pool::Pool;

/// One worker: its processes with their letters and past events, its outbox, the mail that has arrived, its colour, counts, red minimum,
/// floor and serial.
///
/// Contracts see these (`HeldWorker`), each process with its own pending letters, waiting anti-messages and past events. The value keeps no
/// committed events. So a contract speaks of every part of a world that the value stands for (`StandsFor`).
#[derive(Drop)]
pub struct Share<M: EventModel> {
    pub(crate) pool: Pool<M>,
    pub(crate) arrived: Vec<Mail<M::Payload>>,
    pub(crate) colour: Colour,
    pub(crate) sent: Counts,
    pub(crate) got: Counts,
    pub(crate) red_minimum: When,
    pub(crate) floor: When,
}

impl<M: EventModel> Model for Share<M> {
    ghost use Rattle.vt_kernel.specs.inside.Held.{HeldWorker};
    ghost use Rattle.vt_pool.specs.inside.Share.{seen};
    ghost use Rattle.vt_share.specs.inside.Held.{share_of, IsShareInside};

    ghost Value = { HeldWorker M.State M.Payload M.Kept };

    ghost view = { λ s. seen (share_of s.pool s.arrived.items s.colour s.sent s.got s.red_minimum s.floor) };

    ghost invariant = { λ s. IsShareInside s.pool.config s.pool.worker s.pool.stock s.arrived.items s.sent s.got };
}

impl<M: EventModel> Share<M> {
    /// The number of letters in the outbox, modulo 2^64. It is the number itself as long as memory can't hold 2^64
    /// letters.
    pub fn outbox_len(&self) -> usize
        ensures { result ≡ length self.now.outbox % 2 ^ 64 }
    {
        self.pool.outbox_len()
    }

    /// How many letters have arrived and are not accepted yet. No count of the mail that was got is past 2^63.
    pub fn arrived_len(&self) -> usize
        ensures arrived { result ≡ length self.now.arrived }
        ensures counted { AreCounted self.now.got }
    {
        self.arrived.len()
    }

    /// The time below which the worker may commit.
    pub fn floor(&self) -> When
        ensures { result ≡ self.now.floor }
    {
        self.floor
    }

    /// How many messages events made and how many were taken back, and how many events were undone, since the last call. No contract says more of
    /// them.
    pub fn take_hints(&mut self) -> (usize, usize, u64)
        ensures { self.new ≡ self.old }
    {
        self.pool.take_hints()
    }
}
