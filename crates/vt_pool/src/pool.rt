//! The processes of a worker, with what is pending at them and what they executed.

ghost use Rattle.std.specs.Prelude.{◌≡◌, ◌<◌, ◌/◌};
ghost use Rattle.vt_pool.specs.inside.Inside.{IsStockInside};

use crate::hints::Hints;
use crate::kept::Kept;
use std::marker::Model;
use vt_calendar::Calendar;
use vt_key::{Letter, When};
use vt_list::List;
use vt_logs::Log;
use vt_model::{Config, Model as EventModel, Process};
use vt_outbox::Outbox;

/// The processes of a worker: where each stands, one calendar of their pending letters, the anti-messages that wait, one log of their past
/// events, and the outbox of the worker.
///
/// Contracts see these (`HeldPool`). What a call does is a list of steps of the worker (`PoolLeadsTo`), whatever else the worker has.
#[derive(Drop)]
pub struct Pool<M: EventModel> {
    pub(crate) config: Config,
    pub(crate) worker: u32,
    pub(crate) processes: Vec<Process<M>>,
    pub(crate) calendar: Calendar<M::Payload>,
    pub(crate) waiting: List<Letter<M::Payload>>,
    pub(crate) log: Log<M::Payload, M::Kept>,
    // No past event is after this time.
    pub(crate) reached: When,
    // Nodes for what is sent and what arrives, and for the undo of each past event.
    pub(crate) kept: Kept<M::Payload>,
    // For each worker the greatest serial of its messages that were ever pending here; 0 if none was.
    pub(crate) heard: Vec<u64>,
    pub(crate) outbox: Outbox<M::Payload>,
    pub(crate) serial: u64,
    pub(crate) hints: Hints,
}

impl<M: EventModel> Model for Pool<M> {
    ghost use Rattle.std.specs.Prelude.{map, length, ◌≡◌};
    ghost use Rattle.vt_model.specs.inside.Process.{triple_at};
    ghost use Rattle.vt_pool.specs.inside.Share.{HeldPool};
    ghost use Rattle.vt_pool.specs.inside.Inside.{IsPoolInside};
    ghost use Rattle.vt_pool.specs.inside.Logged.{placed, AreMade};

    ghost Value = { HeldPool M.State M.Payload M.Kept };

    ghost view = { λ p. record {
      worker = p.worker;
      config = p.config;
      stock = record { triples = map (λ q. triple_at q.state q.number q.stream) p.processes.items; past = map (placed p.worker) p.log.events; pending = p.calendar; waiting = p.waiting };
      outbox = p.outbox.letters;
      serial = p.serial;
      heard = p.heard.items;
    } };

    ghost invariant = { λ p.
        IsPoolInside p.config p.worker
        (record { triples = map (λ q. triple_at q.state q.number q.stream) p.processes.items; past = map (placed p.worker) p.log.events; pending = p.calendar; waiting = p.waiting })
        (map (λ q. q.stream) p.processes.items) p.outbox p.serial p.reached p.heard.items p.kept
        × AreMade p.serial p.log.events
        × (p.log.processes ≡ length p.processes.items) };
}

impl<M: EventModel> Pool<M> {
    /// What is kept of the processes fits together.
    pub fn fits(&self)
        ensures known { self.now.worker < self.now.config.workers }
        ensures inside { IsStockInside self.now.config self.now.worker self.now.stock }
    {
        let _config = self.config;
    }

    /// The index of a process.
    #[inline(always)]
    pub(crate) fn index_of(&self, p: u32) -> u32
        ensures { result ≡ p / self.now.config.workers }
    {
        self.config.index(p)
    }
}
