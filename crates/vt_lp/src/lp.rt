//! The process and its readers.

ghost use Rattle.std.specs.Prelude.{◌≡◌, ◌++◌, ◌%◌, ◌^◌, length};
ghost use Rattle.std.specs.Option.{option_copied};
ghost use Rattle.vt_steps.specs.promise.Letters.{least_time};
ghost use Rattle.vt_key.specs.inside.Queues.{IsRising};
ghost use Rattle.vt_lp.specs.inside.Guards.{lesser_rank, ready_rank};
ghost use Rattle.vt_lp.specs.inside.Held.{IsRisingPast};
ghost use Rattle.vt_model.specs.promise.Settings.{end_of};

use crate::letters::ends_before;
use std::marker::Model;
use vt_key::{Letter, Rank, When};
use vt_model::{Config, Model as EventModel, Process};
use vt_past::Past;
use vt_pending::Pending;

/// A logical process with rollback: its state, send number and stream position; its past events, with what undoes
/// them; its pending messages; and the anti-messages that wait for their messages.
///
/// Contracts see these (`HeldProcess`). The value keeps no committed events. So a contract speaks of every process of
/// a world that the value stands for (`StandsFor`). Such a process has the same past events, pending messages and
/// waiting anti-messages, and its committed events lead to where the past begins.
///
/// It keeps no model: each call is handed one. A reference in each of many processes would take memory, and time to read.
#[derive(Drop)]
pub struct Lp<M: EventModel> {
    // First, since it holds many random words. So the fields that every event reads stand together behind it, in few cache
    // lines.
    pub(crate) process: Process<M>,
    pub(crate) past: Past<M::Payload, M::Kept>,
    pub(crate) pending: Pending<M::Payload>,
    pub(crate) waiting: Pending<M::Payload>,
    pub(crate) config: Config,
    pub(crate) lp: u32,
}

impl<M: EventModel> Model for Lp<M> {
    ghost use Rattle.vt_model.specs.inside.Process.{triple_at};
    ghost use Rattle.vt_lp.specs.inside.Held.{HeldProcess, IsProcessInside};

    ghost Value = { HeldProcess M.State M.Payload M.Kept };

    ghost view = { λ l. record {
      lp = l.lp;
      config = l.config;
      triple = triple_at l.process.state l.process.number l.process.stream;
      past = l.past;
      pending = l.pending;
      waiting = l.waiting;
    } };

    ghost invariant = { λ l. IsProcessInside l.config l.lp l.process.number l.process.stream l.past l.pending l.waiting };
}

impl<M: EventModel> Lp<M> {
    /// The state.
    pub fn state(&self) -> &M::State
        ensures { result.now ≡ self.now.triple.state }
    {
        &self.process.state
    }

    /// What the model's `finish` makes of the state.
    pub fn finish(&self, model: &M) -> u64
        ensures { result ≡ (M.handlers model.now).finish self.now.lp self.now.triple.state }
    {
        model.finish(self.lp, &self.process.state)
    }

    /// The number of the next send: how many events the process has sent, including those at or past the end of the
    /// run. Undone sends don't count.
    pub fn number(&self) -> u64
        ensures { result ≡ self.now.triple.number }
    {
        self.process.number
    }

    /// The position of the next random word in the process's stream: how many words it has drawn, modulo 2^64. Undone
    /// draws don't count.
    pub fn place(&self) -> u64
        ensures { result ≡ self.now.triple.place }
    {
        self.process.stream.place()
    }

    /// The number of past events, modulo 2^64. It is the number itself as long as memory can't hold 2^64 events.
    pub fn past_len(&self) -> usize
        ensures { result ≡ length self.now.past % 2 ^ 64 }
    {
        self.past.len()
    }

    /// The number of pending messages, modulo 2^64.
    pub fn pending_len(&self) -> usize
        ensures { result ≡ length self.now.pending % 2 ^ 64 }
    {
        self.pending.len()
    }

    /// The number of anti-messages that wait for their messages, modulo 2^64.
    pub fn waiting_len(&self) -> usize
        ensures { result ≡ length self.now.waiting % 2 ^ 64 }
    {
        self.waiting.len()
    }

    /// The least time of all pending messages and waiting anti-messages; the end of the run if there are none.
    pub fn least(&self) -> When
        ensures { result ≡ least_time (end_of self.now.config) (self.now.pending ++ self.now.waiting) }
    {
        match lesser(self.pending.least(), self.waiting.least()) {
            Some(rank) => rank.key.when(),
            None => self.config.end(),
        }
    }

    /// The rank of the event that [`Lp::execute`] would execute: that of the least pending message, if it comes after
    /// the last past event. Otherwise None. The ranks of each of the two queues rise strictly, and so do those of the past events.
    pub fn ready(&self) -> Option<Rank>
        ensures rank { result ≡ ready_rank self.now.pending self.now.past }
        ensures rising { IsRising self.now.pending × IsRising self.now.waiting × IsRisingPast self.now.past }
    {
        // For the proof alone: the call's contract says that anti-messages rise.
        let _least = self.waiting.least();
        let least = self.pending.least()?;
        if !ends_before(&self.past, least.event.rank) {
            return None;
        }
        Some(least.event.rank)
    }
}

/// The lesser of the ranks of two letters, each of which may be missing.
fn lesser<P>(a: Option<&Letter<P>>, b: Option<&Letter<P>>) -> Option<Rank>
    ensures { result ≡ lesser_rank (option_copied a.entry) (option_copied b.entry) }
{
    match (a, b) {
        (Some(a), Some(b)) if b.event.rank.is_before(&a.event.rank) => Some(b.event.rank),
        (Some(a), _) => Some(a.event.rank),
        (None, b) => b.map(|letter| letter.event.rank),
    }
}
