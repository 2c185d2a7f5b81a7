//! What a handler sends and records.

ghost use Rattle.std.specs.Prelude.{◌≡◌, ◌+◌, ◌^◌, ◌<◌, ◌≤◌, ◌↔◌, ◌++◌, [], ◌∷◌, length, IsTrue};
ghost use Rattle.vt_key.specs.promise.Times.{TimeBefore, at, ticks_of};
ghost use Rattle.vt_model.specs.promise.Settings.{end_of};
ghost use Rattle.vt_model.specs.inside.Out.{sends_held};

use crate::{Config, MAX_RECORDS, MAX_SENDS, Record};
use arrayvec::ArrayVec;
use std::default::MadeWith;
use std::marker::Model;
use vt_key::{Key, MAX_COUNT, When};

/// An event that a handler sent. It has no stamp: the model and its sequential run know none.
#[derive(Debug, Clone, Copy)]
pub struct Sent<P> {
    /// When it is received, who sent it, and by which send number.
    pub key: Key,
    /// The logical process that receives it.
    pub dest: u32,
    /// What it carries.
    pub payload: P,
}

impl<P: Copy> MadeWith<Sent<P>> for Sent<P> {
    fn made_with(blank: Sent<P>) -> Sent<P> {
        blank
    }
}

/// What a handler sends and records: at most [`MAX_SENDS`] sends and [`MAX_RECORDS`] records.
///
/// Each send takes the next send number of its process. One that would be received at the end of the run or later takes its
/// number and isn't sent, so the numbers of a process don't depend on the end. What an event sent and recorded is taken back
/// with it when it is undone; records come out once it no longer can be.
// No struct of a simulator holds one. With a state beside it, it would owe bounds on its size wherever it is used.
#[derive(Drop)]
pub struct Out<P: Copy> {
    lps: u32,
    end: When,
    lp: u32,
    time: When,
    first: u64,
    number: u64,
    sends: Option<ArrayVec<Sent<P>, MAX_SENDS, Sent<P>>>,
    records: ArrayVec<Record, MAX_RECORDS>,
}

impl<P: Copy> Model for Out<P> {
    ghost use Rattle.std.specs.Prelude.{◌≡◌, ◌≤◌, ◌<◌, ◌+◌, ◌^◌, length};
    ghost use Rattle.vt_model.specs.inside.Sends.{Outgoing};

    ghost Value = { Outgoing P };

    ghost use Rattle.vt_model.specs.inside.Out.{sends_held, IsOutInside};

    ghost view = { λ o. record {
      lps = o.lps;
      end = o.end;
      lp = o.lp;
      time = o.time;
      first = o.first;
      number = o.number;
      sends = sends_held o.sends;
      records = o.records.items;
    } };

    ghost invariant = { λ o. IsOutInside o.end o.time o.first o.number (length (sends_held o.sends)) };
}

impl<P: Copy> Out<P> {
    ghost use Rattle.vt_model.specs.inside.Sends.{taken_back, with_requests};
    ghost use Rattle.vt_model.specs.inside.Handler.{IsFresh};

    /// The `out` of a handler of process `lp` at time `now`, whose next send number is `number`. For simulators: `lp` is
    /// below `config.lps`, `now` below `config.end()`, and `number` at most 2^63.
    pub fn new(config: Config, lp: u32, now: When, number: u64) -> Self
        requires known { lp < config.lps }
        requires early { now < (end_of config) }
        requires numbered { number ≤ MAX_COUNT }
        ensures fresh { IsFresh result lp now }
        ensures whole { result ≡ record { lps = config.lps; end = (end_of config); lp = lp; time = now; first = number; number = number; sends = []; records = [] } }
    {
        Out {
            lps: config.lps,
            end: config.end(),
            lp,
            time: now,
            first: number,
            number,
            sends: None,
            records: ArrayVec::new(),
        }
    }

    /// Makes this `out` anew, as [`Out::new`] gives it for the same arguments: nothing is sent and nothing recorded. For
    /// simulators, which execute many events with one `out`: its room is kept. `lp` is below `config.lps`, `now` below
    /// `config.end()`, and `number` at most 2^63.
    pub fn renew(&mut self, config: Config, lp: u32, now: When, number: u64)
        requires known { lp < config.lps }
        requires early { now < (end_of config) }
        requires numbered { number ≤ MAX_COUNT }
        ensures fresh { IsFresh self.new lp now }
        ensures whole { self.new ≡ record { lps = config.lps; end = (end_of config); lp = lp; time = now; first = number; number = number; sends = []; records = [] } }
    {
        self.lps = config.lps;
        self.end = config.end();
        self.lp = lp;
        self.time = now;
        self.first = number;
        self.number = number;
        clear_sends(&mut self.sends);
        self.records.clear();
    }

    /// The number of logical processes of the run: they are named from 0 to one less. The handler's own is one of them.
    pub fn lps(&self) -> u32
        ensures { result ≡ self.now.lps }
    {
        self.lps
    }

    /// The next send number of the handler's process.
    pub fn number(&self) -> u64
        ensures { result ≡ self.now.number }
    {
        self.number
    }

    /// Whether one more event may be sent.
    pub fn room(&self) -> bool
        ensures { IsTrue result ↔ (self.now.number < self.now.first + MAX_SENDS) }
    {
        self.number - self.first < MAX_SENDS as u64
    }

    /// Whether one more record may be made.
    pub fn emit_room(&self) -> bool
        ensures { IsTrue result ↔ (length self.now.records < MAX_RECORDS) }
    {
        self.records.len() < MAX_RECORDS
    }

    /// Whether an event may be sent so: to be received `delay` ticks from now, with this priority. Its time of receipt has to be
    /// later than now, so the delay is 1 or more, or it is 0 and the priority is higher than now's.
    pub fn later(&self, delay: u64, priority: u8) -> bool
        ensures { IsTrue result ↔ TimeBefore self.now.time (at (ticks_of self.now.time + delay) priority) }
    {
        delay > 0 || priority > self.time.priority()
    }

    /// Sends `payload` to process `dest`, to be received `delay` ticks from now, with this priority; in a start, at tick
    /// `delay`. A send takes the next send number. If it would be received at the end of the run or later, it isn't sent.
    /// `dest` is below [`Out::lps`] and may be the handler's own process. The time of receipt is later than now
    /// ([`Out::later`]); `delay` has no upper limit. There must be room ([`Out::room`]).
    pub fn send(&mut self, dest: u32, delay: u64, priority: u8, payload: P)
        requires known { dest < self.old.lps }
        requires later { TimeBefore self.old.time (at (ticks_of self.old.time + delay) priority) }
        requires room { self.old.number < self.old.first + MAX_SENDS }
        ensures { self.new ≡ with_requests self.old (record { dest = dest; delay = delay; priority = priority; payload = payload } ∷ []) [] }
    {
        let number = self.number;
        self.number = number + 1;
        if delay < self.end.ticks() - self.time.ticks() {
            let key = Key::new(self.time.after(delay, priority), self.lp, number);
            let sent = Sent { key, dest, payload };
            push_sent(&mut self.sends, sent);
        }
    }

    /// Makes a record with this process and time. What `kind` stands for, the model says. There must be room
    /// ([`Out::emit_room`]). Kind 4294967295 is that of traps of programs: what is shown of a run on a terminal counts it as one.
    pub fn emit(&mut self, kind: u32, value: u64)
        requires room { length self.old.records < MAX_RECORDS }
        ensures { self.new ≡ with_requests self.old [] (record { kind = kind; value = value } ∷ []) }
    {
        self.records.push(Record {
            time: self.time.ticks(),
            priority: self.time.priority(),
            lp: self.lp,
            kind,
            value,
        });
    }

    /// Takes back what the handler sent and recorded so far: this `out` is as it was when the handler began. For a handler that runs
    /// somebody's program, which may trap late.
    pub fn take_back(&mut self)
        ensures { self.new ≡ taken_back self.old }
    {
        self.number = self.first;
        clear_sends(&mut self.sends);
        self.records.clear();
    }

    /// The sends below the end of the run, in the order in which they were made. For simulators.
    pub fn sends(&self) -> &[Sent<P>]
        ensures { result.now ≡ self.now.sends }
    {
        match &self.sends {
            Some(sends) => sends.as_slice(),
            None => &[],
        }
    }

    /// The records, in the order in which they were made. For simulators.
    pub fn records(&self) -> &[Record]
        ensures { result.now ≡ self.now.records }
    {
        self.records.as_slice()
    }
}

/// Takes the sends away, and keeps the room in which they lie.
fn clear_sends<P: Copy>(sends: &mut Option<ArrayVec<Sent<P>, MAX_SENDS, Sent<P>>>)
    ensures { sends_held sends.new ≡ [] }
{
    if let Some(sends) = sends {
        sends.clear();
    }
}

/// Adds a send behind the others, and makes their room if this is the first. There must be room for one more.
fn push_sent<P: Copy>(sends: &mut Option<ArrayVec<Sent<P>, MAX_SENDS, Sent<P>>>, sent: Sent<P>)
    requires room { length (sends_held sends.old) < MAX_SENDS }
    ensures { sends_held sends.new ≡ sends_held sends.old ++ sent ∷ [] }
{
    match sends {
        Some(sends) => sends.push(sent),
        None => {
            let mut first = ArrayVec::new_in(sent);
            first.push(sent);
            *sends = Some(first);
        }
    }
}
