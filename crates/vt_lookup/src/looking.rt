//! A run of which each event is looked at.

ghost use Rattle.std.specs.Prelude.{◌≤◌, ◌<◌, IfOk};

use crate::difference::{Difference, Moment};
use crate::pair::Pair;
use crate::pending::Pending;
use std::alloc::Global;
use vt_key::{Fault, When};
use vt_model::{Config, Model as EventModel, Out, Process, Sent};

/// Adds what is sent at a moment to the pending events. A send that isn't later, or that goes to no process, is
/// answered.
fn add_sends<P: Copy>(
    config: Config,
    moment: Moment,
    now: When,
    sends: &[Sent<P>],
    pending: &mut Pending<P>,
) -> Result<(), Difference> {
    for sent in sends {
        let when = sent.key.when();
        if sent.dest >= config.lps {
            return Err(Difference::Receiver(moment, sent.dest, config.lps - 1));
        }
        if when <= now {
            return Err(Difference::Early(moment, sent.dest, when.ticks(), when.priority()));
        }
        if pending.put(sent).is_err() {
            return Err(Difference::Refused(Fault::Memory));
        }
    }
    Ok(())
}

/// Starts a process twice, and adds its sends to the pending events.
fn started<M: EventModel>(
    model: &M,
    config: Config,
    lp: u32,
    pending: &mut Pending<M::Payload>,
) -> Result<Pair<M>, Difference>
    requires { lp < config.lps }
{
    let now = When::tick(0);
    let mut out = Out::new(config, lp, now, 0);
    let tried = Process::start(model, config, lp, &mut out);
    out.renew(config, lp, now, 0);
    let steady = Process::start(model, config, lp, &mut out);
    add_sends(config, Moment::new(lp, now), now, out.sends(), pending)?;
    Ok(Pair { steady, tried })
}

/// A run that is looked at: each process twice, and the pending events.
#[derive(Drop)]
struct Looking<'m, M: EventModel> {
    model: &'m M,
    config: Config,
    pairs: Vec<Pair<M>>,
    pending: Pending<M::Payload>,
}

impl<'m, M: EventModel> Looking<'m, M>
where
    M::State: PartialEq,
    M::Payload: PartialEq,
{
    /// Looks at the pending event of least key; false where none is pending.
    fn look_at_next(&mut self) -> Result<bool, Difference> {
        let Some(event) = self.pending.take_least() else {
            return Ok(false);
        };
        let now = event.key.when();
        let Some(pair) = self.pairs.get_mut(event.dest as usize) else {
            return Ok(true);
        };
        // This never comes: each send was tested, and `out` holds none at the end of the run or later.
        if event.dest >= self.config.lps || now.ticks() >= self.config.end().ticks() {
            return Ok(true);
        }
        let mut out = Out::new(self.config, event.dest, now, 0);
        pair.look_at(self.model, self.config, &event, &mut out)?;
        add_sends(
            self.config,
            Moment::new(event.dest, now),
            now,
            out.sends(),
            &mut self.pending,
        )?;
        Ok(true)
    }
}

/// Looks at the first events of a model's sequential run, `most` at most, and returns how many there were. Each is executed, undone and
/// executed again, beside a process that executes it once. States, sends, records and the number of drawn words have to be the same, and
/// each send has to be received later, by a process that there is.
///
/// [`Difference`]: the first thing that is wrong, with its process and time. What isn't sent, since it would be received at the end
/// or later, isn't looked at. A look takes time for each event by how many are pending.
pub fn look<M: EventModel>(
    alloc: Global,
    model: &M,
    config: Config,
    most: u64,
) -> Result<u64, Difference>
where
    M::State: PartialEq,
    M::Payload: PartialEq,
    ensures { IfOk result (λ looked. looked ≤ most) }
{
    let mut pairs = Vec::new(alloc);
    let mut pending = Pending::new(alloc);
    for lp in 0..config.lps {
        let pair = started(model, config, lp, &mut pending)?;
        if pairs.push(pair).is_err() {
            return Err(Difference::Refused(Fault::Memory));
        }
    }
    let mut looking = Looking {
        model,
        config,
        pairs,
        pending,
    };
    for looked in 0..most {
        if !looking.look_at_next()? {
            return Ok(looked);
        }
    }
    Ok(most)
}
