//! The worker's part of a cut, and what it reports.

ghost use Rattle.std.specs.Prelude.{◌≡◌, ◌++◌, All, flat_map, map};
ghost use Rattle.vt_key.specs.promise.Letters.{other_colour};
ghost use Rattle.vt_key.specs.promise.Times.{earlier};
ghost use Rattle.vt_model.specs.promise.Handler.{Handlers};
ghost use Rattle.vt_model.specs.promise.Settings.{end_of};
ghost use Rattle.vt_steps.specs.promise.Letters.{least_time, count_of};
ghost use Rattle.vt_steps.specs.promise.World.{Part};
ghost use Rattle.vt_steps.specs.promise.PartSteps.{part_after_cut, report_sent, report_got, report_least};
ghost use Rattle.vt_kernel.specs.inside.Held.{StandsFor};
ghost use Rattle.vt_kernel.specs.inside.Guards.{held_letters};

use crate::kernel::Kernel;
use vt_key::{Mail, When};
use vt_lp::Lp;
use vt_model::Model as EventModel;

impl<M: EventModel> Kernel<M> {
    /// The worker's part of a cut: it changes its colour, its red minimum becomes the end of the run, and its floor
    /// becomes the announced time. Its counts of mail stay: they only rise.
    pub fn turn(&mut self, announced: When)
        ensures turned { self.new ≡ record self.old { colour = other_colour self.old.colour; red_minimum = (end_of self.old.config); floor = announced } }
        ensures stands { (handlers : Handlers _ _ _) (part : Part _) → StandsFor handlers self.old part → StandsFor handlers self.new (part_after_cut (end_of self.old.config) announced part) }
    {
        self.colour = self.colour.other();
        self.red_minimum = self.config.end();
        self.floor = announced;
    }

    /// Sets the floor: the time below which the worker may commit.
    pub fn set_floor(&mut self, floor: When)
        ensures set { self.new ≡ record self.old { floor = floor } }
        ensures stands { (handlers : Handlers _ _ _) (part : Part _) → StandsFor handlers self.old part → StandsFor handlers self.new (record part { floor = floor }) }
    {
        self.floor = floor;
    }

    /// What the worker reports: how much mail of the old colour it has sent and got, and a least time. That is
    /// the lesser of its red minimum and the least time of all letters that it has.
    pub fn report_values(&self) -> (u64, u64, When)
        ensures sent { result.0 ≡ count_of self.now.sent (other_colour self.now.colour) }
        ensures got { result.1 ≡ count_of self.now.got (other_colour self.now.colour) }
        ensures least { result.2 ≡ earlier self.now.red_minimum (least_time (end_of self.now.config) (held_letters self.now)) }
        ensures reports { (handlers : Handlers _ _ _) (part : Part _) → StandsFor handlers self.now part → (result.0 ≡ report_sent part) × (result.1 ≡ report_got part) × (result.2 ≡ report_least (end_of self.now.config) part) }
    {
        let left = self.colour.other();
        let least = self.red_minimum.earlier(self.least());
        (self.sent.of(left), self.got.of(left), least)
    }

    /// The least time of all letters that the worker has: in its outbox, arrived, pending and waiting. The
    /// end of the run if it has none.
    pub fn least(&self) -> When
        ensures { result ≡ least_time (end_of self.now.config) (held_letters self.now) }
    {
        let end = self.config.end();
        let unsent = self.outbox.least(end);
        let arrived = least_of_mail(&self.arrived, end);
        let kept = least_of_processes(&self.processes, end);
        unsent.earlier(arrived).earlier(kept)
    }
}

/// The least time of all pending messages and waiting anti-messages of these processes; `end`, the end of the run, if there are
/// none.
fn least_of_processes<M: EventModel>(processes: &[Lp<M>], end: When) -> When
    requires ends { All (λ held. end_of held.config ≡ end) processes.now }
    ensures { result ≡ least_time end (flat_map (λ held. held.pending ++ held.waiting) processes.now) }
{
    let mut least = end;
    for process in processes {
        least = least.earlier(process.least());
    }
    least
}

/// The least time of this mail; the end of the run if there is none.
pub fn least_of_mail<P: Copy>(mails: &[Mail<P>], end: When) -> When
    ensures { result ≡ least_time end (map (λ mail. mail.letter) mails.now) }
{
    let mut least = end;
    for mail in mails {
        least = least.earlier(mail.letter.event.rank.key.when());
    }
    least
}
