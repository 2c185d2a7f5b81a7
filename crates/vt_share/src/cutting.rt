//! The worker's part of a cut, and what it reports.

ghost use Rattle.std.specs.Prelude.{◌≡◌};
ghost use Rattle.vt_key.specs.promise.Letters.{other_colour};
ghost use Rattle.vt_key.specs.promise.Times.{earlier};
ghost use Rattle.vt_model.specs.promise.Handler.{Handlers};
ghost use Rattle.vt_model.specs.promise.Settings.{end_of};
ghost use Rattle.vt_steps.specs.promise.Letters.{least_time, count_of};
ghost use Rattle.vt_steps.specs.promise.World.{Part};
ghost use Rattle.vt_steps.specs.promise.PartSteps.{part_after_cut, report_sent, report_got, report_least};
ghost use Rattle.vt_kernel.specs.inside.Held.{StandsFor};
ghost use Rattle.vt_kernel.specs.inside.Guards.{held_letters};

use crate::share::Share;
use vt_kernel::least_of_mail;
use vt_key::When;
use vt_model::Model as EventModel;

impl<M: EventModel> Share<M> {
    /// The worker's part of a cut: it changes its colour, its red minimum becomes the end of the run, and its floor
    /// becomes the announced time. Its counts of mail stay: they only rise.
    pub fn turn(&mut self, announced: When)
        ensures turned { self.new ≡ record self.old { colour = other_colour self.old.colour; red_minimum = (end_of self.old.config); floor = announced } }
        ensures stands { (handlers : Handlers _ _ _) (part : Part _) → StandsFor handlers self.old part → StandsFor handlers self.new (part_after_cut (end_of self.old.config) announced part) }
    {
        self.colour = self.colour.other();
        self.red_minimum = self.pool.config().end();
        self.floor = announced;
    }

    /// Sets the floor: the time below which the worker may commit.
    pub fn set_floor(&mut self, floor: When)
        ensures set { self.new ≡ record self.old { floor = floor } }
        ensures stands { (handlers : Handlers _ _ _) (part : Part _) → StandsFor handlers self.old part → StandsFor handlers self.new (record part { floor = floor }) }
    {
        self.floor = floor;
    }

    /// What the worker reports: how much mail of the old colour it has sent and got, and a least time. That is
    /// the lesser of its red minimum and the least time of all letters that it has.
    pub fn report_values(&mut self) -> (u64, u64, When)
        ensures sent { result.0 ≡ count_of self.old.sent (other_colour self.old.colour) }
        ensures got { result.1 ≡ count_of self.old.got (other_colour self.old.colour) }
        ensures least { result.2 ≡ earlier self.old.red_minimum (least_time (end_of self.old.config) (held_letters self.old)) }
        ensures reports { (handlers : Handlers _ _ _) (part : Part _) → StandsFor handlers self.old part → (result.0 ≡ report_sent part) × (result.1 ≡ report_got part) × (result.2 ≡ report_least (end_of self.old.config) part) }
        ensures same { self.new ≡ self.old }
    {
        let left = self.colour.other();
        let sent = self.sent.of(left);
        let got = self.got.of(left);
        let least = self.red_minimum.earlier(self.least());
        (sent, got, least)
    }

    /// The least time of all letters that the worker has: in its outbox, arrived, pending and waiting. The
    /// end of the run if it has none.
    pub fn least(&mut self) -> When
        ensures least { result ≡ least_time (end_of self.old.config) (held_letters self.old) }
        ensures same { self.new ≡ self.old }
    {
        self.pool.fits();
        let arrived = least_of_mail(&self.arrived, self.pool.config().end());
        self.pool.least().earlier(arrived)
    }
}
