//! Home.

ghost use Rattle.std.specs.Prelude.{◌≡◌, ◌<◌, true, find, IfSome};
ghost use Rattle.std.specs.Option.{option_copied};
ghost use Rattle.vt_key.specs.promise.Queues.{without_first};
ghost use Rattle.vt_model.specs.promise.Settings.{end_of};
ghost use Rattle.vt_steps.specs.promise.PartSteps.{is_for};
ghost use Rattle.vt_lp.specs.inside.Held.{IsWithinRun};
ghost use Rattle.vt_pool.specs.inside.Inside.{AreSettled};
ghost use Rattle.vt_pool.specs.inside.Share.{PoolLeadsTo};
ghost use Rattle.vt_pool.specs.inside.Pool.{weight_of};

use crate::pool::Pool;
use vt_key::Letter;
use vt_list::Parcel;
use vt_model::Model as EventModel;

impl<M: EventModel> Pool<M> {
    /// Takes the letters of the outbox for the worker's own processes home, one after the other. It stops at a letter if one of the same sign
    /// and stamp is held already, which never is so of a letter that a worker made.
    #[cold]
    #[inline(never)]
    pub fn home_all(&mut self, model: &M)
        requires settled { AreSettled self.old.stock }
        ensures leads { PoolLeadsTo (M.handlers model.now) self.old self.new }
        ensures settled { AreSettled self.new.stock }
        ensures same { (self.new.worker ≡ self.old.worker) × (self.new.config ≡ self.old.config) }
    {
        while self.home(model) {}
    }

    /// Takes the first letter of the outbox for one of the worker's own processes home. False if there is none, or if it is held.
    fn home(&mut self, model: &M) -> bool
        requires settled { AreSettled self.old.stock }
        ensures leads { PoolLeadsTo (M.handlers model.now) self.old self.new }
        ensures settled { AreSettled self.new.stock }
        ensures work { result ≡ true → weight_of self.new < weight_of self.old }
        ensures same { (self.new.worker ≡ self.old.worker) × (self.new.config ≡ self.old.config) }
    {
        self.fits();
        let Some(first) = self.first_home() else {
            return false;
        };
        let letter = *first;
        if self.is_held(&letter) {
            return false;
        }
        let Some(node) = self.take_home() else {
            unreachable!();
        };
        self.receive(model, node);
        true
    }

    /// The first letter of the outbox for one of the worker's own processes; None if there is none.
    #[inline(always)]
    fn first_home(&self) -> Option<&Letter<M::Payload>>
        ensures { option_copied result ≡ find (is_for self.now.config.workers self.now.worker) self.now.outbox }
    {
        self.outbox.first_for(self.worker)
    }

    /// Takes the first letter for one of the worker's own processes out of the outbox; None if there is none.
    #[inline(always)]
    fn take_home(&mut self) -> Option<Parcel<Letter<M::Payload>>>
        ensures letter { result ≡ find (is_for self.old.config.workers self.old.worker) self.old.outbox }
        ensures within { IfSome result (λ letter. IsWithinRun self.old.config.lps (end_of self.old.config) letter) }
        ensures left { self.new ≡ record self.old { outbox = without_first (is_for self.old.config.workers self.old.worker) self.old.outbox } }
    {
        self.outbox.pop_for(self.worker)
    }
}
