//! The rule of a station's table, and what an atomic step on it tells.

use crate::slot::Slot;
use crate::view::View;
use atomic_table::{Play, TableRule};
use std::marker::{Brand, PhantomData};
use std::snapshot::Snapshot;
use vt_model::{Config, Model as EventModel};

/// The fixed data of a station: the model and the config. Only contracts see the model.
#[derive(Drop)]
pub(crate) struct About<M> {
    pub(crate) model: Snapshot<M>,
    pub(crate) config: Config,
}

/// The invariant of a station: some list of marked steps, when run, gives what the cells and the places show.
pub(crate) struct Law<M> {
    model: PhantomData<M>,
}

impl<M: EventModel> TableRule<Slot<M::Payload>, View<M::Payload>, About<M>> for Law<M> {
    ghost use Rattle.vt_model.specs.promise.Simulation.{simulation_of};
    ghost use Rattle.vt_places.specs.inside.Kept.{IsTableRight, first_view};

    ghost holds = { λ key. IsTableRight (simulation_of (M.handlers key.model.value) key.config) key.config };

    ghost first = { λ key. first_view (simulation_of (M.handlers key.model.value) key.config) };
}

/// What a caller wants to know after an atomic step: of the word that it found, and of its seat afterwards.
pub(crate) trait Aim<P> {
    ghost use Rattle.std.specs.Prelude.{ℕ};
    ghost use Rattle.vt_places.specs.inside.Kept.{Sat};

    ghost after: { ℕ → Sat P → Type 0 };
}

impl<P> Aim<P> for Brand {
    ghost after = { λ _ _. Unit {0} };
}

/// The outcome of an atomic step is what its caller's aim asks for.
pub(crate) struct Tell<J> {
    aim: PhantomData<J>,
}

impl<P, J: Aim<P>> Play<Slot<P>, View<P>> for Tell<J> {
    ghost then = { λ st m r n. J.after r n };
}
