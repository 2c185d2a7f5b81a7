//! What a place knows.

ghost use Rattle.std.specs.Prelude.{ℕ, List};
ghost use base.Fml.{ftrue};
ghost use Rattle.vt_key.specs.promise.Times.{Time};
ghost use Rattle.vt_steps.specs.promise.World.{Part};
ghost use Rattle.vt_steps.specs.inside.Marked.{Made, Marked};
ghost use Rattle.vt_places.specs.inside.Hands.{Hand};

use std::marker::{Model, PhantomData};

/// What a place knows, for contracts alone. No value of this type is ever made.
pub(crate) struct View<P> {
    marker: PhantomData<P>,
    // The worker whose place it is, and that worker's part after the place's last visit.
    pub(crate) ghost worker: { ℕ },
    pub(crate) ghost part: { Part P },
    // The worker's steps, with the reply to each.
    pub(crate) ghost mine: { List Made },
    // The list of all steps of all workers, up to the last step of this one.
    pub(crate) ghost log: { List Marked },
    // A floor that the book had when this place looked. The book's floor is no earlier now.
    pub(crate) ghost seen: { Time },
    // The cell that the place has claimed, and what the cell held then.
    pub(crate) ghost hand: { Hand P },
    // The place that makes the others also has their number, and the parts of those that are still to be made.
    pub(crate) ghost made: { ℕ },
    pub(crate) ghost waiting: { List (Part P) },
}

impl<P> Model for View<P> {
    ghost also_owns = { λ _. ftrue };
}
