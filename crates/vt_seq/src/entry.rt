//! An entry of the pending events.

ghost use Rattle.std.specs.Ordering.{as_partial_cmp};
ghost use Rattle.std.specs.Cmp.{partial_order_from_own_ties};
ghost use Rattle.std.proofs.Common.{rules};
ghost use Rattle.std.specs.Cmp.Rules.{comparing};
ghost use Rattle.vt_seq.specs.inside.Entries.{entry_cmp, entry_same};

use std::cmp::Ordering;
use vt_model::Sent;

/// A pending event. Entries compare in reverse by their keys: the one of least key is the greatest.
#[derive(Drop)]
pub(crate) struct Entry<P: Copy> {
    pub(crate) event: Sent<P>,
}

impl<P: Copy> PartialEq for Entry<P> {
    ghost eq = { entry_same };

    ghost laws = { Prim.search (comparing, rules) };

    fn eq(&self, other: &Entry<P>) -> bool {
        self.event.key == other.event.key
    }
}

impl<P: Copy> Eq for Entry<P> {
    ghost laws = { Prim.search (comparing, rules) };
}

impl<P: Copy> Ord for Entry<P> {
    ghost cmp = { entry_cmp };

    ghost total = { Prim.search (comparing, rules) };

    ghost matches_partial_cmp = { Prim.search (comparing, rules) };

    ghost matches_eq = { Prim.search (comparing, rules) };

    fn cmp(&self, other: &Entry<P>) -> Ordering {
        other.event.key.cmp(&self.event.key)
    }
}

impl<P: Copy> PartialOrd for Entry<P> {
    ghost partial_cmp = { as_partial_cmp entry_cmp };

    ghost laws = { partial_order_from_own_ties (Prim.search (comparing, rules)) (Prim.search (comparing, rules)) };

    fn partial_cmp(&self, other: &Entry<P>) -> Option<Ordering> {
        Some(self.cmp(other))
    }
}
