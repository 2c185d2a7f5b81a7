//! A run of rows.

ghost use Rattle.std.specs.Prelude.{◌≡◌, ◌<◌, None, Some, length, MatchOption, vec_len, vec_capacity};
ghost use Rattle.std.specs.Ordering.{as_partial_cmp, eq_by_cmp};
ghost use Rattle.std.specs.Cmp.{partial_equiv_from_equiv, eq_by_cmp_equiv, partial_order_from_total};
ghost use Rattle.std.specs.Cmp.Rules.{comparing};
ghost use Rattle.std.proofs.Common.{rules};
ghost use Rattle.vt_book.specs.inside.Runs.{run_cmp, run_total, run_rows, first_row, IsShown};

use crate::order::compare;
use std::cmp::Ordering;
use vt_model::{Record, Row};

/// Rows in rising order, the first of which may be shown. Runs compare in reverse by the first rows that aren't: so the run that comes
/// next is the greatest.
#[derive(Drop)]
pub(crate) struct Run {
    rows: Vec<Row>,
    /// How many are shown.
    begin: usize,
}

impl PartialEq for Run {
    ghost eq = { eq_by_cmp run_cmp };

    ghost laws = { partial_equiv_from_equiv (eq_by_cmp_equiv run_total) };

    fn eq(&self, other: &Run) -> bool {
        self.cmp(other).is_eq()
    }
}

impl Eq for Run {
    ghost laws = { eq_by_cmp_equiv run_total };
}

impl Ord for Run {
    ghost cmp = { run_cmp };

    ghost total = { run_total };

    ghost matches_partial_cmp = { Prim.search (comparing, rules) };

    ghost matches_eq = { Prim.search (comparing, rules) };

    fn cmp(&self, other: &Run) -> Ordering {
        let Some(row) = other.first() else {
            return match self.first() {
                Some(_) => Ordering::Less,
                None => Ordering::Equal,
            };
        };
        let Some(own) = self.first() else {
            return Ordering::Greater;
        };
        compare(row, own)
    }
}

impl PartialOrd for Run {
    ghost partial_cmp = { as_partial_cmp run_cmp };

    ghost laws = { partial_order_from_total run_total };

    fn partial_cmp(&self, other: &Run) -> Option<Ordering> {
        Some(self.cmp(other))
    }
}

impl Run {
    /// A run of these rows, none of which is shown.
    pub(crate) fn new(rows: Vec<Row>) -> Run
        ensures { (result.begin ≡ 0) × (result.rows.items ≡ rows.items) }
    {
        Run { rows, begin: 0 }
    }

    /// How many rows aren't shown.
    pub(crate) fn len(&self) -> usize
        ensures { result ≡ length (run_rows self.now) }
    {
        self.rows.len().saturating_sub(self.begin)
    }

    /// The first row that isn't shown.
    pub(crate) fn first(&self) -> Option<&Row>
        ensures { MatchOption result (first_row self.now ≡ None) (λ row. first_row self.now ≡ Some row.now) }
    {
        self.rows.get(self.begin)
    }

    /// Shows the first row, which must be there.
    pub(crate) fn show_first(&mut self, shown: &mut Vec<Record>)
        requires some { self.old.begin < length self.old.rows.items }
        requires room { vec_len shown.old < vec_capacity shown.old }
        ensures shown { IsShown self.old shown.old.items self.new shown.new.items }
        ensures capacity { vec_capacity shown.new ≡ vec_capacity shown.old }
    {
        let row = &self.rows[self.begin];
        shown.push_reserved(row.rec);
        self.begin += 1;
    }
}
