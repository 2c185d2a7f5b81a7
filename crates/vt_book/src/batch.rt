//! Rows that are prepared to be handed in together.

ghost use Rattle.std.specs.Prelude.{◌≡◌, List, length, IfOk, IfErr};
ghost use Rattle.vt_key.specs.declared.fault.Fault.TheVariants.{Memory};
ghost use Rattle.vt_model.specs.declared.rows.Row.{Row as RowValue};
ghost use Rattle.std.specs.List.{list_all};
ghost use Rattle.vt_steps.specs.inside.Rows.{AreSameRows};
ghost use Rattle.vt_book.specs.inside.Books.{is_within};
ghost use Rattle.vt_book.specs.inside.Runs.{AreRising};

use crate::order::put_in_order;
use std::alloc::Global;
use std::marker::Model;
use vt_key::{Fault, Seen, When};
use vt_model::Row;

/// Rows that a worker is going to hand in. Contracts see a list of them; the batch holds the same rows, each as often, in rising order.
///
/// A batch is made without the book, and a hand-in moves none of its rows. It may go to another thread.
#[derive(Drop)]
pub struct Batch {
    told: Seen<Row>,
    rows: Vec<Row>,
}

impl Model for Batch {
    ghost use Rattle.std.specs.Prelude.{List};
    ghost use Rattle.vt_model.specs.declared.rows.Row.{Row};
    ghost use Rattle.vt_book.specs.inside.Runs.{IsPrepared};

    ghost Value = { List Row };

    ghost view = { λ b. b.told.items };

    ghost invariant = { λ b. IsPrepared b.told.items b.rows.items };
}

impl Batch {
    /// A batch of copies of these rows, which may come in any order.
    ///
    /// [`Fault::Memory`]: memory was refused.
    pub fn new(alloc: Global, rows: &[Row]) -> Result<Batch, Fault>
        ensures rows { IfOk result (λ batch. batch ≡ rows.now) }
        ensures refused { IfErr result (λ fault. fault ≡ Memory) }
    {
        let Ok(rows) = Vec::from_slice(alloc, rows) else {
            return Err(Fault::Memory);
        };
        Ok(Batch::of(rows))
    }

    /// A batch of these rows themselves, which may come in any order. It takes no memory.
    pub fn of(rows: Vec<Row>) -> Batch
        ensures { result ≡ rows.items }
    {
        Batch::in_any_order(rows)
    }

    /// A batch of these rows themselves, which contracts see in another order. The caller picks the list that they see. It takes no
    /// memory.
    pub fn in_any_order(rows: Vec<Row>) -> Batch
        ghost told: { List RowValue }
        requires { AreSameRows told rows.items }
        ensures { result ≡ told }
    {
        let mut rows = rows;
        put_in_order(&mut rows);
        Batch {
            told: Seen::picked(),
            rows,
        }
    }

    /// How many rows there are.
    pub fn len(&self) -> usize
        ensures { result ≡ length self.now }
    {
        self.rows.len()
    }

    /// Whether the times of all rows are at least `from` and below `to`.
    pub(crate) fn is_within(&self, from: When, to: When) -> bool
        ensures { result ≡ list_all (is_within from to) self.now }
    {
        let Some(first) = self.rows.first() else {
            return true;
        };
        let Some(last) = self.rows.last() else {
            return true;
        };
        from <= first.key.when() && last.key.when() < to
    }

    /// The rows in rising order, taken out of the batch.
    pub(crate) fn into_rows(self) -> Vec<Row>
        ensures same { AreSameRows self result.items }
        ensures rising { AreRising result.items }
    {
        self.rows
    }
}
