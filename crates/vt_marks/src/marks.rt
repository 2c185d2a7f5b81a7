//! The marks.

ghost use Rattle.std.specs.Prelude.{◌≡◌, ℕ, ◌<◌, ◌≤◌, false, replicate, slice_get, slice_set, Some, true, IfSome, IfNone, IfOk};

use crate::bits::{first_of_sums, write};
use std::alloc::{AllocError, Global};
use std::marker::Model;

/// Marks of the indices from 0 to below a fixed count. Contracts see a list with a flag for each index. Only
/// [`Marks::new`] takes memory.
///
/// Each index has a bit. A second level has a bit for each word of 64 indices, which is set if one of them is marked.
/// So a visit of the marked indices skips the others quickly.
#[derive(Drop)]
pub struct Marks {
    count: usize,
    words: Vec<u64>,
    sums: Vec<u64>,
}

impl Model for Marks {
    ghost use Rattle.std.specs.Prelude.{List, Bool};
    ghost use Rattle.vt_marks.specs.inside.Bits.{marks_of, AreKept};

    ghost Value = { List Bool };

    ghost view = { λ m. marks_of m.count m.words.items };

    ghost invariant = { λ m. AreKept m.count m.words.items m.sums.items };
}

impl Marks {
    /// Marks of `count` indices, none of them marked. An error means that memory was refused.
    pub fn new(alloc: Global, count: usize) -> Result<Marks, AllocError>
        ensures { IfOk result (λ marks. marks ≡ replicate count false) }
    {
        let words = vec![in alloc; 0; count.div_ceil(64)]?;
        let sums = vec![in alloc; 0; words.len().div_ceil(64)]?;
        Ok(Marks { count, words, sums })
    }

    /// Marks `index`, or takes its mark away. Does nothing if `index` is `count` or more.
    pub fn set(&mut self, index: usize, value: bool)
        ensures { self.new ≡ slice_set self.old index value }
    {
        if index >= self.count {
            return;
        }
        let word = write(&mut self.words, index, value);
        write(&mut self.sums, index / 64, word != 0);
    }

    /// The first marked index at or after `index`; None if there is none.
    pub fn first_from(&self, index: usize) -> Option<usize>
        ensures marked { IfSome result (λ first. (index ≤ first) × (slice_get self.now first ≡ Some true)) }
        ensures first { IfSome result (λ first. (other : ℕ) → index ≤ other → other < first → slice_get self.now other ≡ Some true → ⊥) }
        ensures nowhere { IfNone result ((other : ℕ) → index ≤ other → slice_get self.now other ≡ Some true → ⊥) }
    {
        first_of_sums(&self.words, &self.sums, index)
    }
}
