//! The right to use blocks of memory, apart from the pointers that lead to them.

ghost use Rattle.std.specs.Prelude.{◌≡◌, ℕ, ◌<◌, List, [], ◌∷◌, ◌++◌, take, drop, length, slice_index_or};
ghost use denote.RawPtr.{Ptr};
ghost use Rattle.vt_nodes.specs.inside.Blocks.{blocks_owned, blocks_lent, addresses, contents, address_at};
ghost use Rattle.vt_nodes.specs.inside.Address.{IsSomewhere};

use std::alloc::Global;
use std::marker::{Model, PhantomData};

/// Some blocks of the allocator `Global`, in order, each with its address and content. A value of this type takes no
/// space: it is the right to use these blocks and to free them, and knows nothing of the pointers among them.
///
/// It is not `Drop`, so code that loses a block is refused.
pub struct Blocks<N> {
    mark: PhantomData<*mut N>,
    /// Where each block lies, and what lies in it.
    pub ghost owned: { List (Ptr × N) },
}

impl<N> Model for Blocks<N> {
    ghost also_owns = { λ b. blocks_owned N.row b.owned };

    ghost also_shares = { λ b _ κ. blocks_lent N.row b.owned κ };
}

// Blocks of the allocator belong to no thread, so they may go to another one if their contents may.
unsafe impl<N: Send> Send for Blocks<N> {}

impl<N> Blocks<N> {
    /// No block.
    pub(crate) fn none() -> Blocks<N>
        ensures { result.owned ≡ [] }
    {
        Blocks { mark: PhantomData }
    }

    /// Ends a list without blocks.
    pub(crate) fn end(self)
        requires { self.owned ≡ [] }
    {
        let Blocks { mark: _ } = self;
    }

    /// The blocks of both, those of `other` last.
    pub(crate) fn append(self, other: Blocks<N>) -> Blocks<N>
        ensures { result.owned ≡ self.owned ++ other.owned }
    {
        let Blocks { mark: _ } = self;
        let Blocks { mark: _ } = other;
        Blocks { mark: PhantomData }
    }

    /// The first `count` blocks, and the others.
    pub(crate) fn split(self) -> (Blocks<N>, Blocks<N>)
        ghost count: { ℕ }
        ensures { (result.0.owned ≡ take count self.owned) × (result.1.owned ≡ drop count self.owned) }
    {
        let Blocks { mark: _ } = self;
        (Blocks { mark: PhantomData }, Blocks { mark: PhantomData })
    }

    /// The content of block `index`, which lies at `at`.
    pub fn get(&self, at: *mut N) -> &N
        ghost index: { ℕ }
        requires { (index < length self.now.owned) × (address_at self.now.owned index ≡ at) }
        ensures { result.now ≡ (slice_index_or self.now.owned index (at, result.now)).1 }
    {
        unsafe { &*at }
    }

    /// All but the first `count`, for as long as the blocks are lent.
    pub fn rest(&self) -> &Blocks<N>
        ghost count: { ℕ }
        ensures { result.now.owned ≡ drop count self.now.owned }
    {
        self.part()
    }

    /// The first `count`, for as long as the blocks are lent.
    pub fn front(&self) -> &Blocks<N>
        ghost count: { ℕ }
        ensures { result.now.owned ≡ take count self.now.owned }
    {
        self.part()
    }

    // The `range.1` blocks behind the first `range.0`, for as long as the blocks are lent.
    fn part(&self) -> &Blocks<N>
        ghost range: { ℕ × ℕ }
        ensures { result.now.owned ≡ take range.1 (drop range.0 self.now.owned) }
    {
        self
    }

    /// The one block, which lies at `at`, as a box.
    pub(crate) fn into_box(self, at: *mut N, alloc: Global) -> Box<N>
        requires { addresses self.owned ≡ at ∷ [] }
        ensures { contents self.owned ≡ result.value ∷ [] }
    {
        let Blocks { mark: _ } = self;
        unsafe { Box::from_raw(alloc, at) }
    }
}

impl<N: Drop> Blocks<N> {
    /// The block of a box, and where it lies.
    pub(crate) fn from_box(content: Box<N>) -> (Blocks<N>, *mut N)
        ensures block { result.0.owned ≡ (result.1, content.value) ∷ [] }
        ensures somewhere { IsSomewhere result.1 }
    {
        let at = Box::into_raw(content);
        (Blocks { mark: PhantomData }, at)
    }
}
