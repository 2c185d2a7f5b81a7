//! The lists that aren't empty, as one word.

ghost use Rattle.std.specs.Prelude.{◌≡◌, ◌<◌, ◌^◌, ◌↔◌, bit_or, bit_xor, IsBitSet, IsTrue};

/// A set of some of the 64 lists, as one word: bit b is set if list b is in it.
#[derive(Clone, Copy)]
pub(crate) struct Mask {
    pub(crate) bits: u64,
}

impl Mask {
    /// The empty set.
    pub(crate) fn new() -> Mask
        ensures { result.bits ≡ 0 }
    {
        Mask { bits: 0 }
    }

    /// Whether list `b` is in the set.
    pub(crate) fn has(&self, b: u32) -> bool
        requires { b < 64 }
        ensures { IsTrue result ↔ IsBitSet self.now.bits b }
    {
        self.bits & (1 << b) != 0
    }

    /// The set with list `b`.
    pub(crate) fn with(self, b: u32) -> Mask
        requires { b < 64 }
        ensures { result.bits ≡ bit_or self.bits (2 ^ b) }
    {
        Mask {
            bits: self.bits | (1 << b),
        }
    }

    /// The set without list `b`, which must be in it.
    pub(crate) fn without(self, b: u32) -> Mask
        requires { b < 64 }
        ensures { result.bits ≡ bit_xor self.bits (2 ^ b) }
    {
        Mask {
            bits: self.bits ^ (1 << b),
        }
    }
}
