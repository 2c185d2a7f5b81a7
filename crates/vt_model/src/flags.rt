//! The flags that a handler leaves for its reverse.

ghost use Rattle.std.specs.Prelude.{◌≡◌, ◌<◌, ◌^◌, IsTrue, ◌↔◌, IsBitSet, bit_or};

/// Thirty-two flags by which `forward` tells `reverse` which way it went. They are clear when `forward` begins, and are
/// stored with its event.
#[derive(Debug, Clone, Copy, PartialEq, Eq)]
pub struct Bits {
    /// The flags as one number: flag `i` is worth 2^i.
    pub flags: u32,
}

impl Bits {
    /// All flags clear.
    pub fn new() -> Bits
        ensures { result.flags ≡ 0 }
    {
        Bits { flags: 0 }
    }

    /// Sets flag `i`, which is below 32. The others stay.
    pub fn set(&mut self, i: u32)
        requires { i < 32 }
        ensures { self.new.flags ≡ bit_or self.old.flags (2 ^ i) }
    {
        self.flags |= 1 << i;
    }

    /// Whether flag `i`, which is below 32, is set.
    pub fn get(&self, i: u32) -> bool
        requires { i < 32 }
        ensures { IsTrue result ↔ IsBitSet self.now.flags i }
    {
        self.flags & (1 << i) != 0
    }
}
