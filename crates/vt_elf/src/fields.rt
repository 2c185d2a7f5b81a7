//! The numbers in an ELF file.

ghost use Rattle.std.specs.Prelude.{◌≡◌, ◌+◌, ◌≤◌, length, nat_le};
ghost use Rattle.vt_elf.specs.promise.Fields.{half_at, word_at, double_at};

/// The number of two bytes at an offset, the low byte first.
#[tactic(auto, unfolding(crate::specs::promise::Fields::half_at))]
pub(crate) fn half_at(bytes: &[u8], at: usize) -> u16
    requires { at + 2 ≤ length bytes.now }
    ensures { result ≡ half_at bytes.now at }
{
    u16::from_le_bytes([bytes[at], bytes[at + 1]])
}

/// The number of four bytes at an offset, the low byte first.
#[tactic(auto, unfolding(crate::specs::promise::Fields::word_at))]
pub(crate) fn word_at(bytes: &[u8], at: usize) -> u32
    requires { at + 4 ≤ length bytes.now }
    ensures { result ≡ word_at bytes.now at }
{
    u32::from_le_bytes([bytes[at], bytes[at + 1], bytes[at + 2], bytes[at + 3]])
}

/// The number of eight bytes at an offset, the low byte first.
#[tactic(auto, unfolding(crate::specs::promise::Fields::double_at))]
pub(crate) fn double_at(bytes: &[u8], at: usize) -> u64
    requires { at + 8 ≤ length bytes.now }
    ensures { result ≡ double_at bytes.now at }
{
    u64::from(word_at(bytes, at)) + 0x1_0000_0000 * u64::from(word_at(bytes, at + 4))
}

/// Whether so many bytes from an offset on are whole in a file of `length` bytes.
pub(crate) fn is_inside(offset: u64, size: u64, length: usize) -> bool
    ensures { result ≡ nat_le (offset + size) length }
{
    offset <= length as u64 && size <= length as u64 - offset
}
