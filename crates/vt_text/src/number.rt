//! Numbers as text.

ghost use Rattle.std.specs.Prelude.{◌≡◌, ◌^◌, ◌<◌, ℕ, Some};
ghost use Rattle.std.specs.Fmt.{decimal};
ghost use Rattle.vt_text.specs.promise.Numbers.{number_said};

/// The most digits of a number.
pub const NUMBER_LEN: usize = 20;

/// The most digits of a priority.
pub const PRIORITY_LEN: usize = 3;

/// The number that a text of 1 to 20 decimal digits has, where it is below 2^64; else `None`. Nothing but digits is taken:
/// no sign, no space, no separator.
pub fn read_number(text: &[u8]) -> Option<u64>
    ensures { result ≡ number_said text.now }
{
    if text.is_empty() || text.len() > NUMBER_LEN {
        return None;
    }
    let mut value = 0u64;
    for byte in text {
        if !byte.is_ascii_digit() {
            return None;
        }
        value = value.checked_mul(10)?.checked_add(u64::from(*byte - b'0'))?;
    }
    Some(value)
}

/// What is printed as a number is read as that number.
pub fn numbers_are_read_back()
    ensures { (n : ℕ) → n < 2 ^ 64 → number_said (decimal n) ≡ Some n }
{}
