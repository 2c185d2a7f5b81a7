//! What instructions compute of two numbers.

ghost use Rattle.std.specs.Prelude.{◌≡◌, IsTrue, ◌↔◌};
ghost use Rattle.std.specs.Int.{w32, w64};
ghost use Rattle.vt_riscv.specs.promise.Arithmetic.{low, sign_extended, sum_of_words, difference_of_words, right_signed, left_of_word, right_of_word, right_signed_of_word, less_signed, product_of_words, doubled, upper_signed, upper_mixed, upper_unsigned, quotient, rest, quotient_signed, rest_signed, quotient_of_words, rest_of_words, signed_quotient_of_words, signed_rest_of_words};

// The low 32 bits of a number.
#[inline]
fn low(x: u64) -> u32
    ensures { result ≡ low x }
{
    (x % 0x1_0000_0000) as u32
}

// A 32-bit number as 64 bits, by its sign.
#[inline]
fn sign_extended(x: u32) -> u64
    ensures { result ≡ sign_extended x }
{
    i64::from(x.cast_signed()).cast_unsigned()
}

#[inline]
pub(crate) fn sum_of_words(x: u64, y: u64) -> u64
    ensures { result ≡ sum_of_words x y }
{
    sign_extended(low(x).wrapping_add(low(y)))
}

#[inline]
pub(crate) fn difference_of_words(x: u64, y: u64) -> u64
    ensures { result ≡ difference_of_words x y }
{
    sign_extended(low(x).wrapping_sub(low(y)))
}

/// A number shifted to the right, with copies of its sign.
#[inline]
pub(crate) fn right_signed(x: u64, by: u64) -> u64
    ensures { result ≡ right_signed x by }
{
    (x.cast_signed() >> (by % 64)).cast_unsigned()
}

#[inline]
pub(crate) fn left_of_word(x: u64, by: u64) -> u64
    ensures { result ≡ left_of_word x by }
{
    sign_extended(low(x) << (by % 32))
}

#[inline]
pub(crate) fn right_of_word(x: u64, by: u64) -> u64
    ensures { result ≡ right_of_word x by }
{
    sign_extended(low(x) >> (by % 32))
}

#[inline]
pub(crate) fn right_signed_of_word(x: u64, by: u64) -> u64
    ensures { result ≡ right_signed_of_word x by }
{
    sign_extended((low(x).cast_signed() >> (by % 32)).cast_unsigned())
}

/// Whether one number is less than another, read with a sign.
#[inline]
pub(crate) fn less_signed(x: u64, y: u64) -> bool
    ensures { result ≡ less_signed x y }
{
    x.cast_signed() < y.cast_signed()
}

#[inline]
pub(crate) fn product_of_words(x: u64, y: u64) -> u64
    ensures { result ≡ product_of_words x y }
{
    sign_extended(low(x).wrapping_mul(low(y)))
}

/// A number as 128 bits, by its sign.
#[inline]
fn doubled(x: u64) -> u128
    ensures { result ≡ doubled x }
{
    i128::from(x.cast_signed()).cast_unsigned()
}

/// The upper half of the product of numbers with signs.
#[inline]
pub(crate) fn upper_signed(x: u64, y: u64) -> u64
    ensures { result ≡ upper_signed x y }
{
    (doubled(x).wrapping_mul(doubled(y)) / 0x1_0000_0000_0000_0000) as u64
}

/// The upper half of the product of a number with a sign and one without.
#[inline]
pub(crate) fn upper_mixed(x: u64, y: u64) -> u64
    ensures { result ≡ upper_mixed x y }
{
    (doubled(x).wrapping_mul(u128::from(y)) / 0x1_0000_0000_0000_0000) as u64
}

/// The upper half of the product of numbers without signs.
#[inline]
pub(crate) fn upper_unsigned(x: u64, y: u64) -> u64
    ensures { result ≡ upper_unsigned x y }
{
    (u128::from(x) * u128::from(y) / 0x1_0000_0000_0000_0000) as u64
}

/// A quotient, which is all ones where the divisor is zero.
#[inline]
pub(crate) fn quotient(x: u64, y: u64) -> u64
    ensures { result ≡ quotient w64 x y }
{
    if y == 0 { u64::MAX } else { x / y }
}

/// What a division leaves: the dividend where the divisor is zero.
#[inline]
pub(crate) fn rest(x: u64, y: u64) -> u64
    ensures { result ≡ rest x y }
{
    if y == 0 { x } else { x % y }
}

#[inline]
pub(crate) fn quotient_signed(x: u64, y: u64) -> u64
    ensures { result ≡ quotient_signed w64 x y }
{
    if y == 0 {
        u64::MAX
    } else {
        x.cast_signed()
            .wrapping_div(y.cast_signed())
            .cast_unsigned()
    }
}

#[inline]
pub(crate) fn rest_signed(x: u64, y: u64) -> u64
    ensures { result ≡ rest_signed w64 x y }
{
    if y == 0 {
        x
    } else {
        x.cast_signed()
            .wrapping_rem(y.cast_signed())
            .cast_unsigned()
    }
}

// A quotient of words, which is all ones where the divisor is zero.
#[inline]
fn word_quotient(x: u32, y: u32) -> u32
    ensures { result ≡ quotient w32 x y }
{
    if y == 0 { u32::MAX } else { x / y }
}

#[inline]
fn word_rest(x: u32, y: u32) -> u32
    ensures { result ≡ rest x y }
{
    if y == 0 { x } else { x % y }
}

#[inline]
fn signed_word_quotient(x: u32, y: u32) -> u32
    ensures { result ≡ quotient_signed w32 x y }
{
    if y == 0 {
        u32::MAX
    } else {
        x.cast_signed()
            .wrapping_div(y.cast_signed())
            .cast_unsigned()
    }
}

#[inline]
fn signed_word_rest(x: u32, y: u32) -> u32
    ensures { result ≡ rest_signed w32 x y }
{
    if y == 0 {
        x
    } else {
        x.cast_signed()
            .wrapping_rem(y.cast_signed())
            .cast_unsigned()
    }
}

#[inline]
pub(crate) fn quotient_of_words(x: u64, y: u64) -> u64
    ensures { result ≡ quotient_of_words x y }
{
    sign_extended(word_quotient(low(x), low(y)))
}

#[inline]
pub(crate) fn rest_of_words(x: u64, y: u64) -> u64
    ensures { result ≡ rest_of_words x y }
{
    sign_extended(word_rest(low(x), low(y)))
}

#[inline]
pub(crate) fn signed_quotient_of_words(x: u64, y: u64) -> u64
    ensures { result ≡ signed_quotient_of_words x y }
{
    sign_extended(signed_word_quotient(low(x), low(y)))
}

#[inline]
pub(crate) fn signed_rest_of_words(x: u64, y: u64) -> u64
    ensures { result ≡ signed_rest_of_words x y }
{
    sign_extended(signed_word_rest(low(x), low(y)))
}
