//! Bits of words, numbered from the lowest one of the first word.

ghost use Rattle.std.specs.Prelude.{◌≡◌, ◌≢◌, ℕ, ◌*◌, ◌/◌, ◌<◌, ◌≤◌, ◌^◌, length, slice_set, true, false, IfSome, IfNone};
ghost use Rattle.vt_marks.specs.inside.Bits.{is_one, is_set, AreSums};

/// The word with bit `bit`, which is below 64, set or cleared.
fn with_bit(word: u64, bit: u32, value: bool) -> u64
    requires { bit < 64 }
    ensures own { is_one result bit ≡ value }
    ensures others { (other : ℕ) → other < 64 → other ≢ bit → is_one result other ≡ is_one word other }
{
    let one = 1 << bit;
    if value { word | one } else { word & !one }
}

/// The first set bit of a word at or after bit `from`, which is below 64.
pub(crate) fn first_one(word: u64, from: u32) -> Option<u32>
    requires { from < 64 }
    ensures set { IfSome result (λ bit. (from ≤ bit) × (bit < 64) × (is_one word bit ≡ true)) }
    ensures first { IfSome result (λ bit. (other : ℕ) → from ≤ other → other < bit → is_one word other ≡ false) }
    ensures nothing { IfNone result ((other : ℕ) → from ≤ other → other < 64 → is_one word other ≡ false) }
{
    let rest = word & (u64::MAX << from);
    if rest == 0 {
        return None;
    }
    Some(rest.trailing_zeros())
}

/// Sets or clears bit `index`, and returns the word that holds it afterwards.
pub(crate) fn write(words: &mut [u64], index: usize, value: bool) -> u64
    requires { index / 64 < length words.old }
    ensures word { words.new ≡ slice_set words.old (index / 64) result }
    ensures own { is_set words.new index ≡ value }
    ensures others { (other : ℕ) → other ≢ index → is_set words.new other ≡ is_set words.old other }
{
    let word = with_bit(words[index / 64], (index % 64) as u32, value);
    words[index / 64] = word;
    word
}

/// The first set bit at or after `from`; None if there is none.
pub(crate) fn first_set(words: &[u64], from: usize) -> Option<usize>
    requires { length words.now ≤ 2 ^ 58 }
    ensures set { IfSome result (λ index. (from ≤ index) × (is_set words.now index ≡ true)) }
    ensures first { IfSome result (λ index. (other : ℕ) → from ≤ other → other < index → is_set words.now other ≡ false) }
    ensures nothing { IfNone result ((other : ℕ) → from ≤ other → is_set words.now other ≡ false) }
{
    let mut bit = (from % 64) as u32;
    for at in from / 64..words.len() {
        if let Some(bit) = first_one(words[at], bit) {
            return Some(at * 64 + bit as usize);
        }
        bit = 0;
    }
    None
}

/// As [`first_set`], where `sums` tells which words have a set bit: the other words aren't read.
pub(crate) fn first_of_sums(words: &[u64], sums: &[u64], from: usize) -> Option<usize>
    requires few { length words.now ≤ 2 ^ 58 }
    requires few_sums { length sums.now ≤ 2 ^ 58 }
    requires sums { AreSums words.now sums.now }
    ensures set { IfSome result (λ index. (from ≤ index) × (is_set words.now index ≡ true)) }
    ensures first { IfSome result (λ index. (other : ℕ) → from ≤ other → other < index → is_set words.now other ≡ false) }
    ensures nothing { IfNone result ((other : ℕ) → from ≤ other → is_set words.now other ≡ false) }
{
    let at = from / 64;
    let Some(word) = words.get(at) else {
        return None;
    };
    if let Some(bit) = first_one(*word, (from % 64) as u32) {
        return Some(at * 64 + bit as usize);
    }
    let Some(next) = first_set(sums, at + 1) else {
        return None;
    };
    Some(next * 64 + words[next].trailing_zeros() as usize)
}
