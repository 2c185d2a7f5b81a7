//! Numbers drawn by other laws than "each as likely as the others".

ghost use Rattle.std.specs.Prelude.{◌≡◌, ◌+◌, ◌^◌, ◌<◌, ◌≤◌, length};
ghost use Rattle.std.specs.List.{sum};
ghost use Rattle.vt_model.specs.declared.limits.TheConstants.{MAX_DRAWS};
ghost use Rattle.vt_model.specs.inside.Drawn.{drawn_in, stream_in, IsSameSource};
ghost use Rattle.vt_stream.specs.inside.Words.{word_of, moved};
ghost use Rattle.vt_parts.specs.inside.Drawing.{happens, chosen, weight_drawn, failures, tries};

use vt_model::Draws;

/// Draws a yes or no: true with a probability of `numerator / denominator`, to within 2^-32, and always if that is above 1. The denominator is from 1
/// to 2^32. It draws one word, for which there must be room ([`Draws::room`]).
pub fn bernoulli(draws: &mut Draws<'_>, numerator: u64, denominator: u64) -> bool
    requires room { drawn_in draws.old < MAX_DRAWS }
    requires low { 1 ≤ denominator }
    requires high { denominator ≤ 2 ^ 32 }
    ensures value { result ≡ happens (word_of (stream_in draws.old) 0) numerator denominator }
    ensures same_reference { IsSameSource draws.old draws.new }
    ensures stream { stream_in draws.new ≡ moved (stream_in draws.old) 1 }
    ensures drawn { drawn_in draws.new ≡ drawn_in draws.old + 1 }
{
    draws.below(denominator) < numerator
}

/// Draws an index of `weights`, each with a probability proportional to its weight. The sum of the weights is from 1 to 2^32. It draws
/// one word, for which there must be room ([`Draws::room`]).
pub fn weighted(draws: &mut Draws<'_>, weights: &[u32]) -> usize
    requires room { drawn_in draws.old < MAX_DRAWS }
    requires low { 1 ≤ sum weights.now }
    requires high { sum weights.now ≤ 2 ^ 32 }
    ensures value { result ≡ weight_drawn weights.now (word_of (stream_in draws.old) 0) }
    ensures within { result < length weights.now }
    ensures same_reference { IsSameSource draws.old draws.new }
    ensures stream { stream_in draws.new ≡ moved (stream_in draws.old) 1 }
    ensures drawn { drawn_in draws.new ≡ drawn_in draws.old + 1 }
{
    let point = draws.below(total(weights));
    index_at(weights, point)
}

// The sum of the weights.
fn total(weights: &[u32]) -> u64
    requires { sum weights.now ≤ 2 ^ 32 }
    ensures { result ≡ sum weights.now }
{
    let mut sum = 0;
    'weights: for weight in weights {
        sum += u64::from(*weight);
    }
    sum
}

// The index of the weight to which a point below their sum belongs, where they lie one behind the other.
fn index_at(weights: &[u32], point: u64) -> usize
    ensures { result ≡ chosen weights.now point }
{
    let mut left = point;
    let mut index = 0;
    'weights: for weight in weights {
        if left < u64::from(*weight) {
            break;
        }
        left -= u64::from(*weight);
        index += 1;
    }
    index
}

/// Draws the number of failures before the first success. Each try succeeds with a probability of `numerator / denominator`, whose
/// denominator is from 1 to 2^32. There are at most `limit` tries, at least 1. If all fail, the answer is `limit`.
///
/// It draws a word for each try: one more than the answer, but no more than `limit`. There must be room for `limit` words.
pub fn geometric(draws: &mut Draws<'_>, numerator: u64, denominator: u64, limit: u32) -> u32
    requires some { 1 ≤ limit }
    requires room { drawn_in draws.old + limit ≤ MAX_DRAWS }
    requires low { 1 ≤ denominator }
    requires high { denominator ≤ 2 ^ 32 }
    ensures value { result ≡ failures (word_of (stream_in draws.old)) numerator denominator limit }
    ensures same_reference { IsSameSource draws.old draws.new }
    ensures stream { stream_in draws.new ≡ moved (stream_in draws.old) (tries (word_of (stream_in draws.old)) numerator denominator limit) }
    ensures drawn { drawn_in draws.new ≡ drawn_in draws.old + tries (word_of (stream_in draws.old)) numerator denominator limit }
{
    'tries: for failed in 0..limit {
        if bernoulli(draws, numerator, denominator) {
            return failed;
        }
    }
    limit
}
