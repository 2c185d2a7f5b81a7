//! Counts of values by their size.

ghost use Rattle.std.specs.Prelude.{◌≡◌, ◌+◌, ◌%◌, ◌^◌, ◌<◌, ℕ};
ghost use Rattle.vt_parts.specs.inside.Histogram.{IsHistogram, empty_histogram, counted, uncounted, total, count_in, count_beyond};

/// How many values fell into each of `N` bins of one width, and how many lay beyond them. Its counts are modulo 2^64.
#[derive(Debug, Clone, Copy, PartialEq, Eq)]
pub struct Histogram<const N: usize> {
    width: u64,
    bins: [u64; N],
    beyond: u64,
}

impl<const N: usize> Histogram<N> {
    /// A histogram of nothing yet. Bin `i` is for the values from `i * width` on, up to the next bin. A width of 0 counts as 1.
    pub fn new(width: u64) -> Self
        ensures { result ≡ empty_histogram width }
    {
        Histogram {
            width,
            bins: [0; N],
            beyond: 0,
        }
    }

    /// Counts a value.
    pub fn count(&mut self, value: u64)
        ensures { self.new ≡ counted self.old value }
    {
        let bin = (value / self.width.max(1)) as usize;
        if bin < N {
            self.bins[bin] = self.bins[bin].wrapping_add(1);
        } else {
            self.beyond = self.beyond.wrapping_add(1);
        }
    }

    /// Undoes [`Histogram::count`] of the same value.
    pub fn uncount(&mut self, value: u64)
        ensures { self.new ≡ uncounted self.old value }
    {
        let bin = (value / self.width.max(1)) as usize;
        if bin < N {
            self.bins[bin] = self.bins[bin].wrapping_sub(1);
        } else {
            self.beyond = self.beyond.wrapping_sub(1);
        }
    }

    /// How many values fell into this bin. It is 0 where there is no such bin.
    pub fn bin(&self, bin: usize) -> u64
        ensures { result ≡ count_in self.now bin }
    {
        self.bins.get(bin).copied().unwrap_or(0)
    }

    /// How many values lay beyond all bins.
    pub fn beyond(&self) -> u64
        ensures { result ≡ count_beyond self.now }
    {
        self.beyond
    }

    /// How many values were counted.
    pub fn total(&self) -> u64
        ensures { result ≡ total self.now }
    {
        let mut total = self.beyond;
        'bins: for count in self.bins.iter() {
            total = total.wrapping_add(*count);
        }
        total
    }
}

/// What a histogram's calls mean, for each number of bins: `uncount` gives the very histogram that was there before `count` of the
/// same value, and each count adds one to the total.
pub fn histograms_count<const N: usize>()
    ensures begins { (width : ℕ) → IsHistogram (empty_histogram {N = N} width) }
    ensures stays { (h : Histogram N) (value : ℕ) → IsHistogram h → IsHistogram (counted h value) }
    ensures undone { (h : Histogram N) (value : ℕ) → IsHistogram h → uncounted (counted h value) value ≡ h }
    ensures total { (h : Histogram N) (value : ℕ) → IsHistogram h → total (counted h value) ≡ (total h + 1) % 2 ^ 64 }
{}
