ghost use Rattle.std.specs.Prelude.{◌≡◌, ◌+◌, ◌^◌, ◌<◌, ◌≤◌, ◌∷◌, ◌++◌, [], List, ℕ, count_by, length, nat_le, slice_index, slice_set, sum, take};
ghost use Rattle.rld_counts.specs.Histogram.{bucket_of, times_of};
ghost use Rattle.rld_counts.specs.Tally.{kept};

use crate::tally;
use std::marker::Model;

/// The number of buckets. The bound of bucket n is 2^n microseconds, up to 2^23; the last bucket
/// has no bound.
pub const BUCKETS: usize = 25;

/// How long answers took: the number of times in each bucket, and their sum. A time is in the first
/// bucket whose bound is at least as great. A number stops at 2^64 - 1.
#[derive(Clone, Copy)]
pub struct Histogram {
    counters: [u64; BUCKETS],
    micros: u64,
}

impl Model for Histogram {
    ghost use Rattle.std.specs.Prelude.{◌≡◌, length};
    ghost use Rattle.rld_counts.specs.Histogram.{Times};

    ghost Value = { Times };

    ghost view = { λ it. record { buckets = it.counters; micros = it.micros } };

    ghost invariant = { λ it. length it.counters ≡ 25 };

    ghost inverse = { λ times. record { counters = times.buckets; micros = times.micros } };
}

impl Histogram {
    /// An empty histogram.
    #[tactic(auto, unfolding(crate::specs::Tally::tally_of, crate::specs::Tally::how_many))]
    pub fn new() -> Histogram
        ensures { result ≡ times_of [] }
    {
        Histogram {
            counters: [0; BUCKETS],
            micros: 0,
        }
    }

    /// Counts a time in microseconds.
    pub fn note(&mut self, micros: u64)
        ensures bucket { self.new.buckets ≡ slice_set self.old.buckets (bucket_of micros)
            (kept (slice_index self.old.buckets (bucket_of micros) + 1)) }
        ensures sum { self.new.micros ≡ kept (self.old.micros + micros) }
        ensures noted { (times : List ℕ) → self.old ≡ times_of times →
            self.new ≡ times_of (times ++ micros ∷ []) }
    {
        tally::note(&mut self.counters, bucket_of(micros));
        self.micros = self.micros.saturating_add(micros);
    }

    /// The number of times of at most 2^bucket microseconds: those of this bucket and of all before
    /// it.
    pub fn up_to(&self, bucket: usize) -> u64
        requires { bucket < 24 }
        ensures sum { result ≡ kept (sum (take (bucket + 1) self.now.buckets)) }
        ensures noted { (times : List ℕ) → self.now ≡ times_of times →
            result ≡ kept (count_by (λ micros. nat_le micros (2 ^ bucket)) times) }
    {
        tally::sum(&self.counters[..bucket + 1])
    }

    /// The number of times.
    pub fn samples(&self) -> u64
        ensures sum { result ≡ kept (sum self.now.buckets) }
        ensures noted { (times : List ℕ) → self.now ≡ times_of times →
            result ≡ kept (length times) }
    {
        tally::sum(&self.counters)
    }

    /// The sum of the times in microseconds.
    pub fn micros(&self) -> u64
        ensures { result ≡ self.now.micros }
    {
        self.micros
    }

    /// Adds other times.
    pub fn add(&mut self, other: &Histogram)
        ensures joined { (times others : List ℕ) → self.old ≡ times_of times →
            other.now ≡ times_of others → self.new ≡ times_of (times ++ others) }
    {
        tally::add(&mut self.counters, &other.counters);
        self.micros = self.micros.saturating_add(other.micros);
    }
}

/// The bound of a bucket in microseconds: 2^bucket.
#[tactic(auto, using(std::proofs::lemmas::Nat::one_shl))]
pub fn bound_of(bucket: usize) -> u64
    requires { bucket < 24 }
    ensures { result ≡ 2 ^ bucket }
{
    1 << bucket
}

/// The bucket of a time in microseconds: the exponent of the least power of two that is at least as
/// great, or 24 if the time is over 2^23.
#[tactic(auto, using(crate::proofs::Timing::bucket_is, crate::proofs::Timing::bucket_last))]
fn bucket_of(micros: u64) -> usize
    ensures bucket { result ≡ bucket_of micros }
    ensures below { result < 25 }
    ensures fits { result < 24 → micros ≤ 2 ^ result }
    ensures least { (k : ℕ) → k < result → 2 ^ k < micros }
{
    for bucket in 0..BUCKETS - 1 {
        if micros <= bound_of(bucket) {
            return bucket;
        }
    }
    BUCKETS - 1
}
