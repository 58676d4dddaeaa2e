//! How long calls took.

ghost use Rattle.std.specs.Prelude.{◌≡◌, ℕ, ◌+◌, ◌-◌, ◌*◌, ◌<◌, ◌≤◌, ◌^◌, min, replicate, sum};
ghost use Rattle.statistics.specs.Buckets.{through_by, top_of, IsBucketOf};

use crate::wrapping::{add_each, less_each, sum_of};

/// How many buckets there are.
pub(crate) const BUCKETS: usize = 124;

/// The longest time that is told from a longer one, in microseconds: more than an hour.
const LONGEST: u64 = 0xffff_ffff;

/// The longest time of a bucket, in microseconds. Up to 7 each time has a bucket of its own, and
/// from there on each power of two has four up to the next one, so that a bucket is at most a
/// quarter wider than its shortest time.
fn longest_in(bucket: usize) -> u64
    requires { bucket < 124 }
    ensures { result ≡ top_of bucket }
{
    if bucket < 4 {
        return bucket as u64;
    }
    let quarters = (bucket % 4) as u64 + 5;
    (quarters << (bucket / 4 - 1)) - 1
}

/// The bucket of a time. One of twice as long a time is four buckets further.
fn bucket_of_short(micros: u32) -> usize
    ensures bucket { IsBucketOf micros result }
    ensures few { (k : ℕ) → micros < 2 ^ (k + 3) → result < 4 * (k + 2) }
{
    if micros < 8 {
        micros as usize
    } else {
        bucket_of_short(micros / 2) + 4
    }
}

/// The bucket of a time in microseconds, of which those above an hour aren't told apart.
pub(crate) fn bucket_of(micros: u64) -> usize
    ensures bucket { IsBucketOf (min micros (2 ^ 32 - 1)) result }
    ensures within { result < 124 }
{
    bucket_of_short(micros.min(LONGEST) as u32)
}

/// The sum of counts.
fn total_of(counts: &[u64; BUCKETS]) -> u128
    ensures sum { result ≡ sum counts.now }
    ensures few { result ≤ 124 * 2 ^ 64 }
{
    let mut total: u128 = 0;
    for count in counts {
        total += u128::from(*count);
    }
    total
}

/// The first bucket by whose end hundred times the calls are this many.
fn first_through(counts: &[u64; BUCKETS], share: u128) -> usize
    requires { share ≤ 100 * sum counts.now }
    ensures within { result < 124 }
    ensures through { share ≤ 100 * through_by counts.now result }
    ensures first { (k : ℕ) → k < result → 100 * through_by counts.now k < share }
{
    let mut through: u128 = 0;
    for (bucket, count) in counts[..BUCKETS - 1].iter().enumerate() {
        through += u128::from(*count);
        if share <= 100 * through {
            return bucket;
        }
    }
    BUCKETS - 1
}

/// How many calls took how long, by buckets of times. Each count wraps at 2^64.
#[derive(Clone, Copy)]
pub struct Histogram {
    counts: [u64; BUCKETS],
}

impl Histogram {
    ghost use Rattle.statistics.specs.Buckets.{AreWithin, HasPut, IsPercentile};
    ghost use Rattle.statistics.specs.Histogram.{buckets_in};
    ghost use Rattle.statistics.specs.Wrapping.{AreDifferences, AreSums};

    /// No call.
    pub fn new() -> Histogram
        ensures { buckets_in result ≡ replicate 124 0 }
    {
        Histogram {
            counts: [0; BUCKETS],
        }
    }

    /// This many calls of each bucket.
    pub(crate) fn from_counts(counts: [u64; BUCKETS]) -> Histogram
        ensures { buckets_in result ≡ counts }
    {
        Histogram { counts }
    }

    /// This many calls took this many microseconds each; those that took more than 2^32 - 1 count
    /// as that.
    pub fn put(&mut self, micros: u64, calls: u64)
        ensures { HasPut micros calls (buckets_in self.old) (buckets_in self.new) }
    {
        let bucket = bucket_of(micros);
        self.counts[bucket] = self.counts[bucket].wrapping_add(calls);
    }

    /// The longest time of the bucket in which this many percent of the calls are through, in
    /// microseconds; 0 where there was no call. More than 100 percent are 100.
    pub fn percentile(&self, percent: u32) -> u64
        ensures { IsPercentile (buckets_in self.now) (min percent 100) result }
    {
        let share = u128::from(percent.min(100)) * total_of(&self.counts);
        longest_in(first_through(&self.counts, share))
    }

    /// How many calls are through by the end of the bucket of a time in microseconds, wrapping as
    /// counts do; of the longest time all are.
    pub fn within(&self, micros: u64) -> u64
        ensures { AreWithin micros (buckets_in self.now) result }
    {
        let bucket = bucket_of(micros);
        sum_of(&self.counts[..bucket + 1])
    }

    /// The calls of both together.
    pub fn add(&mut self, more: &Histogram)
        ensures { AreSums (buckets_in self.old) (buckets_in more.now) (buckets_in self.new) }
    {
        add_each(&mut self.counts, &more.counts);
    }

    /// The calls since an earlier time, at which the counts were those.
    pub fn since(&self, earlier: &Histogram) -> Histogram
        ensures { AreDifferences (buckets_in self.now) (buckets_in earlier.now)
            (buckets_in result) }
    {
        let mut counts = self.counts;
        less_each(&mut counts, &earlier.counts);
        Histogram { counts }
    }
}
