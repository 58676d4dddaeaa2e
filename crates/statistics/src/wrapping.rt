//! Counts that wrap at 2^64, in lists.

ghost use Rattle.std.specs.Prelude.{◌≡◌, ◌%◌, ◌^◌, length, sum};
ghost use Rattle.statistics.specs.Wrapping.{AreDifferences, AreSums};

/// Adds to each count the one at its place among others.
pub(crate) fn add_each(counts: &mut [u64], more: &[u64])
    requires { length counts.old ≡ length more.now }
    ensures { AreSums counts.old more.now counts.new }
{
    for i in 0..counts.len() {
        counts[i] = counts[i].wrapping_add(more[i]);
    }
}

/// Takes from each count the one at its place among others.
pub(crate) fn less_each(counts: &mut [u64], fewer: &[u64])
    requires { length counts.old ≡ length fewer.now }
    ensures { AreDifferences counts.old fewer.now counts.new }
{
    for i in 0..counts.len() {
        counts[i] = counts[i].wrapping_sub(fewer[i]);
    }
}

/// The sum of counts, wrapping as they do.
pub(crate) fn sum_of(counts: &[u64]) -> u64
    ensures { result ≡ sum counts.now % 2 ^ 64 }
{
    let mut all: u64 = 0;
    for count in counts {
        all = all.wrapping_add(*count);
    }
    all
}
