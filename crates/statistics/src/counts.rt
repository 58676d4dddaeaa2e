//! Replies, counted by kind.

ghost use Rattle.std.specs.Prelude.{◌≡◌, ◌≢◌, ◌%◌, ◌^◌, replicate, slice_range, sum, take};

use crate::kind::{KINDS, REFUSALS, RefusalKind, ReplyKind};
use crate::wrapping::{add_each, less_each, sum_of};

/// How many replies of each kind there were. Each count wraps at 2^64.
#[derive(Clone, Copy)]
pub struct ReplyCounts {
    /// Of each kind, at its place.
    counts: [u64; KINDS],
}

impl ReplyCounts {
    ghost use Rattle.statistics.specs.Counts.{count_of, kinds_in};
    ghost use Rattle.statistics.specs.Kind.{kinds_count};
    ghost use Rattle.statistics.specs.Wrapping.{wrapping_sum, AreDifferences, AreSums};
    ghost use Rattle.statistics.specs.declared.kind.ReplyKind.{ReplyKind as Kind};

    /// No reply.
    pub fn new() -> ReplyCounts
        ensures { kinds_in result ≡ replicate kinds_count 0 }
    {
        ReplyCounts { counts: [0; KINDS] }
    }

    /// This many of each kind, by their places.
    pub(crate) fn from_counts(counts: [u64; KINDS]) -> ReplyCounts
        ensures { kinds_in result ≡ counts }
    {
        ReplyCounts { counts }
    }

    /// Counts a reply of this kind.
    pub fn count(&mut self, kind: ReplyKind)
        ensures this { count_of self.new kind ≡ wrapping_sum (count_of self.old kind) 1 }
        ensures others { (k : Kind) → k ≢ kind → count_of self.new k ≡ count_of self.old k }
    {
        let place = kind.place();
        self.counts[place] = self.counts[place].wrapping_add(1);
    }

    /// How many there were of this kind.
    pub fn of(&self, kind: ReplyKind) -> u64
        ensures { result ≡ count_of self.now kind }
    {
        self.counts[kind.place()]
    }

    /// All counts, by the places of the kinds.
    pub(crate) fn as_slice(&self) -> &[u64]
        ensures { result.now ≡ kinds_in self.now }
    {
        &self.counts
    }

    /// How many gave none, but for those that told that memory ran out.
    pub fn refused(&self) -> u64
        ensures { result ≡ sum (take 6 (kinds_in self.now)) % 2 ^ 64 }
    {
        sum_of(&self.counts[..RefusalKind::BUT_STARVED.len()])
    }

    /// How many gave results.
    pub fn answered(&self) -> u64
        ensures { result ≡ sum (slice_range (kinds_in self.now) 7 kinds_count) % 2 ^ 64 }
    {
        sum_of(&self.counts[REFUSALS..KINDS])
    }

    /// The counts of both together.
    pub fn add(&mut self, more: &ReplyCounts)
        ensures { AreSums (kinds_in self.old) (kinds_in more.now) (kinds_in self.new) }
    {
        add_each(&mut self.counts, &more.counts);
    }

    /// What was counted since an earlier time, at which the counts were those.
    pub fn since(&self, earlier: &ReplyCounts) -> ReplyCounts
        ensures { AreDifferences (kinds_in self.now) (kinds_in earlier.now) (kinds_in result) }
    {
        let mut counts = self.counts;
        less_each(&mut counts, &earlier.counts);
        ReplyCounts { counts }
    }
}
