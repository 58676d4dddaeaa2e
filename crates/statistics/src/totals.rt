//! What was counted, in all, and the line that tells it.

ghost use Rattle.std.specs.Prelude.{◌≡◌, ◌%◌, ◌^◌, min, slice_range, sum, take};

use crate::counts::ReplyCounts;
use crate::histogram::Histogram;
use crate::kind::{RefusalKind, ReplyKind};
use crate::tally::Tally;
use nfs_values::Procedure;
use std::fmt;

/// Replies by kind, times of calls, how often a node was refused, and how many calls were told a
/// reply again. Each count wraps at 2^64.
#[derive(Clone, Copy)]
pub struct Totals {
    replies: ReplyCounts,
    times: Histogram,
    busy: u64,
    repeated: u64,
}

impl Totals {
    ghost use Rattle.statistics.specs.Buckets.{AreWithin, IsPercentile};
    ghost use Rattle.statistics.specs.Counts.{count_of, kinds_in};
    ghost use Rattle.statistics.specs.Kind.{kinds_count};
    ghost use Rattle.statistics.specs.Histogram.{buckets_in};
    ghost use Rattle.statistics.specs.Totals.{busy_in, repeated_in, replies_in, times_in};
    ghost use Rattle.statistics.specs.Totals.{HasAdded, IsNothing, IsSince};

    /// Nothing was counted.
    pub fn new() -> Totals
        ensures { IsNothing result }
    {
        Totals {
            replies: ReplyCounts::new(),
            times: Histogram::new(),
            busy: 0,
            repeated: 0,
        }
    }

    /// These replies, times, refusals of nodes, and calls that were told a reply again.
    pub fn from_parts(replies: ReplyCounts, times: Histogram, busy: u64, repeated: u64) -> Totals
        ensures replies { replies_in result ≡ replies }
        ensures times { times_in result ≡ times }
        ensures busy { busy_in result ≡ busy }
        ensures repeated { repeated_in result ≡ repeated }
    {
        Totals {
            replies,
            times,
            busy,
            repeated,
        }
    }

    /// Adds what a thread counted so far.
    pub fn add(&mut self, tally: &Tally) {
        self.plus(&tally.read());
    }

    /// The counts of both together.
    pub fn plus(&mut self, more: &Totals)
        ensures { HasAdded self.old more.now self.new }
    {
        self.replies.add(&more.replies);
        self.times.add(&more.times);
        self.busy = self.busy.wrapping_add(more.busy);
        self.repeated = self.repeated.wrapping_add(more.repeated);
    }

    /// What was counted since an earlier time, at which the counts were those.
    pub fn since(&self, earlier: &Totals) -> Totals
        ensures { IsSince self.now earlier.now result }
    {
        Totals {
            replies: self.replies.since(&earlier.replies),
            times: self.times.since(&earlier.times),
            busy: self.busy.wrapping_sub(earlier.busy),
            repeated: self.repeated.wrapping_sub(earlier.repeated),
        }
    }

    /// The longest time of the bucket in which this many percent of the timed calls are through, in
    /// microseconds; 0 where no call was timed (`Histogram::percentile`).
    pub fn percentile(&self, percent: u32) -> u64
        ensures { IsPercentile (buckets_in (times_in self.now)) (min percent 100) result }
    {
        self.times.percentile(percent)
    }

    /// How many timed calls are through by the end of the bucket of a time in microseconds
    /// (`Histogram::within`).
    pub fn within(&self, micros: u64) -> u64
        ensures { AreWithin micros (buckets_in (times_in self.now)) result }
    {
        self.times.within(micros)
    }

    /// How many calls were answered with results, whatever they told.
    pub fn calls(&self) -> u64
        ensures { result
            ≡ sum (slice_range (kinds_in (replies_in self.now)) 7 kinds_count) % 2 ^ 64 }
    {
        self.replies.answered()
    }

    /// How many calls were refused, but for those for which there was no memory.
    pub fn refused(&self) -> u64
        ensures { result ≡ sum (take 6 (kinds_in (replies_in self.now))) % 2 ^ 64 }
    {
        self.replies.refused()
    }

    /// The refusals, to be told.
    pub fn refusals(&self) -> Refusals<'_> {
        Refusals {
            replies: &self.replies,
        }
    }

    /// How many replies of this kind there were: to calls of a procedure, or refusals of a kind.
    pub fn replies(&self, kind: ReplyKind) -> u64
        ensures { result ≡ count_of (replies_in self.now) kind }
    {
        self.replies.of(kind)
    }

    /// How often a node was refused, since another lane had it.
    pub fn busy(&self) -> u64
        ensures { result ≡ busy_in self.now }
    {
        self.busy
    }

    /// How many calls came again and were told the reply that was remembered.
    pub fn repeated(&self) -> u64
        ensures { result ≡ repeated_in self.now }
    {
        self.repeated
    }
}

/// Refusals by kind, but for calls for which there was no memory. Told, it is `refused: ` and how
/// many there were of each kind, or nothing where there were none.
#[derive(Clone, Copy)]
pub struct Refusals<'a> {
    replies: &'a ReplyCounts,
}

/// Writes how many replies there were of a kind after some text, or nothing where there were none.
/// Answers whether it wrote.
fn write_kind<W: fmt::Write>(
    f: &mut fmt::Formatter<W>,
    replies: &ReplyCounts,
    kind: ReplyKind,
    before: &str,
) -> Result<bool, fmt::Error> {
    let count = replies.of(kind);
    if count == 0 {
        return Ok(false);
    }
    let name = kind.name();
    write!(f, "{before}{name} {count}")?;
    Ok(true)
}

impl fmt::Display for Refusals<'_> {
    fn fmt<W: fmt::Write>(&self, f: &mut fmt::Formatter<W>) -> fmt::Result {
        let mut before = "refused: ";
        for kind in &RefusalKind::BUT_STARVED {
            if write_kind(f, self.replies, ReplyKind::Refused(*kind), before)? {
                before = ", ";
            }
        }
        Ok(())
    }
}

impl fmt::Display for Totals {
    fn fmt<W: fmt::Write>(&self, f: &mut fmt::Formatter<W>) -> fmt::Result {
        let calls = self.calls();
        write!(f, "calls {calls}")?;
        let mut before = ": ";
        for procedure in &Procedure::ALL {
            if write_kind(f, &self.replies, ReplyKind::Answered(*procedure), before)? {
                before = ", ";
            }
        }
        let (half, most) = (self.percentile(50), self.percentile(99));
        write!(f, "; p50 {half} us, p99 {most} us")?;
        if self.refused() > 0 {
            let refusals = self.refusals();
            write!(f, "; {refusals}")?;
        }
        let busy = self.busy;
        let starved = self.replies(ReplyKind::STARVED);
        write!(f, "; busy {busy}, starved {starved}")?;
        if self.repeated > 0 {
            let repeated = self.repeated;
            write!(f, ", told again {repeated}")?;
        }
        Ok(())
    }
}
