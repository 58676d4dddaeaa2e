//! What one thread counts and another reads.

use crate::counts::ReplyCounts;
use crate::histogram::{BUCKETS, Histogram, bucket_of};
use crate::kind::{KINDS, ReplyKind};
use crate::totals::Totals;
use nfs_values::Reply;
use std::array;
use std::sync::atomic::{AtomicU64, Ordering};

/// What one lane counted, while another thread may read it. What an atomic has can't be spoken of
/// by clauses, so none here says what is counted; `Totals` and what it has say it of plain values.
pub struct Tally {
    /// The replies to calls that ran, by kind.
    replies: [AtomicU64; KINDS],
    /// The replies that were made at once.
    at_once: [AtomicU64; KINDS],
    /// How many calls took how long, by buckets of times.
    times: [AtomicU64; BUCKETS],
    /// How many microseconds they took in all, wrapping at 2^64.
    micros: AtomicU64,
    /// How often a node was refused.
    busy: AtomicU64,
    /// How many calls were told a reply again.
    repeated: AtomicU64,
}

// By hand, so that crates above have no proof of the drop of each of its parts.
impl Drop for Tally {
    fn drop(self) {
        let Tally {
            replies: _,
            at_once: _,
            times: _,
            micros: _,
            busy: _,
            repeated: _,
        } = self;
    }
}

/// This many more, at a place where there is one.
fn count_at(counts: &[AtomicU64], place: usize, more: u64) {
    if let Some(count) = counts.get(place) {
        count.fetch_add(more, Ordering::Relaxed);
    }
}

/// As many, at a place where there is one. What isn't new isn't written.
fn set_at(counts: &[AtomicU64], place: usize, now: u64) {
    if let Some(count) = counts.get(place) {
        if count.load(Ordering::Relaxed) != now {
            count.store(now, Ordering::Relaxed);
        }
    }
}

/// All counts, each as it is when it is read.
fn read_all<const N: usize>(counts: &[AtomicU64; N]) -> [u64; N] {
    let mut read = [0; N];
    for i in 0..N {
        read[i] = counts[i].load(Ordering::Relaxed);
    }
    read
}

impl Tally {
    /// Nothing counted.
    pub fn new() -> Tally {
        Tally {
            replies: array::from_fn(|_place| AtomicU64::new(0)),
            at_once: array::from_fn(|_place| AtomicU64::new(0)),
            times: array::from_fn(|_bucket| AtomicU64::new(0)),
            micros: AtomicU64::new(0),
            busy: AtomicU64::new(0),
            repeated: AtomicU64::new(0),
        }
    }

    /// Counts a reply to a call that ran.
    pub fn count(&self, reply: &Reply) {
        count_at(&self.replies, ReplyKind::of(reply).place(), 1);
    }

    /// Counts a refusal of a node, that another lane has.
    pub fn busy(&self) {
        self.busy.fetch_add(1, Ordering::Relaxed);
    }

    /// This many calls took this many microseconds each (`Histogram::put`).
    pub fn took(&self, micros: u64, calls: u64) {
        count_at(&self.times, bucket_of(micros), calls);
        self.micros
            .fetch_add(micros.wrapping_mul(calls), Ordering::Relaxed);
    }

    /// How many microseconds all calls took together so far.
    pub fn micros(&self) -> u64 {
        self.micros.load(Ordering::Relaxed)
    }

    /// This many replies were made at once so far, in all: these take the place of what was given
    /// before.
    pub fn at_once(&self, counts: &ReplyCounts) {
        for (place, count) in counts.as_slice().iter().enumerate() {
            set_at(&self.at_once, place, *count);
        }
    }

    /// This many calls were told a reply again so far, in all. What isn't new isn't written.
    pub fn repeated(&self, now: u64) {
        if self.repeated.load(Ordering::Relaxed) != now {
            self.repeated.store(now, Ordering::Relaxed);
        }
    }

    /// What was counted so far. Each count is read by itself, while more may be counted.
    pub fn read(&self) -> Totals {
        let mut replies = ReplyCounts::from_counts(read_all(&self.replies));
        replies.add(&ReplyCounts::from_counts(read_all(&self.at_once)));
        let times = Histogram::from_counts(read_all(&self.times));
        Totals::from_parts(
            replies,
            times,
            self.busy.load(Ordering::Relaxed),
            self.repeated.load(Ordering::Relaxed),
        )
    }
}
