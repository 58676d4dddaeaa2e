//! What a lane's thread counts, where that is told.

use crate::socket::Socket;
use clerk::{Journal, Times};
use granted_calls::{Chained, Gate, Place};
use lanes::Lane;
use nfs_values::{Moment, Reply};
use statistics::{RefusalKind, ReplyCounts, ReplyKind, Tally};
use std::alloc::{AllocError, Global};

/// The most messages that wait in a lane, so that as many times are enough.
const MOST_TIMES: usize = 1_024;

const MICROSECONDS_OF_A_SECOND: u64 = 1_000_000;

const NANOSECONDS_OF_A_MICROSECOND: u32 = 1_000;

/// Where a lane counts, and where it leaves word of what is refused.
#[derive(Clone, Copy)]
pub(crate) struct Counter<'a> {
    pub(crate) tally: &'a Tally,
    pub(crate) journal: &'a Journal,
}

impl Gate for Counter<'_> {
    fn pass(&self, _place: Place) {}

    fn finish(&self, told: &Reply) {
        self.tally.finish(told);
        if let Reply::Refused(_) = told {
            self.journal.refuse(1);
        }
    }
}

impl Counter<'_> {
    /// Counts a node that was refused.
    pub(crate) fn see(&self, chained: &Chained) {
        if let Chained::Busy { node: _, word: _ } = chained {
            self.tally.busy();
        }
    }
}

/// What a lane's thread keeps of what it counts.
#[derive(Drop)]
pub(crate) struct Counting {
    /// When the calls came that wait.
    times: Times,
    /// How many replies were made at once, and how many of them refuse.
    answered: u64,
    refused: u64,
}

/// The microseconds of a moment.
fn microseconds_of(moment: Moment) -> u64 {
    u64::from(moment.seconds) * MICROSECONDS_OF_A_SECOND
        + u64::from(moment.nanoseconds / NANOSECONDS_OF_A_MICROSECOND)
}

/// How many replies refuse.
fn refusals_among(counts: &ReplyCounts) -> u64 {
    let mut refusals = counts.of(ReplyKind::STARVED);
    for kind in &RefusalKind::BUT_STARVED {
        refusals = refusals.wrapping_add(counts.of(ReplyKind::Refused(*kind)));
    }
    refusals
}

impl Counting {
    /// Nothing was counted.
    pub(crate) fn new(alloc: Global) -> Result<Counting, AllocError> {
        Ok(Counting {
            times: Times::new(alloc, MOST_TIMES)?,
            answered: 0,
            refused: 0,
        })
    }

    /// This many calls came at a moment, and wait.
    pub(crate) fn put(&mut self, moment: Moment, calls: usize) {
        let _kept = self.times.put(microseconds_of(moment), calls);
    }

    /// This many calls that waited are finished at a moment.
    pub(crate) fn finish(&mut self, tally: &Tally, moment: Moment, calls: usize) {
        let now = microseconds_of(moment);
        let mut left = calls;
        for _ in 0..calls {
            match self.times.take(left) {
                Some(span) => {
                    tally.took(now.saturating_sub(span.since), span.calls as u64);
                    left = left.saturating_sub(span.calls);
                }
                None => return,
            }
        }
    }

    /// Counts the replies that a lane made at once between two moments.
    pub(crate) fn answer(
        &mut self,
        counter: &Counter<'_>,
        counts: &ReplyCounts,
        begun: Moment,
        ended: Moment,
    ) {
        let refused = refusals_among(counts);
        let answered = counts.answered().wrapping_add(refused);
        if answered == self.answered {
            return;
        }
        counter.tally.at_once(counts);
        let took = microseconds_of(ended).saturating_sub(microseconds_of(begun));
        let more = answered.wrapping_sub(self.answered);
        counter.tally.took(took, more);
        if refused != self.refused {
            counter.journal.refuse(refused.wrapping_sub(self.refused));
        }
        self.answered = answered;
        self.refused = refused;
    }
}

/// Counts what a lane finished in a round, which began and ended at these moments: of the messages
/// that waited once it had read, and at once.
pub(crate) fn count_round<R>(
    lane: &Lane<Socket, R>,
    counting: &mut Counting,
    counter: &Counter<'_>,
    waited: usize,
    begun: Moment,
    ended: Moment,
) {
    let finished = waited.saturating_sub(lane.waiting());
    counting.finish(counter.tally, ended, finished);
    counting.answer(counter, lane.at_once(), begun, ended);
    counter.tally.repeated(lane.repeated());
}
