//! What the threads of a server share.

use crate::arrivals::Arrivals;
use crate::counting::Counter;
use crate::crowd::Crowd;
use crate::ends::Ends;
use crate::owed::Owed;
use crate::stop_word::StopWord;
use crate::traffic::Traffic;
use crate::untended::Untended;
use clerk::{Event, Journal};
use granted_calls::Wanted;
use server_options::{Options, PeerRules};
use statistics::Tally;
use std::alloc::{AllocError, Global};
use std::sync::{Arc, Wait};

/// What the threads of a server share.
pub(crate) struct Common {
    /// How the callers of peers stand.
    pub(crate) rules: PeerRules,
    /// The connections that have ended.
    pub(crate) ends: Ends,
    /// Word that a lane leaves where another has what it tries.
    pub(crate) wanted: Wanted,
    /// Whether calls may have left blocks to tend.
    pub(crate) untended: Untended,
    /// What is owed to all connections together.
    pub(crate) owed: Owed,
    /// Word that connections find no place.
    pub(crate) crowd: Crowd,
    /// What is left for the clerk, where there is one.
    pub(crate) journal: Option<Journal>,
    /// The word to stop, where the server may be asked to.
    pub(crate) stop: Option<StopWord>,
    /// Where each lane counts, if lanes count.
    pub(crate) tallies: Vec<Tally>,
    /// Where the bytes of each lane's sockets are counted, if they are.
    pub(crate) traffic: Vec<Arc<Traffic>>,
    /// The connections that came.
    pub(crate) arrivals: Arrivals,
}

// By hand, so that crates above have no proof of the drop of each of its parts.
impl Drop for Common {
    fn drop(self) {
        let Common {
            rules: _,
            ends: _,
            wanted: _,
            untended: _,
            owed: _,
            crowd: _,
            journal: _,
            stop: _,
            tallies: _,
            traffic: _,
            arrivals: _,
        } = self;
    }
}

/// This many tallies, in which nothing was counted.
fn new_tallies(alloc: Global, count: usize) -> Result<Vec<Tally>, AllocError> {
    let mut tallies = Vec::with_capacity(alloc, count)?;
    for _ in 0..count {
        tallies.push(Tally::new())?;
    }
    Ok(tallies)
}

/// Room for this many counts of bytes, in which nothing was counted.
fn new_traffic(alloc: Global, count: usize) -> Result<Vec<Arc<Traffic>>, AllocError> {
    let mut traffic = Vec::with_capacity(alloc, count)?;
    for _ in 0..count {
        let Ok(of_a_lane) = Arc::new(alloc, Traffic::new()) else {
            return Err(AllocError);
        };
        traffic.push(of_a_lane)?;
    }
    Ok(traffic)
}

impl Common {
    /// Before the first connection of a server with these options, with what is left for the
    /// clerk, if there is one, with the word to stop, if it may be asked to, and with metrics or
    /// none. Lanes count where that is told.
    pub(crate) fn new(
        alloc: Global,
        options: &Options,
        journal: Option<Journal>,
        stop: Option<StopWord>,
        has_metrics: bool,
    ) -> Result<Common, AllocError> {
        let is_told = options.log || options.statistics.is_some() || has_metrics;
        let counts = journal.is_some() && is_told;
        let lanes = if counts { options.workers } else { 0 };
        let measured = if has_metrics { options.workers } else { 0 };
        Ok(Common {
            rules: options.rules,
            ends: Ends::new(),
            wanted: Wanted::new(),
            untended: Untended::new(),
            owed: Owed::new(options.most_owed),
            crowd: Crowd::new(options.idle),
            journal,
            stop,
            tallies: new_tallies(alloc, lanes)?,
            traffic: new_traffic(alloc, measured)?,
            arrivals: Arrivals::new(),
        })
    }

    /// Leaves an event for the clerk, if there is one.
    pub(crate) fn note<R: Wait>(&self, rt: &R, event: Event) {
        if let Some(journal) = &self.journal {
            journal.note(rt, event);
        }
    }

    /// Where the bytes of a socket of a lane are counted, if they are.
    pub(crate) fn traffic(&self, lane: usize) -> Option<Arc<Traffic>> {
        let traffic = self.traffic.get(lane)?;
        Arc::try_clone(traffic).ok()
    }

    /// Whether no connection is accepted any more, since the server was asked to stop.
    pub(crate) fn stops(&self) -> bool {
        match &self.stop {
            Some(word) => word.until().is_some(),
            None => false,
        }
    }

    /// Where a lane counts, if it does.
    pub(crate) fn counter(&self, lane: usize) -> Option<Counter<'_>> {
        match (self.tallies.get(lane), &self.journal) {
            (Some(tally), Some(journal)) => Some(Counter { tally, journal }),
            _ => None,
        }
    }
}
