//! Connections that came and have ended, counted.

use crate::event_count::EventCount;
use std::sync::Wait;
use std::sync::atomic::{AtomicU64, Ordering};

/// How many connections came and have ended, wrapping at 2^64, and the event count that is advanced
/// where one ends.
pub(crate) struct Ends {
    came: AtomicU64,
    count: AtomicU64,
    ended: EventCount,
}

// By hand, so that crates above have no proof of the drop of each of its parts.
impl Drop for Ends {
    fn drop(self) {
        let Ends {
            came: _,
            count: _,
            ended: _,
        } = self;
    }
}

impl Ends {
    /// None came.
    pub(crate) fn new() -> Ends {
        Ends {
            came: AtomicU64::new(0),
            count: AtomicU64::new(0),
            ended: EventCount::new(),
        }
    }

    /// A connection came.
    pub(crate) fn come(&self) {
        self.came.fetch_add(1, Ordering::SeqCst);
    }

    /// A connection has ended.
    pub(crate) fn add(&self) {
        self.count.fetch_add(1, Ordering::SeqCst);
        self.ended.advance();
    }

    /// How many are open. The ends are read first: what ends meanwhile still counts as open.
    pub(crate) fn open(&self) -> u64 {
        let ended = self.count.load(Ordering::SeqCst);
        self.came.load(Ordering::SeqCst).wrapping_sub(ended)
    }

    /// Sleeps until fewer than these are open.
    pub(crate) fn wait_for_fewer<R: Wait>(&self, rt: &R, open: u64) {
        for _ in rt.forever() {
            let seen = self.ended.count();
            if self.open() < open {
                return;
            }
            self.ended.wait_past(rt, seen);
        }
    }
}
