//! Word that connections find no place.

use server_options::IdleTime;
use std::sync::atomic::{AtomicU64, Ordering};

/// Word that a connection found no place, upon which each lane closes those that are idle.
pub(crate) struct Crowd {
    /// After how long a connection is idle; none is where nothing is said.
    pub(crate) idle: Option<IdleTime>,
    /// The second in which a connection found no place last, or 0.
    second: AtomicU64,
}

// By hand, so that crates above have no proof of the drop of each of its parts.
impl Drop for Crowd {
    fn drop(self) {
        let Crowd { idle: _, second: _ } = self;
    }
}

impl Crowd {
    /// Each connection has found a place.
    pub(crate) fn new(idle: Option<IdleTime>) -> Crowd {
        Crowd {
            idle,
            second: AtomicU64::new(0),
        }
    }

    /// Leaves word in a second that a connection found no place. Answers whether lanes are to be
    /// woken for it: there may be idle connections, and there was no word in this second.
    pub(crate) fn leave(&self, second: u64) -> bool {
        self.idle.is_some() && self.second.swap(second, Ordering::SeqCst) != second
    }

    /// The second of the last word, or 0.
    pub(crate) fn second(&self) -> u64 {
        self.second.load(Ordering::SeqCst)
    }
}
