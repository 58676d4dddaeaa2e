//! Connections that came, counted.

use std::sync::atomic::{AtomicU64, Ordering};

/// How many connections were accepted, and how many found no place, wrapping at 2^64.
pub(crate) struct Arrivals {
    accepted: AtomicU64,
    turned_away: AtomicU64,
}

// By hand, so that crates above have no proof of the drop of each of its parts.
impl Drop for Arrivals {
    fn drop(self) {
        let Arrivals {
            accepted: _,
            turned_away: _,
        } = self;
    }
}

impl Arrivals {
    /// None came.
    pub(crate) fn new() -> Arrivals {
        Arrivals {
            accepted: AtomicU64::new(0),
            turned_away: AtomicU64::new(0),
        }
    }

    /// One was accepted.
    pub(crate) fn accept(&self) {
        self.accepted.fetch_add(1, Ordering::Relaxed);
    }

    /// One found no place.
    pub(crate) fn turn_away(&self) {
        self.turned_away.fetch_add(1, Ordering::Relaxed);
    }

    /// How many were accepted.
    pub(crate) fn accepted(&self) -> u64 {
        self.accepted.load(Ordering::Relaxed)
    }

    /// How many found no place.
    pub(crate) fn turned_away(&self) -> u64 {
        self.turned_away.load(Ordering::Relaxed)
    }
}
