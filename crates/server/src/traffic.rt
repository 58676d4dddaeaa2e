//! Bytes that went over the sockets of a lane, counted.

use std::sync::atomic::{AtomicU64, Ordering};

/// How many bytes the sockets of a lane gave and took, wrapping at 2^64.
pub(crate) struct Traffic {
    received: AtomicU64,
    sent: AtomicU64,
}

// By hand, so that crates above have no proof of the drop of each of its parts.
impl Drop for Traffic {
    fn drop(self) {
        let Traffic {
            received: _,
            sent: _,
        } = self;
    }
}

impl Traffic {
    /// No byte.
    pub(crate) fn new() -> Traffic {
        Traffic {
            received: AtomicU64::new(0),
            sent: AtomicU64::new(0),
        }
    }

    /// So many bytes were read.
    pub(crate) fn receive(&self, bytes: usize) {
        self.received.fetch_add(bytes as u64, Ordering::Relaxed);
    }

    /// So many bytes were written.
    pub(crate) fn send(&self, bytes: usize) {
        self.sent.fetch_add(bytes as u64, Ordering::Relaxed);
    }

    /// How many bytes were read.
    pub(crate) fn received(&self) -> u64 {
        self.received.load(Ordering::Relaxed)
    }

    /// How many bytes were written.
    pub(crate) fn sent(&self) -> u64 {
        self.sent.load(Ordering::Relaxed)
    }
}
