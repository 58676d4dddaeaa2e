//! When lanes tend anew: what all of them know of it.

use nfs_values::{MILLISECONDS_OF_A_SECOND, Moment, NANOSECONDS_OF_A_MILLISECOND};
use std::sync::atomic::{AtomicBool, AtomicU64, Ordering};

/// Whether calls may have left blocks to tend, and when a lane last began to. One lane tends for
/// all: so that a volume's names aren't taken from who serves them more often than is of use.
pub(crate) struct Untended {
    is_left: AtomicBool,
    /// The millisecond in which a lane last began.
    begun: AtomicU64,
}

// By hand, so that crates above have no proof of the drop of each of its parts.
impl Drop for Untended {
    fn drop(self) {
        let Untended {
            is_left: _,
            begun: _,
        } = self;
    }
}

/// The millisecond that a moment is in.
fn millisecond_of(moment: Moment) -> u64 {
    u64::from(moment.seconds) * MILLISECONDS_OF_A_SECOND
        + u64::from(moment.nanoseconds / NANOSECONDS_OF_A_MILLISECOND)
}

impl Untended {
    /// Nothing was left.
    pub(crate) fn new() -> Untended {
        Untended {
            is_left: AtomicBool::new(false),
            begun: AtomicU64::new(0),
        }
    }

    /// A call may have left blocks.
    pub(crate) fn leave(&self) {
        if !self.is_left.load(Ordering::SeqCst) {
            self.is_left.store(true, Ordering::SeqCst);
        }
    }

    /// Whether calls may have left blocks since a lane last began to tend.
    pub(crate) fn is_left(&self) -> bool {
        self.is_left.load(Ordering::SeqCst)
    }

    /// Whether who asks is to tend anew: calls may have left blocks, and no lane has begun in the
    /// millisecond of this moment.
    pub(crate) fn take(&self, moment: Moment) -> bool {
        if !self.is_left() {
            return false;
        }
        let now = millisecond_of(moment);
        self.begun.swap(now, Ordering::SeqCst) != now && self.is_left.swap(false, Ordering::SeqCst)
    }
}
