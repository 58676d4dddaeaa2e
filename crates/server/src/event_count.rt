//! What the loop that accepts sleeps on.

use std::sync::{Condvar, Wait};
use std::time::Duration;

/// The longest sleep without a look, in seconds.
const A_WHILE: u64 = 3600;

/// A count of events, on which threads sleep until there is one more. Who waits tells how many
/// it knew of when it saw nothing to do, so that one between that look and its sleep isn't lost.
pub(crate) struct EventCount {
    events: Condvar,
}

// By hand, so that crates above have no proof of the drop of each of its parts.
impl Drop for EventCount {
    fn drop(self) {
        let EventCount { events: _ } = self;
    }
}

impl EventCount {
    /// No event yet.
    pub(crate) fn new() -> EventCount {
        EventCount {
            events: Condvar::new(),
        }
    }

    /// How many events there were, wrapping at 2^64.
    pub(crate) fn count(&self) -> u64 {
        self.events.notifications()
    }

    /// Counts an event, and wakes all who sleep.
    pub(crate) fn advance(&self) {
        self.events.notify_all();
    }

    /// Sleeps until there were more events than these.
    pub(crate) fn wait_past<R: Wait>(&self, rt: &R, seen: u64) {
        for _ in rt.forever() {
            if self.count() != seen {
                return;
            }
            self.events.sleep(rt, seen, Duration::from_secs(A_WHILE));
        }
    }
}
