//! The word by which threads are told to stop.

use std::sync::atomic::{AtomicBool, Ordering};

/// Whether the threads that look at it are to stop.
pub(crate) struct StopWord {
    is_set: AtomicBool,
}

// By hand, so that crates above have no proof of the drop of each of its parts.
impl Drop for StopWord {
    fn drop(self) {
        let StopWord { is_set: _ } = self;
    }
}

impl StopWord {
    /// They aren't yet.
    pub(crate) fn new() -> StopWord {
        StopWord {
            is_set: AtomicBool::new(false),
        }
    }

    /// From now on they are.
    pub(crate) fn set(&self) {
        self.is_set.store(true, Ordering::SeqCst);
    }

    /// Whether they are.
    pub(crate) fn is_set(&self) -> bool {
        self.is_set.load(Ordering::SeqCst)
    }
}
