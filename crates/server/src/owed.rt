//! What is owed to all connections together.

use std::sync::atomic::{AtomicU64, Ordering};

/// How much room replies take that peers haven't taken yet, of all lanes together, as far as the
/// lanes told; and how much it may be.
pub(crate) struct Owed {
    most: u64,
    total: AtomicU64,
}

// By hand, so that crates above have no proof of the drop of each of its parts.
impl Drop for Owed {
    fn drop(self) {
        let Owed { most: _, total: _ } = self;
    }
}

impl Owed {
    /// Nothing is owed; at most so much may be, or any amount.
    pub(crate) fn new(most: Option<u64>) -> Owed {
        Owed {
            most: most.unwrap_or(u64::MAX),
            total: AtomicU64::new(0),
        }
    }

    /// A connection that was owed so much is owed so much now.
    pub(crate) fn change(&self, before: usize, now: usize) {
        if now > before {
            let more = now.saturating_sub(before) as u64;
            self.total.fetch_add(more, Ordering::SeqCst);
        } else if now < before {
            let less = before.saturating_sub(now) as u64;
            self.total.fetch_sub(less, Ordering::SeqCst);
        }
    }

    /// Whether more is owed than may be: a connection that is owed something is read no further
    /// then.
    pub(crate) fn is_over(&self) -> bool {
        self.total.load(Ordering::SeqCst) > self.most
    }
}
