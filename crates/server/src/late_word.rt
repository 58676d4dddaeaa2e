//! When a lane leaves word that it wants what another has.

use crate::time_limit::TimeLimit;
use affinity::{Affinity, Kind};
use granted_calls::{Hint, Wanted};
use std::cell::Cell;
use std::rt::Clock;
use tends::Patience;

/// The word that a lane leaves where it was refused a node: only once it no longer waits its
/// refusals out on the processor. Until then who has the node goes on with its own calls, and finds
/// what they change in its processor's cache. It also notes on which kind of node calls had their
/// replies, and has the lane pick no more once its round is to end its calls.
#[derive(Drop)]
pub(crate) struct LateWord<'a, R> {
    pub(crate) wanted: &'a Wanted,
    pub(crate) patience: Patience,
    /// The kind of the node on which a call last had its reply, if another was to be picked then.
    pub(crate) ran_on: Cell<Option<Kind>>,
    pub(crate) limit: &'a TimeLimit<'a, R>,
}

impl<R: Clock> Hint for LateWord<'_, R> {
    fn ask(&self, node: Affinity) {
        if self.patience.is_worn() {
            self.wanted.ask(node);
        }
    }

    // It is asked of each call that has its reply but the last of the most: before the next is
    // picked, and before the entry of the call.
    fn is_asked(&self, node: Affinity) -> bool {
        self.ran_on.set(Some(node.kind()));
        self.limit.tick();
        self.limit.is_over() || self.wanted.is_asked(node)
    }
}
