//! The queue and its passes, as types.

ghost use Rattle.std.specs.Prelude.{◌≡◌, ◌<◌, []};
ghost use Rattle.crossbeam_queue.specs.Passes.{view, ruled_capacity};

use crate::shared_waiting::view::{Fair, Fitting, View};
use crossbeam_queue::RuledArrayQueue;

/// The right to use a queue. It knows what was put and picked by it.
pub struct Pass<T, K> {
    pub(crate) seat: crossbeam_queue::Pass<T, View<T, K>>,
    ghost live: { 0 < (view seat).share },
    ghost home: { seat.me.1 ≡ [] },
}

// By hand, so that crates above have no proof of the drop of each of its parts.
impl<T, K> Drop for Pass<T, K> {
    fn drop(self) {
        let Pass { seat: _ } = self;
    }
}

/// A queue of at most 1,024 messages.
pub struct SharedWaiting<T: Fitting<K>, K> {
    pub(crate) queue: RuledArrayQueue<T, View<T, K>, Fair>,
    ghost places: { ruled_capacity queue ≡ 1024 },
}

// By hand, so that crates above have no proof of the drop of each of its parts.
impl<T: Fitting<K> + Drop, K: Drop> Drop for SharedWaiting<T, K> {
    fn drop(self) {
        let SharedWaiting { queue: _ } = self;
    }
}

impl<T, K> Pass<T, K> {
    /// The pass of the queue that it is.
    pub(crate) fn into_seat(self) -> crossbeam_queue::Pass<T, View<T, K>>
        ensures is { result ≡ self.seat }
        ensures live { 0 < (view result).share }
    {
        let Pass { seat } = self;
        seat
    }
}
