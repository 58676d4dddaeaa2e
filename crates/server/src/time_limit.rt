//! How long a lane runs calls before it reads and writes.

use std::cell::Cell;
use std::rt::Clock;
use std::time::Duration;

/// After how many microseconds of calls a round ends them.
const LONGEST: u64 = 1_000;

/// After how many calls it is looked at the clock again.
const CALLS: u32 = 4;

/// How long a lane has run calls in a round, by a clock that nobody sets.
#[derive(Drop)]
pub(crate) struct TimeLimit<'a, R> {
    rt: &'a R,
    begun: Duration,
    /// How many calls were finished since it was looked at the clock.
    calls: Cell<u32>,
    is_over: Cell<bool>,
}

/// The time since an arbitrary start, or none where the clock can't be read.
fn time_of<R: Clock>(rt: &R) -> Duration {
    rt.monotonic().unwrap_or(Duration::ZERO)
}

impl<'a, R: Clock> TimeLimit<'a, R> {
    /// Calls begin.
    pub(crate) fn new(rt: &'a R) -> TimeLimit<'a, R> {
        TimeLimit {
            rt,
            begun: time_of(rt),
            calls: Cell::new(0),
            is_over: Cell::new(false),
        }
    }

    /// A call was finished.
    pub(crate) fn tick(&self) {
        let calls = self.calls.get();
        if calls < CALLS - 1 {
            self.calls.set(calls + 1);
            return;
        }
        self.calls.set(0);
        let taken = time_of(self.rt).saturating_sub(self.begun);
        if taken >= Duration::from_micros(LONGEST) {
            self.is_over.set(true);
        }
    }

    /// Whether the round is to end its calls.
    pub(crate) fn is_over(&self) -> bool {
        self.is_over.get()
    }
}
