//! How long a thread lets others go on.

use std::hint::spin_loop;
use std::rt::Clock;
use std::thread::yield_now;
use std::time::Duration;

/// The refusals in a row that are waited out on the processor.
const MOST_PAUSES: u32 = 7;

/// The pauses after the first refusal. Each further one doubles them.
const FIRST_PAUSES: u32 = 4;

/// How often after these the processor is given away, before the thread naps.
const MOST_YIELDS: u32 = 3;

/// How often in a row a thread was refused what another has.
#[derive(Clone, Copy)]
pub struct Patience {
    refusals: u32,
}

impl Patience {
    /// It wasn't refused yet.
    pub fn new() -> Patience {
        Patience { refusals: 0 }
    }

    /// Waits after a refusal: a few pauses, which double. Answers whether that was done: once there
    /// were many refusals, the thread has to do something else before it tries again.
    pub fn pause(&mut self) -> bool {
        if self.refusals >= MOST_PAUSES {
            return false;
        }
        for _ in 0..FIRST_PAUSES << self.refusals {
            spin_loop();
        }
        self.refusals += 1;
        true
    }

    /// Whether the refusals were so many that they are no longer waited out on the processor.
    pub fn is_worn(self) -> bool {
        self.refusals >= MOST_PAUSES
    }

    /// Gives the processor away where there were many refusals, since who has what is wanted may
    /// not be running: at first for a moment, and then by a nap.
    pub fn give_way<R: Clock>(&mut self, rt: &R) {
        if self.refusals < MOST_PAUSES {
            return;
        }
        if self.refusals < MOST_PAUSES + MOST_YIELDS {
            self.refusals += 1;
            yield_now();
        } else {
            rt.sleep(Duration::from_micros(1));
        }
    }
}
