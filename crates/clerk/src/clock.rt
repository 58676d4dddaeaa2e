//! The clock by which lines are kept apart.

use nfs_values::MILLISECONDS_OF_A_SECOND;
use std::rt::Clock;

/// The milliseconds since an arbitrary start, or 0 where the clock can't be read.
pub(crate) fn milliseconds<R: Clock>(rt: &R) -> u64 {
    match rt.monotonic() {
        Ok(time) => time
            .as_secs()
            .saturating_mul(MILLISECONDS_OF_A_SECOND)
            .saturating_add(u64::from(time.subsec_millis())),
        Err(_failed) => 0,
    }
}
