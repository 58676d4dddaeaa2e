//! The clock.

use std::rt::Clock;

const MILLISECONDS_OF_A_SECOND: u64 = 1_000;

/// The milliseconds since an arbitrary start, by a clock that nobody sets, or 0 where it can't be
/// read.
pub(crate) fn millisecond_now<R: Clock>(rt: &R) -> u64 {
    match rt.monotonic() {
        Ok(time) => time
            .as_secs()
            .saturating_mul(MILLISECONDS_OF_A_SECOND)
            .saturating_add(u64::from(time.subsec_millis())),
        Err(_failed) => 0,
    }
}
