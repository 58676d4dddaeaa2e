//! The seconds by which the silence of connections is told.

use std::rt::Clock;

/// The seconds since an arbitrary start, by a clock that nobody sets, or 0 where it can't be read.
pub(crate) fn second_now<R: Clock>(rt: &R) -> u32 {
    match rt.monotonic() {
        Ok(time) => u32::try_from(time.as_secs()).unwrap_or(u32::MAX),
        Err(_failed) => 0,
    }
}
