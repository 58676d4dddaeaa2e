//! Times of calls.

ghost use Rattle.std.specs.Prelude.{◌<◌};

use nfs_values::Moment;
use std::rt::Clock;

/// The time now, or the last one that was told, where the clock can't be read.
pub fn time_now<R: Clock>(rt: &R, last: Moment) -> Moment
    requires { last.nanoseconds < 1000000000 }
    ensures { result.nanoseconds < 1000000000 }
{
    match rt.since_1970() {
        Ok(time) => Moment {
            seconds: u32::try_from(time.as_secs()).unwrap_or(u32::MAX),
            nanoseconds: time.subsec_nanos(),
        },
        Err(_) => last,
    }
}
