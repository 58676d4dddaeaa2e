//! Times in seconds.

use std::fmt;

const MICROSECONDS_OF_A_SECOND: u64 = 1_000_000;

/// A time in microseconds, which is told in seconds with six decimals.
#[derive(Clone, Copy)]
pub(crate) struct Seconds {
    pub(crate) micros: u64,
}

impl fmt::Display for Seconds {
    fn fmt<W: fmt::Write>(&self, f: &mut fmt::Formatter<W>) -> fmt::Result {
        let seconds = self.micros / MICROSECONDS_OF_A_SECOND;
        let below = self.micros % MICROSECONDS_OF_A_SECOND;
        write!(f, "{seconds}.{below:06}")
    }
}
