//! Times.

/// A time (nfstime3, RFC 1813 section 2.6).
#[derive(Clone, Copy, Debug, PartialEq, Eq, PartialOrd, Ord)]
pub struct Moment {
    pub seconds: u32,
    pub nanoseconds: u32,
}

impl Moment {
    /// The start of all times.
    pub const START: Moment = Moment {
        seconds: 0,
        nanoseconds: 0,
    };
}
