//! What calls set.

use crate::moment::Moment;
use crate::verifier::Verifier;

/// How a time is set (set_atime and set_mtime, RFC 1813 section 2.6).
#[derive(Clone, Copy, PartialEq, Eq)]
pub enum SetTime {
    /// It stays as it is.
    Keep,
    /// To the moment of the call.
    ServerTime,
    /// To the client's, whose nanoseconds may be any number.
    ClientTime(Moment),
}

/// The attributes to set (sattr3, RFC 1813 section 2.6). What is `None` stays as it is.
#[derive(Clone, Copy, PartialEq, Eq)]
pub struct SetAttributes {
    pub mode: Option<u32>,
    pub uid: Option<u32>,
    pub gid: Option<u32>,
    pub size: Option<u64>,
    pub atime: SetTime,
    pub mtime: SetTime,
}

impl SetAttributes {
    /// Nothing is set.
    pub const NOTHING: SetAttributes = SetAttributes {
        mode: None,
        uid: None,
        gid: None,
        size: None,
        atime: SetTime::Keep,
        mtime: SetTime::Keep,
    };
}

/// How a file is created (createhow3, RFC 1813 section 3.3.8).
#[derive(Clone, Copy, PartialEq, Eq)]
pub enum CreateMode {
    Unchecked(SetAttributes),
    Guarded(SetAttributes),
    Exclusive(Verifier),
}
