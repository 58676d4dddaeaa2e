//! How connections are let in.

/// The most connections that are open where no other number is given.
pub(crate) const MOST_OPEN: u64 = 64;

/// What becomes of a connection that finds no place, and of one that can't be accepted.
#[derive(Clone, Copy, PartialEq, Eq, Debug)]
pub enum WhenFull {
    /// It waits until another has ended. A failed accept ends the server.
    Waits,
    /// It is closed at once. A failed accept is tried again after a pause.
    IsClosed,
}

/// How many connections may be open, from 1, and what becomes of those that come meanwhile.
#[derive(Clone, Copy)]
pub struct Admission {
    pub most_open: u64,
    pub when_full: WhenFull,
}
