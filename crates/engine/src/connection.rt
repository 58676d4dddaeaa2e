//! Connections by number.

/// A connection that was closed: what came and what was written stays.
#[derive(Drop)]
pub(crate) struct ClosedConnection {
    pub(crate) stream: Vec<u8>,
    pub(crate) output: Vec<u8>,
    /// How many calls of all connections were finished before the close.
    pub(crate) finished: usize,
}

/// A connection.
#[derive(Drop)]
pub(crate) enum Connection {
    /// It is open, and kept under this key.
    Open(usize),
    Closed(ClosedConnection),
}
