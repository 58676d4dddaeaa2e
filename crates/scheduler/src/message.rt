//! Calls on their way.

use affinity::CallNode;
use nfs_values::{Caller, ConnectionNumber};

/// The record that a call came in.
#[derive(Clone, Copy)]
pub struct Origin {
    pub connection: ConnectionNumber,
    /// Its place among the records that the connection served, from 0.
    pub number: usize,
    /// The transaction identifier (RFC 5531 section 9).
    pub xid: u32,
}

/// A call that waits or runs. What a call is, is for the caller to say.
#[derive(Drop)]
pub struct Message<C> {
    pub origin: Origin,
    pub call: C,
    pub caller: Caller,
    /// What it tries: first the node that its call is at home in, then where it moved.
    pub affinity: CallNode,
    /// How many bytes its reply may take of the room that its connection has.
    pub room: usize,
}
