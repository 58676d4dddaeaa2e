//! The records of a stream, given on as they become whole.

use crate::peer::Peer;
use engine_feed::StreamFault;
use nfs_values::ConnectionNumber;
use rpc_record::Reassembler;
use std::alloc::Global;

/// How many records a connection may bring.
pub const MOST_RECORDS: usize = 1 << 62;

/// Where the reading of a connection stands.
#[derive(Drop)]
pub struct Stream {
    pub alloc: Global,
    pub connection: ConnectionNumber,
    pub peer: Peer,
    pub reassembler: Reassembler,
    /// How many records were given on.
    pub records: usize,
}

/// Why bytes are taken no further.
#[derive(Clone, Copy)]
pub enum Stopped {
    /// The stream came to a fault.
    Fault(StreamFault),
    /// Memory ran out.
    NoMemory,
    /// The connection brought `MOST_RECORDS`.
    NumbersUsed,
}
