//! What a depot of a filer's parcels runs.

use crate::batch::BatchInHand;
use affinity::CallNode;
use nfs_values::{Call, Caller, ConnectionNumber, Moment, Reply, VolumeNumber};

/// A call that a record asked for, as it is finished.
#[derive(Drop)]
pub struct ServedCall {
    pub connection: ConnectionNumber,
    /// Its place among the records that the connection served, from 0.
    pub number: usize,
    pub xid: u32,
    pub call: Call,
    /// Whom it acts for.
    pub caller: Caller,
    /// The node that it ran on.
    pub affinity: CallNode,
    pub moment: Moment,
    /// Whether memory ran out, so that it changed nothing and was answered so.
    pub starved: bool,
}

/// A worker's call with its hand, as it is entered: an inner call.
#[derive(Clone, Copy)]
pub enum InnerCall {
    /// Free blocks of a range come into the hand.
    Fetch { volume: VolumeNumber, range: u32 },
    /// What is in the hand comes into the volume's stock.
    Deliver { volume: VolumeNumber },
    /// Dead blocks come into the hand.
    Cull { volume: VolumeNumber },
    /// What is in the hand comes back to its range.
    Free { volume: VolumeNumber, range: u32 },
    /// How many blocks are free.
    Survey { volume: VolumeNumber },
}

/// What came of a worker's call that moves a batch.
#[derive(Drop)]
pub enum BatchReply {
    /// The batch that came into the hand.
    Took(BatchInHand),
    /// The batch that left it.
    Gave(BatchInHand),
}

/// What a survey tells.
#[derive(Drop)]
pub struct FreeCounts {
    /// The free blocks of each range in use.
    pub counts: Vec<u32>,
}

/// An entry of the history.
#[derive(Drop)]
pub enum Job {
    Serve(ServedCall),
    Inner(InnerCall),
}

/// What came of it.
#[derive(Drop)]
pub enum JobReply {
    Replied(Reply),
    Moved(BatchReply),
    Surveyed(FreeCounts),
}
