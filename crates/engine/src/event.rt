//! The events of an engine, what they answer, and why they are refused.

ghost use Rattle.std.specs.Prelude.{◌≡◌};

use affinity::CallNode;
use engine_feed::Stop;
use nfs_values::{ConnectionNumber, Moment, VolumeNumber, WorkerNumber};

/// What may happen to an engine.
#[derive(Clone, Copy)]
pub enum Event<'a> {
    /// A connection is opened.
    Open,
    /// Bytes come on a connection.
    Feed {
        connection: ConnectionNumber,
        bytes: &'a [u8],
    },
    /// A connection is closed: its calls still run, and nothing more is written to it.
    Close {
        connection: ConnectionNumber,
    },
    /// A worker begins the message at a place of the list of waiting ones.
    Begin {
        worker: WorkerNumber,
        place: usize,
        moment: Moment,
    },
    /// A worker works the message that it began.
    Work {
        worker: WorkerNumber,
    },
    /// A worker finishes the message that it worked.
    Finish {
        worker: WorkerNumber,
    },
    /// An idle worker fetches free blocks of a range into its empty hand.
    Fetch {
        worker: WorkerNumber,
        volume: VolumeNumber,
        range: u32,
    },
    /// An idle worker culls blocks that files have left into its empty hand.
    Cull {
        worker: WorkerNumber,
        volume: VolumeNumber,
    },
    /// An idle worker puts down what is in its hand: blocks that it fetched in the volume's stock,
    /// blocks that it culled in their range, where they are free.
    PutDown {
        worker: WorkerNumber,
    },
    /// An idle worker with an empty hand counts the free blocks of each range that is in use.
    Survey {
        worker: WorkerNumber,
        volume: VolumeNumber,
    },
}

/// What an event came to that was not refused.
#[derive(Drop)]
pub enum Done {
    /// The connection has this number.
    Opened {
        connection: ConnectionNumber,
    },
    /// This many bytes were taken, and this stopped the taking.
    Fed {
        taken: usize,
        stop: Stop,
    },
    Closed,
    /// The message has the parcels of this node.
    Granted {
        affinity: CallNode,
    },
    /// The call has its reply.
    Replied,
    /// Memory ran out for the call, which changed nothing.
    Starved,
    /// The message has to run on the parcels of this node.
    Moved {
        affinity: CallNode,
    },
    /// The reply has this many bytes on this connection: none where it is closed.
    Written {
        connection: ConnectionNumber,
        count: usize,
    },
    /// The message waits again.
    PutBack,
    /// This many blocks came into the hand.
    InHand {
        count: usize,
    },
    /// This many blocks were put down.
    PutDown {
        count: usize,
    },
    /// How many blocks of each range in use are free.
    Surveyed {
        counts: Vec<u32>,
    },
}

/// Why an event was refused. It changed nothing then.
#[derive(Clone, Copy)]
pub enum Refusal {
    /// A running message's affinity excludes this one's.
    Busy,
    /// As many calls as can be were finished.
    Worn,
    /// As many connections as can be are open.
    Full,
    /// No message waits at that place.
    NoSuchCall,
    /// There is no such worker, or it is not idle, or its hand has to be empty and is not.
    WorkerBusy,
    /// The worker has begun no message, or has worked it already, or has nothing to put down.
    NoWork,
    /// The worker has not worked its message.
    NotWorked,
    /// There is no such connection, or it takes nothing more.
    Closed,
    /// A moment has a whole second or more of nanoseconds.
    BadMoment,
    /// There is no such volume, or no such range of it is in use.
    NoSuchRange,
    /// Memory ran out.
    NoMemory,
}

impl Refusal {
    ghost use Rattle.engine.specs.Numbers.{refusal_number};

    /// The number by which the refusal is told.
    pub fn number(self) -> u32
        ensures { result ≡ refusal_number self }
    {
        match self {
            Refusal::Busy => 21,
            Refusal::Worn => 22,
            Refusal::Full => 31,
            Refusal::NoSuchCall => 32,
            Refusal::WorkerBusy => 33,
            Refusal::NoWork => 34,
            Refusal::NotWorked => 35,
            Refusal::Closed => 36,
            Refusal::BadMoment => 37,
            Refusal::NoSuchRange => 41,
            Refusal::NoMemory => 90,
        }
    }
}
