//! The fields of connections, and of the calls on their way.

ghost use Rattle.std.specs.Prelude.{◌≡◌, ◌≤◌};

use crate::message::FinishedCall;
use crate::stop::StreamFault;
use affinity::Layout;
use nfs_values::Call;
use rpc_msg::Heard;
use rpc_record::Reassembler;
use scheduler::Waiting;
use std::alloc::Global;

/// The most bytes of the reply record of a call, or of a record that is refused.
pub(crate) const REPLY_LIMIT: usize = 65_584;

/// A connection that is open.
#[derive(Drop)]
pub(crate) struct ConnectionState {
    pub(crate) alloc: Global,
    /// All bytes taken.
    pub(crate) stream: Vec<u8>,
    pub(crate) reassembler: Reassembler,
    /// How many records were served.
    pub(crate) records: usize,
    /// The fault that ended the service, from which on nothing more is taken.
    pub(crate) fault: Option<StreamFault>,
    /// All bytes written.
    pub(crate) output: Vec<u8>,
    /// The room that is kept for the replies to its messages.
    pub(crate) owed: usize,
}

/// What bytes came to.
#[derive(Drop)]
pub(crate) enum Arrival {
    /// All were taken, and no record is whole.
    More,
    /// The last byte taken ends a record that is served.
    Heard(Heard),
    /// The last byte taken ends a record of this xid, but memory for its name ran out.
    Undecoded(u32),
    /// The last byte taken ends the service.
    Fault(StreamFault),
    /// Memory ran out, and none was taken.
    NoMemory,
}

/// Calls that wait, run or are finished.
#[derive(Drop)]
pub(crate) struct CallsState {
    pub(crate) layout: Layout,
    pub(crate) waiting: Waiting<Call>,
    /// How many were begun and are neither finished nor put back.
    pub(crate) running: usize,
    /// It has room for all that wait or run.
    pub(crate) finished: Vec<FinishedCall>,
}

impl CallsState {
    ghost use Rattle.engine_feed.specs.Seen.{pending};

    /// How many messages wait or run.
    pub(crate) fn pending(&self) -> usize
        requires { pending self.now ≤ 1024 }
        ensures { result ≡ pending self.now }
    {
        self.waiting.len() + self.running
    }
}
