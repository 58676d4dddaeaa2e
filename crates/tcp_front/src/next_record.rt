//! Bytes up to the end of a record.

ghost use Rattle.std.specs.Prelude.{◌≤◌, length};
ghost use Rattle.rpc_msg.specs.declared.offer.Offer.{Offer};
ghost use Rattle.tcp_front.specs.Steps.{Comes};

use crate::stream::Stopped;
use engine_feed::StreamFault;
use rpc_record::{Reassembler, Step};

/// What bytes came to.
#[derive(Drop)]
pub(crate) enum Next {
    /// All were taken, and no record is whole.
    More,
    /// The last byte taken ends this record.
    Record(Vec<u8>),
    /// The last byte taken ends the reading.
    Stopped(Stopped),
}

/// Takes bytes up to the end of at most one record: what they bring, whatever is offered.
pub(crate) fn next_record(reassembler: &mut Reassembler, bytes: &[u8]) -> (usize, Next)
    ensures within { result.0 ≤ length bytes.now }
    ensures comes { (offer : Offer)
        → Comes offer reassembler.old bytes.now result.0 result.1 reassembler.new }
{
    let (taken, step) = reassembler.feed(bytes);
    match step {
        Step::More => (taken, Next::More),
        Step::Record(record) => (taken, Next::Record(record)),
        Step::Fault => (
            taken,
            Next::Stopped(Stopped::Fault(StreamFault::RecordTooLong)),
        ),
        Step::NoMemory => (taken, Next::Stopped(Stopped::NoMemory)),
    }
}
