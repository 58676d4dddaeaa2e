//! Bytes that come on a connection.

ghost use Rattle.std.specs.Prelude.{◌≡◌, ◌+◌, ◌≤◌, ◌++◌, length, vec_len, vec_capacity};
ghost use Rattle.engine_feed.specs.Sound.{IsInStep, TakesIn, TakesFrom, HasNoRecord, AdmitsNone};
ghost use Rattle.rpc_record.specs.Machine.{outcome};

use crate::reading::stream_fault;
use crate::state::{Arrival, ConnectionState};
use crate::stop::StreamFault;
use rpc_msg::{Offer, Request, read_record_of};
use rpc_record::Step;

/// Appends bytes that have their room.
fn keep(stream: &mut Vec<u8>, bytes: &[u8])
    requires { vec_len stream.old + length bytes.now ≤ vec_capacity stream.old }
    ensures items { stream.new.items ≡ stream.old.items ++ bytes.now }
    ensures len { vec_len stream.new ≡ vec_len stream.old + length bytes.now }
    ensures room { vec_capacity stream.old ≤ vec_capacity stream.new }
{
    stream.extend_from_slice(bytes).unwrap();
}

/// Takes bytes up to the end of at most one record, which is read by what is offered.
pub(crate) fn take_bytes(from: &mut ConnectionState, offer: Offer, bytes: &[u8]) -> (usize, Arrival)
    requires in_step { IsInStep from.old }
    requires taking { TakesIn from.old (length bytes.now) }
    ensures takes { TakesFrom offer from.old from.new bytes.now result.0 result.1 }
    ensures none { HasNoRecord (outcome from.old.reassembler bytes.now) → AdmitsNone result.1 }
{
    let (taken, step) = from.reassembler.feed(bytes);
    keep(&mut from.stream, &bytes[..taken]);
    match step {
        Step::NoMemory => (taken, Arrival::NoMemory),
        Step::More => (taken, Arrival::More),
        Step::Fault => {
            from.fault = Some(StreamFault::RecordTooLong);
            (taken, Arrival::Fault(StreamFault::RecordTooLong))
        }
        Step::Record(record) => match read_record_of(from.alloc, record, offer) {
            Ok(heard) => {
                from.records += 1;
                match &heard.request {
                    Request::Call { .. } => (taken, Arrival::Heard(heard)),
                    Request::Refused(_) => (taken, Arrival::Heard(heard)),
                    Request::Undecoded => (taken, Arrival::Undecoded(heard.xid)),
                }
            }
            Err(fault) => {
                let stopped = stream_fault(fault);
                from.fault = Some(stopped);
                (taken, Arrival::Fault(stopped))
            }
        },
    }
}
