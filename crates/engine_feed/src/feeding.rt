//! Bytes that are fed: taken up to the end of each record, and the records admitted.

ghost use Rattle.std.specs.Prelude.{◌≡◌, ◌≤◌, ◌<◌, true, false, length, None, OnOk};
ghost use Rattle.engine_feed.specs.Seen.{pending};
ghost use Rattle.engine_feed.specs.Sound.{IsSoundConnection, AreSound, TakesIn, IsFree, MayGoOn};
ghost use Rattle.engine_feed.specs.Sound.{HasRoomToReply, HaveRoomToAdmit};
ghost use Rattle.engine_feed.specs.Sound.{IsRoomier, IsStreamRoomier, AreRoomier};
ghost use Rattle.engine_feed.specs.Words.{FeedsSome, FeedsAll, MayTakeMore, StaysSound, HasFed};

use crate::admitting::{admit, starve};
use crate::arrival::take_bytes;
use crate::state::{Arrival, CallsState, ConnectionState, REPLY_LIMIT};
use crate::stop::Stop;
use nfs_laws::laws::feeds_are_walks;
use nfs_values::ConnectionNumber;
use rpc_msg::Offer;
use rpc_record::Look;
use scheduler::{MOST_WAITING, Origin};
use std::alloc::AllocError;

/// Room for one more reply beside those that are owed.
fn make_room_to_reply(connection: &mut ConnectionState) -> Result<(), AllocError>
    requires { IsSoundConnection connection.old }
    ensures same { IsRoomier connection.old connection.new }
    ensures room { OnOk result (HasRoomToReply connection.new) }
{
    connection.output.try_reserve(connection.owed + REPLY_LIMIT)
}

/// Room for the entry of one more message.
fn make_room_to_admit(calls: &mut CallsState) -> Result<(), AllocError>
    requires sound { AreSound calls.old }
    requires places { pending calls.old < 1024 }
    ensures same { AreRoomier calls.old calls.new }
    ensures room { OnOk result (HaveRoomToAdmit calls.new) }
{
    let entries = calls.pending() + 1;
    calls.finished.try_reserve(entries)
}

/// Room for one more message, its entry and its reply.
fn make_room(connection: &mut ConnectionState, calls: &mut CallsState) -> Result<(), AllocError>
    requires connection { IsSoundConnection connection.old }
    requires calls { AreSound calls.old }
    requires places { pending calls.old < 1024 }
    ensures connection { IsRoomier connection.old connection.new }
    ensures calls { AreRoomier calls.old calls.new }
    ensures reply { OnOk result (HasRoomToReply connection.new) }
    ensures entry { OnOk result (HaveRoomToAdmit calls.new) }
{
    make_room_to_admit(calls)?;
    make_room_to_reply(connection)
}

/// Takes bytes where there are places, up to the end of at most one record.
fn take_and_admit(
    connection: &mut ConnectionState,
    calls: &mut CallsState,
    offer: Offer,
    number: ConnectionNumber,
    bytes: &[u8],
) -> (usize, Option<Stop>)
    requires connection { IsSoundConnection connection.old }
    requires calls { AreSound calls.old }
    requires taking { TakesIn connection.old (length bytes.now) }
    requires some { 0 < length bytes.now }
    requires places { pending calls.old < 1024 }
    ensures feeds { FeedsSome offer calls.old connection.old number.0 bytes.now result.0
        result.1 calls.new connection.new }
    ensures within { result.0 ≤ length bytes.now }
    ensures goes_on { MayTakeMore bytes.now result.0 result.1 connection.new }
    ensures stays { StaysSound calls.old connection.old number.0 calls.new connection.new }
{
    if make_room(connection, calls).is_err() {
        return (0, Some(Stop::NoMemory));
    }
    let place = connection.records;
    let (taken, arrival) = take_bytes(connection, offer, bytes);
    match arrival {
        Arrival::NoMemory => (taken, Some(Stop::NoMemory)),
        Arrival::Fault(fault) => (taken, Some(Stop::Fault(fault))),
        Arrival::More => (taken, None),
        Arrival::Heard(heard) => {
            let origin = Origin {
                connection: number,
                number: place,
                xid: heard.xid,
            };
            admit(connection, calls, offer, origin, heard.request);
            (taken, None)
        }
        Arrival::Undecoded(xid) => {
            let origin = Origin {
                connection: number,
                number: place,
                xid,
            };
            starve(connection, calls, origin);
            (taken, None)
        }
    }
}

/// How many of the bytes complete no record: all, or those before the byte that would.
fn free_bytes(connection: &ConnectionState, bytes: &[u8]) -> usize
    ensures { IsFree connection.now.reassembler bytes.now result }
{
    let (taken, look) = connection.reassembler.look(bytes);
    match look {
        Look::Record => taken - 1,
        Look::More | Look::Fault => bytes.len(),
    }
}

/// Takes bytes where the places are full: none that would complete a record.
fn take_when_full(
    connection: &mut ConnectionState,
    calls: &mut CallsState,
    offer: Offer,
    number: ConnectionNumber,
    bytes: &[u8],
) -> (usize, Option<Stop>)
    requires connection { IsSoundConnection connection.old }
    requires calls { AreSound calls.old }
    requires taking { TakesIn connection.old (length bytes.now) }
    requires some { 0 < length bytes.now }
    requires full { pending calls.old ≡ 1024 }
    ensures feeds { FeedsSome offer calls.old connection.old number.0 bytes.now result.0
        result.1 calls.new connection.new }
    ensures within { result.0 ≤ length bytes.now }
    ensures goes_on { MayTakeMore bytes.now result.0 result.1 connection.new }
    ensures stays { StaysSound calls.old connection.old number.0 calls.new connection.new }
{
    let free = free_bytes(connection, bytes);
    if free == 0 {
        return (0, Some(Stop::Full));
    }
    let (taken, arrival) = take_bytes(connection, offer, &bytes[..free]);
    match arrival {
        Arrival::NoMemory => (taken, Some(Stop::NoMemory)),
        Arrival::Fault(fault) => (taken, Some(Stop::Fault(fault))),
        Arrival::Heard(_) | Arrival::Undecoded(_) => unreachable!(),
        Arrival::More => {
            if free < bytes.len() {
                (taken, Some(Stop::Full))
            } else {
                (taken, None)
            }
        }
    }
}

/// Takes bytes up to the end of at most one record.
fn take_some(
    connection: &mut ConnectionState,
    calls: &mut CallsState,
    offer: Offer,
    number: ConnectionNumber,
    bytes: &[u8],
) -> (usize, Option<Stop>)
    requires connection { IsSoundConnection connection.old }
    requires calls { AreSound calls.old }
    requires taking { TakesIn connection.old (length bytes.now) }
    requires some { 0 < length bytes.now }
    ensures feeds { FeedsSome offer calls.old connection.old number.0 bytes.now result.0
        result.1 calls.new connection.new }
    ensures within { result.0 ≤ length bytes.now }
    ensures goes_on { MayTakeMore bytes.now result.0 result.1 connection.new }
    ensures stays { StaysSound calls.old connection.old number.0 calls.new connection.new }
{
    if calls.pending() < MOST_WAITING {
        take_and_admit(connection, calls, offer, number, bytes)
    } else {
        take_when_full(connection, calls, offer, number, bytes)
    }
}

/// Takes bytes on a connection whose stream has room for them.
fn take_all(
    connection: &mut ConnectionState,
    calls: &mut CallsState,
    offer: Offer,
    number: ConnectionNumber,
    bytes: &[u8],
) -> (usize, Stop)
    requires connection { IsSoundConnection connection.old }
    requires calls { AreSound calls.old }
    requires taking { TakesIn connection.old (length bytes.now) }
    ensures feeds { FeedsAll offer calls.old connection.old number.0 bytes.now result.0
        result.1 calls.new connection.new }
    ensures within { result.0 ≤ length bytes.now }
    ensures stays { StaysSound calls.old connection.old number.0 calls.new connection.new }
{
    let mut taken = 0;
    while taken < bytes.len() {
        let (count, stop) = take_some(connection, calls, offer, number, &bytes[taken..]);
        taken += count;
        if let Some(stop) = stop {
            return (taken, stop);
        }
    }
    (taken, Stop::AllTaken)
}

/// Whether the places are full, and the first byte would complete a record.
fn is_stopped(connection: &ConnectionState, calls: &CallsState, bytes: &[u8]) -> bool
    requires { AreSound calls.now }
    ensures stopped { result ≡ true
        → (pending calls.now ≡ 1024) × IsFree connection.now.reassembler bytes.now 0 }
    ensures goes_on { result ≡ false → MayGoOn calls.now connection.now bytes.now }
{
    if calls.pending() < MOST_WAITING {
        return false;
    }
    free_bytes(connection, bytes) == 0
}

/// Room for this many bytes more of a stream.
fn make_stream_room(connection: &mut ConnectionState, size: usize) -> Result<(), AllocError>
    requires { connection.old.fault ≡ None }
    ensures same { IsStreamRoomier connection.old connection.new }
    ensures room { OnOk result (TakesIn connection.new size) }
{
    connection.stream.try_reserve(size)
}

/// Takes bytes on a connection that is at no fault, and what they complete waits or is answered.
fn feed_open(
    connection: &mut ConnectionState,
    calls: &mut CallsState,
    offer: Offer,
    number: ConnectionNumber,
    bytes: &[u8],
) -> (usize, Stop)
    requires connection { IsSoundConnection connection.old }
    requires calls { AreSound calls.old }
    requires at { connection.old.fault ≡ None }
    ensures feeds { FeedsAll offer calls.old connection.old number.0 bytes.now result.0
        result.1 calls.new connection.new }
    ensures within { result.0 ≤ length bytes.now }
    ensures stays { StaysSound calls.old connection.old number.0 calls.new connection.new }
{
    if bytes.is_empty() {
        return (0, Stop::AllTaken);
    }
    if is_stopped(connection, calls, bytes) {
        return (0, Stop::Full);
    }
    if make_stream_room(connection, bytes.len()).is_err() {
        return (0, Stop::NoMemory);
    }
    take_all(connection, calls, offer, number, bytes)
}

/// Feeds bytes to a connection that is at no fault.
pub(crate) fn feed(
    connection: &mut ConnectionState,
    calls: &mut CallsState,
    offer: Offer,
    number: ConnectionNumber,
    bytes: &[u8],
) -> (usize, Stop)
    requires connection { IsSoundConnection connection.old }
    requires calls { AreSound calls.old }
    requires at { connection.old.fault ≡ None }
    ensures feeds { HasFed offer calls.old connection.old number.0 bytes.now result.0 result.1
        calls.new connection.new }
    ensures within { result.0 ≤ length bytes.now }
    ensures stays { StaysSound calls.old connection.old number.0 calls.new connection.new }
{
    feeds_are_walks();
    feed_open(connection, calls, offer, number, bytes)
}
