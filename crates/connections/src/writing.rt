//! One write to a connection.

ghost use Rattle.std.specs.Prelude.{◌≡◌, ◌≢◌, ◌<◌, ◌≤◌, ◌++◌, [], length};
ghost use Rattle.tcp_front.specs.Writing.{records_of};
ghost use Rattle.connections.specs.Rests.{list_of};
ghost use Rattle.connections.specs.Writing.{all_of, breaks, HasSent, HasWrittenParts, IsOutcome};
ghost use Rattle.connections.specs.declared.writing.Sent.TheVariants.{All, More};

use crate::connection::Connection;
use crate::device::Device;
use crate::due::Due;
use crate::joining::join;
use crate::rest::Rest;
use crate::told::Told;
use crate::watched::Watched;
use nfs_values::ConnectionNumber;
use outboxes::{Outboxes, Record};
use std::alloc::Global;

/// What one write came to.
#[derive(Clone, Copy, PartialEq, Eq, Debug)]
pub enum Sent {
    /// Nothing waits any more.
    All,
    /// What was offered went out, and there may be more: it is to be called again.
    More,
    /// The device has no more room, and the rest waits until it is writable.
    Blocked,
    /// The device failed, and nothing more is written.
    Failed,
}

/// What an answer to a write of this many bytes comes to, and how many of them went out.
fn outcome_of(told: Told, size: usize) -> (usize, Sent)
    ensures within { result.0 ≤ size }
    ensures is { IsOutcome told size result.0 result.1 }
    ensures asks { result.1 ≢ All }
{
    match told {
        Told::Moved(0) => (0, Sent::Failed),
        Told::Moved(moved) => {
            if moved < size {
                (moved, Sent::Blocked)
            } else {
                (size, Sent::More)
            }
        }
        Told::Blocked => (0, Sent::Blocked),
        Told::Failed => (0, Sent::Failed),
    }
}

/// What a write came to where nothing else waits.
fn all_of(sent: Sent) -> Sent
    ensures { result ≡ all_of sent }
{
    match sent {
        Sent::More => Sent::All,
        Sent::All => Sent::All,
        Sent::Blocked => Sent::Blocked,
        Sent::Failed => Sent::Failed,
    }
}

/// Whether nothing more is written after this.
fn breaks(sent: Sent) -> bool
    ensures { result ≡ breaks sent }
{
    match sent {
        Sent::Failed => true,
        Sent::All | Sent::More | Sent::Blocked => false,
    }
}

/// Writes once what the device had no room for.
fn write_rest<D: Device>(device: &mut Watched<D>, rest: &mut Rest) -> Sent
    requires { 0 < length rest.old }
    ensures sent { HasSent D.unread D.written device.old rest.old result device.new rest.new }
    ensures asks { result ≢ All }
{
    let first = rest.first();
    let size = first.len();
    let (moved, sent) = outcome_of(device.write_once(first), size);
    rest.forget(moved);
    sent
}

/// Writes once what was joined, with a record behind it that wasn't.
fn write_buffer<D: Device>(
    alloc: Global,
    device: &mut Watched<D>,
    buffer: &mut Vec<u8>,
    alone: Option<Record>,
    rest: &mut Rest,
) -> Sent
    requires { 0 < length buffer.old.items }
    ensures sent { HasSent D.unread D.written device.old
        (buffer.old.items ++ records_of (list_of alone)) result device.new rest.new }
    ensures asks { result ≢ All }
    ensures left { result ≡ More → rest.new ≡ records_of (list_of alone) }
{
    let size = buffer.len();
    let (moved, sent) = outcome_of(device.write_once(buffer), size);
    *rest = Rest::of(alloc, buffer, moved, alone);
    sent
}

/// The bytes of a buffer that replies are joined in.
pub const BUFFER_BYTES: usize = 262_144;

/// Empties a buffer, and makes room in one that has none, as where it was given away for want of
/// memory. Where there is none still, records go out one by one.
fn make_ready(buffer: &mut Vec<u8>)
    ensures { buffer.new.items ≡ [] }
{
    buffer.clear();
    if buffer.capacity() == 0 {
        let _made = buffer.try_reserve_exact(BUFFER_BYTES);
    }
}

/// Writes once what the device had no room for; or, where that is nothing, takes what waits in the
/// connection's outbox and writes of that once.
fn write_some<D: Device>(
    alloc: Global,
    device: &mut Watched<D>,
    rest: &mut Rest,
    connection: ConnectionNumber,
    outboxes: &mut Outboxes,
    owed: &mut Due,
    buffer: &mut Vec<u8>,
) -> Sent
    ensures { HasWrittenParts D.unread D.written connection.0 device.old rest.old outboxes.old
        owed.old result device.new rest.new outboxes.new owed.new }
{
    if !rest.is_empty() {
        return write_rest(device, rest);
    }
    make_ready(buffer);
    match join(outboxes, connection, buffer, owed) {
        None => {
            if buffer.is_empty() {
                return Sent::All;
            }
            all_of(write_buffer(alloc, device, buffer, None, rest))
        }
        Some(record) => {
            if buffer.is_empty() {
                *rest = Rest::of(alloc, buffer, 0, Some(record));
                return write_rest(device, rest);
            }
            write_buffer(alloc, device, buffer, Some(record), rest)
        }
    }
}

impl<D: Device> Connection<D> {
    ghost use Rattle.connections.specs.Writing.{HasWritten};

    /// Goes on writing, with a buffer for what goes out at once: what the device had no room for,
    /// or else what waits in the connection's outbox.
    pub fn write(&mut self, outboxes: &mut Outboxes, buffer: &mut Vec<u8>) -> Sent
        ensures { HasWritten D.unread D.written self.old outboxes.old result
            self.new outboxes.new }
    {
        if self.is_broken {
            return Sent::Failed;
        }
        let sent = write_some(
            self.stream.alloc,
            &mut self.device,
            &mut self.rest,
            self.stream.connection,
            outboxes,
            &mut self.owed,
            buffer,
        );
        self.is_broken = breaks(sent);
        sent
    }
}
