//! Connections under keys, each with its outbox.

ghost use Rattle.std.specs.Prelude.{◌≡◌, None, option_map, IfOk, IfSome};
ghost use Rattle.slab.specs.Slab.{get};
ghost use Rattle.connections.specs.Connections.{now_of};
ghost use Rattle.connections.specs.Keyed.{Closes, Flagged, HasBegun, Opens, WritesUnder};

use crate::connection::{Connection, Flags};
use crate::device::Device;
use crate::writing::Sent;
use outboxes::Outboxes;
use slab::Slab;
use std::alloc::Global;
use tcp_front::Peer;

/// Opens a connection to a peer over a device, under the next key and the next number. The device
/// comes back where there is no memory, or where as many connections are open as may be.
pub fn open_under<D: Device>(
    connections: &mut Slab<Connection<D>>,
    alloc: Global,
    outboxes: &mut Outboxes,
    device: D,
    peer: Peer,
) -> Result<usize, D>
    ensures opens { Opens connections.old outboxes.old device peer result connections.new
        outboxes.new }
    ensures vacant { IfOk result (λ key. get connections.old key ≡ None) }
    ensures begins { IfOk result
        (λ key. IfSome (get connections.new key) (HasBegun D.unread D.written)) }
{
    if connections.reserve(1).is_err() {
        return Err(device);
    }
    let number = match outboxes.open() {
        Ok(number) => number,
        Err(_refused) => return Err(device),
    };
    let connection = Connection::new(alloc, device, peer, number);
    Ok(connections.insert_reserved(connection))
}

/// Goes on writing the connection of a key (`Connection::write`), with a buffer for what goes out
/// at once. Where there is none, nothing is done, as where its device failed.
pub fn write_under<D: Device>(
    connections: &mut Slab<Connection<D>>,
    key: usize,
    outboxes: &mut Outboxes,
    buffer: &mut Vec<u8>,
) -> Sent
    ensures { WritesUnder D.unread D.written connections.old key (get connections.old key)
        outboxes.old result connections.new outboxes.new }
{
    match connections.get_mut(key) {
        Some(connection) => connection.write(outboxes, buffer),
        None => Sent::Failed,
    }
}

/// Keeps what a thread keeps of the connection of a key, if there is one.
pub fn flag_under<D>(connections: &mut Slab<Connection<D>>, key: usize, flags: Flags)
    ensures { Flagged connections.old key (get connections.old key) flags connections.new }
{
    match connections.get_mut(key) {
        Some(connection) => connection.set_flags(flags),
        None => {}
    }
}

/// Closes the connection of a key, and its outbox, and gives the connection back. What waits for it
/// is lost.
pub fn close_under<D>(
    connections: &mut Slab<Connection<D>>,
    key: usize,
    outboxes: &mut Outboxes,
) -> Option<Connection<D>>
    ensures closes { Closes connections.old key outboxes.old (get connections.old key)
        (option_map now_of result) connections.new outboxes.new }
    ensures connection { result ≡ get connections.old key }
{
    match connections.try_remove(key) {
        Some(connection) => {
            outboxes.shut(connection.number());
            Some(connection)
        }
        None => None,
    }
}
