//! Connections that are closed.

ghost use Rattle.filer_lanes.specs.Lanes.{Stays};

use crate::company::Share;
use crate::guests::Guest;
use crate::keys::unlist;
use crate::owed::Owed;
use crate::socket::Socket;
use crate::station::Station;
use crate::visits::{is_due, is_writable};
use clerk::{Event, Reason};
use connections::Connection;
use engine_feed::StreamFault;
use lanes::Lane;
use server_options::IdleTime;
use std::sync::Wait;
use tcp_front::Stopped;

/// Why bytes of a connection were taken no further.
fn reason_of_stop(stopped: Stopped) -> Reason {
    match stopped {
        Stopped::Fault(StreamFault::RecordTooLong) => Reason::RecordTooLong,
        Stopped::Fault(StreamFault::BadHeader) => Reason::BadHeader,
        Stopped::Fault(StreamFault::NotACall) => Reason::NotACall,
        Stopped::NoMemory => Reason::NoMemory,
        Stopped::NumbersUsed => Reason::NumbersUsed,
    }
}

/// Why no more is read of a connection or written to it, whose server is about to stop or isn't.
fn reason_of(connection: &Connection<Socket>, guest: Guest, stops: bool) -> Reason {
    if connection.is_broken() {
        return Reason::SocketFailed;
    }
    match connection.stopped() {
        Some(stopped) => reason_of_stop(stopped),
        None => {
            if guest.has_failed {
                Reason::SocketFailed
            } else if stops {
                Reason::Stops
            } else {
                Reason::PeerClosed
            }
        }
    }
}

/// Whether nothing more is read of a connection and no reply is owed to it, or its device failed.
fn has_ended(connection: &Connection<Socket>) -> bool {
    let is_read = connection.is_stopped() || connection.flags().has_ended && !connection.has_kept();
    connection.is_broken() || is_read && connection.due().replies == 0 && !connection.has_rest()
}

/// Why the connection of a key is over, if it is.
fn end_of<R>(lane: &Lane<Socket, R>, station: &Station, key: usize) -> Option<Reason> {
    match lane.connection(key) {
        Some(connection) => {
            if has_ended(connection) {
                let guest = station.guests.at(key);
                Some(reason_of(connection, guest, station.common.stops()))
            } else {
                None
            }
        }
        None => None,
    }
}

/// Closes the connection of a key, and tells why.
fn close<R: Wait>(
    lane: &mut Lane<Socket, R>,
    station: &mut Station,
    rt: &R,
    key: usize,
    reason: Reason,
)
    ensures { Stays lane.old lane.new }
{
    if let Some(connection) = lane.connection(key) {
        let connection = connection.number();
        if let Some(peer) = station.guests.at(key).peer {
            let event = Event::Closed {
                connection,
                peer,
                reason,
            };
            station.common.note(rt, event);
        }
        station.common.owed.change(station.guests.at(key).owed, 0);
        // Its place is free before its peer is told.
        let _device = lane.close(key);
        station.common.ends.add();
    }
}

/// Whether a connection has something to do without word of the system: to read or to cut, where it
/// may be read, or to write, where replies are due.
fn is_busy<R>(lane: &Lane<Socket, R>, key: usize, all: &Owed, share: Share) -> bool {
    is_due(lane, key, all, share) || is_writable(lane, key)
}

/// Closes the connections that are over, and lists those no longer that have nothing to do: a
/// connection is over only after it was read or written, or the system told of it, and then it is
/// listed.
pub(crate) fn close_ended<R: Wait>(lane: &mut Lane<Socket, R>, station: &mut Station, rt: &R)
    ensures { Stays lane.old lane.new }
{
    let mut kept = 0usize;
    for place in 0..station.keys.len() {
        let key = station.keys.at(place);
        if let Some(reason) = end_of(lane, station, key) {
            close(lane, station, rt, key, reason);
        } else if is_busy(lane, key, &station.common.owed, station.share) {
            station.keys.put(kept, key);
            kept = kept.saturating_add(1);
        } else {
            unlist(lane, key);
        }
    }
    station.keys.truncate(kept);
}

/// Whether the connection of a key is idle in a second: it isn't listed, and nothing was heard of
/// it for so long, or, where something is owed to it, it took nothing for so long.
fn is_idle<R>(lane: &Lane<Socket, R>, guest: Guest, key: usize, idle: IdleTime, now: u32) -> bool {
    match lane.connection(key) {
        Some(connection) => {
            let is_silent = !connection.flags().is_listed;
            let is_owed = connection.due().replies > 0 || connection.has_rest();
            let since = if is_owed { guest.taken } else { guest.heard };
            is_silent && idle.is_over(since, now)
        }
        None => false,
    }
}

/// Closes all connections with a peer, since the server stops.
pub(crate) fn close_all<R: Wait>(lane: &mut Lane<Socket, R>, station: &mut Station, rt: &R)
    ensures { Stays lane.old lane.new }
{
    for key in 0..station.guests.len() {
        if station.guests.at(key).peer.is_some() {
            close(lane, station, rt, key, Reason::Stops);
        }
    }
}

/// Closes the connections that are idle in a second, where others found no place since this was
/// done last.
pub(crate) fn close_idle<R: Wait>(
    lane: &mut Lane<Socket, R>,
    station: &mut Station,
    rt: &R,
    now: u32,
)
    ensures { Stays lane.old lane.new }
{
    let word = station.common.crowd.second();
    let Some(idle) = station.common.crowd.idle else {
        return;
    };
    if word == station.cleared {
        return;
    }
    station.cleared = word;
    for key in 0..station.guests.len() {
        if is_idle(lane, station.guests.at(key), key, idle, now) {
            close(lane, station, rt, key, Reason::Idle);
        }
    }
}
