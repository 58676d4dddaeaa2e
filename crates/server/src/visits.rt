//! The connections of a lane, read and written.

ghost use Rattle.std.specs.Prelude.{◌<◌, length};
ghost use Rattle.filer_lanes.specs.Lanes.{Stays};

use crate::common::Common;
use crate::company::Share;
use crate::guests::Guests;
use crate::keys::{Keys, list};
use crate::mailbox::Arrival;
use crate::owed::Owed;
use crate::privilege::peer_of;
use crate::socket::Socket;
use crate::station::{Buffers, Station};
use clerk::Event;
use connections::{Came, Connection, Flags, Sent};
use lanes::Lane;
use mio::net::TcpStream;
use mio::{Interest, Registry, Token};
use rpc_msg::BoxedCall;
use std::net;
use std::sync::Wait;
use tcp_front::Peer;

/// The most writes of one visit. Each but the last went out whole.
const MOST_WRITES: usize = 64;

/// Registers a socket once, for both ways, and gives it to the lane as a connection to a peer.
/// Answers its key, or none where it can't be served.
fn register<R>(
    lane: &mut Lane<Socket, R>,
    registry: &Registry,
    common: &Common,
    stream: net::TcpStream,
    peer: Peer,
) -> Option<usize>
    ensures { Stays lane.old lane.new }
{
    let token = Token(lane.next_key());
    let traffic = common.traffic(lane.index());
    let mut socket = Socket::new(TcpStream::from_std(stream), traffic);
    let both = Interest::READABLE | Interest::WRITABLE;
    if registry.register(&mut socket.stream, token, both).is_err() {
        return None;
    }
    lane.open(socket, peer).ok()
}

/// Opens a connection of a stream that arrived, in a second. Where it can't be served it is closed.
pub(crate) fn open<R: Wait>(
    lane: &mut Lane<Socket, R>,
    station: &mut Station,
    rt: &R,
    arrival: Arrival,
    now: u32,
)
    ensures { Stays lane.old lane.new }
{
    let Arrival { stream, peer } = arrival;
    let common = &station.common;
    let peer_is = peer_of(&common.rules, &stream, peer);
    match register(lane, station.poll.registry(), common, stream, peer_is) {
        Some(key) => {
            station.guests.admit(key, peer, now);
            if let (Some(connection), Some(peer)) = (lane.connection(key), peer) {
                let connection = connection.number();
                common.note(rt, Event::Opened { connection, peer });
            }
        }
        None => {
            if let Some(peer) = peer {
                common.note(rt, Event::NotServed { peer });
            }
            common.ends.add();
        }
    }
}

/// Whether a connection has something to read or to cut.
fn has_more(connection: &Connection<Socket>) -> bool {
    let flags = connection.flags();
    connection.has_kept() || flags.is_readable && !flags.has_ended
}

/// Whether a connection has something to read or to cut, and may be read: less is owed to it than
/// may be, and nothing is, or less than may be to all together; and of the lane it has no more than
/// it may have.
pub(crate) fn is_due<R>(lane: &Lane<Socket, R>, key: usize, all: &Owed, share: Share) -> bool {
    match lane.connection(key) {
        Some(connection) => {
            let owed = connection.owed();
            has_more(connection)
                && !connection.is_stopped()
                && lane.may_owe(owed)
                && (owed == 0 || !all.is_over())
                && share.may_read(connection.due().replies)
        }
        None => false,
    }
}

/// Whether a connection of a lane has something to read or to cut, and may be read.
pub(crate) fn any_is_due<R>(lane: &Lane<Socket, R>, keys: &Keys, all: &Owed, share: Share) -> bool {
    for place in 0..keys.len() {
        if is_due(lane, keys.at(place), all, share) {
            return true;
        }
    }
    false
}

/// What is known of a connection after it was read into a block of this size.
fn after_read(flags: Flags, came: Came, block: usize) -> Flags {
    match came {
        Came::Read(size) => Flags {
            is_readable: flags.is_closing || size >= block,
            ..flags
        },
        Came::Blocked => Flags {
            is_readable: false,
            ..flags
        },
        Came::End => Flags {
            has_ended: true,
            ..flags
        },
        Came::Failed => Flags {
            has_ended: true,
            ..flags
        },
        Came::Cut => flags,
        Came::Full => flags,
        Came::Stopped => flags,
    }
}

/// How many replies are owed to the connection of a key.
fn replies_to<R>(lane: &Lane<Socket, R>, key: usize) -> usize {
    match lane.connection(key) {
        Some(connection) => connection.due().replies,
        None => 0,
    }
}

/// Reads a connection once into at most so many bytes of a block, or cuts what is kept of it.
fn read_into<R: Wait>(
    lane: &mut Lane<Socket, R>,
    key: usize,
    asked: &mut BoxedCall,
    block: &mut [u8],
    most: usize,
) -> Came
    requires { 0 < length block.old }
    ensures { Stays lane.old lane.new }
{
    let most = most.max(1).min(block.len());
    lane.read(key, asked, &mut block[..most])
}

/// Reads a connection once, or cuts what is kept of it: by as many bytes as are likely to bring no
/// more than it may have of the lane, so that little is kept.
fn read<R: Wait>(
    lane: &mut Lane<Socket, R>,
    key: usize,
    guests: &mut Guests,
    buffers: &mut Buffers,
    share: Share,
)
    ensures { Stays lane.old lane.new }
{
    let (before, usual) = (replies_to(lane, key), guests.at(key).block);
    let most = share.block(usual).max(1).min(buffers.block.len());
    let came = read_into(lane, key, &mut buffers.asked, &mut buffers.block, most);
    match came {
        Came::Failed => guests.fail(key),
        Came::Read(size) => {
            let records = replies_to(lane, key).saturating_sub(before);
            let block = share.usual_after(usual, size, records);
            guests.set_block(key, block.min(buffers.block.len()));
            if size < most {
                guests.doubt(key);
            }
        }
        _ => {}
    }
    if let Some(connection) = lane.connection(key) {
        let flags = after_read(connection.flags(), came, most);
        lane.set_flags(key, flags);
    }
}

/// Reads each listed connection of a lane once that may be read, or cuts what is kept of it; in
/// each round another one first. All that are listed were heard of in this second.
pub(crate) fn read_all<R: Wait>(lane: &mut Lane<Socket, R>, station: &mut Station, now: u32)
    ensures { Stays lane.old lane.new }
{
    station.keys.turn();
    for others in 0..station.keys.len() {
        let key = station.keys.visited(others);
        station.guests.hear(key, now);
        station.company.meet(key, now);
        let share = station.company.share(lane, now);
        station.share = share;
        if is_due(lane, key, &station.common.owed, share) {
            read(lane, key, &mut station.guests, &mut station.buffers, share);
        }
    }
}

/// Has the connection of a key read once more, in the next round.
fn read_again<R>(lane: &mut Lane<Socket, R>, keys: &mut Keys, key: usize)
    ensures { Stays lane.old lane.new }
{
    if let Some(connection) = lane.connection(key) {
        let flags = Flags {
            is_readable: true,
            ..connection.flags()
        };
        lane.set_flags(key, flags);
        list(lane, keys, key);
    }
}

/// Has each connection in doubt read once more, in the next round. Answers whether there was one.
pub(crate) fn read_doubted<R>(lane: &mut Lane<Socket, R>, station: &mut Station) -> bool
    ensures { Stays lane.old lane.new }
{
    let doubts = station.guests.doubts();
    for _ in 0..doubts {
        if let Some(key) = station.guests.take_doubt() {
            read_again(lane, &mut station.keys, key);
        }
    }
    doubts > 0
}

/// Whether replies may wait for a connection, and its socket may have room.
pub(crate) fn is_writable<R>(lane: &Lane<Socket, R>, key: usize) -> bool {
    match lane.connection(key) {
        Some(connection) => {
            !connection.flags().is_blocked
                && (connection.due().replies > 0 || connection.has_rest())
        }
        None => false,
    }
}

/// Writes the replies of a connection, until there is none or the socket has no room. Answers
/// whether there may be more.
fn write<R>(lane: &mut Lane<Socket, R>, key: usize, buffers: &mut Buffers) -> bool
    ensures { Stays lane.old lane.new }
{
    for _ in 0..MOST_WRITES {
        match lane.write(key, &mut buffers.buffer) {
            Sent::More => {}
            Sent::All => return false,
            Sent::Failed => return false,
            Sent::Blocked => {
                if let Some(connection) = lane.connection(key) {
                    let flags = Flags {
                        is_blocked: true,
                        ..connection.flags()
                    };
                    lane.set_flags(key, flags);
                }
                return false;
            }
        }
    }
    true
}

/// How much is owed to the connection of a key.
fn owed_to<R>(lane: &Lane<Socket, R>, key: usize) -> usize {
    match lane.connection(key) {
        Some(connection) => connection.owed(),
        None => 0,
    }
}

/// Writes the replies of a connection, and notes how much is owed to it then, and whether it took
/// something in this second. Answers whether there may be more.
fn write_and_note<R>(
    lane: &mut Lane<Socket, R>,
    station: &mut Station,
    key: usize,
    now: u32,
) -> bool
    ensures { Stays lane.old lane.new }
{
    let before = owed_to(lane, key);
    let is_left = is_writable(lane, key) && write(lane, key, &mut station.buffers);
    let owed = owed_to(lane, key);
    if owed < before {
        station.guests.take(key, now);
    }
    let told = station.guests.owe(key, owed, now);
    station.common.owed.change(told, owed);
    is_left
}

/// Writes the replies of each listed connection that may have some, in a second. Answers whether
/// there may be more.
pub(crate) fn write_all<R>(lane: &mut Lane<Socket, R>, station: &mut Station, now: u32) -> bool
    ensures { Stays lane.old lane.new }
{
    let mut is_left = false;
    for place in 0..station.keys.len() {
        let key = station.keys.at(place);
        if write_and_note(lane, station, key, now) {
            is_left = true;
        }
    }
    is_left
}
