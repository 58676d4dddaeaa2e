//! What the system tells of the sockets of a lane's connections. It tells of each change once.

ghost use Rattle.filer_lanes.specs.Lanes.{Stays};

use crate::keys::{Keys, list};
use crate::socket::Socket;
use connections::Flags;
use lanes::Lane;
use mio::event::Event;

/// What is known of a connection after an event.
fn after_event(flags: Flags, event: &Event) -> Flags {
    let failed = event.is_error();
    let ends = event.is_read_closed() || failed;
    let has_room = event.is_writable() || event.is_write_closed() || failed;
    Flags {
        is_readable: flags.is_readable || event.is_readable() || ends,
        is_closing: flags.is_closing || ends,
        is_blocked: flags.is_blocked && !has_room,
        ..flags
    }
}

/// Keeps what an event tells of the connection of its token, if one has it, and lists it.
pub(crate) fn hear<R>(lane: &mut Lane<Socket, R>, keys: &mut Keys, event: &Event)
    ensures { Stays lane.old lane.new }
{
    let key = event.token().0;
    if let Some(connection) = lane.connection(key) {
        let flags = after_event(connection.flags(), event);
        lane.set_flags(key, flags);
        list(lane, keys, key);
    }
}
