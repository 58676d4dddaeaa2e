//! Connections that are opened and closed.

ghost use Rattle.std.specs.Prelude.{◌≡◌, ◌<◌, slice_get, vec_len};
ghost use Rattle.std.specs.Vec.{with_item};
ghost use Rattle.nfs_model.specs.Events.Refusals as event;
ghost use Rattle.engine.specs.Connections.{key_at};
ghost use Rattle.engine.specs.declared.connection.Connection.TheVariants as places;
ghost use Rattle.engine.specs.Sound.{IsSoundEngine};
ghost use Rattle.engine.specs.Words.{DoesEvent, HasItsSetup};

use crate::connection::{ClosedConnection, Connection};
use crate::event::{Done, Refusal};
use crate::state::{CONNECTIONS, State};
use engine_feed::OpenConnection;
use nfs_values::ConnectionNumber;
use std::mem;

/// The key of the open connection of a number; none where it is closed or there is none.
pub(crate) fn key_of(connections: &[Connection], number: usize) -> Option<usize>
    ensures { result ≡ key_at (slice_get connections.now number) }
{
    match connections.get(number) {
        Some(Connection::Open(key)) => Some(*key),
        Some(Connection::Closed(_)) => None,
        None => None,
    }
}

/// Puts a closed connection in the place of a number.
fn set_closed(connections: &mut Vec<Connection>, number: usize, closed: ClosedConnection)
    requires { number < vec_len connections.old }
    ensures { connections.new ≡ with_item connections.old number (places.Closed closed) }
{
    drop(mem::replace(&mut connections[number], Connection::Closed(closed)));
}

/// Opens a connection, where fewer than 64 are open.
pub(crate) fn open_connection(state: &mut State) -> Result<Done, Refusal>
    requires { IsSoundEngine state.old }
    ensures events { DoesEvent state.old event.Open result state.new }
    ensures setup { HasItsSetup state.old state.new }
    ensures sound { IsSoundEngine state.new }
{
    if state.slab.len() >= CONNECTIONS {
        return Err(Refusal::Full);
    }
    if state.connections.try_reserve(1).is_err() {
        return Err(Refusal::NoMemory);
    }
    if state.slab.reserve(1).is_err() {
        return Err(Refusal::NoMemory);
    }
    let connection = ConnectionNumber(state.connections.len());
    let key = state.slab.insert_reserved(OpenConnection::new(state.alloc));
    state.connections.push_reserved(Connection::Open(key));
    Ok(Done::Opened { connection })
}

/// Closes an open connection: its calls still run, and nothing more is written to it.
pub(crate) fn close_connection(state: &mut State, connection: usize) -> Result<Done, Refusal>
    requires { IsSoundEngine state.old }
    ensures events { DoesEvent state.old (event.Close connection) result state.new }
    ensures setup { HasItsSetup state.old state.new }
    ensures sound { IsSoundEngine state.new }
{
    let key = match key_of(&state.connections, connection) {
        Some(key) => key,
        None => return Err(Refusal::Closed),
    };
    let (stream, output) = state.slab.remove(key).into_parts();
    let closed = ClosedConnection {
        stream,
        output,
        finished: state.calls.finished().len(),
    };
    set_closed(&mut state.connections, connection, closed);
    Ok(Done::Closed)
}
