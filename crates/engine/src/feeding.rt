//! Bytes that come on a connection.

ghost use Rattle.nfs_model.specs.Events.Refusals as event;
ghost use Rattle.slab.specs.Slab.{ContainsKey};
ghost use Rattle.engine.specs.Receiving.{ReceivesUnder};
ghost use Rattle.engine.specs.Sound.{IsSoundEngine};
ghost use Rattle.engine.specs.Words.{DoesEvent, HasItsSetup};

use crate::connecting::key_of;
use crate::event::{Done, Refusal};
use crate::state::State;
use engine_feed::{Calls, OpenConnection, Stop};
use nfs_laws::laws::without_home_stays;
use nfs_values::ConnectionNumber;
use rpc_msg::Offer;
use slab::Slab;

/// Takes bytes on the open connection that is kept under a key, where it is at no fault: how many,
/// and why no more.
fn receive(
    slab: &mut Slab<OpenConnection>,
    key: usize,
    calls: &mut Calls,
    offer: Offer,
    number: ConnectionNumber,
    bytes: &[u8],
) -> Option<(usize, Stop)>
    requires { ContainsKey slab.old key }
    ensures { ReceivesUnder offer calls.old slab.old key number.0 bytes.now result
        calls.new slab.new }
{
    let on = &mut slab[key];
    if !on.takes_input() {
        return None;
    }
    Some(on.feed(calls, offer, number, bytes))
}

/// Takes bytes on a connection that is open and at no fault.
pub(crate) fn feed(state: &mut State, connection: usize, bytes: &[u8]) -> Result<Done, Refusal>
    requires { IsSoundEngine state.old }
    ensures events { DoesEvent state.old (event.Feed connection bytes.now) result state.new }
    ensures setup { HasItsSetup state.old state.new }
    ensures sound { IsSoundEngine state.new }
{
    let key = match key_of(&state.connections, connection) {
        Some(key) => key,
        None => return Err(Refusal::Closed),
    };
    without_home_stays();
    let number = ConnectionNumber(connection);
    match receive(
        &mut state.slab,
        key,
        &mut state.calls,
        state.offer,
        number,
        bytes,
    ) {
        None => Err(Refusal::Closed),
        Some((taken, stop)) => Ok(Done::Fed { taken, stop }),
    }
}
