//! Messages that are put.

ghost use Rattle.pool_rows.specs.Threads.{HasPut, IsReaderOf};
ghost use Rattle.granted_calls.specs.Messages.{IsPlaced};
ghost use Rattle.granted_calls.specs.Filers.{layout_in};

use crate::calls::{Ask, call_of};
use affinity::Layout;
use affinity::homes::home_of;
use granted_calls::shared_waiting::Pass;
use granted_calls::{Envelope, Filer};
use nfs_values::{Caller, ConnectionNumber};
use outboxes::Room;
use rpc_msg::{BoxedCall, DecodedCall, room_of_reply};
use scheduler::Origin;
use std::process::Abort;
use std::sync::Wait;
use std::thread;

/// A pass of a filer's queue.
pub(crate) type FilerPass = Pass<Envelope, Layout>;

/// A call, as it waits.
fn message_of(
    rt: &(impl Abort + AllocGlobal),
    filer: &Filer,
    connection: ConnectionNumber,
    xid: u32,
    ask: Ask,
) -> Envelope
    ensures { IsPlaced (layout_in filer.now) result }
{
    let layout = filer.depot().layout();
    let asked = DecodedCall {
        call: call_of(rt, ask),
        caller: Caller::NOBODY,
    };
    let affinity = home_of(&asked.call, layout).expect(rt, "a home");
    let reply_bound = room_of_reply(&asked.call, layout.volume_count() as u32);
    let origin = Origin {
        connection,
        number: xid as usize,
        xid,
    };
    let room = Room::new(rt.alloc(), reply_bound).expect(rt, "no memory");
    let mut asked = BoxedCall::new(rt.alloc(), asked).expect(rt, "no memory");
    Envelope::new(rt.alloc(), None, origin, &mut asked, affinity, room).expect(rt, "no memory")
}

/// Puts a message. Where the queue is full it tries again until there is a place.
pub(crate) fn put<R: Abort + AllocGlobal + Wait>(
    rt: &R,
    filer: &Filer,
    pass: &mut FilerPass,
    connection: ConnectionNumber,
    xid: u32,
    ask: Ask,
)
    requires { IsReaderOf filer.now pass.old }
    ensures { HasPut filer.now pass.old pass.new }
{
    let mut next = message_of(rt, filer, connection, xid, ask);
    for _ in rt.forever() {
        match filer.waiting().admit(rt, pass, next) {
            Ok(()) => return,
            Err(back) => next = back,
        }
        thread::yield_now();
    }
}

/// Puts a message of this call for each xid from one to before another.
pub(crate) fn put_all<R: Abort + AllocGlobal + Wait>(
    rt: &R,
    filer: &Filer,
    pass: &mut FilerPass,
    connection: ConnectionNumber,
    from: u32,
    until: u32,
    ask: Ask,
)
    requires { IsReaderOf filer.now pass.old }
    ensures { HasPut filer.now pass.old pass.new }
{
    for xid in from..until {
        put(rt, filer, pass, connection, xid, ask);
    }
}
