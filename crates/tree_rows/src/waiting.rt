//! Messages found by affinity, and a thousand of them.

ghost use Rattle.affinity.specs.Affinity.{call_node};
ghost use Rattle.scheduler.specs.QueueNumber.{HasQueue};

use crate::holds::holds;
use affinity::CallNode;
use nfs_values::{Caller, ConnectionNumber};
use scheduler::{Message, NoSuchCall, Origin, Waiting};
use std::mem;
use std::process::Abort;

const LOGICAL: CallNode = CallNode::Logical(0);

const STRIPE: CallNode = CallNode::Stripe {
    volume: 0,
    stripe: 2,
};

const OTHER_STRIPE: CallNode = CallNode::Stripe {
    volume: 0,
    stripe: 3,
};

/// Lets a message of the first connection wait. The number of one that found no place.
fn refused(waiting: &mut Waiting<u32>, number: usize, affinity: CallNode) -> Option<usize>
    requires { HasQueue (call_node affinity) }
{
    let message = Message {
        origin: Origin {
            connection: ConnectionNumber(0),
            number,
            xid: 0,
        },
        call: 0,
        caller: Caller::NOBODY,
        affinity,
        room: 116,
    };
    match waiting.admit(message) {
        Ok(()) => None,
        Err(full) => {
            if full.number() != 31 {
                return None;
            }
            Some(full.message.origin.number)
        }
    }
}

/// The number of a message that was picked.
fn number(picked: Result<Message<u32>, NoSuchCall>) -> Option<usize> {
    match picked {
        Ok(message) => Some(message.origin.number),
        Err(NoSuchCall) => None,
    }
}

/// No message waits.
fn nothing(rt: &(impl Abort + AllocGlobal)) -> Waiting<u32> {
    Waiting::new(rt.alloc()).expect(rt, "no memory")
}

/// Looks whether this is the place that is wanted, if any.
fn is_place(rt: &impl Abort, place: Option<usize>, wanted: Option<usize>) {
    assert!(rt; place == wanted);
}

/// Lets four messages wait, by turns of two affinities.
fn admit_four(rt: &impl Abort, waiting: &mut Waiting<u32>) {
    is_place(rt, refused(waiting, 0, STRIPE), None);
    is_place(rt, refused(waiting, 1, LOGICAL), None);
    is_place(rt, refused(waiting, 2, STRIPE), None);
    is_place(rt, refused(waiting, 3, LOGICAL), None);
}

#[test]
fn by_affinity(rt: HostRuntime) {
    let mut waiting = nothing(&rt);
    holds(&rt, waiting.is_empty());
    admit_four(&rt, &mut waiting);
    is_place(&rt, waiting.first_of(LOGICAL), Some(1));
    is_place(&rt, number(waiting.pick(1)), Some(1));
    is_place(&rt, waiting.first_of(LOGICAL), Some(2));
    is_place(&rt, waiting.first_of(OTHER_STRIPE), None);
    holds(&rt, waiting.front_counted(STRIPE).1 == 1);
    is_place(&rt, number(waiting.pick(3)), None);
    holds(&rt, waiting.len() == 3);
    holds(&rt, waiting.pick_front(LOGICAL).is_some());
    is_place(&rt, waiting.first_of(LOGICAL), None);
    mem::forget(waiting);
}

#[test]
fn all_places(rt: HostRuntime) {
    let mut waiting = nothing(&rt);
    for i in 0..1_024 {
        is_place(&rt, refused(&mut waiting, i, LOGICAL), None);
    }
    is_place(&rt, refused(&mut waiting, 1_024, LOGICAL), Some(1_024));
    for i in 0..3_000 {
        is_place(&rt, number(waiting.pick(0)), Some(i % 1_024));
        is_place(&rt, refused(&mut waiting, i % 1_024, LOGICAL), None);
    }
    is_place(&rt, number(waiting.pick(1_023)), Some(2_999 % 1_024));
    mem::forget(waiting);
}

#[test]
fn no_such_call(rt: HostRuntime) {
    let mut waiting = nothing(&rt);
    let picked = waiting.pick(0);
    let number = match &picked {
        Ok(_) => 0,
        Err(refused) => refused.number(),
    };
    holds(&rt, number == 32);
    mem::forget(picked);
    mem::forget(waiting);
}
