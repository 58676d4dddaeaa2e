//! Lists of events, given to an engine.

use crate::looking::{holds, same};
use crate::replaying::texts::{NULL, NULL_REPLY, NULL_UNAVAILABLE};
use affinity::{AggregateSpec, Layout, VolumeSpec};
use engine::{Engine, Event, Worker, WorkerRun};
use nfs_values::{ConnectionNumber, Procedure, WorkerNumber};
use rpc_msg::Offer;
use std::process::Abort;

/// The bytes that hex digits stand for.
fn decoded(rt: &(impl Abort + AllocGlobal), digits: &str) -> Vec<u8> {
    hex::decode(rt.alloc(), digits.as_bytes()).expect(rt, "hex digits")
}

/// A layout of one volume.
fn layout(rt: &(impl Abort + AllocGlobal)) -> Layout {
    let aggregate = AggregateSpec { spare: 1 };
    let volume = VolumeSpec::new(0, 1);
    let layout = Layout::new(rt.alloc(), &[aggregate], &[volume]).ok();
    layout.expect(rt, "a layout")
}

/// An engine of two workers after these events.
fn played(rt: &(impl Abort + AllocGlobal), events: &[Event<'_>]) -> Engine {
    Engine::play(rt.alloc(), layout(rt), [0; 8], 2, events).expect(rt, "memory")
}

/// An engine with this offer after these events.
fn offering(rt: &(impl Abort + AllocGlobal), offer: Offer, events: &[Event<'_>]) -> Engine {
    let made = Engine::offering(rt.alloc(), offer, layout(rt), [0; 8], 2);
    let mut engine = made.expect(rt, "memory");
    holds(rt, engine.run(events) == 0);
    engine
}

/// Whether a worker runs and carries nothing.
fn is_idle(worker: &Worker) -> bool {
    matches!(worker.run, WorkerRun::Idle) && worker.hand.count() == 0
}

/// Looks at all that an engine shows after a call on its first connection.
fn shows(rt: &impl Abort, engine: &Engine, call: &[u8], reply: &[u8]) {
    same(rt, engine.output(0), reply);
    same(rt, engine.stream(0), call);
    holds(rt, engine.finished().len() == 1);
    holds(rt, engine.running().iter().all(is_idle));
}

#[test]
fn lists_of_events_are_played(rt: HostRuntime) {
    let call = decoded(&rt, NULL);
    let reply = decoded(&rt, NULL_REPLY);
    let fed = Event::Feed {
        connection: ConnectionNumber(0),
        bytes: &call,
    };
    let mut engine = played(&rt, &[Event::Open, fed]);
    shows(&rt, &engine, &call, &reply);
    let refused = engine.run(&[
        Event::Open,
        fed,
        Event::Work {
            worker: WorkerNumber(0),
        },
    ]);
    holds(&rt, refused == 1 && engine.finished().len() == 2);
}

#[test]
fn engines_answer_what_they_offer(rt: HostRuntime) {
    let call = decoded(&rt, NULL);
    let fed = Event::Feed {
        connection: ConnectionNumber(0),
        bytes: &call,
    };
    let fewer = Offer::basic().without(Procedure::Null);
    let engine = offering(&rt, fewer, &[Event::Open, fed]);
    shows(&rt, &engine, &call, &decoded(&rt, NULL_UNAVAILABLE));
    let engine = offering(&rt, fewer.with(Procedure::Null), &[Event::Open, fed]);
    shows(&rt, &engine, &call, &decoded(&rt, NULL_REPLY));
}
