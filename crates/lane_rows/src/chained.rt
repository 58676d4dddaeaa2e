//! Calls of a lane that run one after the other under one grant.

use crate::laned::{ask, end};
use crate::opening::{MemoryLane, open_lanes};
use crate::texts::{FSSTAT, FSSTAT_REPLY, GETATTR, GETATTR_REPLY};
use affinity::Affinity;
use granted_calls::{Chained, Hint, Unwatched, Wanted};
use nfs_values::Moment;
use std::process::Abort;
use std::sync::Wait;

/// Makes at most this many turns, which finish this many calls. What the last came to.
fn turns<R: Wait>(
    rt: &impl Abort,
    lane: &mut MemoryLane<R>,
    wanted: &Wanted,
    most: usize,
    finished: usize,
) -> Chained {
    let before = lane.waiting();
    let chained = lane.turns(&Unwatched, wanted, Moment::START, most);
    assert!(rt; before.saturating_sub(lane.waiting()) == finished);
    chained
}

#[test]
fn no_more_run_than_are_asked_for(rt: HostRuntime) {
    let (mut lane, _other) = open_lanes(rt);
    let one = ask(
        &rt,
        &mut lane,
        &[&GETATTR, &GETATTR, &GETATTR, &GETATTR, &GETATTR],
        usize::MAX,
    );
    let wanted = Wanted::new();
    assert!(&rt; matches!(turns(&rt, &mut lane, &wanted, 3, 3), Chained::Done));
    assert!(&rt; matches!(turns(&rt, &mut lane, &wanted, 3, 2), Chained::Done));
    assert!(&rt; matches!(turns(&rt, &mut lane, &wanted, 3, 0), Chained::Idle));
    let reply: &[u32] = &GETATTR_REPLY;
    end(rt, lane, one, &[reply, reply, reply, reply, reply]);
}

#[test]
fn who_is_asked_for_its_node_ends(rt: HostRuntime) {
    let (mut lane, _other) = open_lanes(rt);
    let one = ask(&rt, &mut lane, &[&GETATTR, &GETATTR, &GETATTR], usize::MAX);
    let wanted = Wanted::new();
    wanted.ask(Affinity::VolumeLogical(0));
    assert!(&rt; matches!(turns(&rt, &mut lane, &wanted, 3, 1), Chained::Done));
    assert!(&rt; matches!(turns(&rt, &mut lane, &wanted, 3, 2), Chained::Done));
    let reply: &[u32] = &GETATTR_REPLY;
    end(rt, lane, one, &[reply, reply, reply]);
}

#[test]
fn a_call_of_another_node_is_kept_for_the_next_turn(rt: HostRuntime) {
    let (mut lane, _other) = open_lanes(rt);
    let one = ask(&rt, &mut lane, &[&GETATTR, &FSSTAT, &GETATTR], usize::MAX);
    let wanted = Wanted::new();
    assert!(&rt; matches!(turns(&rt, &mut lane, &wanted, 9, 1), Chained::Done));
    assert!(&rt; lane.worker().keeps_message());
    assert!(&rt; matches!(turns(&rt, &mut lane, &wanted, 9, 1), Chained::Done));
    assert!(&rt; lane.worker().keeps_message());
    assert!(&rt; matches!(turns(&rt, &mut lane, &wanted, 9, 1), Chained::Done));
    assert!(&rt; !lane.worker().keeps_message());
    end(
        rt,
        lane,
        one,
        &[&GETATTR_REPLY, &FSSTAT_REPLY, &GETATTR_REPLY],
    );
}
