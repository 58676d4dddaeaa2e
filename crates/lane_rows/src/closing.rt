//! The lanes of a filer over devices in memory, which are put together and closed.

ghost use Rattle.std.specs.Prelude.{◌≡◌, ◌≤◌, ◌+◌, [], vec_len, vec_capacity};
ghost use Rattle.filer_lanes.specs.Lanes.{AreLanesOf, Stays};
ghost use Rattle.granted_calls.specs.declared.shared.Filer as filers;

use crate::laned::{ask, close_after};
use crate::opening::{MemoryLane, open_both};
use crate::texts::{GETATTR, GETATTR_REPLY, NULL, NULL_REPLY};
use connections::Sent;
use filer_lanes::{FilerEnd, LaneBuffers, end};
use granted_calls::{Unwatched, Wanted};
use nfs_values::Moment;
use std::process::Abort;
use std::sync::{Arc, Wait};

/// How many bytes the replies have, to a NULL call and to a GETATTR.
const REPLIES: usize = 144;

/// Serves a connection of a lane that asks for attributes twice, and something at once: the first
/// of its two calls is run, its device gets just this many bytes of the replies, also where it is
/// written again, and is closed then. One call was finished, and one waits.
fn serve<R: Abort + AllocGlobal + Wait>(
    rt: &R,
    mut lane: MemoryLane<R>,
    takes: usize,
) -> MemoryLane<R>
    ensures { Stays lane result }
{
    let mut buffer = Vec::with_capacity(rt.alloc(), 256).expect(rt, "no memory");
    let key = ask(rt, &mut lane, &[&GETATTR, &NULL, &GETATTR], takes);
    let _chained = lane.turns(&Unwatched, &Wanted::new(), Moment::START, 1);
    let sent = lane.write(key, &mut buffer);
    let again = lane.write(key, &mut buffer);
    let wanted = if takes < REPLIES {
        Sent::Blocked
    } else {
        Sent::All
    };
    assert!(rt; (sent, again) == (wanted, wanted));
    close_after(rt, &mut lane, key, &[&NULL_REPLY, &GETATTR_REPLY], takes);
    assert!(rt; lane.waiting() == 1);
    lane
}

/// Serves each of these lanes so, and puts them behind others.
fn serve_each<R: Abort + AllocGlobal + Wait + Drop>(
    rt: &R,
    mut lanes: Vec<MemoryLane<R>>,
    mut served: Vec<MemoryLane<R>>,
    takes: usize,
) -> Vec<MemoryLane<R>>
    requires room { vec_len served + vec_len lanes ≤ vec_capacity served }
    requires none { served.items ≡ [] }
    ensures lanes { (filer : filers.Filer) → AreLanesOf filer lanes.items
        → AreLanesOf filer result.items }
    ensures len { vec_len result ≡ vec_len lanes }
{
    while let Some(lane) = lanes.pop() {
        served.push_reserved(serve(rt, lane, takes));
    }
    served
}

/// Both lanes of a filer are served, put together and closed. Each connection was written just the
/// first bytes of its replies, as many as its device takes; of each lane one call was finished and
/// one waits, though its connection is closed.
fn close_both<R: Abort + AllocGlobal + Wait + Copy + Drop>(rt: R, takes: usize) {
    let (filer, lanes) = open_both(rt);
    let served = Vec::with_capacity(rt.alloc(), 2).expect(&rt, "no memory");
    let lanes = serve_each(&rt, lanes, served, takes);
    let room = LaneBuffers::new(rt.alloc(), 2).expect(&rt, "no memory");
    let end = end(&rt, filer, lanes, room);
    assert!(&rt; end.unfinished() == 2);
    assert!(&rt; matches!(end, FilerEnd::Closed(_)));
}

/// Both lanes of a filer are put together while someone else has it still: all its parcels are
/// granted.
fn hold_both<R: Abort + AllocGlobal + Wait + Copy + Drop>(rt: R) {
    let (filer, lanes) = open_both(rt);
    let other = Arc::try_clone(&filer).expect(&rt, "no memory");
    let room = LaneBuffers::new(rt.alloc(), 2).expect(&rt, "no memory");
    let end = end(&rt, filer, lanes, room);
    assert!(&rt; end.unfinished() == 0);
    assert!(&rt; matches!(end, FilerEnd::Held(_)));
    drop(other);
}

#[test]
fn a_filer_that_is_shared_is_held(rt: HostRuntime) {
    hold_both(rt);
}

#[test]
fn two_lanes_are_closed_after_each_byte(rt: HostRuntime) {
    for takes in 0..=REPLIES + 1 {
        close_both(rt, takes);
    }
}
