//! A lane, call by call in one thread.

ghost use Rattle.std.specs.Prelude.{Some, IfSome};
ghost use Rattle.filer_lanes.specs.Lanes.{Stays};
ghost use Rattle.lanes.specs.Written.{WasWritten};

use crate::memory::{Memory, device};
use crate::opening::{MemoryLane, open_lanes};
use crate::texts::{GETATTR, NULL, bytes_of};
use connections::{Came, Sent};
use lanes::LaneParts;
use nfs_values::{PeerAddress, Standing, VolumeNumber};
use rpc_msg::BoxedCall;
use std::process::Abort;
use std::sync::Wait;
use tcp_front::Peer;
use turns::{Tend, TendRefusal, Tended};

/// Opens a connection of a lane that takes this many bytes and then would wait, and reads these
/// records of it, up to their end. Its key.
pub(crate) fn ask<R: Wait>(
    rt: &(impl Abort + AllocGlobal),
    lane: &mut MemoryLane<R>,
    records: &[&[u32]],
    takes: usize,
) -> usize
    ensures { Stays lane.old lane.new }
{
    let key = lane.next_key();
    let peer = Peer {
        is_privileged: false,
        address: PeerAddress::NONE,
        standing: Standing::UNCHECKED,
    };
    let opened = lane.open(device(rt, records, takes), peer);
    assert!(rt; opened.ok() == Some(key));
    let mut block = [0; 512];
    let mut asked = BoxedCall::blank(rt.alloc()).expect(rt, "no memory");
    assert!(rt; matches!(lane.read(key, &mut asked, &mut block), Came::Read(_)));
    assert!(rt; lane.read(key, &mut asked, &mut block) == Came::End);
    key
}

/// Closes a connection. Of its device, which comes back, it is known what it was written: a
/// beginning of the records of the replies to the connection.
fn take_back<R: Wait>(lane: &mut MemoryLane<R>, key: usize) -> Option<Memory>
    ensures stays { Stays lane.old lane.new }
    ensures written { IfSome result
        (λ device. ∥ WasWritten (λ m. Some m.taken.items) lane.old key device ∥₁) }
{
    lane.close(key)
}

/// Closes a connection, to which just the first bytes of these words were written, this many.
pub(crate) fn close_after<R: Wait>(
    rt: &(impl Abort + AllocGlobal),
    lane: &mut MemoryLane<R>,
    key: usize,
    wanted: &[&[u32]],
    bytes: usize,
)
    ensures { Stays lane.old lane.new }
{
    let device = take_back(lane, key).expect(rt, "an open connection");
    let wanted = bytes_of(rt, wanted);
    let bytes = bytes.min(wanted.len());
    assert!(rt; device.taken.as_slice() == &wanted[..bytes]);
}

/// Writes to a connection what waits for it, which are these words, closes it, and takes its lane
/// apart, in which no call waits.
pub(crate) fn end<R: Abort + AllocGlobal + Wait + Copy + Drop>(
    rt: R,
    mut lane: MemoryLane<R>,
    key: usize,
    wanted: &[&[u32]],
) {
    let mut buffer = Vec::with_capacity(rt.alloc(), 1024).expect(&rt, "no memory");
    assert!(&rt; lane.write(key, &mut buffer) == Sent::All);
    close_after(&rt, &mut lane, key, wanted, usize::MAX);
    part(rt, lane, 0);
}

/// Takes a lane apart, in whose queue this many messages wait.
fn part<R: Abort + Wait + Copy + Drop>(rt: R, lane: MemoryLane<R>, waiting: usize) {
    let LaneParts {
        worker,
        queue,
        mut pass,
    } = lane.into_parts();
    assert!(&rt; !worker.keeps_message());
    assert!(&rt; worker.has_empty_hand());
    assert!(&rt; queue.count(&rt, &mut pass) == waiting);
}

#[test]
fn calls_that_did_not_run_are_left(rt: HostRuntime) {
    let (mut lane, _other) = open_lanes(rt);
    ask(&rt, &mut lane, &[&GETATTR, &NULL, &GETATTR], usize::MAX);
    part(rt, lane, 2);
}

#[test]
fn a_lane_tends(rt: HostRuntime) {
    let (mut lane, _other) = open_lanes(rt);
    let fetch = Tend::Fetch {
        volume: VolumeNumber(0),
        range: 0,
    };
    assert!(&rt; matches!(lane.tend(Tend::PutDown), Err(TendRefusal::HandEmpty)));
    assert!(&rt; matches!(lane.tend(fetch), Ok(Tended::InHand { count: 64 })));
    assert!(&rt; !lane.worker().has_empty_hand());
    assert!(&rt; matches!(lane.tend(fetch), Err(TendRefusal::HandFull)));
    assert!(&rt; matches!(lane.tend(Tend::PutDown), Ok(Tended::PutDown { count: 64 })));
    part(rt, lane, 0);
}
