//! A connection over a device that doesn't wait, read to its end and written, however its bytes are
//! cut.

ghost use Rattle.std.specs.Prelude.{◌≡◌};
ghost use Rattle.affinity.specs.Layout.{layout_of};

use crate::memory::{Calls, Flow, Memory};
use crate::placed::Placed;
use crate::reading::{are_calls, bytes_of, layout, same, sink};
use crate::texts::{
    GETATTR, NO_PROGRAM, NO_PROGRAM_REPLY, NULL, NULL_IN_TWO, NULL_REPLY, TOO_LONG,
};
use affinity::Layout;
use connections::{Came, Connection, Sent};
use nfs_values::{ConnectionNumber, PeerAddress, Standing};
use rpc_msg::{BoxedCall, Offer};
use std::mem;
use std::process::Abort;
use tcp_front::Peer;

/// More calls than a stream takes.
const MANY: usize = 2_000;

/// A sink with a connection that is open, number 0.
fn placed(rt: &(impl Abort + AllocGlobal), layout: &Layout, places: usize) -> Placed
    ensures { layout_of result.gathered.layout ≡ layout_of layout.now }
{
    Placed {
        gathered: sink(rt, layout),
        places,
        has_place: places > 0,
    }
}

/// A device of a stream, with what it gives and takes, which fails after this many calls.
fn narrow_device(
    rt: &(impl Abort + AllocGlobal),
    stream: &[&[u32]],
    calls: usize,
    gives: Flow,
    takes: Flow,
) -> Memory {
    Memory {
        stream: bytes_of(rt, stream),
        given: 0,
        taken: Vec::new(rt.alloc()),
        calls: Calls {
            left: calls,
            is_waiting: false,
        },
        gives,
        takes,
    }
}

/// A device of a stream, of which this many bytes move at once, and which fails after this many
/// calls.
pub(crate) fn device(
    rt: &(impl Abort + AllocGlobal),
    stream: &[&[u32]],
    size: usize,
    calls: usize,
) -> Memory {
    narrow_device(rt, stream, calls, Flow::by(size), Flow::by(size))
}

/// A connection over a device.
fn connection(rt: &impl AllocGlobal, device: Memory) -> Connection<Memory> {
    let peer = Peer {
        is_privileged: false,
        address: PeerAddress::NONE,
        standing: Standing::UNCHECKED,
    };
    Connection::new(rt.alloc(), device, peer, ConnectionNumber(0))
}

/// Reads until the device is at its end or fails, or the reading stopped. Answers what came last.
fn read_all(
    rt: &(impl Abort + AllocGlobal),
    connection: &mut Connection<Memory>,
    sink: &mut Placed,
    layout: &Layout,
    places: usize,
) -> Came
    requires { layout_of sink.old.gathered.layout ≡ layout_of layout.now }
{
    let mut block = vec![in rt.alloc(); 0; 64].expect(rt, "no memory");
    let mut asked = BoxedCall::blank(rt.alloc()).expect(rt, "no memory");
    let mut last = Came::Blocked;
    for _ in 0..MANY {
        last = connection.read(sink, layout, Offer::basic(), &mut asked, &mut block);
        match last {
            Came::End | Came::Failed | Came::Stopped => break,
            Came::Full => sink.empty(places),
            Came::Read(size) => assert!(rt; size > 0),
            Came::Cut | Came::Blocked => {}
        }
    }
    mem::forget(block);
    last
}

/// Writes until nothing waits or the device fails. Answers what came last.
fn write_all(
    rt: &(impl Abort + AllocGlobal),
    connection: &mut Connection<Memory>,
    sink: &mut Placed,
    capacity: usize,
) -> Sent {
    let mut buffer = Vec::with_capacity(rt.alloc(), capacity).expect(rt, "no memory");
    let mut last = Sent::Blocked;
    for _ in 0..MANY {
        last = connection.write(&mut sink.gathered.outboxes, &mut buffer);
        match last {
            Sent::All | Sent::Failed => break,
            Sent::More | Sent::Blocked => {}
        }
    }
    mem::forget(buffer);
    last
}

/// Looks whether a device was given just the first bytes of these words, this many.
fn was_given(
    rt: &(impl Abort + AllocGlobal),
    connection: Connection<Memory>,
    wanted: &[&[u32]],
    bytes: usize,
) {
    let taken = connection.into_device().taken;
    let wanted = bytes_of(rt, wanted);
    same(rt, &taken, &wanted[..bytes.min(wanted.len())]);
    mem::forget((taken, wanted));
}

/// Reads four records and writes the replies to two.
fn whole(rt: &(impl Abort + AllocGlobal), size: usize, places: usize, capacity: usize) {
    let layout = layout(rt);
    let mut sink = placed(rt, &layout, places);
    let stream: [&[u32]; 5] = [&NULL, &GETATTR, &NULL_IN_TWO, &GETATTR, &NO_PROGRAM];
    let mut connection = connection(rt, device(rt, &stream, size, MANY));
    let came = read_all(rt, &mut connection, &mut sink, &layout, places);
    assert!(rt; came == Came::End);
    assert!(rt; !connection.is_stopped() && !connection.has_kept());
    are_calls(rt, &sink.gathered, &[(1, 2), (3, 2)]);
    let sent = write_all(rt, &mut connection, &mut sink, capacity);
    assert!(rt; sent == Sent::All);
    assert!(rt; !connection.has_rest());
    was_given(
        rt,
        connection,
        &[&NULL_REPLY, &NULL_REPLY, &NO_PROGRAM_REPLY],
        usize::MAX,
    );
    mem::forget((layout, sink));
}

#[test]
fn each_cut_gives_the_same(rt: HostRuntime) {
    for size in 1..=70 {
        whole(&rt, size, 100, 100);
    }
    for places in 1..=5 {
        whole(&rt, 64, places, 0);
        whole(&rt, 7, places, 28);
    }
    for capacity in 0..=90 {
        whole(&rt, 30, 2, capacity);
    }
}

/// A device that fails after this many calls: what was taken is a beginning.
fn failing(rt: &(impl Abort + AllocGlobal), size: usize, calls: usize) {
    let layout = layout(rt);
    let mut sink = placed(rt, &layout, 100);
    let mut connection = connection(rt, device(rt, &[&NULL, &NO_PROGRAM], size, calls));
    let came = read_all(rt, &mut connection, &mut sink, &layout, 100);
    assert!(rt; came == Came::End || came == Came::Failed);
    let sent = write_all(rt, &mut connection, &mut sink, 100);
    assert!(rt; (sent == Sent::Failed) == connection.is_broken());
    let taken = connection.into_device().taken;
    let wanted = bytes_of(rt, &[&NULL_REPLY, &NO_PROGRAM_REPLY]);
    same(rt, &taken, &wanted[..taken.len().min(wanted.len())]);
    assert!(rt; sent == Sent::Failed || taken.len() == 0 || taken.len() == 28 || taken.len() == 56);
    mem::forget((layout, sink, taken, wanted));
}

#[test]
fn each_failure_leaves_a_beginning(rt: HostRuntime) {
    for calls in 0..=40 {
        failing(&rt, 11, calls);
        failing(&rt, 28, calls);
    }
}

#[test]
fn a_fault_ends_the_reading(rt: HostRuntime) {
    let layout = layout(&rt);
    let mut sink = placed(&rt, &layout, 100);
    let device = device(&rt, &[&NULL, &TOO_LONG, &NULL], 50, MANY);
    let mut connection = connection(&rt, device);
    let came = read_all(&rt, &mut connection, &mut sink, &layout, 100);
    assert!(&rt; came == Came::Stopped);
    assert!(&rt; connection.is_stopped());
    let sent = write_all(&rt, &mut connection, &mut sink, 100);
    assert!(&rt; sent == Sent::All);
    was_given(&rt, connection, &[&NULL_REPLY], usize::MAX);
    mem::forget((layout, sink));
}

/// How many bytes the stream has of which some are given, and the replies of which some are taken.
const STREAM: usize = 88;

const ANSWERED: usize = 56;

/// A device that gives this many bytes of two records, takes this many of their replies, and then
/// would wait for good.
fn waiting(rt: &(impl Abort + AllocGlobal), gives: usize, takes: usize) {
    let layout = layout(rt);
    let mut sink = placed(rt, &layout, 100);
    let (given, taken) = (Flow::until(gives), Flow::until(takes));
    let device = narrow_device(rt, &[&NULL, &NO_PROGRAM], usize::MAX, given, taken);
    let mut connection = connection(rt, device);
    let came = read_all(rt, &mut connection, &mut sink, &layout, 100);
    assert!(rt; (came == Came::End) == (gives >= STREAM));
    let owed = gives.min(STREAM) / 44 * 28;
    let sent = write_all(rt, &mut connection, &mut sink, 100);
    assert!(rt; (sent == Sent::All) == (takes >= owed));
    assert!(rt; connection.has_rest() == (takes < owed));
    was_given(
        rt,
        connection,
        &[&NULL_REPLY, &NO_PROGRAM_REPLY],
        takes.min(owed),
    );
    mem::forget((layout, sink));
}

#[test]
fn what_is_given_is_answered_as_far_as_it_is_taken(rt: HostRuntime) {
    for gives in 0..=STREAM {
        waiting(&rt, gives, ANSWERED);
    }
    for takes in 0..=ANSWERED {
        waiting(&rt, STREAM, takes);
    }
}
