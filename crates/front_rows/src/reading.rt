//! Streams that are read, cut anywhere.

ghost use Rattle.std.specs.Prelude.{◌≡◌};
ghost use Rattle.affinity.specs.Layout.{layout_of};

use crate::devices::Cut;
use crate::gathered::Gathered;
use crate::texts::{
    BADHANDLE_REPLY, GETATTR, GETATTR_ASTRAY, NO_CALL, NO_PROGRAM, NO_PROGRAM_REPLY, NO_STOP_REPLY,
    NULL, NULL_IN_TWO, NULL_REPLY, SHORT, STOP, STOP_REPLY, TOO_LONG, TOO_WEAK_REPLY,
};
use affinity::{AggregateSpec, CallNode, Layout, VolumeSpec};
use nfs_values::{ConnectionNumber, PeerAddress, Standing};
use rpc_msg::Offer;
use std::mem;
use std::process::Abort;
use std::sync::Wait;
use tcp_front::{Counted, Peer, read_loop};

/// What a stream comes to.
#[derive(Drop)]
pub(crate) struct Row {
    /// The words of its records.
    pub(crate) stream: &'static [&'static [u32]],
    /// How many bytes at its end are left out.
    pub(crate) without: usize,
    /// After this many reads the reader fails.
    pub(crate) reads: usize,
    pub(crate) end: u32,
    /// The numbers and xids of the calls that wait.
    pub(crate) calls: &'static [(usize, u32)],
    pub(crate) replies: &'static [&'static [u32]],
}

/// More reads than a stream takes.
const MANY: usize = 1_000;

const ROWS: [Row; 8] = [
    Row {
        stream: &[],
        without: 0,
        reads: MANY,
        end: 0,
        calls: &[],
        replies: &[],
    },
    Row {
        stream: &[&NULL, &GETATTR, &NULL_IN_TWO, &GETATTR],
        without: 0,
        reads: MANY,
        end: 0,
        calls: &[(1, 2), (3, 2)],
        replies: &[&NULL_REPLY, &NULL_REPLY],
    },
    // a record that isn't whole
    Row {
        stream: &[&GETATTR, &NULL, &GETATTR],
        without: 1,
        reads: MANY,
        end: 0,
        calls: &[(0, 2)],
        replies: &[&NULL_REPLY],
    },
    // without an affinity, and refused
    Row {
        stream: &[&GETATTR_ASTRAY, &NO_PROGRAM, &GETATTR],
        without: 0,
        reads: MANY,
        end: 0,
        calls: &[(2, 2)],
        replies: &[&BADHANDLE_REPLY, &NO_PROGRAM_REPLY],
    },
    // faults, behind which nothing is served
    Row {
        stream: &[&NULL, &TOO_LONG, &NULL],
        without: 0,
        reads: MANY,
        end: 11,
        calls: &[],
        replies: &[&NULL_REPLY],
    },
    Row {
        stream: &[&GETATTR, &SHORT, &GETATTR],
        without: 0,
        reads: MANY,
        end: 12,
        calls: &[(0, 2)],
        replies: &[],
    },
    Row {
        stream: &[&NO_CALL, &NULL],
        without: 0,
        reads: MANY,
        end: 13,
        calls: &[],
        replies: &[],
    },
    // a reader that fails at once
    Row {
        stream: &[&NULL],
        without: 0,
        reads: 0,
        end: 64,
        calls: &[],
        replies: &[],
    },
];

/// Words as bytes, the highest byte first.
pub(crate) fn bytes_of(rt: &(impl Abort + AllocGlobal), parts: &[&[u32]]) -> Vec<u8> {
    let mut bytes = Vec::new(rt.alloc());
    for words in parts {
        for word in *words {
            let added = bytes.extend_from_slice(&word.to_be_bytes());
            added.expect(rt, "no memory");
        }
    }
    bytes
}

/// Looks whether these are the bytes that are wanted.
pub(crate) fn same(rt: &impl Abort, bytes: &[u8], wanted: &[u8]) {
    assert!(rt; bytes == wanted);
}

/// One volume of one range.
pub(crate) fn layout(rt: &(impl Abort + AllocGlobal)) -> Layout {
    let aggregates = [AggregateSpec { spare: 1 }];
    let volumes = [VolumeSpec::new(0, 1)];
    let made = Layout::new(rt.alloc(), &aggregates, &volumes).ok();
    made.expect(rt, "a layout")
}

/// A sink with a connection that is open, number 0.
pub(crate) fn sink(rt: &(impl Abort + AllocGlobal), layout: &Layout) -> Gathered
    ensures { layout_of result.layout ≡ layout_of layout.now }
{
    let mut sink = Gathered::new(rt.alloc(), layout).expect(rt, "no memory");
    let opened = sink.outboxes.open().ok().expect(rt, "an open connection");
    assert!(rt; opened.0 == 0);
    sink
}

/// Looks whether just these calls came, each under the home of the root.
pub(crate) fn are_calls(rt: &impl Abort, sink: &Gathered, calls: &[(usize, u32)]) {
    assert!(rt; sink.calls.len() == calls.len());
    for (message, (number, xid)) in sink.calls.iter().zip(calls) {
        assert!(rt; message.origin.connection.0 == 0);
        assert!(rt; message.origin.number == *number);
        assert!(rt; message.origin.xid == *xid);
        assert!(rt; message.affinity == CallNode::Logical(0));
    }
}

/// Looks whether each call came from there, in its record's name.
fn come_from(rt: &impl Abort, sink: &Gathered, address: PeerAddress) {
    for message in sink.calls.iter() {
        assert!(rt; message.caller.peer == address);
        assert!(rt; message.caller.xid == message.origin.xid);
    }
}

/// Looks whether just these replies came, in order.
fn are_replies(rt: &(impl Abort + AllocGlobal), sink: &mut Gathered, replies: &[&[u32]]) {
    let connection = ConnectionNumber(0);
    for reply in replies {
        let taken = sink.outboxes.take(connection).expect(rt, "a reply");
        same(rt, taken.as_slice(), &bytes_of(rt, &[reply]));
    }
    assert!(rt; sink.outboxes.take(connection).is_none());
}

/// Reads the stream of a row, at most this many bytes at once, by what is offered and of a peer.
fn read_of(
    rt: &(impl Abort + AllocGlobal + Wait),
    row: &Row,
    size: usize,
    offer: Offer,
    peer: Peer,
) {
    let stream = bytes_of(rt, row.stream);
    let layout = layout(rt);
    let mut sink = sink(rt, &layout);
    let mut reader = Counted::new(Cut {
        rest: &stream[..stream.len().saturating_sub(row.without)],
        size,
        reads: row.reads,
    });
    let connection = ConnectionNumber(0);
    let end = read_loop(
        rt,
        rt.alloc(),
        &mut reader,
        &layout,
        offer,
        connection,
        peer,
        &mut sink,
    );
    assert!(rt; end.number() == row.end);
    assert!(rt; (reader.failures() == 1) == (row.end == 64));
    are_calls(rt, &sink, row.calls);
    come_from(rt, &sink, peer.address);
    are_replies(rt, &mut sink, row.replies);
    mem::forget(reader);
    mem::forget((stream, layout, sink));
}

/// The same by the basic offer, of a peer that isn't privileged.
pub(crate) fn read(rt: &(impl Abort + AllocGlobal + Wait), row: &Row, size: usize) {
    let peer = Peer {
        is_privileged: false,
        address: PeerAddress::NONE,
        standing: Standing::UNCHECKED,
    };
    read_of(rt, row, size, Offer::basic(), peer);
}

/// Between other calls STOP comes to this reply, by what is offered and of a peer.
fn stop_comes_to(
    rt: &(impl Abort + AllocGlobal + Wait),
    offer: Offer,
    is_privileged: bool,
    row: &Row,
) {
    for size in [1, 7, 65_536] {
        let peer = Peer {
            is_privileged,
            address: PeerAddress::NONE,
            standing: Standing::UNCHECKED,
        };
        read_of(rt, row, size, offer, peer);
    }
}

#[test]
fn stop_is_for_privileged_peers(rt: HostRuntime) {
    let answered = Row {
        stream: &[&NULL, &STOP, &NULL],
        without: 0,
        reads: MANY,
        end: 0,
        calls: &[],
        replies: &[&NULL_REPLY, &STOP_REPLY, &NULL_REPLY],
    };
    let too_weak = Row {
        replies: &[&NULL_REPLY, &TOO_WEAK_REPLY, &NULL_REPLY],
        ..answered
    };
    let not_offered = Row {
        replies: &[&NULL_REPLY, &NO_STOP_REPLY, &NULL_REPLY],
        ..answered
    };
    stop_comes_to(&rt, Offer::export(0), true, &answered);
    stop_comes_to(&rt, Offer::export(0), false, &too_weak);
    stop_comes_to(&rt, Offer::basic(), true, &not_offered);
    stop_comes_to(&rt, Offer::basic(), false, &not_offered);
}

/// Whether two addresses and ports are one.
fn are_one(first: (u128, u16), second: (u128, u16)) -> bool {
    let first = PeerAddress {
        address: first.0,
        port: first.1,
    };
    let second = PeerAddress {
        address: second.0,
        port: second.1,
    };
    first == second
}

#[test]
fn calls_come_from_their_peer(rt: HostRuntime) {
    let row = Row {
        stream: &[&GETATTR, &NULL, &GETATTR],
        without: 0,
        reads: MANY,
        end: 0,
        calls: &[(0, 2), (2, 2)],
        replies: &[&NULL_REPLY],
    };
    // 192.0.2.1 from two ports, and 2001:db8::1
    let places = [
        (0xc000_0201, 700),
        (0xc000_0201, 701),
        (0x2001_0db8_0000_0000_0000_0000_0000_0001, 700),
    ];
    for (address, port) in places {
        let peer = Peer {
            is_privileged: false,
            address: PeerAddress { address, port },
            standing: Standing::UNCHECKED,
        };
        read_of(&rt, &row, 7, Offer::basic(), peer);
    }
    assert!(rt; are_one(places[0], places[0]));
    assert!(rt; !are_one(places[0], places[1]));
    assert!(rt; !are_one(places[0], places[2]));
}

#[test]
fn streams_are_read_however_they_are_cut(rt: HostRuntime) {
    for row in &ROWS {
        for size in [1, 2, 3, 7, 40, 65_536] {
            read(&rt, row, size);
        }
    }
}
