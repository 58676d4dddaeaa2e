//! Records that are written, to writers that take few bytes at once, and fail.

ghost use Rattle.std.specs.Prelude.{◌≡◌};
ghost use Rattle.tcp_front.specs.Counts.{failures_of};

use crate::devices::Narrow;
use crate::gathered::Gathered;
use crate::reading::{bytes_of, layout, same, sink};
use crate::texts::{NO_PROGRAM, NO_PROGRAM_REPLY, NULL, NULL_REPLY};
use crate::waiting::Waiting;
use nfs_values::{ConnectionNumber, PeerAddress, Standing};
use rpc_msg::Offer;
use std::mem;
use std::process::Abort;
use std::sync::Wait;
use tcp_front::{Counted, Peer, WriteFault, read_loop, write_joined, write_loop, write_piece};

/// How two records of 28 bytes are written.
struct Row {
    /// At most this many bytes at once.
    size: usize,
    /// After this many writes the writer fails.
    writes: usize,
    /// How many bytes went out before it failed.
    sent: Option<u64>,
}

const ROWS: [Row; 7] = [
    Row {
        size: 1,
        writes: 56,
        sent: None,
    },
    Row {
        size: 100,
        writes: 2,
        sent: None,
    },
    Row {
        size: 1,
        writes: 0,
        sent: Some(0),
    },
    Row {
        size: 5,
        writes: 3,
        sent: Some(15),
    },
    Row {
        size: 100,
        writes: 1,
        sent: Some(28),
    },
    // the first record takes six writes, the last of them of 3 bytes
    Row {
        size: 5,
        writes: 7,
        sent: Some(33),
    },
    Row {
        size: 1,
        writes: 55,
        sent: Some(55),
    },
];

/// A connection for which the replies to records wait.
pub(crate) fn waiting_for(rt: &(impl Abort + AllocGlobal + Wait), records: &[&[u32]]) -> Waiting {
    let stream = bytes_of(rt, records);
    let layout = layout(rt);
    let mut sink = sink(rt, &layout);
    let mut reader = Counted::new(stream.as_slice());
    let connection = ConnectionNumber(0);
    let offer = Offer::basic();
    let end = read_loop(
        rt,
        rt.alloc(),
        &mut reader,
        &layout,
        offer,
        connection,
        Peer {
            is_privileged: false,
            address: PeerAddress::NONE,
            standing: Standing::UNCHECKED,
        },
        &mut sink,
    );
    assert!(rt; end.number() == 0);
    assert!(rt; sink.reads_ended == 1);
    mem::forget(reader);
    mem::forget((stream, layout));
    let Gathered { outboxes, .. } = sink;
    Waiting {
        outboxes,
        connection,
    }
}

/// A writer that takes what a row says, and at the end fails or takes nothing.
fn writer(rt: &impl AllocGlobal, row: &Row, is_stuck: bool) -> Counted<Narrow>
    ensures { failures_of result ≡ 0 }
{
    Counted::new(Narrow {
        taken: Vec::new(rt.alloc()),
        size: row.size,
        writes: row.writes,
        is_stuck,
    })
}

/// Looks whether as many bytes of both records went out as a row says.
fn went_out(
    rt: &(impl Abort + AllocGlobal),
    row: &Row,
    writer: Counted<Narrow>,
    written: Result<(), WriteFault>,
) {
    let sent = match written {
        Ok(()) => None,
        Err(fault) => Some(fault.sent),
    };
    assert!(rt; sent == row.sent);
    assert!(rt; (writer.failures() == 1) == sent.is_some());
    let all = bytes_of(rt, &[&NULL_REPLY, &NO_PROGRAM_REPLY]);
    let count = sent.unwrap_or(56) as usize;
    let taken = writer.into_device().taken;
    same(rt, &taken, &all[..count.min(all.len())]);
    mem::forget((all, taken));
}

/// Writes both records.
fn write(rt: &(impl Abort + AllocGlobal + Wait), row: &Row, is_stuck: bool) {
    let mut source = waiting_for(rt, &[&NULL, &NO_PROGRAM]);
    let mut writer = writer(rt, row, is_stuck);
    let written = write_loop(rt, &mut writer, &mut source);
    went_out(rt, row, writer, written);
    mem::forget(source);
}

/// Writes both records, joined in a buffer.
fn join(rt: &(impl Abort + AllocGlobal + Wait), capacity: usize, row: &Row) {
    let mut source = waiting_for(rt, &[&NULL, &NO_PROGRAM]);
    let mut writer = writer(rt, row, false);
    let mut buffer = Vec::with_capacity(rt.alloc(), capacity).expect(rt, "no memory");
    let written = write_joined(rt, &mut writer, &mut buffer, &mut source);
    went_out(rt, row, writer, written);
    mem::forget((source, buffer));
}

/// The room of a buffer, and how two records are written through it.
const JOINED: [(usize, Row); 6] = [
    (
        56,
        Row {
            size: 100,
            writes: 1,
            sent: None,
        },
    ),
    (
        100,
        Row {
            size: 5,
            writes: 7,
            sent: Some(35),
        },
    ),
    // one record a write
    (
        28,
        Row {
            size: 100,
            writes: 1,
            sent: Some(28),
        },
    ),
    (
        55,
        Row {
            size: 5,
            writes: 7,
            sent: Some(33),
        },
    ),
    // no room for any
    (
        0,
        Row {
            size: 100,
            writes: 2,
            sent: None,
        },
    ),
    (
        27,
        Row {
            size: 1,
            writes: 55,
            sent: Some(55),
        },
    ),
];

#[test]
fn records_are_written_many_at_once(rt: HostRuntime) {
    for (capacity, row) in &JOINED {
        join(&rt, *capacity, row);
    }
}

#[test]
fn records_are_written_whole_or_up_to_a_failure(rt: HostRuntime) {
    for row in &ROWS {
        write(&rt, row, false);
        write(&rt, row, true);
    }
}

#[test]
fn pieces_are_written_whole_or_up_to_a_failure(rt: HostRuntime) {
    let mut writer = Counted::new(Narrow {
        taken: Vec::new(rt.alloc()),
        size: 2,
        writes: 4,
        is_stuck: false,
    });
    assert!(&rt; write_piece(&mut writer, b"") == Ok(()));
    assert!(&rt; write_piece(&mut writer, b"12345") == Ok(()));
    assert!(&rt; write_piece(&mut writer, b"6789") == Err(2));
    same(&rt, &writer.into_device().taken, b"1234567");
}
