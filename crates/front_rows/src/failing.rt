//! Devices that fail at any of their calls, over worked records joined.

ghost use Rattle.std.specs.Prelude.{◌≡◌};
ghost use Rattle.tcp_front.specs.Counts.{failures_of};

use crate::devices::Narrow;
use crate::reading::{Row, bytes_of, read, same};
use crate::texts::{JOINED, JOINED_ENDS, JOINED_REPLIES};
use crate::writing::waiting_for;
use std::mem;
use std::process::Abort;
use std::sync::Wait;
use tcp_front::{Counted, WriteFault, write_joined, write_loop};

/// How many bytes the records have, and how many their replies.
const STREAM: usize = 448;

const ANSWERED: usize = 232;

/// The calls among the records that wait: the third.
const CALLS: [(usize, u32); 1] = [(2, 2)];

/// How many records end within this many bytes.
fn records_in(bytes: usize) -> usize {
    let mut records = 0usize;
    for end in &JOINED_ENDS {
        if *end <= bytes {
            records = records.saturating_add(1);
        }
    }
    records
}

/// What the stream comes to where the reader gives this many bytes, in this many reads, and then
/// fails.
fn up_to(bytes: usize, reads: usize) -> Row {
    let records = records_in(bytes);
    let calls = usize::from(records > 2).min(CALLS.len());
    let replies = records.saturating_sub(calls).min(JOINED_REPLIES.len());
    Row {
        stream: &JOINED,
        without: 0,
        reads,
        end: 64,
        calls: &CALLS[..calls],
        replies: &JOINED_REPLIES[..replies],
    }
}

#[test]
fn readers_fail_at_any_call(rt: HostRuntime) {
    for bytes in 0..=STREAM {
        read(&rt, &up_to(bytes, bytes), 1);
    }
    for bytes in 1..=STREAM {
        read(&rt, &up_to(bytes, 1), bytes);
    }
}

#[test]
fn streams_are_read_in_pieces_of_any_size(rt: HostRuntime) {
    for size in 1..=STREAM {
        let mut row = up_to(STREAM, usize::MAX);
        row.end = 0;
        read(&rt, &row, size);
    }
}

/// A writer that takes this many bytes at most at once, and after this many writes fails, or takes
/// nothing.
fn writer(rt: &impl AllocGlobal, size: usize, writes: usize, is_stuck: bool) -> Counted<Narrow>
    ensures { failures_of result ≡ 0 }
{
    Counted::new(Narrow {
        taken: Vec::new(rt.alloc()),
        size,
        writes,
        is_stuck,
    })
}

/// Looks whether just this many bytes of the replies went out.
fn went_out(
    rt: &(impl Abort + AllocGlobal),
    bytes: usize,
    writer: Counted<Narrow>,
    written: Result<(), WriteFault>,
) {
    let sent = match written {
        Ok(()) => None,
        Err(fault) => Some(fault.sent),
    };
    let is_cut = bytes < ANSWERED;
    assert!(rt; sent == is_cut.then_some(bytes as u64));
    assert!(rt; (writer.failures() == 1) == is_cut);
    let all = bytes_of(rt, &JOINED_REPLIES);
    let taken = writer.into_device().taken;
    same(rt, &taken, &all[..bytes.min(all.len())]);
    mem::forget((all, taken));
}

/// Writes the replies byte by byte, to a writer that fails after this many.
fn write(rt: &(impl Abort + AllocGlobal + Wait), bytes: usize, is_stuck: bool) {
    let mut source = waiting_for(rt, &JOINED);
    let mut writer = writer(rt, 1, bytes, is_stuck);
    let written = write_loop(rt, &mut writer, &mut source);
    went_out(rt, bytes, writer, written);
    mem::forget(source);
}

/// Writes the replies joined in a buffer, to a writer that takes this many bytes and then fails.
fn join(rt: &(impl Abort + AllocGlobal + Wait), bytes: usize) {
    let mut source = waiting_for(rt, &JOINED);
    let mut writer = writer(rt, bytes, 1, false);
    let mut buffer = Vec::with_capacity(rt.alloc(), ANSWERED).expect(rt, "no memory");
    let written = write_joined(rt, &mut writer, &mut buffer, &mut source);
    went_out(rt, bytes, writer, written);
    mem::forget((source, buffer));
}

#[test]
fn writers_fail_at_any_call(rt: HostRuntime) {
    for bytes in 0..=ANSWERED {
        write(&rt, bytes, false);
        write(&rt, bytes, true);
    }
    for bytes in 1..=ANSWERED {
        join(&rt, bytes);
    }
}
