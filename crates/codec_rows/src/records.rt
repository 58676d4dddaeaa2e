//! Records out of a stream, and a record's frame.

use crate::bytes::{are_equal, holds, same};
use nfs_values::Refusal;
use rpc_msg::{RecordFault, Request, read_record};
use rpc_record::{Look, Reassembler, Step, frame, put_header};
use std::mem;
use std::process::Abort;

/// A NULL call of NFS version 3 with no credential (RFC 5531, section 9; RFC 1813, section 3.3.0).
const NULL_CALL: [u8; 40] = [
    0, 0, 0, 1, 0, 0, 0, 0, 0, 0, 0, 2, 0, 1, 0x86, 0xa3, 0, 0, 0, 3, 0, 0, 0, 0, 0, 0, 0, 0, 0, 0,
    0, 0, 0, 0, 0, 0, 0, 0, 0, 0,
];

/// The call in fragments of 0, 17, 23 and 0 bytes.
const FRAGMENTS: [u8; 56] = [
    0, 0, 0, 0, 0, 0, 0, 0x11, 0, 0, 0, 1, 0, 0, 0, 0, 0, 0, 0, 2, 0, 1, 0x86, 0xa3, 0, 0, 0, 0,
    0x17, 0, 0, 3, 0, 0, 0, 0, 0, 0, 0, 0, 0, 0, 0, 0, 0, 0, 0, 0, 0, 0, 0, 0, 0x80, 0, 0, 0,
];

/// A GETATTR call of a root, xid 1, without its header.
const GETATTR: [u8; 56] = [
    0, 0, 0, 1, 0, 0, 0, 0, 0, 0, 0, 2, 0, 1, 0x86, 0xa3, 0, 0, 0, 3, 0, 0, 0, 1, 0, 0, 0, 0, 0, 0,
    0, 0, 0, 0, 0, 0, 0, 0, 0, 0, 0, 0, 0, 12, 0, 0, 0, 0, 0, 0, 0, 0, 0, 0, 0, 1,
];

/// The most bytes of data that a record may have.
const MOST: usize = 131_072;

/// What bytes lead to.
#[derive(Clone, Copy)]
enum Leads {
    /// No whole record yet.
    More,
    /// A record that would be above the limit.
    Fault,
    /// The NULL call.
    Null,
    /// A record that is no call.
    NoCall,
    /// A call of xid 1 whose arguments are no spelling.
    Garbage,
    Other,
}

impl Leads {
    /// The number by which it is told.
    fn number(self) -> Option<u32> {
        match self {
            Leads::Fault => Some(11),
            _ => None,
        }
    }
}

/// What comes to a reassembler at once: these bytes and zeros up to a size; how many are taken, and
/// what they lead to.
type Piece = (&'static [u8], usize, usize, Leads);

/// Streams, by what comes of them at once.
const STREAMS: [(&str, &[Piece]); 6] = [
    ("fragments are joined", &[(&FRAGMENTS, 56, 56, Leads::Null)]),
    (
        "a fault is told again",
        &[
            (&[0x80, 2, 0, 1], 5, 4, Leads::Fault),
            (&[0x80, 2, 0, 1], 5, 0, Leads::Fault),
        ],
    ),
    (
        "no byte fits beside the longest fragment",
        &[
            (&[0, 2], 4, 4, Leads::More),
            (&[], MOST, MOST, Leads::More),
            (&[0x80, 0, 0, 1], 5, 4, Leads::Fault),
        ],
    ),
    (
        "a fragment may be too long by itself",
        &[(&[0xff; 4], 4, 4, Leads::Fault)],
    ),
    (
        "an empty record is no call",
        &[(&[0x80], 4, 4, Leads::NoCall)],
    ),
    (
        "the longest record has zeros behind its call",
        &[
            (&[0x80, 2], 4, 4, Leads::More),
            (&GETATTR, MOST, MOST, Leads::Garbage),
        ],
    ),
];

/// Feeds once more where there was no memory, which must have taken nothing.
fn fed(rt: &impl Abort, reassembler: &mut Reassembler, bytes: &[u8]) -> (usize, Step) {
    let (taken, step) = reassembler.feed(bytes);
    if !matches!(&step, Step::NoMemory) {
        return (taken, step);
    }
    mem::forget(step);
    holds(rt, "no memory", taken == 0);
    reassembler.feed(bytes)
}

/// What a record is.
fn heard(rt: &impl AllocGlobal, record: Vec<u8>) -> Leads {
    let heard = read_record(rt.alloc(), record);
    let leads = match &heard {
        Err(RecordFault::BadHeader) => Leads::NoCall,
        Ok(heard) => match &heard.request {
            Request::Refused(Refusal::GarbageArguments) if heard.xid == 1 => Leads::Garbage,
            _ => Leads::Other,
        },
        Err(_) => Leads::Other,
    };
    mem::forget(heard);
    leads
}

/// What a step comes to.
fn led(rt: &impl AllocGlobal, step: Step) -> Leads {
    match step {
        Step::More => Leads::More,
        Step::Fault => Leads::Fault,
        Step::Record(record) if &record[..] == &NULL_CALL[..] => Leads::Null,
        Step::Record(record) => heard(rt, record),
        Step::NoMemory => Leads::Other,
    }
}

/// Whether bytes would lead to this, and lead to it when they are fed.
fn feeds(
    rt: &(impl Abort + AllocGlobal),
    reassembler: &mut Reassembler,
    bytes: &[u8],
    taken: usize,
    wanted: Leads,
) -> bool {
    let (looked, look) = reassembler.look(bytes);
    let (took, step) = fed(rt, reassembler, bytes);
    let number = wanted.number();
    let is_told = look.number() == number && step.number() == number;
    let is_record = matches!(wanted, Leads::Null | Leads::NoCall | Leads::Garbage);
    let is_seen = matches!(look, Look::Record) == is_record;
    let found = led(rt, step);
    let is_taken = looked == taken && took == taken;
    is_taken && is_told && is_seen && found as u8 == wanted as u8
}

/// Feeds the pieces of a stream.
fn play(rt: &(impl Abort + AllocGlobal), row: &str, pieces: &[Piece]) {
    let mut reassembler = Reassembler::new(rt.alloc());
    for (head, size, taken, wanted) in pieces {
        let mut bytes = Vec::from_slice(rt.alloc(), head).expect(rt, "no memory");
        bytes.resize(*size, 0).expect(rt, "no memory");
        let is_so = feeds(rt, &mut reassembler, &bytes, *taken, *wanted);
        mem::forget(bytes);
        holds(rt, row, is_so);
    }
    mem::forget(reassembler);
}

#[test]
fn streams(rt: HostRuntime) {
    for (row, pieces) in &STREAMS {
        play(&rt, row, pieces);
    }
}

#[test]
fn bytes_come_one_by_one(rt: HostRuntime) {
    let mut reassembler = Reassembler::new(rt.alloc());
    for (place, byte) in FRAGMENTS.iter().enumerate() {
        let wanted = if place < 55 { Leads::More } else { Leads::Null };
        let is_so = feeds(&rt, &mut reassembler, &[*byte], 1, wanted);
        holds(&rt, "one by one", is_so);
    }
    mem::forget(reassembler);
}

/// The call as a record of one fragment.
const FRAMED: [u8; 44] = [
    0x80, 0, 0, 0x28, 0, 0, 0, 1, 0, 0, 0, 0, 0, 0, 0, 2, 0, 1, 0x86, 0xa3, 0, 0, 0, 3, 0, 0, 0, 0,
    0, 0, 0, 0, 0, 0, 0, 0, 0, 0, 0, 0, 0, 0, 0, 0,
];

#[test]
fn frames_a_record(rt: HostRuntime) {
    let framed = frame(rt.alloc(), &NULL_CALL).expect(&rt, "no memory");
    same(&rt, "record", &framed, &FRAMED);
    let mut out = Vec::new(rt.alloc());
    put_header(&mut out, 40).expect(&rt, "no memory");
    same(&rt, "header", &out, &[0x80, 0, 0, 0x28]);
    mem::forget((framed, out));
}

/// What has come, and which record the bytes behind it begin with as one fragment.
const WHOLE: [(&str, &[u8], &[u8], Option<&[u8]>); 10] = [
    ("a call", &[], &FRAMED, Some(&NULL_CALL)),
    ("bytes behind it", &[], &[0x80, 0, 0, 1, 7, 9], Some(&[7])),
    ("an empty record", &[], &[0x80, 0, 0, 0], Some(&[])),
    (
        "behind a record",
        &[0x80, 0, 0, 1, 7],
        &[0x80, 0, 0, 1, 8],
        Some(&[8]),
    ),
    ("a byte is missing", &[], &[0x80, 0, 0, 2, 7], None),
    ("a part of a header", &[], &[0x80, 0, 0], None),
    ("another fragment follows", &[], &[0, 0, 0, 1, 7], None),
    (
        "a header has begun",
        &[0x80, 0, 0],
        &[0x80, 0, 0, 1, 7],
        None,
    ),
    (
        "a record has begun",
        &[0, 0, 0, 1, 7],
        &[0x80, 0, 0, 1, 8],
        None,
    ),
    ("there was a fault", &[0xff; 4], &[0x80, 0, 0, 1, 7], None),
];

/// Whether bytes behind what has come begin with this record.
fn begins(
    rt: &(impl Abort + AllocGlobal),
    before: &[u8],
    bytes: &[u8],
    wanted: Option<&[u8]>,
) -> bool {
    let mut reassembler = Reassembler::new(rt.alloc());
    let (_taken, step) = fed(rt, &mut reassembler, before);
    mem::forget(step);
    let is_so = match reassembler.whole(bytes) {
        Some(record) => match wanted {
            Some(wanted) => are_equal(record, wanted),
            None => false,
        },
        None => wanted.is_none(),
    };
    mem::forget(reassembler);
    is_so
}

#[test]
fn tells_a_record_where_it_lies(rt: HostRuntime) {
    for (row, before, bytes, wanted) in &WHOLE {
        holds(&rt, row, begins(&rt, before, bytes, *wanted));
    }
}
