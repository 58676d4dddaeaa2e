//! Streams of records (RFC 5531 section 11): the header of a record of one fragment of 40 bytes is
//! 0x80000028, and that of a reply of 24 bytes 0x80000018.

use crate::bytes::{SERVER_PORT, holds, own_four, spelled};
use port_mapper::{Conversation, MOST_REQUEST, beside};
use std::process::Abort;

/// Two records of NULL calls.
const CALLS: [u32; 22] = [
    0x8000_0028,
    7,
    0,
    2,
    100_000,
    2,
    0,
    0,
    0,
    0,
    0,
    0x8000_0028,
    8,
    0,
    2,
    100_000,
    4,
    0,
    0,
    0,
    0,
    0,
];

/// The records of the replies to them.
const REPLIES: [u32; 14] = [0x8000_0018, 7, 1, 0, 0, 0, 0, 0x8000_0018, 8, 1, 0, 0, 0, 0];

/// Hears a piece of a stream, and answers whether it goes on.
fn heard(
    rt: &(impl Abort + AllocGlobal),
    stream: &mut Conversation,
    piece: &[u8],
    out: &mut Vec<u8>,
) -> bool {
    let registered = beside(SERVER_PORT);
    let goes_on = stream.hear(rt.alloc(), &registered, &own_four(), piece, out);
    goes_on.expect(rt, "no memory")
}

/// Whether these are the bytes that are wanted.
fn are_equal(bytes: &[u8], wanted: &[u8]) -> bool {
    bytes == wanted
}

#[test]
fn whole_and_by_pieces(rt: HostRuntime) {
    let bytes = spelled(&rt, &CALLS);
    let wanted = spelled(&rt, &REPLIES);
    for size in 1..9 {
        let mut stream = Conversation::new(rt.alloc());
        let mut out = Vec::new(rt.alloc());
        for piece in bytes.chunks(size * 11) {
            holds(&rt, "goes on", heard(&rt, &mut stream, piece, &mut out));
        }
        holds(&rt, "replies", are_equal(&out, &wanted));
    }
}

#[test]
fn too_long(rt: HostRuntime) {
    let mut stream = Conversation::new(rt.alloc());
    let mut out = Vec::new(rt.alloc());
    let header = spelled(&rt, &[0x8002_0001]);
    holds(
        &rt,
        "a fragment",
        !heard(&rt, &mut stream, &header, &mut out),
    );

    let mut stream = Conversation::new(rt.alloc());
    let header = spelled(&rt, &[0x8000_0800]);
    holds(&rt, "a header", heard(&rt, &mut stream, &header, &mut out));
    let piece = [0; MOST_REQUEST];
    holds(&rt, "a request", !heard(&rt, &mut stream, &piece, &mut out));
    holds(&rt, "no reply", out.is_empty());
}
