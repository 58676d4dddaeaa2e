//! Bytes, put together and compared.

use port_mapper::{answer, beside};
use std::net::{IpAddr, Ipv4Addr, Ipv6Addr};
use std::process::Abort;

/// The port of the server in all rows: 8 * 256 + 1.
pub(crate) const SERVER_PORT: u16 = 2_049;

/// A message and the reply to it, in words.
pub(crate) struct Row<'a> {
    pub(crate) name: &'a str,
    pub(crate) request: &'a [u32],
    pub(crate) reply: Option<&'a [u32]>,
}

/// The address 127.0.0.1.
pub(crate) fn own_four() -> IpAddr {
    IpAddr::V4(Ipv4Addr::new(127, 0, 0, 1))
}

/// The address ::1.
pub(crate) fn own_six() -> IpAddr {
    IpAddr::V6(Ipv6Addr::new(0, 0, 0, 0, 0, 0, 0, 1))
}

/// Looks whether this is so, as a row of this name has it.
pub(crate) fn holds(rt: &impl Abort, row: &str, is_so: bool) {
    assert!(rt; is_so, "{row}");
}

/// Words as bytes, the highest of each first.
pub(crate) fn spelled(rt: &(impl Abort + AllocGlobal), words: &[u32]) -> Vec<u8> {
    let mut bytes = Vec::new(rt.alloc());
    for word in words {
        let added = bytes.extend_from_slice(&word.to_be_bytes());
        added.expect(rt, "no memory");
    }
    bytes
}

/// Whether these are the bytes that are wanted.
fn are_equal(bytes: &[u8], wanted: &[u8]) -> bool {
    bytes == wanted
}

/// Looks whether a reply is the one of these words, or none where none is wanted.
pub(crate) fn is_reply(
    rt: &(impl Abort + AllocGlobal),
    row: &str,
    reply: Option<&[u8]>,
    wanted: Option<&[u32]>,
) {
    match (reply, wanted) {
        (Some(reply), Some(words)) => holds(rt, row, are_equal(reply, &spelled(rt, words))),
        (Some(_), None) => holds(rt, row, false),
        (None, Some(_)) => holds(rt, row, false),
        (None, None) => {}
    }
}

/// Looks what is answered beside the server, where a client reached this address.
pub(crate) fn answers(rt: &(impl Abort + AllocGlobal), reached: &IpAddr, rows: &[Row<'_>]) {
    let registered = beside(SERVER_PORT);
    for row in rows {
        let request = spelled(rt, row.request);
        let reply = answer(rt.alloc(), &registered, reached, &request);
        let reply = reply.expect(rt, "no memory");
        let bytes = reply.as_ref().map(|reply| reply.as_slice());
        is_reply(rt, row.name, bytes, row.reply);
    }
}
