//! Heads of calls (RFC 5531 sections 8.2 and 9): xid, msg_type, rpcvers, prog, vers, proc, cred and
//! verf.

use crate::bytes::{Row, answers, own_four};

const ROWS: [Row<'_>; 16] = [
    Row {
        name: "NULL of version 2",
        request: &[7, 0, 2, 100_000, 2, 0, 0, 0, 0, 0],
        reply: Some(&[7, 1, 0, 0, 0, 0]),
    },
    Row {
        name: "NULL of version 4, with a credential of AUTH_SYS",
        request: &[0xffff_ffff, 0, 2, 100_000, 4, 0, 1, 20, 0, 0, 0, 0, 0, 0, 0],
        reply: Some(&[0xffff_ffff, 1, 0, 0, 0, 0]),
    },
    Row {
        name: "a credential of another flavor, of one byte",
        request: &[7, 0, 2, 100_000, 3, 0, 6, 1, 0x0100_0000, 0, 0],
        reply: Some(&[7, 1, 0, 0, 0, 0]),
    },
    Row {
        name: "a credential whose padding isn't zero",
        request: &[7, 0, 2, 100_000, 3, 0, 6, 1, 0x0100_0001, 0, 0],
        reply: Some(&[7, 1, 1, 1, 1]),
    },
    Row {
        name: "a credential of 401 bytes",
        request: &[7, 0, 2, 100_000, 2, 0, 0, 401],
        reply: Some(&[7, 1, 1, 1, 1]),
    },
    Row {
        name: "version 3 of RPC",
        request: &[7, 0, 3],
        reply: Some(&[7, 1, 1, 0, 2, 2]),
    },
    Row {
        name: "version 1 of the program",
        request: &[7, 0, 2, 100_000, 1, 0, 0, 0, 0, 0],
        reply: Some(&[7, 1, 0, 0, 0, 2, 2, 4]),
    },
    Row {
        name: "version 5 of the program",
        request: &[7, 0, 2, 100_000, 5, 9, 0, 0, 0, 0],
        reply: Some(&[7, 1, 0, 0, 0, 2, 2, 4]),
    },
    Row {
        name: "another program",
        request: &[7, 0, 2, 100_003, 3, 0, 0, 0, 0, 0],
        reply: Some(&[7, 1, 0, 0, 0, 1]),
    },
    Row {
        name: "CALLIT of version 2",
        request: &[7, 0, 2, 100_000, 2, 5, 0, 0, 0, 0],
        reply: Some(&[7, 1, 0, 0, 0, 3]),
    },
    Row {
        name: "GETTIME of version 3",
        request: &[7, 0, 2, 100_000, 3, 6, 0, 0, 0, 0],
        reply: Some(&[7, 1, 0, 0, 0, 3]),
    },
    Row {
        name: "NULL with an argument",
        request: &[7, 0, 2, 100_000, 2, 0, 0, 0, 0, 0, 0],
        reply: Some(&[7, 1, 0, 0, 0, 4]),
    },
    Row {
        name: "a reply",
        request: &[7, 1, 0, 0, 0, 0],
        reply: None,
    },
    Row {
        name: "a head without a verifier",
        request: &[7, 0, 2, 100_000, 2, 0, 0, 0],
        reply: None,
    },
    Row {
        name: "an xid alone",
        request: &[7],
        reply: None,
    },
    Row {
        name: "no bytes",
        request: &[],
        reply: None,
    },
];

#[test]
fn heads(rt: HostRuntime) {
    answers(&rt, &own_four(), &ROWS);
}
