//! What no run of the program shows of calls of the admin program and their replies, typed by hand
//! (RFC 5531 sections 9 and 11, and our profile). What it shows stands in `trials/admin_replies`.

use crate::bytes::{holds, spelled, spells};
use admin_client::{
    AdminCall, AdminFault, AdminUser, CallRefusal, call_record, census, next_record, read_census,
    read_growth,
};
use nfs_values::VolumeNumber;
use std::io::{self, ErrorKind, Read, Write};
use std::mem;
use std::process::Abort;
use xdr::Fault;

/// Calls by their xid and user, and their records.
const CALLS: [(&str, u32, AdminUser, AdminCall, &[u32]); 3] = [
    // one fragment of 40 bytes; the xid 7, a call, RPC version 2, program 0x20000001, version 1,
    // procedure 1, and no credential or verifier
    (
        "CENSUS",
        7,
        AdminUser::Nobody,
        AdminCall::Census,
        &[0x8000_0028, 7, 0, 2, 0x2000_0001, 1, 1, 0, 0, 0, 0],
    ),
    // procedure 2, of volume 3 by 5 ranges
    (
        "GROW",
        8,
        AdminUser::Nobody,
        AdminCall::Grow {
            volume: VolumeNumber(3),
            ranges: 5,
        },
        &[0x8000_0030, 8, 0, 2, 0x2000_0001, 1, 2, 0, 0, 0, 0, 3, 5],
    ),
    // procedure 3, of uid 1000 with gid 100: AUTH_SYS of 20 bytes, stamp 0, no name, no gids
    (
        "STOP",
        9,
        AdminUser::Of {
            uid: 1_000,
            gid: 100,
        },
        AdminCall::Stop,
        &[
            0x8000_003c,
            9,
            0,
            2,
            0x2000_0001,
            1,
            3,
            1,
            20,
            0,
            0,
            1_000,
            100,
            0,
            0,
            0,
        ],
    ),
];

/// The reply to a CENSUS of two volumes, with a verifier of flavor 6 and 5 bytes.
const VERIFIED: [u32; 19] = [
    1,
    1,
    0,
    6,
    5,
    0x0102_0304,
    0x0500_0000,
    0,
    2,
    0,
    0,
    4_096,
    0,
    3,
    1,
    1,
    1,
    1,
    0,
];

/// Replies that refuse a call of xid 1 by numbers, or are none with results of either procedure.
const NONE: [(&str, &[u32], AdminFault); 17] = [
    (
        "PROG_MISMATCH",
        &[1, 1, 0, 0, 0, 2, 2, 3],
        AdminFault::Refused(CallRefusal::ProgramMismatch { low: 2, high: 3 }),
    ),
    (
        "RPC_MISMATCH",
        &[1, 1, 1, 0, 3, 4],
        AdminFault::Refused(CallRefusal::RpcMismatch { low: 3, high: 4 }),
    ),
    (
        "AUTH_ERROR 1",
        &[1, 1, 1, 1, 1],
        AdminFault::Refused(CallRefusal::AuthError { number: 1 }),
    ),
    (
        "AUTH_ERROR 5",
        &[1, 1, 1, 1, 5],
        AdminFault::Refused(CallRefusal::AuthError { number: 5 }),
    ),
    (
        "AUTH_ERROR 0",
        &[1, 1, 1, 1, 0],
        AdminFault::Refused(CallRefusal::AuthError { number: 0 }),
    ),
    ("no xid", &[], AdminFault::Malformed(Fault::Short)),
    ("an xid alone", &[1], AdminFault::Malformed(Fault::Short)),
    ("a call", &[1, 0, 2], AdminFault::Malformed(Fault::BadEnum)),
    (
        "message type 2",
        &[1, 2, 0],
        AdminFault::Malformed(Fault::BadEnum),
    ),
    (
        "reply_stat 2",
        &[1, 1, 2],
        AdminFault::Malformed(Fault::BadEnum),
    ),
    (
        "accept_stat 6",
        &[1, 1, 0, 0, 0, 6],
        AdminFault::Malformed(Fault::BadEnum),
    ),
    (
        "reject_stat 2",
        &[1, 1, 1, 2, 0],
        AdminFault::Malformed(Fault::BadEnum),
    ),
    (
        "a verifier of 404 bytes",
        &[1, 1, 0, 0, 404, 0],
        AdminFault::Malformed(Fault::TooLong),
    ),
    (
        "a verifier with padding that isn't zero",
        &[1, 1, 0, 0, 3, 1, 0],
        AdminFault::Malformed(Fault::BadPad),
    ),
    (
        "no results",
        &[1, 1, 0, 0, 0, 0],
        AdminFault::Malformed(Fault::Short),
    ),
    (
        "PROG_MISMATCH without the highest",
        &[1, 1, 0, 0, 0, 2, 2],
        AdminFault::Malformed(Fault::Short),
    ),
    (
        "PROG_UNAVAIL and more",
        &[1, 1, 0, 0, 0, 1, 0],
        AdminFault::Malformed(Fault::LeftOver),
    ),
];

/// Replies to a GROW whose results are none.
const NOT_GROWN: [(&str, &[u32], AdminFault); 4] = [
    (
        "NFS3_OK with half a number",
        &[1, 1, 0, 0, 0, 0, 0, 0],
        AdminFault::Malformed(Fault::Short),
    ),
    (
        "NFS3_OK and more",
        &[1, 1, 0, 0, 0, 0, 0, 0, 5_120, 0],
        AdminFault::Malformed(Fault::LeftOver),
    ),
    (
        "NFS3ERR_NOSPC and more",
        &[1, 1, 0, 0, 0, 0, 28, 0],
        AdminFault::Malformed(Fault::LeftOver),
    ),
    (
        "NFS3ERR_STALE",
        &[1, 1, 0, 0, 0, 0, 70],
        AdminFault::Malformed(Fault::BadEnum),
    ),
];

/// Errors of a stream, and what a call comes to by each.
const FAILURES: [(&str, ErrorKind, AdminFault); 3] = [
    ("EPIPE", ErrorKind::BrokenPipe, AdminFault::Stream),
    ("EWOULDBLOCK", ErrorKind::WouldBlock, AdminFault::Late),
    ("ETIMEDOUT", ErrorKind::TimedOut, AdminFault::Late),
];

/// A stream that answers each read and each write with an error.
#[derive(Drop)]
struct Broken {
    kind: ErrorKind,
}

impl Read for Broken {
    fn read(&mut self, _buf: &mut [u8]) -> io::Result<usize> {
        Err(io::Error::from(self.kind))
    }
}

impl Write for Broken {
    fn write(&mut self, _buf: &[u8]) -> io::Result<usize> {
        Err(io::Error::from(self.kind))
    }

    fn flush(&mut self) -> io::Result<()> {
        Ok(())
    }
}

/// What a reply to a CENSUS of xid 1 comes to in place of counts.
fn no_counts(rt: &impl AllocGlobal, reply: &[u8]) -> Option<AdminFault> {
    read_census(rt.alloc(), 1, reply).err()
}

/// Looks whether these are no replies to a GROW of xid 1, and maybe none to a CENSUS, by what
/// faults.
fn are_none(rt: &(impl Abort + AllocGlobal), rows: &[(&str, &[u32], AdminFault)], of_either: bool) {
    for (row, words, fault) in rows {
        let reply = spelled(rt, &[words]);
        holds(rt, row, read_growth(1, &reply).err() == Some(*fault));
        if of_either {
            holds(rt, row, no_counts(rt, &reply) == Some(*fault));
        }
        mem::forget(reply);
    }
}

#[test]
fn calls_of_any_xid(rt: HostRuntime) {
    for (row, xid, user, call, words) in &CALLS {
        let record = call_record(rt.alloc(), *xid, *user, *call).expect(&rt, "no memory");
        spells(&rt, row, &record, &[words]);
        mem::forget(record);
    }
}

#[test]
fn numbers_of_refusals_and_faults(rt: HostRuntime) {
    are_none(&rt, &NONE, true);
    are_none(&rt, &NOT_GROWN, false);
}

#[test]
fn replies_that_are_cut(rt: HostRuntime) {
    let reply = spelled(&rt, &[&VERIFIED]);
    for size in 0..reply.len() {
        let fault = no_counts(&rt, &reply[..size]);
        let is_short = fault == Some(AdminFault::Malformed(Fault::Short));
        holds(&rt, "cut", is_short);
    }
    mem::forget(reply);
}

#[test]
fn streams_that_fail(rt: HostRuntime) {
    for (row, kind, fault) in &FAILURES {
        let mut stream = Broken { kind: *kind };
        let found = next_record(rt.alloc(), &mut stream).err();
        holds(&rt, row, found == Some(*fault));
        holds(
            &rt,
            row,
            census(&mut stream, rt.alloc()).err() == Some(*fault),
        );
    }
}
