//! Records of replies, and the room that they take.

use crate::bytes::{holds, read_answer, same, spells};
use nfs_values::{
    Answer, AuthFault, BytesToWrite, Call, Cookie, CreateMode, FileHandle, FileKind, Fileid, Name,
    Named, Refusal, Reply, SetAttributes, Target, Verifier, VolumeNumber,
};
use rpc_msg::{move_reply_record, room_of_reply, write_reply, write_reply_record};
use std::alloc::Global;
use std::mem;
use std::process::Abort;

/// Refusals, and the record of the reply that is each under an xid.
const REFUSALS: [(&str, Refusal, u32, &[u32]); 3] = [
    (
        "AUTH_ERROR, AUTH_BADCRED",
        Refusal::AuthError(AuthFault::BadCredential),
        9,
        &[0x80000014, 9, 1, 1, 1, 1],
    ),
    (
        "SYSTEM_ERR",
        Refusal::SystemError,
        9,
        &[0x80000018, 9, 1, 0, 0, 0, 5],
    ),
    (
        "RPC_MISMATCH",
        Refusal::RpcMismatch { low: 2, high: 2 },
        3,
        &[0x80000018, 3, 1, 1, 0, 2, 2],
    ),
];

#[test]
fn refusals(rt: HostRuntime) {
    for (row, refusal, xid, words) in &REFUSALS {
        let reply = Reply::Refused(*refusal);
        let mut out = Vec::new(rt.alloc());
        write_reply_record(&mut out, *xid, &reply).expect(&rt, "no memory");
        spells(&rt, row, &out, &[words]);
        let mut bare = Vec::new(rt.alloc());
        write_reply(&mut bare, *xid, &reply).expect(&rt, "no memory");
        let (_, told) = out.split_at_checked(4).expect(&rt, row);
        same(&rt, row, &bare, told);
        mem::forget((reply, out, bare));
    }
}

#[test]
fn nothing_is_told(rt: HostRuntime) {
    let mut out = Vec::new(rt.alloc());
    let null = Reply::Success(Answer::Null);
    write_reply_record(&mut out, 9, &null).expect(&rt, "no memory");
    mem::forget(null);
    spells(&rt, "NULL", &out, &[&[0x80000018, 9, 1, 0, 0, 0, 0]]);
}

#[test]
fn bytes_of_a_read_are_moved(rt: HostRuntime) {
    for size in 0..9 {
        let mut reply = Reply::Success(read_answer(&rt, &[7; 8][..size]));
        let mut wanted = Vec::new(rt.alloc());
        write_reply_record(&mut wanted, 9, &reply).expect(&rt, "no memory");
        let mut moved = Vec::new(rt.alloc());
        move_reply_record(&mut moved, 9, &mut reply).expect(&rt, "no memory");
        same(&rt, "moved", &moved, &wanted);
        mem::forget((reply, wanted, moved));
    }
}

/// The handle of the root of volume 0.
fn root() -> FileHandle {
    FileHandle::naming(Named {
        volume: VolumeNumber(0),
        fileid: Fileid::ROOT,
    })
}

/// A name in the root of volume 0.
fn target(alloc: Global) -> Target {
    Target {
        directory: root(),
        name: Name::new(Vec::new(alloc)),
    }
}

/// Looks whether this is the room of the reply to a call, where there are two volumes.
fn takes(rt: &impl Abort, row: &str, call: Call, room: usize) {
    holds(rt, row, room_of_reply(&call, 2) == room);
    mem::forget(call);
}

#[test]
fn rooms_are_reached(rt: HostRuntime) {
    takes(&rt, "NULL", Call::Null, 28);
    takes(&rt, "GETATTR", Call::GetAttributes { handle: root() }, 116);
    takes(
        &rt,
        "FSSTAT",
        Call::FilesystemStatus { handle: root() },
        172,
    );
    takes(&rt, "CENSUS", Call::Census, 72);
    let access = Call::CheckAccess {
        handle: root(),
        asked: 63,
    };
    takes(&rt, "ACCESS", access, 124);
    takes(&rt, "FSINFO", Call::FilesystemInfo { handle: root() }, 168);
    takes(
        &rt,
        "PATHCONF",
        Call::PathConfiguration { handle: root() },
        144,
    );
    // of a text of 1,024 bytes
    takes(&rt, "READLINK", Call::ReadLink { handle: root() }, 1_148);
    let grow = Call::Grow {
        volume: VolumeNumber(0),
        ranges: 1,
    };
    takes(&rt, "GROW", grow, 40);
    let below = Call::MountBelow {
        root: root(),
        path: Name::new(Vec::new(rt.alloc())),
    };
    takes(&rt, "MNT below a root", below, 68);
}

#[test]
fn rooms_of_writes(rt: HostRuntime) {
    let write = Call::Write {
        handle: root(),
        offset: 0,
        count: 4,
        bytes: BytesToWrite::all(Vec::new(rt.alloc())),
    };
    takes(&rt, "WRITE", write, 56);
    let create = Call::Create {
        target: target(rt.alloc()),
        mode: CreateMode::Exclusive(Verifier([0; 8])),
    };
    takes(&rt, "CREATE", create, 264);
    let rename = Call::Rename {
        from: target(rt.alloc()),
        to: target(rt.alloc()),
    };
    takes(&rt, "RENAME", rename, 264);
    let symlink = Call::MakeSymbolicLink {
        target: target(rt.alloc()),
        set: SetAttributes::NOTHING,
        text: Name::new(Vec::new(rt.alloc())),
    };
    takes(&rt, "SYMLINK", symlink, 264);
    let mknod = Call::MakeDevice {
        target: target(rt.alloc()),
        kind: FileKind::Regular,
        set: SetAttributes::NOTHING,
    };
    takes(&rt, "MKNOD", mknod, 264);
    let link = Call::MakeLink {
        handle: root(),
        target: target(rt.alloc()),
    };
    takes(&rt, "LINK", link, 236);
}

#[test]
fn rooms_go_by_counts(rt: HostRuntime) {
    for (count, room) in [(0, 48), (4, 52), (5, 56), (65_537, 65_584)] {
        let read = Call::Read {
            handle: root(),
            offset: 0,
            count,
        };
        takes(&rt, "READ", read, room);
    }
    for (count, room) in [(3, 36), (160, 192), (65_537, 65_568)] {
        let list = Call::ReadDirectory {
            directory: root(),
            cookie: Cookie::START,
            verifier: Verifier([0; 8]),
            count,
        };
        takes(&rt, "READDIR", list, room);
        // dircount counts for nothing
        let plus = Call::ReadDirectoryPlus {
            directory: root(),
            cookie: Cookie::START,
            verifier: Verifier([0; 8]),
            names_count: 1,
            count,
        };
        takes(&rt, "READDIRPLUS", plus, room);
    }
}
