//! Arguments, each of those that take memory once where memory is there.

use crate::bytes::{are_equal, holds, is_handle, spelled};
use nfs_types::{Bad, decode_args, decode_call, decode_in_place};
use nfs_values::{
    Call, CreateMode, Device, FileKind, MOUNT_PROGRAM, Moment, MountCall, NFS_PROGRAM, Procedure,
    SetAttributes, SetTime, SpecialType, Target,
};
use std::mem;

/// The handle 7.
const HANDLE: [u32; 2] = [1, 0x0700_0000];

/// The handle 7, and the name `ab`.
const TARGET: [u32; 4] = [1, 0x0700_0000, 2, 0x6162_0000];

/// The handle 8, and the name `xyz`.
const OTHER_TARGET: [u32; 4] = [1, 0x0800_0000, 3, 0x7879_7a00];

/// Mode 0644 octal, no uid and gid, size 5, atime of the server, mtime 3.000000004.
const SET: [u32; 11] = [1, 0o644, 0, 0, 1, 0, 5, 1, 2, 3, 4];

/// What they set.
const ASKED: SetAttributes = SetAttributes {
    mode: Some(0o644),
    uid: None,
    gid: None,
    size: Some(5),
    atime: SetTime::ServerTime,
    mtime: SetTime::ClientTime(Moment {
        seconds: 3,
        nanoseconds: 4,
    }),
};

/// The handle 7, offset 8, count 3, FILE_SYNC, and three bytes.
const WRITE: [u32; 8] = [1, 0x0700_0000, 0, 8, 3, 2, 3, 0x0102_0300];

/// To the path `/x`.
const PATH: [u32; 2] = [2, 0x2f78_0000];

/// The path `/vol0`.
const VOLUME_PATH: [u32; 3] = [5, 0x2f76_6f6c, 0x3000_0000];

/// The path `/vol1/a`.
const BELOW_PATH: [u32; 3] = [7, 0x2f76_6f6c, 0x312f_6100];

/// Cookie 3, cookieverf, dircount 512 and maxcount 8192.
const PAGE: [u32; 6] = [0, 3, 0x0102_0304, 0x0506_0708, 512, 8192];

/// Procedures with their arguments.
const CALLS: [(&str, Procedure, &[&[u32]]); 20] = [
    ("LOOKUP", Procedure::Lookup, &[&TARGET]),
    ("REMOVE", Procedure::Remove, &[&TARGET]),
    ("RMDIR", Procedure::RemoveDirectory, &[&TARGET]),
    ("RENAME", Procedure::Rename, &[&TARGET, &OTHER_TARGET]),
    ("CREATE, GUARDED", Procedure::Create, &[&TARGET, &[1], &SET]),
    ("MKDIR", Procedure::MakeDirectory, &[&TARGET, &SET]),
    ("WRITE", Procedure::Write, &[&WRITE]),
    ("ACCESS", Procedure::CheckAccess, &[&HANDLE, &[0x8000_003F]]),
    ("FSINFO", Procedure::FilesystemInfo, &[&HANDLE]),
    ("PATHCONF", Procedure::PathConfiguration, &[&HANDLE]),
    (
        "READDIRPLUS",
        Procedure::ReadDirectoryPlus,
        &[&HANDLE, &PAGE],
    ),
    ("READLINK", Procedure::ReadLink, &[&HANDLE]),
    (
        "SYMLINK",
        Procedure::MakeSymbolicLink,
        &[&TARGET, &SET, &PATH],
    ),
    ("LINK", Procedure::MakeLink, &[&HANDLE, &TARGET]),
    ("MNT", Procedure::Mount, &[&VOLUME_PATH]),
    ("MNT below a root", Procedure::Mount, &[&BELOW_PATH]),
    ("DUMP", Procedure::ListMounts, &[]),
    ("EXPORT", Procedure::ListExports, &[]),
    ("UMNT", Procedure::Unmount, &[&VOLUME_PATH]),
    ("UMNTALL", Procedure::UnmountAll, &[]),
];

/// Whether this is the handle 7 and the name `ab`.
fn is_target(target: &Target) -> bool {
    is_handle(&target.directory, &[7]) && are_equal(target.name.as_bytes(), b"ab")
}

/// Whether this is the handle 8 and the name `xyz`.
fn is_other_target(target: &Target) -> bool {
    is_handle(&target.directory, &[8]) && are_equal(target.name.as_bytes(), b"xyz")
}

/// Whether a call on names asks what the rows spell, and its procedure.
fn look_at(call: &Call) -> (bool, Procedure) {
    match call {
        Call::Lookup(target) => (is_target(target), Procedure::Lookup),
        Call::Remove(target) => (is_target(target), Procedure::Remove),
        Call::RemoveDirectory(target) => (is_target(target), Procedure::RemoveDirectory),
        Call::Rename { from, to } => {
            let are_both = is_target(from) && is_other_target(to);
            (are_both, Procedure::Rename)
        }
        Call::Create { target, mode } => {
            let is_asked = is_target(target) && *mode == CreateMode::Guarded(ASKED);
            (is_asked, Procedure::Create)
        }
        Call::MakeDirectory { target, set } => {
            let is_asked = is_target(target) && *set == ASKED;
            (is_asked, Procedure::MakeDirectory)
        }
        Call::MakeSymbolicLink { target, set, text } => {
            let is_text = are_equal(text.as_bytes(), b"/x");
            let is_asked = is_target(target) && *set == ASKED && is_text;
            (is_asked, Procedure::MakeSymbolicLink)
        }
        Call::MakeLink { handle, target } => {
            let is_asked = is_handle(handle, &[7]) && is_target(target);
            (is_asked, Procedure::MakeLink)
        }
        Call::Mount(asked) => look_at_mount(asked),
        Call::MountBelow { root, path } => {
            let is_root = is_handle(root, &[0, 0, 0, 1, 0, 0, 0, 0, 0, 0, 0, 1]);
            let is_asked = is_root && are_equal(path.as_bytes(), b"/vol1/a");
            (is_asked, Procedure::Mount)
        }
        _ => look_at_handle(call),
    }
}

/// The same of a call on a handle.
fn look_at_handle(call: &Call) -> (bool, Procedure) {
    match call {
        Call::Write {
            handle,
            offset,
            count,
            bytes,
        } => {
            let are_bytes = are_equal(bytes.as_slice(), &[1, 2, 3]);
            let is_asked = is_handle(handle, &[7]) && *offset == 8 && *count == 3;
            (are_bytes && is_asked, Procedure::Write)
        }
        Call::CheckAccess { handle, asked } => (
            is_handle(handle, &[7]) && *asked == 0x8000_003F,
            Procedure::CheckAccess,
        ),
        Call::ReadLink { handle } => (is_handle(handle, &[7]), Procedure::ReadLink),
        Call::FilesystemInfo { handle } => (is_handle(handle, &[7]), Procedure::FilesystemInfo),
        Call::PathConfiguration { handle } => {
            (is_handle(handle, &[7]), Procedure::PathConfiguration)
        }
        Call::ReadDirectoryPlus {
            directory,
            cookie,
            verifier,
            names_count,
            count,
        } => {
            let is_verifier = are_equal(&verifier.0, &[1, 2, 3, 4, 5, 6, 7, 8]);
            let is_page = is_verifier && cookie.0 == 3 && *names_count == 512 && *count == 8192;
            (
                is_handle(directory, &[7]) && is_page,
                Procedure::ReadDirectoryPlus,
            )
        }
        _ => (false, Procedure::Null),
    }
}

/// The same of a call of MOUNT. UMNT and UMNTALL are heard as one.
fn look_at_mount(call: &MountCall) -> (bool, Procedure) {
    match call {
        MountCall::Mount { path } => (are_equal(path.as_bytes(), b"/vol0"), Procedure::Mount),
        MountCall::ListMounts => (true, Procedure::ListMounts),
        MountCall::ListExports => (true, Procedure::ListExports),
        MountCall::Unmount => (true, Procedure::Unmount),
    }
}

/// The procedure as which a call of this one is heard.
fn heard_as(procedure: Procedure) -> Procedure {
    match procedure {
        Procedure::UnmountAll => Procedure::Unmount,
        _ => procedure,
    }
}

#[test]
fn calls_are_made(rt: HostRuntime) {
    for (row, procedure, parts) in &CALLS {
        let arguments = spelled(&rt, parts);
        let call = decode_call(rt.alloc(), *procedure, &arguments).expect(&rt, row);
        let (is_asked, found) = look_at(&call);
        mem::forget((arguments, call));
        holds(
            &rt,
            row,
            is_asked && found as u32 == heard_as(*procedure) as u32,
        );
    }
}

/// The numbers of a device.
const NUMBERS: [u32; 2] = [8, 1];

const DEVICE: Device = Device { major: 8, minor: 1 };

/// What a MKNOD is to make, its arguments, and the kind and the attributes that they ask for.
const NODES: [(&str, &[&[u32]], FileKind, SetAttributes); 7] = [
    (
        "NF3REG",
        &[&TARGET, &[1]],
        FileKind::Regular,
        SetAttributes::NOTHING,
    ),
    (
        "NF3DIR",
        &[&TARGET, &[2]],
        FileKind::Directory,
        SetAttributes::NOTHING,
    ),
    (
        "NF3BLK",
        &[&TARGET, &[3], &SET, &NUMBERS],
        FileKind::Special(SpecialType::BlockDevice(DEVICE)),
        ASKED,
    ),
    (
        "NF3CHR",
        &[&TARGET, &[4], &SET, &NUMBERS],
        FileKind::Special(SpecialType::CharacterDevice(DEVICE)),
        ASKED,
    ),
    (
        "NF3LNK",
        &[&TARGET, &[5]],
        FileKind::Special(SpecialType::SymbolicLink),
        SetAttributes::NOTHING,
    ),
    (
        "NF3SOCK",
        &[&TARGET, &[6], &SET],
        FileKind::Special(SpecialType::Socket),
        ASKED,
    ),
    (
        "NF3FIFO",
        &[&TARGET, &[7], &SET],
        FileKind::Special(SpecialType::Fifo),
        ASKED,
    ),
];

/// Whether a call is a MKNOD of this kind with these attributes.
fn makes(call: &Call, wanted: FileKind, attributes: SetAttributes) -> bool {
    match call {
        Call::MakeDevice { target, kind, set } => {
            is_target(target) && *kind == wanted && *set == attributes
        }
        _ => false,
    }
}

#[test]
fn nodes_are_made(rt: HostRuntime) {
    for (row, parts, kind, set) in &NODES {
        let arguments = spelled(&rt, parts);
        let call = decode_call(rt.alloc(), Procedure::MakeDevice, &arguments).expect(&rt, row);
        let is_made = makes(&call, *kind, *set);
        mem::forget((arguments, call));
        holds(&rt, row, is_made);
    }
}

/// Five bytes, and then the arguments of the WRITE.
const RECORD: [u8; 37] = [
    9, 9, 9, 9, 9, 0, 0, 0, 1, 7, 0, 0, 0, 0, 0, 0, 0, 0, 0, 0, 8, 0, 0, 0, 3, 0, 0, 0, 2, 0, 0, 0,
    3, 1, 2, 3, 0,
];

#[test]
fn data_stays_in_its_record(rt: HostRuntime) {
    let record = Vec::from_slice(rt.alloc(), &RECORD).expect(&rt, "no memory");
    assert!(rt; record.len() == 37);
    let decoded = decode_in_place(rt.alloc(), Procedure::Write, record, 5);
    let call = decoded.expect(&rt, "no call");
    let (is_asked, found) = look_at_handle(&call);
    mem::forget(call);
    holds(
        &rt,
        "WRITE",
        is_asked && found as u32 == Procedure::Write as u32,
    );
}

/// The handle of a root, and the length of the name `abc`.
const ROOT: [u32; 5] = [12, 0, 0, 1, 3];

/// A program and the number of a procedure, arguments of it, how many of their bytes are left out
/// at the end, and the number of the fault for which they are refused, or 0.
const FAULTS: [(&str, u32, u32, &[&[u32]], usize, u32); 13] = [
    ("LOOKUP", NFS_PROGRAM, 3, &[&TARGET], 0, 0),
    // RFC 1813 section 3.3
    (
        "22, the number of no procedure",
        NFS_PROGRAM,
        22,
        &[&TARGET],
        0,
        3,
    ),
    (
        "padding that isn't zero",
        NFS_PROGRAM,
        3,
        &[&ROOT, &[0x6162_6301]],
        0,
        4,
    ),
    (
        "bytes behind the name",
        NFS_PROGRAM,
        3,
        &[&ROOT, &[0x6162_6300, 0]],
        0,
        6,
    ),
    ("ACCESS without its bits", NFS_PROGRAM, 4, &[&HANDLE], 0, 1),
    (
        "a path without its padding",
        NFS_PROGRAM,
        10,
        &[&TARGET, &SET, &PATH],
        2,
        1,
    ),
    (
        "a link without its name",
        NFS_PROGRAM,
        15,
        &[&HANDLE, &HANDLE],
        0,
        1,
    ),
    (
        "a page without maxcount",
        NFS_PROGRAM,
        17,
        &[&HANDLE, &[0; 4], &[512]],
        0,
        1,
    ),
    (
        "a device of no kind",
        NFS_PROGRAM,
        11,
        &[&TARGET, &[8]],
        0,
        3,
    ),
    (
        "a device without its numbers",
        NFS_PROGRAM,
        11,
        &[&TARGET, &[4], &SET],
        0,
        1,
    ),
    ("MNT without a path", MOUNT_PROGRAM, 1, &[], 0, 1),
    (
        "UMNT of a path that is cut",
        MOUNT_PROGRAM,
        3,
        &[&VOLUME_PATH],
        4,
        1,
    ),
    ("EXPORT of a path", MOUNT_PROGRAM, 5, &[&VOLUME_PATH], 0, 6),
];

#[test]
fn garbage_is_refused(rt: HostRuntime) {
    for (row, program, procedure, parts, cut, fault) in &FAULTS {
        let mut arguments = spelled(&rt, parts);
        arguments.truncate(arguments.len().saturating_sub(*cut));
        let decoded = decode_args(rt.alloc(), *program, *procedure, &arguments);
        let number = match &decoded {
            Err(Bad::Fault(fault)) => fault.number(),
            _ => 0,
        };
        mem::forget((arguments, decoded));
        holds(&rt, row, number == *fault);
    }
}
