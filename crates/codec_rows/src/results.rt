//! Results, as bytes.

ghost use Rattle.std.specs.Prelude.{◌≤◌, length};
ghost use Rattle.nfs_values.specs.Answer.{answer_of};
ghost use Rattle.nfs_types.specs.Results.{answer_bytes};

use crate::bytes::{read_answer, spells};
use nfs_types::encode_result;
use nfs_values::answer::{
    AccessResults, DirectoryEntry, DirectoryEntryPlus, FilesystemInfoResults, LinkResults,
    PathConfigurationResults, ReadDirectoryPlusResults, ReadDirectoryResults, ReadLinkResults,
    RenameResults,
};
use nfs_values::{
    Answer, Attributes, Change, Cookie, Device, Exports, FileHandle, FileKind, Fileid, Moment,
    MountResults, Name, Named, PriorAttributes, SpecialType, Status, VolumeNumber,
};
use std::mem;
use std::process::Abort;

const ZERO: Moment = Moment {
    seconds: 0,
    nanoseconds: 0,
};

/// A directory with all else zero.
const DIRECTORY: Attributes = Attributes {
    kind: FileKind::Directory,
    mode: 0,
    links: 0,
    uid: 0,
    gid: 0,
    size: 0,
    used: 0,
    fsid: 0,
    fileid: Fileid(0),
    atime: ZERO,
    mtime: ZERO,
    ctime: ZERO,
};

/// What tells it, behind TRUE: its kind, and then zeros.
const DIRECTORY_TOLD: [u32; 2] = [1, 2];

/// A file of two bytes with all else zero.
const FILE: Attributes = Attributes {
    kind: FileKind::Regular,
    mode: 0o644,
    links: 1,
    uid: 0,
    gid: 0,
    size: 2,
    used: 0,
    fsid: 0,
    fileid: Fileid(5),
    atime: ZERO,
    mtime: ZERO,
    ctime: ZERO,
};

/// Its fattr3: type, mode and nlink; uid and gid, size; used, rdev and fsid; fileid; atime, mtime
/// and ctime.
const FILE_TOLD: [u32; 21] = [
    1, 0o644, 1, 0, 0, 0, 2, 0, 0, 0, 0, 0, 0, 0, 5, 0, 0, 0, 0, 0, 0,
];

/// Looks whether an answer is told by these words.
fn is_told(rt: &(impl Abort + AllocGlobal), row: &str, answer: Answer, words: &[&[u32]])
    requires { length (answer_bytes (answer_of answer)) ≤ 400 }
{
    let mut out = Vec::new(rt.alloc());
    encode_result(&mut out, &answer).expect(rt, "no memory");
    mem::forget(answer);
    spells(rt, row, &out, words);
}

/// A page with the entry of fileid 5, name `a` and cookie 3, the last of its directory.
const PAGE: [&[u32]; 4] = [
    &[0],
    &DIRECTORY_TOLD,
    &[0; 22],
    &[1, 0, 5, 1, 0x6100_0000, 0, 3, 0, 1],
];

#[test]
fn entries_are_chained(rt: HostRuntime) {
    let mut entries = Vec::new(rt.alloc());
    let name = b"a".to_vec(rt.alloc()).expect(&rt, "no memory");
    let entry = DirectoryEntry {
        fileid: Fileid(5),
        name: Name::new(name),
        cookie: Cookie(3),
    };
    entries.push(entry).expect(&rt, "no memory");
    let page = ReadDirectoryResults {
        directory: DIRECTORY,
        entries,
        eof: true,
    };
    is_told(&rt, "READDIR", Answer::ReadDirectory(Ok(page)), &PAGE);
}

/// A page with that entry, name_attributes and name_handle, and no entry more; not the end.
const CHAINED: [&[u32]; 7] = [
    &[0],
    &DIRECTORY_TOLD,
    &[0; 22],
    &[1, 0, 5, 1, 0x6100_0000, 0, 3],
    &[1],
    &FILE_TOLD,
    &[1, 12, 1, 0, 5, 0, 0],
];

#[test]
fn attributes_and_handles_are_chained(rt: HostRuntime) {
    let mut entries = Vec::new(rt.alloc());
    let name = b"a".to_vec(rt.alloc()).expect(&rt, "no memory");
    let entry = DirectoryEntryPlus {
        entry: DirectoryEntry {
            fileid: Fileid(5),
            name: Name::new(name),
            cookie: Cookie(3),
        },
        attributes: Some(FILE),
        handle: Some(FileHandle::new(&[0, 0, 0, 1, 0, 0, 0, 0, 0, 0, 0, 5])),
    };
    entries.push(entry).expect(&rt, "no memory");
    let page = ReadDirectoryPlusResults {
        directory: DIRECTORY,
        entries,
        eof: false,
    };
    is_told(
        &rt,
        "READDIRPLUS",
        Answer::ReadDirectoryPlus(Ok(page)),
        &CHAINED,
    );
}

/// A page with the entry of fileid 6, an empty name and cookie 4, FALSE for name_attributes, TRUE
/// for name_handle, no entry more, and the end.
const LEFT_OUT: [&[u32]; 4] = [
    &[0],
    &DIRECTORY_TOLD,
    &[0; 22],
    &[1, 0, 6, 0, 0, 4, 0, 1, 1, 0x0800_0000, 0, 1],
];

#[test]
fn attributes_of_an_entry_are_left_out(rt: HostRuntime) {
    let mut entries = Vec::new(rt.alloc());
    let entry = DirectoryEntryPlus {
        entry: DirectoryEntry {
            fileid: Fileid(6),
            name: Name::new(Vec::new(rt.alloc())),
            cookie: Cookie(4),
        },
        attributes: None,
        handle: Some(FileHandle::new(&[8])),
    };
    entries.push(entry).expect(&rt, "no memory");
    let page = ReadDirectoryPlusResults {
        directory: DIRECTORY,
        entries,
        eof: true,
    };
    is_told(
        &rt,
        "no attributes",
        Answer::ReadDirectoryPlus(Ok(page)),
        &LEFT_OUT,
    );
}

/// The directory that a name leaves, and the one that it comes to.
const LEFT: Change = Change {
    before: PriorAttributes {
        size: 4096,
        mtime: Moment {
            seconds: 1,
            nanoseconds: 2,
        },
        ctime: Moment {
            seconds: 3,
            nanoseconds: 4,
        },
    },
    after: DIRECTORY,
};

const REACHED: Change = Change {
    before: PriorAttributes {
        size: 8192,
        mtime: ZERO,
        ctime: ZERO,
    },
    after: DIRECTORY,
};

const RENAMED: RenameResults = RenameResults {
    from: LEFT,
    to: REACHED,
};

/// Both directories, each before and after.
const RENAMED_TOLD: [&[u32]; 6] = [
    &[0, 1, 0, 4096, 1, 2, 3, 4],
    &DIRECTORY_TOLD,
    &[0; 20],
    &[1, 0, 8192, 0, 0, 0, 0],
    &DIRECTORY_TOLD,
    &[0; 20],
];

const ACCESS: AccessResults = AccessResults {
    object: DIRECTORY,
    given: 0x1F,
};

/// NFS3_OK and the directory, and then the bits that are given.
const GIVEN: [&[u32]; 4] = [&[0], &DIRECTORY_TOLD, &[0; 20], &[0x1F]];

const FILESYSTEM: FilesystemInfoResults = FilesystemInfoResults {
    root: DIRECTORY,
    largest: 0x0400_0000,
};

/// NFS3_OK and the directory, and then rtmax, rtpref, rtmult; wtmax, wtpref, wtmult; dtpref,
/// maxfilesize; time_delta, properties: FSF3_LINK 1, FSF3_SYMLINK 2, FSF3_HOMOGENEOUS 8 and
/// FSF3_CANSETTIME 16.
const FILESYSTEM_TOLD: [&[u32]; 5] = [
    &[0],
    &DIRECTORY_TOLD,
    &[0; 20],
    &[0x1_0000, 0x1_0000, 0x1000, 0x1_0000, 0x1_0000, 0x1000],
    &[0x1_0000, 0, 0x0400_0000, 0, 1, 0x1B],
];

/// NFS3_OK and the directory, and then linkmax, name_max; no_trunc, chown_restricted,
/// case_insensitive, case_preserving.
const PATH_TOLD: [&[u32]; 4] = [&[0], &DIRECTORY_TOLD, &[0; 20], &[65_000, 0xFF, 1, 0, 0, 1]];

#[test]
fn directories_are_told(rt: HostRuntime) {
    is_told(&rt, "RENAME", Answer::Rename(Ok(RENAMED)), &RENAMED_TOLD);
    is_told(&rt, "ACCESS", Answer::CheckAccess(Ok(ACCESS)), &GIVEN);
    let told = Answer::FilesystemInfo(Ok(FILESYSTEM));
    is_told(&rt, "FSINFO", told, &FILESYSTEM_TOLD);
    let told = PathConfigurationResults {
        object: DIRECTORY,
        is_chown_restricted: false,
    };
    is_told(
        &rt,
        "PATHCONF",
        Answer::PathConfiguration(Ok(told)),
        &PATH_TOLD,
    );
}

#[test]
fn failures_leave_parts_out(rt: HostRuntime) {
    // no attributes of the directory
    let small = Answer::ReadDirectoryPlus(Err(Status::TooSmall));
    is_told(&rt, "NFS3ERR_TOOSMALL", small, &[&[10005, 0]]);
    // and none before and after of either
    let crossing = Answer::Rename(Err(Status::CrossVolume));
    is_told(&rt, "NFS3ERR_XDEV", crossing, &[&[18, 0, 0, 0, 0]]);
    let long = Answer::Mount(Err(Status::NameTooLong));
    is_told(&rt, "MNT3ERR_NAMETOOLONG", long, &[&[63]]);
}

#[test]
fn failures_on_links_leave_parts_out(rt: HostRuntime) {
    let invalid = Answer::ReadLink(Err(Status::Invalid));
    is_told(&rt, "READLINK, NFS3ERR_INVAL", invalid, &[&[22, 0]]);
    let long = Answer::MakeSymbolicLink(Err(Status::NameTooLong));
    is_told(&rt, "SYMLINK, NFS3ERR_NAMETOOLONG", long, &[&[63, 0, 0]]);
    let bad = Answer::MakeDevice(Err(Status::BadType));
    is_told(&rt, "MKNOD, NFS3ERR_BADTYPE", bad, &[&[10007, 0, 0]]);
    let many = Answer::MakeLink(Err(Status::TooManyLinks));
    is_told(&rt, "LINK, NFS3ERR_MLINK", many, &[&[31, 0, 0, 0]]);
}

#[test]
fn kinds_are_told(rt: HostRuntime) {
    let regular = Attributes {
        kind: FileKind::Regular,
        ..DIRECTORY
    };
    let regular = Answer::GetAttributes(Ok(regular));
    is_told(&rt, "NF3REG", regular, &[&[0, 1], &[0; 20]]);
    let directory = Answer::GetAttributes(Ok(DIRECTORY));
    is_told(&rt, "NF3DIR", directory, &[&[0, 2], &[0; 20]]);
    let link = Attributes {
        kind: FileKind::Special(SpecialType::SymbolicLink),
        ..DIRECTORY
    };
    let link = Answer::GetAttributes(Ok(link));
    is_told(&rt, "NF3LNK", link, &[&[0, 5], &[0; 20]]);
    let socket = Attributes {
        kind: FileKind::Special(SpecialType::Socket),
        ..DIRECTORY
    };
    let socket = Answer::GetAttributes(Ok(socket));
    is_told(&rt, "NF3SOCK", socket, &[&[0, 6], &[0; 20]]);
    let fifo = Attributes {
        kind: FileKind::Special(SpecialType::Fifo),
        ..DIRECTORY
    };
    let fifo = Answer::GetAttributes(Ok(fifo));
    is_told(&rt, "NF3FIFO", fifo, &[&[0, 7], &[0; 20]]);
}

const DEVICE: Device = Device { major: 8, minor: 1 };

#[test]
fn devices_are_told(rt: HostRuntime) {
    // type; mode, nlink, uid and gid, size and used; rdev; fsid, fileid and the three times
    let block = Attributes {
        kind: FileKind::Special(SpecialType::BlockDevice(DEVICE)),
        ..DIRECTORY
    };
    let block = Answer::GetAttributes(Ok(block));
    let told: [&[u32]; 4] = [&[0, 3], &[0; 8], &[8, 1], &[0; 10]];
    is_told(&rt, "NF3BLK", block, &told);
    let character = Attributes {
        kind: FileKind::Special(SpecialType::CharacterDevice(DEVICE)),
        ..DIRECTORY
    };
    let character = Answer::GetAttributes(Ok(character));
    let told: [&[u32]; 4] = [&[0, 4], &[0; 8], &[8, 1], &[0; 10]];
    is_told(&rt, "NF3CHR", character, &told);
}

/// NFS3_OK, symlink_attributes, and the path of two bytes.
const TEXT_TOLD: [&[u32]; 3] = [&[0, 1], &FILE_TOLD, &[2, 0x2f78_0000]];

/// NFS3_OK, file_attributes, and the directory before and after.
const LINKED_TOLD: [&[u32]; 5] = [
    &[0, 1],
    &FILE_TOLD,
    &[1, 0, 8192, 0, 0, 0, 0],
    &DIRECTORY_TOLD,
    &[0; 20],
];

#[test]
fn links_are_told(rt: HostRuntime) {
    let text = b"/x".to_vec(rt.alloc()).expect(&rt, "no memory");
    let told = ReadLinkResults {
        object: FILE,
        text: Name::new(text),
    };
    is_told(&rt, "READLINK", Answer::ReadLink(Ok(told)), &TEXT_TOLD);
    let told = LinkResults {
        object: FILE,
        directory: REACHED,
    };
    is_told(&rt, "LINK", Answer::MakeLink(Ok(told)), &LINKED_TOLD);
}

/// Each path behind TRUE, without groups: `/vol0` and `/vol1`.
const EXPORTED: [u32; 11] = [
    1, 5, 0x2f766f6c, 0x30000000, 0, 1, 5, 0x2f766f6c, 0x31000000, 0, 0,
];

#[test]
fn volumes_are_told(rt: HostRuntime) {
    let handle = FileHandle::naming(Named {
        volume: VolumeNumber(1),
        fileid: Fileid(1),
    });
    let mounted = Answer::Mount(Ok(MountResults { handle }));
    // MNT3_OK, 12 bytes of handle, and two flavors: AUTH_SYS and AUTH_NONE
    is_told(&rt, "MNT", mounted, &[&[0, 12, 1, 0, 1, 2, 1, 0]]);
    is_told(&rt, "DUMP", Answer::ListMounts, &[&[0]]);
    let listed = Answer::ListExports(Exports { volumes: 2 });
    is_told(&rt, "EXPORT", listed, &[&EXPORTED]);
}

#[test]
fn bytes_are_told(rt: HostRuntime) {
    let read = read_answer(&rt, &[1, 2, 3]);
    is_told(&rt, "READ", read, &[&[0, 0, 3, 1, 3, 0x0102_0300]]);
}
