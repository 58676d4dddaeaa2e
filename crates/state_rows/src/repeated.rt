//! Calls that come again, and what they are told.

use crate::same::same;
use memos::Memos;
use nfs_values::answer::{LinkResults, MakeResults, RenameResults};
use nfs_values::{
    Answer, Attributes, Call, Caller, Change, CreateMode, Credential, Device, FileHandle, FileKind,
    Fileid, GroupList, Moment, Name, Named, PeerAddress, PriorAttributes, SetAttributes, SetTime,
    SpecialType, Status, Target, Verifier, VolumeNumber,
};
use std::mem;
use std::process::Abort;

const VOLUME: VolumeNumber = VolumeNumber(3);

/// When each call is done.
const DONE: Moment = Moment {
    seconds: 1_000,
    nanoseconds: 500,
};

/// 120 seconds later.
const LATER: Moment = Moment {
    seconds: 1_120,
    nanoseconds: 500,
};

/// A nanosecond after that.
const TOO_LATE: Moment = Moment {
    seconds: 1_120,
    nanoseconds: 501,
};

const CALLER: Caller = Caller {
    credential: Credential {
        uid: 1_000,
        gid: 100,
        gids: GroupList::NONE,
    },
    xid: 0xdead_beef,
    peer: PeerAddress {
        address: 0x7f00_0001,
        port: 1_023,
    },
    is_checked: true,
    reads_only: false,
};

const SET: SetAttributes = SetAttributes {
    mode: Some(0o640),
    uid: None,
    gid: Some(100),
    size: None,
    atime: SetTime::ServerTime,
    mtime: SetTime::Keep,
};

/// Attributes of a file or directory with this fileid and size.
fn attributes(kind: FileKind, fileid: u64, size: u64) -> Attributes {
    Attributes {
        kind,
        mode: 0o755,
        links: 2,
        uid: 1_000,
        gid: 100,
        size,
        used: 4_096,
        fsid: 3,
        fileid: Fileid(fileid),
        atime: DONE,
        mtime: DONE,
        ctime: DONE,
    }
}

/// A directory that changed, which has this size now.
fn changed(size: u64) -> Change {
    Change {
        before: PriorAttributes {
            size: 4_096,
            mtime: Moment::START,
            ctime: Moment::START,
        },
        after: attributes(FileKind::Directory, 7, size),
    }
}

/// The handle of the directory.
fn directory() -> FileHandle {
    FileHandle::naming(Named {
        volume: VOLUME,
        fileid: Fileid(7),
    })
}

/// A name in the directory.
fn target(rt: &(impl Abort + AllocGlobal), name: &[u8]) -> Target {
    Target {
        directory: directory(),
        name: Name::copied(rt.alloc(), name).expect(rt, "no memory"),
    }
}

/// What made a file or directory of fileid 12.
fn made(kind: FileKind) -> MakeResults {
    MakeResults {
        handle: FileHandle::naming(Named {
            volume: VOLUME,
            fileid: Fileid(12),
        }),
        object: attributes(kind, 12, 0),
        directory: changed(5),
    }
}

/// A call of this number.
fn caller(xid: u32) -> Caller {
    Caller { xid, ..CALLER }
}

fn places(rt: &(impl Abort + AllocGlobal), count: u32) -> Memos {
    Memos::new(rt.alloc(), count).expect(rt, "no memory")
}

/// The size of the first directory in an answer, and of the second if there are two, with the
/// procedure; for what was made its fileid by its handle, and for what has one more name its
/// fileid.
fn shown(answer: &Answer) -> (&'static str, u64, u64) {
    let name = answer.procedure().name();
    match answer {
        Answer::SetAttributes(Ok(change)) => (name, change.after.size, 0),
        Answer::Create(Ok(made)) => (name, made.directory.after.size, fileid_made(made)),
        Answer::MakeDirectory(Ok(made)) => (name, made.directory.after.size, fileid_made(made)),
        Answer::MakeSymbolicLink(Ok(made)) => (name, made.directory.after.size, fileid_made(made)),
        Answer::MakeDevice(Ok(made)) => (name, made.directory.after.size, fileid_made(made)),
        Answer::Remove(Ok(change)) => (name, change.after.size, 0),
        Answer::RemoveDirectory(Ok(change)) => (name, change.after.size, 0),
        Answer::Rename(Ok(moved)) => (name, moved.from.after.size, moved.to.after.size),
        Answer::MakeLink(Ok(made)) => (name, made.directory.after.size, made.object.fileid.0),
        _ => (name, 0, 0),
    }
}

fn fileid_made(made: &MakeResults) -> u64 {
    match made.handle.named() {
        Some(named) => named.fileid.0,
        None => 0,
    }
}

/// What a call is told again at a moment.
fn told(
    memos: &Memos,
    caller: &Caller,
    call: &Call,
    moment: Moment,
) -> Option<(&'static str, u64, u64)> {
    memos
        .told(caller, call, moment, VOLUME)
        .map(|answer| shown(&answer))
}

/// Looks whether a call is told its answer for 120 seconds.
fn comes_again(
    rt: &(impl Abort + AllocGlobal),
    call: Call,
    answer: Answer,
    wanted: (&'static str, u64, u64),
) {
    let mut memos = places(rt, 1_000);
    same(rt, &told(&memos, &CALLER, &call, DONE), &None);
    memos.remember(&CALLER, &call, DONE, &answer);
    same(rt, &told(&memos, &CALLER, &call, DONE), &Some(wanted));
    same(rt, &told(&memos, &CALLER, &call, LATER), &Some(wanted));
    same(rt, &told(&memos, &CALLER, &call, TOO_LATE), &None);
    same(rt, &told(&memos, &CALLER, &call, Moment::START), &None);
    same(rt, &told(&memos, &caller(1), &call, DONE), &None);
    mem::forget(memos);
}

#[test]
fn each_call_comes_again(rt: HostRuntime) {
    let set = Call::SetAttributes {
        handle: directory(),
        set: SET,
        guard: Some(DONE),
    };
    comes_again(
        &rt,
        set,
        Answer::SetAttributes(Ok(changed(9))),
        ("SETATTR", 9, 0),
    );
    let create = Call::Create {
        target: target(&rt, b"a file"),
        mode: CreateMode::Exclusive(Verifier([0x11; 8])),
    };
    let file = Answer::Create(Ok(made(FileKind::Regular)));
    comes_again(&rt, create, file, ("CREATE", 5, 12));
    let make = Call::MakeDirectory {
        target: target(&rt, b"a directory"),
        set: SET,
    };
    let made_directory = Answer::MakeDirectory(Ok(made(FileKind::Directory)));
    comes_again(&rt, make, made_directory, ("MKDIR", 5, 12));
}

#[test]
fn each_removal_comes_again(rt: HostRuntime) {
    let remove = Call::Remove(target(&rt, &[0x61; 255]));
    comes_again(
        &rt,
        remove,
        Answer::Remove(Ok(changed(1))),
        ("REMOVE", 1, 0),
    );
    let remove = Call::RemoveDirectory(target(&rt, b"d"));
    let gone = Answer::RemoveDirectory(Ok(changed(2)));
    comes_again(&rt, remove, gone, ("RMDIR", 2, 0));
    let rename = Call::Rename {
        from: target(&rt, b"from"),
        to: target(&rt, &[0x62; 255]),
    };
    let moved = Answer::Rename(Ok(RenameResults {
        from: changed(3),
        to: changed(4),
    }));
    comes_again(&rt, rename, moved, ("RENAME", 3, 4));
}

/// A SYMLINK of a name, with a text.
fn link(rt: &(impl Abort + AllocGlobal), text: &[u8]) -> Call {
    Call::MakeSymbolicLink {
        target: target(rt, b"a link"),
        set: SET,
        text: Name::copied(rt.alloc(), text).expect(rt, "no memory"),
    }
}

/// A MKNOD of a name.
fn node(rt: &(impl Abort + AllocGlobal), special: SpecialType) -> Call {
    Call::MakeDevice {
        target: target(rt, b"a node"),
        kind: FileKind::Special(special),
        set: SET,
    }
}

/// A LINK of the node of a fileid.
fn another_name(rt: &(impl Abort + AllocGlobal), fileid: u64) -> Call {
    let fileid = Fileid(fileid);
    Call::MakeLink {
        handle: FileHandle::naming(Named {
            volume: VOLUME,
            fileid,
        }),
        target: target(rt, &[0x63; 255]),
    }
}

/// A block device.
fn block_device(major: u32, minor: u32) -> SpecialType {
    SpecialType::BlockDevice(Device { major, minor })
}

/// What a SYMLINK was answered.
fn link_made() -> Answer {
    let kind = FileKind::Special(SpecialType::SymbolicLink);
    Answer::MakeSymbolicLink(Ok(made(kind)))
}

/// What a LINK was answered.
fn name_made() -> Answer {
    Answer::MakeLink(Ok(LinkResults {
        object: attributes(FileKind::Regular, 12, 0),
        directory: changed(6),
    }))
}

#[test]
fn each_link_comes_again(rt: HostRuntime) {
    let wanted = ("SYMLINK", 5, 12);
    comes_again(&rt, link(&rt, &[0x64; 1_024]), link_made(), wanted);
    let made = Answer::MakeDevice(Ok(made(FileKind::Special(SpecialType::Fifo))));
    comes_again(&rt, node(&rt, SpecialType::Fifo), made, ("MKNOD", 5, 12));
    comes_again(&rt, another_name(&rt, 12), name_made(), ("LINK", 6, 12));
}

/// Looks whether one call is told what was answered, and another isn't.
fn is_told_alone(
    rt: &(impl Abort + AllocGlobal),
    call: Call,
    other: Call,
    answer: Answer,
    wanted: (&'static str, u64, u64),
) {
    let mut memos = places(rt, 1);
    memos.remember(&CALLER, &call, DONE, &answer);
    same(rt, &told(&memos, &CALLER, &call, DONE), &Some(wanted));
    same(rt, &told(&memos, &CALLER, &other, DONE), &None);
    mem::forget(memos);
}

#[test]
fn other_links_do_not(rt: HostRuntime) {
    let wanted = ("SYMLINK", 5, 12);
    is_told_alone(
        &rt,
        link(&rt, b"to"),
        link(&rt, b"from"),
        link_made(),
        wanted,
    );
    is_told_alone(
        &rt,
        link(&rt, b"to"),
        link(&rt, b"to the"),
        link_made(),
        wanted,
    );
    let device = node(&rt, block_device(8, 1));
    let other = node(&rt, block_device(8, 2));
    let made = Answer::MakeDevice(Ok(made(FileKind::Special(block_device(8, 1)))));
    is_told_alone(&rt, device, other, made, ("MKNOD", 5, 12));
    let call = another_name(&rt, 12);
    let other = another_name(&rt, 13);
    is_told_alone(&rt, call, other, name_made(), ("LINK", 6, 12));
}

#[test]
fn text_too_long_to_be_remembered(rt: HostRuntime) {
    let mut memos = places(&rt, 1);
    let long = link(&rt, &[0x64; 1_025]);
    memos.remember(&CALLER, &long, DONE, &link_made());
    same(&rt, &told(&memos, &CALLER, &long, DONE), &None);
    mem::forget(memos);
}

/// A REMOVE of a name.
fn removal(rt: &(impl Abort + AllocGlobal), name: &[u8]) -> Call {
    Call::Remove(target(rt, name))
}

#[test]
fn newest_stays(rt: HostRuntime) {
    let mut memos = places(&rt, 10);
    let call = removal(&rt, b"x");
    for (xid, size) in [(5, 50), (6, 60), (15, 150)] {
        memos.remember(
            &caller(xid),
            &call,
            DONE,
            &Answer::Remove(Ok(changed(size))),
        );
    }
    same(&rt, &told(&memos, &caller(5), &call, DONE), &None);
    same(
        &rt,
        &told(&memos, &caller(6), &call, DONE),
        &Some(("REMOVE", 60, 0)),
    );
    same(
        &rt,
        &told(&memos, &caller(15), &call, DONE),
        &Some(("REMOVE", 150, 0)),
    );
    mem::forget(memos);
}

#[test]
fn told_to_the_same_caller_alone(rt: HostRuntime) {
    let mut memos = places(&rt, 1);
    let call = removal(&rt, b"x");
    memos.remember(&CALLER, &call, DONE, &Answer::Remove(Ok(changed(1))));
    let mut other = CALLER;
    other.credential.uid = 1_001;
    same(&rt, &told(&memos, &other, &call, DONE), &None);
    let mut other = CALLER;
    other.credential.gids = GroupList::NONE.with(100);
    same(&rt, &told(&memos, &other, &call, DONE), &None);
    let mut other = CALLER;
    other.peer.port = 1_022;
    same(&rt, &told(&memos, &other, &call, DONE), &None);
    same(
        &rt,
        &told(&memos, &CALLER, &removal(&rt, b"y"), DONE),
        &None,
    );
    same(
        &rt,
        &told(&memos, &CALLER, &call, DONE),
        &Some(("REMOVE", 1, 0)),
    );
    mem::forget(memos);
}

#[test]
fn nothing_remembered(rt: HostRuntime) {
    let call = removal(&rt, b"x");
    let mut none = places(&rt, 0);
    none.remember(&CALLER, &call, DONE, &Answer::Remove(Ok(changed(1))));
    same(&rt, &told(&none, &CALLER, &call, DONE), &None);
    mem::forget(none);
    let mut memos = places(&rt, 1);
    memos.remember(&CALLER, &call, DONE, &Answer::Remove(Ok(changed(1))));
    memos.remember(&CALLER, &call, DONE, &Answer::Remove(Err(Status::NoEntry)));
    let read = Call::GetAttributes {
        handle: directory(),
    };
    let attributes = attributes(FileKind::Directory, 7, 4_096);
    memos.remember(&CALLER, &read, DONE, &Answer::GetAttributes(Ok(attributes)));
    same(&rt, &told(&memos, &CALLER, &read, DONE), &None);
    let long = removal(&rt, &[0x61; 256]);
    memos.remember(&CALLER, &long, DONE, &Answer::Remove(Ok(changed(2))));
    same(&rt, &told(&memos, &CALLER, &long, DONE), &None);
    same(
        &rt,
        &told(&memos, &CALLER, &call, DONE),
        &Some(("REMOVE", 1, 0)),
    );
    mem::forget(memos);
}
