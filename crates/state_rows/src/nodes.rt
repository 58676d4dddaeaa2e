//! Inodes made, changed and dropped, and as many as a volume has at most.

use crate::same::same;
use inodes::{GROUP, Inode, InodeKind, Inodes, StoredAttributes};
use nfs_values::{Device, Fileid, Moment, Ownership, SpecialType, Verifier};
use std::mem;
use std::process::Abort;

const MADE: Moment = Moment {
    seconds: 7,
    nanoseconds: 0,
};

/// When a file was written last.
const TOUCH: Moment = Moment {
    seconds: 9,
    nanoseconds: 0,
};

/// When a node got or lost a name.
const CHANGED: Moment = Moment {
    seconds: 8,
    nanoseconds: 1,
};

/// The owner of the root.
const OWNER: Ownership = Ownership {
    mode: 0o1777,
    uid: 65534,
    gid: 65533,
};

/// What one owner made.
const ATTRIBUTES: StoredAttributes = StoredAttributes {
    mode: 0o644,
    uid: 65534,
    gid: 65534,
    atime: MADE,
    mtime: MADE,
    ctime: MADE,
};

/// A file with this many bytes and filled blocks, and one name.
fn file(size: u64, filled: u32) -> Inode {
    Inode {
        attributes: ATTRIBUTES,
        names: 1,
        kind: InodeKind::RegularFile {
            size,
            filled,
            verifier: Some(Verifier([0x11; 8])),
        },
    }
}

/// What is neither a file nor a directory, with one name.
fn special(special: SpecialType, size: u32) -> Inode {
    Inode {
        attributes: ATTRIBUTES,
        names: 1,
        kind: InodeKind::Special { special, size },
    }
}

/// One of each after three files, the devices of different numbers.
const SPECIALS: [(u64, SpecialType, u32); 5] = [
    (5, SpecialType::SymbolicLink, 1_024),
    (6, SpecialType::Fifo, 0),
    (7, SpecialType::Socket, 0),
    (
        8,
        SpecialType::BlockDevice(Device {
            major: 8,
            minor: u32::MAX,
        }),
        0,
    ),
    (
        9,
        SpecialType::CharacterDevice(Device { major: 1, minor: 3 }),
        0,
    ),
];

/// Creates an inode where there is room for it, and tells its fileid, or else the root's.
fn create(rt: &impl Abort, inodes: &mut Inodes, inode: Inode) -> Fileid {
    if inodes.next_fileid().0 >= 1 << 62 || inodes.len() >= 65_536 {
        return Fileid::ROOT;
    }
    inodes.create(inode).expect(rt, "no memory").keep()
}

/// Creates an inode where there is room for it, tells its fileid, and undoes the creation.
fn create_and_undo(rt: &impl Abort, inodes: &mut Inodes, inode: Inode) -> Fileid {
    if inodes.next_fileid().0 >= 1 << 62 || inodes.len() >= 65_536 {
        return Fileid::ROOT;
    }
    let created = inodes.create(inode).expect(rt, "no memory");
    let fileid = created.fileid();
    if inodes.next_fileid().0 - 1 == fileid.0 && inodes.get(fileid).is_some() {
        inodes.undo_create(created);
    } else {
        created.keep();
    }
    fileid
}

/// The root alone.
fn no_files(rt: &(impl Abort + AllocGlobal)) -> Inodes {
    Inodes::new(rt.alloc(), OWNER, MADE).expect(rt, "no memory")
}

/// Three files.
fn three(rt: &(impl Abort + AllocGlobal)) -> Inodes {
    let mut inodes = no_files(rt);
    for (fileid, size, filled) in [(2, 8195, 1), (3, 0, 0), (4, 65536, 16)] {
        let made = create(rt, &mut inodes, file(size, filled));
        same(rt, &made, &Fileid(fileid));
    }
    inodes
}

#[test]
fn root(rt: HostRuntime) {
    let inodes = no_files(&rt);
    let root = Inode::root(OWNER, MADE);
    same(&rt, &inodes.get(Fileid::ROOT), &Some(root));
    same(&rt, &root.attributes.ownership(), &OWNER);
    let times = (
        root.attributes.atime,
        root.attributes.mtime,
        root.attributes.ctime,
    );
    same(&rt, &times, &(MADE, MADE, MADE));
    mem::forget(inodes);
}

/// How many inodes there are, and how many blocks are used.
fn counts(inodes: &Inodes) -> (usize, u64) {
    (inodes.len(), inodes.used())
}

#[test]
fn blocks_of_files_read_in_advance(rt: HostRuntime) {
    let inodes = three(&rt);
    let mut fileids = [Fileid(0); GROUP];
    fileids[0] = Fileid(2);
    fileids[3] = Fileid(99_999);
    fileids[5] = Fileid(4);
    fileids[15] = Fileid(3);
    same(&rt, &inodes.read_ahead(&fileids), &17);
    mem::forget(inodes);
}

#[test]
fn made_and_dropped(rt: HostRuntime) {
    let mut inodes = three(&rt);
    same(&rt, &counts(&inodes), &(4, 17));
    inodes.drop_node(Fileid(2));
    inodes.drop_node(Fileid(2));
    same(&rt, &counts(&inodes), &(3, 16));
    let fifth = create_and_undo(&rt, &mut inodes, file(1, 1));
    same(&rt, &counts(&inodes), &(3, 16));
    let again = create(&rt, &mut inodes, file(1, 1));
    same(&rt, &(fifth, again), &(Fileid(5), Fileid(5)));
    same(&rt, &inodes.get(Fileid(2)), &None);
    mem::forget(inodes);
}

#[test]
fn settled(rt: HostRuntime) {
    let mut inodes = three(&rt);
    inodes.settle(Fileid(3), Some(TOUCH));
    inodes.settle(Fileid(3), None);
    inodes.settle(Fileid(5), Some(TOUCH));
    let held = file(0, 0).attributes_held(Some(TOUCH));
    same(&rt, &(held.mtime, held.atime), &(TOUCH, MADE));
    let shown = inodes.get(Fileid(3)).map(|inode| inode.attributes);
    same(&rt, &shown, &Some(held));
    mem::forget(inodes);
}

#[test]
fn set_where_there(rt: HostRuntime) {
    let mut inodes = three(&rt);
    inodes.set(Fileid(3), file(4096, 1));
    inodes.set(Fileid(5), file(4096, 1));
    same(&rt, &counts(&inodes), &(4, 18));
    same(&rt, &inodes.get(Fileid(3)), &Some(file(4096, 1)));
    same(&rt, &inodes.get(Fileid(5)), &None);
    same(&rt, &inodes.get(Fileid(4)), &Some(file(65536, 16)));
    mem::forget(inodes);
}

#[test]
fn of_each_kind(rt: HostRuntime) {
    let mut inodes = three(&rt);
    for (fileid, kind, size) in SPECIALS {
        let made = create(&rt, &mut inodes, special(kind, size));
        same(&rt, &made, &Fileid(fileid));
    }
    same(&rt, &counts(&inodes), &(9, 17));
    for (fileid, kind, size) in SPECIALS {
        let found = inodes.get(Fileid(fileid));
        same(&rt, &found, &Some(special(kind, size)));
    }
    inodes.drop_node(Fileid(6));
    same(&rt, &counts(&inodes), &(8, 17));
    same(&rt, &inodes.get(Fileid(6)), &None);
    mem::forget(inodes);
}

/// How many names an inode has, and its times.
fn linked(inode: Option<Inode>) -> Option<(u32, Moment, Moment)> {
    inode.map(|inode| (inode.names, inode.attributes.mtime, inode.attributes.ctime))
}

#[test]
fn names(rt: HostRuntime) {
    let one = file(4096, 1);
    let two = one.with_link(Some(TOUCH), CHANGED);
    same(&rt, &linked(two), &Some((2, TOUCH, CHANGED)));
    let two = one.with_link(None, CHANGED).expect(&rt, "a second name");
    same(&rt, &linked(Some(two)), &Some((2, MADE, CHANGED)));
    let again = two.without_link(None, TOUCH);
    same(&rt, &linked(again), &Some((1, MADE, TOUCH)));
    same(&rt, &one.without_link(None, TOUCH), &None);
}

#[test]
fn as_many_names_as_a_node_has(rt: HostRuntime) {
    let one = file(4096, 1);
    let names = 64_999;
    let last = Inode { names, ..one }.with_link(None, CHANGED);
    same(&rt, &linked(last), &Some((65_000, MADE, CHANGED)));
    let names = 65_000;
    let none = Inode { names, ..one }.with_link(None, CHANGED);
    same(&rt, &none, &None);
}

#[test]
fn as_many_as_a_volume_has(rt: HostRuntime) {
    let mut inodes = no_files(&rt);
    for number in 2..65537 {
        let fileid = create(&rt, &mut inodes, file(number, 0));
        same(&rt, &fileid, &Fileid(number));
    }
    same(&rt, &inodes.len(), &65536);
    same(&rt, &inodes.get(Fileid(40000)), &Some(file(40000, 0)));
    same(&rt, &inodes.get(Fileid(65537)), &None);
    mem::forget(inodes);
}
