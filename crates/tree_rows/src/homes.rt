//! The home of each call.

use crate::holds::holds;
use crate::layouts::two_volumes;
use affinity::homes::home_of;
use affinity::{CallNode, Layout};
use nfs_values::{
    BytesToWrite, Call, Cookie, CreateMode, FileHandle, FileKind, Name, SetAttributes, SpecialType,
    Target, Verifier, VolumeNumber,
};
use std::alloc::Global;
use std::mem;
use std::process::Abort;

/// A handle of 12 bytes: volume and fileid.
fn handle(volume: u8, fileid: u8) -> FileHandle {
    FileHandle::new(&[0, 0, 0, volume, 0, 0, 0, 0, 0, 0, 0, fileid])
}

/// A name in a directory.
fn target_in(alloc: Global, directory: FileHandle) -> Target {
    Target {
        directory,
        name: Name::new(Vec::new(alloc)),
    }
}

/// A name in the root of volume 1.
fn target(alloc: Global) -> Target {
    target_in(alloc, handle(1, 1))
}

/// MNT of a path below the root of a volume.
fn mount_below(alloc: Global, volume: u8) -> Call {
    Call::MountBelow {
        root: handle(volume, 1),
        path: Name::new(Vec::new(alloc)),
    }
}

/// Looks whether this is a call's home.
fn has_home(rt: &impl Abort, layout: &Layout, call: Call, home: Option<CallNode>) {
    holds(rt, home_of(&call, layout) == home);
    mem::forget(call);
}

/// Looks whether the home of calls is Volume Logical of volume 1.
fn is_logical(rt: &impl Abort, layout: &Layout, call: Call) {
    has_home(rt, layout, call, Some(CallNode::Logical(1)));
}

#[test]
fn homes_by_handle(rt: HostRuntime) {
    let layout = two_volumes(&rt);
    let get = Call::GetAttributes {
        handle: handle(1, 1),
    };
    is_logical(&rt, &layout, get);
    let set = Call::SetAttributes {
        handle: handle(1, 1),
        set: SetAttributes::NOTHING,
        guard: None,
    };
    is_logical(&rt, &layout, set);
    let commit = Call::Commit {
        handle: handle(1, 2),
    };
    is_logical(&rt, &layout, commit);
    let access = Call::CheckAccess {
        handle: handle(1, 2),
        asked: 63,
    };
    is_logical(&rt, &layout, access);
    let link = Call::ReadLink {
        handle: handle(1, 2),
    };
    is_logical(&rt, &layout, link);
    let info = Call::FilesystemInfo {
        handle: handle(1, 1),
    };
    is_logical(&rt, &layout, info);
    let path = Call::PathConfiguration {
        handle: handle(1, 1),
    };
    is_logical(&rt, &layout, path);
    mem::forget(layout);
}

#[test]
fn homes_of_pages(rt: HostRuntime) {
    let layout = two_volumes(&rt);
    let list = Call::ReadDirectory {
        directory: handle(1, 1),
        cookie: Cookie::START,
        verifier: Verifier([0; 8]),
        count: 512,
    };
    is_logical(&rt, &layout, list);
    let list_with_nodes = Call::ReadDirectoryPlus {
        directory: handle(1, 1),
        cookie: Cookie::START,
        verifier: Verifier([0; 8]),
        names_count: 512,
        count: 4_096,
    };
    is_logical(&rt, &layout, list_with_nodes);
    mem::forget(layout);
}

#[test]
fn homes_by_name(rt: HostRuntime) {
    let layout = two_volumes(&rt);
    is_logical(&rt, &layout, Call::Lookup(target(rt.alloc())));
    let create = Call::Create {
        target: target(rt.alloc()),
        mode: CreateMode::Unchecked(SetAttributes::NOTHING),
    };
    is_logical(&rt, &layout, create);
    let make = Call::MakeDirectory {
        target: target(rt.alloc()),
        set: SetAttributes::NOTHING,
    };
    is_logical(&rt, &layout, make);
    let link = Call::MakeSymbolicLink {
        target: target(rt.alloc()),
        set: SetAttributes::NOTHING,
        text: Name::new(Vec::new(rt.alloc())),
    };
    is_logical(&rt, &layout, link);
    let node = Call::MakeDevice {
        target: target(rt.alloc()),
        kind: FileKind::Special(SpecialType::Fifo),
        set: SetAttributes::NOTHING,
    };
    is_logical(&rt, &layout, node);
    is_logical(&rt, &layout, Call::Remove(target(rt.alloc())));
    is_logical(&rt, &layout, Call::RemoveDirectory(target(rt.alloc())));
    is_logical(&rt, &layout, mount_below(rt.alloc(), 1));
    has_home(&rt, &layout, mount_below(rt.alloc(), 2), None);
    mem::forget(layout);
}

/// A name that goes from the root of one volume to that of another, or of the same.
fn renaming(alloc: Global, from: u8, to: u8) -> Call {
    Call::Rename {
        from: target_in(alloc, handle(from, 1)),
        to: target_in(alloc, handle(to, 1)),
    }
}

/// Volumes of which one is another than the other, or isn't there.
const APART: [(u8, u8); 5] = [(0, 1), (1, 0), (1, 2), (2, 1), (2, 2)];

#[test]
fn homes_by_two_names(rt: HostRuntime) {
    let layout = two_volumes(&rt);
    is_logical(&rt, &layout, renaming(rt.alloc(), 1, 1));
    for (from, to) in &APART {
        has_home(&rt, &layout, renaming(rt.alloc(), *from, *to), None);
    }
    mem::forget(layout);
}

/// A name in the root of one volume for a file of another, or of the same.
fn linking(alloc: Global, file: u8, directory: u8) -> Call {
    Call::MakeLink {
        handle: handle(file, 2),
        target: target_in(alloc, handle(directory, 1)),
    }
}

#[test]
fn homes_of_links(rt: HostRuntime) {
    let layout = two_volumes(&rt);
    is_logical(&rt, &layout, linking(rt.alloc(), 1, 1));
    for (file, directory) in &APART {
        has_home(&rt, &layout, linking(rt.alloc(), *file, *directory), None);
    }
    mem::forget(layout);
}

/// A growth of a volume by a range.
fn growth(volume: u32) -> Call {
    Call::Grow {
        volume: VolumeNumber(volume),
        ranges: 1,
    }
}

/// Asks for the status of a volume.
fn status(volume: u8) -> Call {
    Call::FilesystemStatus {
        handle: handle(volume, 1),
    }
}

#[test]
fn homes_of_whole_volumes(rt: HostRuntime) {
    let layout = two_volumes(&rt);
    has_home(&rt, &layout, status(0), Some(CallNode::Volume(0)));
    has_home(&rt, &layout, growth(0), Some(CallNode::Aggregate(1)));
    has_home(&rt, &layout, Call::Census, Some(CallNode::Serial));
    mem::forget(layout);
}

#[test]
fn calls_without_home(rt: HostRuntime) {
    let layout = two_volumes(&rt);
    let short = Call::Read {
        handle: FileHandle::new(&[0, 0, 0, 0, 0, 0, 0, 0, 0, 0, 2]),
        offset: 0,
        count: 1,
    };
    has_home(&rt, &layout, Call::Null, None);
    let info = Call::FilesystemInfo {
        handle: handle(2, 1),
    };
    has_home(&rt, &layout, info, None);
    has_home(&rt, &layout, status(2), None);
    has_home(&rt, &layout, short, None);
    has_home(&rt, &layout, growth(2), None);
    mem::forget(layout);
}

/// Offset, count, and the stripe of file 2 of volume 0, if the bytes lie in one.
const SPANS: [(u64, u32, Option<u32>); 12] = [
    (0, 1, Some(2)),
    (262_140, 4, Some(2)),
    (262_143, 1, Some(2)),
    (262_143, 2, None),
    (262_143, 0, Some(2)),
    (262_144, 10, Some(3)),
    (196_608, 65_537, Some(2)),
    (196_608, 4_294_967_295, Some(2)),
    (196_609, 65_536, None),
    (1_572_864, 1, Some(0)),
    (18_446_744_073_709_551_615, 1, Some(1)),
    (18_446_744_073_709_551_615, 2, None),
];

/// Its home.
fn home_at(stripe: Option<u32>) -> Option<CallNode> {
    match stripe {
        Some(stripe) => Some(CallNode::Stripe { volume: 0, stripe }),
        None => Some(CallNode::Logical(0)),
    }
}

/// A READ of file 2.
fn read(volume: u8, offset: u64, count: u32) -> Call {
    Call::Read {
        handle: handle(volume, 2),
        offset,
        count,
    }
}

#[test]
fn spans_are_read(rt: HostRuntime) {
    let layout = two_volumes(&rt);
    for (offset, count, stripe) in &SPANS {
        has_home(&rt, &layout, read(0, *offset, *count), home_at(*stripe));
    }
    mem::forget(layout);
}

/// A WRITE of file 2 of volume 0, without data.
fn write(alloc: Global, offset: u64, count: u32) -> Call {
    Call::Write {
        handle: handle(0, 2),
        offset,
        count,
        bytes: BytesToWrite::all(Vec::new(alloc)),
    }
}

#[test]
fn spans_are_written(rt: HostRuntime) {
    let layout = two_volumes(&rt);
    for (offset, count, stripe) in &SPANS {
        let call = write(rt.alloc(), *offset, *count);
        has_home(&rt, &layout, call, home_at(*stripe));
    }
    mem::forget(layout);
}

/// A span of file 2 of volume 1, and its stripe.
const STRIPES: [(u64, u32); 4] = [(0, 2), (8, 10), (13, 15), (14, 0)];

#[test]
fn spans_of_16_stripes(rt: HostRuntime) {
    let layout = two_volumes(&rt);
    for (span, stripe) in &STRIPES {
        let home = CallNode::Stripe {
            volume: 1,
            stripe: *stripe,
        };
        let call = read(1, span.wrapping_mul(262_144), 1);
        has_home(&rt, &layout, call, Some(home));
    }
    mem::forget(layout);
}
