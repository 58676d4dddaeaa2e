//! Calls of many kinds.

ghost use Rattle.turns.specs.Running.{IsRun};

use nfs_values::{
    BytesToWrite, Call, CreateMode, FileHandle, Fileid, Name, Named, SetAttributes, SetTime,
    Target, VolumeNumber,
};
use std::process::Abort;

/// The root of each volume.
pub(crate) const ROOT: u64 = 1;

/// A call, as a table has it. The first number is its volume's; a name is a number too.
#[derive(Clone, Copy)]
pub(crate) enum Ask {
    /// Of a file, by its fileid.
    Attributes(u32, u64),
    /// Of a name in the root.
    Lookup(u32, u8),
    Create(u32, u8),
    Remove(u32, u8),
    /// Of a file, by its fileid: from an offset, so many bytes.
    Read(u32, u64, u64, u32),
    /// Of a file, by its fileid: from an offset, so many bytes, each of which is this one.
    Write(u32, u64, u64, u32, u8),
    Status(u32),
    Census,
}

/// Nothing is set.
const UNSET: SetAttributes = SetAttributes {
    mode: None,
    uid: None,
    gid: None,
    size: None,
    atime: SetTime::Keep,
    mtime: SetTime::Keep,
};

/// The handle of a file or directory.
fn handle(volume: u32, fileid: u64) -> FileHandle {
    FileHandle::naming(Named {
        volume: VolumeNumber(volume),
        fileid: Fileid(fileid),
    })
}

/// A name in the root of a volume: one byte, by its number.
fn target(rt: &(impl Abort + AllocGlobal), volume: u32, name: u8) -> Target {
    Target {
        directory: handle(volume, ROOT),
        name: Name::new(vec![in rt.alloc(); 0x40 | name].expect(rt, "no memory")),
    }
}

/// The call.
pub(crate) fn call_of(rt: &(impl Abort + AllocGlobal), ask: Ask) -> Call
    ensures { IsRun result }
{
    match ask {
        Ask::Attributes(volume, fileid) => Call::GetAttributes {
            handle: handle(volume, fileid),
        },
        Ask::Lookup(volume, name) => Call::Lookup(target(rt, volume, name)),
        Ask::Create(volume, name) => Call::Create {
            target: target(rt, volume, name),
            mode: CreateMode::Unchecked(UNSET),
        },
        Ask::Remove(volume, name) => Call::Remove(target(rt, volume, name)),
        Ask::Read(volume, fileid, offset, count) => Call::Read {
            handle: handle(volume, fileid),
            offset,
            count,
        },
        Ask::Write(volume, fileid, offset, count, byte) => Call::Write {
            handle: handle(volume, fileid),
            offset,
            count,
            bytes: BytesToWrite::all(vec![in rt.alloc(); byte; count as usize].expect(
                rt,
                "no memory",
            )),
        },
        Ask::Status(volume) => Call::FilesystemStatus {
            handle: handle(volume, ROOT),
        },
        Ask::Census => Call::Census,
    }
}
