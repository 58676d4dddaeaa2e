//! What calls ask.

ghost use Rattle.std.specs.Prelude.{◌≡◌, []};
ghost use Rattle.nfs_model.specs.Route.{route};
ghost use Rattle.nfs_values.specs.Call.{call_of, call_with};
ghost use Rattle.nfs_values.specs.Route.{route_of};

use crate::attributes::FileKind;
use crate::bytes::BytesToWrite;
use crate::handle::{FileHandle, HandleMap};
use crate::moment::Moment;
use crate::mount::MountCall;
use crate::name::Name;
use crate::number::{Cookie, VolumeNumber};
use crate::route::Route;
use crate::set::{CreateMode, SetAttributes};
use crate::target::Target;
use crate::verifier::Verifier;
use std::alloc::Global;

/// A call with its arguments (RFC 1813 section 3.3). A handle is the bytes that came, good or bad.
/// How stable a WRITE is to be, and which bytes a COMMIT is of, isn't kept, since every WRITE is
/// stable.
pub enum Call {
    /// NULL of NFS, of the admin program and of MOUNT.
    Null,
    GetAttributes {
        handle: FileHandle,
    },
    SetAttributes {
        handle: FileHandle,
        set: SetAttributes,
        /// The change time at which alone they are set.
        guard: Option<Moment>,
    },
    Lookup(Target),
    CheckAccess {
        handle: FileHandle,
        /// The bits of what the caller asks whether it may do.
        asked: u32,
    },
    ReadLink {
        handle: FileHandle,
    },
    Read {
        handle: FileHandle,
        offset: u64,
        count: u32,
    },
    Write {
        handle: FileHandle,
        offset: u64,
        count: u32,
        bytes: BytesToWrite,
    },
    Create {
        target: Target,
        mode: CreateMode,
    },
    MakeDirectory {
        target: Target,
        set: SetAttributes,
    },
    MakeSymbolicLink {
        target: Target,
        set: SetAttributes,
        /// What the link stands for, which is never followed.
        text: Name,
    },
    MakeDevice {
        target: Target,
        kind: FileKind,
        /// Nothing, where the kind is one that MKNOD doesn't make.
        set: SetAttributes,
    },
    Remove(Target),
    RemoveDirectory(Target),
    Rename {
        from: Target,
        to: Target,
    },
    MakeLink {
        /// What gets one more name.
        handle: FileHandle,
        target: Target,
    },
    ReadDirectory {
        directory: FileHandle,
        cookie: Cookie,
        verifier: Verifier,
        /// The most bytes that the results may take.
        count: u32,
    },
    ReadDirectoryPlus {
        directory: FileHandle,
        cookie: Cookie,
        verifier: Verifier,
        /// The most bytes that names, cookies and fileids may take.
        names_count: u32,
        /// The most bytes that the results may take.
        count: u32,
    },
    FilesystemStatus {
        handle: FileHandle,
    },
    FilesystemInfo {
        handle: FileHandle,
    },
    PathConfiguration {
        handle: FileHandle,
    },
    Commit {
        handle: FileHandle,
    },
    /// CENSUS of the admin program.
    Census,
    /// GROW of the admin program.
    Grow {
        volume: VolumeNumber,
        ranges: u32,
    },
    /// STOP of the admin program.
    Stop,
    /// A call of MOUNT, but for NULL and for a MNT below the root of a volume.
    Mount(MountCall),
    /// MNT of MOUNT, of a path that leads below the root of a volume.
    MountBelow {
        /// The handle of that root, which is made and never came.
        root: FileHandle,
        path: Name,
    },
}

// By hand, so that crates above have no proof of the drop of each of its parts.
impl Drop for Call {
    fn drop(self) {
        match self {
            Call::Null => {}
            Call::GetAttributes { handle: _ } => {}
            Call::SetAttributes {
                handle: _,
                set: _,
                guard: _,
            } => {}
            Call::Lookup(_) => {}
            Call::CheckAccess {
                handle: _,
                asked: _,
            } => {}
            Call::ReadLink { handle: _ } => {}
            Call::Read {
                handle: _,
                offset: _,
                count: _,
            } => {}
            Call::Write {
                handle: _,
                offset: _,
                count: _,
                bytes: _,
            } => {}
            Call::Create { target: _, mode: _ } => {}
            Call::MakeDirectory { target: _, set: _ } => {}
            Call::MakeSymbolicLink {
                target: _,
                set: _,
                text: _,
            } => {}
            Call::MakeDevice {
                target: _,
                kind: _,
                set: _,
            } => {}
            Call::Remove(_) => {}
            Call::RemoveDirectory(_) => {}
            Call::Rename { from: _, to: _ } => {}
            Call::MakeLink {
                handle: _,
                target: _,
            } => {}
            Call::ReadDirectory {
                directory: _,
                cookie: _,
                verifier: _,
                count: _,
            } => {}
            Call::ReadDirectoryPlus {
                directory: _,
                cookie: _,
                verifier: _,
                names_count: _,
                count: _,
            } => {}
            Call::FilesystemStatus { handle: _ } => {}
            Call::FilesystemInfo { handle: _ } => {}
            Call::PathConfiguration { handle: _ } => {}
            Call::Commit { handle: _ } => {}
            Call::Census => {}
            Call::Grow {
                volume: _,
                ranges: _,
            } => {}
            Call::Stop => {}
            Call::Mount(_) => {}
            Call::MountBelow { root: _, path: _ } => {}
        }
    }
}

impl Call {
    /// What it is on, by which it is known where it may run.
    pub fn route(&self) -> Route<'_>
        ensures { route_of result ≡ route (call_of self.now) }
    {
        match self {
            Call::Null => Route::AtOnce,
            Call::GetAttributes { handle } => Route::Names { handle },
            Call::SetAttributes { handle, .. } => Route::Names { handle },
            Call::Lookup(target) => Route::Names {
                handle: &target.directory,
            },
            Call::CheckAccess { handle, .. } => Route::Names { handle },
            Call::ReadLink { handle } => Route::Names { handle },
            Call::Read {
                handle,
                offset,
                count,
            } => Route::BytesRead {
                handle,
                offset: *offset,
                count: *count,
            },
            Call::Write {
                handle,
                offset,
                count,
                ..
            } => Route::BytesWritten {
                handle,
                offset: *offset,
                count: *count,
            },
            Call::Create { target, .. } => Route::Names {
                handle: &target.directory,
            },
            Call::MakeDirectory { target, .. } => Route::Names {
                handle: &target.directory,
            },
            Call::MakeSymbolicLink { target, .. } => Route::Names {
                handle: &target.directory,
            },
            Call::MakeDevice { target, .. } => Route::Names {
                handle: &target.directory,
            },
            Call::Remove(target) => Route::Names {
                handle: &target.directory,
            },
            Call::RemoveDirectory(target) => Route::Names {
                handle: &target.directory,
            },
            Call::Rename { from, to } => Route::TwoHandles {
                from: &from.directory,
                to: &to.directory,
            },
            Call::MakeLink { handle, target } => Route::TwoHandles {
                from: handle,
                to: &target.directory,
            },
            Call::ReadDirectory { directory, .. } => Route::Names { handle: directory },
            Call::ReadDirectoryPlus { directory, .. } => Route::Names { handle: directory },
            Call::FilesystemStatus { handle } => Route::Volume { handle },
            Call::FilesystemInfo { handle } => Route::Names { handle },
            Call::PathConfiguration { handle } => Route::Names { handle },
            Call::Commit { handle } => Route::Names { handle },
            Call::Census => Route::Everything,
            Call::Grow { volume, .. } => Route::Aggregate { volume: *volume },
            Call::Stop => Route::AtOnce,
            Call::Mount(_) => Route::AtOnce,
            Call::MountBelow { root, .. } => Route::Names { handle: root },
        }
    }

    /// Whether it has memory of its own.
    pub fn has_memory(&self) -> bool {
        match self {
            Call::Lookup(_) => true,
            Call::Write {
                handle: _,
                offset: _,
                count: _,
                bytes: _,
            } => true,
            Call::Create { target: _, mode: _ } => true,
            Call::MakeDirectory { target: _, set: _ } => true,
            Call::MakeSymbolicLink {
                target: _,
                set: _,
                text: _,
            } => true,
            Call::MakeDevice {
                target: _,
                kind: _,
                set: _,
            } => true,
            Call::Remove(_) => true,
            Call::RemoveDirectory(_) => true,
            Call::Rename { from: _, to: _ } => true,
            Call::MakeLink {
                handle: _,
                target: _,
            } => true,
            Call::Null => false,
            Call::GetAttributes { handle: _ } => false,
            Call::SetAttributes {
                handle: _,
                set: _,
                guard: _,
            } => false,
            Call::CheckAccess {
                handle: _,
                asked: _,
            } => false,
            Call::ReadLink { handle: _ } => false,
            Call::Read {
                handle: _,
                offset: _,
                count: _,
            } => false,
            Call::ReadDirectory {
                directory: _,
                cookie: _,
                verifier: _,
                count: _,
            } => false,
            Call::ReadDirectoryPlus {
                directory: _,
                cookie: _,
                verifier: _,
                names_count: _,
                count: _,
            } => false,
            Call::FilesystemStatus { handle: _ } => false,
            Call::FilesystemInfo { handle: _ } => false,
            Call::PathConfiguration { handle: _ } => false,
            Call::Commit { handle: _ } => false,
            Call::Census => false,
            Call::Grow {
                volume: _,
                ranges: _,
            } => false,
            Call::Stop => false,
            Call::Mount(_) => true,
            Call::MountBelow { root: _, path: _ } => true,
        }
    }

    /// Takes the memory of the bytes that a WRITE writes, with nothing in it, for another call;
    /// other calls give none. What is left is to be written over.
    pub fn take_memory(&mut self, alloc: Global) -> Vec<u8>
        ensures { result.items ≡ [] }
    {
        match self {
            Call::Write { bytes, .. } => bytes.take_memory(alloc),
            _ => Vec::new(alloc),
        }
    }

    /// Whether it may change which blocks of its volume are in files or free.
    pub fn may_move_blocks(&self) -> bool {
        match self {
            Call::SetAttributes { .. } => true,
            Call::Write { .. } => true,
            Call::Create { .. } => true,
            Call::Remove(_) => true,
            Call::Rename { .. } => true,
            Call::Grow { .. } => true,
            Call::Null => false,
            Call::GetAttributes { .. } => false,
            Call::Lookup(_) => false,
            Call::CheckAccess { .. } => false,
            Call::ReadLink { .. } => false,
            Call::Read { .. } => false,
            Call::MakeDirectory { .. } => false,
            Call::MakeSymbolicLink { .. } => false,
            Call::MakeDevice { .. } => false,
            Call::RemoveDirectory(_) => false,
            Call::MakeLink { .. } => false,
            Call::ReadDirectory { .. } => false,
            Call::ReadDirectoryPlus { .. } => false,
            Call::FilesystemStatus { .. } => false,
            Call::FilesystemInfo { .. } => false,
            Call::PathConfiguration { .. } => false,
            Call::Commit { .. } => false,
            Call::Census => false,
            Call::Stop => false,
            Call::Mount(_) => false,
            Call::MountBelow { .. } => false,
        }
    }

    /// Puts in place of each of its handles that came the one that is made of it.
    pub fn map_handles<M: HandleMap>(&mut self, map: &M)
        ensures { call_of self.new ≡ call_with (M.made map.now) (call_of self.old) }
    {
        match self {
            Call::GetAttributes { handle } => put_made(handle, map),
            Call::SetAttributes { handle, .. } => put_made(handle, map),
            Call::Lookup(target) => put_made(&mut target.directory, map),
            Call::CheckAccess { handle, .. } => put_made(handle, map),
            Call::ReadLink { handle } => put_made(handle, map),
            Call::Read { handle, .. } => put_made(handle, map),
            Call::Write { handle, .. } => put_made(handle, map),
            Call::Create { target, .. } => put_made(&mut target.directory, map),
            Call::MakeDirectory { target, .. } => put_made(&mut target.directory, map),
            Call::MakeSymbolicLink { target, .. } => put_made(&mut target.directory, map),
            Call::MakeDevice { target, .. } => put_made(&mut target.directory, map),
            Call::Remove(target) => put_made(&mut target.directory, map),
            Call::RemoveDirectory(target) => put_made(&mut target.directory, map),
            Call::Rename { from, to } => {
                put_made(&mut from.directory, map);
                put_made(&mut to.directory, map);
            }
            Call::MakeLink { handle, target } => {
                put_made(handle, map);
                put_made(&mut target.directory, map);
            }
            Call::ReadDirectory { directory, .. } => put_made(directory, map),
            Call::ReadDirectoryPlus { directory, .. } => put_made(directory, map),
            Call::FilesystemStatus { handle } => put_made(handle, map),
            Call::FilesystemInfo { handle } => put_made(handle, map),
            Call::PathConfiguration { handle } => put_made(handle, map),
            Call::Commit { handle } => put_made(handle, map),
            Call::Null
            | Call::Census
            | Call::Grow { .. }
            | Call::Stop
            | Call::Mount(_)
            | Call::MountBelow { .. } => {}
        }
    }
}

/// Puts in place of a handle the one that is made of it.
fn put_made<M: HandleMap>(handle: &mut FileHandle, map: &M)
    ensures { handle.new ≡ M.made map.now handle.old }
{
    *handle = map.made_of(handle);
}
