//! What replies show of a node.

ghost use Rattle.std.specs.Prelude.{◌≡◌, ◌≤◌, None};
ghost use Rattle.std.specs.Option.{option_map};
ghost use Rattle.nfs_model.specs.Shown.{before_of as before_shown};
ghost use Rattle.nfs_values.specs.Attributes.{before_of, shown_of};
ghost use Rattle.nfs_values.specs.Moment.{moment_of};
ghost use Rattle.inodes.specs.Inode.{attributes_value, inode_value, kind_value};
ghost use Rattle.nfs_model.specs.volume.Inodes.{RegularFile};
ghost use Rattle.filer_state.specs.state.Changes.{shown_inode, shown_kind};
ghost use Rattle.filer_state.specs.state.Sets.{logical_before};
ghost use Rattle.filer_state.specs.state.Tree.{file_touch};
ghost use Rattle.service_names.specs.Shown.{HasFewLinks};

use crate::touches::latest_touch;
use filer_state::Files;
use inodes::{Inode, InodeKind, StoredAttributes};
use nfs_values::{
    Attributes, BLOCK_BYTES, FileKind, Fileid, Moment, PriorAttributes, VolumeNumber,
};
use parcels::LogicalHeld;

/// The size of any directory (our profile).
const DIRECTORY_SIZE: u64 = 4_096;

/// The attributes of a node of a volume (fattr3, RFC 1813 section 2.6). The stripes are asked for
/// the latest touch of a file alone, since nothing else has one.
pub fn shown_now(
    held: &LogicalHeld<Files>,
    volume: VolumeNumber,
    fileid: Fileid,
    inode: Inode,
) -> Attributes
    requires stripes { held.now.own.stripes ≤ 16 }
    requires links { HasFewLinks (kind_value inode.kind) }
    ensures { shown_of result ≡ shown_inode volume.0 fileid.0 (inode_value inode)
        (file_touch (logical_before held.now).stripes fileid.0) }
{
    match inode.kind {
        InodeKind::RegularFile { .. } => shown(volume, fileid, inode, latest_touch(held, fileid)),
        InodeKind::Directory { .. } => shown(volume, fileid, inode, None),
        InodeKind::Special { .. } => shown(volume, fileid, inode, None),
    }
}

/// The attributes of a node (fattr3, RFC 1813 section 2.6), where this is its file's latest touch.
pub(crate) fn shown(
    volume: VolumeNumber,
    fileid: Fileid,
    inode: Inode,
    touch: Option<Moment>,
) -> Attributes
    requires few { HasFewLinks (kind_value inode.kind) }
    ensures { shown_of result ≡ shown_kind volume.0 fileid.0
        (attributes_value inode.attributes) inode.names (kind_value inode.kind)
        (option_map moment_of touch) }
{
    match inode.kind {
        InodeKind::RegularFile { size, filled, .. } => {
            let now = inode.attributes.with_touch(touch);
            Attributes {
                kind: FileKind::Regular,
                links: inode.names,
                size,
                used: BLOCK_BYTES * u64::from(filled),
                ..shown_empty(volume, fileid, now)
            }
        }
        InodeKind::Directory { subdirectories, .. } => Attributes {
            kind: FileKind::Directory,
            links: 2 + subdirectories,
            size: DIRECTORY_SIZE,
            ..shown_empty(volume, fileid, inode.attributes)
        },
        InodeKind::Special { special, size } => Attributes {
            kind: FileKind::Special(special),
            links: inode.names,
            size: u64::from(size),
            ..shown_empty(volume, fileid, inode.attributes)
        },
    }
}

/// The attributes of an empty file with these and one name (fattr3, RFC 1813 section 2.6).
fn shown_empty(volume: VolumeNumber, fileid: Fileid, now: StoredAttributes) -> Attributes
    ensures { shown_of result ≡ shown_kind volume.0 fileid.0 (attributes_value now) 1
        (RegularFile 0 0 None) None }
{
    Attributes {
        kind: FileKind::Regular,
        mode: u32::from(now.mode),
        links: 1,
        uid: now.uid,
        gid: now.gid,
        size: 0,
        used: 0,
        fsid: u64::from(volume.0),
        fileid,
        atime: now.atime,
        mtime: now.mtime,
        ctime: now.ctime,
    }
}

/// What is shown of attributes before a call (wcc_attr, RFC 1813 section 2.6).
pub(crate) fn prior(shown: Attributes) -> PriorAttributes
    ensures { before_of result ≡ before_shown (shown_of shown) }
{
    PriorAttributes {
        size: shown.size,
        mtime: shown.mtime,
        ctime: shown.ctime,
    }
}
