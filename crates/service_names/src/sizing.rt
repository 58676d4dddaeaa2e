//! Files of a size set.

ghost use Rattle.std.specs.Prelude.{◌≡◌, ◌<◌, ◌^◌, ◌-◌, ℕ, None, length};
ghost use Rattle.std.specs.Option.{option_map};
ghost use Rattle.nfs_values.specs.Ownership.{ownership_of};
ghost use Rattle.parcels.specs.Filled.{logical_alike};
ghost use Rattle.inodes.specs.Inode.{attributes_value, inode_value, kind_value};
ghost use Rattle.nfs_model.specs.volume.Inodes.{filled_blocks};
ghost use Rattle.filer_state.specs.changes.NodesSized.{all_freed, file_sized};
ghost use Rattle.filer_state.specs.changes.NodesSized.{inode_sized, kind_sized};
ghost use Rattle.filer_state.specs.state.Sets.{logical_before, logical_after};
ghost use Rattle.service_names.specs.Changing.{MayBeSet, sizing, with_inode};
ghost use Rattle.service_names.specs.Shaping.{file_shaped};

use crate::cutting::size_stripes;
use filer_state::Files;
use inodes::{Inode, InodeKind, StoredAttributes};
use nfs_values::{Fileid, Ownership};
use parcels::LogicalHeld;

/// Sets a file to a size, cut or grown by a hole, and to attributes, and tells its inode; the
/// blocks that leave it are dead. It needs no memory.
pub fn size_file(
    held: &mut LogicalHeld<Files>,
    fileid: Fileid,
    inode: Inode,
    attributes: StoredAttributes,
    size: u64,
) -> Inode
    requires { MayBeSet fileid.0 (logical_before held.old) }
    ensures inode { inode_value result ≡ inode_sized
        (sizing fileid.0 (inode_value inode) (attributes_value attributes) size)
        (length (all_freed fileid.0 size (logical_before held.old).stripes)) }
    ensures set { logical_after held.old held.new ≡ file_sized
        (sizing fileid.0 (inode_value inode) (attributes_value attributes) size)
        (logical_before held.old) }
    ensures alike { logical_alike held.old held.new }
{
    let owner = Some(attributes.ownership());
    shape_file(held, fileid, inode, attributes, size, owner)
}

/// Takes all bytes of a file that is to be dropped, and tells its inode; its blocks are dead, and
/// its cards stay. It needs no memory.
pub(crate) fn empty_file(held: &mut LogicalHeld<Files>, fileid: Fileid, inode: Inode) -> Inode
    requires { MayBeSet fileid.0 (logical_before held.old) }
    ensures inode { inode_value result ≡ inode_sized
        (sizing fileid.0 (inode_value inode) (attributes_value inode.attributes) 0)
        (length (all_freed fileid.0 0 (logical_before held.old).stripes)) }
    ensures set { logical_after held.old held.new ≡ file_shaped
        (sizing fileid.0 (inode_value inode) (attributes_value inode.attributes) 0) None
        (logical_before held.old) }
    ensures alike { logical_alike held.old held.new }
{
    shape_file(held, fileid, inode, inode.attributes, 0, None)
}

/// Sets a file to a size and to attributes, and tells its inode; its cards show an owner and the
/// size where an owner is given, and else stay.
fn shape_file(
    held: &mut LogicalHeld<Files>,
    fileid: Fileid,
    inode: Inode,
    attributes: StoredAttributes,
    size: u64,
    owner: Option<Ownership>,
) -> Inode
    requires { MayBeSet fileid.0 (logical_before held.old) }
    ensures inode { inode_value result ≡ inode_sized
        (sizing fileid.0 (inode_value inode) (attributes_value attributes) size)
        (length (all_freed fileid.0 size (logical_before held.old).stripes)) }
    ensures set { logical_after held.old held.new ≡ file_shaped
        (sizing fileid.0 (inode_value inode) (attributes_value attributes) size)
        (option_map ownership_of owner) (logical_before held.old) }
    ensures alike { logical_alike held.old held.new }
{
    let left = size_stripes(held, fileid, size, owner, inode.kind.filled());
    let sized = Inode {
        attributes,
        kind: sized_kind(inode.kind, size, left),
        ..inode
    };
    set_inode(held, fileid, sized);
    sized
}

/// What an inode is of where its file has a size, and this many filled blocks.
fn sized_kind(kind: InodeKind, size: u64, left: u32) -> InodeKind
    ensures { (fewer : ℕ) → left ≡ filled_blocks (kind_value kind) - fewer
        → kind_value result ≡ kind_sized size fewer (kind_value kind) }
{
    match kind {
        InodeKind::RegularFile { verifier, .. } => InodeKind::RegularFile {
            size,
            filled: left,
            verifier,
        },
        InodeKind::Directory { .. } => kind,
        InodeKind::Special { .. } => kind,
    }
}

/// Sets the inode of a node that is there. It takes no memory.
pub fn set_inode(held: &mut LogicalHeld<Files>, fileid: Fileid, inode: Inode)
    requires { held.old.own.inodes.used < 2 ^ 63 }
    ensures own { held.new.own ≡ with_inode fileid.0 (inode_value inode) held.old.own }
    ensures stripes { held.new.stripes ≡ held.old.stripes }
{
    held.own.get_mut().inodes.set(fileid, inode);
}
