//! Who may do what with a node.

ghost use Rattle.std.specs.Prelude.{◌≡◌};
ghost use Rattle.nfs_model.specs.Serial.Rights.{protected};
ghost use Rattle.nfs_model.specs.Types.{DirectoryKind};
ghost use Rattle.nfs_values.specs.Attributes.{kind_of};
ghost use Rattle.inodes.specs.Inode.{attributes_value, inode_value, kind_value};
ghost use Rattle.filer_state.specs.state.Protected.{kind_shown, protection_of};
ghost use Rattle.rights.specs.Protection.{protection_of as protection_value};

use inodes::{Inode, InodeKind};
use nfs_values::FileKind;
use rights::Protection;

/// What a node is.
fn kind_shown(kind: InodeKind) -> FileKind
    ensures { kind_of result ≡ kind_shown (kind_value kind) }
{
    match kind {
        InodeKind::RegularFile { .. } => FileKind::Regular,
        InodeKind::Directory { .. } => FileKind::Directory,
        InodeKind::Special { special, .. } => FileKind::Special(special),
    }
}

/// What says who may do what with a node.
pub(crate) fn protection_of(inode: &Inode) -> Protection
    ensures { protection_value result ≡ protection_of (inode_value inode.now) }
{
    Protection {
        kind: kind_shown(inode.kind),
        owner: inode.attributes.ownership(),
    }
}

/// What says who may do what with a directory.
pub(crate) fn directory_protection(inode: &Inode) -> Protection
    ensures { protection_value result
        ≡ protected DirectoryKind (attributes_value inode.now.attributes) }
{
    Protection::of_directory(inode.attributes.ownership())
}
