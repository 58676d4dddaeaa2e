//! Nodes that come under other names.

ghost use Rattle.std.specs.Prelude.{◌≡◌, ◌≤◌, ◌<◌, ◌^◌, IfSome, OnOk, OnErr};
ghost use Rattle.std.specs.FinMap.{get};
ghost use Rattle.std.specs.Option.{option_map};
ghost use Rattle.nfs_values.specs.Moment.{moment_of};
ghost use Rattle.parcels.specs.Filled.{logical_alike};
ghost use Rattle.inodes.specs.Inode.{attributes_value, inode_value, kind_value};
ghost use Rattle.service_names.specs.RenamingChanges.{set_renamed};
ghost use Rattle.service_names.specs.NodesMade.{directories_in, with_subdirectories};
ghost use Rattle.service_names.specs.NodesMoved.{dated_inode, with_parent};
ghost use Rattle.filer_state.specs.state.Changes.{attributes_now};
ghost use Rattle.filer_state.specs.state.Sets.{logical_before, logical_after};
ghost use Rattle.service_names.specs.Changing.{with_directories};
ghost use Rattle.service_names.specs.Naming.{node_value};
ghost use Rattle.service_names.specs.Shown.{HasFewLinks};
ghost use Rattle.nfs_model.specs.volume.Maps.{changed_at};
ghost use Rattle.service.specs.renames.Moving.{
  entry_out,
  MayMove,
  node_in,
  replaced,
};
ghost use Rattle.service.specs.renames.Renaming.{AllWithin, IsWithin, renaming_in};

use crate::renames::as_directory::directory_now;
use crate::renames::between::Between;
use crate::renames::dropping::drop_target;
use filer_state::Files;
use inodes::{Inode, InodeKind, StoredAttributes};
use nfs_values::{Fileid, Moment, Name};
use parcels::LogicalHeld;
use service_names::{Node, attributes_now, directory_left, set_inode, take_touches, with_child};
use std::alloc::{AllocError, Global};

/// Moves a node from its name to another, whose target goes, if there is one. The entry of the new
/// name comes first: where there is no memory for it nothing has changed.
pub(crate) fn move_node(
    alloc: Global,
    held: &mut LogicalHeld<Files>,
    between: Between,
    from_name: &[u8],
    to_name: &[u8],
    child: Node,
    target: Option<Node>,
) -> Result<(), AllocError>
    requires { MayMove between from_name.now to_name.now (option_map node_value target)
        (logical_before held.old) }
    ensures ok { OnOk result (logical_after held.old held.new ≡ set_renamed
        (renaming_in between from_name.now to_name.now (logical_before held.old))
        (node_value child) (option_map node_value target)) }
    ensures err { OnErr result (held.new ≡ held.old) }
    ensures alike { logical_alike held.old held.new }
{
    put_entry(alloc, held, between.to.fileid, to_name, child.fileid)?;
    drop_target(held, between, target);
    leave(held, between, from_name, child);
    hang(held, between, child);
    Ok(())
}

/// Adds an entry to a directory, in the place of the one with its name, if there is one. Where
/// there is no memory for it nothing has changed.
fn put_entry(
    alloc: Global,
    held: &mut LogicalHeld<Files>,
    directory: Fileid,
    name: &[u8],
    fileid: Fileid,
) -> Result<(), AllocError>
    requires { IfSome (get held.old.own.directories directory.0) (λ d. d.next < 2 ^ 63) }
    ensures ok { OnOk result (held.new.own ≡ with_directories
        (changed_at (replaced name.now fileid.0) directory.0 held.old.own.directories)
        held.old.own) }
    ensures err { OnErr result (held.new.own ≡ held.old.own) }
    ensures stripes { held.new.stripes ≡ held.old.stripes }
{
    let name = Name::copied(alloc, name)?;
    let own = held.own.get_mut();
    own.directories.replace_entry(directory, name, fileid)
}

/// Takes the entry of a node's old name out of its directory. It takes no memory.
fn leave(held: &mut LogicalHeld<Files>, between: Between, name: &[u8], child: Node)
    requires { held.old.own.inodes.used < 2 ^ 63 }
    ensures set { logical_after held.old held.new
        ≡ entry_out between name.now (node_value child) (logical_before held.old) }
    ensures alike { logical_alike held.old held.new }
{
    let before = directory_now(held, between.from);
    let left = directory_left(before, child.inode.kind, between.moment);
    let own = held.own.get_mut();
    own.inodes.set(between.from.fileid, left);
    own.directories.remove_entry(between.from.fileid, name);
}

/// Dates the directory that a node comes into, and the node, which settles. It takes no memory.
fn hang(held: &mut LogicalHeld<Files>, between: Between, child: Node)
    requires few { held.old.own.stripes ≤ 16 }
    requires used { held.old.own.inodes.used < 2 ^ 62 }
    requires within { AllWithin held.old.own.inodes.inodes }
    requires to { IsWithin (kind_value between.to.inode.kind) }
    ensures set { logical_after held.old held.new
        ≡ node_in between (node_value child) (logical_before held.old) }
    ensures alike { logical_alike held.old held.new }
{
    let before = directory_now(held, between.to);
    let dated = with_dates(before, child.inode.kind, between.moment);
    set_inode(held, between.to.fileid, dated);
    let touch = take_touches(held, child.fileid);
    let hung = hung_inode(child.inode, touch, between);
    set_inode(held, child.fileid, hung);
}

/// The inode of a directory that a node of a kind comes into at a moment: both times are the
/// moment's, and a directory is one more subdirectory.
fn with_dates(inode: Inode, kind: InodeKind, moment: Moment) -> Inode
    requires { HasFewLinks (kind_value inode.kind) }
    ensures { inode_value result ≡ dated_inode (moment_of moment)
        (with_subdirectories (directories_in (kind_value kind)) (kind_value inode.kind))
        (inode_value inode) }
{
    Inode {
        attributes: StoredAttributes {
            mtime: moment,
            ctime: moment,
            ..inode.attributes
        },
        kind: with_child(inode.kind, kind),
        ..inode
    }
}

/// The inode of a node that comes under another name, where this was its file's latest touch: it
/// settles, and its ctime is the moment's.
fn hung_inode(inode: Inode, touch: Option<Moment>, between: Between) -> Inode
    ensures attributes { attributes_value result.attributes
        ≡ record (attributes_now (option_map moment_of touch) (attributes_value inode.attributes)
        (kind_value inode.kind)) { ctime = moment_of between.moment } }
    ensures names { result.names ≡ inode.names }
    ensures kind { kind_value result.kind
        ≡ with_parent between.to.fileid.0 (kind_value inode.kind) }
{
    Inode {
        attributes: StoredAttributes {
            ctime: between.moment,
            ..attributes_now(inode, touch)
        },
        kind: with_parent(between.to.fileid, inode.kind),
        ..inode
    }
}

/// A directory has another parent.
fn with_parent(parent: Fileid, kind: InodeKind) -> InodeKind
    ensures { kind_value result ≡ with_parent parent.0 (kind_value kind) }
{
    match kind {
        InodeKind::RegularFile { .. } => kind,
        InodeKind::Special { .. } => kind,
        InodeKind::Directory {
            parent: _,
            subdirectories,
        } => InodeKind::Directory {
            parent,
            subdirectories,
        },
    }
}
