//! Directories of a call.

ghost use Rattle.std.specs.Prelude.{◌≡◌, true, IfOk, Some};
ghost use Rattle.std.specs.FinMap.{get};
ghost use Rattle.nfs_model.specs.volume.Inodes as values;
ghost use Rattle.inodes.specs.Inode.{inode_value};
ghost use Rattle.service_names.specs.RenamingChanges.{inode_or, on_directory_inode};
ghost use Rattle.filer_state.specs.state.Changes.{LogicalAnswer};
ghost use Rattle.filer_state.specs.state.Names.{is_directory};
ghost use Rattle.filer_state.specs.state.Sets.{logical_before};
ghost use Rattle.service.specs.renames.Renaming.{come_to_directory};

use filer_state::Files;
use inodes::{Inode, InodeKind};
use nfs_values::{Fileid, Status};
use parcels::LogicalHeld;
use service_names::Node;

/// The inode of a directory: STALE where there is no node of the fileid, NOTDIR where it isn't
/// one.
pub(crate) fn directory_at(held: &LogicalHeld<Files>, fileid: Fileid) -> Result<Inode, Status>
    ensures told { (run : values.Inode → LogicalAnswer)
        → on_directory_inode (get held.now.own.inodes.inodes fileid.0) (logical_before held.now) run
        ≡ come_to_directory (logical_before held.now) run result }
    ensures there { IfOk result (λ inode.
        get held.now.own.inodes.inodes fileid.0 ≡ Some (inode_value inode)) }
    ensures as_directory { IfOk result (λ inode. is_directory (Some (inode_value inode)) ≡ true) }
{
    let inode = match held.own.get().inodes.get(fileid) {
        Some(inode) => inode,
        None => return Err(Status::Stale),
    };
    match inode.kind {
        InodeKind::RegularFile { .. } => Err(Status::NotDirectory),
        InodeKind::Special { .. } => Err(Status::NotDirectory),
        InodeKind::Directory { .. } => Ok(inode),
    }
}

/// The inode of a directory as it is now, or the one before.
pub(crate) fn directory_now(held: &LogicalHeld<Files>, before: Node) -> Inode
    ensures { inode_value result ≡ inode_or
        (get held.now.own.inodes.inodes before.fileid.0) (inode_value before.inode) }
{
    match held.own.get().inodes.get(before.fileid) {
        Some(inode) => inode,
        None => before.inode,
    }
}
