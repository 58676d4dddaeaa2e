//! Directories.

ghost use Rattle.std.specs.Prelude.{◌≡◌, ℕ, IfOk, Some};
ghost use Rattle.std.specs.FinMap.{get};
ghost use Rattle.nfs_model.specs.Types as types;
ghost use Rattle.nfs_values.specs.Answer.{result_of};
ghost use Rattle.nfs_model.specs.volume.Inodes as values;
ghost use Rattle.inodes.specs.Inode.{inode_value};
ghost use Rattle.filer_state.specs.changes.NameAnswers.{on_directory_inode};

use filer_state::Files;
use inodes::{Inode, InodeKind};
use nfs_values::{Fileid, Status};
use parcels::LogicalHeld;

/// The inode of a directory, and its parent: STALE where there is no node of the fileid, NOTDIR
/// where it is no directory.
pub(crate) fn directory_at(
    held: &LogicalHeld<Files>,
    fileid: Fileid,
) -> Result<(Inode, Fileid), Status>
    ensures told { (answer : values.Inode → ℕ → types.Answer)
        → on_directory_inode (get held.now.own.inodes.inodes fileid.0) answer
        ≡ result_of (λ r. answer (inode_value r.0) r.1.0) 1 result }
    ensures there { IfOk result (λ r.
        get held.now.own.inodes.inodes fileid.0 ≡ Some (inode_value r.0)) }
{
    let inode = match held.own.get().inodes.get(fileid) {
        Some(inode) => inode,
        None => return Err(Status::Stale),
    };
    match inode.kind {
        InodeKind::Directory { parent, .. } => Ok((inode, parent)),
        InodeKind::RegularFile { .. } => Err(Status::NotDirectory),
        InodeKind::Special { .. } => Err(Status::NotDirectory),
    }
}
