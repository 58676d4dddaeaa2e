//! Names of a directory that calls change, and the nodes under them.

ghost use Rattle.std.specs.Prelude.{◌≡◌, ◌==◌, ◌||◌, true, ℕ, length, List, IfOk, IfSome, Some};
ghost use Rattle.std.specs.FinMap.{get};
ghost use Rattle.std.specs.Option.{option_map};
ghost use Rattle.nfs_model.specs.Types.{Moment};
ghost use Rattle.nfs_model.specs.Names.{is_dots};
ghost use Rattle.nfs_values.specs.Attributes.{change_of};
ghost use Rattle.nfs_model.specs.volume.Directories.{fileid_found};
ghost use Rattle.inodes.specs.Inode.{inode_value, kind_value};
ghost use Rattle.filer_state.specs.state.Changes.{LogicalAnswer};
ghost use Rattle.filer_state.specs.state.Lenses.{LogicalSet};
ghost use Rattle.filer_state.specs.state.Names.{is_directory};
ghost use Rattle.filer_state.specs.state.Sets.{logical_before};
ghost use Rattle.directories.specs.Index.{fileid_number};
ghost use Rattle.filer_state.specs.changes.NameAnswers.{entries_of};
ghost use Rattle.filer_state.specs.changes.Named.{HeldNaming, on_held_name, node_at};
ghost use Rattle.filer_state.specs.changes.Named.{directory_change};
ghost use Rattle.service_names.specs.Naming.{node_value, naming_in, naming_of, come_to};
ghost use Rattle.service_names.specs.Shown.{HasFewLinks};

use crate::naming::{is_same_name, name_fault};
use crate::node::Node;
use crate::showing::{prior, shown};
use filer_state::Files;
use inodes::{Inode, InodeKind};
use nfs_values::{Change, Fileid, Status, VolumeNumber};
use parcels::LogicalHeld;

/// The inode of a directory on whose name a call is: STALE where there is no node of the fileid,
/// NOTDIR where it is no directory, or what is wrong with the name.
pub(crate) fn directory_named(
    held: &LogicalHeld<Files>,
    directory: Fileid,
    name: &[u8],
) -> Result<Inode, Status>
    ensures told { (v : ℕ) (moment : Moment) (run : HeldNaming → LogicalAnswer)
        → on_held_name v directory.0 name.now moment run (logical_before held.now)
        ≡ come_to (logical_before held.now) (λ inode. run (naming_in v directory.0 inode
        name.now moment (logical_before held.now))) result }
    ensures there { IfOk result (λ inode.
        get held.now.own.inodes.inodes directory.0 ≡ Some (inode_value inode)) }
    ensures as_directory { IfOk result (λ inode. is_directory (Some (inode_value inode)) ≡ true) }
{
    let inode = match held.own.get().inodes.get(directory) {
        Some(inode) => inode,
        None => return Err(Status::Stale),
    };
    match inode.kind {
        InodeKind::RegularFile { .. } => Err(Status::NotDirectory),
        InodeKind::Special { .. } => Err(Status::NotDirectory),
        InodeKind::Directory { .. } => match name_fault(name) {
            Some(fault) => Err(fault),
            None => Ok(inode),
        },
    }
}

/// The node under a name of a directory; `.` and `..` are no entries.
pub fn child_at(held: &LogicalHeld<Files>, directory: Fileid, name: &[u8]) -> Option<Node>
    ensures there { IfSome result (λ child.
        get held.now.own.inodes.inodes child.fileid.0 ≡ Some (inode_value child.inode)) }
    ensures node { option_map node_value result ≡ node_at (logical_before held.now)
        (fileid_found (entries_of held.now.own directory.0) name.now) }
{
    let fileid = find(held, directory, name)?;
    match held.own.get().inodes.get(fileid) {
        Some(inode) => Some(Node { fileid, inode }),
        None => None,
    }
}

/// The fileid of a name of a directory.
pub(crate) fn find(held: &LogicalHeld<Files>, directory: Fileid, name: &[u8]) -> Option<Fileid>
    ensures { fileid_number result
        ≡ fileid_found (entries_of held.now.own directory.0) name.now }
{
    match held.own.get().directories.get(directory) {
        Some(entries) => entries.find(name),
        None => None,
    }
}

/// Whether the directory of a fileid has no entry but `.` and `..`.
pub fn is_empty(held: &LogicalHeld<Files>, directory: Fileid) -> bool
    ensures { result ≡ (length (entries_of held.now.own directory.0).list == 0) }
{
    match held.own.get().directories.get(directory) {
        Some(entries) => entries.is_empty(),
        None => true,
    }
}

/// Whether a name is `.` or `..`.
pub fn is_dots(name: &[u8]) -> bool
    ensures { result ≡ is_dots name.now }
{
    is_same_name(name, b".") || is_same_name(name, b"..")
}

/// The attributes of a directory before and after a call on a name (wcc_data, RFC 1813 section
/// 2.6), where this is its inode after it.
pub fn directory_change(volume: VolumeNumber, directory: Node, after: Inode) -> Change
    requires before { HasFewLinks (kind_value directory.inode.kind) }
    requires after { HasFewLinks (kind_value after.kind) }
    ensures { (name : List ℕ) (moment : Moment) (s : LogicalSet) → change_of result
        ≡ directory_change (naming_of volume.0 directory name moment s) (inode_value after) }
{
    let before = prior(shown(volume, directory.fileid, directory.inode, None));
    let after = shown(volume, directory.fileid, after, None);
    Change { before, after }
}
