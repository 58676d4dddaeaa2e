//! REMOVE and RMDIR.

ghost use Rattle.std.specs.Prelude.{◌≡◌, ◌≤◌, ◌<◌, ◌^◌, [], Some, None};
ghost use Rattle.std.specs.FinMap.{get};
ghost use Rattle.parcels.specs.Filled.{logical_alike};
ghost use Rattle.nfs_values.specs.Answer.{answer_of};
ghost use Rattle.nfs_values.specs.Moment.{moment_of};
ghost use Rattle.nfs_values.specs.declared.answer.Answer.TheVariants as answers;
ghost use Rattle.filer_state.specs.state.Lenses.{logical_lens};
ghost use Rattle.filer_state.specs.state.Promises.{HasVolume};
ghost use Rattle.filer_state.specs.state.Sets.{logical_before, logical_after};
ghost use Rattle.inodes.specs.Inode.{kind_value};
ghost use Rattle.filer_state.specs.changes.NameAnswers.{entries_of};
ghost use Rattle.filer_state.specs.changes.Named.{node_under};
ghost use Rattle.nfs_model.specs.Types.{GoneDone};
ghost use Rattle.nfs_values.specs.Attributes.{change_of};
ghost use Rattle.filer_state.specs.state.Names.{parent_in};
ghost use Rattle.filer_state.specs.changes.Dropping.{name_gone, rmdir_kind};
ghost use Rattle.service_names.specs.Changing.{MayBeSet};
ghost use Rattle.service_names.specs.Naming.{naming_of, node_value};
ghost use Rattle.service_names.specs.Promises.{Removes, RemovesDirectory};
ghost use Rattle.service_names.specs.Shown.{HasFewLinks};
ghost use Rattle.filer_state.specs.changes.Laws.{remove_done, rmdir_done};

use crate::child::{child_at, directory_change, directory_named, is_dots, is_empty};
use crate::dropping::{drop_name, drop_node};
use crate::naming::is_same_name;
use crate::node::Node;
use filer_state::Files;
use filer_state::changes::dropping_calls_are_right;
use inodes::InodeKind;
use nfs_values::{Change, Fileid, Moment, Status, VolumeNumber};
use parcels::LogicalHeld;

/// REMOVE (RFC 1813 section 3.3.12), on the parcels of a volume's names and attributes, at a
/// moment: STALE, NOTDIR, what is wrong with the name, INVAL for `.` and `..`, NOENT, or ISDIR for
/// a directory; else the name is gone, and with its last name the node; a file's blocks are dead
/// then. It needs no memory.
pub fn remove(
    held: &mut LogicalHeld<Files>,
    volume: VolumeNumber,
    directory: Fileid,
    name: &[u8],
    moment: Moment,
) -> Result<Change, Status>
    requires whole { HasVolume volume.0 logical_lens [] (logical_before held.old) }
    ensures right { Removes volume.0 directory.0 name.now (moment_of moment)
        (logical_before held.old) result (logical_after held.old held.new) }
    ensures alike { logical_alike held.old held.new }
{
    dropping_calls_are_right();
    file_removed(held, volume, directory, name, moment)
}

/// RMDIR (RFC 1813 section 3.3.13), likewise: STALE, NOTDIR, what is wrong with the name, INVAL
/// for `.`, EXIST for `..`, NOENT, NOTDIR for a file, or NOTEMPTY for a directory with entries;
/// else the directory is gone with its name. It takes no memory.
pub fn remove_directory(
    held: &mut LogicalHeld<Files>,
    volume: VolumeNumber,
    directory: Fileid,
    name: &[u8],
    moment: Moment,
) -> Result<Change, Status>
    requires whole { HasVolume volume.0 logical_lens [] (logical_before held.old) }
    ensures right { RemovesDirectory volume.0 directory.0 name.now (moment_of moment)
        (logical_before held.old) result (logical_after held.old held.new) }
    ensures alike { logical_alike held.old held.new }
{
    dropping_calls_are_right();
    directory_removed(held, volume, directory, name, moment)
}

/// What REMOVE comes to.
fn file_removed(
    held: &mut LogicalHeld<Files>,
    volume: VolumeNumber,
    directory: Fileid,
    name: &[u8],
    moment: Moment,
) -> Result<Change, Status>
    requires whole { HasVolume volume.0 logical_lens [] (logical_before held.old) }
    ensures answer { answer_of (answers.Remove result) ≡ (remove_done volume.0 directory.0
        name.now (moment_of moment) (logical_before held.old)).answer }
    ensures set { logical_after held.old held.new ≡ (remove_done volume.0 directory.0
        name.now (moment_of moment) (logical_before held.old)).set }
    ensures alike { logical_alike held.old held.new }
{
    let inode = match directory_named(held, directory, name) {
        Ok(inode) => inode,
        Err(status) => return Err(status),
    };
    if is_dots(name) {
        return Err(Status::Invalid);
    }
    let child = match child_at(held, directory, name) {
        Some(child) => child,
        None => return Err(Status::NoEntry),
    };
    let as_directory = Node {
        fileid: directory,
        inode,
    };
    match child.inode.kind {
        InodeKind::Directory { .. } => Err(Status::IsDirectory),
        InodeKind::RegularFile { .. } => {
            Ok(name_removed(held, volume, as_directory, name, child, moment))
        }
        InodeKind::Special { .. } => {
            Ok(name_removed(held, volume, as_directory, name, child, moment))
        }
    }
}

/// Removes the name of a node that isn't a directory, and tells of the directory.
fn name_removed(
    held: &mut LogicalHeld<Files>,
    volume: VolumeNumber,
    directory: Node,
    name: &[u8],
    child: Node,
    moment: Moment,
) -> Change
    requires child { MayBeSet child.fileid.0 (logical_before held.old) }
    requires file { parent_in (kind_value child.inode.kind) ≡ None }
    requires links { HasFewLinks (kind_value directory.inode.kind) }
    requires entered { get held.old.own.directories directory.fileid.0
        ≡ Some (entries_of held.old.own directory.fileid.0) }
    ensures told { GoneDone (change_of result) ≡ (name_gone
        (naming_of volume.0 directory name.now (moment_of moment) (logical_before held.old))
        (node_value child)).answer }
    ensures set { logical_after held.old held.new ≡ (name_gone
        (naming_of volume.0 directory name.now (moment_of moment) (logical_before held.old))
        (node_value child)).set }
    ensures alike { logical_alike held.old held.new }
{
    let left = drop_name(held, directory, name, child, moment);
    directory_change(volume, directory, left)
}

/// What RMDIR comes to.
fn directory_removed(
    held: &mut LogicalHeld<Files>,
    volume: VolumeNumber,
    directory: Fileid,
    name: &[u8],
    moment: Moment,
) -> Result<Change, Status>
    requires whole { HasVolume volume.0 logical_lens [] (logical_before held.old) }
    ensures answer { answer_of (answers.RemoveDirectory result) ≡ (rmdir_done volume.0
        directory.0 name.now (moment_of moment) (logical_before held.old)).answer }
    ensures set { logical_after held.old held.new ≡ (rmdir_done volume.0 directory.0
        name.now (moment_of moment) (logical_before held.old)).set }
    ensures alike { logical_alike held.old held.new }
{
    let inode = match directory_named(held, directory, name) {
        Ok(inode) => inode,
        Err(status) => return Err(status),
    };
    if is_same_name(name, b".") {
        return Err(Status::Invalid);
    }
    if is_same_name(name, b"..") {
        return Err(Status::Exists);
    }
    let child = match child_at(held, directory, name) {
        Some(child) => child,
        None => return Err(Status::NoEntry),
    };
    let as_directory = Node {
        fileid: directory,
        inode,
    };
    drop_directory(held, volume, as_directory, name, child, moment)
}

/// What RMDIR comes to on the node under a name of a directory: NOTDIR for a file, NOTEMPTY for a
/// directory with entries.
fn drop_directory(
    held: &mut LogicalHeld<Files>,
    volume: VolumeNumber,
    directory: Node,
    name: &[u8],
    child: Node,
    moment: Moment,
) -> Result<Change, Status>
    requires used { held.old.own.inodes.used < 2 ^ 63 }
    requires few { held.old.own.stripes ≤ 16 }
    requires links { HasFewLinks (kind_value directory.inode.kind) }
    requires entered { get held.old.own.directories directory.fileid.0
        ≡ Some (entries_of held.old.own directory.fileid.0) }
    requires under { node_under (naming_of volume.0 directory name.now (moment_of moment)
        (logical_before held.old)) ≡ Some (node_value child) }
    ensures answer { answer_of (answers.RemoveDirectory result) ≡ (rmdir_kind
        (naming_of volume.0 directory name.now (moment_of moment) (logical_before held.old))
        (node_value child) (kind_value child.inode.kind)).answer }
    ensures set { logical_after held.old held.new ≡ (rmdir_kind
        (naming_of volume.0 directory name.now (moment_of moment) (logical_before held.old))
        (node_value child) (kind_value child.inode.kind)).set }
    ensures alike { logical_alike held.old held.new }
{
    match child.inode.kind {
        InodeKind::RegularFile { .. } => Err(Status::NotDirectory),
        InodeKind::Special { .. } => Err(Status::NotDirectory),
        InodeKind::Directory { .. } => {
            if !is_empty(held, child.fileid) {
                return Err(Status::NotEmpty);
            }
            let left = drop_node(held, directory, name, child, moment);
            Ok(directory_change(volume, directory, left))
        }
    }
}
