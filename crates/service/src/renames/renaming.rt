//! RENAME.

ghost use Rattle.std.specs.Prelude.{◌≡◌, [], false, IfOk, OnErr, OnOk, Some};
ghost use Rattle.std.specs.Option.{option_map};
ghost use Rattle.nfs_model.specs.volume.Directories.{fileid_found};
ghost use Rattle.nfs_values.specs.Answer.{answer_of};
ghost use Rattle.nfs_values.specs.declared.answer.Answer.TheVariants as answers;
ghost use Rattle.nfs_values.specs.Moment.{moment_of};
ghost use Rattle.parcels.specs.Filled.{logical_alike};
ghost use Rattle.filer_state.specs.permissions.Refusing.{are_one};
ghost use Rattle.filer_state.specs.state.Lenses.{logical_lens};
ghost use Rattle.filer_state.specs.state.Promises.{HasVolume};
ghost use Rattle.filer_state.specs.state.Sets.{logical_before, logical_after};
ghost use Rattle.service_names.specs.ChangeLaws.{rename_done};
ghost use Rattle.service_names.specs.NameAnswers.{entries_of};
ghost use Rattle.service_names.specs.NamedChanges.{node_under};
ghost use Rattle.service_names.specs.RenamingChanges.{held_rename, is_held};
ghost use Rattle.service_names.specs.Naming.{node_value};
ghost use Rattle.service.specs.renames.Moving.{AreThere};
ghost use Rattle.service.specs.renames.Promises.{Renames};
ghost use Rattle.service.specs.renames.Renaming.{done_between, rename_found, renaming_in, Renamed};

use crate::renames::as_directory::directory_at;
use crate::renames::asking::{is_one_node, may_go, names_fault};
use crate::renames::between::Between;
use crate::renames::climbing::above_fault;
use crate::renames::entry_name::EntryName;
use crate::renames::moving::move_node;
use crate::renames::telling::told;
use filer_state::Files;
use nfs_values::answer::RenameResults;
use nfs_values::{Moment, Status, VolumeNumber};
use parcels::LogicalHeld;
use service_names::{Node, child_at, renaming_calls_are_right};
use std::alloc::{AllocError, Global};

/// RENAME (RFC 1813 section 3.3.14), on the parcels of a volume's names and attributes, at a
/// moment: STALE and NOTDIR of from's directory, then of to's, what is wrong with from's name, then
/// with to's, INVAL for `.` and `..` in either, NOENT where from's name isn't there. Where both are
/// names of one node nothing changes. INVAL for a directory that would come into itself or below
/// itself, NAMETOOLONG for one that would come deeper than the volume's steps reach, EXIST where
/// what has to's name may not go; else that loses the name as by REMOVE or RMDIR, and the node gets
/// it. Memory runs out only where the node would come under another name, and then nothing has
/// changed.
pub fn rename(
    alloc: Global,
    held: &mut LogicalHeld<Files>,
    volume: VolumeNumber,
    from: EntryName,
    to: EntryName,
    moment: Moment,
) -> Result<Result<RenameResults, Status>, AllocError>
    requires whole { HasVolume volume.0 logical_lens [] (logical_before held.old) }
    ensures right { Renames volume.0 from.entry.directory.0 from.entry.name.now
        to.entry.directory.0 to.entry.name.now (moment_of moment)
        (logical_before held.old) result (logical_after held.old held.new) }
    ensures starved { OnErr result (held.new ≡ held.old) }
    ensures alike { logical_alike held.old held.new }
{
    renaming_calls_are_right();
    name_moved(alloc, held, volume, from, to, moment)
}

/// What RENAME comes to.
fn name_moved(
    alloc: Global,
    held: &mut LogicalHeld<Files>,
    volume: VolumeNumber,
    from: EntryName,
    to: EntryName,
    moment: Moment,
) -> Result<Result<RenameResults, Status>, AllocError>
    requires whole { HasVolume volume.0 logical_lens [] (logical_before held.old) }
    ensures told { IfOk result (λ told. answer_of (answers.Rename told)
        ≡ (rename_done volume.0 from.entry.directory.0 from.entry.name.now
        to.entry.directory.0 to.entry.name.now (moment_of moment)
        (logical_before held.old)).answer) }
    ensures set { OnOk result (logical_after held.old held.new
        ≡ (rename_done volume.0 from.entry.directory.0 from.entry.name.now
        to.entry.directory.0 to.entry.name.now (moment_of moment)
        (logical_before held.old)).set) }
    ensures would { OnErr result (Renamed (rename_done volume.0
        from.entry.directory.0 from.entry.name.now to.entry.directory.0 to.entry.name.now
        (moment_of moment) (logical_before held.old)).answer) }
    ensures apart { OnErr result (are_one
        (fileid_found (entries_of held.old.own from.entry.directory.0) from.entry.name.now)
        (fileid_found (entries_of held.old.own to.entry.directory.0) to.entry.name.now)
        ≡ false) }
    ensures starved { OnErr result (held.new ≡ held.old) }
    ensures alike { logical_alike held.old held.new }
{
    let from_inode = match directory_at(held, from.directory) {
        Ok(inode) => inode,
        Err(status) => return Ok(Err(status)),
    };
    let to_inode = match directory_at(held, to.directory) {
        Ok(inode) => inode,
        Err(status) => return Ok(Err(status)),
    };
    let between = Between {
        volume,
        from: Node {
            fileid: from.directory,
            inode: from_inode,
        },
        to: Node {
            fileid: to.directory,
            inode: to_inode,
        },
        moment,
    };
    moved_between(alloc, held, between, from.name, to.name)
}

/// What RENAME comes to between directories that are there.
fn moved_between(
    alloc: Global,
    held: &mut LogicalHeld<Files>,
    between: Between,
    from_name: &[u8],
    to_name: &[u8],
) -> Result<Result<RenameResults, Status>, AllocError>
    requires whole { HasVolume between.volume.0 logical_lens [] (logical_before held.old) }
    requires there { AreThere between (logical_before held.old) }
    requires done { done_between between from_name.now to_name.now (logical_before held.old)
        ≡ held_rename (renaming_in between from_name.now to_name.now
        (logical_before held.old)) }
    ensures told { IfOk result (λ told. answer_of (answers.Rename told)
        ≡ (done_between between from_name.now to_name.now (logical_before held.old)).answer) }
    ensures set { OnOk result (logical_after held.old held.new
        ≡ (done_between between from_name.now to_name.now (logical_before held.old)).set) }
    ensures would { OnErr result (Renamed
        (done_between between from_name.now to_name.now (logical_before held.old)).answer) }
    ensures apart { OnErr result (are_one
        (fileid_found (entries_of held.old.own between.from.fileid.0) from_name.now)
        (fileid_found (entries_of held.old.own between.to.fileid.0) to_name.now) ≡ false) }
    ensures starved { OnErr result (held.new ≡ held.old) }
    ensures alike { logical_alike held.old held.new }
{
    if let Some(fault) = names_fault(from_name, to_name) {
        return Ok(Err(fault));
    }
    let child = match child_at(held, between.from.fileid, from_name) {
        Some(child) => child,
        None => return Ok(Err(Status::NoEntry)),
    };
    let target = child_at(held, between.to.fileid, to_name);
    if is_one_node(child, target) {
        return Ok(Ok(told(held, between)));
    }
    child_moved(alloc, held, between, from_name, to_name, child, target)
}

/// What RENAME comes to on the node under from's name, where to's isn't of it.
fn child_moved(
    alloc: Global,
    held: &mut LogicalHeld<Files>,
    between: Between,
    from_name: &[u8],
    to_name: &[u8],
    child: Node,
    target: Option<Node>,
) -> Result<Result<RenameResults, Status>, AllocError>
    requires whole { HasVolume between.volume.0 logical_lens [] (logical_before held.old) }
    requires there { AreThere between (logical_before held.old) }
    requires under { Some (node_value child) ≡ node_under (renaming_in between
        from_name.now to_name.now (logical_before held.old)).from }
    requires upon { option_map node_value target ≡ node_under (renaming_in between
        from_name.now to_name.now (logical_before held.old)).to }
    requires apart { is_held (node_value child) (option_map node_value target) ≡ false }
    requires done { done_between between from_name.now to_name.now (logical_before held.old)
        ≡ rename_found (renaming_in between from_name.now to_name.now
        (logical_before held.old)) (node_value child) }
    ensures told { IfOk result (λ told. answer_of (answers.Rename told)
        ≡ (done_between between from_name.now to_name.now (logical_before held.old)).answer) }
    ensures set { OnOk result (logical_after held.old held.new
        ≡ (done_between between from_name.now to_name.now (logical_before held.old)).set) }
    ensures would { OnErr result (Renamed
        (done_between between from_name.now to_name.now (logical_before held.old)).answer) }
    ensures starved { OnErr result (held.new ≡ held.old) }
    ensures alike { logical_alike held.old held.new }
{
    if let Some(fault) = above_fault(held, between, child) {
        return Ok(Err(fault));
    }
    if !may_go(held, child, target) {
        return Ok(Err(Status::Exists));
    }
    renaming_calls_are_right();
    move_node(alloc, held, between, from_name, to_name, child, target)?;
    Ok(Ok(told(held, between)))
}
