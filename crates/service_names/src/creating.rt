//! CREATE, MKDIR, SYMLINK and MKNOD.

ghost use Rattle.std.specs.Prelude.{◌≡◌, [], IfOk, None, OnErr, OnOk};
ghost use Rattle.nfs_values.specs.Answer.{answer_of};
ghost use Rattle.nfs_values.specs.Attributes.{kind_of};
ghost use Rattle.nfs_values.specs.Caller.{caller_of};
ghost use Rattle.nfs_values.specs.Moment.{moment_of};
ghost use Rattle.nfs_values.specs.Set.{mode_of, set_of};
ghost use Rattle.nfs_values.specs.declared.answer.Answer.TheVariants as answers;
ghost use Rattle.nfs_model.specs.volume.Directories.{fileid_found};
ghost use Rattle.parcels.specs.Filled.{logical_alike};
ghost use Rattle.filer_state.specs.state.Lenses.{logical_lens};
ghost use Rattle.filer_state.specs.state.Promises.{HasVolume};
ghost use Rattle.filer_state.specs.state.Sets.{logical_before, logical_after};
ghost use Rattle.filer_state.specs.changes.NameAnswers.{entries_of};
ghost use Rattle.filer_state.specs.changes.Laws.{create_done, mkdir_done, mknod_done, symlink_done};
ghost use Rattle.service_names.specs.Making.{Makes};
ghost use Rattle.service_names.specs.Promises.{
  Creates,
  MakesDirectory,
  MakesNode,
  MakesSymbolicLink,
};

use crate::child::{child_at, directory_named, is_dots};
use crate::existing::create_existing;
use crate::making_new::{create_new, make_link_new, make_new, make_special_new};
use crate::parent::Parent;
use filer_state::Files;
use filer_state::changes::making_calls_are_right;
use nfs_values::answer::MakeResults;
use nfs_values::{
    Caller, CreateMode, FileKind, Fileid, Moment, SetAttributes, Status, VolumeNumber,
};
use parcels::LogicalHeld;
use std::alloc::{AllocError, Global};

/// CREATE (RFC 1813 section 3.3.8), on the parcels of a volume's names and attributes, at a moment:
/// STALE, NOTDIR, what is wrong with the name, EXIST for `.` and `..`. Where the name is there, an
/// unchecked one sets the file, an exclusive one answers the file of its verifier, and all else is
/// EXIST. Where it isn't: INVAL for a bad time, FBIG past the largest size, NOSPC where no inode is
/// left; else the file is made. Memory runs out only where it would make one, and then nothing has
/// changed.
pub fn create(
    alloc: Global,
    held: &mut LogicalHeld<Files>,
    volume: VolumeNumber,
    directory: Fileid,
    name: &[u8],
    mode: &CreateMode,
    caller: &Caller,
    moment: Moment,
) -> Result<Result<MakeResults, Status>, AllocError>
    requires whole { HasVolume volume.0 logical_lens [] (logical_before held.old) }
    ensures right { Creates volume.0 directory.0 name.now (mode_of mode.now)
        (caller_of caller.now) (moment_of moment)
        (logical_before held.old) result (logical_after held.old held.new) }
    ensures starved { OnErr result (held.new ≡ held.old) }
    ensures alike { logical_alike held.old held.new }
{
    making_calls_are_right();
    file_created(alloc, held, volume, directory, name, mode, caller, moment)
}

/// MKDIR (RFC 1813 section 3.3.9), likewise: STALE, NOTDIR, what is wrong with the name, EXIST
/// where it is there, INVAL for a bad time or a size, NOSPC where no inode is left; else the
/// directory is made. Memory runs out only where it would make one, and then nothing has changed.
pub fn make_directory(
    alloc: Global,
    held: &mut LogicalHeld<Files>,
    volume: VolumeNumber,
    directory: Fileid,
    name: &[u8],
    set: &SetAttributes,
    caller: &Caller,
    moment: Moment,
) -> Result<Result<MakeResults, Status>, AllocError>
    requires whole { HasVolume volume.0 logical_lens [] (logical_before held.old) }
    ensures right { MakesDirectory volume.0 directory.0 name.now (set_of set.now)
        (caller_of caller.now) (moment_of moment)
        (logical_before held.old) result (logical_after held.old held.new) }
    ensures starved { OnErr result (held.new ≡ held.old) }
    ensures alike { logical_alike held.old held.new }
{
    making_calls_are_right();
    directory_made(alloc, held, volume, directory, name, set, caller, moment)
}

/// SYMLINK (RFC 1813 section 3.3.10), likewise: STALE, NOTDIR, what is wrong with the name, EXIST
/// where it is there; of the text, which is never followed: NAMETOOLONG over 1,024 bytes, NOENT
/// where it is empty, INVAL for byte 0; INVAL for a bad time or a size, NOSPC where no inode is
/// left; else the symbolic link is made. Memory runs out only where it would make one, and then
/// nothing has changed.
pub fn make_symbolic_link(
    alloc: Global,
    held: &mut LogicalHeld<Files>,
    volume: VolumeNumber,
    directory: Fileid,
    name: &[u8],
    set: &SetAttributes,
    text: &[u8],
    caller: &Caller,
    moment: Moment,
) -> Result<Result<MakeResults, Status>, AllocError>
    requires whole { HasVolume volume.0 logical_lens [] (logical_before held.old) }
    ensures right { MakesSymbolicLink volume.0 directory.0 name.now (set_of set.now) text.now
        (caller_of caller.now) (moment_of moment)
        (logical_before held.old) result (logical_after held.old held.new) }
    ensures starved { OnErr result (held.new ≡ held.old) }
    ensures alike { logical_alike held.old held.new }
{
    making_calls_are_right();
    link_made(
        alloc, held, volume, directory, name, set, text, caller, moment,
    )
}

/// MKNOD (RFC 1813 section 3.3.11), likewise: STALE, NOTDIR, what is wrong with the name, EXIST
/// where it is there, BADTYPE for a regular file, a directory and a symbolic link, INVAL for a bad
/// time or a size, NOSPC where no inode is left; else the FIFO, the socket or the device is made.
/// Memory runs out only where it would make one, and then nothing has changed.
pub fn make_device(
    alloc: Global,
    held: &mut LogicalHeld<Files>,
    volume: VolumeNumber,
    directory: Fileid,
    name: &[u8],
    kind: FileKind,
    set: &SetAttributes,
    caller: &Caller,
    moment: Moment,
) -> Result<Result<MakeResults, Status>, AllocError>
    requires whole { HasVolume volume.0 logical_lens [] (logical_before held.old) }
    ensures right { MakesNode volume.0 directory.0 name.now (kind_of kind) (set_of set.now)
        (caller_of caller.now) (moment_of moment)
        (logical_before held.old) result (logical_after held.old held.new) }
    ensures starved { OnErr result (held.new ≡ held.old) }
    ensures alike { logical_alike held.old held.new }
{
    making_calls_are_right();
    special_made(
        alloc, held, volume, directory, name, kind, set, caller, moment,
    )
}

/// What CREATE comes to.
fn file_created(
    alloc: Global,
    held: &mut LogicalHeld<Files>,
    volume: VolumeNumber,
    directory: Fileid,
    name: &[u8],
    mode: &CreateMode,
    caller: &Caller,
    moment: Moment,
) -> Result<Result<MakeResults, Status>, AllocError>
    requires whole { HasVolume volume.0 logical_lens [] (logical_before held.old) }
    ensures told { IfOk result (λ told. answer_of (answers.Create told)
        ≡ (create_done volume.0 directory.0 name.now (mode_of mode.now)
        (caller_of caller.now) (moment_of moment) (logical_before held.old)).answer) }
    ensures set { OnOk result (logical_after held.old held.new
        ≡ (create_done volume.0 directory.0 name.now (mode_of mode.now)
        (caller_of caller.now) (moment_of moment) (logical_before held.old)).set) }
    ensures would { OnErr result (Makes (create_done volume.0 directory.0 name.now
        (mode_of mode.now) (caller_of caller.now) (moment_of moment)
        (logical_before held.old)).answer) }
    ensures absent { OnErr result
        (fileid_found (entries_of held.old.own directory.0) name.now ≡ None) }
    ensures starved { OnErr result (held.new ≡ held.old) }
    ensures alike { logical_alike held.old held.new }
{
    let inode = match directory_named(held, directory, name) {
        Ok(inode) => inode,
        Err(status) => return Ok(Err(status)),
    };
    if is_dots(name) {
        return Ok(Err(Status::Exists));
    }
    let parent = Parent {
        volume,
        fileid: directory,
        inode,
        moment,
    };
    match child_at(held, directory, name) {
        Some(child) => Ok(create_existing(held, parent, child, mode, caller)),
        None => create_new(alloc, held, parent, name, mode, caller),
    }
}

/// What MKDIR comes to.
fn directory_made(
    alloc: Global,
    held: &mut LogicalHeld<Files>,
    volume: VolumeNumber,
    directory: Fileid,
    name: &[u8],
    set: &SetAttributes,
    caller: &Caller,
    moment: Moment,
) -> Result<Result<MakeResults, Status>, AllocError>
    requires whole { HasVolume volume.0 logical_lens [] (logical_before held.old) }
    ensures told { IfOk result (λ told. answer_of (answers.MakeDirectory told)
        ≡ (mkdir_done volume.0 directory.0 name.now (set_of set.now)
        (caller_of caller.now) (moment_of moment) (logical_before held.old)).answer) }
    ensures set { OnOk result (logical_after held.old held.new
        ≡ (mkdir_done volume.0 directory.0 name.now (set_of set.now)
        (caller_of caller.now) (moment_of moment) (logical_before held.old)).set) }
    ensures would { OnErr result (Makes (mkdir_done volume.0 directory.0 name.now
        (set_of set.now) (caller_of caller.now) (moment_of moment)
        (logical_before held.old)).answer) }
    ensures starved { OnErr result (held.new ≡ held.old) }
    ensures alike { logical_alike held.old held.new }
{
    let inode = match directory_named(held, directory, name) {
        Ok(inode) => inode,
        Err(status) => return Ok(Err(status)),
    };
    if is_dots(name) {
        return Ok(Err(Status::Exists));
    }
    let parent = Parent {
        volume,
        fileid: directory,
        inode,
        moment,
    };
    match child_at(held, directory, name) {
        Some(_) => Ok(Err(Status::Exists)),
        None => make_new(alloc, held, parent, name, set, caller),
    }
}

/// What SYMLINK comes to.
fn link_made(
    alloc: Global,
    held: &mut LogicalHeld<Files>,
    volume: VolumeNumber,
    directory: Fileid,
    name: &[u8],
    set: &SetAttributes,
    text: &[u8],
    caller: &Caller,
    moment: Moment,
) -> Result<Result<MakeResults, Status>, AllocError>
    requires whole { HasVolume volume.0 logical_lens [] (logical_before held.old) }
    ensures told { IfOk result (λ told. answer_of (answers.MakeSymbolicLink told)
        ≡ (symlink_done volume.0 directory.0 name.now (set_of set.now) text.now
        (caller_of caller.now) (moment_of moment) (logical_before held.old)).answer) }
    ensures set { OnOk result (logical_after held.old held.new
        ≡ (symlink_done volume.0 directory.0 name.now (set_of set.now) text.now
        (caller_of caller.now) (moment_of moment) (logical_before held.old)).set) }
    ensures would { OnErr result (Makes (symlink_done volume.0 directory.0 name.now
        (set_of set.now) text.now (caller_of caller.now) (moment_of moment)
        (logical_before held.old)).answer) }
    ensures starved { OnErr result (held.new ≡ held.old) }
    ensures alike { logical_alike held.old held.new }
{
    let inode = match directory_named(held, directory, name) {
        Ok(inode) => inode,
        Err(status) => return Ok(Err(status)),
    };
    if is_dots(name) {
        return Ok(Err(Status::Exists));
    }
    let parent = Parent {
        volume,
        fileid: directory,
        inode,
        moment,
    };
    match child_at(held, directory, name) {
        Some(_) => Ok(Err(Status::Exists)),
        None => make_link_new(alloc, held, parent, name, set, text, caller),
    }
}

/// What MKNOD comes to.
fn special_made(
    alloc: Global,
    held: &mut LogicalHeld<Files>,
    volume: VolumeNumber,
    directory: Fileid,
    name: &[u8],
    kind: FileKind,
    set: &SetAttributes,
    caller: &Caller,
    moment: Moment,
) -> Result<Result<MakeResults, Status>, AllocError>
    requires whole { HasVolume volume.0 logical_lens [] (logical_before held.old) }
    ensures told { IfOk result (λ told. answer_of (answers.MakeDevice told)
        ≡ (mknod_done volume.0 directory.0 name.now (kind_of kind) (set_of set.now)
        (caller_of caller.now) (moment_of moment) (logical_before held.old)).answer) }
    ensures set { OnOk result (logical_after held.old held.new
        ≡ (mknod_done volume.0 directory.0 name.now (kind_of kind) (set_of set.now)
        (caller_of caller.now) (moment_of moment) (logical_before held.old)).set) }
    ensures would { OnErr result (Makes (mknod_done volume.0 directory.0 name.now
        (kind_of kind) (set_of set.now) (caller_of caller.now) (moment_of moment)
        (logical_before held.old)).answer) }
    ensures starved { OnErr result (held.new ≡ held.old) }
    ensures alike { logical_alike held.old held.new }
{
    let inode = match directory_named(held, directory, name) {
        Ok(inode) => inode,
        Err(status) => return Ok(Err(status)),
    };
    if is_dots(name) {
        return Ok(Err(Status::Exists));
    }
    let parent = Parent {
        volume,
        fileid: directory,
        inode,
        moment,
    };
    match child_at(held, directory, name) {
        Some(_) => Ok(Err(Status::Exists)),
        None => make_special_new(alloc, held, parent, name, kind, set, caller),
    }
}
