//! MNT below the root of a volume.

ghost use Rattle.std.specs.Prelude.{◌≡◌, ℕ};
ghost use Rattle.std.specs.FinMap.{get};
ghost use Rattle.std.specs.Option.{option_map};
ghost use Rattle.nfs_model.specs.Serial.Mount.{parts};
ghost use Rattle.nfs_model.specs.Serial.MountBelow.{part_fault};
ghost use Rattle.nfs_model.specs.Server.{handle_bytes};
ghost use Rattle.nfs_model.specs.Types.{Answer, MountDone};
ghost use Rattle.nfs_values.specs.Answer.{result_of};
ghost use Rattle.nfs_values.specs.Caller.{caller_of};
ghost use Rattle.nfs_values.specs.Status.{status_of};
ghost use Rattle.inodes.specs.Inode.{inode_value};
ghost use Rattle.filer_state.specs.changes.NameAnswers.{
  in_directory,
  in_searched,
  mount_answer,
  on_part,
  search_fault,
};
ghost use Rattle.filer_state.specs.state.Sets.{logical_before};
ghost use Rattle.service_names.specs.Promises.{MountsBelow};

use crate::child::find;
use crate::naming::{is_same_name, name_fault};
use crate::protection::directory_protection;
use filer_state::Files;
use inodes::{Inode, InodeKind};
use nfs_values::{
    Caller, FileHandle, Fileid, MountResults, Named, Status, VolumeNumber, below_volume, next_part,
};
use parcels::LogicalHeld;
use rights::{may_search, needs, refusal_of};

/// MNT of a path that leads below the root of a volume (RFC 1813 appendix I, section 5.2.1), on the
/// parcels of the volume's names and attributes: the handle of the directory to which its parts
/// lead from the root, each of which on the way the caller may search. It takes no memory.
pub fn mount_below(
    held: &LogicalHeld<Files>,
    volume: VolumeNumber,
    root: Fileid,
    path: &[u8],
    caller: &Caller,
) -> Result<MountResults, Status>
    ensures right { MountsBelow volume.0 root.0 path.now (caller_of caller.now)
        (logical_before held.now) result }
{
    match directory_below(held, root, below_volume(path), caller) {
        Ok(fileid) => Ok(MountResults {
            handle: FileHandle::naming(Named { volume, fileid }),
        }),
        Err(status) => Err(status),
    }
}

/// The directory to which the parts of a path lead from one.
fn directory_below(
    held: &LogicalHeld<Files>,
    from: Fileid,
    path: &[u8],
    caller: &Caller,
) -> Result<Fileid, Status>
    ensures { (v : ℕ) → mount_answer v (parts path.now) (caller_of caller.now)
        (logical_before held.now) from.0
        ≡ result_of (λ below. MountDone (handle_bytes v below.0)) 0 result }
{
    let mut at = from;
    let mut rest = path;
    while let Some((part, behind)) = next_part(rest) {
        at = match entry_of(held, at, part, caller) {
            Ok(child) => child,
            Err(status) => return Err(status),
        };
        rest = behind;
    }
    match check_directory(held, at) {
        Ok(()) => Ok(at),
        Err(status) => Err(status),
    }
}

/// What a part of a path is in a directory: STALE, NOTDIR, ACCES, what is wrong with the part, or
/// NOENT where there is no entry.
fn entry_of(
    held: &LogicalHeld<Files>,
    directory: Fileid,
    part: &[u8],
    caller: &Caller,
) -> Result<Fileid, Status>
    ensures { (answer : ℕ → Answer)
        → on_part (caller_of caller.now) (logical_before held.now) directory.0 part.now answer
        ≡ result_of (λ child. answer child.0) 0 result }
{
    match check_searched(held, directory, caller) {
        Ok(()) => {}
        Err(status) => return Err(status),
    }
    match part_fault(part) {
        Some(fault) => return Err(fault),
        None => {}
    }
    match find(held, directory, part) {
        Some(child) => Ok(child),
        None => Err(Status::NoEntry),
    }
}

/// That there is a directory which a caller may search: STALE where there is no node of the fileid,
/// NOTDIR where it is no directory, else ACCES.
fn check_searched(held: &LogicalHeld<Files>, fileid: Fileid, caller: &Caller) -> Result<(), Status>
    ensures { (answer : Answer) → in_searched (caller_of caller.now)
        (get held.now.own.inodes.inodes fileid.0) answer
        ≡ result_of (λ there. answer) 0 result }
{
    let inode = match held.own.get().inodes.get(fileid) {
        Some(inode) => inode,
        None => return Err(Status::Stale),
    };
    match inode.kind {
        InodeKind::RegularFile { .. } => Err(Status::NotDirectory),
        InodeKind::Special { .. } => Err(Status::NotDirectory),
        InodeKind::Directory { .. } => match search_fault(caller, &inode) {
            Some(fault) => Err(fault),
            None => Ok(()),
        },
    }
}

/// ACCES where a caller may not search a directory.
fn search_fault(caller: &Caller, directory: &Inode) -> Option<Status>
    ensures { option_map status_of result
        ≡ search_fault (caller_of caller.now) (inode_value directory.now) }
{
    let may = may_search(&caller.credential, &directory_protection(directory));
    refusal_of(caller, false, needs(may))
}

/// That there is a directory: STALE where there is no node of the fileid, NOTDIR where it is no
/// directory.
fn check_directory(held: &LogicalHeld<Files>, fileid: Fileid) -> Result<(), Status>
    ensures { (answer : Answer) → in_directory (get held.now.own.inodes.inodes fileid.0) answer
        ≡ result_of (λ there. answer) 0 result }
{
    let inode = match held.own.get().inodes.get(fileid) {
        Some(inode) => inode,
        None => return Err(Status::Stale),
    };
    match inode.kind {
        InodeKind::RegularFile { .. } => Err(Status::NotDirectory),
        InodeKind::Special { .. } => Err(Status::NotDirectory),
        InodeKind::Directory { .. } => Ok(()),
    }
}

/// What is wrong with a part of a path: ACCES where it is `..` (our profile), else what is wrong
/// with it as a name.
fn part_fault(part: &[u8]) -> Option<Status>
    ensures { option_map status_of result ≡ part_fault part.now }
{
    if is_same_name(part, b"..") {
        return Some(Status::Access);
    }
    name_fault(part)
}
