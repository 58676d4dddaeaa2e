//! ACCESS, FSINFO and PATHCONF, which tell of any object by its attributes.

ghost use Rattle.std.specs.Prelude.{[]};
ghost use Rattle.filer_state.specs.changes.NameAnswers.{object_in};
ghost use Rattle.filer_state.specs.state.Lenses.{logical_lens};
ghost use Rattle.filer_state.specs.state.Promises.{HasVolume};
ghost use Rattle.filer_state.specs.state.Sets.{logical_before};
ghost use Rattle.nfs_values.specs.Caller.{caller_of};
ghost use Rattle.service_names.specs.Promises.{ChecksAccess, TellsInfo, TellsPath};
ghost use Rattle.service_names.specs.Shown.{IsObject};

use crate::protection::protection_of;
use crate::showing::shown_now;
use filer_state::Files;
use nfs_values::answer::{AccessResults, FilesystemInfoResults, PathConfigurationResults};
use nfs_values::{Attributes, Caller, Fileid, Status, VolumeNumber};
use parcels::LogicalHeld;
use rights::access_given;

/// The attributes of the node of a fileid, or STALE where there is none.
pub(crate) fn object_at(
    held: &LogicalHeld<Files>,
    volume: VolumeNumber,
    fileid: Fileid,
) -> Result<Attributes, Status>
    requires whole { HasVolume volume.0 logical_lens [] (logical_before held.now) }
    ensures object { IsObject (object_in volume.0 fileid.0 (logical_before held.now)) result }
{
    match held.own.get().inodes.get(fileid) {
        Some(inode) => Ok(shown_now(held, volume, fileid, inode)),
        None => Err(Status::Stale),
    }
}

/// ACCESS (RFC 1813 section 3.3.4), on the parcels of a volume's names and attributes: of the bits
/// that are asked for, those that the mode of a node gives to a caller, or STALE. It takes no
/// memory.
pub fn check_access(
    held: &LogicalHeld<Files>,
    volume: VolumeNumber,
    fileid: Fileid,
    asked: u32,
    caller: &Caller,
) -> Result<AccessResults, Status>
    requires whole { HasVolume volume.0 logical_lens [] (logical_before held.now) }
    ensures right { ChecksAccess volume.0 fileid.0 asked (caller_of caller.now)
        (logical_before held.now) result }
{
    match held.own.get().inodes.get(fileid) {
        Some(inode) => {
            let object = shown_now(held, volume, fileid, inode);
            let given = access_given(caller, asked, &protection_of(&inode));
            Ok(AccessResults { object, given })
        }
        None => Err(Status::Stale),
    }
}

/// FSINFO (RFC 1813 section 3.3.19), on the parcels of a volume's names and attributes: the
/// attributes of a node and the largest size of a file of the volume, or STALE. It takes no
/// memory.
pub fn filesystem_info(
    held: &LogicalHeld<Files>,
    volume: VolumeNumber,
    fileid: Fileid,
) -> Result<FilesystemInfoResults, Status>
    requires whole { HasVolume volume.0 logical_lens [] (logical_before held.now) }
    ensures right { TellsInfo volume.0 fileid.0 (logical_before held.now) result }
{
    match object_at(held, volume, fileid) {
        Ok(root) => {
            let largest = held.own.get().largest;
            Ok(FilesystemInfoResults { root, largest })
        }
        Err(status) => Err(status),
    }
}

/// PATHCONF (RFC 1813 section 3.3.20), on the parcels of a volume's names and attributes: the
/// attributes of a node, and whether the caller is checked, or STALE. It takes no memory.
pub fn path_configuration(
    held: &LogicalHeld<Files>,
    volume: VolumeNumber,
    fileid: Fileid,
    caller: &Caller,
) -> Result<PathConfigurationResults, Status>
    requires whole { HasVolume volume.0 logical_lens [] (logical_before held.now) }
    ensures right { TellsPath volume.0 fileid.0 (caller_of caller.now)
        (logical_before held.now) result }
{
    match object_at(held, volume, fileid) {
        Ok(object) => Ok(PathConfigurationResults {
            object,
            is_chown_restricted: caller.is_checked,
        }),
        Err(status) => Err(status),
    }
}
