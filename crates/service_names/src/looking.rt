//! LOOKUP.

ghost use Rattle.std.specs.Prelude.{[]};
ghost use Rattle.filer_state.specs.state.Lenses.{logical_lens};
ghost use Rattle.filer_state.specs.state.Promises.{HasVolume};
ghost use Rattle.filer_state.specs.state.Sets.{logical_before};
ghost use Rattle.service_names.specs.Promises.{LooksUp};

use crate::as_directory::directory_at;
use crate::naming::{fileid_named, name_fault};
use crate::showing::{shown, shown_now};
use filer_state::Files;
use nfs_values::answer::LookupResults;
use nfs_values::{FileHandle, Fileid, Named, Status, VolumeNumber};
use parcels::LogicalHeld;

/// LOOKUP (RFC 1813 section 3.3.3), on the parcels of a volume's names and attributes: STALE,
/// NOTDIR, what is wrong with the name; the node that the name stands for in a directory, or NOENT
/// where there is none. It takes no memory.
pub fn lookup(
    held: &LogicalHeld<Files>,
    volume: VolumeNumber,
    directory: Fileid,
    name: &[u8],
) -> Result<LookupResults, Status>
    requires whole { HasVolume volume.0 logical_lens [] (logical_before held.now) }
    ensures right { LooksUp volume.0 directory.0 name.now (logical_before held.now) result }
{
    let (inode, parent) = directory_at(held, directory)?;
    if let Some(fault) = name_fault(name) {
        return Err(fault);
    }
    let fileid = match fileid_named(held, directory, parent, name) {
        Some(fileid) => fileid,
        None => return Err(Status::NoEntry),
    };
    let object = match held.own.get().inodes.get(fileid) {
        Some(object) => object,
        None => return Err(Status::NoEntry),
    };
    Ok(LookupResults {
        handle: FileHandle::naming(Named { volume, fileid }),
        object: shown_now(held, volume, fileid, object),
        directory: shown(volume, directory, inode, None),
    })
}
