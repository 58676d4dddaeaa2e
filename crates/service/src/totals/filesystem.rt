//! FSSTAT.

ghost use Rattle.std.specs.Prelude.{[]};
ghost use Rattle.filer_state.specs.state.Lenses.{volume_lens};
ghost use Rattle.filer_state.specs.state.Promises.{HasVolume};
ghost use Rattle.filer_state.specs.state.Sets.{volume_before};
ghost use Rattle.service.specs.totals.FilesystemStatus.{TellsFilesystemStatus};

use crate::totals::counting::volume_count;
use filer_state::Files;
use nfs_values::answer::FilesystemStatusResults;
use nfs_values::{BLOCK_BYTES, Fileid, Status, VolumeNumber};
use parcels::VolumeHeld;
use service_names::shown_now;

/// FSSTAT (RFC 1813 section 3.3.18), on the parcels of a volume: STALE, or the attributes of the
/// node of a fileid and the volume's space: the bytes of its blocks and of those that are in no
/// file, the inodes that it may have and those of them that it hasn't. It takes no memory.
pub fn filesystem_status(
    held: &VolumeHeld<Files>,
    volume: VolumeNumber,
    fileid: Fileid,
) -> Result<FilesystemStatusResults, Status>
    requires whole { HasVolume volume.0 volume_lens [] (volume_before held.now) }
    ensures right { TellsFilesystemStatus volume.0 fileid.0 (volume_before held.now) result }
{
    let own = held.logical.own.get();
    let inode = match own.inodes.get(fileid) {
        Some(inode) => inode,
        None => return Err(Status::Stale),
    };
    let count = volume_count(held, volume);
    Ok(FilesystemStatusResults {
        root: shown_now(&held.logical, volume, fileid, inode),
        total_bytes: BLOCK_BYTES * count.total,
        free_bytes: BLOCK_BYTES * count.total.saturating_sub(count.used),
        inodes: u64::from(own.most_inodes),
        free_inodes: u64::from(own.most_inodes).saturating_sub(own.inodes.len() as u64),
    })
}
