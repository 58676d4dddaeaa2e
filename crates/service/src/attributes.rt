//! GETATTR.

ghost use Rattle.std.specs.Prelude.{[]};
ghost use Rattle.filer_state.specs.state.Lenses.{logical_lens};
ghost use Rattle.filer_state.specs.state.Promises.{HasVolume};
ghost use Rattle.filer_state.specs.state.Sets.{logical_before};
ghost use Rattle.service.specs.Getattr.{TellsAttributes};

use filer_state::Files;
use nfs_values::{Attributes, Fileid, Status, VolumeNumber};
use parcels::LogicalHeld;
use service_names::shown_now;

/// GETATTR (RFC 1813 section 3.3.1), on the parcels of a volume's names and attributes: the
/// attributes of the node of a fileid, or STALE where there is none. It takes no memory.
pub fn get_attributes(
    held: &LogicalHeld<Files>,
    volume: VolumeNumber,
    fileid: Fileid,
) -> Result<Attributes, Status>
    requires whole { HasVolume volume.0 logical_lens [] (logical_before held.now) }
    ensures right { TellsAttributes volume.0 fileid.0
        (logical_before held.now) result (logical_before held.now) }
{
    match held.own.get().inodes.get(fileid) {
        Some(inode) => Ok(shown_now(held, volume, fileid, inode)),
        None => Err(Status::Stale),
    }
}
