//! The counts of volumes, as CENSUS tells them.

ghost use Rattle.xdr.specs.Reading.{Gives, items_at, read};
ghost use Rattle.nfs_types.specs.Results.{census_shape, count_shape};
ghost use Rattle.admin_client.specs.Telling.{GivesCounts, counted_value};

use crate::fault::AdminFault;
use nfs_values::VolumeNumber;
use nfs_values::answer::VolumeCount;
use std::alloc::Global;
use xdr::{Cursor, Fault};

/// Reads the counts of a volume.
fn read_count(from: &mut Cursor<'_>) -> Result<VolumeCount, Fault>
    ensures { Gives counted_value result (read count_shape from.old) from.new }
{
    let volume = VolumeNumber(from.u32()?);
    let total = from.u64()?;
    let used = from.u64()?;
    Ok(VolumeCount {
        volume,
        total,
        used,
    })
}

/// Reads the counts of this many volumes.
fn read_items(
    alloc: Global,
    count: u32,
    from: &mut Cursor<'_>,
) -> Result<Vec<VolumeCount>, AdminFault>
    ensures { GivesCounts (λ counts. counts.items) result
        (items_at (λ rest. read count_shape rest) count from.old) from.new }
{
    let mut counts = Vec::new(alloc);
    for _volume in 0..count {
        let one = match read_count(from) {
            Ok(one) => one,
            Err(fault) => return Err(AdminFault::Malformed(fault)),
        };
        if counts.push(one).is_err() {
            return Err(AdminFault::NoMemory);
        }
    }
    Ok(counts)
}

/// Reads the counts of volumes behind how many they are.
pub(crate) fn read_counts(
    alloc: Global,
    from: &mut Cursor<'_>,
) -> Result<Vec<VolumeCount>, AdminFault>
    ensures { GivesCounts (λ counts. counts.items) result (read census_shape from.old) from.new }
{
    match from.length(u32::MAX) {
        Ok(count) => read_items(alloc, count, from),
        Err(fault) => Err(AdminFault::Malformed(fault)),
    }
}
