//! CENSUS of the admin program.

ghost use Rattle.std.specs.Prelude.{◌≡◌, ◌<◌, ◌≤◌, ℕ, length};
ghost use Rattle.nfs_model.specs.Tree as trees;
ghost use Rattle.nfs_model.specs.Tree.{aggregate_of};
ghost use Rattle.affinity.specs.Layout.{layout_of};
ghost use Rattle.nfs_values.specs.Answer.{count_of};
ghost use Rattle.filer_state.specs.state.Sets.{
  placed,
  serial_set,
  volume_before,
  volume_placed,
  volume_value,
};
ghost use Rattle.filer_state.specs.totals.Census.{count_in};
ghost use Rattle.service.specs.totals.Census.{TakesCensus};

use affinity::Layout;
use filer_state::{Files, ranges_used};
use nfs_values::VolumeNumber;
use nfs_values::answer::VolumeCount;
use parcels::{AggrHeld, SerialHeld, VolumeHeld};
use std::alloc::{AllocError, Global};

/// CENSUS of the admin program (our profile), on all that is stored: the blocks of each volume and
/// those of them that are in files, in order of the volumes' numbers.
pub fn census(
    alloc: Global,
    layout: &Layout,
    held: &SerialHeld<Files>,
) -> Result<Vec<VolumeCount>, AllocError>
    ensures right { TakesCensus (layout_of layout.now) (serial_set (layout_of layout.now) held.now)
        result }
{
    let count = layout.volume_count();
    let mut counts = Vec::with_capacity(alloc, count)?;
    for volume in 0..count {
        counts.push(count_at(layout, held, volume as u32))?;
    }
    Ok(counts)
}

/// The blocks of a volume that there is.
#[tactic(auto, using(affinity::specs::lemmas::Lawful::few_of_each))]
fn count_at(layout: &Layout, held: &SerialHeld<Files>, volume: u32) -> VolumeCount
    requires there { volume < length (layout_of layout.now).volumes }
    ensures { let L = layout_of layout.now in count_of result ≡ count_in volume
        (volume_placed L (placed held.now.aggregates.at (aggregate_of L volume)) volume) }
{
    let aggregate = layout.aggregate_of(volume);
    count_on(&held.aggregates.at[aggregate as usize], volume)
}

/// The blocks of a volume by the aggregate in a place.
fn count_on(place: &Option<AggrHeld<Files>>, volume: u32) -> VolumeCount
    requires few { volume < 8 }
    ensures { (layout : trees.Layout)
        → count_of result ≡ count_in volume (volume_placed layout place.now volume) }
{
    match place {
        Some(aggregate) => count_placed(&aggregate.volumes.at[volume as usize], volume),
        None => VolumeCount {
            volume: VolumeNumber(volume),
            total: 0,
            used: 0,
        },
    }
}

/// The blocks of the volume in a place; none where there is no volume.
fn count_placed(place: &Option<VolumeHeld<Files>>, volume: u32) -> VolumeCount
    ensures { (stripes : ℕ) →
        count_of result ≡ count_in volume (volume_value stripes place.now) }
{
    match place {
        Some(held) => volume_count(held, VolumeNumber(volume)),
        None => VolumeCount {
            volume: VolumeNumber(volume),
            total: 0,
            used: 0,
        },
    }
}

/// The blocks of a volume, at most 268,435,456, and how many of them are in files.
pub(crate) fn volume_count(held: &VolumeHeld<Files>, volume: VolumeNumber) -> VolumeCount
    ensures value { count_of result ≡ count_in volume.0 (volume_before held.now) }
    ensures most { result.total ≤ 268435456 }
{
    let logical = held.logical.own.get();
    VolumeCount {
        volume,
        total: u64::from(logical.dead.range_blocks()) * u64::from(ranges_used(&held.vbn)),
        used: logical.inodes.used(),
    }
}
