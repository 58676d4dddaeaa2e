//! Counts of volumes, by the parcels that are held of them.

ghost use Rattle.std.specs.Prelude.{◌≡◌, ◌<◌, length, ℕ, Some};
ghost use Rattle.nfs_model.specs.Tree as trees;
ghost use Rattle.nfs_model.specs.Tree.{aggregate_of};
ghost use Rattle.nfs_model.specs.World.{changed_at};
ghost use Rattle.affinity.specs.Layout.{layout_of};
ghost use Rattle.filer_state.specs.state.Sets.{placed, volume_placed, volume_value};
ghost use Rattle.engine.specs.counts.Counts.{counts_of, counts_in, recounted};
ghost use Rattle.engine.specs.counts.Counts.{with_logical, with_set, if_on, in_whole};

use crate::counts::counts::VolumeCounts;
use affinity::Layout;
use filer_state::{Files, ranges_used};
use parcels::{AggrHeld, LogicalHeld, SerialHeld, VolumeHeld};

/// Counts the volume again whose Logical is held: this many numbers as before.
pub(crate) fn recount_logical(
    counts: &mut Vec<VolumeCounts>,
    volume: u32,
    held: &LogicalHeld<Files>,
)
    requires { volume < length counts.old.items }
    ensures { counts.new.items ≡ changed_at (with_logical held.now.own) counts.old.items volume }
{
    let total = counts[volume as usize].total;
    counts[volume as usize] = count(held, total);
}

/// Counts the volume again that is held.
pub(crate) fn recount_volume(counts: &mut Vec<VolumeCounts>, volume: u32, held: &VolumeHeld<Files>)
    requires { volume < length counts.old.items }
    ensures { counts.new.items ≡ changed_at (with_set held.now) counts.old.items volume }
{
    counts[volume as usize] = count_volume(held);
}

/// Counts the volumes again that are on the aggregate that is held.
pub(crate) fn recount_aggregate(
    counts: &mut Vec<VolumeCounts>,
    layout: &Layout,
    aggregate: u32,
    held: &AggrHeld<Files>,
)
    requires { length counts.old.items ≡ length (layout_of layout.now).volumes }
    ensures { let L = layout_of layout.now in counts.new.items
        ≡ recounted (if_on L aggregate held.now) 0 (length L.volumes) counts.old.items }
{
    for volume in 0..layout.volume_count() {
        let before = counts[volume];
        counts[volume] = count_if_on(layout, aggregate, held, volume as u32, before);
    }
}

/// Counts all volumes again.
pub(crate) fn recount_all(counts: &mut Vec<VolumeCounts>, layout: &Layout, held: &SerialHeld<Files>)
    requires { length counts.old.items ≡ length (layout_of layout.now).volumes }
    ensures { let L = layout_of layout.now in counts.new.items
        ≡ recounted (in_whole L held.now) 0 (length L.volumes) counts.old.items }
{
    for volume in 0..layout.volume_count() {
        counts[volume] = count_in_whole(layout, held, volume as u32);
    }
}

/// The counts of a volume, by the aggregate that is held: as they were where it is on another.
#[tactic(auto, using(affinity::specs::lemmas::Lawful::few_volumes))]
fn count_if_on(
    layout: &Layout,
    aggregate: u32,
    held: &AggrHeld<Files>,
    volume: u32,
    before: VolumeCounts,
) -> VolumeCounts
    requires there { volume < length (layout_of layout.now).volumes }
    ensures { result ≡ if_on (layout_of layout.now) aggregate held.now volume before }
{
    if layout.aggregate_of(volume) == aggregate {
        count_placed(&held.volumes.at[volume as usize])
    } else {
        before
    }
}

/// The counts of a volume that there is.
#[tactic(auto, using(affinity::specs::lemmas::Lawful::few_of_each))]
fn count_in_whole(layout: &Layout, held: &SerialHeld<Files>, volume: u32) -> VolumeCounts
    requires there { volume < length (layout_of layout.now).volumes }
    ensures { let L = layout_of layout.now in
        let aggregate = placed held.now.aggregates.at (aggregate_of L volume) in
        result ≡ counts_in (volume_placed L aggregate volume) }
{
    let aggregate = layout.aggregate_of(volume);
    count_on(&held.aggregates.at[aggregate as usize], volume)
}

/// The counts of a volume by the aggregate in a place.
fn count_on(place: &Option<AggrHeld<Files>>, volume: u32) -> VolumeCounts
    requires few { volume < 8 }
    ensures { (layout : trees.Layout)
        → result ≡ counts_in (volume_placed layout place.now volume) }
{
    match place {
        Some(aggregate) => count_placed(&aggregate.volumes.at[volume as usize]),
        None => NO_BLOCKS,
    }
}

/// The counts of the volume in a place; none where there is no volume.
fn count_placed(place: &Option<VolumeHeld<Files>>) -> VolumeCounts
    ensures { (stripes : ℕ) → result ≡ counts_in (volume_value stripes place.now) }
{
    match place {
        Some(held) => count_volume(held),
        None => NO_BLOCKS,
    }
}

/// The counts of a volume.
fn count_volume(held: &VolumeHeld<Files>) -> VolumeCounts
    ensures { (stripes : ℕ) → result ≡ counts_in (volume_value stripes (Some held.now)) }
{
    let range_blocks = held.logical.own.get().dead.range_blocks();
    count(
        &held.logical,
        range_blocks as usize * ranges_used(&held.vbn) as usize,
    )
}

/// The counts of a volume of this many numbers.
fn count(held: &LogicalHeld<Files>, total: usize) -> VolumeCounts
    ensures { result ≡ counts_of held.now.own total }
{
    let logical = held.own.get();
    VolumeCounts {
        files: logical.inodes.used() as usize,
        stock: logical.stock.len(),
        dead: logical.dead.len(),
        total,
    }
}

/// The counts where there is no volume.
const NO_BLOCKS: VolumeCounts = VolumeCounts {
    files: 0,
    stock: 0,
    dead: 0,
    total: 0,
};
