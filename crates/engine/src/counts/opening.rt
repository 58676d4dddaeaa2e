//! The counts of volumes to which nothing has happened.

ghost use Rattle.std.specs.Prelude.{◌≡◌, ◌*◌, map, slice_get, ℕ, List, Some, IfOk};
ghost use Rattle.nfs_model.specs.Tree.{VolumeLayout};
ghost use Rattle.nfs_model.specs.Server.{opening};
ghost use Rattle.nfs_model.specs.Headline.{opening_parts};
ghost use Rattle.affinity.specs.Layout.{layout_of};
ghost use Rattle.engine.specs.counts.Counts.{all_seen};

use crate::counts::counts::VolumeCounts;
use affinity::Layout;
use std::alloc::{AllocError, Global};

/// The counts of a layout's volumes as a run begins: all their block numbers are free.
pub fn opening_counts(alloc: Global, layout: &Layout) -> Result<Vec<VolumeCounts>, AllocError>
    ensures { IfOk result (λ counts. let L = layout_of layout.now in (verifier : List ℕ)
        → counts.items ≡ all_seen (opening L verifier).volumes (map opening_parts L.volumes)) }
{
    let count = layout.volume_count();
    let mut counts = Vec::with_capacity(alloc, count)?;
    for volume in 0..count {
        counts.push(VolumeCounts {
            files: 0,
            stock: 0,
            dead: 0,
            total: total_at(layout, volume as u32),
        })?;
    }
    Ok(counts)
}

/// How many block numbers a volume begins with; none where there is no volume.
fn total_at(layout: &Layout, volume: u32) -> usize
    ensures { (v : VolumeLayout) → slice_get (layout_of layout.now).volumes volume ≡ Some v
        → result ≡ v.range_blocks * v.ranges }
{
    match layout.volume(volume) {
        Some(specification) => {
            specification.range_blocks as usize * specification.volume.ranges as usize
        }
        None => 0,
    }
}
