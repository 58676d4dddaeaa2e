//! How many blocks a volume has, and how many of them there are for holes.

ghost use Rattle.std.specs.Prelude.{◌≡◌, ◌+◌, ◌<◌, ◌≤◌, nat_lt};
ghost use Rattle.std.specs.FinSet.{len};
ghost use Rattle.filer_state.specs.state.Sets.{range_value, vbn_set, volume_before};
ghost use Rattle.filer_state.specs.bytes.WritingUp.{all_blocks, for_holes, free_count};

use filer_state::{Files, ranges_used};
use parcels::{RangeHeld, VbnHeld, VolumeHeld};

/// Whether the filled blocks of all files, and this many holes, are more than all blocks of a
/// volume.
pub(crate) fn lacks_space(held: &VolumeHeld<Files>, holes: usize) -> bool
    requires used { held.now.logical.own.inodes.used < 9223372036854775808 }
    requires few { holes ≤ 17 }
    ensures { result ≡ nat_lt (all_blocks (volume_before held.now))
        (held.now.logical.own.inodes.used + holes) }
{
    let logical = held.logical.own.get();
    let all = u64::from(logical.dead.range_blocks()) * u64::from(ranges_used(&held.vbn));
    all < logical.inodes.used() + holes as u64
}

/// Whether the stock, the ranges and the dead of a volume have fewer blocks than this many.
pub(crate) fn lacks_numbers(held: &VolumeHeld<Files>, holes: usize) -> bool
    requires few { holes ≤ 17 }
    ensures { result ≡ nat_lt (for_holes (volume_before held.now)) holes }
{
    let free = count_free(&held.vbn);
    let logical = held.logical.own.get();
    let there = logical.stock.len().saturating_add(free);
    there.saturating_add(logical.dead.len()) < holes
}

/// How many numbers are free in all ranges of a volume.
fn count_free(held: &VbnHeld<Files>) -> usize
    ensures { result ≡ free_count (vbn_set held.now) }
{
    let mut free = 0;
    for range in 0..16 {
        free += free_in(&held.ranges.at[range]);
    }
    free
}

/// How many numbers of the range in a place are free.
fn free_in(place: &Option<RangeHeld<Files>>) -> usize
    ensures value { result ≡ len (range_value place.now).free }
    ensures few { result ≤ 16777216 }
{
    match place {
        Some(held) => {
            let range = held.own.get();
            let _blocks = range.range_blocks();
            range.free_count()
        }
        None => 0,
    }
}
