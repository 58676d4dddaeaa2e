//! GROW.

ghost use Rattle.std.specs.Prelude.{◌≡◌, ◌≤◌, OnErr};
ghost use Rattle.parcels.specs.Filled.{aggregate_alike};
ghost use Rattle.service.specs.totals.Growing.{
  DoneInAggregate,
  GrowsAggregate,
  HasRangesIn,
  HasVolumeOf,
  PlaceGrows,
  VolumeGrows,
  growth_refused,
};
ghost use Rattle.service.specs.totals.Ranges.{HasRanges};

use crate::totals::ranges::put_in_use;
use affinity::MOST_RANGES;
use filer_state::totals::growing_calls_are_right;
use filer_state::{Files, ranges_used};
use nfs_values::{Status, VolumeNumber};
use parcels::{AggrHeld, VolumeHeld};

/// GROW of the admin program (our profile), on the parcels under the Aggregate of the volume: INVAL
/// where no range is asked for, FBIG where the volume would have more than 16, NOSPC where more are
/// asked for than are spare; else this many ranges come into use in the volume, all their blocks
/// free, and are spare no more. Gives the new total of the volume's blocks. It takes no memory.
pub fn grow(held: &mut AggrHeld<Files>, volume: VolumeNumber, more: u32) -> Result<u64, Status>
    requires whole { HasVolumeOf volume.0 held.old }
    ensures right { GrowsAggregate volume.0 more held.old result held.new }
    ensures kept { OnErr result (held.new ≡ held.old) }
    ensures alike { aggregate_alike held.old held.new }
{
    growing_calls_are_right();
    grow_at(held, volume.0, more)
}

/// What GROW comes to, by the definitions.
fn grow_at(held: &mut AggrHeld<Files>, volume: u32, more: u32) -> Result<u64, Status>
    requires { HasVolumeOf volume held.old }
    ensures { DoneInAggregate volume more held.old result held.new }
{
    let spare = held.own;
    let total = match grow_in(&mut held.volumes.at[volume as usize], spare, more) {
        Ok(total) => total,
        Err(status) => return Err(status),
    };
    held.own = spare - more;
    Ok(total)
}

/// Puts more ranges of the volume in a place into use, where this many are spare.
fn grow_in(place: &mut Option<VolumeHeld<Files>>, spare: u32, more: u32) -> Result<u64, Status>
    requires { HasRangesIn place.old }
    ensures { PlaceGrows spare more place.old result place.new }
{
    match place {
        Some(volume) => grow_volume(volume, spare, more),
        None => unreachable!(),
    }
}

/// Puts more ranges of a volume into use, where this many are spare.
fn grow_volume(held: &mut VolumeHeld<Files>, spare: u32, more: u32) -> Result<u64, Status>
    requires { HasRanges held.old.vbn }
    ensures { VolumeGrows spare more held.old result held.new }
{
    let used = ranges_used(&held.vbn);
    match refusal(used, spare, more) {
        Some(status) => return Err(status),
        None => {}
    }
    put_in_use(&mut held.vbn, used + more);
    let range_blocks = held.logical.own.get().dead.range_blocks();
    Ok(u64::from(range_blocks) * u64::from(used + more))
}

/// The first check that fails of GROW of a volume with this many ranges, where this many are spare.
fn refusal(used: u32, spare: u32, more: u32) -> Option<Status>
    requires { used ≤ 16 }
    ensures { growth_refused result used spare more }
{
    if more == 0 {
        return Some(Status::Invalid);
    }
    if more > MOST_RANGES - used {
        return Some(Status::TooBig);
    }
    if more > spare {
        return Some(Status::NoSpace);
    }
    None
}
