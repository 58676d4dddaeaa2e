//! The ranges of a volume, in their places, as they come into use.

ghost use Rattle.std.specs.Prelude.{◌≡◌, ◌≤◌};
ghost use Rattle.parcels.specs.Filled.{vbn_alike};
ghost use Rattle.nfs_model.specs.volume.Ranges.{put_in_use};
ghost use Rattle.filer_state.specs.state.Sets.{vbn_set};
ghost use Rattle.filer_state.specs.totals.Growing.{first_in_use};
ghost use Rattle.service.specs.totals.Ranges.{HasRanges, place_in_use};

use filer_state::Files;
use parcels::{RangeHeld, VbnHeld};

/// Puts the first ranges of a volume into use, this many: those that weren't, with all their blocks
/// free.
pub(crate) fn put_in_use(held: &mut VbnHeld<Files>, count: u32)
    requires there { HasRanges held.old }
    requires few { count ≤ 16 }
    ensures ranges { vbn_set held.new ≡ first_in_use count (vbn_set held.old) }
    ensures alike { vbn_alike held.old held.new }
{
    for range in 0..count as usize {
        put_place_in_use(&mut held.ranges.at[range]);
    }
}

/// Puts the range in a place into use.
fn put_place_in_use(place: &mut Option<RangeHeld<Files>>)
    ensures { place.new ≡ place_in_use place.old }
{
    match place {
        Some(range) => range.own.get_mut().put_in_use(),
        None => {}
    }
}
