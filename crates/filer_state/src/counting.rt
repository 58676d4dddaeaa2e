//! How many ranges a volume has.

ghost use Rattle.std.specs.Prelude.{◌≡◌, ◌≤◌, if◌then◌else◌};
ghost use Rattle.filer_state.specs.state.Sets.{range_value, vbn_set};
ghost use Rattle.filer_state.specs.state.Tree.{ranges_used};

use crate::files::Files;
use parcels::{RangeHeld, VbnHeld};

/// How many ranges of a volume are in use, at most 16.
pub fn ranges_used(held: &VbnHeld<Files>) -> u32
    ensures used { result ≡ ranges_used (vbn_set held.now) }
    ensures few { result ≤ 16 }
{
    let mut used = 0;
    for range in 0..16 {
        used += used_in(&held.ranges.at[range]);
    }
    used
}

/// One where the range in a place is in use, else none.
fn used_in(place: &Option<RangeHeld<Files>>) -> u32
    ensures value { result ≡ (if (range_value place.now).is_used then 1 else 0) }
    ensures few { result ≤ 1 }
{
    match place {
        Some(range) => u32::from(range.own.get().is_used()),
        None => 0,
    }
}
