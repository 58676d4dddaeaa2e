//! How many blocks are free.

ghost use Rattle.std.specs.Prelude.{◌≡◌, IfOk, OnOk};
ghost use Rattle.filer_state.specs.state.Sets.{range_value, vbn_set};
ghost use Rattle.service_batches.specs.Batches.{SurveysHere};
ghost use Rattle.service_batches.specs.Counts.{count_shown, with_count};

use affinity::MOST_RANGES;
use filer_state::Files;
use parcels::{RangeHeld, VbnHeld};
use std::alloc::{AllocError, Global};

/// The places of ranges of a volume.
const PLACES: usize = MOST_RANGES as usize;

/// Survey (our profile), on the parcels of a volume's block numbers: how many blocks are free in
/// each range in use, in the order of the ranges.
pub fn survey(alloc: Global, held: &VbnHeld<Files>) -> Result<Vec<u32>, AllocError>
    ensures { IfOk result (λ counts. SurveysHere (vbn_set held.now) counts.items) }
{
    let mut counts = Vec::with_capacity(alloc, PLACES)?;
    for range in 0..PLACES {
        add_count(&mut counts, &held.ranges.at[range])?;
    }
    Ok(counts)
}

/// Adds how many blocks are free in the range in a place, if it is in use.
fn add_count(counts: &mut Vec<u32>, place: &Option<RangeHeld<Files>>) -> Result<(), AllocError>
    ensures { OnOk result (counts.new.items
        ≡ with_count counts.old.items (count_shown (range_value place.now))) }
{
    if let Some(count) = count_in(place) {
        counts.push(count)?;
    }
    Ok(())
}

/// How many blocks are free in the range in a place, if it is in use.
fn count_in(place: &Option<RangeHeld<Files>>) -> Option<u32>
    ensures { result ≡ count_shown (range_value place.now) }
{
    let range = place.as_ref()?.own.get();
    if !range.is_used() {
        return None;
    }
    let _blocks = range.range_blocks();
    Some(range.free_count() as u32)
}
