//! Batches of a range.

ghost use Rattle.std.specs.Prelude.{◌≡◌, ◌<◌, length, IfNone};
ghost use Rattle.nfs_model.specs.Parts.{IsBatch};
ghost use Rattle.service_batches.specs.Batches.{FetchesHere, FreesHere, MayFree};

use filer_state::Files;
use parcels::RangeHeld;
use vbn_ranges::Batch;

/// The blocks that a hand carries at most.
const MOST_CARRIED: usize = 64;

/// Fetch (our profile), on the parcel of a range: its 64 lowest free blocks come into the hand, or
/// all if they are fewer. Where the range isn't in use nothing changes: `None`. It takes no memory.
pub fn fetch(held: &mut RangeHeld<Files>) -> Option<Batch>
    ensures right { FetchesHere held.old.own result held.new.own }
    ensures refused { IfNone result (held.new ≡ held.old) }
{
    let range = held.own.get_mut();
    let _number = range.number();
    match range.take(MOST_CARRIED) {
        Ok(batch) => Some(batch),
        Err(_) => None,
    }
}

/// Free (our profile), on the parcel of a range: its dead blocks that were in a hand are free
/// again. It takes no memory.
pub fn free(held: &mut RangeHeld<Files>, batch: &Batch)
    requires some { 0 < length batch.now }
    requires batch { IsBatch held.old.own.range_blocks held.old.own.number batch.now }
    requires carried { MayFree batch.now held.old.own }
    ensures right { FreesHere batch.now held.old.own held.new.own }
{
    let range = held.own.get_mut();
    let _number = range.number();
    match range.give(batch) {
        Ok(()) => {}
        Err(_) => unreachable!(),
    }
}
