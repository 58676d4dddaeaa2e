//! Batches for the stock, and of the dead.

ghost use Rattle.std.specs.Prelude.{◌≡◌, ◌<◌, ◌≤◌, length, OnOk, OnErr};
ghost use Rattle.std.specs.FinSet.{len};
ghost use Rattle.nfs_model.specs.Parts.{range_of, IsBatch};
ghost use Rattle.parcels.specs.Filled.{logical_alike};
ghost use Rattle.filer_state.specs.state.Sets.{logical_before, logical_after};
ghost use Rattle.service_batches.specs.Batches.{CullsHere, DeliversHere, MayDeliver, most_stocked};

use filer_state::{Files, give_back};
use parcels::LogicalHeld;
use std::alloc::AllocError;
use vbn_ranges::Batch;

/// The most numbers of a stock: none is delivered that would make it more.
const MOST_STOCKED: usize = 2_097_152;

/// Deliver (our profile), on the parcels under Volume Logical: fresh blocks that were in a hand
/// come into the stock. Where there is no memory for them, or no room in a stock of 2,097,152
/// numbers, nothing changes.
pub fn deliver(held: &mut LogicalHeld<Files>, batch: &Batch) -> Result<(), AllocError>
    requires some { 0 < length batch.now }
    requires batch { let size = (logical_before held.old).own.dead.range_blocks in
        IsBatch size (range_of size batch.now) batch.now }
    requires carried { MayDeliver batch.now (logical_before held.old) }
    ensures right { OnOk result (DeliversHere batch.now
        (logical_before held.old) (logical_after held.old held.new)) }
    ensures most { OnOk result
        (len (logical_after held.old held.new).own.stock ≤ most_stocked) }
    ensures starved { OnErr result (held.new ≡ held.old) }
    ensures stripes { held.new.stripes ≡ held.old.stripes }
    ensures alike { logical_alike held.old held.new }
{
    let count = batch.len();
    let room = MOST_STOCKED.saturating_sub(held.own.get().stock.len());
    if room < count {
        return Err(AllocError);
    }
    held.own.get_mut().stock.put(batch)
}

/// Cull (our profile), on the parcels under Volume Logical: the 64 lowest dead blocks of the range
/// of the lowest come into the hand, or all of that range if they are fewer. It takes no memory,
/// and gives back that of as many blocks which cuts left for later.
pub fn cull(held: &mut LogicalHeld<Files>) -> Batch
    ensures right { CullsHere (logical_before held.old) result (logical_after held.old held.new) }
    ensures stripes { held.new.stripes ≡ held.old.stripes }
    ensures alike { logical_alike held.old held.new }
{
    let batch = held.own.get_mut().dead.take_batch();
    give_back(held, batch.len());
    batch
}
