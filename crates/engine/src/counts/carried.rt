//! Counts that change with what workers carry.

ghost use Rattle.std.specs.Prelude.{◌≡◌, ◌+◌, min};
ghost use Rattle.nfs_model.specs.World.{changed_at};
ghost use Rattle.engine.specs.counts.Counts.{with_culled, with_put};

use crate::counts::counts::VolumeCounts;

/// This many dead blocks of a volume came into a hand.
pub fn count_culled(counts: &mut Vec<VolumeCounts>, volume: u32, count: usize)
    ensures { counts.new.items ≡ changed_at (with_culled count) counts.old.items volume }
{
    if let Some(place) = counts.get_mut(volume as usize) {
        place.dead = place.dead.saturating_sub(count);
    }
}

/// This many blocks that a hand carried were put down in the stock of a volume, which has at most
/// all.
pub fn count_put(counts: &mut Vec<VolumeCounts>, volume: u32, count: usize)
    ensures { counts.new.items ≡ changed_at (with_put count) counts.old.items volume }
{
    if let Some(place) = counts.get_mut(volume as usize) {
        place.stock = stock_after(place.stock, count, place.total);
    }
}

/// The stock of a volume of this many numbers after this many more.
fn stock_after(stock: usize, count: usize, total: usize) -> usize
    ensures { result ≡ min (stock + count) total }
{
    stock.saturating_add(count).min(total)
}
