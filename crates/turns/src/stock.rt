//! A look at the stock of a volume: whether it has enough numbers.

ghost use Rattle.std.specs.Prelude.{◌≡◌};
ghost use Rattle.turns.specs.Stocks.{has_enough, is_stocked, stocked_after, told_by};

use affinity::{Affinity, Layout};
use desk::WorkOn;
use filer_state::Files;
use parcels::{LogicalHeld, LogicalNode, Parcel, RangeHeld, RangeNode};

/// How many numbers of a stock are enough: 4 GiB of blocks.
pub const ENOUGH_STOCKED: usize = 1_048_576;

/// Whether the stock of a volume has enough numbers.
fn has_enough(held: &LogicalHeld<Files>) -> bool
    ensures { result ≡ has_enough held.now.own.stock }
{
    held.own.get().stock.len() >= ENOUGH_STOCKED
}

/// A look at the parcels of a node at which an inner call has moved a batch, which it leaves as
/// they are: on Volume Logical it tells whether the stock has enough numbers, on a range nothing.
#[derive(Clone, Copy)]
pub(crate) struct Look;

/// Whether a stock has enough numbers, as a look tells it.
#[derive(Clone, Copy)]
pub(crate) struct Enough(pub(crate) bool);

/// There is no stock under the node.
#[derive(Clone, Copy)]
pub(crate) struct NoStock;

impl WorkOn<Parcel<Files>, RangeNode, Enough, NoStock> for Look {
    ghost use Rattle.turns.specs.Stocks.{AsksForNothing, HasTold};

    ghost asks = { λ look. AsksForNothing };

    ghost does = { λ look. HasTold };

    fn work_on(self, _: &Layout, _: Affinity, _: &mut RangeHeld<Files>) -> Result<Enough, NoStock> {
        Err(NoStock)
    }
}

impl WorkOn<Parcel<Files>, LogicalNode, Enough, NoStock> for Look {
    ghost use Rattle.turns.specs.Stocks.{AsksForNothing, HasTold};

    ghost asks = { λ look. AsksForNothing };

    ghost does = { λ look. HasTold };

    fn work_on(
        self,
        _: &Layout,
        _: Affinity,
        held: &mut LogicalHeld<Files>,
    ) -> Result<Enough, NoStock> {
        Ok(Enough(has_enough(held)))
    }
}

/// Whether the stock has enough numbers, by what a look told; nothing where there is no stock.
pub(crate) fn told_by(looked: Result<Enough, NoStock>) -> Option<bool>
    ensures { result ≡ told_by looked }
{
    match looked {
        Ok(enough) => Some(enough.0),
        Err(NoStock) => None,
    }
}

/// The volume whose stock is known to have enough numbers, after an inner call on a volume: by what
/// a look told of its stock, and where it told nothing as before.
pub(crate) fn stocked(volume: u32, told: Option<bool>, before: Option<u32>) -> Option<u32>
    ensures { result ≡ stocked_after volume told before }
{
    match told {
        Some(enough) => { if enough { Some(volume) } else { None } }
        None => before,
    }
}

/// Whether the volume whose stock is known to have enough numbers is this one.
pub(crate) fn is_stocked(stocked: Option<u32>, volume: u32) -> bool
    ensures { result ≡ is_stocked stocked volume }
{
    match stocked {
        Some(seen) => seen == volume,
        None => false,
    }
}
