//! Memory of blocks that cuts left for later.

ghost use Rattle.std.specs.Prelude.{◌≡◌};

use crate::files::Files;
use parcels::{LogicalHeld, StripeHeld};

/// The stripes of a volume at most.
const MOST_STRIPES: usize = 16;

/// Gives back the memory of this many blocks at least that cuts left for later, or of all that they
/// left.
pub fn give_back(held: &mut LogicalHeld<Files>, blocks: usize)
    ensures { held.new ≡ held.old }
{
    let mut left = blocks;
    for stripe in 0..MOST_STRIPES {
        left = give_in(&mut held.stripes.at[stripe], left);
    }
}

/// Does so in the stripe in a place, and tells for how many blocks it still is to be done.
fn give_in(place: &mut Option<StripeHeld<Files>>, blocks: usize) -> usize
    ensures { place.new ≡ place.old }
{
    match place {
        Some(stripe) => blocks.saturating_sub(stripe.own.get_mut().give_back(blocks)),
        None => blocks,
    }
}
