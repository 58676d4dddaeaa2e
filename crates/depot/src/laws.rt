//! What follows for a seat between two calls. The functions do nothing: their contracts are
//! theorems.

ghost use Rattle.std.specs.Prelude.{◌≡◌, ◌<◌, ℕ};
ghost use Rattle.depot_rule.specs.Shares.{shares, grant_shares};
ghost use Rattle.depot.specs.Holds.{IsApart};
ghost use Rattle.depot.specs.Words.{view};

use crate::seats::Seat;
use depot_rule::machine::Machine;

/// Between calls a seat has in each node's word what its open grants have added to it, and no more.
pub fn seats_share_by_grants<M: Machine>(seat: &Seat<M>)
    ensures { (a : ℕ) → 0 < a → shares a (view seat.now) ≡ grant_shares a (view seat.now) }
{
    let _ = seat;
}

/// No grant of a seat excludes another.
pub fn grants_of_a_seat_are_apart<M: Machine>(seat: &Seat<M>)
    ensures { IsApart (view seat.now) }
{
    let _ = seat;
}
