//! Seats between two calls.

ghost use Rattle.std.specs.Prelude.{◌≡◌, ◌+◌, length};
ghost use Rattle.depot.specs.Calls.{own_views, known};
ghost use Rattle.depot.specs.Holds.{IsGathered, IsApart};

use crate::table::ViewsOf;
use atomic_table::Badge;
use depot_rule::machine::Machine;

/// The right to make calls on a depot, and what came of them. It runs no call, so it has entered
/// no word but for its grants, and no slot is out with it.
#[derive(Drop)]
pub struct Seat<M: Machine> {
    pub(crate) badge: Badge<ViewsOf<M>>,
    // How many more seats can be split off.
    pub(crate) splits: u8,
    ghost one: { (length badge.views ≡ 1) × (length (own_views badge.views) ≡ 1) },
    ghost idle: { ((known badge.views).unsure ≡ 0) × ((known badge.views).out ≡ 0)
        × (length (known badge.views).path ≡ 0) × ((known badge.views).stamped ≡ 0) },
    pub ghost parts: { (known badge.views).parts ≡ splits + 1 },
    ghost gathered: { IsGathered (known badge.views) },
    ghost apart: { IsApart (known badge.views) },
}

/// A seat from which no seat can be split off any more, as it was.
#[derive(Drop)]
pub struct TooManySeats<M: Machine> {
    pub seat: Seat<M>,
}

impl<M: Machine> TooManySeats<M> {
    /// The number of this refusal, as scripts print it: 23.
    pub fn number(&self) -> u32
        ensures { result ≡ 23 }
    {
        23
    }
}
