//! A depot with its only seat.

ghost use Rattle.std.specs.Prelude.{◌≡◌};
ghost use Rattle.depot.specs.Words.{splits_left, IsSeatHere};

use crate::kinds::NodeKinds;
use crate::slot::Slot;
use depot::{Depot, Seat};
use depot_rule::machine::Machine;

/// A depot with its only seat, whose grants are lent to workers.
#[derive(Drop)]
pub struct Desk<M: Machine, K: NodeKinds<M::Parcel>> {
    pub(crate) depot: Depot<M>,
    pub(crate) seat: Seat<M>,
    // By worker.
    pub(crate) slots: Vec<Slot<M::Parcel, K>>,
    pub ghost here: { IsSeatHere depot seat },
    pub ghost only: { splits_left seat ≡ 63 },
}
