//! What follows from the rule, for any seats, grants and schedule.

ghost use Rattle.depot_rule.specs.History.{behaviour};
ghost use Rattle.depot_rule.specs.Laws.{GrantsAreApart, ParcelsArePlaced, ParcelsAreSingle};
ghost use Rattle.depot_rule.specs.Laws.{GrantsHaveEntered, ExclusiveIsGranted, OpensWithin};
ghost use Rattle.depot_rule.specs.Laws.{ClosesWhole, HistoryIsOne, OnlySeatHasAll};
ghost use Rattle.depot_rule.specs.Laws.{PutInElsewhere, StaysElsewhere};

use crate::machine::Machine;

/// No two grants exclude each other.
pub fn grants_are_apart<P, E>()
    ensures { GrantsAreApart P E }
{}

/// Each parcel is at home or under a grant.
pub fn parcels_are_placed<P, E>()
    ensures { ParcelsArePlaced P E }
{}

/// No two seats have the same parcel.
pub fn parcels_are_single<P, E>()
    ensures { ParcelsAreSingle P E }
{}

/// A grant has a share in each word above its node, and none of these is claimed.
pub fn grants_have_entered<P, E>()
    ensures { GrantsHaveEntered P E }
{}

/// A word is exclusive just while its node is granted.
pub fn exclusive_is_granted<P, E>()
    ensures { ExclusiveIsGranted P E }
{}

/// The rule holds of a new depot.
pub fn opens_within<P, E>()
    ensures { OpensWithin P E }
{}

/// At the end all parcels are at home.
pub fn closes_whole<P, E>()
    ensures { ClosesWhole P E }
{}

/// There is one legal history of all seats' calls.
pub fn history_is_one<M: Machine>()
    ensures { HistoryIsOne M.Parcel.kind (behaviour M.steps M.takes M.gives M.invariant) }
{}

/// The only seat has seen the whole history, and made each entry of it.
pub fn only_seat_has_all<M: Machine>()
    ensures { OnlySeatHasAll M.Parcel.kind (behaviour M.steps M.takes M.gives M.invariant) }
{}

/// What a call leaves changes nothing under a node that its own doesn't exclude: the parcels of a
/// call that runs are as in a history to which such calls were added meanwhile.
pub fn parcels_stay_elsewhere<P, C, R>()
    ensures put_in { PutInElsewhere P }
    ensures after { StaysElsewhere P C R }
{}
