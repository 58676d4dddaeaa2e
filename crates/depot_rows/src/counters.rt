//! Calls that add 1 to the number of their node, of whichever kind that is.

ghost use Rattle.std.specs.Prelude.{◌≡◌, ◌++◌, [], ◌∷◌, IfOk, IfErr};
ghost use Rattle.nfs_model.specs.Tree as trees;
ghost use Rattle.parcels.specs.Exact.{HasExactly, kind_in};
ghost use Rattle.depot.specs.Words.{IsSeatHere};
ghost use Rattle.depot_rows.specs.Counting.{AddsOne, HasSeenAsMuch, made_by};

use affinity::{Affinity, Kind};
use depot::trial::adding::{Adding, Change};
use depot::{Depot, GrantRefusal, Seat};
use parcels::{
    AggrHeld, AggregateNode, LogicalHeld, LogicalNode, Node, Numbers, Parcel, RangeHeld, RangeNode,
    SerialHeld, SerialNode, StripeHeld, StripeNode, VbnHeld, VbnNode, VolumeHeld, VolumeNode,
};
use std::thread;

/// A call that is finished: the number of its node, what it added, and the sum.
pub(crate) type Made = (u64, u64, u64);

/// What came of a call that wasn't finished.
#[derive(Clone, Copy, PartialEq, Eq)]
pub(crate) enum Found {
    Granted,
    /// The node whose word refused.
    Busy(Affinity),
    Other,
}

/// Counts up the number of a kind of node.
pub(crate) trait Counter<N: Node<Parcel<Numbers>>> {
    /// Adds 1 to the node's own number, modulo 2^64, and gives the sum.
    fn add_one(held: &mut N::Held) -> u64
        ensures exact { (layout : trees.Layout) (node : trees.Affinity)
            → HasExactly kind_in layout node (N.parcels layout node held.old)
            → HasExactly kind_in layout node (N.parcels layout node held.new) }
        ensures added { (layout : trees.Layout) (node : trees.Affinity)
            → AddsOne layout node (N.parcels layout node held.old) result
            (N.parcels layout node held.new) };
}

/// Counts by one.
#[derive(Clone, Copy)]
pub(crate) struct One;

impl Counter<RangeNode> for One {
    fn add_one(held: &mut RangeHeld<Numbers>) -> u64 {
        held.own = held.own.wrapping_add(1);
        held.own
    }
}

impl Counter<VbnNode> for One {
    fn add_one(held: &mut VbnHeld<Numbers>) -> u64 {
        held.own = held.own.wrapping_add(1);
        held.own
    }
}

impl Counter<StripeNode> for One {
    fn add_one(held: &mut StripeHeld<Numbers>) -> u64 {
        held.own = held.own.wrapping_add(1);
        held.own
    }
}

impl Counter<LogicalNode> for One {
    fn add_one(held: &mut LogicalHeld<Numbers>) -> u64 {
        held.own = held.own.wrapping_add(1);
        held.own
    }
}

impl Counter<VolumeNode> for One {
    fn add_one(held: &mut VolumeHeld<Numbers>) -> u64 {
        held.own = held.own.wrapping_add(1);
        held.own
    }
}

impl Counter<AggregateNode> for One {
    fn add_one(held: &mut AggrHeld<Numbers>) -> u64 {
        held.own = held.own.wrapping_add(1);
        held.own
    }
}

impl Counter<SerialNode> for One {
    fn add_one(held: &mut SerialHeld<Numbers>) -> u64 {
        held.own = held.own.wrapping_add(1);
        held.own
    }
}

/// A call on a node of a kind, in whose midst other threads may run. Where its grant is kept for
/// good, it was refused, or there is no such node, the seat has then seen and made what it had.
pub(crate) fn attempt<N: Node<Parcel<Numbers>>, C: Counter<N>>(
    depot: &Depot<Adding>,
    seat: &mut Seat<Adding>,
    affinity: Affinity,
    is_kept: bool,
) -> Result<Made, Found>
    requires seat { IsSeatHere depot.now seat.old }
    ensures seat { IsSeatHere depot.now seat.new }
    ensures made { IfOk result (λ made. made_by seat.new ≡ made_by seat.old ++ made ∷ []) }
    ensures refused { IfErr result (λ _. HasSeenAsMuch seat.old seat.new) }
{
    if affinity.kind() != N::KIND {
        return Err(Found::Other);
    }
    if !depot.layout().contains(affinity) {
        return Err(Found::Other);
    }
    match depot.begin::<N>(seat, affinity) {
        Ok(mut grant) => {
            if is_kept {
                return Err(Found::Granted);
            }
            thread::yield_now();
            let sum = C::add_one(grant.held());
            depot.finish(seat, grant, &Change::Add(1), &sum);
            let node = depot.layout().number_of(affinity) as u64;
            Ok((node, 1, sum))
        }
        Err(GrantRefusal::Busy { node, word: _ }) => Err(Found::Busy(node)),
        Err(GrantRefusal::Worn) => Err(Found::Other),
    }
}

/// A call on a node of any kind.
pub(crate) fn attempt_any(
    depot: &Depot<Adding>,
    seat: &mut Seat<Adding>,
    affinity: Affinity,
    is_kept: bool,
) -> Result<Made, Found>
    requires seat { IsSeatHere depot.now seat.old }
    ensures seat { IsSeatHere depot.now seat.new }
    ensures made { IfOk result (λ made. made_by seat.new ≡ made_by seat.old ++ made ∷ []) }
    ensures refused { IfErr result (λ _. HasSeenAsMuch seat.old seat.new) }
{
    match affinity.kind() {
        Kind::Range => attempt::<RangeNode, One>(depot, seat, affinity, is_kept),
        Kind::VolumeVbn => attempt::<VbnNode, One>(depot, seat, affinity, is_kept),
        Kind::Stripe => attempt::<StripeNode, One>(depot, seat, affinity, is_kept),
        Kind::VolumeLogical => attempt::<LogicalNode, One>(depot, seat, affinity, is_kept),
        Kind::Volume => attempt::<VolumeNode, One>(depot, seat, affinity, is_kept),
        Kind::Aggregate => attempt::<AggregateNode, One>(depot, seat, affinity, is_kept),
        Kind::Serial => attempt::<SerialNode, One>(depot, seat, affinity, is_kept),
    }
}
