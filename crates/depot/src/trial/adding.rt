//! A machine for tests and measurements: each parcel is a number, and a call adds to its node's, or
//! leaves it.

ghost use Rattle.std.specs.Prelude.{◌≡◌, ◌+◌, ◌≤◌, true, [], Option, IfOk, IfSome};
ghost use Rattle.nfs_model.specs.Tree as trees;
ghost use Rattle.affinity.specs.Layout.{layout_of};
ghost use Rattle.parcels.specs.Exact.{kind_in, HasExactly};
ghost use Rattle.parcels.specs.Sets.{serial_parcels};
ghost use Rattle.affinity.specs.Affinity.{affinity_of};
ghost use Rattle.affinity.specs.Tree.{IsNode};
ghost use Rattle.depot.specs.Grants.{HasWith, HasInHand};
ghost use Rattle.depot.specs.declared.trial.adding.Change.TheVariants as changes;
ghost use Rattle.depot.specs.Words.{layout_in, IsSeatHere, IsNodeOf, all_parcels};
ghost use Rattle.depot.specs.Words.{machine_of, view, node_of, number_in, parcels_in, IsWhole};
ghost use Rattle.depot.specs.trial.Adding.{AreEach};

use crate::{Depot, Grant, Seat};
use affinity::{Affinity, AggregateSpec, Kind, Layout, VolumeSpec};
use depot_rule::machine::Machine;
use parcels::{Node, Numbers, Parcel, SerialHeld, SerialNode, StripeNode, VecShelf};
use std::alloc::{AllocError, Global};

/// A call on the number of its node.
#[derive(Clone, Copy)]
pub enum Change {
    /// Nothing changes, and the reply is 0.
    Touch,
    /// Nothing changes, and the reply is the number.
    Read,
    /// The number becomes the sum, modulo 2^64, which is the reply.
    Add(u64),
}

/// Numbers that calls add to.
pub struct Adding;

impl Machine for Adding {
    ghost use Rattle.depot.specs.trial.Adding.{Changes, changes-local};

    type Parcel = Parcel<Numbers>;

    type Call = Change;

    type Reply = u64;

    type Batch = ();

    ghost steps = { Changes };

    ghost takes = { λ c r. [] };

    ghost gives = { λ c r. [] };

    ghost invariant = { λ parents f hands n. Unit {0} };

    ghost local = { changes-local };

    ghost keeps = { λ parents a c f r f' hands hands' n i s w. tt };
}

/// One aggregate with this many volumes of one range each. Nothing where memory ran out, or with no
/// volume.
pub fn volumes<const N: usize>(alloc: Global) -> Option<Layout>
    requires few { N ≤ 8 }
{
    let aggregates = [AggregateSpec { spare: 0 }];
    let volumes = [VolumeSpec::new(0, 1); N];
    Layout::new(alloc, &aggregates, &volumes).ok()
}

/// The parcels of all nodes of a layout, each the same number.
pub fn all_of(alloc: Global, layout: &Layout, each: u64) -> Result<SerialHeld<Numbers>, AllocError>
    ensures exact { let L = layout_of layout.now in IfOk result (λ held.
        HasExactly kind_in L trees.Serial (all_parcels serial_parcels L held)) }
    ensures numbers { let L = layout_of layout.now in IfOk result (λ held.
        AreEach each (all_parcels serial_parcels L held)) }
{
    let mut shelf = VecShelf::new(alloc, layout.node_count() + 1)?;
    for number in 1..layout.node_count() + 1 {
        let kind = layout.affinity_at(number).kind();
        shelf.parcels[number] = Some(Numbers::parcel(kind, each));
    }
    Ok(<SerialNode as Node<Parcel<Numbers>>>::gather(&mut shelf, layout, Affinity::Serial))
}

/// A depot with this many volumes in which each parcel is 0, and its first seat. Nothing where
/// memory ran out, or with no volume.
pub fn open<const N: usize>(alloc: Global) -> Option<(Depot<Adding>, Seat<Adding>)>
    requires few { N ≤ 8 }
    ensures { IfSome result (λ made. IsSeatHere made.0 made.1) }
{
    let layout = volumes::<N>(alloc)?;
    let Ok(parcels) = all_of(alloc, &layout, 0) else {
        return None;
    };
    match Depot::<Adding>::new::<SerialNode>(alloc, layout, parcels) {
        Ok(made) => Some(made),
        Err(_) => None,
    }
}

/// Two seats of one. Nothing where it has no split left.
pub fn split(depot: &Depot<Adding>, seat: Seat<Adding>) -> Option<(Seat<Adding>, Seat<Adding>)>
    requires seat { IsSeatHere depot.now seat }
    ensures first { IfSome result (λ two. IsSeatHere depot.now two.0) }
    ensures second { IfSome result (λ two. IsSeatHere depot.now two.1) }
{
    match depot.split_seat(seat) {
        Ok(two) => Some(two),
        Err(_) => None,
    }
}

/// Whether an affinity is a node of a depot's layout, and of this kind.
pub(crate) fn is_node_of<M: Machine>(depot: &Depot<M>, kind: Kind, affinity: Affinity) -> bool
    ensures { result ≡ true → IsNodeOf (layout_in depot.now) kind affinity }
{
    if affinity.kind() != kind {
        return false;
    }
    depot.layout().contains(affinity)
}

/// The number of a stripe, by a call of its own. Nothing where the call wasn't granted.
pub fn read(depot: &Depot<Adding>, seat: &mut Seat<Adding>, affinity: Affinity) -> Option<u64>
    requires seat { IsSeatHere depot.now seat.old }
    ensures seat { IsSeatHere depot.now seat.new }
{
    if !is_node_of(depot, Kind::Stripe, affinity) {
        return None;
    }
    match depot.begin::<StripeNode>(seat, affinity) {
        Ok(mut grant) => {
            let found = grant.held().own;
            depot.finish(seat, grant, &Change::Read, &found);
            Some(found)
        }
        Err(_) => None,
    }
}

/// A call that adds to the parcel of a stripe. The sum, where it was granted.
pub fn add(
    depot: &Depot<Adding>,
    seat: &mut Seat<Adding>,
    affinity: Affinity,
    number: u64,
) -> Option<u64>
    requires seat { IsSeatHere depot.now seat.old }
    ensures seat { IsSeatHere depot.now seat.new }
{
    if !is_node_of(depot, Kind::Stripe, affinity) {
        return None;
    }
    match depot.begin::<StripeNode>(seat, affinity) {
        Ok(mut grant) => {
            let held = grant.held();
            held.own = held.own.wrapping_add(number);
            let sum = held.own;
            depot.finish(seat, grant, &Change::Add(number), &sum);
            Some(sum)
        }
        Err(_) => None,
    }
}

/// Begins a call on a node and, if it is granted, finishes it: nothing changes. Whether it was
/// granted.
pub fn touch<N: Node<Parcel<Numbers>>>(
    depot: &Depot<Adding>,
    seat: &mut Seat<Adding>,
    affinity: Affinity,
) -> bool
    requires seat { IsSeatHere depot.now seat.old }
    requires node { IsNodeOf (layout_in depot.now) N.KIND affinity }
    ensures seat { IsSeatHere depot.now seat.new }
{
    match depot.begin::<N>(seat, affinity) {
        Ok(grant) => {
            depot.finish(seat, grant, &Change::Touch, &0_u64);
            true
        }
        Err(_) => false,
    }
}

/// This many calls of a seat on a node, one after another. How many were granted; none at a node of
/// another kind, or one that isn't there.
pub fn touches<N: Node<Parcel<Numbers>>>(
    depot: &Depot<Adding>,
    mut seat: Seat<Adding>,
    affinity: Affinity,
    count: u32,
) -> u32
    requires seat { IsSeatHere depot.now seat }
    ensures most { result ≤ count }
{
    if !is_node_of(depot, N::KIND, affinity) {
        return 0;
    }
    let mut refused = 0;
    for _call in 0..count {
        if !touch::<N>(depot, &mut seat, affinity) {
            refused += 1;
        }
    }
    count - refused
}

/// Ends a call that changes nothing, and begins one on the same node with the same grant. Whether
/// it did.
fn touch_again<N: Node<Parcel<Numbers>>>(
    depot: &Depot<Adding>,
    seat: &mut Seat<Adding>,
    grant: &Grant<Parcel<Numbers>, N>,
) -> bool
    requires seat { IsSeatHere depot.now seat.old }
    requires node { IsNode (layout_in depot.now) (affinity_of (node_of grant.now)) }
    requires exact { IsWhole kind_in N.parcels (layout_in depot.now) grant.now }
    requires granted { let L = layout_in depot.now in
        HasWith (view seat.old) (number_in L grant.now) (parcels_in N.parcels L grant.now) }
    requires hand { HasInHand (machine_of seat.old) (view seat.old) changes.Touch 0 }
    ensures seat { IsSeatHere depot.now seat.new }
    ensures granted { let L = layout_in depot.now in
        HasWith (view seat.new) (number_in L grant.now) (parcels_in N.parcels L grant.now) }
    ensures hand { HasInHand (machine_of seat.old) (view seat.new) changes.Touch 0 }
{
    match depot.go_on::<N, Change, u64>(seat, grant, &Change::Touch, &0) {
        Ok(()) => true,
        Err(_) => false,
    }
}

/// Begins a call on a node and, if it is granted, makes this many and one with its grant: nothing
/// changes. How many were made; none at a node of another kind, or one that isn't there.
pub fn touch_on<N: Node<Parcel<Numbers>>>(
    depot: &Depot<Adding>,
    seat: &mut Seat<Adding>,
    affinity: Affinity,
    count: u32,
) -> u32
    requires seat { IsSeatHere depot.now seat.old }
    requires few { count ≤ 1_000_000_000 }
    ensures seat { IsSeatHere depot.now seat.new }
    ensures most { result ≤ count + 1 }
{
    if !is_node_of(depot, N::KIND, affinity) {
        return 0;
    }
    let grant = match depot.begin::<N>(seat, affinity) {
        Ok(grant) => grant,
        Err(_) => return 0,
    };
    let mut refused = 0;
    for _call in 0..count {
        if !touch_again::<N>(depot, seat, &grant) {
            refused += 1;
        }
    }
    depot.finish(seat, grant, &Change::Touch, &0_u64);
    count - refused + 1
}
