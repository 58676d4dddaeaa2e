//! Grants of nodes of any kind, begun and ended in a worker's slot.

ghost use Rattle.std.specs.Prelude.{◌≡◌, Some, None, OnOk, IfErr, IsSomeAnd};
ghost use Rattle.affinity.specs.Affinity.{affinity_of, call_affinity, call_node};
ghost use Rattle.affinity.specs.Numbers.{number_of};
ghost use Rattle.affinity.specs.Tree.{IsNode};
ghost use Rattle.depot.specs.Grants.{entry_of, IsEnded, IsFinished, IsRefused};
ghost use Rattle.depot.specs.Words.{machine_of, layout_in, view, splits_left};
ghost use Rattle.depot.specs.Words.{IsSeatHere, IsNodeOf};
ghost use Rattle.desk.specs.laws.Backing.{IsGranted, CanFinish, CanPutBack};
ghost use Rattle.desk.specs.Any.{small_lent, large_lent};
ghost use Rattle.desk.specs.Slots.{granted};

use crate::grant::{LargeGrant, SmallGrant};
use crate::kinds::NodeKinds;
use crate::nodes::{begin_node, finish_node, put_back_node};
use crate::putting::{put_large, put_small};
use crate::slot::Slot;
use affinity::{Affinity, CallNode};
use depot::{Depot, Entered, GrantRefusal, Seat};
use depot_rule::machine::Machine;

/// Begins a call on an aggregate. It isn't inlined: else each begin would fill the room of such a
/// grant.
#[inline(never)]
fn begin_aggregate<M: Machine, K: NodeKinds<M::Parcel>>(
    depot: &Depot<M>,
    seat: &mut Seat<M>,
    affinity: Affinity,
    slot: &mut Slot<M::Parcel, K>,
) -> Result<(), GrantRefusal>
    requires seat { IsSeatHere depot.now seat.old }
    requires node { IsNodeOf (layout_in depot.now) K.Aggregate.KIND affinity }
    requires idle { granted slot.old ≡ None }
    ensures seat { IsSeatHere depot.now seat.new }
    ensures splits { splits_left seat.new ≡ splits_left seat.old }
    ensures granted { let L = layout_in depot.now in OnOk result ((lends : _)
        × (granted slot.new ≡ Some lends)
        × IsGranted M.Parcel.kind (machine_of seat.old) L (view seat.old) (affinity_of affinity)
        (lends L) (view seat.new)) }
    ensures refused { IfErr result (λ refusal.
        IsRefused (layout_in depot.now) (view seat.old) affinity refusal (view seat.new)) }
    ensures idle { IfErr result (λ refusal. granted slot.new ≡ None) }
{
    let node = begin_node::<M, K::Aggregate>(depot, seat, affinity)?;
    put_large(slot, LargeGrant::Aggregate(node));
    Ok(())
}

/// Begins a call on the whole tree. It isn't inlined: else each begin would fill the room of such a
/// grant.
#[inline(never)]
fn begin_serial<M: Machine, K: NodeKinds<M::Parcel>>(
    depot: &Depot<M>,
    seat: &mut Seat<M>,
    affinity: Affinity,
    slot: &mut Slot<M::Parcel, K>,
) -> Result<(), GrantRefusal>
    requires seat { IsSeatHere depot.now seat.old }
    requires node { IsNodeOf (layout_in depot.now) K.Serial.KIND affinity }
    requires idle { granted slot.old ≡ None }
    ensures seat { IsSeatHere depot.now seat.new }
    ensures splits { splits_left seat.new ≡ splits_left seat.old }
    ensures granted { let L = layout_in depot.now in OnOk result ((lends : _)
        × (granted slot.new ≡ Some lends)
        × IsGranted M.Parcel.kind (machine_of seat.old) L (view seat.old) (affinity_of affinity)
        (lends L) (view seat.new)) }
    ensures refused { IfErr result (λ refusal.
        IsRefused (layout_in depot.now) (view seat.old) affinity refusal (view seat.new)) }
    ensures idle { IfErr result (λ refusal. granted slot.new ≡ None) }
{
    let node = begin_node::<M, K::Serial>(depot, seat, affinity)?;
    put_large(slot, LargeGrant::Serial(node));
    Ok(())
}

/// Begins a call on a node of whichever kind. Its grant is made in an idle worker's slot, where it
/// stays. A refusal leaves the worker idle.
pub(crate) fn begin_in<M: Machine, K: NodeKinds<M::Parcel>>(
    depot: &Depot<M>,
    seat: &mut Seat<M>,
    home: CallNode,
    slot: &mut Slot<M::Parcel, K>,
) -> Result<(), GrantRefusal>
    requires seat { IsSeatHere depot.now seat.old }
    requires node { IsNode (layout_in depot.now) (call_node home) }
    requires idle { granted slot.old ≡ None }
    ensures seat { IsSeatHere depot.now seat.new }
    ensures splits { splits_left seat.new ≡ splits_left seat.old }
    ensures granted { let L = layout_in depot.now in OnOk result ((lends : _)
        × (granted slot.new ≡ Some lends)
        × IsGranted M.Parcel.kind (machine_of seat.old) L (view seat.old) (call_node home)
        (lends L) (view seat.new)) }
    ensures refused { IfErr result (λ refusal. IsRefused (layout_in depot.now) (view seat.old)
        (call_affinity home) refusal (view seat.new)) }
    ensures idle { IfErr result (λ refusal. granted slot.new ≡ None) }
{
    match home {
        CallNode::Stripe { volume, stripe } => {
            let affinity = Affinity::Stripe { volume, stripe };
            let node = begin_node::<M, K::Stripe>(depot, seat, affinity)?;
            put_small(slot, SmallGrant::Stripe(node));
        }
        CallNode::Logical(volume) => {
            let affinity = Affinity::VolumeLogical(volume);
            let node = begin_node::<M, K::Logical>(depot, seat, affinity)?;
            put_small(slot, SmallGrant::Logical(node));
        }
        CallNode::Volume(volume) => {
            let node = begin_node::<M, K::Volume>(depot, seat, Affinity::Volume(volume))?;
            put_small(slot, SmallGrant::Volume(node));
        }
        CallNode::Aggregate(aggregate) => {
            begin_aggregate(depot, seat, Affinity::Aggregate(aggregate), slot)?;
        }
        CallNode::Serial => begin_serial(depot, seat, Affinity::Serial, slot)?,
    }
    Ok(())
}

/// Ends a call on a volume or below one by an entry, with its parcels as they are.
fn finish_small<M: Machine, K: NodeKinds<M::Parcel>, C: Entered<M::Call>, A: Entered<M::Reply>>(
    depot: &Depot<M>,
    seat: &mut Seat<M>,
    grant: SmallGrant<M::Parcel, K>,
    call: &C,
    reply: &A,
)
    requires seat { IsSeatHere depot.now seat.old }
    requires can { let L = layout_in depot.now in
        CanFinish M.Parcel.kind (machine_of seat.old) L (view seat.old) (small_lent grant L)
        (C.entered call.now) (A.entered reply.now) }
    ensures seat { IsSeatHere depot.now seat.new }
    ensures splits { splits_left seat.new ≡ splits_left seat.old }
    ensures finished { let L = layout_in depot.now in let l = small_lent grant L in
        IsFinished (machine_of seat.old) (view seat.old) (number_of L l.affinity)
        (entry_of L l.affinity l.parcels (C.entered call.now) (A.entered reply.now))
        (view seat.new) }
{
    match grant {
        SmallGrant::Stripe(node) => finish_node::<M, K::Stripe, C, A>(
            depot, seat, node, call, reply,
        ),
        SmallGrant::Logical(node) => finish_node::<M, K::Logical, C, A>(
            depot, seat, node, call, reply,
        ),
        SmallGrant::Volume(node) => finish_node::<M, K::Volume, C, A>(
            depot, seat, node, call, reply,
        ),
    }
}

/// Ends a call on a node with volumes below it by an entry, with its parcels as they are.
#[inline(never)]
fn finish_large<M: Machine, K: NodeKinds<M::Parcel>, C: Entered<M::Call>, A: Entered<M::Reply>>(
    depot: &Depot<M>,
    seat: &mut Seat<M>,
    grant: LargeGrant<M::Parcel, K>,
    call: &C,
    reply: &A,
)
    requires seat { IsSeatHere depot.now seat.old }
    requires can { let L = layout_in depot.now in
        CanFinish M.Parcel.kind (machine_of seat.old) L (view seat.old) (large_lent grant L)
        (C.entered call.now) (A.entered reply.now) }
    ensures seat { IsSeatHere depot.now seat.new }
    ensures splits { splits_left seat.new ≡ splits_left seat.old }
    ensures finished { let L = layout_in depot.now in let l = large_lent grant L in
        IsFinished (machine_of seat.old) (view seat.old) (number_of L l.affinity)
        (entry_of L l.affinity l.parcels (C.entered call.now) (A.entered reply.now))
        (view seat.new) }
{
    match grant {
        LargeGrant::Aggregate(node) => finish_node::<M, K::Aggregate, C, A>(
            depot, seat, node, call, reply,
        ),
        LargeGrant::Serial(node) => finish_node::<M, K::Serial, C, A>(
            depot, seat, node, call, reply,
        ),
    }
}

/// Ends a worker's call by an entry, with its parcels as they are. Its slot has a grant.
pub(crate) fn finish_in<
    M: Machine,
    K: NodeKinds<M::Parcel>,
    C: Entered<M::Call>,
    A: Entered<M::Reply>,
>(depot: &Depot<M>, seat: &mut Seat<M>, slot: &mut Slot<M::Parcel, K>, call: &C, reply: &A)
    requires seat { IsSeatHere depot.now seat.old }
    requires can { let L = layout_in depot.now in IsSomeAnd (granted slot.old) (λ lends.
        CanFinish M.Parcel.kind (machine_of seat.old) L (view seat.old) (lends L)
        (C.entered call.now) (A.entered reply.now)) }
    ensures seat { IsSeatHere depot.now seat.new }
    ensures splits { splits_left seat.new ≡ splits_left seat.old }
    ensures finished { let L = layout_in depot.now in IsSomeAnd (granted slot.old) (λ lends.
        IsFinished (machine_of seat.old) (view seat.old) (number_of L (lends L).affinity)
        (entry_of L (lends L).affinity (lends L).parcels
        (C.entered call.now) (A.entered reply.now)) (view seat.new)) }
    ensures idle { granted slot.new ≡ None }
{
    match slot.small.take() {
        Some(grant) => finish_small(depot, seat, grant, call, reply),
        None => match slot.large.take() {
            Some(grant) => finish_large(depot, seat, grant, call, reply),
            None => {}
        },
    }
}

/// Ends a call on a volume or below one without an entry. Its parcels have to be as they were
/// granted.
fn put_back_small<M: Machine, K: NodeKinds<M::Parcel>>(
    depot: &Depot<M>,
    seat: &mut Seat<M>,
    grant: SmallGrant<M::Parcel, K>,
)
    requires seat { IsSeatHere depot.now seat.old }
    requires can { let L = layout_in depot.now in
        CanPutBack L (view seat.old) (small_lent grant L) }
    ensures seat { IsSeatHere depot.now seat.new }
    ensures splits { splits_left seat.new ≡ splits_left seat.old }
    ensures ended { let L = layout_in depot.now in
        IsEnded (view seat.old) (number_of L (small_lent grant L).affinity) (view seat.new) }
{
    match grant {
        SmallGrant::Stripe(node) => put_back_node::<M, K::Stripe>(depot, seat, node),
        SmallGrant::Logical(node) => put_back_node::<M, K::Logical>(depot, seat, node),
        SmallGrant::Volume(node) => put_back_node::<M, K::Volume>(depot, seat, node),
    }
}

/// Ends a call on a node with volumes below it without an entry. Its parcels have to be as they
/// were granted.
#[inline(never)]
fn put_back_large<M: Machine, K: NodeKinds<M::Parcel>>(
    depot: &Depot<M>,
    seat: &mut Seat<M>,
    grant: LargeGrant<M::Parcel, K>,
)
    requires seat { IsSeatHere depot.now seat.old }
    requires can { let L = layout_in depot.now in
        CanPutBack L (view seat.old) (large_lent grant L) }
    ensures seat { IsSeatHere depot.now seat.new }
    ensures splits { splits_left seat.new ≡ splits_left seat.old }
    ensures ended { let L = layout_in depot.now in
        IsEnded (view seat.old) (number_of L (large_lent grant L).affinity) (view seat.new) }
{
    match grant {
        LargeGrant::Aggregate(node) => put_back_node::<M, K::Aggregate>(depot, seat, node),
        LargeGrant::Serial(node) => put_back_node::<M, K::Serial>(depot, seat, node),
    }
}

/// Ends a worker's call without an entry. Its slot has a grant, whose parcels have to be as they
/// were granted.
pub(crate) fn put_back_in<M: Machine, K: NodeKinds<M::Parcel>>(
    depot: &Depot<M>,
    seat: &mut Seat<M>,
    slot: &mut Slot<M::Parcel, K>,
)
    requires seat { IsSeatHere depot.now seat.old }
    requires can { let L = layout_in depot.now in IsSomeAnd (granted slot.old) (λ lends.
        CanPutBack L (view seat.old) (lends L)) }
    ensures seat { IsSeatHere depot.now seat.new }
    ensures splits { splits_left seat.new ≡ splits_left seat.old }
    ensures ended { let L = layout_in depot.now in IsSomeAnd (granted slot.old) (λ lends.
        IsEnded (view seat.old) (number_of L (lends L).affinity) (view seat.new)) }
    ensures idle { granted slot.new ≡ None }
{
    match slot.small.take() {
        Some(grant) => put_back_small(depot, seat, grant),
        None => match slot.large.take() {
            Some(grant) => put_back_large(depot, seat, grant),
            None => {}
        },
    }
}
