//! Grants of nodes of one kind, begun and ended.

ghost use Rattle.std.specs.Prelude.{◌≡◌, IfOk, OnOk, IfErr};
ghost use Rattle.affinity.specs.Affinity.{affinity_of};
ghost use Rattle.affinity.specs.Numbers.{number_of};
ghost use Rattle.depot.specs.Grants.{entry_of, IsEnded, IsFinished, IsRefused, IsLast};
ghost use Rattle.depot.specs.declared.grants.GrantRefusal.TheVariants.{Worn};
ghost use Rattle.depot.specs.Words.{machine_of, layout_in, view, splits_left, IsSeatHere, IsNodeOf};
ghost use Rattle.desk.specs.laws.Backing.{IsGranted, CanFinish, CanPutBack, HasGoneOn};
ghost use Rattle.desk.specs.Any.{node_lent};

use crate::grant::NodeGrant;
use affinity::Affinity;
use depot::{Depot, Entered, GrantRefusal, Seat};
use depot_rule::machine::Machine;
use parcels::Node;

/// Begins a call on a node of one kind.
#[inline(never)]
pub fn begin_node<M: Machine, N: Node<M::Parcel>>(
    depot: &Depot<M>,
    seat: &mut Seat<M>,
    affinity: Affinity,
) -> Result<NodeGrant<M::Parcel, N>, GrantRefusal>
    requires seat { IsSeatHere depot.now seat.old }
    requires node { IsNodeOf (layout_in depot.now) N.KIND affinity }
    ensures seat { IsSeatHere depot.now seat.new }
    ensures splits { splits_left seat.new ≡ splits_left seat.old }
    ensures granted { let L = layout_in depot.now in IfOk result (λ grant.
        IsGranted M.Parcel.kind (machine_of seat.old) L (view seat.old) (affinity_of affinity)
        (node_lent L grant) (view seat.new)) }
    ensures refused { IfErr result (λ refusal.
        IsRefused (layout_in depot.now) (view seat.old) affinity refusal (view seat.new)) }
{
    let grant = depot.begin::<N>(seat, affinity)?;
    Ok(NodeGrant { grant })
}

/// Ends a call on a node of one kind by an entry.
#[inline(never)]
pub fn finish_node<M: Machine, N: Node<M::Parcel>, C: Entered<M::Call>, A: Entered<M::Reply>>(
    depot: &Depot<M>,
    seat: &mut Seat<M>,
    node: NodeGrant<M::Parcel, N>,
    call: &C,
    reply: &A,
)
    requires seat { IsSeatHere depot.now seat.old }
    requires can { let L = layout_in depot.now in
        CanFinish M.Parcel.kind (machine_of seat.old) L (view seat.old) (node_lent L node)
        (C.entered call.now) (A.entered reply.now) }
    ensures seat { IsSeatHere depot.now seat.new }
    ensures splits { splits_left seat.new ≡ splits_left seat.old }
    ensures finished { let L = layout_in depot.now in let l = node_lent L node in
        IsFinished (machine_of seat.old) (view seat.old) (number_of L l.affinity)
        (entry_of L l.affinity l.parcels (C.entered call.now) (A.entered reply.now))
        (view seat.new) }
{
    depot.finish(seat, node.grant, call, reply);
}

/// Ends a call on a node of one kind by an entry, and begins one on the same node, which has its
/// parcels. Where the ticket is worn, or this entry would wear it, the call is as it was.
#[inline(never)]
pub fn go_on_node<M: Machine, N: Node<M::Parcel>, C: Entered<M::Call>, A: Entered<M::Reply>>(
    depot: &Depot<M>,
    seat: &mut Seat<M>,
    node: &NodeGrant<M::Parcel, N>,
    call: &C,
    reply: &A,
) -> Result<(), GrantRefusal>
    requires seat { IsSeatHere depot.now seat.old }
    requires can { let L = layout_in depot.now in
        CanFinish M.Parcel.kind (machine_of seat.old) L (view seat.old) (node_lent L node.now)
        (C.entered call.now) (A.entered reply.now) }
    ensures seat { IsSeatHere depot.now seat.new }
    ensures splits { splits_left seat.new ≡ splits_left seat.old }
    ensures gone_on { let L = layout_in depot.now in OnOk result
        (HasGoneOn M.Parcel.kind (machine_of seat.old) L (view seat.old) (node_lent L node.now)
        (C.entered call.now) (A.entered reply.now) (view seat.new)) }
    ensures refused { IfErr result (λ refusal.
        (refusal ≡ Worn) × IsLast (view seat.old) (view seat.new)) }
{
    depot.go_on(seat, &node.grant, call, reply)?;
    Ok(())
}

/// Ends a call on a node of one kind without an entry.
#[inline(never)]
pub fn put_back_node<M: Machine, N: Node<M::Parcel>>(
    depot: &Depot<M>,
    seat: &mut Seat<M>,
    node: NodeGrant<M::Parcel, N>,
)
    requires seat { IsSeatHere depot.now seat.old }
    requires can { let L = layout_in depot.now in
        CanPutBack L (view seat.old) (node_lent L node) }
    ensures seat { IsSeatHere depot.now seat.new }
    ensures splits { splits_left seat.new ≡ splits_left seat.old }
    ensures ended { let L = layout_in depot.now in
        IsEnded (view seat.old) (number_of L (node_lent L node).affinity) (view seat.new) }
{
    depot.put_back(seat, node.grant);
}
