//! Calls on a depot, from begin to finish.

ghost use Rattle.std.specs.Prelude.{◌≡◌};

use crate::claiming::try_claim;
use crate::depot::Depot;
use crate::entered::Entered;
use crate::grants::{Grant, GrantRefusal};
use crate::hold::Hold;
use crate::homing::{give_home, stamp_call};
use crate::plays::Look;
use crate::seats::Seat;
use crate::stamps::renew;
use crate::table::TableSeat;
use affinity::Affinity;
use atomic_table::Badge;
use depot_rule::machine::Machine;
use parcels::Node;
use std::marker::Brand;
use std::mem;

/// A ticket at which a call doesn't begin.
const WORN: u64 = 1 << 62;

impl<M: Machine> Depot<M> {
    ghost use Rattle.std.specs.Prelude.{IfOk, OnOk, IfErr};
    ghost use Rattle.affinity.specs.Affinity.{affinity_of};
    ghost use Rattle.affinity.specs.Tree.{IsNode};
    ghost use Rattle.depot.specs.Grants.{HasWith, IsBegun, IsAfter, IsStep, HasInHand};
    ghost use Rattle.depot.specs.Grants.{IsEnded, IsFinished, IsRefused, IsLast, HasGoneOn};
    ghost use Rattle.depot.specs.declared.grants.GrantRefusal.TheVariants.{Worn};
    ghost use Rattle.depot.specs.Words.{machine_of, layout_in, view, splits_left};
    ghost use Rattle.depot.specs.Words.{IsSeatHere, IsNodeOf};
    ghost use Rattle.depot.specs.Words.{node_of, number_in, parcels_in, entry_with, IsWhole};

    /// Begins a call on a node of the layout: its parcels and those below it are granted, or a word
    /// refuses. It waits for nobody, and takes no memory.
    pub fn begin<N: Node<M::Parcel>>(
        &self,
        seat: &mut Seat<M>,
        affinity: Affinity,
    ) -> Result<Grant<M::Parcel, N>, GrantRefusal>
        requires seat { IsSeatHere self.now seat.old }
        requires node { IsNodeOf (layout_in self.now) N.KIND affinity }
        ensures seat { IsSeatHere self.now seat.new }
        ensures splits { splits_left seat.new ≡ splits_left seat.old }
        ensures node { IfOk result (λ grant. node_of grant ≡ affinity) }
        ensures exact { IfOk result (IsWhole M.Parcel.kind N.parcels (layout_in self.now)) }
        ensures granted { let L = layout_in self.now in IfOk result (λ grant.
            IsBegun (view seat.old) (number_in L grant) (parcels_in N.parcels L grant)
            (view seat.new)) }
        ensures after { let L = layout_in self.now in IfOk result (λ grant.
            IsAfter (machine_of seat.old)
            (view seat.old) (number_in L grant) (parcels_in N.parcels L grant)) }
        ensures refused { IfErr result (λ refusal.
            IsRefused (layout_in self.now) (view seat.old) affinity refusal (view seat.new)) }
    {
        let board = &self.table.shared;
        let mut place: TableSeat<M> = mem::replace(&mut seat.badge, Badge::blank()).into_seat();
        let ticket = board.load::<Look>(&mut place, 0);
        if ticket >= WORN {
            seat.badge = place.into_badge();
            return Err(GrantRefusal::Worn);
        }
        let node = self.layout.number_of(affinity);
        match try_claim(board, &mut place, &self.parents, node) {
            Ok(()) => {
                let mut hold = Hold { board, place, node };
                let held = N::gather(&mut hold, &self.layout, affinity);
                let Hold {
                    board: _,
                    place,
                    node: _,
                } = hold;
                seat.badge = place.into_badge();
                Ok(Grant { affinity, held })
            }
            Err(busy) => {
                seat.badge = place.into_badge();
                Err(GrantRefusal::Busy {
                    node: self.layout.affinity_at(busy.node),
                    word: busy.word,
                })
            }
        }
    }

    /// Ends a call without an entry. Its parcels have to be as they were granted.
    pub fn put_back<N: Node<M::Parcel>>(&self, seat: &mut Seat<M>, grant: Grant<M::Parcel, N>)
        requires seat { IsSeatHere self.now seat.old }
        requires node { IsNodeOf (layout_in self.now) N.KIND (node_of grant) }
        requires as_granted { let L = layout_in self.now in
            HasWith (view seat.old) (number_in L grant) (parcels_in N.parcels L grant) }
        ensures seat { IsSeatHere self.now seat.new }
        ensures splits { splits_left seat.new ≡ splits_left seat.old }
        ensures ended { IsEnded (view seat.old) (number_in (layout_in self.now) grant)
            (view seat.new) }
    {
        let place: TableSeat<M> = mem::replace(&mut seat.badge, Badge::blank()).into_seat();
        let board = &self.table.shared;
        let place = give_home(board, place, &self.layout, &self.parents, grant);
        seat.badge = place.into_badge();
    }

    /// Ends a call: it takes effect by one step, with its parcels as they are then, and after that
    /// its parcels are given home.
    pub fn finish<N: Node<M::Parcel>, C: Entered<M::Call>, A: Entered<M::Reply>>(
        &self,
        seat: &mut Seat<M>,
        grant: Grant<M::Parcel, N>,
        call: &C,
        reply: &A,
    )
        requires seat { IsSeatHere self.now seat.old }
        requires node { IsNode (layout_in self.now) (affinity_of (node_of grant)) }
        requires step { let L = layout_in self.now in
            IsStep (machine_of seat.old)
            (view seat.old) (number_in L grant) (C.entered call.now) (A.entered reply.now)
            (parcels_in N.parcels L grant) }
        requires hand { HasInHand (machine_of seat.old) (view seat.old)
            (C.entered call.now) (A.entered reply.now) }
        requires exact { IsWhole M.Parcel.kind N.parcels (layout_in self.now) grant }
        ensures seat { IsSeatHere self.now seat.new }
        ensures splits { splits_left seat.new ≡ splits_left seat.old }
        ensures finished { let L = layout_in self.now in
            IsFinished (machine_of seat.old)
            (view seat.old) (number_in L grant)
            (entry_with N.parcels L grant (C.entered call.now) (A.entered reply.now))
            (view seat.new) }
    {
        let board = &self.table.shared;
        let mut place: TableSeat<M> = mem::replace(&mut seat.badge, Badge::blank()).into_seat();
        stamp_call::<M, N, C, A, Brand>(board, &mut place, &self.layout, &grant, call, reply);
        let place = give_home(board, place, &self.layout, &self.parents, grant);
        seat.badge = place.into_badge();
    }

    /// Ends a call by one step, with its parcels as they are then, and begins one on the same node,
    /// which has them: the grant stays. It takes no memory, waits for nobody, and moves no parcel.
    /// Where the ticket is worn, or this entry would wear it, the call is as it was, to be
    /// finished.
    pub fn go_on<N: Node<M::Parcel>, C: Entered<M::Call>, A: Entered<M::Reply>>(
        &self,
        seat: &mut Seat<M>,
        grant: &Grant<M::Parcel, N>,
        call: &C,
        reply: &A,
    ) -> Result<(), GrantRefusal>
        requires seat { IsSeatHere self.now seat.old }
        requires node { IsNode (layout_in self.now) (affinity_of (node_of grant.now)) }
        requires step { let L = layout_in self.now in
            IsStep (machine_of seat.old) (view seat.old) (number_in L grant.now)
            (C.entered call.now) (A.entered reply.now) (parcels_in N.parcels L grant.now) }
        requires hand { HasInHand (machine_of seat.old) (view seat.old)
            (C.entered call.now) (A.entered reply.now) }
        requires exact { IsWhole M.Parcel.kind N.parcels (layout_in self.now) grant.now }
        ensures seat { IsSeatHere self.now seat.new }
        ensures splits { splits_left seat.new ≡ splits_left seat.old }
        ensures gone_on { let L = layout_in self.now in OnOk result
            (HasGoneOn (machine_of seat.old)
            (view seat.old) (number_in L grant.now) (parcels_in N.parcels L grant.now)
            (entry_with N.parcels L grant.now (C.entered call.now) (A.entered reply.now))
            (view seat.new)) }
        ensures refused { IfErr result (λ refusal.
            (refusal ≡ Worn) × IsLast (view seat.old) (view seat.new)) }
    {
        let board = &self.table.shared;
        let mut place: TableSeat<M> = mem::replace(&mut seat.badge, Badge::blank()).into_seat();
        let ticket = board.load::<Look>(&mut place, 0);
        if ticket >= WORN - 1 {
            seat.badge = place.into_badge();
            return Err(GrantRefusal::Worn);
        }
        stamp_call::<M, N, C, A, Brand>(board, &mut place, &self.layout, grant, call, reply);
        renew(board, &mut place);
        seat.badge = place.into_badge();
        Ok(())
    }
}
