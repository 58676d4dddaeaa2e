//! The end of a call: its entry is stamped, and its parcels are given home.

ghost use Rattle.std.specs.Prelude.{◌≡◌, ◌<◌, ℕ, [], length, Some, None};
ghost use Rattle.affinity.specs.Layout.{layout_of};
ghost use Rattle.affinity.specs.Fault.{fault_of};
ghost use Rattle.affinity.specs.Numbers as numbers;
ghost use Rattle.affinity.specs.Ancestors.{tally, Covers};
ghost use Rattle.depot_rule.specs.Seats.{view_of};
ghost use Rattle.depot_rule.specs.History.{behaviour};
ghost use Rattle.depot.specs.Grants.{HasWith, IsStep, HasInHand, IsStamped, IsEnded};
ghost use Rattle.depot.specs.Places.{tree_of, IsStill, IsAlone, AreOut, Fits};
ghost use Rattle.depot.specs.Words.{IsNodeOf, node_of, number_in, parcels_in, entry_with};

use crate::claiming::give_up;
use crate::entered::Entered;
use crate::grants::Grant;
use crate::hold::Hold;
use crate::stamps::{Said, stamp_as};
use crate::table::{Board, EntryOf, TableSeat};
use affinity::Layout;
use depot_rule::machine::Machine;
use parcels::Node;

/// Stamps the entry of a call, with the parcels of its grant as they are. What the entry says is
/// told to the proof alone.
pub fn stamp_call<
    M: Machine,
    N: Node<M::Parcel>,
    C: Entered<M::Call>,
    A: Entered<M::Reply>,
    J: Said<EntryOf<M>>,
>(
    board: &Board<M>,
    place: &mut TableSeat<M>,
    layout: &Layout,
    grant: &Grant<M::Parcel, N>,
    call: &C,
    reply: &A,
)
    requires table { (place.old.table_id ≡ board.now.table_id) × (0 < board.now.table_id.words) }
    requires one { (length place.old.me.0 ≡ 1) × ((view_of place.old.me.0).stamped ≡ 0) }
    requires said { let L = layout_of layout.now in
        J.item
        ≡ Some (entry_with N.parcels L grant.now (C.entered call.now) (A.entered reply.now)) }
    requires tree { (view_of place.old.me.0).tree ≡ numbers.parents (layout_of layout.now) }
    requires step { let L = layout_of layout.now in
        IsStep (behaviour M.steps M.takes M.gives M.invariant) (view_of place.old.me.0)
        (number_in L grant.now) (C.entered call.now) (A.entered reply.now)
        (parcels_in N.parcels L grant.now) }
    requires hand { HasInHand (behaviour M.steps M.takes M.gives M.invariant)
        (view_of place.old.me.0) (C.entered call.now) (A.entered reply.now) }
    requires taken { AreOut (tree_of board.now.key)
        (number_in (layout_of layout.now) grant.now) (view_of place.old.me.0) }
    requires fits { let L = layout_of layout.now in
        Fits M.Parcel.kind (tree_of board.now.key) (number_in L grant.now)
        (entry_with N.parcels L grant.now (C.entered call.now) (A.entered reply.now)).left
        (view_of place.old.me.0) }
    ensures seat { IsStill place.old place.new }
    ensures stamped { let L = layout_of layout.now in (ticket : ℕ)
        × IsStamped (behaviour M.steps M.takes M.gives M.invariant) (view_of place.old.me.0)
        (entry_with N.parcels L grant.now (C.entered call.now) (A.entered reply.now))
        ticket place.new.me.0 }
{
    stamp_as::<M, J>(board, place);
}

/// Gives the parcels of a grant home, as its view lists them, and gives the grant up.
pub fn give_home<M: Machine, N: Node<M::Parcel>>(
    board: &Board<M>,
    place: TableSeat<M>,
    layout: &Layout,
    parents: &[u64],
    grant: Grant<M::Parcel, N>,
) -> TableSeat<M>
    requires table { (place.table_id ≡ board.now.table_id)
        × (board.now.table_id.words ≡ length (tree_of board.now.key)) }
    requires tree { (parents.now ≡ tree_of board.now.key)
        × (parents.now ≡ numbers.parents (layout_of layout.now))
        × (fault_of (layout_of layout.now) ≡ None) }
    requires ready { let v = view_of place.me.0 in
        (length place.me.0 ≡ 1) × (place.me.1 ≡ []) × (v.out ≡ 0) × (v.path ≡ [])
        × (v.tree ≡ parents.now) }
    requires node { IsNodeOf (layout_of layout.now) N.KIND (node_of grant) }
    requires listed { let L = layout_of layout.now in
        HasWith (view_of place.me.0) (number_in L grant) (parcels_in N.parcels L grant) }
    requires taken { let v = view_of place.me.0 in (k : ℕ)
        → 0 < k
        → k < length v.tree
        → Covers v.tree (number_in (layout_of layout.now) grant) k
        → 0 < tally k v.gone }
    ensures seat { (result.table_id ≡ place.table_id) × (result.me.1 ≡ []) }
    ensures ended { (length result.me.0 ≡ 1)
        × IsEnded (view_of place.me.0) (number_in (layout_of layout.now) grant)
        (view_of result.me.0) }
    ensures others { let v = view_of place.me.0 in (k : ℕ)
        → (Covers v.tree (number_in (layout_of layout.now) grant) k → ⊥)
        → tally k (view_of result.me.0).gone ≡ tally k v.gone }
    ensures apart { IsAlone (view_of place.me.0) (number_in (layout_of layout.now) grant) }
{
    let Grant { affinity, held } = grant;
    let node = layout.number_of(affinity);
    let mut hold = Hold { board, place, node };
    N::scatter(&mut hold, layout, affinity, held);
    let Hold {
        board: _,
        mut place,
        node: _,
    } = hold;
    give_up(board, &mut place, parents, node);
    place
}
