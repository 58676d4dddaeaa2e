//! A node is claimed with all that it covers, and given up.

ghost use Rattle.std.specs.Prelude.{◌≡◌, ◌<◌, ◌∷◌, ◌++◌, List, [], length, slice_set, None};
ghost use Rattle.std.specs.Prelude.{OnOk, IfErr};
ghost use Rattle.depot_rule.specs.declared.view.Read.{Read};
ghost use Rattle.depot_rule.specs.Shares.{Has};
ghost use Rattle.depot_rule.specs.History.{behaviour, listed};
ghost use Rattle.depot_rule.specs.Seats.{view_of};
ghost use Rattle.depot.specs.Calls.{IsGranted, IsExcluded, WasRefused};
ghost use Rattle.depot.specs.Grants.{IsAfter};
ghost use Rattle.depot.specs.Places.{tree_of, IsOn, IsTreeOf, IsStill, AreHome, IsAlone};

use crate::path::{Busy, climb, leave_all};
use crate::steps::{claim, release};
use crate::table::{Board, TableSeat};
use depot_rule::machine::Machine;

/// Claims a node: enters the words above it, and then takes its own. Either there is a grant, or
/// the seat has no share more than before.
pub fn try_claim<M: Machine>(
    board: &Board<M>,
    place: &mut TableSeat<M>,
    parents: &[u64],
    node: usize,
) -> Result<(), Busy>
    requires table { IsOn place.old.table_id board.now.table_id (tree_of board.now.key) node }
    requires tree { IsTreeOf parents.now (tree_of board.now.key) }
    requires ready { let v = view_of place.old.me.0 in
        (length place.old.me.0 ≡ 1) × (0 < node) × (v.unsure ≡ 0) × (v.path ≡ [])
        × (v.tree ≡ parents.now) × (v.looked ≡ 1) }
    ensures seat { IsStill place.old place.new }
    ensures granted { let v = view_of place.old.me.0 in OnOk result (
        ((g : _) × (more : List Read) × IsGranted M.Parcel.kind v node g more place.new.me.0
        × IsAfter (behaviour M.steps M.takes M.gives M.invariant) v node (listed g))
        × (IsExcluded v node → ⊥)) }
    ensures refused { IfErr result (λ busy.
        WasRefused parents.now (view_of place.old.me.0) node busy.node busy.word place.new.me.0) }
{
    climb(board, place, parents, node)?;
    let word = claim(board, place, node);
    if word == 0 {
        return Ok(());
    }
    leave_all(board, place, parents, node);
    Err(Busy { node, word })
}

/// Ends a grant whose parcels are all at home.
pub fn give_up<M: Machine>(board: &Board<M>, place: &mut TableSeat<M>, parents: &[u64], node: usize)
    requires table { IsOn place.old.table_id board.now.table_id (tree_of board.now.key) node }
    requires tree { IsTreeOf parents.now (tree_of board.now.key) }
    requires ready { let v = view_of place.old.me.0 in
        (length place.old.me.0 ≡ 1) × (0 < node) × (v.path ≡ []) × (v.tree ≡ parents.now) }
    requires granted { (g : _) × Has (view_of place.old.me.0) node g }
    requires home { AreHome (tree_of board.now.key) node (view_of place.old.me.0) }
    ensures seat { IsStill place.old place.new }
    ensures apart { IsAlone (view_of place.old.me.0) node }
    ensures ended { let v = view_of place.old.me.0 in (more : List Read)
        × (place.new.me.0 ≡ record v {
          stamped = 0;
          held = slice_set v.held node None;
          reads = more ++ v.reads;
        } ∷ []) }
{
    release(board, place, node);
    leave_all(board, place, parents, node);
}
