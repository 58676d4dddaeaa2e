//! Steps on words.

ghost use Rattle.std.specs.Prelude.{◌≡◌, ◌<◌, ◌≤◌, ◌≢◌, ◌∷◌, ℕ, List, [], length};
ghost use Rattle.std.specs.Prelude.{slice_set, Option, Some, None, IfNone, IfSome};
ghost use Rattle.affinity.specs.Ancestors.{tally, ancestors};
ghost use Rattle.depot_rule.specs.Shares.{exclusive, Has};
ghost use Rattle.depot_rule.specs.Seats.{view_of};
ghost use Rattle.depot_rule.specs.Plays.{IsOnly};
ghost use Rattle.depot_rule.specs.History.{behaviour, listed};
ghost use Rattle.depot.specs.Calls.{read_of, Moved, IsGranted, IsExcluded};
ghost use Rattle.depot.specs.Grants.{IsAfter};
ghost use Rattle.depot.specs.Places.{tree_of, IsOn, IsStill, AreHome, IsAlone};

use crate::plays::{BackOut, Claim, Enter, Leave, Release};
use crate::table::{Board, TableSeat};
use depot_rule::machine::Machine;

/// The part of a word that says that its node is claimed.
pub const EXCLUSIVE: u64 = 1 << 32;

/// Enters the word of a node. Where it is found claimed it is left again, and the answer is what
/// was found.
pub fn enter<M: Machine>(board: &Board<M>, place: &mut TableSeat<M>, node: usize) -> Option<u64>
    requires table { IsOn place.old.table_id board.now.table_id (tree_of board.now.key) node }
    requires ready { let v = view_of place.old.me.0 in
        (length place.old.me.0 ≡ 1) × (0 < node) × (v.unsure ≡ 0) × (tally node v.path ≡ 0) }
    ensures seat { IsStill place.old place.new }
    ensures entered { let v = view_of place.old.me.0 in IfNone result
        ((found : ℕ) × Moved v (node ∷ v.path) (read_of node found v ∷ []) place.new.me.0) }
    ensures claimed { let v = view_of place.old.me.0 in IfSome result (λ found.
        (exclusive ≤ found)
        × ((last : _) × Moved v v.path (last ∷ read_of node found v ∷ []) place.new.me.0)
        × (IsOnly v → (g : _) × Has v node g)) }
{
    let found = board.fetch_add::<Enter>(place, node, 1);
    if found < EXCLUSIVE {
        return None;
    }
    board.fetch_sub::<BackOut>(place, node, 1);
    Some(found)
}

/// Leaves the word that was entered last.
pub fn leave<M: Machine>(board: &Board<M>, place: &mut TableSeat<M>, node: usize)
    requires table { IsOn place.old.table_id board.now.table_id (tree_of board.now.key) node }
    requires ready { let v = view_of place.old.me.0 in
        (length place.old.me.0 ≡ 1) × (0 < node) × ((rest : List ℕ) × (v.path ≡ node ∷ rest)) }
    ensures seat { IsStill place.old place.new }
    ensures left { let v = view_of place.old.me.0 in
        (rest : List ℕ)
        → v.path ≡ node ∷ rest
        → (found : ℕ) × Moved v rest (read_of node found v ∷ []) place.new.me.0 }
{
    board.fetch_sub::<Leave>(place, node, 1);
}

/// Claims a node whose words above are entered. The answer is what its word was: 0 where there is
/// now a grant.
pub fn claim<M: Machine>(board: &Board<M>, place: &mut TableSeat<M>, node: usize) -> u64
    requires table { IsOn place.old.table_id board.now.table_id (tree_of board.now.key) node }
    requires ready { let v = view_of place.old.me.0 in
        (length place.old.me.0 ≡ 1) × (0 < node) × (v.unsure ≡ 0)
        × (v.path ≡ ancestors (tree_of board.now.key) node) × (v.looked ≡ 1) }
    ensures seat { IsStill place.old place.new }
    ensures granted { let v = view_of place.old.me.0 in result ≡ 0 →
        ((g : _)
        × IsGranted M.Parcel.kind (record v { path = [] }) node g
        (read_of node 0 v ∷ []) place.new.me.0
        × IsAfter (behaviour M.steps M.takes M.gives M.invariant) v node (listed g))
        × (IsExcluded v node → ⊥) }
    ensures refused { let v = view_of place.old.me.0 in result ≢ 0 →
        Moved v v.path (read_of node result v ∷ []) place.new.me.0
        × (IsOnly v → IsExcluded v node) }
{
    board.compare_exchange::<Claim<M>>(place, node, 0, EXCLUSIVE)
}

/// Gives up a grant whose parcels are all at home. The words above its node are still entered.
pub fn release<M: Machine>(board: &Board<M>, place: &mut TableSeat<M>, node: usize)
    requires table { IsOn place.old.table_id board.now.table_id (tree_of board.now.key) node }
    requires ready { let v = view_of place.old.me.0 in
        (length place.old.me.0 ≡ 1) × (0 < node) × (v.path ≡ []) }
    requires granted { (g : _) × Has (view_of place.old.me.0) node g }
    requires home { AreHome (tree_of board.now.key) node (view_of place.old.me.0) }
    ensures seat { IsStill place.old place.new }
    ensures apart { IsAlone (view_of place.old.me.0) node }
    ensures released { let v = view_of place.old.me.0 in (found : ℕ) × (place.new.me.0 ≡ record v {
      path = ancestors v.tree node;
      stamped = 0;
      held = slice_set v.held node None;
      reads = read_of node found v ∷ v.reads;
    } ∷ []) }
{
    board.fetch_sub::<Release>(place, node, EXCLUSIVE);
}
