//! A parcel taken out of its slot for a grant, and given home.

ghost use Rattle.std.specs.Prelude.{◌≡◌, ◌<◌, ◌∷◌, ◌++◌, ℕ, List, [], length, slice_index_or};
ghost use Rattle.std.specs.Prelude.{Option, Some, None};
ghost use Rattle.depot_rule.specs.declared.view.Read.{Read};
ghost use Rattle.affinity.specs.Ancestors.{tally, Covers};
ghost use Rattle.depot_rule.specs.Sums.{without};
ghost use Rattle.depot_rule.specs.Shares.{Has};
ghost use Rattle.depot_rule.specs.Seats.{view_of};
ghost use Rattle.depot.specs.Places.{tree_of, IsOn};

use crate::plays::{Empty, Fetch, Fill, Reach};
use crate::table::{Board, TableSeat};
use depot_rule::machine::Machine;

/// Takes the parcel of a node that a grant of the seat covers. Its slot stays at home, empty.
pub fn take_parcel<M: Machine>(board: &Board<M>, place: &mut TableSeat<M>, node: usize) -> M::Parcel
    requires table { IsOn place.old.table_id board.now.table_id (tree_of board.now.key) node }
    requires ready { let v = view_of place.old.me.0 in
        (length place.old.me.0 ≡ 1) × (place.old.me.1 ≡ []) × (0 < node) × (v.out ≡ 0)
        × (tally node v.gone ≡ 0) × (v.tree ≡ tree_of board.now.key) }
    requires granted { let v = view_of place.old.me.0 in (b : ℕ) × (g : List (Option _)) × (p : _)
        × Has v b g × Covers v.tree b node × (slice_index_or g node None ≡ Some p) }
    ensures seat { (place.new.table_id ≡ place.old.table_id) × (place.new.me.1 ≡ []) }
    ensures parcel { let v = view_of place.old.me.0 in (b : ℕ) (g : List (Option _))
        → Has v b g
        → Covers v.tree b node
        → slice_index_or g node None ≡ Some result }
    ensures taken { let v = view_of place.old.me.0 in (more : List Read)
        × (place.new.me.0 ≡ record v { gone = node ∷ v.gone; reads = more ++ v.reads } ∷ []) }
{
    board.load::<Fetch>(place, node);
    let found = board.exchange(place, node, None);
    board.load::<Empty>(place, node);
    match found {
        Some(parcel) => parcel,
        None => unreachable!(),
    }
}

/// Gives a parcel home that was taken, as the grant lists it.
pub fn give_parcel<M: Machine>(
    board: &Board<M>,
    place: &mut TableSeat<M>,
    node: usize,
    parcel: M::Parcel,
)
    requires table { IsOn place.old.table_id board.now.table_id (tree_of board.now.key) node }
    requires ready { let v = view_of place.old.me.0 in
        (length place.old.me.0 ≡ 1) × (place.old.me.1 ≡ []) × (0 < node) × (v.out ≡ 0)
        × (0 < tally node v.gone) × (v.tree ≡ tree_of board.now.key) }
    requires granted { let v = view_of place.old.me.0 in (b : ℕ) × (g : List (Option _))
        × Has v b g × Covers v.tree b node × (slice_index_or g node None ≡ Some parcel) }
    ensures seat { (place.new.table_id ≡ place.old.table_id) × (place.new.me.1 ≡ []) }
    ensures once { tally node (view_of place.old.me.0).gone ≡ 1 }
    ensures given { let v = view_of place.old.me.0 in (more : List Read)
        × (place.new.me.0 ≡ record v { gone = without node v.gone; reads = more ++ v.reads } ∷ []) }
{
    board.load::<Reach>(place, node);
    match board.exchange(place, node, Some(parcel)) {
        None => board.load::<Fill>(place, node),
        Some(_) => unreachable!(),
    };
}
