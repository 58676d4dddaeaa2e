//! The words above a node: entered from the top down, left from the bottom up.

ghost use Rattle.std.specs.Prelude.{◌≡◌, ◌<◌, [], length, OnOk, IfErr};
ghost use Rattle.affinity.specs.Ancestors.{ancestors};
ghost use Rattle.depot_rule.specs.Seats.{view_of};
ghost use Rattle.depot.specs.Calls.{MovedTo, FoundClaimed};
ghost use Rattle.depot.specs.Places.{tree_of, IsOn, IsTreeOf, IsStill};

use crate::steps::{enter, leave};
use crate::table::{Board, TableSeat};
use depot_rule::machine::Machine;

/// The word that refused a claim, and its node.
#[derive(Clone, Copy)]
pub struct Busy {
    pub node: usize,
    pub word: u64,
}

/// Enters the words of the nodes above a node. At a word that is found claimed, all are left again.
pub fn climb<M: Machine>(
    board: &Board<M>,
    place: &mut TableSeat<M>,
    parents: &[u64],
    node: usize,
) -> Result<(), Busy>
    requires table { IsOn place.old.table_id board.now.table_id (tree_of board.now.key) node }
    requires tree { IsTreeOf parents.now (tree_of board.now.key) }
    requires ready { let v = view_of place.old.me.0 in
        (length place.old.me.0 ≡ 1) × (0 < node) × (v.unsure ≡ 0) × (v.path ≡ []) }
    ensures seat { IsStill place.old place.new }
    ensures entered { OnOk result
        (MovedTo (view_of place.old.me.0) (ancestors parents.now node) place.new.me.0) }
    ensures claimed { IfErr result (λ busy.
        FoundClaimed parents.now (view_of place.old.me.0) node busy.node busy.word place.new.me.0) }
{
    let parent = parents[node] as usize;
    if parent == 0 {
        return Ok(());
    }
    match climb(board, place, parents, parent) {
        Ok(()) => {}
        Err(busy) => return Err(busy),
    }
    match enter(board, place, parent) {
        None => Ok(()),
        Some(word) => {
            leave_all(board, place, parents, parent);
            Err(Busy { node: parent, word })
        }
    }
}

/// Leaves the words of the nodes above a node.
pub fn leave_all<M: Machine>(
    board: &Board<M>,
    place: &mut TableSeat<M>,
    parents: &[u64],
    node: usize,
)
    requires table { IsOn place.old.table_id board.now.table_id (tree_of board.now.key) node }
    requires tree { IsTreeOf parents.now (tree_of board.now.key) }
    requires ready { let v = view_of place.old.me.0 in
        (length place.old.me.0 ≡ 1) × (0 < node) × (v.path ≡ ancestors parents.now node) }
    ensures seat { IsStill place.old place.new }
    ensures left { MovedTo (view_of place.old.me.0) [] place.new.me.0 }
{
    let above = parents[node] as usize;
    if above != 0 {
        leave(board, place, above);
        leave_all(board, place, parents, above);
    }
}
