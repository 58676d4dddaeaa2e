//! The stamp: a call takes effect.

ghost use Rattle.std.specs.Prelude.{◌≡◌, ◌<◌, ℕ, length, slice_index_or, Option, Some, None};
ghost use Rattle.affinity.specs.Ancestors.{Covers};
ghost use Rattle.depot_rule.specs.Shares.{Has};
ghost use Rattle.depot_rule.specs.Seats.{view_of};
ghost use Rattle.depot_rule.specs.History.{behaviour};
ghost use Rattle.depot.specs.Grants.{IsStep, HasInHand, IsStamped, IsRenewed};
ghost use Rattle.depot.specs.Places.{tree_of, IsStill, AreOut, Fits};

use crate::plays::Renew;
use crate::table::{Board, EntryOf, TableSeat, ViewsOf};
use atomic_table::Play;
use depot_rule::machine::Machine;
use std::marker::{Brand, PhantomData};

/// What a step is about, which each call of it picks.
pub trait Said<X> {
    ghost item: { Option X };
}

impl<X> Said<X> for Brand {
    ghost item = { None };
}

/// An entry is added to the history.
pub struct Stamp<M, J> {
    machine: PhantomData<M>,
    said: PhantomData<J>,
}

impl<M: Machine, J: Said<EntryOf<M>>> Play<Option<M::Parcel>, ViewsOf<M>> for Stamp<M, J> {
    ghost use Rattle.depot_rule.specs.Plays.{StampSays};

    ghost then = { StampSays (behaviour M.steps M.takes M.gives M.invariant) J.item };
}

/// Stamps the entry that was picked, of a grant all of whose parcels are taken. The answer is the
/// ticket.
pub fn stamp_as<M: Machine, J: Said<EntryOf<M>>>(board: &Board<M>, place: &mut TableSeat<M>) -> u64
    requires table { (place.old.table_id ≡ board.now.table_id) × (0 < board.now.table_id.words) }
    requires one { (length place.old.me.0 ≡ 1) × ((view_of place.old.me.0).stamped ≡ 0) }
    requires granted { let v = view_of place.old.me.0 in (e : _) × (g : _)
        × (J.item ≡ Some e)
        × Has v e.node g
        × AreOut (tree_of board.now.key) e.node v
        × Fits M.Parcel.kind (tree_of board.now.key) e.node e.left v }
    requires step { let v = view_of place.old.me.0 in (e : _) → J.item ≡ Some e
        → (f' : ℕ → Option _)
        × IsStep (behaviour M.steps M.takes M.gives M.invariant) v e.node e.call e.reply f'
        × ((k : ℕ) → 0 < k → k < length v.tree → Covers v.tree e.node k
        → f' k ≡ slice_index_or e.left k None) }
    requires hand { let v = view_of place.old.me.0 in (e : _) → J.item ≡ Some e
        → HasInHand (behaviour M.steps M.takes M.gives M.invariant) v e.call e.reply }
    ensures seat { IsStill place.old place.new }
    ensures stamped { let v = view_of place.old.me.0 in (e : _) → J.item ≡ Some e
        → IsStamped (behaviour M.steps M.takes M.gives M.invariant) v e result place.new.me.0 }
{
    board.fetch_add::<Stamp<M, J>>(place, 0, 1)
}

/// Grants anew what was stamped, by the right of a look. The answer is the ticket.
pub fn renew<M: Machine>(board: &Board<M>, place: &mut TableSeat<M>) -> u64
    requires table { (place.old.table_id ≡ board.now.table_id) × (0 < board.now.table_id.words) }
    requires one { (length place.old.me.0 ≡ 1) × ((view_of place.old.me.0).looked ≡ 1) }
    ensures seat { IsStill place.old place.new }
    ensures renewed { IsRenewed (behaviour M.steps M.takes M.gives M.invariant)
        (view_of place.old.me.0) result place.new.me.0 }
{
    board.load::<Renew<M>>(place, 0)
}
