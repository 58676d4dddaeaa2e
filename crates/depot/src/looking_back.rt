//! A seat looks back on the one history.

ghost use Rattle.std.specs.Prelude.{◌≡◌, ◌<◌, length};
ghost use Rattle.depot_rule.specs.Seats.{view_of};
ghost use Rattle.depot_rule.specs.History.{behaviour};
ghost use Rattle.depot_rule.specs.LookingBack.{LooksBack};

use crate::depot::Depot;
use crate::seats::Seat;
use crate::table::{Board, TableSeat, ViewsOf};
use atomic_table::{Badge, Play};
use depot_rule::machine::Machine;
use std::marker::PhantomData;
use std::mem;

/// What holds of the history is told to a seat.
struct LookBack<M> {
    machine: PhantomData<M>,
}

impl<M: Machine> Play<Option<M::Parcel>, ViewsOf<M>> for LookBack<M> {
    ghost use Rattle.depot_rule.specs.LookingBack.{LookBackSays};

    ghost then = { LookBackSays (behaviour M.steps M.takes M.gives M.invariant) };
}

/// A load of the ticket, by which a seat looks back. Nothing changes.
fn look_back<M: Machine>(board: &Board<M>, place: &mut TableSeat<M>)
    requires table { (place.old.table_id ≡ board.now.table_id) × (0 < board.now.table_id.words) }
    requires one { length place.old.me.0 ≡ 1 }
    ensures seat { (place.new.table_id ≡ place.old.table_id) × (place.new.me ≡ place.old.me) }
    ensures back { LooksBack (behaviour M.steps M.takes M.gives M.invariant)
        (view_of place.old.me.0) }
{
    board.load::<LookBack<M>>(place, 0);
}

impl<M: Machine> Depot<M> {
    ghost use Rattle.depot.specs.Words.{machine_of, view, splits_left, IsSeatHere};

    /// A seat looks back on the one history: where its own entries stand in it, in the order in
    /// which it made them; and of the only seat, that it has seen all of it and made each entry.
    /// Nothing changes. It waits for nobody, and takes no memory.
    pub fn look_back(&self, seat: &mut Seat<M>)
        requires { IsSeatHere self.now seat.old }
        ensures seat { IsSeatHere self.now seat.new }
        ensures splits { splits_left seat.new ≡ splits_left seat.old }
        ensures same { view seat.new ≡ view seat.old }
        ensures back { LooksBack (machine_of seat.old) (view seat.old) }
    {
        let mut place: TableSeat<M> = mem::replace(&mut seat.badge, Badge::blank()).into_seat();
        look_back(&self.table.shared, &mut place);
        seat.badge = place.into_badge();
    }
}
