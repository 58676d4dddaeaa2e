//! A grant's parcels as a shelf, from which sets are put together.

ghost use Rattle.std.specs.Prelude.{◌≡◌, length};
ghost use Rattle.depot_rule.specs.Seats.{view_of};
ghost use Rattle.std.proofs.Common.{refl, sym, ◌∙◌, subst};
ghost use Rattle.depot.specs.Places.{tree_of};
ghost use Rattle.depot.specs.Holds.{untaken, Lists, Handled};
ghost use Rattle.depot.specs.Handling.{handled-itself, handled-on, lists-still};

use crate::slots::{give_parcel, take_parcel};
use crate::table::{Board, TableSeat};
use depot_rule::machine::Machine;
use parcels::Shelf;

/// A call that runs, and the node of the grant whose parcels it takes or gives.
pub struct Hold<'a, M: Machine> {
    pub board: &'a Board<M>,
    pub place: TableSeat<M>,
    pub node: usize,
    ghost table: { (place.table_id ≡ board.now.table_id)
        × (board.now.table_id.words ≡ length (tree_of board.now.key)) },
    ghost one: { (length place.me.0 ≡ 1) × (length place.me.1 ≡ 0) },
    ghost free: { (view_of place.me.0).out ≡ 0 },
    ghost tree: { (view_of place.me.0).tree ≡ tree_of board.now.key },
}

impl<'a, M: Machine> Shelf<M::Parcel> for Hold<'a, M> {
    ghost at = { λ hold. untaken (view_of hold.place.me.0) hold.node };

    ghost allows = { λ hold k p. Lists (view_of hold.place.me.0) hold.node k p };

    ghost keeps = { λ old new. (new.node ≡ old.node) × (new.place.table_id ≡ old.place.table_id)
        × Handled old.node old.place.me.0 new.place.me.0 };

    ghost keeps_itself = { λ s. (refl, refl, handled-itself s.node s.place.me.0 s.one.0) };

    ghost keeps_on = { λ s t u h k. (
      k.0 ∙ h.0,
      k.1 ∙ h.1,
      handled-on s.node s.place.me.0 t.place.me.0 u.place.me.0 h.2
          (subst (λ b. Handled b t.place.me.0 u.place.me.0) h.0 k.2),
    ) };

    ghost keeps_allowing = { λ s t node parcel h l.
        subst (λ b. Lists (view_of t.place.me.0) b node parcel) (sym h.0)
        (lists-still s.node node parcel s.place.me.0 t.place.me.0 h.2 l) };

    fn take(&mut self, node: usize) -> M::Parcel {
        take_parcel(self.board, &mut self.place, node)
    }

    fn put(&mut self, node: usize, parcel: M::Parcel) {
        give_parcel(self.board, &mut self.place, node, parcel);
    }
}
