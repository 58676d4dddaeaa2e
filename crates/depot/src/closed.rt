//! A table that ended, as a shelf from which all parcels are taken.

ghost use Rattle.std.specs.Prelude.{◌≡◌, ◌≢◌, ◌<◌, ℕ, true, false, length, slice_index_or};
ghost use Rattle.std.specs.Prelude.{Option, None};
ghost use mathlib.Core.Option.{some};
ghost use lib.ListN.{get_elem?};
ghost use Rattle.std.specs.Mem.Slots.{slots_items, slots_filled, slots_len};
ghost use Rattle.depot.specs.Closed.{left_at};

use atomic_table::Closed;
use parcels::Shelf;
use std::alloc::Global;

/// The slots of a table that no seat shares any more.
pub struct ClosedTable<T> {
    pub table: Closed<Option<T>, Global>,
    ghost lengths: { (length (slots_items table.slots) ≡ slots_len table.slots)
        × (length (slots_filled table.slots) ≡ slots_len table.slots) },
    ghost root: { slice_index_or (slots_filled table.slots) 0 false ≡ true },
    ghost parcels: { (k : ℕ) → 0 < k → k < slots_len table.slots
        → get_elem? (slots_items table.slots) k ≢ some None },
}

impl<T: Drop> Shelf<T> for ClosedTable<T> {
    ghost use Rattle.std.proofs.Common.{refl, sym, ◌∙◌, subst};

    ghost at = { λ closed.
        left_at (slots_filled closed.table.slots) (slots_items closed.table.slots) };

    ghost allows = { λ closed node parcel. (0 < node) × (node < slots_len closed.table.slots) };

    ghost keeps = { λ old new. slots_len new.table.slots ≡ slots_len old.table.slots };

    ghost keeps_itself = { λ s. refl };

    ghost keeps_on = { λ s t u on more. more ∙ on };

    ghost keeps_allowing = { λ s t node parcel same within.
        (within.0, subst (λ n. node < n) (sym same) within.1) };

    fn take(&mut self, node: usize) -> T {
        match self.table.take(node) {
            Some(parcel) => parcel,
            None => unreachable!(),
        }
    }

    fn put(&mut self, node: usize, parcel: T) {
        self.table.slots.put(node, Some(parcel));
    }
}

impl<T: Drop> ClosedTable<T> {
    /// Gives the memory back. No parcel is left.
    pub fn free(self)
        requires empty { (k : ℕ)
            → left_at (slots_filled self.table.slots) (slots_items self.table.slots) k ≡ None }
    {
        let ClosedTable { table } = self;
        let mut table = table;
        table.take(0);
        table.free();
    }
}
