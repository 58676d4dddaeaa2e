//! A shelf in memory.

ghost use Rattle.std.specs.Prelude.{◌≡◌, ◌<◌, None, length, slice_index_or, IfOk, replicate};
ghost use Rattle.std.proofs.Common.{refl, sym, ◌∙◌, subst};

use crate::shelf::Shelf;
use std::alloc::{AllocError, Global};

/// Parcels in a vector, by the number of their node.
#[derive(Drop)]
pub struct VecShelf<T> {
    pub parcels: Vec<Option<T>>,
}

impl<T: Drop> VecShelf<T> {
    /// An empty shelf for nodes of numbers below this one.
    pub fn new(alloc: Global, count: usize) -> Result<VecShelf<T>, AllocError>
        ensures { IfOk result (λ shelf. shelf.parcels.items ≡ replicate count None) }
    {
        let mut parcels = Vec::with_capacity(alloc, count)?;
        for _done in 0..count {
            parcels.push(None)?;
        }
        Ok(VecShelf { parcels })
    }
}

impl<T: Drop> Shelf<T> for VecShelf<T> {
    ghost at = { λ shelf k. slice_index_or shelf.parcels.items k None };

    ghost allows = { λ shelf node parcel. node < length shelf.parcels.items };

    ghost keeps = { λ old new. length new.parcels.items ≡ length old.parcels.items };

    fn take(&mut self, node: usize) -> T {
        let Some(parcel) = self.parcels[node].take() else {
            unreachable!()
        };
        parcel
    }

    fn put(&mut self, node: usize, parcel: T) {
        self.parcels[node] = Some(parcel);
    }

    ghost keeps_itself = { λ s. refl };

    ghost keeps_on = { λ s t u first then. then ∙ first };

    ghost keeps_allowing = { λ s t node parcel same below. subst (λ n. node < n) (sym same) below };
}
