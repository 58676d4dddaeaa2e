//! A desk at the start.

ghost use Rattle.std.specs.Prelude.{◌≡◌, None, replicate, IfOk};
ghost use Rattle.desk.specs.Slots.{all_granted};

use crate::desk::Desk;
use crate::kinds::NodeKinds;
use crate::putting::idle_slot;
use crate::slot::Slot;
use affinity::{HasKind, Layout};
use depot::Depot;
use depot_rule::machine::Machine;
use parcels::Node;
use std::alloc::{AllocError, Global};

/// The slots of this many idle workers.
fn idle_slots<T: HasKind, K: NodeKinds<T>>(
    alloc: Global,
    count: usize,
) -> Result<Vec<Slot<T, K>>, AllocError>
    ensures { IfOk result (λ slots. all_granted slots.items ≡ replicate count None) }
{
    let mut slots = Vec::with_capacity(alloc, count)?;
    for _done in 0..count {
        slots.push(idle_slot())?;
    }
    Ok(slots)
}

impl<M: Machine, K: NodeKinds<M::Parcel>> Desk<M, K> {
    ghost use Rattle.std.specs.Prelude.{[]};
    ghost use Rattle.nfs_model.specs.Tree as trees;
    ghost use Rattle.affinity.specs.Layout.{layout_of};
    ghost use Rattle.affinity.specs.Numbers.{parents};
    ghost use Rattle.parcels.specs.Exact.{HasExactly};
    ghost use Rattle.depot.specs.Words.{all_parcels};
    ghost use Rattle.desk.specs.laws.Books.{opening_books};
    ghost use Rattle.desk.specs.Words.{books, IsKept};

    /// A desk of a layout with the parcels of all nodes, and this many idle workers.
    pub fn new(
        alloc: Global,
        layout: Layout,
        parcels: <K::Serial as Node<M::Parcel>>::Held,
        workers: usize,
    ) -> Result<Desk<M, K>, AllocError>
        requires exact { let L = layout_of layout in
            HasExactly M.Parcel.kind L trees.Serial (all_parcels K.Serial.parcels L parcels) }
        requires invariant { let L = layout_of layout in
            M.invariant (parents L) (all_parcels K.Serial.parcels L parcels) [] 0 }
        ensures kept { IfOk result (λ desk. IsKept desk) }
        ensures opened { let L = layout_of layout in IfOk result (λ desk. books desk
            ≡ opening_books L (all_parcels K.Serial.parcels L parcels) workers) }
    {
        let slots = idle_slots::<M::Parcel, K>(alloc, workers)?;
        match Depot::<M>::new::<K::Serial>(alloc, layout, parcels) {
            Ok((depot, seat)) => Ok(Desk { depot, seat, slots }),
            Err(_) => Err(AllocError),
        }
    }
}
