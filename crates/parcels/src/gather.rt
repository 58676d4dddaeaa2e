//! Sets are put together from parcels that are taken from a shelf.

ghost use Rattle.std.specs.Prelude.{◌≡◌, ◌≤◌, ℕ, true, Some};
ghost use Rattle.affinity.specs.Affinity.{affinity_of, kind_of};
ghost use Rattle.affinity.specs.Numbers.{number_of};
ghost use Rattle.affinity.specs.Tree.{IsNode};
ghost use Rattle.affinity.specs.Layout.{layout_of};
ghost use Rattle.parcels.specs.Children.{EachChild, child, has_child, most_children};
ghost use Rattle.parcels.specs.Children.{child_parcels, children_parcels};
ghost use Rattle.parcels.specs.Exact.{AllPlaced, AllVacant, IsPlaced};
ghost use Rattle.parcels.specs.Moved.{AllMoved};
ghost use Rattle.parcels.specs.Slots.{alone};

use crate::children::{child, child_count, has_child};
use crate::node::Node;
use crate::own::OwnParcel;
use crate::shelf::Shelf;
use crate::slots::Slots;
use affinity::{Affinity, HasKind, Layout};

/// Takes the parcel of a node.
fn take_parcel<T: HasKind, S: Shelf<T>>(shelf: &mut S, layout: &Layout, affinity: Affinity) -> T
    requires node { IsNode (layout_of layout.now) (affinity_of affinity) }
    requires there { IsPlaced T.kind (layout_of layout.now) (S.at shelf.old)
        (affinity_of affinity) }
    ensures kind { T.kind result ≡ kind_of (affinity_of affinity) }
    ensures moved { AllMoved (S.at shelf.old)
        (alone (number_of (layout_of layout.now) (affinity_of affinity)) result)
        (S.at shelf.new) }
    ensures kept { S.keeps shelf.old shelf.new }
{
    shelf.take(layout.number_of(affinity))
}

/// Takes the parcel of a node of one kind, and gives what it has in it.
pub(crate) fn take_own<T: HasKind, K: OwnParcel<T>, S: Shelf<T>>(
    shelf: &mut S,
    layout: &Layout,
    affinity: Affinity,
) -> K::Own
    requires node { IsNode (layout_of layout.now) (affinity_of affinity) }
    requires kind { kind_of (affinity_of affinity) ≡ K.KIND }
    requires there { IsPlaced T.kind (layout_of layout.now) (S.at shelf.old)
        (affinity_of affinity) }
    ensures moved { AllMoved (S.at shelf.old)
        (alone (number_of (layout_of layout.now) (affinity_of affinity)) (K.as_parcel result))
        (S.at shelf.new) }
    ensures kept { S.keeps shelf.old shelf.new }
{
    // The parcel at a node is of the node's kind.
    match K::own_of(take_parcel(shelf, layout, affinity)) {
        Ok(own) => own,
        Err(_) => unreachable!(),
    }
}

/// Takes the set of a node.
pub(crate) fn gather_at<T: HasKind, K: Node<T>, S: Shelf<T>>(
    shelf: &mut S,
    layout: &Layout,
    affinity: Affinity,
) -> K::Held
    requires node { IsNode (layout_of layout.now) (affinity_of affinity) }
    requires kind { kind_of (affinity_of affinity) ≡ K.KIND }
    requires there { AllPlaced T.kind (layout_of layout.now) (affinity_of affinity)
        (S.at shelf.old) }
    ensures moved { AllMoved (S.at shelf.old)
        (K.parcels (layout_of layout.now) (affinity_of affinity) result) (S.at shelf.new) }
    ensures gone { AllVacant (layout_of layout.now) (affinity_of affinity) (S.at shelf.new) }
    ensures kept { S.keeps shelf.old shelf.new }
{
    K::gather(shelf, layout, affinity)
}

/// Takes the set of the node of a slot, if the slot is in use.
fn gather_child<T: HasKind, K: Node<T>, S: Shelf<T>>(
    shelf: &mut S,
    layout: &Layout,
    parent: Affinity,
    index: u32,
) -> Option<K::Held>
    requires node { IsNode (layout_of layout.now) (child (affinity_of parent) index) }
    requires kind { kind_of (child (affinity_of parent) index) ≡ K.KIND }
    requires there { has_child (layout_of layout.now) (affinity_of parent) index ≡ true
        → AllPlaced T.kind (layout_of layout.now) (child (affinity_of parent) index)
        (S.at shelf.old) }
    ensures moved { AllMoved (S.at shelf.old)
        (child_parcels K.parcels (layout_of layout.now) (affinity_of parent) index (Some result))
        (S.at shelf.new) }
    ensures gone { has_child (layout_of layout.now) (affinity_of parent) index ≡ true
        → AllVacant (layout_of layout.now) (child (affinity_of parent) index) (S.at shelf.new) }
    ensures kept { S.keeps shelf.old shelf.new }
{
    if !has_child(layout, parent, index) {
        return None;
    }
    Some(gather_at::<T, K, S>(shelf, layout, child(parent, index)))
}

/// Takes the sets of the nodes of all slots.
pub(crate) fn gather_children<T: HasKind, K: Node<T>, C: Slots<K::Held>, S: Shelf<T>>(
    shelf: &mut S,
    layout: &Layout,
    parent: Affinity,
    slots: &mut C,
)
    requires node { IsNode (layout_of layout.now) (affinity_of parent) }
    requires kind { (i : ℕ) → kind_of (child (affinity_of parent) i) ≡ K.KIND }
    requires room { most_children (affinity_of parent) ≤ C.room }
    requires there { EachChild (layout_of layout.now) (affinity_of parent)
        (λ node. AllPlaced T.kind (layout_of layout.now) node (S.at shelf.old)) }
    ensures moved { AllMoved (S.at shelf.old)
        (children_parcels K.parcels (layout_of layout.now) (affinity_of parent) (C.at slots.new))
        (S.at shelf.new) }
    ensures gone { EachChild (layout_of layout.now) (affinity_of parent)
        (λ node. AllVacant (layout_of layout.now) node (S.at shelf.new)) }
    ensures kept { S.keeps shelf.old shelf.new }
{
    for index in 0..child_count(layout, parent) {
        let held = gather_child::<T, K, S>(shelf, layout, parent, index);
        slots.fill(index as usize, held);
    }
}
