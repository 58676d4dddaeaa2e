//! Sets are taken apart, and their parcels given to a shelf.

ghost use Rattle.std.specs.Prelude.{◌≡◌, ◌<◌, ◌≤◌, ℕ, true, Some, slice_get};
ghost use Rattle.affinity.specs.Affinity.{affinity_of, kind_of};
ghost use Rattle.affinity.specs.Numbers.{number_of};
ghost use Rattle.affinity.specs.Tree.{IsNode};
ghost use Rattle.affinity.specs.Layout.{layout_of};
ghost use Rattle.parcels.specs.Children.{EachChild, child, children, has_child, most_children};
ghost use Rattle.parcels.specs.Children.{child_parcels, children_parcels};
ghost use Rattle.parcels.specs.Exact.{AllVacant, IsVacant};
ghost use Rattle.parcels.specs.Moved.{AllAllowed, AllMoved};
ghost use Rattle.parcels.specs.Slots.{alone, in_slot};

use crate::children::{child, child_count, has_child};
use crate::family::{Family, Parcel};
use crate::node::Node;
use crate::shelf::Shelf;
use crate::slots::Slots;
use affinity::{Affinity, HasKind, Layout};

/// Gives a node its parcel.
pub(crate) fn put_parcel<P: Family, S: Shelf<Parcel<P>>>(
    shelf: &mut S,
    layout: &Layout,
    affinity: Affinity,
    parcel: Parcel<P>,
)
    requires node { IsNode (layout_of layout.now) (affinity_of affinity) }
    requires vacant { IsVacant (layout_of layout.now) (S.at shelf.old) (affinity_of affinity) }
    requires allowed { S.allows shelf.old
        (number_of (layout_of layout.now) (affinity_of affinity)) parcel }
    ensures moved { AllMoved (S.at shelf.new)
        (alone (number_of (layout_of layout.now) (affinity_of affinity)) parcel)
        (S.at shelf.old) }
    ensures kept { S.keeps shelf.old shelf.new }
{
    shelf.put(layout.number_of(affinity), parcel);
}

/// Gives back the set of a node.
pub(crate) fn scatter_at<T: HasKind, K: Node<T>, S: Shelf<T>>(
    shelf: &mut S,
    layout: &Layout,
    affinity: Affinity,
    held: K::Held,
)
    requires node { IsNode (layout_of layout.now) (affinity_of affinity) }
    requires kind { kind_of (affinity_of affinity) ≡ K.KIND }
    requires vacant { AllVacant (layout_of layout.now) (affinity_of affinity) (S.at shelf.old) }
    requires allowed { AllAllowed (S.allows shelf.old)
        (K.parcels (layout_of layout.now) (affinity_of affinity) held) }
    ensures moved { AllMoved (S.at shelf.new)
        (K.parcels (layout_of layout.now) (affinity_of affinity) held) (S.at shelf.old) }
    ensures kept { S.keeps shelf.old shelf.new }
{
    K::scatter(shelf, layout, affinity, held);
}

/// Gives back the set of the node of a slot, if it is there and the slot is in use.
fn scatter_child<T: HasKind, K: Node<T>, S: Shelf<T>>(
    shelf: &mut S,
    layout: &Layout,
    parent: Affinity,
    index: u32,
    slot: Option<K::Held>,
)
    requires node { IsNode (layout_of layout.now) (child (affinity_of parent) index) }
    requires kind { kind_of (child (affinity_of parent) index) ≡ K.KIND }
    requires vacant { has_child (layout_of layout.now) (affinity_of parent) index ≡ true
        → AllVacant (layout_of layout.now) (child (affinity_of parent) index) (S.at shelf.old) }
    requires allowed { has_child (layout_of layout.now) (affinity_of parent) index ≡ true
        → AllAllowed (S.allows shelf.old) (λ k. in_slot
        (λ held. K.parcels (layout_of layout.now) (child (affinity_of parent) index) held k)
        (Some slot)) }
    ensures moved { AllMoved (S.at shelf.new)
        (child_parcels K.parcels (layout_of layout.now) (affinity_of parent) index (Some slot))
        (S.at shelf.old) }
    ensures kept { S.keeps shelf.old shelf.new }
{
    if !has_child(layout, parent, index) {
        return;
    }
    if let Some(held) = slot {
        scatter_at::<T, K, S>(shelf, layout, child(parent, index), held);
    }
}

/// Gives back the sets of the nodes of all slots.
pub(crate) fn scatter_children<T: HasKind, K: Node<T>, C: Slots<K::Held> + Drop, S: Shelf<T>>(
    shelf: &mut S,
    layout: &Layout,
    parent: Affinity,
    mut slots: C,
)
    requires node { IsNode (layout_of layout.now) (affinity_of parent) }
    requires kind { (i : ℕ) → kind_of (child (affinity_of parent) i) ≡ K.KIND }
    requires room { most_children (affinity_of parent) ≤ C.room }
    requires vacant { EachChild (layout_of layout.now) (affinity_of parent)
        (λ node. AllVacant (layout_of layout.now) node (S.at shelf.old)) }
    requires allowed { (i : ℕ) → i < children (layout_of layout.now) (affinity_of parent)
        → has_child (layout_of layout.now) (affinity_of parent) i ≡ true
        → AllAllowed (S.allows shelf.old) (λ k. in_slot
        (λ held. K.parcels (layout_of layout.now) (child (affinity_of parent) i) held k)
        (slice_get (C.at slots) i)) }
    ensures moved { AllMoved (S.at shelf.new)
        (children_parcels K.parcels (layout_of layout.now) (affinity_of parent) (C.at slots))
        (S.at shelf.old) }
    ensures kept { S.keeps shelf.old shelf.new }
{
    for index in 0..child_count(layout, parent) {
        let slot = slots.empty(index as usize);
        scatter_child::<T, K, S>(shelf, layout, parent, index, slot);
    }
}
