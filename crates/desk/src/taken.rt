//! What the open grants exclude.

ghost use Rattle.std.specs.Prelude.{◌≡◌, ◌↔◌, true, option_map};
ghost use Rattle.affinity.specs.Affinity.{affinity_of};
ghost use Rattle.affinity.specs.Layout.{layout_of};
ghost use Rattle.desk.specs.laws.Backing.{excludes_lent, IsTakenIn};
ghost use Rattle.desk.specs.Any.{small_lent, large_lent};
ghost use Rattle.desk.specs.Slots.{granted, all_granted, shown};

use crate::grant::{LargeGrant, SmallGrant};
use crate::kinds::NodeKinds;
use crate::slot::Slot;
use affinity::{Affinity, HasKind, Layout};

/// What was granted of a volume or below one.
fn affinity_in_small<T: HasKind, K: NodeKinds<T>>(
    layout: &Layout,
    grant: &SmallGrant<T, K>,
) -> Affinity
    ensures { let L = layout_of layout.now in
        affinity_of result ≡ (small_lent grant.now L).affinity }
{
    match grant {
        SmallGrant::Stripe(node) => node.grant.affinity(),
        SmallGrant::Logical(node) => node.grant.affinity(),
        SmallGrant::Volume(node) => node.grant.affinity(),
    }
}

/// What was granted of a node with volumes below it.
fn affinity_in_large<T: HasKind, K: NodeKinds<T>>(
    layout: &Layout,
    grant: &LargeGrant<T, K>,
) -> Affinity
    ensures { let L = layout_of layout.now in
        affinity_of result ≡ (large_lent grant.now L).affinity }
{
    match grant {
        LargeGrant::Aggregate(node) => node.grant.affinity(),
        LargeGrant::Serial(node) => node.grant.affinity(),
    }
}

/// Whether what a worker has excludes an affinity.
fn is_excluded<T: HasKind, K: NodeKinds<T>>(
    layout: &Layout,
    slot: &Slot<T, K>,
    affinity: Affinity,
) -> bool
    ensures { let L = layout_of layout.now in
        result ≡ excludes_lent L (affinity_of affinity) (option_map (shown L) (granted slot.now)) }
{
    match (&slot.small, &slot.large) {
        (Some(grant), _) => affinity.excludes(affinity_in_small(layout, grant), layout),
        (None, Some(grant)) => affinity.excludes(affinity_in_large(layout, grant), layout),
        (None, None) => false,
    }
}

/// Whether a worker has something that excludes an affinity.
pub(crate) fn is_taken<T: HasKind, K: NodeKinds<T>>(
    layout: &Layout,
    slots: &[Slot<T, K>],
    affinity: Affinity,
) -> bool
    ensures { let L = layout_of layout.now in
        (result ≡ true) ↔ IsTakenIn shown L (all_granted slots.now) (affinity_of affinity) }
{
    for worker in 0..slots.len() {
        if is_excluded(layout, &slots[worker], affinity) {
            return true;
        }
    }
    false
}
