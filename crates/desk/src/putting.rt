//! Grants put into slots.

ghost use Rattle.std.specs.Prelude.{◌≡◌, ◌↔◌, Some, None, true};
ghost use Rattle.desk.specs.Any.{small_lent, large_lent};
ghost use Rattle.desk.specs.Slots.{granted};

use crate::grant::{LargeGrant, SmallGrant};
use crate::kinds::NodeKinds;
use crate::slot::Slot;
use affinity::HasKind;

/// The slot of an idle worker.
pub(crate) fn idle_slot<T: HasKind, K: NodeKinds<T>>() -> Slot<T, K>
    ensures { granted result ≡ None }
{
    Slot {
        small: None,
        large: None,
    }
}

/// Whether a slot is that of an idle worker.
pub(crate) fn is_idle_slot<T: HasKind, K: NodeKinds<T>>(slot: &Slot<T, K>) -> bool
    ensures { (result ≡ true) ↔ (granted slot.now ≡ None) }
{
    slot.small.is_none() && slot.large.is_none()
}

/// Puts a grant into an idle worker's slot.
pub(crate) fn put_small<T: HasKind, K: NodeKinds<T>>(slot: &mut Slot<T, K>, grant: SmallGrant<T, K>)
    requires { granted slot.old ≡ None }
    ensures { granted slot.new ≡ Some (small_lent grant) }
{
    slot.small = Some(grant);
}

/// Puts a grant of a node with volumes below it into an idle worker's slot.
pub(crate) fn put_large<T: HasKind, K: NodeKinds<T>>(slot: &mut Slot<T, K>, grant: LargeGrant<T, K>)
    requires { granted slot.old ≡ None }
    ensures { granted slot.new ≡ Some (large_lent grant) }
{
    slot.large = Some(grant);
}
