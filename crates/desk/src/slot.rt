//! A worker's slot on a desk.

ghost use Rattle.std.specs.Prelude.{◌≡◌, ◌&&◌, false, is_some};

use crate::grant::{LargeGrant, SmallGrant};
use crate::kinds::NodeKinds;
use affinity::HasKind;

/// A worker's slot. An `Option` is filled and moved whole, whatever lies in it: so a large grant,
/// which is rare, has a field of its own.
pub struct Slot<T: HasKind, K: NodeKinds<T>> {
    pub(crate) small: Option<SmallGrant<T, K>>,
    pub(crate) large: Option<LargeGrant<T, K>>,
    pub ghost one: { (is_some small && is_some large) ≡ false },
}

// By hand, so that crates above have no proof of the drop of each of its parts.
impl<T: HasKind, K: NodeKinds<T>> Drop for Slot<T, K> {
    fn drop(self) {
        let Slot { small: _, large: _ } = self;
    }
}
