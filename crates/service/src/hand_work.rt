//! A worker's call with its hand, whatever the kind of its node.

ghost use Rattle.std.specs.Prelude.{◌≡◌};
ghost use Rattle.nfs_model.specs.Parts as parts;

use crate::batch::BatchInHand;

/// A worker's call with its hand, which owns what was in the hand.
pub trait HandWork {
    // What was in the hand.
    ghost carried: { Self → parts.Hand };

    /// The hand with that in it again.
    fn into_hand(self) -> BatchInHand
        ensures { result ≡ carried self };
}
