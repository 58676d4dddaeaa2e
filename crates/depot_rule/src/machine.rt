//! What a depot serves.

ghost use Rattle.std.specs.Prelude.{ℕ, List, Option};
ghost use Rattle.depot_rule.specs.Machine.{IsLocal, Keeps};

use affinity::HasKind;

/// Calls on parcels. The tree is given as the parent of each node, parcels by node.
pub trait Machine {
    type Parcel: HasKind + Drop;

    type Call;

    type Reply;
    /// What a seat carries in its hand from one call to another.
    type Batch;

    // Of the tree, the call's node, the call, the parcels before, its reply and the parcels after.
    ghost steps: { List ℕ → ℕ → Self.Call → (ℕ → Option Self.Parcel)
        → Self.Reply → (ℕ → Option Self.Parcel) → Type 0 };

    // The batches that a call takes into its seat's hand, and those that it gives from it.
    ghost takes: { Self.Call → Self.Reply → List Self.Batch };

    ghost gives: { Self.Call → Self.Reply → List Self.Batch };

    // Of the tree, all parcels, the batches in all hands, and the count of entries.
    ghost invariant: { List ℕ → (ℕ → Option Self.Parcel)
        → List Self.Batch → ℕ → Type 0 };

    ghost local: { IsLocal steps };

    ghost keeps: { Keeps steps takes gives invariant };
}
