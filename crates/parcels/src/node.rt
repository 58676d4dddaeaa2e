//! The kinds of node.

ghost use Rattle.std.specs.Prelude.{◌≡◌, ◌≢◌, ℕ, Option, None};
ghost use Rattle.nfs_model.specs.Tree as trees;
ghost use Rattle.affinity.specs.declared.affinity.Kind.{Kind};
ghost use Rattle.affinity.specs.Affinity.{affinity_of, kind_of};
ghost use Rattle.affinity.specs.Numbers.{number_of};
ghost use Rattle.affinity.specs.Tree.{IsNode};
ghost use Rattle.affinity.specs.Layout.{layout_of};
ghost use Rattle.parcels.specs.Exact.{AllPlaced, AllVacant, HasExactly, Under, kind_in};
ghost use Rattle.parcels.specs.Moved.{AllAllowed, AllMoved};

use crate::family::{Family, Parcel};
use crate::shelf::Shelf;
use affinity::{Affinity, HasKind, Kind, Layout};

impl<P: Family> HasKind for Parcel<P> {
    ghost kind = { kind_in };
}

/// A kind of node, and the typed set of one.
pub trait Node<T: HasKind> {
    /// The node's parcel, and the sets of the nodes below.
    type Held: Drop;

    ghost KIND: { Kind };

    /// The kind of the nodes that have such sets.
    const KIND: Kind;

    // The parcels of a set by the numbers of their nodes.
    ghost parcels: { trees.Layout → trees.Affinity → Self.Held → ℕ → Option T };

    // The two sets have something in the same slots, here and below.
    ghost alike: { Self.Held → Self.Held → Type 0 };

    /// Puts a node's set together from a shelf. No memory is taken.
    fn gather<S: Shelf<T>>(shelf: &mut S, layout: &Layout, affinity: Affinity) -> Self::Held
        requires node { IsNode (layout_of layout.now) (affinity_of affinity) }
        requires kind { kind_of (affinity_of affinity) ≡ KIND }
        requires there { AllPlaced T.kind (layout_of layout.now) (affinity_of affinity)
            (S.at shelf.old) }
        ensures exact { HasExactly T.kind (layout_of layout.now) (affinity_of affinity)
            (parcels (layout_of layout.now) (affinity_of affinity) result) }
        ensures moved { AllMoved (S.at shelf.old)
            (parcels (layout_of layout.now) (affinity_of affinity) result) (S.at shelf.new) }
        ensures kept { S.keeps shelf.old shelf.new };

    /// Gives the parcels of a set back to a shelf, each at its node. No memory is taken.
    fn scatter<S: Shelf<T>>(shelf: &mut S, layout: &Layout, affinity: Affinity, held: Self::Held)
        requires node { IsNode (layout_of layout.now) (affinity_of affinity) }
        requires kind { kind_of (affinity_of affinity) ≡ KIND }
        requires vacant { AllVacant (layout_of layout.now) (affinity_of affinity) (S.at shelf.old) }
        requires allowed { AllAllowed (S.allows shelf.old)
            (parcels (layout_of layout.now) (affinity_of affinity) held) }
        ensures moved { AllMoved (S.at shelf.new)
            (parcels (layout_of layout.now) (affinity_of affinity) held) (S.at shelf.old) }
        ensures kept { S.keeps shelf.old shelf.new };

    // A set that has exactly the parcels under a node is of the node's kind.
    ghost of_kind: { (layout : trees.Layout) (affinity : trees.Affinity) (held : Self.Held)
        → IsNode layout affinity
        → HasExactly T.kind layout affinity (parcels layout affinity held)
        → kind_of affinity ≡ KIND };

    // It still has exactly those once its parcels have changed and its slots haven't.
    ghost stays_exact: { (layout : trees.Layout) (affinity : trees.Affinity) (old new : Self.Held)
        → alike old new
        → HasExactly T.kind layout affinity (parcels layout affinity old)
        → HasExactly T.kind layout affinity (parcels layout affinity new) };

    // A set has no parcel of another node.
    ghost within: { (layout : trees.Layout) (affinity : trees.Affinity) (held : Self.Held) (k : ℕ)
        → IsNode layout affinity
        → kind_of affinity ≡ KIND
        → Under layout affinity (λ node. k ≢ number_of layout node)
        → parcels layout affinity held k ≡ None };
}
