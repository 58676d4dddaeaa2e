//! The tree of affinities: parents, what is above what, and what excludes what.

ghost use Rattle.std.specs.Prelude.{◌≡◌, ◌↔◌, option_map, IsTrue, IsNone, IfSome};
ghost use Rattle.nfs_model.specs.Tree as trees;
ghost use Rattle.nfs_model.specs.Tree.{excludes};
ghost use Rattle.affinity.specs.Affinity.{affinity_of, call_affinity, kind_of};
ghost use Rattle.affinity.specs.Layout.{layout_of};
ghost use Rattle.affinity.specs.Tree.{IsNode, IsParent};
ghost use Rattle.affinity.specs.Tree.{covers, is_above, parent_of, volume_in};
ghost use Rattle.affinity.specs.Under.{ShareParcel};

use crate::affinity::{Affinity, CallNode, Kind};
use crate::layout::Layout;

impl CallNode {
    /// The same node, as one of all nodes of the tree.
    pub fn node(self) -> Affinity
        ensures { result ≡ call_affinity self }
    {
        match self {
            CallNode::Stripe { volume, stripe } => Affinity::Stripe { volume, stripe },
            CallNode::Logical(volume) => Affinity::VolumeLogical(volume),
            CallNode::Volume(volume) => Affinity::Volume(volume),
            CallNode::Aggregate(aggregate) => Affinity::Aggregate(aggregate),
            CallNode::Serial => Affinity::Serial,
        }
    }
}

impl Affinity {
    /// What it is one of.
    pub fn kind(self) -> Kind
        ensures { result ≡ kind_of (affinity_of self) }
    {
        match self {
            Affinity::Serial => Kind::Serial,
            Affinity::Aggregate(_) => Kind::Aggregate,
            Affinity::Volume(_) => Kind::Volume,
            Affinity::VolumeLogical(_) => Kind::VolumeLogical,
            Affinity::Stripe { .. } => Kind::Stripe,
            Affinity::VolumeVbn(_) => Kind::VolumeVbn,
            Affinity::Range { .. } => Kind::Range,
        }
    }

    /// The next affinity towards the root, which has none.
    pub fn parent(self, layout: &Layout) -> Option<Affinity>
        ensures parent { option_map affinity_of result
            ≡ parent_of (layout_of layout.now) (affinity_of self) }
        ensures way { IfSome result (λ p.
            IsParent (layout_of layout.now) (affinity_of p) (affinity_of self)) }
        ensures root { IsNone result ↔ (self ≡ Affinity.Serial) }
        ensures node { IsNode (layout_of layout.now) (affinity_of self)
            → IfSome result (λ p. IsNode (layout_of layout.now) (affinity_of p)) }
    {
        match self {
            Affinity::Serial => None,
            Affinity::Aggregate(_) => Some(Affinity::Serial),
            Affinity::Volume(volume) => Some(Affinity::Aggregate(layout.aggregate_of(volume))),
            Affinity::VolumeLogical(volume) => Some(Affinity::Volume(volume)),
            Affinity::Stripe { volume, .. } => Some(Affinity::VolumeLogical(volume)),
            Affinity::VolumeVbn(volume) => Some(Affinity::Volume(volume)),
            Affinity::Range { volume, .. } => Some(Affinity::VolumeVbn(volume)),
        }
    }

    /// The volume that it is of or below.
    fn volume(self) -> Option<u32>
        ensures { result ≡ volume_in (affinity_of self) }
    {
        match self {
            Affinity::Serial | Affinity::Aggregate(_) => None,
            Affinity::Volume(volume)
            | Affinity::VolumeLogical(volume)
            | Affinity::VolumeVbn(volume)
            | Affinity::Stripe { volume, .. }
            | Affinity::Range { volume, .. } => Some(volume),
        }
    }

    /// Whether an aggregate is this one or above it.
    fn is_in_aggregate(self, aggregate: u32, layout: &Layout) -> bool
        ensures { result
            ≡ covers (layout_of layout.now) (trees.Aggregate aggregate) (affinity_of self) }
    {
        match self {
            Affinity::Serial => false,
            Affinity::Aggregate(other) => other == aggregate,
            Affinity::Volume(volume)
            | Affinity::VolumeLogical(volume)
            | Affinity::VolumeVbn(volume)
            | Affinity::Stripe { volume, .. }
            | Affinity::Range { volume, .. } => layout.aggregate_of(volume) == aggregate,
        }
    }

    /// Whether another affinity is this one or below it.
    pub fn covers(self, other: Affinity, layout: &Layout) -> bool
        ensures { result ≡ covers (layout_of layout.now) (affinity_of self) (affinity_of other) }
    {
        match self {
            Affinity::Serial => true,
            Affinity::Aggregate(aggregate) => other.is_in_aggregate(aggregate, layout),
            Affinity::Volume(volume) => other.volume() == Some(volume),
            Affinity::VolumeLogical(volume) => match other {
                Affinity::VolumeLogical(of) | Affinity::Stripe { volume: of, .. } => of == volume,
                _ => false,
            },
            Affinity::VolumeVbn(volume) => match other {
                Affinity::VolumeVbn(of) | Affinity::Range { volume: of, .. } => of == volume,
                _ => false,
            },
            Affinity::Stripe { .. } | Affinity::Range { .. } => self == other,
        }
    }

    /// Whether it is above another.
    pub fn is_above(self, other: Affinity, layout: &Layout) -> bool
        ensures { result ≡ is_above (layout_of layout.now) (affinity_of self) (affinity_of other) }
    {
        self.covers(other, layout) && !other.covers(self, layout)
    }

    /// Whether both are one node or one of them is above the other: exactly then a parcel is under
    /// both.
    pub fn excludes(self, other: Affinity, layout: &Layout) -> bool
        ensures excludes { result
            ≡ excludes (layout_of layout.now) (affinity_of self) (affinity_of other) }
        ensures shared { IsNode (layout_of layout.now) (affinity_of self)
            → IsNode (layout_of layout.now) (affinity_of other)
            → (IsTrue result
            ↔ ShareParcel (layout_of layout.now) (affinity_of self) (affinity_of other)) }
    {
        self.meets(other, layout)
    }

    /// Whether it is another or one of the two is above the other.
    fn meets(self, other: Affinity, layout: &Layout) -> bool
        ensures { result ≡ excludes (layout_of layout.now) (affinity_of self) (affinity_of other) }
    {
        self.covers(other, layout) || other.covers(self, layout)
    }
}
