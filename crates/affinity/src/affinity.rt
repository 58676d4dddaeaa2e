//! Affinities.

ghost use Rattle.affinity.specs.declared.affinity.Kind.{Kind};

/// What a call runs on: a node of the tree. Serial is above the aggregates, an aggregate above its
/// volumes, a volume above its logical part and its block numbers, the logical part above the
/// stripes and the block numbers above the ranges.
#[derive(Clone, Copy, Debug, PartialEq, Eq)]
pub enum Affinity {
    /// The root of the tree.
    Serial,
    Aggregate(u32),
    Volume(u32),
    /// The names and attributes of a volume.
    VolumeLogical(u32),
    /// A part of the files' bytes.
    Stripe { volume: u32, stripe: u32 },
    /// The block numbers of a volume.
    VolumeVbn(u32),
    /// A part of the block numbers.
    Range { volume: u32, range: u32 },
}

/// A node at which calls run: any but a volume's block numbers and their ranges. A call's home is
/// the one that it tries first.
#[derive(Clone, Copy, Debug, PartialEq, Eq)]
pub enum CallNode {
    /// A part of the files' bytes.
    Stripe { volume: u32, stripe: u32 },
    /// The names and attributes of a volume.
    Logical(u32),
    Volume(u32),
    Aggregate(u32),
    /// The root of the tree.
    Serial,
}

/// What an affinity is one of.
#[derive(Clone, Copy, PartialEq, Eq)]
pub enum Kind {
    Serial,
    Aggregate,
    Volume,
    VolumeLogical,
    Stripe,
    VolumeVbn,
    Range,
}

/// A type whose values are each of one kind of node, as a machine's parcels are.
pub trait HasKind {
    // The kind of the nodes that may have it.
    ghost kind: { Self → Kind };
}
