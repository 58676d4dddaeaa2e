//! The nodes below a node whose set has slots for theirs.

ghost use Rattle.std.specs.Prelude.{◌≡◌, ◌≤◌};
ghost use Rattle.affinity.specs.Affinity.{affinity_of};
ghost use Rattle.affinity.specs.Layout.{layout_of};
ghost use Rattle.parcels.specs.Children.{child, children, has_child, most_children};

use affinity::{Affinity, Layout, MOST_RANGES};

/// The node of a slot.
pub(crate) fn child(parent: Affinity, index: u32) -> Affinity
    ensures { affinity_of result ≡ child (affinity_of parent) index }
{
    match parent {
        Affinity::Serial => Affinity::Aggregate(index),
        Affinity::Aggregate(_) => Affinity::Volume(index),
        Affinity::Volume(_) => parent,
        Affinity::VolumeLogical(volume) => Affinity::Stripe {
            volume,
            stripe: index,
        },
        Affinity::Stripe { .. } => parent,
        Affinity::VolumeVbn(volume) => Affinity::Range {
            volume,
            range: index,
        },
        Affinity::Range { .. } => parent,
    }
}

/// How many slots are for nodes of the layout.
pub(crate) fn child_count(layout: &Layout, parent: Affinity) -> u32
    ensures count { result ≡ children (layout_of layout.now) (affinity_of parent) }
    ensures most { result ≤ most_children (affinity_of parent) }
{
    match parent {
        Affinity::Serial => layout.aggregate_count() as u32,
        Affinity::Aggregate(_) => layout.volume_count() as u32,
        Affinity::Volume(_) => 0,
        Affinity::VolumeLogical(volume) => layout.stripes_of(volume),
        Affinity::Stripe { .. } => 0,
        Affinity::VolumeVbn(_) => MOST_RANGES,
        Affinity::Range { .. } => 0,
    }
}

/// Whether a slot is in use.
pub(crate) fn has_child(layout: &Layout, parent: Affinity, index: u32) -> bool
    ensures { result ≡ has_child (layout_of layout.now) (affinity_of parent) index }
{
    match parent {
        Affinity::Serial => true,
        Affinity::Aggregate(aggregate) => layout.aggregate_of(index) == aggregate,
        Affinity::Volume(_) => true,
        Affinity::VolumeLogical(_) => true,
        Affinity::Stripe { .. } => true,
        Affinity::VolumeVbn(_) => true,
        Affinity::Range { .. } => true,
    }
}
