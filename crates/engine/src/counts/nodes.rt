//! What a node is of.

ghost use Rattle.std.specs.Prelude.{◌≡◌};
ghost use Rattle.nfs_model.specs.Tree as trees;
ghost use Rattle.affinity.specs.Affinity.{affinity_of, kind_of};
ghost use Rattle.affinity.specs.declared.affinity.Kind.TheVariants as kinds;

use affinity::Affinity;
use parcels::{aggregate_number, volume_number};

/// The volume of a node that is Volume Logical.
pub(crate) fn volume_of_logical(affinity: Affinity) -> u32
    requires { kind_of (affinity_of affinity) ≡ kinds.VolumeLogical }
    ensures { affinity_of affinity ≡ trees.Logical result }
{
    volume_number(affinity)
}

/// The volume of a node that is Volume.
pub(crate) fn volume_around(affinity: Affinity) -> u32
    requires { kind_of (affinity_of affinity) ≡ kinds.Volume }
    ensures { affinity_of affinity ≡ trees.Volume result }
{
    volume_number(affinity)
}

/// The number of a node that is an Aggregate.
pub(crate) fn aggregate_of(affinity: Affinity) -> u32
    requires { kind_of (affinity_of affinity) ≡ kinds.Aggregate }
    ensures { affinity_of affinity ≡ trees.Aggregate result }
{
    aggregate_number(affinity)
}
