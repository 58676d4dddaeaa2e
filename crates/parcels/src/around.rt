//! Which volume a node is or lies in, and which aggregate or stripe it is, by number.

ghost use Rattle.std.specs.Prelude.{◌≡◌};
ghost use Rattle.affinity.specs.Affinity.{affinity_of};
ghost use Rattle.parcels.specs.Around.{stripe_number};
ghost use Rattle.parcels.specs.Sets.{aggregate_number, volume_around};

use affinity::Affinity;

/// The volume that a node is, or lies in; 0 for a node above volumes.
pub fn volume_number(affinity: Affinity) -> u32
    ensures { result ≡ volume_around (affinity_of affinity) }
{
    match affinity {
        Affinity::Serial => 0,
        Affinity::Aggregate(_) => 0,
        Affinity::Volume(volume) => volume,
        Affinity::VolumeLogical(volume) => volume,
        Affinity::Stripe { volume, .. } => volume,
        Affinity::VolumeVbn(volume) => volume,
        Affinity::Range { volume, .. } => volume,
    }
}

/// The aggregate that a node is; 0 for any other node.
pub fn aggregate_number(affinity: Affinity) -> u32
    ensures { result ≡ aggregate_number (affinity_of affinity) }
{
    match affinity {
        Affinity::Serial => 0,
        Affinity::Aggregate(aggregate) => aggregate,
        Affinity::Volume(_) => 0,
        Affinity::VolumeLogical(_) => 0,
        Affinity::Stripe { .. } => 0,
        Affinity::VolumeVbn(_) => 0,
        Affinity::Range { .. } => 0,
    }
}

/// The stripe of its volume that a node is; 0 for any other node.
pub fn stripe_number(affinity: Affinity) -> u32
    ensures { result ≡ stripe_number (affinity_of affinity) }
{
    match affinity {
        Affinity::Serial => 0,
        Affinity::Aggregate(_) => 0,
        Affinity::Volume(_) => 0,
        Affinity::VolumeLogical(_) => 0,
        Affinity::Stripe { stripe, .. } => stripe,
        Affinity::VolumeVbn(_) => 0,
        Affinity::Range { .. } => 0,
    }
}
