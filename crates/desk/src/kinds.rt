//! The kinds of node at which calls run, one type for each.

ghost use Rattle.std.specs.Prelude.{◌≡◌};
ghost use Rattle.std.proofs.Common.{refl};
ghost use Rattle.affinity.specs.declared.affinity.Kind.TheVariants as kinds;

use affinity::HasKind;
use parcels::{
    AggregateNode, Family, LogicalNode, Node, Parcel, SerialNode, StripeNode, VolumeNode,
};

/// A node type for each kind of node at which calls run.
pub trait NodeKinds<T: HasKind> {
    type Stripe: Node<T>;

    type Logical: Node<T>;

    type Volume: Node<T>;

    type Aggregate: Node<T>;

    type Serial: Node<T>;

    ghost stripe: { Self.Stripe.KIND ≡ kinds.Stripe };

    ghost logical: { Self.Logical.KIND ≡ kinds.VolumeLogical };

    ghost volume: { Self.Volume.KIND ≡ kinds.Volume };

    ghost aggregate: { Self.Aggregate.KIND ≡ kinds.Aggregate };

    ghost serial: { Self.Serial.KIND ≡ kinds.Serial };
}

/// The kinds of node of a family's parcels at which calls run.
pub struct ParcelKinds;

impl<F: Family> NodeKinds<Parcel<F>> for ParcelKinds {
    type Stripe = StripeNode;

    type Logical = LogicalNode;

    type Volume = VolumeNode;

    type Aggregate = AggregateNode;

    type Serial = SerialNode;

    ghost stripe = { refl };

    ghost logical = { refl };

    ghost volume = { refl };

    ghost aggregate = { refl };

    ghost serial = { refl };
}
