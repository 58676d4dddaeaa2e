//! What the parcels of one kind of node have in them.

ghost use Rattle.std.specs.Prelude.{◌≡◌, ◌≢◌, IfOk, IfErr};
ghost use Rattle.affinity.specs.declared.affinity.Kind.{Kind};
ghost use Rattle.affinity.specs.declared.affinity.Kind.TheVariants as kinds;
ghost use Rattle.parcels.specs.declared.family.Parcel.TheVariants as parcels;

use crate::family::{Family, Parcel};
use crate::nodes::{
    AggregateNode, LogicalNode, RangeNode, SerialNode, StripeNode, VbnNode, VolumeNode,
};
use affinity::HasKind;

/// A kind of node, each of whose nodes has a parcel of its own.
pub(crate) trait OwnParcel<T: HasKind> {
    /// What the parcel of such a node has in it.
    type Own;

    ghost KIND: { Kind };

    // The parcel that has this in it.
    ghost as_parcel: { Self.Own → T };

    /// What a parcel has in it, or the parcel where it is of another kind.
    fn own_of(parcel: T) -> Result<Self::Own, T>
        ensures own { IfOk result (λ own. parcel ≡ as_parcel own) }
        ensures other { IfErr result (λ other. T.kind parcel ≢ KIND) };
}

impl<P: Family> OwnParcel<Parcel<P>> for SerialNode {
    type Own = P::Serial;

    ghost KIND = { kinds.Serial };

    ghost as_parcel = { λ own. parcels.Serial own };

    fn own_of(parcel: Parcel<P>) -> Result<P::Serial, Parcel<P>> {
        match parcel {
            Parcel::Serial(own) => Ok(own),
            other => Err(other),
        }
    }
}

impl<P: Family> OwnParcel<Parcel<P>> for AggregateNode {
    type Own = P::Aggregate;

    ghost KIND = { kinds.Aggregate };

    ghost as_parcel = { λ own. parcels.Aggregate own };

    fn own_of(parcel: Parcel<P>) -> Result<P::Aggregate, Parcel<P>> {
        match parcel {
            Parcel::Aggregate(own) => Ok(own),
            other => Err(other),
        }
    }
}

impl<P: Family> OwnParcel<Parcel<P>> for VolumeNode {
    type Own = P::Volume;

    ghost KIND = { kinds.Volume };

    ghost as_parcel = { λ own. parcels.Volume own };

    fn own_of(parcel: Parcel<P>) -> Result<P::Volume, Parcel<P>> {
        match parcel {
            Parcel::Volume(own) => Ok(own),
            other => Err(other),
        }
    }
}

impl<P: Family> OwnParcel<Parcel<P>> for LogicalNode {
    type Own = P::Logical;

    ghost KIND = { kinds.VolumeLogical };

    ghost as_parcel = { λ own. parcels.Logical own };

    fn own_of(parcel: Parcel<P>) -> Result<P::Logical, Parcel<P>> {
        match parcel {
            Parcel::Logical(own) => Ok(own),
            other => Err(other),
        }
    }
}

impl<P: Family> OwnParcel<Parcel<P>> for StripeNode {
    type Own = P::Stripe;

    ghost KIND = { kinds.Stripe };

    ghost as_parcel = { λ own. parcels.Stripe own };

    fn own_of(parcel: Parcel<P>) -> Result<P::Stripe, Parcel<P>> {
        match parcel {
            Parcel::Stripe(own) => Ok(own),
            other => Err(other),
        }
    }
}

impl<P: Family> OwnParcel<Parcel<P>> for VbnNode {
    type Own = P::Vbn;

    ghost KIND = { kinds.VolumeVbn };

    ghost as_parcel = { λ own. parcels.Vbn own };

    fn own_of(parcel: Parcel<P>) -> Result<P::Vbn, Parcel<P>> {
        match parcel {
            Parcel::Vbn(own) => Ok(own),
            other => Err(other),
        }
    }
}

impl<P: Family> OwnParcel<Parcel<P>> for RangeNode {
    type Own = P::Range;

    ghost KIND = { kinds.Range };

    ghost as_parcel = { λ own. parcels.Range own };

    fn own_of(parcel: Parcel<P>) -> Result<P::Range, Parcel<P>> {
        match parcel {
            Parcel::Range(own) => Ok(own),
            other => Err(other),
        }
    }
}
