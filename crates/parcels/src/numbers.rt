//! A family for tests.

ghost use Rattle.std.specs.Prelude.{◌≡◌};
ghost use Rattle.parcels.specs.Exact.{kind_in};
ghost use Rattle.parcels.specs.NumberIn.{number_in};

use crate::family::{Family, Parcel};
use affinity::Kind;

/// Each parcel is one number.
pub struct Numbers;

impl Family for Numbers {
    type Range = u64;

    type Vbn = u64;

    type Stripe = u64;

    type Logical = u64;

    type Volume = u64;

    type Aggregate = u64;

    type Serial = u64;
}

impl Numbers {
    /// A parcel of a kind of node, with this number.
    pub fn parcel(kind: Kind, number: u64) -> Parcel<Numbers>
        ensures kind { kind_in result ≡ kind }
        ensures number { number_in result ≡ number }
    {
        match kind {
            Kind::Serial => Parcel::Serial(number),
            Kind::Aggregate => Parcel::Aggregate(number),
            Kind::Volume => Parcel::Volume(number),
            Kind::VolumeLogical => Parcel::Logical(number),
            Kind::Stripe => Parcel::Stripe(number),
            Kind::VolumeVbn => Parcel::Vbn(number),
            Kind::Range => Parcel::Range(number),
        }
    }
}
