//! The family of a filer's parcels.

use crate::logical::LogicalParcel;
use crate::range::RangeParcel;
use crate::stripe::StripeParcel;
use parcels::Family;

/// The parcels of a filer. What grows is behind one pointer, so that a volume's set is moved at
/// little cost. An aggregate's is the number of its spare ranges.
pub struct Files;

impl Family for Files {
    type Range = RangeParcel;

    type Vbn = ();

    type Stripe = StripeParcel;

    type Logical = LogicalParcel;

    type Volume = ();

    type Aggregate = u32;

    type Serial = ();
}
