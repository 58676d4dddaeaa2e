//! Families of parcels.

/// The types of the parcels of a machine, one for each kind of affinity.
pub trait Family {
    type Range: Drop;

    type Vbn: Drop;

    type Stripe: Drop;

    type Logical: Drop;

    type Volume: Drop;

    type Aggregate: Drop;

    type Serial: Drop;
}

/// What a node of the tree holds.
#[derive(Drop)]
pub enum Parcel<P: Family> {
    Range(P::Range),
    Vbn(P::Vbn),
    Stripe(P::Stripe),
    Logical(P::Logical),
    Volume(P::Volume),
    Aggregate(P::Aggregate),
    Serial(P::Serial),
}
