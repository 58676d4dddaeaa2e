//! A type for each kind of node.

ghost use Rattle.affinity.specs.declared.affinity.Kind.TheVariants as kinds;
ghost use Rattle.parcels.specs.Sets.{range_parcels, vbn_parcels, stripe_parcels};
ghost use Rattle.parcels.specs.Sets.{logical_parcels, volume_parcels};
ghost use Rattle.parcels.specs.Sets.{aggregate_parcels, serial_parcels};
ghost use Rattle.parcels.specs.Filled.{range_alike, vbn_alike, stripe_alike, logical_alike};
ghost use Rattle.parcels.specs.Filled.{volume_alike, aggregate_alike, serial_alike};
ghost use Rattle.parcels.specs.lemmas.Sorts.{range-kind, vbn-kind, stripe-kind, logical-kind};
ghost use Rattle.parcels.specs.lemmas.Sorts.{volume-kind, aggregate-kind, serial-kind};
ghost use Rattle.parcels.specs.lemmas.Exactly.{range-exact, vbn-exact, stripe-exact};
ghost use Rattle.parcels.specs.lemmas.Exactly.{logical-exact, volume-exact};
ghost use Rattle.parcels.specs.lemmas.Exactly.{aggregate-exact, serial-exact};
ghost use Rattle.parcels.specs.lemmas.Within.{range-within, vbn-within, stripe-within};
ghost use Rattle.parcels.specs.lemmas.Within.{logical-within, volume-within};
ghost use Rattle.parcels.specs.lemmas.Within.{aggregate-within, serial-within};

use crate::around::volume_number;
use crate::family::{Family, Parcel};
use crate::gather::{gather_at, gather_children, take_own};
use crate::node::Node;
use crate::sets::{AggrHeld, LogicalHeld, RangeHeld, SerialHeld, StripeHeld, VbnHeld, VolumeHeld};
use crate::shelf::Shelf;
use crate::slots::{SlotArray, eight_slots, sixteen_slots, two_slots};
use affinity::{Affinity, Kind, Layout};

/// The root, with all parcels.
pub struct SerialNode;

impl<P: Family> Node<Parcel<P>> for SerialNode {
    type Held = SerialHeld<P>;

    ghost KIND = { kinds.Serial };

    const KIND: Kind = Kind::Serial;

    ghost parcels = { serial_parcels };

    ghost alike = { serial_alike };

    fn gather<S: Shelf<Parcel<P>>>(
        shelf: &mut S,
        layout: &Layout,
        affinity: Affinity,
    ) -> SerialHeld<P> {
        let own = take_own::<Parcel<P>, SerialNode, S>(shelf, layout, affinity);
        let mut aggregates = two_slots();
        gather_children::<Parcel<P>, AggregateNode, SlotArray<AggrHeld<P>, 2>, S>(
            shelf,
            layout,
            affinity,
            &mut aggregates,
        );
        SerialHeld { own, aggregates }
    }

    fn scatter<S: Shelf<Parcel<P>>>(
        shelf: &mut S,
        layout: &Layout,
        affinity: Affinity,
        held: SerialHeld<P>,
    ) {
        held.scatter(shelf, layout, affinity);
    }

    ghost of_kind = { serial-kind };

    ghost stays_exact = { serial-exact };

    ghost within = { serial-within };
}

/// An aggregate, with the volumes that are on it.
pub struct AggregateNode;

impl<P: Family> Node<Parcel<P>> for AggregateNode {
    type Held = AggrHeld<P>;

    ghost KIND = { kinds.Aggregate };

    const KIND: Kind = Kind::Aggregate;

    ghost parcels = { aggregate_parcels };

    ghost alike = { aggregate_alike };

    fn gather<S: Shelf<Parcel<P>>>(
        shelf: &mut S,
        layout: &Layout,
        affinity: Affinity,
    ) -> AggrHeld<P> {
        let own = take_own::<Parcel<P>, AggregateNode, S>(shelf, layout, affinity);
        let mut volumes = eight_slots();
        gather_children::<Parcel<P>, VolumeNode, SlotArray<VolumeHeld<P>, 8>, S>(
            shelf,
            layout,
            affinity,
            &mut volumes,
        );
        AggrHeld { own, volumes }
    }

    fn scatter<S: Shelf<Parcel<P>>>(
        shelf: &mut S,
        layout: &Layout,
        affinity: Affinity,
        held: AggrHeld<P>,
    ) {
        held.scatter(shelf, layout, affinity);
    }

    ghost of_kind = { aggregate-kind };

    ghost stays_exact = { aggregate-exact };

    ghost within = { aggregate-within };
}

/// A volume, with its two halves.
pub struct VolumeNode;

impl<P: Family> Node<Parcel<P>> for VolumeNode {
    type Held = VolumeHeld<P>;

    ghost KIND = { kinds.Volume };

    const KIND: Kind = Kind::Volume;

    ghost parcels = { volume_parcels };

    ghost alike = { volume_alike };

    fn gather<S: Shelf<Parcel<P>>>(
        shelf: &mut S,
        layout: &Layout,
        affinity: Affinity,
    ) -> VolumeHeld<P> {
        let volume = volume_number(affinity);
        let own = take_own::<Parcel<P>, VolumeNode, S>(shelf, layout, Affinity::Volume(volume));
        let logical = gather_at::<Parcel<P>, LogicalNode, S>(
            shelf,
            layout,
            Affinity::VolumeLogical(volume),
        );
        let vbn = gather_at::<Parcel<P>, VbnNode, S>(shelf, layout, Affinity::VolumeVbn(volume));
        VolumeHeld { own, logical, vbn }
    }

    fn scatter<S: Shelf<Parcel<P>>>(
        shelf: &mut S,
        layout: &Layout,
        affinity: Affinity,
        held: VolumeHeld<P>,
    ) {
        held.scatter(shelf, layout, affinity);
    }

    ghost of_kind = { volume-kind };

    ghost stays_exact = { volume-exact };

    ghost within = { volume-within };
}

/// A volume's names and attributes, with its stripes.
pub struct LogicalNode;

impl<P: Family> Node<Parcel<P>> for LogicalNode {
    type Held = LogicalHeld<P>;

    ghost KIND = { kinds.VolumeLogical };

    const KIND: Kind = Kind::VolumeLogical;

    ghost parcels = { logical_parcels };

    ghost alike = { logical_alike };

    fn gather<S: Shelf<Parcel<P>>>(
        shelf: &mut S,
        layout: &Layout,
        affinity: Affinity,
    ) -> LogicalHeld<P> {
        let own = take_own::<Parcel<P>, LogicalNode, S>(shelf, layout, affinity);
        let mut stripes = sixteen_slots();
        gather_children::<Parcel<P>, StripeNode, SlotArray<StripeHeld<P>, 16>, S>(
            shelf,
            layout,
            affinity,
            &mut stripes,
        );
        LogicalHeld { own, stripes }
    }

    fn scatter<S: Shelf<Parcel<P>>>(
        shelf: &mut S,
        layout: &Layout,
        affinity: Affinity,
        held: LogicalHeld<P>,
    ) {
        held.scatter(shelf, layout, affinity);
    }

    ghost of_kind = { logical-kind };

    ghost stays_exact = { logical-exact };

    ghost within = { logical-within };
}

/// A stripe.
pub struct StripeNode;

impl<P: Family> Node<Parcel<P>> for StripeNode {
    type Held = StripeHeld<P>;

    ghost KIND = { kinds.Stripe };

    const KIND: Kind = Kind::Stripe;

    ghost parcels = { stripe_parcels };

    ghost alike = { stripe_alike };

    fn gather<S: Shelf<Parcel<P>>>(
        shelf: &mut S,
        layout: &Layout,
        affinity: Affinity,
    ) -> StripeHeld<P> {
        let own = take_own::<Parcel<P>, StripeNode, S>(shelf, layout, affinity);
        StripeHeld { own }
    }

    fn scatter<S: Shelf<Parcel<P>>>(
        shelf: &mut S,
        layout: &Layout,
        affinity: Affinity,
        held: StripeHeld<P>,
    ) {
        held.scatter(shelf, layout, affinity);
    }

    ghost of_kind = { stripe-kind };

    ghost stays_exact = { stripe-exact };

    ghost within = { stripe-within };
}

/// A volume's block numbers, with their ranges.
pub struct VbnNode;

impl<P: Family> Node<Parcel<P>> for VbnNode {
    type Held = VbnHeld<P>;

    ghost KIND = { kinds.VolumeVbn };

    const KIND: Kind = Kind::VolumeVbn;

    ghost parcels = { vbn_parcels };

    ghost alike = { vbn_alike };

    fn gather<S: Shelf<Parcel<P>>>(
        shelf: &mut S,
        layout: &Layout,
        affinity: Affinity,
    ) -> VbnHeld<P> {
        let own = take_own::<Parcel<P>, VbnNode, S>(shelf, layout, affinity);
        let mut ranges = sixteen_slots();
        gather_children::<Parcel<P>, RangeNode, SlotArray<RangeHeld<P>, 16>, S>(
            shelf,
            layout,
            affinity,
            &mut ranges,
        );
        VbnHeld { own, ranges }
    }

    fn scatter<S: Shelf<Parcel<P>>>(
        shelf: &mut S,
        layout: &Layout,
        affinity: Affinity,
        held: VbnHeld<P>,
    ) {
        held.scatter(shelf, layout, affinity);
    }

    ghost of_kind = { vbn-kind };

    ghost stays_exact = { vbn-exact };

    ghost within = { vbn-within };
}

/// A range of block numbers.
pub struct RangeNode;

impl<P: Family> Node<Parcel<P>> for RangeNode {
    type Held = RangeHeld<P>;

    ghost KIND = { kinds.Range };

    const KIND: Kind = Kind::Range;

    ghost parcels = { range_parcels };

    ghost alike = { range_alike };

    fn gather<S: Shelf<Parcel<P>>>(
        shelf: &mut S,
        layout: &Layout,
        affinity: Affinity,
    ) -> RangeHeld<P> {
        let own = take_own::<Parcel<P>, RangeNode, S>(shelf, layout, affinity);
        RangeHeld { own }
    }

    fn scatter<S: Shelf<Parcel<P>>>(
        shelf: &mut S,
        layout: &Layout,
        affinity: Affinity,
        held: RangeHeld<P>,
    ) {
        held.scatter(shelf, layout, affinity);
    }

    ghost of_kind = { range-kind };

    ghost stays_exact = { range-exact };

    ghost within = { range-within };
}
