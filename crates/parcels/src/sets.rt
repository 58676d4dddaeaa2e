//! Typed sets: the parcel of a node, and the sets of the nodes below.

ghost use Rattle.affinity.specs.declared.affinity.Kind.TheVariants as kinds;
ghost use Rattle.affinity.specs.Affinity.{affinity_of};
ghost use Rattle.affinity.specs.Layout.{layout_of};
ghost use Rattle.parcels.specs.Moved.{AllMoved, MayBeGiven};
ghost use Rattle.parcels.specs.Sets.{range_parcels, vbn_parcels, stripe_parcels};
ghost use Rattle.parcels.specs.Sets.{logical_parcels, volume_parcels};
ghost use Rattle.parcels.specs.Sets.{aggregate_parcels, serial_parcels};

use crate::around::volume_number;
use crate::family::{Family, Parcel};
use crate::nodes::{AggregateNode, LogicalNode, RangeNode, StripeNode, VbnNode, VolumeNode};
use crate::scatter::{put_parcel, scatter_at, scatter_children};
use crate::shelf::Shelf;
use crate::slots::SlotArray;
use affinity::{Affinity, Layout};

/// The parcel of a range.
pub struct RangeHeld<P: Family> {
    pub own: P::Range,
}

// By hand, so that crates above have no proof of the drop of each of its parts.
impl<P: Family> Drop for RangeHeld<P> {
    fn drop(self) {
        let RangeHeld { own: _ } = self;
    }
}

impl<P: Family> RangeHeld<P> {
    // Gives its parcels back to a shelf, each at its node.
    pub(crate) fn scatter<S: Shelf<Parcel<P>>>(
        self,
        shelf: &mut S,
        layout: &Layout,
        affinity: Affinity,
    )
        requires { let L = layout_of layout.now in let a = affinity_of affinity in
            MayBeGiven L a kinds.Range (S.at shelf.old) (S.allows shelf.old)
            (range_parcels L a self) }
        ensures moved { AllMoved (S.at shelf.new)
            (range_parcels (layout_of layout.now) (affinity_of affinity) self) (S.at shelf.old) }
        ensures kept { S.keeps shelf.old shelf.new }
    {
        let RangeHeld { own } = self;
        put_parcel(shelf, layout, affinity, Parcel::Range(own));
    }
}

/// The parcel of a volume's block numbers, and those of its 16 ranges.
pub struct VbnHeld<P: Family> {
    pub own: P::Vbn,
    pub ranges: SlotArray<RangeHeld<P>, 16>,
}

// By hand, so that crates above have no proof of the drop of each of its parts.
impl<P: Family> Drop for VbnHeld<P> {
    fn drop(self) {
        let VbnHeld { own: _, ranges: _ } = self;
    }
}

impl<P: Family> VbnHeld<P> {
    // Gives its parcels back to a shelf, each at its node.
    pub(crate) fn scatter<S: Shelf<Parcel<P>>>(
        self,
        shelf: &mut S,
        layout: &Layout,
        affinity: Affinity,
    )
        requires { let L = layout_of layout.now in let a = affinity_of affinity in
            MayBeGiven L a kinds.VolumeVbn (S.at shelf.old) (S.allows shelf.old)
            (vbn_parcels L a self) }
        ensures moved { AllMoved (S.at shelf.new)
            (vbn_parcels (layout_of layout.now) (affinity_of affinity) self) (S.at shelf.old) }
        ensures kept { S.keeps shelf.old shelf.new }
    {
        let VbnHeld { own, ranges } = self;
        put_parcel(shelf, layout, affinity, Parcel::Vbn(own));
        scatter_children::<Parcel<P>, RangeNode, SlotArray<RangeHeld<P>, 16>, S>(
            shelf, layout, affinity, ranges,
        );
    }
}

/// The parcel of a stripe.
pub struct StripeHeld<P: Family> {
    pub own: P::Stripe,
}

// By hand, so that crates above have no proof of the drop of each of its parts.
impl<P: Family> Drop for StripeHeld<P> {
    fn drop(self) {
        let StripeHeld { own: _ } = self;
    }
}

impl<P: Family> StripeHeld<P> {
    // Gives its parcels back to a shelf, each at its node.
    pub(crate) fn scatter<S: Shelf<Parcel<P>>>(
        self,
        shelf: &mut S,
        layout: &Layout,
        affinity: Affinity,
    )
        requires { let L = layout_of layout.now in let a = affinity_of affinity in
            MayBeGiven L a kinds.Stripe (S.at shelf.old) (S.allows shelf.old)
            (stripe_parcels L a self) }
        ensures moved { AllMoved (S.at shelf.new)
            (stripe_parcels (layout_of layout.now) (affinity_of affinity) self) (S.at shelf.old) }
        ensures kept { S.keeps shelf.old shelf.new }
    {
        let StripeHeld { own } = self;
        put_parcel(shelf, layout, affinity, Parcel::Stripe(own));
    }
}

/// The parcel of a volume's names and attributes, and those of its stripes, of which there are as
/// many as the layout says.
pub struct LogicalHeld<P: Family> {
    pub own: P::Logical,
    pub stripes: SlotArray<StripeHeld<P>, 16>,
}

// By hand, so that crates above have no proof of the drop of each of its parts.
impl<P: Family> Drop for LogicalHeld<P> {
    fn drop(self) {
        let LogicalHeld { own: _, stripes: _ } = self;
    }
}

impl<P: Family> LogicalHeld<P> {
    // Gives its parcels back to a shelf, each at its node.
    pub(crate) fn scatter<S: Shelf<Parcel<P>>>(
        self,
        shelf: &mut S,
        layout: &Layout,
        affinity: Affinity,
    )
        requires { let L = layout_of layout.now in let a = affinity_of affinity in
            MayBeGiven L a kinds.VolumeLogical (S.at shelf.old) (S.allows shelf.old)
            (logical_parcels L a self) }
        ensures moved { AllMoved (S.at shelf.new)
            (logical_parcels (layout_of layout.now) (affinity_of affinity) self) (S.at shelf.old) }
        ensures kept { S.keeps shelf.old shelf.new }
    {
        let LogicalHeld { own, stripes } = self;
        put_parcel(shelf, layout, affinity, Parcel::Logical(own));
        scatter_children::<Parcel<P>, StripeNode, SlotArray<StripeHeld<P>, 16>, S>(
            shelf, layout, affinity, stripes,
        );
    }
}

/// The parcels of a volume.
pub struct VolumeHeld<P: Family> {
    pub own: P::Volume,
    pub logical: LogicalHeld<P>,
    pub vbn: VbnHeld<P>,
}

// By hand, so that crates above have no proof of the drop of each of its parts.
impl<P: Family> Drop for VolumeHeld<P> {
    fn drop(self) {
        let VolumeHeld {
            own: _,
            logical: _,
            vbn: _,
        } = self;
    }
}

impl<P: Family> VolumeHeld<P> {
    // Gives its parcels back to a shelf, each at its node.
    pub(crate) fn scatter<S: Shelf<Parcel<P>>>(
        self,
        shelf: &mut S,
        layout: &Layout,
        affinity: Affinity,
    )
        requires { let L = layout_of layout.now in let a = affinity_of affinity in
            MayBeGiven L a kinds.Volume (S.at shelf.old) (S.allows shelf.old)
            (volume_parcels L a self) }
        ensures moved { AllMoved (S.at shelf.new)
            (volume_parcels (layout_of layout.now) (affinity_of affinity) self) (S.at shelf.old) }
        ensures kept { S.keeps shelf.old shelf.new }
    {
        let volume = volume_number(affinity);
        let VolumeHeld { own, logical, vbn } = self;
        put_parcel(shelf, layout, Affinity::Volume(volume), Parcel::Volume(own));
        scatter_at::<Parcel<P>, LogicalNode, S>(
            shelf,
            layout,
            Affinity::VolumeLogical(volume),
            logical,
        );
        scatter_at::<Parcel<P>, VbnNode, S>(shelf, layout, Affinity::VolumeVbn(volume), vbn);
    }
}

/// The parcel of an aggregate and, by their numbers, the sets of the volumes that are on it.
pub struct AggrHeld<P: Family> {
    pub own: P::Aggregate,
    pub volumes: SlotArray<VolumeHeld<P>, 8>,
}

// By hand, so that crates above have no proof of the drop of each of its parts.
impl<P: Family> Drop for AggrHeld<P> {
    fn drop(self) {
        let AggrHeld { own: _, volumes: _ } = self;
    }
}

impl<P: Family> AggrHeld<P> {
    // Gives its parcels back to a shelf, each at its node.
    pub(crate) fn scatter<S: Shelf<Parcel<P>>>(
        self,
        shelf: &mut S,
        layout: &Layout,
        affinity: Affinity,
    )
        requires { let L = layout_of layout.now in let a = affinity_of affinity in
            MayBeGiven L a kinds.Aggregate (S.at shelf.old) (S.allows shelf.old)
            (aggregate_parcels L a self) }
        ensures moved { AllMoved (S.at shelf.new)
            (aggregate_parcels (layout_of layout.now) (affinity_of affinity) self)
            (S.at shelf.old) }
        ensures kept { S.keeps shelf.old shelf.new }
    {
        let AggrHeld { own, volumes } = self;
        put_parcel(shelf, layout, affinity, Parcel::Aggregate(own));
        scatter_children::<Parcel<P>, VolumeNode, SlotArray<VolumeHeld<P>, 8>, S>(
            shelf, layout, affinity, volumes,
        );
    }
}

/// The parcels of the whole tree.
pub struct SerialHeld<P: Family> {
    pub own: P::Serial,
    pub aggregates: SlotArray<AggrHeld<P>, 2>,
}

// By hand, so that crates above have no proof of the drop of each of its parts.
impl<P: Family> Drop for SerialHeld<P> {
    fn drop(self) {
        let SerialHeld {
            own: _,
            aggregates: _,
        } = self;
    }
}

impl<P: Family> SerialHeld<P> {
    // Gives its parcels back to a shelf, each at its node.
    pub(crate) fn scatter<S: Shelf<Parcel<P>>>(
        self,
        shelf: &mut S,
        layout: &Layout,
        affinity: Affinity,
    )
        requires { let L = layout_of layout.now in let a = affinity_of affinity in
            MayBeGiven L a kinds.Serial (S.at shelf.old) (S.allows shelf.old)
            (serial_parcels L a self) }
        ensures moved { AllMoved (S.at shelf.new)
            (serial_parcels (layout_of layout.now) (affinity_of affinity) self) (S.at shelf.old) }
        ensures kept { S.keeps shelf.old shelf.new }
    {
        let SerialHeld { own, aggregates } = self;
        put_parcel(shelf, layout, affinity, Parcel::Serial(own));
        scatter_children::<Parcel<P>, AggregateNode, SlotArray<AggrHeld<P>, 2>, S>(
            shelf, layout, affinity, aggregates,
        );
    }
}
