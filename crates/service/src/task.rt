//! A call run on what a worker was lent.

use crate::in_aggregate::run_on_aggregate;
use crate::in_logical::run_on_logical;
use crate::in_serial::run_on_serial;
use crate::in_stripe::run_on_stripe;
use crate::in_volume::run_on_volume;
use crate::outcome::Outcome;
use affinity::{Affinity, Layout};
use desk::{ParcelKinds, Task};
use filer_state::Files;
use nfs_values::{Call, Caller, Moment, VolumeNumber};
use parcels::{
    AggrHeld, LogicalHeld, Parcel, SerialHeld, StripeHeld, VolumeHeld, aggregate_number,
    stripe_number, volume_number,
};
use service_names::Ahead;
use std::alloc::Global;

/// A call to be run under its home or above it, as a task on the parcels of the node.
#[derive(Clone, Copy)]
pub struct Run<'a> {
    /// Where replies take memory.
    pub alloc: Global,
    pub call: &'a Call,
    /// Whom it acts for.
    pub caller: &'a Caller,
    pub moment: Moment,
    /// What calls to come look for, if that is noted.
    pub ahead: Option<&'a Ahead>,
}

impl<'a> Task<Parcel<Files>, ParcelKinds> for Run<'a> {
    ghost use Rattle.nfs_values.specs.Caller.{caller_of};
    ghost use Rattle.nfs_values.specs.Moment.{moment_of};
    ghost use Rattle.service.specs.Running.{AsksFor, HasRunCall};

    type Output = Outcome;

    ghost asks = { λ run. AsksFor run.call.now };

    ghost does = { λ run. HasRunCall run.call.now
        (caller_of run.caller.now) (moment_of run.moment) };

    fn on_stripe(
        self,
        layout: &Layout,
        affinity: Affinity,
        held: &mut StripeHeld<Files>,
    ) -> Outcome {
        run_on_stripe(
            self,
            layout,
            VolumeNumber(volume_number(affinity)),
            stripe_number(affinity),
            held,
        )
    }

    fn on_logical(
        self,
        layout: &Layout,
        affinity: Affinity,
        held: &mut LogicalHeld<Files>,
    ) -> Outcome {
        run_on_logical(self, layout, VolumeNumber(volume_number(affinity)), held)
    }

    fn on_volume(
        self,
        layout: &Layout,
        affinity: Affinity,
        held: &mut VolumeHeld<Files>,
    ) -> Outcome {
        run_on_volume(self, layout, VolumeNumber(volume_number(affinity)), held)
    }

    fn on_aggregate(
        self,
        layout: &Layout,
        affinity: Affinity,
        held: &mut AggrHeld<Files>,
    ) -> Outcome {
        run_on_aggregate(self, layout, aggregate_number(affinity), held)
    }

    fn on_serial(self, layout: &Layout, _: Affinity, held: &mut SerialHeld<Files>) -> Outcome {
        run_on_serial(self, layout, held)
    }
}
