//! What a server opens its filer with: its layout, and the verifier of its run.

ghost use Rattle.std.specs.Prelude.{◌≡◌, ◌<◌, ◌≤◌, ℕ, IfOk};
ghost use Rattle.rpc_msg.specs.declared.handle_form.HandleForm.TheVariants.{OfRun};
ghost use Rattle.rpc_msg.specs.HandleForm.{verifier_of};
ghost use Rattle.rpc_msg.specs.Offer.{form_of};
ghost use Rattle.affinity.specs.Layout.{layout_of};
ghost use Rattle.nfs_values.specs.Moment.{moment_of};
ghost use Rattle.server.specs.Planned.{IsLaidOut};

use crate::fault::ServerFault;
use affinity::{AggregateSpec, Layout, MOST_VOLUMES, SizedVolumeSpec, VolumeSpec};
use nfs_values::Moment;
use rpc_msg::{HandleForm, Offer};
use server_options::VolumePlan;
use std::alloc::Global;
use std::rt::Clock;
use tends::time_now;

/// This many volumes of a plan on one aggregate, begun at a moment.
pub(crate) fn layout_of(
    alloc: Global,
    volumes: usize,
    plan: VolumePlan,
    begun: Moment,
) -> Result<Layout, ServerFault>
    requires { volumes ≤ MOST_VOLUMES }
    ensures { IfOk result (λ layout.
        IsLaidOut volumes plan (moment_of begun) (layout_of layout)) }
{
    let aggregates = [AggregateSpec { spare: plan.spare }];
    let specification = SizedVolumeSpec {
        volume: VolumeSpec {
            aggregate: 0,
            ranges: plan.ranges,
            stripes: plan.stripes,
            mib: plan.mib,
        },
        range_blocks: plan.range_blocks,
        inodes: plan.inodes,
        most_steps: plan.most_steps,
        begun,
        root: plan.root,
        remembered: plan.remembered,
    };
    let specifications = [specification; MOST_VOLUMES];
    match Layout::with_sizes(alloc, &aggregates, &specifications[..volumes]) {
        Ok(layout) => Ok(layout),
        Err(_fault) => Err(ServerFault::NoMemory),
    }
}

/// The number of a run that begins now, from the clock: seconds, and nanoseconds in its low half.
/// It is 0 where the clock can't be read.
pub fn run_now<R: Clock>(rt: &R) -> u64 {
    match rt.since_1970() {
        Ok(time) => {
            let seconds = time.as_secs() % (1 << 32);
            (seconds << 32) | u64::from(time.subsec_nanos())
        }
        Err(_failed) => 0,
    }
}

/// The moment at which a run begins now, from the clock, as times of calls are read from it. It is
/// the start of all times where the clock can't be read.
pub fn begun_now<R: Clock>(rt: &R) -> Moment
    ensures { result.nanoseconds < 1000000000 }
{
    time_now(rt, Moment::START)
}

/// The write verifier of a run with an offer: where its handles are of a run, that run's.
pub(crate) fn verifier_for<R: Clock>(rt: &R, offer: Offer) -> [u8; 8]
    ensures { (run : ℕ) → form_of offer ≡ OfRun run → result ≡ verifier_of run }
{
    match offer.handles() {
        HandleForm::OfRun(run) => run.to_be_bytes(),
        HandleForm::Plain => run_now(rt).to_be_bytes(),
    }
}
