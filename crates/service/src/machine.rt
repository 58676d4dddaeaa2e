//! The machine.

use crate::batch::BatchInHand;
use crate::job::{BatchReply, FreeCounts, InnerCall, Job, JobReply, ServedCall};
use depot::Entered;
use depot_rule::machine::Machine;
use filer_state::Files;
use nfs_values::Reply;
use parcels::Parcel;

/// Calls on the parcels of a filer: whatever the other parcels are, each does what the serial
/// server does, and all that has to hold of them stays so.
pub struct Service;

impl Machine for Service {
    ghost use Rattle.filer_state.specs.state.Sound.{IsFiler};
    ghost use Rattle.service.specs.Jobs.{job_steps, job_takes, job_gives, jobs-local, jobs-keep};

    type Parcel = Parcel<Files>;

    type Call = Job;

    type Reply = JobReply;

    type Batch = BatchInHand;

    ghost steps = { job_steps };

    ghost takes = { job_takes };

    ghost gives = { job_gives };

    ghost invariant = { IsFiler };

    ghost local = { jobs-local };

    ghost keeps = { jobs-keep };
}

impl Entered<Job> for ServedCall {
    ghost use Rattle.service.specs.declared.job.Job.TheVariants.{Serve};

    ghost entered = { λ call. Serve call };
}

impl Entered<Job> for InnerCall {
    ghost use Rattle.service.specs.declared.job.Job.TheVariants.{Inner};

    ghost entered = { λ call. Inner call };
}

impl Entered<JobReply> for Reply {
    ghost use Rattle.service.specs.declared.job.JobReply.TheVariants as replies;

    ghost entered = { λ reply. replies.Replied reply };
}

impl Entered<JobReply> for BatchReply {
    ghost use Rattle.service.specs.declared.job.JobReply.TheVariants as replies;

    ghost entered = { λ reply. replies.Moved reply };
}

impl Entered<JobReply> for FreeCounts {
    ghost use Rattle.service.specs.declared.job.JobReply.TheVariants as replies;

    ghost entered = { λ counts. replies.Surveyed counts };
}
