//! What a run of a call comes to.

ghost use Rattle.std.specs.Prelude.{◌≡◌};
ghost use Rattle.service_data.specs.Promises.{reading_outcome};
ghost use Rattle.service_data.specs.Writing.{writing_outcome, written_outcome};
ghost use Rattle.service.specs.totals.Census.{census_outcome};
ghost use Rattle.service.specs.totals.Growing.{growing_outcome};
ghost use Rattle.service.specs.Running.{outcome_of};

use affinity::CallNode;
use nfs_values::answer::{ReadResults, VolumeCount, WriteResults};
use nfs_values::{Answer, Reply, Status, VolumeNumber};
use std::alloc::AllocError;

/// What a run of a call comes to. But for a reply nothing has changed.
#[derive(Drop)]
pub enum Outcome {
    Replied(Reply),
    /// Memory ran out.
    Starved,
    /// It has to run on this node.
    Moved(CallNode),
}

/// What a READ comes to.
pub(crate) fn outcome_read(read: Result<Result<ReadResults, Status>, AllocError>) -> Outcome
    ensures { outcome_of result ≡ reading_outcome read }
{
    match read {
        Ok(told) => Outcome::Replied(Reply::Success(Answer::Read(told))),
        Err(AllocError) => Outcome::Starved,
    }
}

/// What a WRITE in a stripe of a volume comes to.
pub(crate) fn outcome_written_in_stripe(
    volume: VolumeNumber,
    written: Option<Result<WriteResults, Status>>,
) -> Outcome
    ensures { outcome_of result ≡ writing_outcome volume.0 written }
{
    match written {
        Some(told) => Outcome::Replied(Reply::Success(Answer::Write(told))),
        None => Outcome::Moved(CallNode::Logical(volume.0)),
    }
}

/// What a WRITE under Volume Logical of a volume comes to, or under Volume.
pub(crate) fn outcome_written(
    volume: VolumeNumber,
    written: Result<Option<Result<WriteResults, Status>>, AllocError>,
) -> Outcome
    ensures { outcome_of result ≡ written_outcome volume.0 written }
{
    match written {
        Ok(Some(told)) => Outcome::Replied(Reply::Success(Answer::Write(told))),
        Ok(None) => Outcome::Moved(CallNode::Volume(volume.0)),
        Err(AllocError) => Outcome::Starved,
    }
}

/// What a CENSUS comes to.
pub(crate) fn outcome_counted(counted: Result<Vec<VolumeCount>, AllocError>) -> Outcome
    ensures { outcome_of result ≡ census_outcome counted }
{
    match counted {
        Ok(counts) => Outcome::Replied(Reply::Success(Answer::Census(counts))),
        Err(AllocError) => Outcome::Starved,
    }
}

/// What a GROW comes to.
pub(crate) fn outcome_grown(told: Result<u64, Status>) -> Outcome
    ensures { outcome_of result ≡ growing_outcome told }
{
    Outcome::Replied(Reply::Success(Answer::Grow(told)))
}
