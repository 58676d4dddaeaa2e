//! Workers' calls with their hands, run on what the workers were lent.

ghost use Rattle.std.specs.Prelude.{◌≡◌, ℕ};
ghost use Rattle.parcels.specs.Filled.{logical_alike};
ghost use Rattle.nfs_model.specs.Parts as parts;
ghost use Rattle.nfs_model.specs.Moves.{dead_hand, fresh_hand};
ghost use Rattle.filer_state.specs.state.Jobs as jobs;
ghost use Rattle.filer_state.specs.state.Lenses.{range_lens, vbn_lens, logical_lens};
ghost use Rattle.filer_state.specs.state.Sets.{vbn_set, logical_before, logical_after};
ghost use Rattle.service.specs.Inner.{AsksForInner, InnerHasRun};
ghost use Rattle.service.specs.InnerOn.{HasRunOn, MayRunOn, UnlessDone};
ghost use Rattle.service.specs.Jobs.{batch_reply_of, counts_reply_of};

use crate::batch::BatchInHand;
use crate::job::{BatchReply, FreeCounts};
use crate::works::{LogicalWork, RangeWork, SurveyWork};
use affinity::{Affinity, Layout};
use desk::WorkOn;
use filer_state::Files;
use nfs_values::VolumeNumber;
use parcels::{Hand, LogicalHeld, LogicalNode, Parcel, RangeHeld, RangeNode, VbnHeld, VbnNode};
use service_batches::{cull, deliver, fetch, free, survey};
use std::alloc::Global;
use vbn_ranges::Batch;

/// Why a worker's call with its hand isn't done. It changed nothing.
#[derive(Drop)]
pub enum Undone {
    /// The range that it would fetch from isn't in use.
    NoSuchRange,
    /// Memory ran out, or the stock has no room for more: the hand is as it was.
    NoMemory(BatchInHand),
}

/// What a call that moves a batch came to: what its entry replies, or why there is none.
pub type BatchOutcome = Result<BatchReply, Undone>;

/// What a survey came to: the counts that its entry replies, or why there are none.
pub type SurveyOutcome = Result<FreeCounts, Undone>;

impl WorkOn<Parcel<Files>, RangeNode, BatchReply, Undone> for RangeWork {
    ghost use Rattle.service.specs.Works.{range_call_of, range_hand_of};

    ghost asks = { λ work. AsksForInner (range_call_of work) (range_hand_of work) };

    ghost does = { λ work. InnerHasRun batch_reply_of
        (range_call_of work) (range_hand_of work) };

    fn work_on(self, _: &Layout, _: Affinity, held: &mut RangeHeld<Files>) -> BatchOutcome {
        match self {
            RangeWork::Fetch { volume, range: _ } => fetch_into(volume, held),
            RangeWork::Free {
                volume,
                range: _,
                batch,
            } => free_from(volume, batch, held),
        }
    }
}

impl WorkOn<Parcel<Files>, LogicalNode, BatchReply, Undone> for LogicalWork {
    ghost use Rattle.service.specs.Works.{logical_call_of, logical_hand_of};

    ghost asks = { λ work. AsksForInner (logical_call_of work) (logical_hand_of work) };

    ghost does = { λ work. InnerHasRun batch_reply_of
        (logical_call_of work) (logical_hand_of work) };

    fn work_on(self, _: &Layout, _: Affinity, held: &mut LogicalHeld<Files>) -> BatchOutcome {
        match self {
            LogicalWork::Deliver { volume, batch } => deliver_from(volume, batch, held),
            LogicalWork::Cull { volume } => cull_into(volume, held),
        }
    }
}

impl WorkOn<Parcel<Files>, VbnNode, FreeCounts, Undone> for SurveyWork {
    ghost use Rattle.service.specs.Works.{survey_call_of};

    ghost asks = { λ work. AsksForInner (survey_call_of work) parts.Empty };

    ghost does = { λ work. InnerHasRun counts_reply_of (survey_call_of work) parts.Empty };

    fn work_on(self, _: &Layout, _: Affinity, held: &mut VbnHeld<Files>) -> SurveyOutcome {
        let SurveyWork { alloc, volume: _ } = self;
        survey_with(alloc, held)
    }
}

/// Fetches free blocks of a range into an empty hand.
fn fetch_into(volume: VolumeNumber, held: &mut RangeHeld<Files>) -> BatchOutcome
    ensures runs { let r = held.old.own.number in HasRunOn batch_reply_of volume.0 (range_lens r)
        (jobs.Fetch volume.0 r) parts.Empty held.old.own result held.new.own }
    ensures unless { UnlessDone result (held.new ≡ held.old) }
{
    match fetch(held) {
        Some(batch) => Ok(BatchReply::Took(fresh_hand(volume, batch))),
        None => Err(Undone::NoSuchRange),
    }
}

/// Gives dead blocks that were in a hand back to their range.
fn free_from(volume: VolumeNumber, batch: Batch, held: &mut RangeHeld<Files>) -> BatchOutcome
    requires { let r = held.old.own.number in let size = held.old.own.range_blocks in
        MayRunOn size volume.0 (range_lens r)
        (jobs.Free volume.0 r) (parts.Dead volume.0 batch) held.old.own }
    ensures runs { let r = held.old.own.number in HasRunOn batch_reply_of volume.0 (range_lens r)
        (jobs.Free volume.0 r) (parts.Dead volume.0 batch) held.old.own result held.new.own }
    ensures unless { UnlessDone result (held.new ≡ held.old) }
{
    free(held, &batch);
    let volume = volume.0;
    Ok(BatchReply::Gave(BatchInHand::new(Hand::Dead { volume, batch })))
}

/// Tells how many blocks are free, with an empty hand.
fn survey_with(alloc: Global, held: &VbnHeld<Files>) -> SurveyOutcome
    ensures { (v : ℕ) → HasRunOn counts_reply_of v vbn_lens
        (jobs.Survey v) parts.Empty (vbn_set held.now) result (vbn_set held.now) }
{
    match survey(alloc, held) {
        Ok(counts) => Ok(FreeCounts { counts }),
        Err(_) => Err(Undone::NoMemory(BatchInHand::new(Hand::Empty))),
    }
}

/// Delivers free blocks that were in a hand to the stock.
fn deliver_from(volume: VolumeNumber, batch: Batch, held: &mut LogicalHeld<Files>) -> BatchOutcome
    requires { let size = (logical_before held.old).own.dead.range_blocks in
        MayRunOn size volume.0 logical_lens
        (jobs.Deliver volume.0) (parts.Fresh volume.0 batch) (logical_before held.old) }
    ensures runs { HasRunOn batch_reply_of volume.0 logical_lens
        (jobs.Deliver volume.0) (parts.Fresh volume.0 batch)
        (logical_before held.old) result (logical_after held.old held.new) }
    ensures unless { UnlessDone result (held.new ≡ held.old) }
    ensures alike { logical_alike held.old held.new }
{
    let delivered = deliver(held, &batch);
    let volume = volume.0;
    let hand = BatchInHand::new(Hand::Fresh { volume, batch });
    match delivered {
        Ok(()) => Ok(BatchReply::Gave(hand)),
        Err(_) => Err(Undone::NoMemory(hand)),
    }
}

/// Culls dead blocks into an empty hand.
fn cull_into(volume: VolumeNumber, held: &mut LogicalHeld<Files>) -> BatchOutcome
    ensures runs { HasRunOn batch_reply_of volume.0 logical_lens
        (jobs.Cull volume.0) parts.Empty
        (logical_before held.old) result (logical_after held.old held.new) }
    ensures unless { UnlessDone result (held.new ≡ held.old) }
    ensures alike { logical_alike held.old held.new }
{
    let batch = cull(held);
    Ok(BatchReply::Took(dead_hand(volume, batch)))
}

/// A hand with free blocks of a volume; without a block it is empty.
fn fresh_hand(volume: VolumeNumber, batch: Batch) -> BatchInHand
    ensures { result ≡ fresh_hand volume.0 batch }
{
    if batch.is_empty() {
        return BatchInHand::new(Hand::Empty);
    }
    BatchInHand::new(Hand::Fresh {
        volume: volume.0,
        batch,
    })
}

/// A hand with dead blocks of a volume; without a block it is empty.
fn dead_hand(volume: VolumeNumber, batch: Batch) -> BatchInHand
    ensures { result ≡ dead_hand volume.0 batch }
{
    if batch.is_empty() {
        return BatchInHand::new(Hand::Empty);
    }
    BatchInHand::new(Hand::Dead {
        volume: volume.0,
        batch,
    })
}
