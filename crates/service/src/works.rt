//! Workers' calls with their hands, by the kind of node at which they run, each with what was in
//! the hand.

ghost use Rattle.std.specs.Prelude.{◌≡◌, Some, None, MatchResult};
ghost use Rattle.affinity.specs.Layout.{layout_of};
ghost use Rattle.service.specs.Inner.{call_to_put};
ghost use Rattle.service.specs.Jobs.{inner_of};
ghost use Rattle.service.specs.Works.{range_call_of, logical_call_of};
ghost use Rattle.service.specs.Works.{batch_call_of, batch_hand_of};

use crate::batch::BatchInHand;
use crate::hand_work::HandWork;
use crate::job::InnerCall;
use affinity::Layout;
use nfs_values::VolumeNumber;
use parcels::Hand;
use std::alloc::Global;
use vbn_ranges::Batch;

/// A worker's call on a range of block numbers.
#[derive(Drop)]
pub enum RangeWork {
    /// Free blocks of the range come into the hand.
    Fetch {
        volume: VolumeNumber,
        range: u32,
    },
    /// These dead blocks come back to the range.
    Free {
        volume: VolumeNumber,
        range: u32,
        batch: Batch,
    },
}

/// A worker's call on Volume Logical.
#[derive(Drop)]
pub enum LogicalWork {
    /// These free blocks come into the volume's stock.
    Deliver { volume: VolumeNumber, batch: Batch },
    /// Dead blocks come into the hand.
    Cull { volume: VolumeNumber },
}

/// A worker's call that moves a batch, by the kind of node at which it runs.
pub enum BatchWork {
    Range(RangeWork),
    Logical(LogicalWork),
}

/// A worker's call on a volume's block numbers, which tells how many of them are free.
#[derive(Clone, Copy)]
pub struct SurveyWork {
    /// Where the counts that it tells take memory.
    pub alloc: Global,
    pub volume: VolumeNumber,
}

impl HandWork for RangeWork {
    ghost use Rattle.service.specs.Works.{range_hand_of};

    ghost carried = { range_hand_of };

    fn into_hand(self) -> BatchInHand {
        match self {
            RangeWork::Fetch { .. } => BatchInHand::new(Hand::Empty),
            RangeWork::Free {
                volume,
                range: _,
                batch,
            } => BatchInHand::new(Hand::Dead {
                volume: volume.0,
                batch,
            }),
        }
    }
}

impl HandWork for LogicalWork {
    ghost use Rattle.service.specs.Works.{logical_hand_of};

    ghost carried = { logical_hand_of };

    fn into_hand(self) -> BatchInHand {
        match self {
            LogicalWork::Deliver { volume, batch } => BatchInHand::new(Hand::Fresh {
                volume: volume.0,
                batch,
            }),
            LogicalWork::Cull { .. } => BatchInHand::new(Hand::Empty),
        }
    }
}

impl HandWork for SurveyWork {
    ghost use Rattle.nfs_model.specs.Parts as parts;

    ghost carried = { λ work. parts.Empty };

    fn into_hand(self) -> BatchInHand {
        BatchInHand::new(Hand::Empty)
    }
}

/// A call on a range, as it is entered.
fn range_call(work: &RangeWork) -> InnerCall
    ensures { inner_of result ≡ range_call_of work.now }
{
    match work {
        RangeWork::Fetch { volume, range } => InnerCall::Fetch {
            volume: *volume,
            range: *range,
        },
        RangeWork::Free {
            volume,
            range,
            batch: _,
        } => InnerCall::Free {
            volume: *volume,
            range: *range,
        },
    }
}

/// A call on Volume Logical, as it is entered.
fn logical_call(work: &LogicalWork) -> InnerCall
    ensures { inner_of result ≡ logical_call_of work.now }
{
    match work {
        LogicalWork::Deliver { volume, batch: _ } => InnerCall::Deliver { volume: *volume },
        LogicalWork::Cull { volume } => InnerCall::Cull { volume: *volume },
    }
}

impl BatchWork {
    /// The call, as it is entered.
    pub fn call(&self) -> InnerCall
        ensures { inner_of result ≡ batch_call_of self.now }
    {
        match self {
            BatchWork::Range(work) => range_call(work),
            BatchWork::Logical(work) => logical_call(work),
        }
    }
}

/// The call that puts down what is in a hand, which goes with it. Where there is no such call, of
/// an empty hand or a dead batch without a block, the hand is given back.
pub fn put_down(layout: &Layout, hand: BatchInHand) -> Result<BatchWork, BatchInHand>
    ensures call { let asked = call_to_put (layout_of layout.now) hand in MatchResult result
        (λ work. asked ≡ Some (batch_call_of work))
        (λ back. asked ≡ None) }
    ensures hand { MatchResult result (λ work. batch_hand_of work ≡ hand) (λ back. back ≡ hand) }
{
    match hand.into_hand() {
        Hand::Empty => Err(BatchInHand::new(Hand::Empty)),
        Hand::Fresh { volume, batch } => Ok(BatchWork::Logical(LogicalWork::Deliver {
            volume: VolumeNumber(volume),
            batch,
        })),
        Hand::Dead { volume, batch } => match batch.range(layout.range_blocks_of(volume)) {
            Some(range) => Ok(BatchWork::Range(RangeWork::Free {
                volume: VolumeNumber(volume),
                range,
                batch,
            })),
            None => Err(BatchInHand::new(Hand::Dead { volume, batch })),
        },
    }
}
