//! The room for what lanes leave.

ghost use Rattle.std.specs.Prelude.{◌≡◌, ◌≤◌, ◌*◌, [], IfOk, vec_capacity};

use granted_calls::Envelope;
use scheduler::MOST_WAITING;
use std::alloc::{AllocError, Global};
use turns::BatchInHand;

/// Room for all that this many lanes can leave: a batch and a message of each, and the messages
/// that wait. Who has it puts the lanes together without memory.
#[derive(Drop)]
pub struct LaneBuffers {
    pub(crate) lanes: usize,
    pub(crate) hands: Vec<BatchInHand>,
    pub(crate) kept: Vec<Envelope>,
    pub(crate) waiting: Vec<Envelope>,
    ghost empty: { (hands.items ≡ []) × (kept.items ≡ []) × (waiting.items ≡ []) },
    ghost wide: { (lanes ≤ vec_capacity hands) × (lanes ≤ vec_capacity kept)
        × (1024 * lanes ≤ vec_capacity waiting) },
}

impl LaneBuffers {
    ghost use Rattle.filer_lanes.specs.Rooms.{lanes_for};

    /// Room for 1 to 64 lanes.
    pub fn new(alloc: Global, lanes: usize) -> Result<LaneBuffers, AllocError>
        requires { lanes ≤ 64 }
        ensures { IfOk result (λ room. lanes_for room ≡ lanes) }
    {
        Ok(LaneBuffers {
            lanes,
            hands: Vec::with_capacity(alloc, lanes)?,
            kept: Vec::with_capacity(alloc, lanes)?,
            waiting: Vec::with_capacity(alloc, MOST_WAITING * lanes)?,
        })
    }
}
