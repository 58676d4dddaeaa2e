//! The room for what is left.

ghost use Rattle.std.specs.Prelude.{◌≡◌, ◌≤◌, [], vec_capacity};

use granted_calls::Envelope;
use scheduler::MOST_WAITING;
use std::alloc::{AllocError, Global};
use turns::BatchInHand;

/// The most workers of a filer.
pub const MOST_WORKERS: usize = 64;

/// Room for all that workers can leave: a batch and a message of each, and the messages that
/// wait. Who has it gathers without memory.
#[derive(Drop)]
pub struct Room {
    pub(crate) hands: Vec<BatchInHand>,
    pub(crate) kept: Vec<Envelope>,
    pub(crate) waiting: Vec<Envelope>,
    ghost empty: { (hands.items ≡ []) × (kept.items ≡ []) × (waiting.items ≡ []) },
    ghost wide: { (64 ≤ vec_capacity hands) × (64 ≤ vec_capacity kept)
        × (1024 ≤ vec_capacity waiting) },
}

impl Room {
    /// Room for 64 batches, 64 messages that are kept, and 1,024 that wait.
    pub fn new(alloc: Global) -> Result<Room, AllocError> {
        let hands = Vec::with_capacity(alloc, MOST_WORKERS)?;
        let kept = Vec::with_capacity(alloc, MOST_WORKERS)?;
        let waiting = Vec::with_capacity(alloc, MOST_WAITING)?;
        Ok(Room {
            hands,
            kept,
            waiting,
        })
    }
}
