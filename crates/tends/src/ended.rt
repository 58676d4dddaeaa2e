//! What a filer leaves.

use filer_state::Files;
use granted_calls::Envelope;
use parcels::SerialHeld;
use turns::BatchInHand;

/// What a filer leaves: all its parcels, the batches that were in hands, and the messages that
/// weren't finished.
#[derive(Drop)]
pub struct Ended {
    pub parcels: SerialHeld<Files>,
    pub hands: Vec<BatchInHand>,
    pub kept: Vec<Envelope>,
    pub waiting: Vec<Envelope>,
}
