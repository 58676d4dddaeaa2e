//! A worker, taken apart.

use affinity::Layout;
use depot::Seat;
use granted_calls::Envelope;
use granted_calls::shared_waiting::Pass;
use service::{BatchInHand, Service};

/// What a worker was made of: its seat of the depot, its pass of the queue, the batch of block
/// numbers in its hand, and the message that it kept.
#[derive(Drop)]
pub struct WorkerParts {
    pub seat: Seat<Service>,
    pub pass: Pass<Envelope, Layout>,
    pub hand: BatchInHand,
    pub kept: Option<Envelope>,
}
