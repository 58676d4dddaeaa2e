//! What workers leave.

use depot::Seat;
use granted_calls::Envelope;
use turns::{BatchInHand, Service};

/// What all workers of a filer leave: their seats as one, the batches in their hands, the messages
/// that they kept, and those that waited.
#[derive(Drop)]
pub struct Left {
    pub seat: Seat<Service>,
    pub hands: Vec<BatchInHand>,
    pub kept: Vec<Envelope>,
    pub waiting: Vec<Envelope>,
}
