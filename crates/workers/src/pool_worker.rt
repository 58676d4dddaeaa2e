//! A worker of a pool.

use granted_calls::OutboxesPass;
use turns::Worker;

/// A worker of a pool, with its pass of the outboxes that it puts answers into.
#[derive(Drop)]
pub struct PoolWorker {
    pub(crate) worker: Worker,
    pub(crate) pass: OutboxesPass,
}
