//! Calls that are finished.

use affinity::CallNode;
use nfs_values::Moment;
use rpc_msg::Request;
use scheduler::Origin;

/// A finished call.
#[derive(Drop)]
pub struct FinishedCall {
    pub origin: Origin,
    /// What its record asked.
    pub request: Request,
    /// What it ran on; nothing where it was answered as its record was complete.
    pub affinity: Option<CallNode>,
    pub moment: Moment,
    /// Whether memory ran out, so that it changed nothing and was answered so.
    pub starved: bool,
}
