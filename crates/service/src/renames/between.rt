//! The directories of a call.

use nfs_values::{Moment, VolumeNumber};
use service_names::Node;

/// The directories between which a call moves a node, which may be one, and the moment of the call.
#[derive(Clone, Copy)]
pub(crate) struct Between {
    pub volume: VolumeNumber,
    /// As they are before the call.
    pub from: Node,
    pub to: Node,
    pub moment: Moment,
}
