//! The directory of a call.

use inodes::Inode;
use nfs_values::{Fileid, Moment, VolumeNumber};

/// A directory in which a call makes a node, and the moment of the call.
#[derive(Clone, Copy)]
pub(crate) struct Parent {
    pub volume: VolumeNumber,
    pub fileid: Fileid,
    /// As it is before the call.
    pub inode: Inode,
    pub moment: Moment,
}
