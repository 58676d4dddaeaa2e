//! Nodes.

use inodes::Inode;
use nfs_values::Fileid;

/// A node of a volume.
#[derive(Clone, Copy)]
pub struct Node {
    pub fileid: Fileid,
    /// As it is stored.
    pub inode: Inode,
}
