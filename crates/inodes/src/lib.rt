//! Inodes of a volume: attributes and kinds by fileid.
#![tactic(auto)]

mod chunk;
mod created;
mod inode;
mod inodes;
mod table;

pub use chunk_maps::GROUP;
pub use created::Created;
pub use inode::{Inode, InodeKind, StoredAttributes};
pub use inodes::Inodes;
