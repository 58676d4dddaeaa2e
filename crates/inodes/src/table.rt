//! Inodes by fileid.

ghost use Rattle.std.specs.Prelude.{◌≡◌, ◌<◌, None, OnOk, OnErr};
ghost use Rattle.std.specs.Option.{option_map};
ghost use Rattle.std.specs.FinMap.{empty, get, insert, len, remove};
ghost use Rattle.nfs_values.specs.Moment.{moment_of};
ghost use Rattle.nfs_model.specs.volume.Inodes.{inodes_of_a_volume};
ghost use Rattle.nfs_model.specs.volume.Inodes.{settled_inode};
ghost use Rattle.nfs_model.specs.volume.Maps.{changed_at};
ghost use Rattle.inodes.specs.Inode.{inode_value};

use crate::chunk::InodeChunk;
use crate::inode::Inode;
use chunk_maps::{ChunkMap, GROUP};
use nfs_values::{Fileid, Moment};
use std::alloc::{AllocError, Global};
use std::marker::Model;

/// A map from fileids to inodes, in chunks, so that a search reads few keys.
pub struct Table {
    chunks: ChunkMap<InodeChunk>,
    /// How many inodes there are.
    count: usize,
}

// By hand, so that crates above have no proof of the drop of each of its parts.
impl Drop for Table {
    fn drop(self) {
        let Table {
            chunks: _,
            count: _,
        } = self;
    }
}

impl Model for Table {
    ghost use Rattle.std.specs.Prelude.{◌≡◌};
    ghost use Rattle.std.specs.FinMap.{FinMap, len};
    ghost use Rattle.std.specs.FinMap as maps;
    ghost use Rattle.std.specs.Coded.{coded_ℕ};
    ghost use Rattle.std.specs.Ordering.{nat_cmp};
    ghost use Rattle.nfs_model.specs.volume.Inodes as values;
    ghost use Rattle.nfs_model.specs.volume.Codes.{coded_inode};
    ghost use Rattle.chunk_maps.specs.Maps.{values_of};

    ghost Value = { FinMap nat_cmp values.Inode };

    ghost coded = { maps.code coded_ℕ coded_inode };

    ghost view = { λ t. values_of t.chunks };

    ghost invariant = { λ t. t.count ≡ len (values_of t.chunks) };
}

impl Table {
    /// No inode. It takes no memory.
    pub fn new(alloc: Global) -> Table
        ensures { result ≡ empty }
    {
        Table {
            chunks: ChunkMap::new(alloc),
            count: 0,
        }
    }

    /// The inode of a fileid.
    pub fn get(&self, fileid: Fileid) -> Option<Inode>
        ensures { option_map inode_value result ≡ get self.now fileid.0 }
    {
        self.chunks.get(fileid.0)
    }

    /// Reads the inodes of fileids side by side. Nothing is promised of the result.
    pub fn read_ahead(&self, fileids: &[Fileid; GROUP]) -> u64 {
        let filled = |inode: Inode| u64::from(inode.kind.filled());
        self.chunks
            .read_ahead(&fileids.map(|fileid| fileid.0), filled)
    }

    /// How many inodes there are.
    pub fn len(&self) -> usize
        ensures { result ≡ len self.now }
    {
        self.count
    }

    /// Adds an inode under a fileid that has none. Where there is no memory for it nothing changes.
    pub fn insert(&mut self, fileid: Fileid, inode: Inode) -> Result<(), AllocError>
        requires room { len self.old < inodes_of_a_volume }
        requires absent { get self.old fileid.0 ≡ None }
        ensures ok { OnOk result (self.new ≡ insert self.old fileid.0 (inode_value inode)) }
        ensures err { OnErr result (self.new ≡ self.old) }
    {
        self.chunks.put(fileid.0, inode)?;
        self.count += 1;
        Ok(())
    }

    /// Replaces the inode of a fileid, and tells the old one. Nothing changes where there is none.
    /// It takes no memory.
    pub fn replace(&mut self, fileid: Fileid, inode: Inode) -> Option<Inode>
        ensures old { option_map inode_value result ≡ get self.old fileid.0 }
        ensures replaced { self.new ≡ changed_at (λ _. inode_value inode) fileid.0 self.old }
    {
        self.chunks.change(fileid.0, |_| inode)
    }

    /// A touch, if there is one, becomes the stored mtime and ctime of the inode of a fileid.
    /// Nothing changes where there is none. It takes no memory.
    pub fn settle(&mut self, fileid: Fileid, touch: Option<Moment>)
        ensures { self.new
            ≡ changed_at (settled_inode (option_map moment_of touch)) fileid.0 self.old }
    {
        self.chunks.change(fileid.0, |inode| inode.settled(touch));
    }

    /// Removes the inode of a fileid, if there is one, and tells it. It takes no memory.
    pub fn remove(&mut self, fileid: Fileid) -> Option<Inode>
        ensures inode { option_map inode_value result ≡ get self.old fileid.0 }
        ensures gone { self.new ≡ remove self.old fileid.0 }
    {
        let inode = self.chunks.remove(fileid.0)?;
        self.count -= 1;
        Some(inode)
    }
}
