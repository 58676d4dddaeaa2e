//! Chunks of inodes.

ghost use Rattle.std.specs.Prelude.{◌≡◌, is_some};
ghost use Rattle.inodes.specs.Inode.{stored};
ghost use Rattle.chunk_maps.specs.Chunks.{one_if};

use crate::inode::Inode;
use chunk_maps::{Chunk, slot};
use std::alloc::{AllocError, Global};
use std::marker::Model;

/// The inodes of 32 fileids that follow one another, each at its fileid modulo 32.
#[derive(Drop)]
pub struct InodeChunk {
    inodes: Box<[Option<Inode>; 32]>,
    /// How many there are.
    used: u64,
}

impl Model for InodeChunk {
    ghost use Rattle.std.specs.Prelude.{◌≡◌, map, length};
    ghost use Rattle.std.specs.Coded.{coded_list, coded_option};
    ghost use Rattle.nfs_model.specs.volume.Codes.{coded_inode};
    ghost use Rattle.inodes.specs.Inode.{stored};
    ghost use Rattle.nfs_model.specs.volume.Inodes.{Inode};
    ghost use Rattle.chunk_maps.specs.Chunks.{Slots, chunk_size, used_in};

    ghost Value = { Slots Inode };

    ghost coded = { coded_list (coded_option coded_inode) };

    ghost view = { λ c. map stored c.inodes.value };

    ghost invariant = { λ c. (length c.inodes.value ≡ chunk_size)
        × (c.used ≡ used_in (map stored c.inodes.value)) };
}

/// How many inodes a slot has.
fn count(inode: Option<Inode>) -> u64
    ensures { result ≡ one_if (is_some (stored inode)) }
{
    match inode {
        None => 0,
        Some(_) => 1,
    }
}

impl Chunk for InodeChunk {
    ghost use Rattle.nfs_model.specs.volume.Inodes as values;
    ghost use Rattle.chunk_maps.specs.Chunks.{slot_of};
    ghost use Rattle.inodes.specs.Inode.{inode_value};

    type Item = Inode;

    ghost Kept = { values.Inode };

    ghost value = { inode_value };

    ghost values = { λ c. slot_of c };

    fn new(alloc: Global, fileid: u64, inode: Inode) -> Result<InodeChunk, AllocError> {
        let mut inodes = Box::new(alloc, [None; 32])?;
        inodes[slot(fileid)] = Some(inode);
        Ok(InodeChunk { inodes, used: 1 })
    }

    fn get(&self, fileid: u64) -> Option<Inode> {
        self.inodes[slot(fileid)]
    }

    fn is_empty(&self) -> bool {
        self.used == 0
    }

    fn put(&mut self, fileid: u64, inode: Inode) {
        let slot = slot(fileid);
        let former = self.inodes[slot];
        self.inodes[slot] = Some(inode);
        self.used = self.used + 1 - count(former);
    }

    fn take(&mut self, fileid: u64) -> Option<Inode> {
        let slot = slot(fileid);
        let former = self.inodes[slot];
        self.inodes[slot] = None;
        self.used -= count(former);
        former
    }
}
