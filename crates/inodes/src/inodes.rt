//! The inodes of a volume by fileid.

ghost use Rattle.std.specs.Prelude.{
  ◌≡◌,
  ◌<◌,
  ◌^◌,
  ◌+◌,
  true,
  is_some,
  IfOk,
  OnOk,
  OnErr,
};
ghost use Rattle.std.specs.Option.{option_map};
ghost use Rattle.std.specs.FinMap.{len};
ghost use Rattle.nfs_values.specs.Moment.{moment_of};
ghost use Rattle.nfs_values.specs.Ownership.{ownership_of};
ghost use Rattle.nfs_model.specs.volume.Inodes.{
  IsInodes,
  inodes_of_a_volume,
  opening_inodes,
  inode_of,
  inode_settled,
  inode_set,
  inode_created,
  inode_dropped,
  inode_unmade,
};
ghost use Rattle.inodes.specs.Inode.{inode_value};

use crate::created::Created;
use crate::inode::Inode;
use crate::table::Table;
use chunk_maps::GROUP;
use nfs_values::{Fileid, Moment, Ownership};
use std::alloc::{AllocError, Global};
use std::marker::Model;

/// The inodes of a volume by fileid, the next fileid, and how many blocks are filled in all files.
pub struct Inodes {
    by_fileid: Table,
    next: Fileid,
    used: u64,
}

// By hand, so that crates above have no proof of the drop of each of its parts.
impl Drop for Inodes {
    fn drop(self) {
        let Inodes {
            by_fileid: _,
            next: _,
            used: _,
        } = self;
    }
}

impl Model for Inodes {
    ghost use Rattle.nfs_model.specs.volume.Inodes.{InodesValue, IsInodes};
    ghost use Rattle.nfs_model.specs.volume.Codes.{coded_inodes};
    ghost use Rattle.inodes.specs.Inode.{inodes_value, AreFew};

    ghost Value = { InodesValue };

    ghost coded = { coded_inodes };

    ghost view = { λ i. inodes_value i.next i.used i.by_fileid };

    ghost invariant = { λ i. IsInodes (inodes_value i.next i.used i.by_fileid)
        × AreFew (inodes_value i.next i.used i.by_fileid) };
}

impl Inodes {
    /// The inodes of a volume that begins at a moment: its root directory alone, of a given owner
    /// and with that moment as its times, and 2 as the next fileid.
    pub fn new(alloc: Global, owner: Ownership, begun: Moment) -> Result<Inodes, AllocError>
        ensures { IfOk result (λ inodes.
            inodes ≡ opening_inodes (ownership_of owner) (moment_of begun)) }
    {
        let mut by_fileid = Table::new(alloc);
        by_fileid.insert(Fileid::ROOT, Inode::root(owner, begun))?;
        Ok(Inodes {
            by_fileid,
            next: Fileid(2),
            used: 0,
        })
    }

    /// The inode of a fileid, as it is stored.
    pub fn get(&self, fileid: Fileid) -> Option<Inode>
        ensures { option_map inode_value result ≡ inode_of self.now fileid.0 }
    {
        self.by_fileid.get(fileid)
    }

    /// Reads the inodes of fileids side by side, so that a cache has them. Nothing is promised of
    /// the result.
    pub fn read_ahead(&self, fileids: &[Fileid; GROUP]) -> u64 {
        self.by_fileid.read_ahead(fileids)
    }

    /// The number of inodes, at most 67,108,864.
    pub fn len(&self) -> usize
        ensures { result ≡ len self.now.inodes }
    {
        self.by_fileid.len()
    }

    /// The fileid that the next inode takes.
    pub fn next_fileid(&self) -> Fileid
        ensures fileid { result.0 ≡ self.now.next }
        ensures inodes { IsInodes self.now }
    {
        self.next
    }

    /// The filled blocks of all files.
    pub fn used(&self) -> u64
        ensures { result ≡ self.now.used }
    {
        self.used
    }

    /// A touch, if there is one, becomes the stored mtime and ctime of the inode of a fileid.
    /// Nothing changes where there is none. It takes no memory.
    pub fn settle(&mut self, fileid: Fileid, touch: Option<Moment>)
        ensures { self.new ≡ inode_settled fileid.0 (option_map moment_of touch) self.old }
    {
        self.by_fileid.settle(fileid, touch);
    }

    /// Replaces the inode of a fileid. Nothing changes where there is none. It takes no memory.
    pub fn set(&mut self, fileid: Fileid, inode: Inode)
        ensures { self.new ≡ inode_set fileid.0 (inode_value inode) self.old }
    {
        if let Some(old) = self.by_fileid.replace(fileid, inode) {
            let left = self.used - u64::from(old.kind.filled());
            self.used = left + u64::from(inode.kind.filled());
        }
    }

    /// Adds an inode, where there are fewer than 67,108,864 (`len`), under the next fileid. Where
    /// there is no memory for it nothing changes.
    pub fn create(&mut self, inode: Inode) -> Result<Created, AllocError>
        requires fileids { self.old.next < 2 ^ 63 }
        requires room { len self.old.inodes < inodes_of_a_volume }
        ensures fileid { IfOk result (λ created. created ≡ self.old.next) }
        ensures ok { OnOk result (self.new ≡ inode_created (inode_value inode) self.old) }
        ensures err { OnErr result (self.new ≡ self.old) }
    {
        let fileid = self.next;
        self.by_fileid.insert(fileid, inode)?;
        self.next = Fileid(fileid.0 + 1);
        self.used += u64::from(inode.kind.filled());
        Ok(Created::of(fileid))
    }

    /// Removes the inode of a fileid, if there is one; the next fileid stays as it is. It takes no
    /// memory.
    pub fn drop_node(&mut self, fileid: Fileid)
        ensures { self.new ≡ inode_dropped fileid.0 self.old }
    {
        if let Some(inode) = self.by_fileid.remove(fileid) {
            self.used -= u64::from(inode.kind.filled());
        }
    }

    /// Undoes a creation, the one that came last, for a call that couldn't get all its memory: the
    /// inode is gone, and its fileid, which wasn't kept, is the next again. It takes no memory.
    pub fn undo_create(&mut self, created: Created)
        requires last { self.old.next ≡ created + 1 }
        requires there { is_some (inode_of self.old created) ≡ true }
        ensures { self.new ≡ inode_unmade self.old }
    {
        let fileid = created.keep();
        self.drop_node(fileid);
        self.next = fileid;
    }
}
