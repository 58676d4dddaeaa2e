//! The directories of a volume.

ghost use Rattle.std.specs.Prelude.{◌≡◌, ◌<◌, ◌^◌, ℕ, None, IfSome, OnOk, OnErr};
ghost use Rattle.std.specs.BTreeMap as btree;
ghost use Rattle.std.specs.FinMap.{empty, get, insert, remove};
ghost use Rattle.std.specs.Option.{option_copied};
ghost use Rattle.std.specs.Ordering.{nat_cmp};
ghost use Rattle.nfs_model.specs.volume.Maps.{changed_at};
ghost use Rattle.nfs_model.specs.volume.Directories.{added, found, removed};
ghost use Rattle.filer_state.specs.FileidMap.{Changes, Puts};

use directories::Directory;
use nfs_values::{Fileid, Name};
use std::alloc::{AllocError, Global};
use std::collections::BTreeMap;
use std::marker::Model;

/// Directories by their fileids.
pub struct DirectoryMap {
    by_fileid: BTreeMap<u64, Directory>,
}

// By hand, so that crates above have no proof of the drop of each of its parts.
impl Drop for DirectoryMap {
    fn drop(self) {
        let DirectoryMap { by_fileid: _ } = self;
    }
}

impl Model for DirectoryMap {
    ghost use Rattle.std.specs.FinMap.{FinMap, from_entries};
    ghost use Rattle.std.specs.FinMap as maps;
    ghost use Rattle.std.specs.Coded.{coded_ℕ};
    ghost use Rattle.std.specs.Ordering.{nat_cmp};
    ghost use Rattle.nfs_model.specs.volume.Directories.{DirectoryValue};
    ghost use Rattle.nfs_model.specs.volume.Codes.{coded_directory};

    ghost Value = { FinMap nat_cmp DirectoryValue };

    ghost coded = { maps.code coded_ℕ coded_directory };

    ghost view = { λ d. from_entries d.by_fileid.entries };
}

impl DirectoryMap {
    /// No directory. It takes no memory.
    pub fn new(alloc: Global) -> DirectoryMap
        ensures { result ≡ empty }
    {
        DirectoryMap {
            by_fileid: BTreeMap::new(alloc),
        }
    }

    /// The directory of a fileid.
    pub fn get(&self, fileid: Fileid) -> Option<&Directory>
        ensures { option_copied result ≡ get self.now fileid.0 }
    {
        self.by_fileid.get(&fileid.0)
    }

    /// Puts a directory under a fileid. Where there is no memory for it nothing changes.
    pub fn insert(&mut self, fileid: Fileid, directory: Directory) -> Result<(), AllocError>
        ensures ok { OnOk result (self.new ≡ insert self.old fileid.0 directory) }
        ensures err { OnErr result (self.new ≡ self.old) }
    {
        put(&mut self.by_fileid, fileid.0, directory)
    }

    /// Removes the directory of a fileid, if there is one. It takes no memory.
    pub fn remove(&mut self, fileid: Fileid)
        ensures { self.new ≡ remove self.old fileid.0 }
    {
        self.by_fileid.remove(&fileid.0);
    }

    /// Adds an entry to a directory, under its next cookie. Nothing changes where there is no such
    /// directory, or no memory for it.
    pub fn add_entry(
        &mut self,
        directory: Fileid,
        name: Name,
        fileid: Fileid,
    ) -> Result<(), AllocError>
        requires cookies { IfSome (get self.old directory.0) (λ d. d.next < 2 ^ 63) }
        requires absent { IfSome (get self.old directory.0) (λ d. found d name ≡ None) }
        ensures ok { OnOk result
            (self.new ≡ changed_at (added name fileid.0) directory.0 self.old) }
        ensures err { OnErr result (self.new ≡ self.old) }
    {
        add_at(&mut self.by_fileid, directory.0, name, fileid)
    }

    /// Adds an entry to a directory, under its next cookie, in the place of the one with its name,
    /// if there is one. Nothing changes where there is no such directory, or no memory for it.
    pub fn replace_entry(
        &mut self,
        directory: Fileid,
        name: Name,
        fileid: Fileid,
    ) -> Result<(), AllocError>
        requires { IfSome (get self.old directory.0) (λ d. d.next < 2 ^ 63) }
        ensures ok { OnOk result (self.new ≡
            changed_at (λ d. added name fileid.0 (removed name d)) directory.0 self.old) }
        ensures err { OnErr result (self.new ≡ self.old) }
    {
        replace_at(&mut self.by_fileid, directory.0, name, fileid)
    }

    /// Removes the entry with a name from a directory. Nothing changes where there is no such
    /// directory, or entry. It takes no memory.
    pub fn remove_entry(&mut self, directory: Fileid, name: &[u8])
        ensures { self.new ≡ changed_at (removed name.now) directory.0 self.old }
    {
        remove_at(&mut self.by_fileid, directory.0, name);
    }
}

/// Puts a directory under a fileid.
fn put(
    by_fileid: &mut BTreeMap<u64, Directory>,
    fileid: u64,
    directory: Directory,
) -> Result<(), AllocError>
    ensures ok { OnOk result (Puts fileid directory by_fileid.old by_fileid.new) }
    ensures err { OnErr result
        ((q : ℕ) → btree.get nat_cmp by_fileid.new q ≡ btree.get nat_cmp by_fileid.old q) }
{
    by_fileid.insert(fileid, directory)?;
    Ok(())
}

/// Adds an entry to a directory, if it is there.
fn add_at(
    by_fileid: &mut BTreeMap<u64, Directory>,
    directory: u64,
    name: Name,
    fileid: Fileid,
) -> Result<(), AllocError>
    requires cookies { IfSome (btree.get nat_cmp by_fileid.old directory) (λ d. d.next < 2 ^ 63) }
    requires absent { IfSome (btree.get nat_cmp by_fileid.old directory)
        (λ d. found d name ≡ None) }
    ensures ok { OnOk result
        (Changes (added name fileid.0) directory by_fileid.old by_fileid.new) }
    ensures err { OnErr result
        ((q : ℕ) → btree.get nat_cmp by_fileid.new q ≡ btree.get nat_cmp by_fileid.old q) }
{
    match by_fileid.get_mut(&directory) {
        Some(directory) => directory.add(name, fileid),
        None => Ok(()),
    }
}

/// Puts an entry in the place of another in a directory, if it is there.
fn replace_at(
    by_fileid: &mut BTreeMap<u64, Directory>,
    directory: u64,
    name: Name,
    fileid: Fileid,
) -> Result<(), AllocError>
    requires { IfSome (btree.get nat_cmp by_fileid.old directory) (λ d. d.next < 2 ^ 63) }
    ensures ok { OnOk result (Changes (λ d. added name fileid.0 (removed name d)) directory
        by_fileid.old by_fileid.new) }
    ensures err { OnErr result
        ((q : ℕ) → btree.get nat_cmp by_fileid.new q ≡ btree.get nat_cmp by_fileid.old q) }
{
    if let Some(directory) = by_fileid.get_mut(&directory) {
        directory.replace(name, fileid)?;
    }
    Ok(())
}

/// Removes an entry from a directory, if it is there.
fn remove_at(by_fileid: &mut BTreeMap<u64, Directory>, directory: u64, name: &[u8])
    ensures { Changes (removed name.now) directory by_fileid.old by_fileid.new }
{
    if let Some(directory) = by_fileid.get_mut(&directory) {
        directory.remove(name);
    }
}
