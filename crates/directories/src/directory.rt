//! A directory: its entries, and an index of them by name.

ghost use Rattle.std.specs.Prelude.{◌≡◌, ◌==◌, ◌-◌, ◌<◌, ◌≤◌, ◌^◌, length, None, Some, is_some};
ghost use Rattle.std.specs.Prelude.{IfOk, OnOk, OnErr};
ghost use Rattle.nfs_model.specs.volume.Directories.{
  IsDirectory,
  empty_directory,
  found,
  fileid_found,
  page,
  added,
  removed,
};
ghost use Rattle.directories.specs.Digits.{binary_digits};
ghost use Rattle.directories.specs.Entries.{
  listed,
  page_told,
  page_value,
  page_behind,
};
ghost use Rattle.directories.specs.Index.{IsAt, IsIndexed, IsPosition, AreHashed, cookies};
ghost use Rattle.directories.specs.Index.{IsAround, fileid_number};
ghost use Rattle.directories.specs.Hash.{name_hash};

use crate::entries::Entries;
use crate::guesses::Guesses;
use crate::page::Page;
use crate::search::{
    Around, find_between, find_position, guess_slot, half_of, hash_of, place_for, read_around,
    slot_at_place, whole,
};
use crate::sequences::Sequence;
use crate::spot::Spot;
use nfs_values::answer::DirectoryEntry;
use nfs_values::{Cookie, Fileid, Name};
use std::alloc::{AllocError, Global};
use std::marker::Model;

/// A directory: its entries but `.` and `..`, by rising cookies from 3 on. No two have one name,
/// and no cookie is given twice (RFC 1813 section 3.3.16).
pub struct Directory {
    entries: Entries,
    /// The entries in the order of the names' hashes, and of their bytes where these are the same.
    by_name: Sequence<Spot>,
    /// The slots that entries are guessed in.
    guesses: Guesses,
}

// By hand, so that crates above have no proof of the drop of each of its parts.
impl Drop for Directory {
    fn drop(self) {
        let Directory {
            entries: _,
            by_name: _,
            guesses: _,
        } = self;
    }
}

impl Model for Directory {
    ghost use Rattle.nfs_model.specs.volume.Directories.{DirectoryValue};
    ghost use Rattle.nfs_model.specs.volume.Codes.{coded_directory};
    ghost use Rattle.directories.specs.Index.{IsIndexed, AreHashed, cookies};

    ghost Value = { DirectoryValue };

    ghost coded = { coded_directory };

    ghost view = { λ d. d.entries };

    ghost invariant = { λ d. IsIndexed d.entries (cookies d.by_name)
        × AreHashed d.entries.list d.by_name };
}

impl Directory {
    /// A directory without entries. It takes no memory.
    pub fn new(alloc: Global) -> Directory
        ensures { result ≡ empty_directory }
    {
        Directory {
            entries: Entries::new(alloc),
            by_name: Sequence::new(alloc),
            guesses: Guesses::new(alloc),
        }
    }

    /// The number of entries.
    pub fn len(&self) -> usize
        ensures { result ≡ length self.now.list }
    {
        self.entries.len()
    }

    /// Whether there is no entry.
    pub fn is_empty(&self) -> bool
        ensures { result ≡ (length self.now.list == 0) }
    {
        self.entries.len() == 0
    }

    /// The cookie that the next entry takes.
    pub fn next_cookie(&self) -> Cookie
        ensures cookie { result.0 ≡ self.now.next }
        ensures directory { IsDirectory self.now }
    {
        self.entries.next_cookie()
    }

    /// The fileid of the entry with a name.
    pub fn find(&self, name: &[u8]) -> Option<Fileid>
        ensures { fileid_number result ≡ fileid_found self.now name.now }
    {
        self.find_counted(name).0
    }

    /// The fileid of the entry with a name, and how many names were compared: no more than the
    /// number of entries has binary digits.
    pub fn find_counted(&self, name: &[u8]) -> (Option<Fileid>, usize)
        ensures answer { fileid_number result.0 ≡ fileid_found self.now name.now }
        ensures compared { result.1 ≤ binary_digits (length self.now.list) }
    {
        let hash = hash_of(name);
        let guesses = &self.guesses;
        match guess_slot(&self.by_name, guesses, hash) {
            Some(slot) => find_guessed(&self.entries, &self.by_name, guesses, name, hash, slot),
            None => {
                let around = whole(&self.by_name);
                find_fileid(&self.entries, &self.by_name, guesses, name, hash, around)
            }
        }
    }

    /// A slot that the entry with a name of a hash may be in. Nothing is promised of it.
    pub fn slot_guessed(&self, hash: u32) -> Option<u32> {
        if self.guesses.is_empty() {
            return slot_at_place(&self.by_name, hash);
        }
        self.guesses.slot(hash)
    }

    /// Whether it is so small that its index alone tells the slots of entries. Nothing is promised
    /// of the result.
    pub fn is_small(&self) -> bool {
        self.guesses.is_empty()
    }

    /// The fileid of the entry in a slot; 0 where it has none.
    pub fn fileid_guessed(&self, slot: u32) -> Fileid {
        self.entries.fileid_in(slot)
    }

    /// Reads where the slot of an entry with a name of a hash is guessed, so that a cache has it.
    /// In a small directory it reads how many entries there are. Nothing is promised of the result.
    pub fn read_guesses(&self, hash: u32) -> u64 {
        if self.guesses.is_empty() {
            return self.by_name.len() as u64;
        }
        u64::from(self.guesses.first_word(hash))
    }

    /// Reads what a search in the index of a small directory for a name of a hash reads first.
    /// In a large one it reads nothing. Nothing is promised of the result.
    pub fn read_index(&self, hash: u32) -> u64 {
        if self.guesses.is_empty() {
            return read_around(&self.by_name, hash);
        }
        0
    }

    /// Adds an entry, which takes the next cookie. Where there is no memory for it nothing
    /// changes, and the name is dropped.
    pub fn add(&mut self, name: Name, fileid: Fileid) -> Result<(), AllocError>
        requires cookies { self.old.next < 2 ^ 63 }
        requires absent { found self.old name ≡ None }
        ensures ok { OnOk result (self.new ≡ added name fileid.0 self.old) }
        ensures err { OnErr result (self.new ≡ self.old) }
    {
        let guesses = &self.guesses;
        let search = find_position(&self.entries, &self.by_name, guesses, name.as_bytes());
        add_at(
            &mut self.entries,
            &mut self.by_name,
            &mut self.guesses,
            search.position,
            search.hash,
            name,
            fileid,
        )
    }

    /// Adds an entry in the place of the one with its name, if there is one, and answers the fileid
    /// of that one. The entry takes the next cookie. Where there is no memory for it nothing
    /// changes, and the name is dropped.
    pub fn replace(&mut self, name: Name, fileid: Fileid) -> Result<Option<Fileid>, AllocError>
        requires cookies { self.old.next < 2 ^ 63 }
        ensures ok { OnOk result (self.new ≡ added name fileid.0 (removed name self.old)) }
        ensures was { IfOk result (λ was. fileid_number was ≡ fileid_found self.old name) }
        ensures err { OnErr result (self.new ≡ self.old) }
    {
        let guesses = &self.guesses;
        let search = find_position(&self.entries, &self.by_name, guesses, name.as_bytes());
        if !search.is_there {
            add_at(
                &mut self.entries,
                &mut self.by_name,
                &mut self.guesses,
                search.position,
                search.hash,
                name,
                fileid,
            )?;
            return Ok(None);
        }
        let was = replace_at(
            &mut self.entries,
            &mut self.by_name,
            &mut self.guesses,
            search.position,
            name,
            fileid,
        )?;
        Ok(Some(was))
    }

    /// Removes the entry with a name, and tells whether there was one. It takes no memory.
    pub fn remove(&mut self, name: &[u8]) -> bool
        ensures there { result ≡ is_some (found self.old name.now) }
        ensures left { self.new ≡ removed name.now self.old }
    {
        let search = find_position(&self.entries, &self.by_name, &self.guesses, name);
        if !search.is_there {
            return false;
        }
        let spot = self.by_name.remove(search.position);
        self.entries.remove(spot.cookie);
        self.guesses.take(spot.hash, spot.slot);
        true
    }

    /// The entries after a cookie, as many as fit into a number of bytes, and whether none
    /// remains after them. An entry takes 24 bytes and its name, padded to a multiple of 4
    /// (entry3 with the mark of another item, RFC 1813 section 3.3.16). Memory runs out only where
    /// an entry fits.
    pub fn page(&self, alloc: Global, cookie: Cookie, room: usize) -> Result<Page, AllocError>
        ensures ok { IfOk result (λ p. page_value p ≡ page self.now cookie.0 room) }
        ensures err { OnErr result (0 < length (page self.now cookie.0 room).entries) }
    {
        let mut entries = Vec::new(alloc);
        let is_last = self.append_page(alloc, cookie, room, &mut entries)?;
        Ok(Page { entries, is_last })
    }

    /// Appends the entries after a cookie, as many as fit into a number of bytes, and tells whether
    /// none remains after them. An entry takes 24 bytes and its name, padded to a multiple of 4
    /// (entry3 with the mark of another item, RFC 1813 section 3.3.16). Memory runs out only where
    /// an entry fits.
    pub fn append_page(
        &self,
        alloc: Global,
        cookie: Cookie,
        room: usize,
        entries: &mut Vec<DirectoryEntry>,
    ) -> Result<bool, AllocError>
        ensures ok { IfOk result (λ is_last. page_told entries.new.items is_last
            ≡ page_behind (listed entries.old.items) (page self.now cookie.0 room)) }
        ensures err { OnErr result (0 < length (page self.now cookie.0 room).entries) }
    {
        self.entries.append_page(alloc, cookie, room, entries)
    }
}

/// The fileid of the entry with a name of a hash, which is between some positions of the index, and
/// how many names were compared. It is noted where the search ended.
fn find_fileid(
    entries: &Entries,
    by_name: &Sequence<Spot>,
    guesses: &Guesses,
    name: &[u8],
    hash: u32,
    bounds: Around,
) -> (Option<Fileid>, usize)
    requires indexed { IsIndexed entries.now (cookies by_name.now) }
    requires hashed { AreHashed entries.now.list by_name.now }
    requires around { IsAround by_name.now hash bounds.low bounds.high }
    requires hash { hash ≡ name_hash name.now }
    ensures answer { fileid_number result.0 ≡ fileid_found entries.now name.now }
    ensures compared { result.1 ≤ binary_digits (bounds.high - bounds.low) }
{
    let place = place_for(by_name, guesses, hash);
    let search = find_between(entries, by_name, name, hash, bounds, place);
    guesses.note(hash, search.position);
    if !search.is_there {
        return (None, search.compared);
    }
    let spot = by_name.at(search.position);
    let entry = entries.at(spot.cookie, spot.slot);
    (Some(entry.fileid), search.compared)
}

/// The fileid of the entry with a name of a hash, which is guessed in a slot, and how many names
/// were compared. A guess is compared only where its hash leaves half of the index, so that it
/// takes the place of one step by halving.
fn find_guessed(
    entries: &Entries,
    by_name: &Sequence<Spot>,
    guesses: &Guesses,
    name: &[u8],
    hash: u32,
    slot: u32,
) -> (Option<Fileid>, usize)
    requires indexed { IsIndexed entries.now (cookies by_name.now) }
    requires hashed { AreHashed entries.now.list by_name.now }
    requires hash { hash ≡ name_hash name.now }
    ensures answer { fileid_number result.0 ≡ fileid_found entries.now name.now }
    ensures compared { result.1 ≤ binary_digits (length by_name.now) }
{
    let Some(half) = half_of(by_name, hash) else {
        return find_fileid(entries, by_name, guesses, name, hash, whole(by_name));
    };
    if let Some(fileid) = entries.guessed(slot, name) {
        return (Some(fileid), 1);
    }
    let (fileid, compared) = find_fileid(entries, by_name, guesses, name, hash, half);
    (fileid, compared + 1)
}

/// Adds an entry with a name of a hash, which belongs at a position of the index. Where there is no
/// memory for it nothing changes.
fn add_at(
    entries: &mut Entries,
    by_name: &mut Sequence<Spot>,
    guesses: &mut Guesses,
    position: usize,
    hash: u32,
    name: Name,
    fileid: Fileid,
) -> Result<(), AllocError>
    requires cookies { entries.old.next < 2 ^ 63 }
    requires indexed { IsIndexed entries.old (cookies by_name.old) }
    requires within { position ≤ length by_name.old }
    requires position { IsPosition entries.old (cookies by_name.old) name position }
    requires hashed { AreHashed entries.old.list by_name.old }
    requires hash { hash ≡ name_hash name }
    ensures indexed { IsIndexed entries.new (cookies by_name.new) }
    ensures hashed { AreHashed entries.new.list by_name.new }
    ensures ok { OnOk result (entries.new ≡ added name fileid.0 entries.old) }
    ensures err { OnErr result (entries.new ≡ entries.old) }
{
    let room = by_name.room()?;
    let (cookie, slot) = entries.add(name, fileid)?;
    by_name.insert(room, position, Spot { cookie, slot, hash });
    guesses.put(hash, slot);
    guesses.fit(by_name);
    Ok(())
}

/// Adds an entry in the place of the one with its name, which is at a position of the index, and
/// answers the fileid of that one. Where there is no memory for it nothing changes.
fn replace_at(
    entries: &mut Entries,
    by_name: &mut Sequence<Spot>,
    guesses: &mut Guesses,
    position: usize,
    name: Name,
    fileid: Fileid,
) -> Result<Fileid, AllocError>
    requires cookies { entries.old.next < 2 ^ 63 }
    requires indexed { IsIndexed entries.old (cookies by_name.old) }
    requires there { IsAt entries.old (cookies by_name.old) name position }
    requires hashed { AreHashed entries.old.list by_name.old }
    ensures indexed { IsIndexed entries.new (cookies by_name.new) }
    ensures hashed { AreHashed entries.new.list by_name.new }
    ensures ok { OnOk result (entries.new ≡ added name fileid.0 (removed name entries.old)) }
    ensures was { IfOk result (λ was. Some was.0 ≡ fileid_found entries.old name) }
    ensures err { OnErr result (entries.new ≡ entries.old) }
{
    let old = by_name.at(position);
    let was = entries.at(old.cookie, old.slot).fileid;
    let (cookie, slot) = entries.add(name, fileid)?;
    entries.remove(old.cookie);
    let hash = old.hash;
    by_name.set(position, Spot { cookie, slot, hash });
    guesses.take(hash, old.slot);
    guesses.put(hash, slot);
    Ok(was)
}
