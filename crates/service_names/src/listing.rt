//! READDIR.

ghost use Rattle.std.specs.Prelude.{◌≡◌, ◌<◌, ◌≤◌, [], ◌∷◌, ◌++◌, length};
ghost use Rattle.std.specs.Prelude.{IfOk, OnOk, OnErr};
ghost use Rattle.nfs_model.specs.Serial.Readdir.{above_cookie, fitting};
ghost use Rattle.directories.specs.Entries.{
  listed,
  page_told,
  page_value,
  page_behind,
};
ghost use Rattle.nfs_model.specs.volume.Directories.{page_of};
ghost use Rattle.filer_state.specs.changes.NameAnswers.{entries_of, is_bad_cookie};
ghost use Rattle.filer_state.specs.state.Lenses.{logical_lens};
ghost use Rattle.filer_state.specs.state.Promises.{HasVolume};
ghost use Rattle.filer_state.specs.state.Sets.{logical_before};
ghost use Rattle.service_names.specs.Promises.{Lists};
ghost use Rattle.service_names.specs.Listing.{
  dot_entry,
  dot_dot_entry,
  all_under,
  entry_here,
  tells_nothing,
};

use crate::as_directory::directory_at;
use crate::naming::is_same_name;
use crate::showing::shown;
use directories::Page;
use filer_state::Files;
use nfs_values::answer::{DirectoryEntry, ReadDirectoryResults};
use nfs_values::{COUNT_LIMIT, Cookie, Fileid, Name, Status, Verifier, VolumeNumber};
use parcels::LogicalHeld;
use std::alloc::{AllocError, Global};

/// The bytes of a page beside its entries: attributes, verifier, the end of the list and eof.
pub(crate) const PAGE_SIZE: u32 = 104;

/// The bytes of `.` or `..` in a page.
const DOTS_SIZE: usize = 28;

/// A page of a directory that is asked for (RFC 1813 section 3.3.16).
#[derive(Clone, Copy)]
pub struct PageAsked {
    /// The cookie of the last entry before it, or 0.
    pub cookie: Cookie,
    pub verifier: Verifier,
    /// The most bytes that the results may take.
    pub count: u32,
}

/// READDIR (RFC 1813 section 3.3.16), on the parcels of a volume's names and attributes: STALE,
/// NOTDIR, BAD_COOKIE where a cookie comes with a verifier that isn't zero; the entries after the
/// cookie, as many as fit, or TOOSMALL where not even one does. Memory runs out only where it
/// would list.
pub fn read_directory(
    alloc: Global,
    held: &LogicalHeld<Files>,
    volume: VolumeNumber,
    directory: Fileid,
    asked: PageAsked,
) -> Result<Result<ReadDirectoryResults, Status>, AllocError>
    requires whole { HasVolume volume.0 logical_lens [] (logical_before held.now) }
    ensures right { Lists volume.0 directory.0 asked (logical_before held.now) result }
{
    let (inode, parent) = match directory_at(held, directory) {
        Ok(found) => found,
        Err(status) => return Ok(Err(status)),
    };
    if is_bad_cookie(asked.cookie, asked.verifier) {
        return Ok(Err(Status::BadCookie));
    }
    let count = asked.count.min(COUNT_LIMIT);
    if count < PAGE_SIZE {
        return Ok(Err(Status::TooSmall));
    }
    let room = (count - PAGE_SIZE) as usize;
    let page = page_at(alloc, held, directory, parent, asked.cookie, room)?;
    if tells_nothing(&page) {
        return Ok(Err(Status::TooSmall));
    }
    Ok(Ok(ReadDirectoryResults {
        directory: shown(volume, directory, inode, None),
        entries: page.entries,
        eof: page.is_last,
    }))
}

/// Whether a cookie comes with a verifier that isn't of our pages: not zero (our profile).
pub(crate) fn is_bad_cookie(cookie: Cookie, verifier: Verifier) -> bool
    ensures { result ≡ is_bad_cookie cookie.0 verifier.0 }
{
    cookie.0 != 0 && !is_same_name(&verifier.0, &[0; 8])
}

/// Whether a page has no entry though some remain.
fn tells_nothing(page: &Page) -> bool
    ensures { result ≡ tells_nothing (page_value page.now) }
{
    page.entries.is_empty() && !page.is_last
}

/// The page after a cookie of the directory of a fileid, with `.` and `..`.
pub(crate) fn page_at(
    alloc: Global,
    held: &LogicalHeld<Files>,
    directory: Fileid,
    parent: Fileid,
    cookie: Cookie,
    room: usize,
) -> Result<Page, AllocError>
    ensures ok { IfOk result (λ p. page_value p ≡ page_of room
        (above_cookie cookie.0 (all_under held.now.own directory.0 parent.0))) }
    ensures err { OnErr result (0 < length (fitting room
        (above_cookie cookie.0 (all_under held.now.own directory.0 parent.0)))) }
{
    let mut entries = Vec::new(alloc);
    let is_last = append_at(alloc, held, directory, parent, cookie, room, &mut entries)?;
    Ok(Page { entries, is_last })
}

/// Appends the page after a cookie of the directory of a fileid, with `.` and `..`, and tells
/// whether no entry remains after it.
fn append_at(
    alloc: Global,
    held: &LogicalHeld<Files>,
    directory: Fileid,
    parent: Fileid,
    cookie: Cookie,
    room: usize,
    entries: &mut Vec<DirectoryEntry>,
) -> Result<bool, AllocError>
    ensures ok { IfOk result (λ is_last. page_told entries.new.items is_last
        ≡ page_behind (listed entries.old.items) (page_of room
        (above_cookie cookie.0 (all_under held.now.own directory.0 parent.0)))) }
    ensures err { OnErr result (0 < length (fitting room
        (above_cookie cookie.0 (all_under held.now.own directory.0 parent.0)))) }
{
    if cookie.0 == 0 {
        return append_from_dot(alloc, held, directory, parent, cookie, room, entries);
    }
    if cookie.0 == 1 {
        return append_from_dot_dot(alloc, held, directory, parent, cookie, room, entries);
    }
    append_after(alloc, held, directory, cookie, room, entries)
}

/// Appends `.`, `..` and the entries after a cookie, as many as fit into a number of bytes, and
/// tells whether none remains after them.
fn append_from_dot(
    alloc: Global,
    held: &LogicalHeld<Files>,
    directory: Fileid,
    parent: Fileid,
    cookie: Cookie,
    room: usize,
    entries: &mut Vec<DirectoryEntry>,
) -> Result<bool, AllocError>
    ensures ok { IfOk result (λ is_last. page_told entries.new.items is_last
        ≡ page_behind (listed entries.old.items) (page_of room
        (dot_entry directory.0 ∷ (dot_dot_entry parent.0
        ∷ above_cookie cookie.0 (entries_of held.now.own directory.0).list)))) }
    ensures err { OnErr result (28 ≤ room) }
{
    if room < DOTS_SIZE {
        return Ok(false);
    }
    append_entry(alloc, entries, &[b'.'], directory, Cookie(1))?;
    let left = room - DOTS_SIZE;
    append_from_dot_dot(alloc, held, directory, parent, cookie, left, entries)
}

/// Appends `..` and the entries after a cookie, as many as fit into a number of bytes, and tells
/// whether none remains after them.
fn append_from_dot_dot(
    alloc: Global,
    held: &LogicalHeld<Files>,
    directory: Fileid,
    parent: Fileid,
    cookie: Cookie,
    room: usize,
    entries: &mut Vec<DirectoryEntry>,
) -> Result<bool, AllocError>
    ensures ok { IfOk result (λ is_last. page_told entries.new.items is_last
        ≡ page_behind (listed entries.old.items) (page_of room
        (dot_dot_entry parent.0
        ∷ above_cookie cookie.0 (entries_of held.now.own directory.0).list))) }
    ensures err { OnErr result (28 ≤ room) }
{
    if room < DOTS_SIZE {
        return Ok(false);
    }
    append_entry(alloc, entries, &[b'.', b'.'], parent, Cookie(2))?;
    append_after(alloc, held, directory, cookie, room - DOTS_SIZE, entries)
}

/// Appends the entries of a directory after a cookie, as many as fit into a number of bytes, and
/// tells whether none remains after them.
fn append_after(
    alloc: Global,
    held: &LogicalHeld<Files>,
    directory: Fileid,
    cookie: Cookie,
    room: usize,
    entries: &mut Vec<DirectoryEntry>,
) -> Result<bool, AllocError>
    ensures ok { IfOk result (λ is_last. page_told entries.new.items is_last
        ≡ page_behind (listed entries.old.items) (page_of room
        (above_cookie cookie.0 (entries_of held.now.own directory.0).list))) }
    ensures err { OnErr result (0 < length (fitting room
        (above_cookie cookie.0 (entries_of held.now.own directory.0).list))) }
{
    match held.own.get().directories.get(directory) {
        Some(directory) => directory.append_page(alloc, cookie, room, entries),
        None => Ok(true),
    }
}

/// Appends an entry.
fn append_entry(
    alloc: Global,
    entries: &mut Vec<DirectoryEntry>,
    name: &[u8],
    fileid: Fileid,
    cookie: Cookie,
) -> Result<(), AllocError>
    ensures { OnOk result (listed entries.new.items
        ≡ listed entries.old.items ++ entry_here cookie.0 name.now fileid.0 ∷ []) }
{
    let name = Name::copied(alloc, name)?;
    entries.push(DirectoryEntry {
        fileid,
        name,
        cookie,
    })?;
    Ok(())
}
