//! READDIRPLUS.

ghost use Rattle.std.specs.Prelude.{◌≡◌, ◌<◌, ◌&&◌, [], length, map, min, not};
ghost use Rattle.std.specs.Prelude.{IfOk, OnErr};
ghost use Rattle.nfs_model.specs.Server.{most_bytes};
ghost use Rattle.nfs_model.specs.Serial.Readdir.{above_cookie, fitting};
ghost use Rattle.nfs_model.specs.Serial.Readdirplus.{entry_plus_size, fitting_plus};
ghost use Rattle.nfs_values.specs.Answer.{entry_of, entry_plus_of};
ghost use Rattle.nfs_values.specs.Caller.{caller_of};
ghost use Rattle.nfs_values.specs.Credential.{credential_of};
ghost use Rattle.nfs_model.specs.Serial.Rights.{may_search, protected};
ghost use Rattle.nfs_model.specs.Types.{DirectoryKind};
ghost use Rattle.inodes.specs.Inode.{attributes_value};
ghost use Rattle.directories.specs.Entries.{listed};
ghost use Rattle.filer_state.specs.state.Lenses.{logical_lens};
ghost use Rattle.filer_state.specs.state.Promises.{HasVolume};
ghost use Rattle.filer_state.specs.state.Sets.{logical_before};
ghost use Rattle.service_names.specs.Promises.{ListsPlus};
ghost use Rattle.service_names.specs.Listing.{
  all_under,
  entry_if,
  page_plus_of,
  page_plus_value,
  tells_no_node,
};

use crate::as_directory::directory_at;
use crate::listing::{PAGE_SIZE, is_bad_cookie, page_at};
use crate::protection::directory_protection;
use crate::showing::shown;
use crate::telling::object_at;
use filer_state::Files;
use inodes::Inode;
use nfs_values::answer::{DirectoryEntry, DirectoryEntryPlus, ReadDirectoryPlusResults};
use nfs_values::{
    COUNT_LIMIT, Caller, Cookie, FileHandle, Fileid, Named, Status, Verifier, VolumeNumber,
};
use parcels::LogicalHeld;
use rights::may_search;
use std::alloc::{AllocError, Global};

/// The bytes of an entry beside its fileid, name and cookie: 88 for the attributes and 28 for a
/// handle of at most 20 bytes.
const NODE_SIZE: usize = 116;

/// A page of a directory that is asked for with attributes and handles (RFC 1813 section 3.3.17).
#[derive(Clone, Copy)]
pub struct PagePlusAsked {
    /// The cookie of the last entry before it, or 0.
    pub cookie: Cookie,
    pub verifier: Verifier,
    /// The most bytes that fileids, names and cookies may take.
    pub names_count: u32,
    /// The most bytes that the results may take.
    pub count: u32,
}

/// Entries that follow one another in a directory, with attributes and handles.
#[derive(Drop)]
struct PagePlus {
    entries: Vec<DirectoryEntryPlus>,
    /// Whether no entry remains after these.
    is_last: bool,
}

/// READDIRPLUS (RFC 1813 section 3.3.17), on the parcels of a volume's names and attributes: STALE,
/// NOTDIR, BAD_COOKIE where a cookie comes with a verifier that isn't zero; of the entries after
/// the cookie as many as fit by both counts, each with the attributes and the handle of its node
/// for a caller that may search the directory, or TOOSMALL where not even one does. Memory runs out
/// only where it would list.
pub fn read_directory_plus(
    alloc: Global,
    held: &LogicalHeld<Files>,
    volume: VolumeNumber,
    directory: Fileid,
    asked: PagePlusAsked,
    caller: &Caller,
) -> Result<Result<ReadDirectoryPlusResults, Status>, AllocError>
    requires whole { HasVolume volume.0 logical_lens [] (logical_before held.now) }
    ensures right { ListsPlus volume.0 directory.0 asked (caller_of caller.now)
        (logical_before held.now) result }
{
    let (inode, parent) = match directory_at(held, directory) {
        Ok(found) => found,
        Err(status) => return Ok(Err(status)),
    };
    if is_bad_cookie(asked.cookie, asked.verifier) {
        return Ok(Err(Status::BadCookie));
    }
    let count = asked.count.min(COUNT_LIMIT);
    if count < PAGE_SIZE {
        return Ok(Err(Status::TooSmall));
    }
    let room = (count - PAGE_SIZE) as usize;
    let is_bare = sees_names_alone(caller, &inode);
    let page = page_plus_at(alloc, held, volume, directory, parent, asked, room, is_bare)?;
    if tells_no_node(&page) {
        return Ok(Err(Status::TooSmall));
    }
    Ok(Ok(ReadDirectoryPlusResults {
        directory: shown(volume, directory, inode, None),
        entries: page.entries,
        eof: page.is_last,
    }))
}

/// Whether a caller is told the names of a directory alone: one that is checked and may not search
/// it.
fn sees_names_alone(caller: &Caller, directory: &Inode) -> bool
    ensures { result ≡ (caller.now.is_checked
        && not (may_search (credential_of caller.now.credential)
        (protected DirectoryKind (attributes_value directory.now.attributes)))) }
{
    caller.is_checked && !may_search(&caller.credential, &directory_protection(directory))
}

/// Whether a page has no entry though some remain.
fn tells_no_node(page: &PagePlus) -> bool
    ensures { result ≡ tells_no_node (page_plus_value page.now) }
{
    page.entries.is_empty() && !page.is_last
}

/// The page after a cookie of the directory of a fileid, with `.` and `..`: of the entries whose
/// names fit as many as fit whole into a number of bytes, bare or with their nodes.
fn page_plus_at(
    alloc: Global,
    held: &LogicalHeld<Files>,
    volume: VolumeNumber,
    directory: Fileid,
    parent: Fileid,
    asked: PagePlusAsked,
    room: usize,
    is_bare: bool,
) -> Result<PagePlus, AllocError>
    requires whole { HasVolume volume.0 logical_lens [] (logical_before held.now) }
    ensures ok { IfOk result (λ p. page_plus_value p
        ≡ page_plus_of (entry_if is_bare volume.0 (logical_before held.now))
        (min asked.names_count most_bytes) room
        (above_cookie asked.cookie.0 (all_under held.now.own directory.0 parent.0))) }
    ensures err { OnErr result
        (0 < length (fitting_plus room (fitting (min asked.names_count most_bytes)
        (above_cookie asked.cookie.0 (all_under held.now.own directory.0 parent.0))))) }
{
    let names = asked.names_count.min(COUNT_LIMIT) as usize;
    // an entry that fits whole leaves room for its node
    let names = names.min(room.saturating_sub(NODE_SIZE));
    let page = page_at(alloc, held, directory, parent, asked.cookie, names)?;
    let fitting = page.entries.len();
    let entries = with_nodes(alloc, held, volume, page.entries, room, is_bare)?;
    let is_last = page.is_last && entries.len() == fitting;
    Ok(PagePlus { entries, is_last })
}

/// Entries, bare or with the attributes and handles of their nodes, as many as fit with these into
/// a number of bytes.
fn with_nodes(
    alloc: Global,
    held: &LogicalHeld<Files>,
    volume: VolumeNumber,
    entries: Vec<DirectoryEntry>,
    room: usize,
    is_bare: bool,
) -> Result<Vec<DirectoryEntryPlus>, AllocError>
    requires whole { HasVolume volume.0 logical_lens [] (logical_before held.now) }
    ensures ok { IfOk result (λ told. map entry_plus_of told.items
        ≡ map (entry_if is_bare volume.0 (logical_before held.now))
        (fitting_plus room (listed entries.items))) }
    ensures err { OnErr result (0 < length entries.items) }
{
    let mut told = Vec::new(alloc);
    let mut left = room;
    for entry in entries {
        let size = size_with_node(&entry);
        if size > left {
            return Ok(told);
        }
        left -= size;
        told.push(with_node(held, volume, entry, is_bare))?;
    }
    Ok(told)
}

/// The bytes of an entry in a page with its attributes and its handle.
fn size_with_node(entry: &DirectoryEntry) -> usize
    ensures { result ≡ entry_plus_size (entry_of entry.now) }
{
    24 + 4 * ((entry.name.as_bytes().len() + 3) / 4) + NODE_SIZE
}

/// An entry, bare or with the attributes and the handle of its node.
fn with_node(
    held: &LogicalHeld<Files>,
    volume: VolumeNumber,
    entry: DirectoryEntry,
    is_bare: bool,
) -> DirectoryEntryPlus
    requires whole { HasVolume volume.0 logical_lens [] (logical_before held.now) }
    ensures { entry_plus_of result
        ≡ entry_if is_bare volume.0 (logical_before held.now) (entry_of entry) }
{
    if is_bare {
        return DirectoryEntryPlus {
            entry,
            attributes: None,
            handle: None,
        };
    }
    let fileid = entry.fileid;
    DirectoryEntryPlus {
        entry,
        attributes: object_at(held, volume, fileid).ok(),
        handle: Some(FileHandle::naming(Named { volume, fileid })),
    }
}
