//! Attributes that calls set.

ghost use Rattle.std.specs.Prelude.{◌≡◌, ◌≤◌, is_some, if◌then◌else◌};
ghost use Rattle.std.specs.Option.{option_map};
ghost use Rattle.nfs_model.specs.Serial.Setattr.{
  is_bad_time,
  has_bad_time,
  is_past,
  is_stale_guard,
  given_mode,
  time_after,
  set_attributes,
};
ghost use Rattle.nfs_values.specs.Moment.{moment_of};
ghost use Rattle.nfs_values.specs.Set.{set_of, time_of};
ghost use Rattle.nfs_values.specs.Status.{status_of};
ghost use Rattle.inodes.specs.Inode.{attributes_value, inode_value, kind_value};
ghost use Rattle.filer_state.specs.changes.Attributes.{is_directory_sized, node_fault};
ghost use Rattle.filer_state.specs.state.Changes.{attributes_now};
ghost use Rattle.filer_state.specs.state.Sets.{logical_before};

use crate::touches::{is_same, latest_touch};
use filer_state::Files;
use inodes::{Inode, InodeKind, StoredAttributes};
use nfs_values::{Fileid, Moment, NANOSECONDS_OF_A_SECOND, SetAttributes, SetTime, Status};
use parcels::LogicalHeld;

/// What hinders that the node of a fileid, whose inode this is, gets attributes: NOT_SYNC where a
/// guard is another ctime; INVAL for a time of 1,000,000,000 nanoseconds or more, or a size of
/// what is no file; FBIG for more than the largest size.
pub(crate) fn set_fault(
    held: &LogicalHeld<Files>,
    fileid: Fileid,
    inode: Inode,
    set: &SetAttributes,
    guard: Option<Moment>,
) -> Option<Status>
    requires { held.now.own.stripes ≤ 16 }
    ensures { option_map status_of result ≡ node_fault fileid.0 (set_of set.now)
        (option_map moment_of guard) (inode_value inode) (logical_before held.now) }
{
    let now = attributes_now(inode, latest_touch(held, fileid));
    if is_stale_guard(guard, now.ctime) {
        return Some(Status::NotSynchronous);
    }
    if has_bad_time(set) {
        return Some(Status::Invalid);
    }
    if is_directory_sized(inode.kind, set.size) {
        return Some(Status::Invalid);
    }
    if is_past(set.size, held.own.get().largest) {
        return Some(Status::TooBig);
    }
    None
}

/// Whether a guard is another ctime than a node's (sattrguard3, RFC 1813 section 3.3.2).
fn is_stale_guard(guard: Option<Moment>, ctime: Moment) -> bool
    ensures { result ≡ is_stale_guard (option_map moment_of guard) (moment_of ctime) }
{
    match guard {
        Some(moment) => !is_same(moment, ctime),
        None => false,
    }
}

/// Whether a client's time of these has 1,000,000,000 nanoseconds or more.
pub(crate) fn has_bad_time(set: &SetAttributes) -> bool
    ensures { result ≡ has_bad_time (set_of set.now) }
{
    is_bad_time(set.atime) || is_bad_time(set.mtime)
}

/// Whether a time is a client's with 1,000,000,000 nanoseconds or more.
fn is_bad_time(time: SetTime) -> bool
    ensures { result ≡ is_bad_time (time_of time) }
{
    match time {
        SetTime::Keep => false,
        SetTime::ServerTime => false,
        SetTime::ClientTime(moment) => moment.nanoseconds >= NANOSECONDS_OF_A_SECOND,
    }
}

/// Whether this is a size for what is no file.
fn is_directory_sized(kind: InodeKind, size: Option<u64>) -> bool
    ensures { result ≡ is_directory_sized (kind_value kind) size }
{
    match kind {
        InodeKind::RegularFile { .. } => false,
        InodeKind::Directory { .. } => size.is_some(),
        InodeKind::Special { .. } => size.is_some(),
    }
}

/// Whether this is a size over the largest.
pub(crate) fn is_past(size: Option<u64>, largest: u64) -> bool
    ensures { result ≡ is_past size largest }
{
    match size {
        Some(size) => largest < size,
        None => false,
    }
}

/// The attributes of a node as they hold, where this is its file's latest touch; nothing else
/// has one.
pub fn attributes_now(inode: Inode, touch: Option<Moment>) -> StoredAttributes
    ensures { attributes_value result ≡ attributes_now (option_map moment_of touch)
        (attributes_value inode.attributes) (kind_value inode.kind) }
{
    match inode.kind {
        InodeKind::RegularFile { .. } => inode.attributes.with_touch(touch),
        InodeKind::Directory { .. } => inode.attributes,
        InodeKind::Special { .. } => inode.attributes,
    }
}

/// Attributes with others set at a moment: a size sets mtime, and ctime is always set.
pub(crate) fn with_attributes(
    now: StoredAttributes,
    set: &SetAttributes,
    moment: Moment,
) -> StoredAttributes
    ensures { attributes_value result
        ≡ set_attributes (set_of set.now) (moment_of moment) (attributes_value now) }
{
    let mtime = mtime_sized(set.size, moment, now.mtime);
    StoredAttributes {
        mode: given_mode(set.mode, now.mode),
        uid: set.uid.unwrap_or(now.uid),
        gid: set.gid.unwrap_or(now.gid),
        atime: time_after(set.atime, moment, now.atime),
        mtime: time_after(set.mtime, moment, mtime),
        ctime: moment,
    }
}

/// The mtime where a size may be given, at a moment.
fn mtime_sized(size: Option<u64>, moment: Moment, old: Moment) -> Moment
    ensures { moment_of result
        ≡ (if is_some size then moment_of moment else moment_of old) }
{
    match size {
        Some(_) => moment,
        None => old,
    }
}

/// The low 12 bits of a mode that is given, or the old one.
pub(crate) fn given_mode(mode: Option<u32>, old: u16) -> u16
    ensures { result ≡ given_mode mode old }
{
    match mode {
        Some(mode) => (mode % 4_096) as u16,
        None => old,
    }
}

/// A time as a call says, at a moment, from an old one.
pub(crate) fn time_after(time: SetTime, moment: Moment, old: Moment) -> Moment
    ensures { moment_of result
        ≡ time_after (time_of time) (moment_of moment) (moment_of old) }
{
    match time {
        SetTime::Keep => old,
        SetTime::ServerTime => moment,
        SetTime::ClientTime(given) => given,
    }
}
