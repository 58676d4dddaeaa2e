//! Which calls are refused by the owner, the groups and the mode of objects, and which since their
//! caller may change nothing (RFC 1813 section 2.5: ACCES, PERM and ROFS). A name is looked up only
//! where its directory alone doesn't tell. Nothing takes memory.

ghost use Rattle.std.specs.Prelude.{◌≡◌, ◌==◌, ◌||◌, ◌&&◌, false, not, true, Option};
ghost use Rattle.std.specs.FinMap.{get};
ghost use Rattle.std.specs.Option.{option_map};
ghost use Rattle.nfs_model.specs.Types as types;
ghost use Rattle.nfs_model.specs.Serial.Permission.{
  is_no_child,
  needs,
  refusal_of,
  set_refusal,
  then_asks,
};
ghost use Rattle.nfs_model.specs.Serial.Rights as rights;
ghost use Rattle.nfs_model.specs.Serial.Rights.{may_list, may_search};
ghost use Rattle.nfs_model.specs.volume.Directories.{fileid_found};
ghost use Rattle.filer_state.specs.changes.NameAnswers.{entries_of};
ghost use Rattle.nfs_values.specs.Attributes.{kind_of};
ghost use Rattle.nfs_values.specs.Caller.{caller_of};
ghost use Rattle.nfs_values.specs.Credential.{credential_of};
ghost use Rattle.nfs_values.specs.Set.{mode_of, set_of};
ghost use Rattle.nfs_values.specs.Status.{status_of};
ghost use Rattle.rights.specs.Protection.{protection_of};
ghost use Rattle.filer_state.specs.permissions.Refusing.{
  are_one,
  create_asked,
  gone_asked,
  link_asked,
  mknod_asked,
  move_asked,
  new_asked,
  of_directory_inode,
  of_held_name,
  of_held_names,
  of_inode,
  protection_under,
  target_asked,
};
ghost use Rattle.filer_state.specs.state.Sets.{logical_before};
ghost use Rattle.service_names.specs.Refusing.{asked_by, unless_one};

use crate::asking::{asks_over, gone_fault, is_free, is_settled, moved_fault, over_fault};
use crate::child::{find, is_dots};
use crate::naming::name_fault;
use crate::protection::protection_of;
use filer_state::Files;
use inodes::InodeKind;
use nfs_values::{Caller, CreateMode, Credential, FileKind, Fileid, SetAttributes, Status};
use parcels::LogicalHeld;
use rights::{
    Protection, asked_first, device_fault, may_change, may_list, may_search, needs,
    set_refusal as fault_of_set,
};

// ---- by procedure

/// A refusal of a SETATTR (RFC 1813 section 3.3.2).
pub fn setting_refusal(
    held: &LogicalHeld<Files>,
    fileid: Fileid,
    set: &SetAttributes,
    caller: &Caller,
) -> Option<Status>
    ensures { option_map status_of result ≡ refusal_of (caller_of caller.now) true
        (of_inode (get held.now.own.inodes.inodes fileid.0)
        (set_refusal (credential_of caller.now.credential) (set_of set.now))) }
{
    match asked_first(caller, true) {
        Ok(()) => setting_fault(held, fileid, set, &caller.credential),
        Err(told) => told,
    }
}

/// A refusal of a LOOKUP (RFC 1813 section 3.3.3).
pub fn lookup_refusal(
    held: &LogicalHeld<Files>,
    directory: Fileid,
    caller: &Caller,
) -> Option<Status>
    ensures { option_map status_of result ≡ refusal_of (caller_of caller.now) false
        (of_directory_inode (get held.now.own.inodes.inodes directory.0)
        (λ d. needs (may_search (credential_of caller.now.credential) d))) }
{
    match asked_first(caller, false) {
        Ok(()) => lookup_fault(held, directory, &caller.credential),
        Err(told) => told,
    }
}

/// A refusal of a READDIR or a READDIRPLUS (RFC 1813 sections 3.3.16 and 3.3.17).
pub fn listing_refusal(
    held: &LogicalHeld<Files>,
    directory: Fileid,
    caller: &Caller,
) -> Option<Status>
    ensures { option_map status_of result ≡ refusal_of (caller_of caller.now) false
        (of_directory_inode (get held.now.own.inodes.inodes directory.0)
        (λ d. needs (may_list (credential_of caller.now.credential) d))) }
{
    match asked_first(caller, false) {
        Ok(()) => listing_fault(held, directory, &caller.credential),
        Err(told) => told,
    }
}

/// A refusal of a CREATE (RFC 1813 section 3.3.8).
pub fn creating_refusal(
    held: &LogicalHeld<Files>,
    directory: Fileid,
    name: &[u8],
    mode: &CreateMode,
    caller: &Caller,
) -> Option<Status>
    ensures { option_map status_of result ≡ refusal_of (caller_of caller.now) true
        (of_held_name (credential_of caller.now.credential) name.now (logical_before held.now)
        directory.0 (create_asked (credential_of caller.now.credential) (mode_of mode.now))) }
{
    match asked_first(caller, true) {
        Ok(()) => creating_fault(held, directory, name, mode, &caller.credential),
        Err(told) => told,
    }
}

/// A refusal of a MKDIR or a SYMLINK (RFC 1813 sections 3.3.9 and 3.3.10).
pub fn making_refusal(
    held: &LogicalHeld<Files>,
    directory: Fileid,
    name: &[u8],
    caller: &Caller,
) -> Option<Status>
    ensures { option_map status_of result ≡ refusal_of (caller_of caller.now) true
        (of_held_name (credential_of caller.now.credential) name.now (logical_before held.now)
        directory.0 (new_asked (credential_of caller.now.credential))) }
{
    match asked_first(caller, true) {
        Ok(()) => making_fault(held, directory, name, &caller.credential),
        Err(told) => told,
    }
}

/// A refusal of a MKNOD (RFC 1813 section 3.3.11): a device is for uid 0 to make.
pub fn node_refusal(
    held: &LogicalHeld<Files>,
    directory: Fileid,
    name: &[u8],
    kind: FileKind,
    caller: &Caller,
) -> Option<Status>
    ensures { option_map status_of result ≡ refusal_of (caller_of caller.now) true
        (of_held_name (credential_of caller.now.credential) name.now (logical_before held.now)
        directory.0 (mknod_asked (credential_of caller.now.credential) (kind_of kind))) }
{
    match asked_first(caller, true) {
        Ok(()) => node_fault(held, directory, name, kind, &caller.credential),
        Err(told) => told,
    }
}

/// A refusal of a LINK (RFC 1813 section 3.3.15) of a node under a name of a directory.
pub fn linking_refusal(
    held: &LogicalHeld<Files>,
    fileid: Fileid,
    directory: Fileid,
    name: &[u8],
    caller: &Caller,
) -> Option<Status>
    ensures { option_map status_of result ≡ refusal_of (caller_of caller.now) true
        (link_asked (credential_of caller.now.credential) name.now (logical_before held.now)
        fileid.0 directory.0) }
{
    match asked_first(caller, true) {
        Ok(()) => linking_fault(held, fileid, directory, name, &caller.credential),
        Err(told) => told,
    }
}

/// A refusal of a REMOVE or a RMDIR (RFC 1813 sections 3.3.12 and 3.3.13).
pub fn removing_refusal(
    held: &LogicalHeld<Files>,
    directory: Fileid,
    name: &[u8],
    caller: &Caller,
) -> Option<Status>
    ensures { option_map status_of result ≡ refusal_of (caller_of caller.now) true
        (of_held_name (credential_of caller.now.credential) name.now (logical_before held.now)
        directory.0 (gone_asked (credential_of caller.now.credential))) }
{
    match asked_first(caller, true) {
        Ok(()) => removing_fault(held, directory, name, &caller.credential),
        Err(told) => told,
    }
}

/// A refusal of a RENAME (RFC 1813 section 3.3.14).
pub fn renaming_refusal(
    held: &LogicalHeld<Files>,
    from: Fileid,
    from_name: &[u8],
    to: Fileid,
    to_name: &[u8],
    caller: &Caller,
) -> Option<Status>
    ensures { option_map status_of result ≡ refusal_of (caller_of caller.now) true
        (of_held_names (credential_of caller.now.credential) from_name.now to_name.now
        (logical_before held.now) from.0 to.0) }
{
    match asked_first(caller, true) {
        Ok(()) => renaming_fault(held, from, from_name, to, to_name, &caller.credential),
        Err(told) => told,
    }
}

// ---- of a node

/// What of a SETATTR is refused a checked caller.
fn setting_fault(
    held: &LogicalHeld<Files>,
    fileid: Fileid,
    set: &SetAttributes,
    who: &Credential,
) -> Option<Status>
    ensures { option_map status_of result ≡ of_inode (get held.now.own.inodes.inodes fileid.0)
        (set_refusal (credential_of who.now) (set_of set.now)) }
{
    match held.own.get().inodes.get(fileid) {
        Some(inode) => fault_of_set(who, set, &protection_of(&inode)),
        None => None,
    }
}

// ---- of a directory

/// The protection of the directory of a fileid; nothing is asked of another node.
fn directory_asked(held: &LogicalHeld<Files>, fileid: Fileid) -> Result<Protection, Option<Status>>
    ensures { (ask : rights.Protection → Option types.Status)
        → of_directory_inode (get held.now.own.inodes.inodes fileid.0) ask
        ≡ asked_by result ask }
{
    let inode = match held.own.get().inodes.get(fileid) {
        Some(inode) => inode,
        None => return Err(None),
    };
    match inode.kind {
        InodeKind::RegularFile { .. } => Err(None),
        InodeKind::Special { .. } => Err(None),
        InodeKind::Directory { .. } => Ok(protection_of(&inode)),
    }
}

/// The protection of the directory of a fileid, where a caller may search it.
fn searched(
    held: &LogicalHeld<Files>,
    fileid: Fileid,
    who: &Credential,
) -> Result<Protection, Option<Status>>
    ensures { (ask : rights.Protection → Option types.Status)
        → of_directory_inode (get held.now.own.inodes.inodes fileid.0)
        (λ d. then_asks (needs (may_search (credential_of who.now) d)) (ask d))
        ≡ asked_by result ask }
{
    let directory = match directory_asked(held, fileid) {
        Ok(directory) => directory,
        Err(told) => return Err(told),
    };
    if may_search(who, &directory) {
        return Ok(directory);
    }
    Err(Some(Status::Access))
}

/// ACCES where a checked caller may not search a directory.
fn lookup_fault(held: &LogicalHeld<Files>, directory: Fileid, who: &Credential) -> Option<Status>
    ensures { option_map status_of result
        ≡ of_directory_inode (get held.now.own.inodes.inodes directory.0)
        (λ d. needs (may_search (credential_of who.now) d)) }
{
    match directory_asked(held, directory) {
        Ok(directory) => needs(may_search(who, &directory)),
        Err(told) => told,
    }
}

/// ACCES where a checked caller may not list a directory.
fn listing_fault(held: &LogicalHeld<Files>, directory: Fileid, who: &Credential) -> Option<Status>
    ensures { option_map status_of result
        ≡ of_directory_inode (get held.now.own.inodes.inodes directory.0)
        (λ d. needs (may_list (credential_of who.now) d)) }
{
    match directory_asked(held, directory) {
        Ok(directory) => needs(may_list(who, &directory)),
        Err(told) => told,
    }
}

// ---- of a name

/// Whether no entry has a name: a bad one, `.` or `..`.
fn is_no_child(name: &[u8]) -> bool
    ensures { result ≡ is_no_child name.now }
{
    name_fault(name).is_some() || is_dots(name)
}

/// The protection of the directory of a fileid, where a caller may search it and an entry may have
/// a name.
fn named(
    held: &LogicalHeld<Files>,
    fileid: Fileid,
    name: &[u8],
    who: &Credential,
) -> Result<Protection, Option<Status>>
    ensures { (ask : rights.Protection → Option rights.Protection → Option types.Status)
        → of_held_name (credential_of who.now) name.now (logical_before held.now) fileid.0 ask
        ≡ asked_by result
        (λ d. ask d (protection_under (logical_before held.now) fileid.0 name.now)) }
{
    let directory = match searched(held, fileid, who) {
        Ok(directory) => directory,
        Err(told) => return Err(told),
    };
    if is_no_child(name) {
        return Err(None);
    }
    Ok(directory)
}

/// The protection of the node under a name of a directory.
fn protection_under(held: &LogicalHeld<Files>, directory: Fileid, name: &[u8]) -> Option<Protection>
    ensures { option_map protection_of result
        ≡ protection_under (logical_before held.now) directory.0 name.now }
{
    let fileid = find(held, directory, name)?;
    match held.own.get().inodes.get(fileid) {
        Some(inode) => Some(protection_of(&inode)),
        None => None,
    }
}

/// What of a CREATE is refused a checked caller.
fn creating_fault(
    held: &LogicalHeld<Files>,
    directory: Fileid,
    name: &[u8],
    mode: &CreateMode,
    who: &Credential,
) -> Option<Status>
    ensures { option_map status_of result ≡ of_held_name (credential_of who.now) name.now
        (logical_before held.now) directory.0
        (create_asked (credential_of who.now) (mode_of mode.now)) }
{
    match named(held, directory, name, who) {
        Ok(protection) => created_fault(held, directory, name, mode, who, &protection),
        Err(told) => told,
    }
}

/// What of a CREATE is refused in a directory of this protection.
fn created_fault(
    held: &LogicalHeld<Files>,
    fileid: Fileid,
    name: &[u8],
    mode: &CreateMode,
    who: &Credential,
    directory: &Protection,
) -> Option<Status>
    ensures { option_map status_of result ≡ create_asked (credential_of who.now)
        (mode_of mode.now) (protection_of directory.now)
        (protection_under (logical_before held.now) fileid.0 name.now) }
{
    let may = may_change(who, directory);
    if is_told(may, asks_over(who, mode)) {
        return None;
    }
    match protection_under(held, fileid, name) {
        Some(object) => over_fault(who, mode, &object),
        None => needs(may),
    }
}

/// Whether a CREATE is refused by no node under its name: its directory may be changed, and no
/// right of a file is asked for.
fn is_told(may: bool, asks_over: bool) -> bool
    ensures { result ≡ (may && not asks_over) }
{
    may && !asks_over
}

/// What of a new name is refused a checked caller.
fn making_fault(
    held: &LogicalHeld<Files>,
    directory: Fileid,
    name: &[u8],
    who: &Credential,
) -> Option<Status>
    ensures { option_map status_of result ≡ of_held_name (credential_of who.now) name.now
        (logical_before held.now) directory.0 (new_asked (credential_of who.now)) }
{
    match named(held, directory, name, who) {
        Ok(protection) => made_fault(held, directory, name, who, &protection),
        Err(told) => told,
    }
}

/// What of a new name is refused in a directory of this protection.
fn made_fault(
    held: &LogicalHeld<Files>,
    fileid: Fileid,
    name: &[u8],
    who: &Credential,
    directory: &Protection,
) -> Option<Status>
    ensures { option_map status_of result ≡ new_asked (credential_of who.now)
        (protection_of directory.now)
        (protection_under (logical_before held.now) fileid.0 name.now) }
{
    if may_change(who, directory) {
        return None;
    }
    match protection_under(held, fileid, name) {
        Some(_) => None,
        None => Some(Status::Access),
    }
}

/// What of a MKNOD is refused a checked caller.
fn node_fault(
    held: &LogicalHeld<Files>,
    directory: Fileid,
    name: &[u8],
    kind: FileKind,
    who: &Credential,
) -> Option<Status>
    ensures { option_map status_of result ≡ of_held_name (credential_of who.now) name.now
        (logical_before held.now) directory.0 (mknod_asked (credential_of who.now) (kind_of kind)) }
{
    match named(held, directory, name, who) {
        Ok(protection) => made_node_fault(held, directory, name, kind, who, &protection),
        Err(told) => told,
    }
}

/// What of a MKNOD is refused in a directory of this protection.
fn made_node_fault(
    held: &LogicalHeld<Files>,
    fileid: Fileid,
    name: &[u8],
    kind: FileKind,
    who: &Credential,
    directory: &Protection,
) -> Option<Status>
    ensures { option_map status_of result ≡ mknod_asked (credential_of who.now) (kind_of kind)
        (protection_of directory.now)
        (protection_under (logical_before held.now) fileid.0 name.now) }
{
    let fault = match needs(may_change(who, directory)) {
        Some(fault) => Some(fault),
        None => device_fault(who, kind),
    };
    if fault.is_none() {
        return None;
    }
    match protection_under(held, fileid, name) {
        Some(_) => None,
        None => fault,
    }
}

/// What of a LINK is refused a checked caller: what of a new name is, where the node is there.
fn linking_fault(
    held: &LogicalHeld<Files>,
    fileid: Fileid,
    directory: Fileid,
    name: &[u8],
    who: &Credential,
) -> Option<Status>
    ensures { option_map status_of result ≡ link_asked (credential_of who.now) name.now
        (logical_before held.now) fileid.0 directory.0 }
{
    match held.own.get().inodes.get(fileid) {
        Some(_) => making_fault(held, directory, name, who),
        None => None,
    }
}

/// What of a REMOVE or a RMDIR is refused a checked caller.
fn removing_fault(
    held: &LogicalHeld<Files>,
    directory: Fileid,
    name: &[u8],
    who: &Credential,
) -> Option<Status>
    ensures { option_map status_of result ≡ of_held_name (credential_of who.now) name.now
        (logical_before held.now) directory.0 (gone_asked (credential_of who.now)) }
{
    match named(held, directory, name, who) {
        Ok(protection) => removed_fault(held, directory, name, who, &protection),
        Err(told) => told,
    }
}

/// What is refused where a name goes from a directory of this protection.
fn removed_fault(
    held: &LogicalHeld<Files>,
    fileid: Fileid,
    name: &[u8],
    who: &Credential,
    directory: &Protection,
) -> Option<Status>
    ensures { option_map status_of result ≡ gone_asked (credential_of who.now)
        (protection_of directory.now)
        (protection_under (logical_before held.now) fileid.0 name.now) }
{
    if is_free(who, directory) {
        return None;
    }
    match protection_under(held, fileid, name) {
        Some(object) => gone_fault(who, directory, &object),
        None => None,
    }
}

// ---- of two names

/// Whether both names are of one node, of which nothing is asked.
fn are_one(
    held: &LogicalHeld<Files>,
    from: Fileid,
    from_name: &[u8],
    to: Fileid,
    to_name: &[u8],
) -> bool
    ensures { result ≡ are_one (fileid_found (entries_of held.now.own from.0) from_name.now)
        (fileid_found (entries_of held.now.own to.0) to_name.now) }
{
    let fileid = match find(held, from, from_name) {
        Some(fileid) => fileid,
        None => return false,
    };
    match find(held, to, to_name) {
        Some(target) => target.0 == fileid.0,
        None => false,
    }
}

/// What of a RENAME is refused a checked caller.
fn renaming_fault(
    held: &LogicalHeld<Files>,
    from: Fileid,
    from_name: &[u8],
    to: Fileid,
    to_name: &[u8],
    who: &Credential,
) -> Option<Status>
    ensures { option_map status_of result ≡ of_held_names (credential_of who.now) from_name.now
        to_name.now (logical_before held.now) from.0 to.0 }
{
    let source = match directory_asked(held, from) {
        Ok(source) => source,
        Err(told) => return told,
    };
    let target = match directory_asked(held, to) {
        Ok(target) => target,
        Err(told) => return told,
    };
    if !may_search(who, &source) {
        return Some(Status::Access);
    }
    if !may_search(who, &target) {
        return Some(Status::Access);
    }
    if is_no_child(from_name) || is_no_child(to_name) {
        return None;
    }
    moving_fault(held, from, from_name, to, to_name, &source, &target, who)
}

/// What of a RENAME is refused between directories of these protections.
fn moving_fault(
    held: &LogicalHeld<Files>,
    from: Fileid,
    from_name: &[u8],
    to: Fileid,
    to_name: &[u8],
    source: &Protection,
    target: &Protection,
    who: &Credential,
) -> Option<Status>
    ensures { option_map status_of result ≡ unless_one
        (are_one (fileid_found (entries_of held.now.own from.0) from_name.now)
        (fileid_found (entries_of held.now.own to.0) to_name.now))
        (move_asked (credential_of who.now) (from.0 == to.0)
        (protection_of source.now) (protection_of target.now)
        (protection_under (logical_before held.now) from.0 from_name.now)
        (protection_under (logical_before held.now) to.0 to_name.now)) }
{
    let stays = from.0 == to.0;
    if is_settled(who, stays, source, target) {
        return None;
    }
    if are_one(held, from, from_name, to, to_name) {
        return None;
    }
    moved_between(held, from, from_name, to, to_name, source, target, who)
}

/// What of a RENAME is refused where its names aren't of one node.
fn moved_between(
    held: &LogicalHeld<Files>,
    from: Fileid,
    from_name: &[u8],
    to: Fileid,
    to_name: &[u8],
    source: &Protection,
    target: &Protection,
    who: &Credential,
) -> Option<Status>
    ensures { option_map status_of result ≡ move_asked (credential_of who.now) (from.0 == to.0)
        (protection_of source.now) (protection_of target.now)
        (protection_under (logical_before held.now) from.0 from_name.now)
        (protection_under (logical_before held.now) to.0 to_name.now) }
{
    let stays = from.0 == to.0;
    let object = match protection_under(held, from, from_name) {
        Some(object) => object,
        None => return None,
    };
    match gone_fault(who, source, &object) {
        Some(fault) => return Some(fault),
        None => {}
    }
    match target_fault(held, to, to_name, who, target) {
        Some(fault) => Some(fault),
        None => moved_fault(who, stays, &object),
    }
}

/// What is refused where a name comes into a directory of this protection, in the place of another
/// or as a new one.
fn target_fault(
    held: &LogicalHeld<Files>,
    fileid: Fileid,
    name: &[u8],
    who: &Credential,
    directory: &Protection,
) -> Option<Status>
    ensures { option_map status_of result ≡ target_asked (credential_of who.now)
        (protection_of directory.now)
        (protection_under (logical_before held.now) fileid.0 name.now) }
{
    if is_free(who, directory) {
        return None;
    }
    match protection_under(held, fileid, name) {
        Some(object) => gone_fault(who, directory, &object),
        None => needs(may_change(who, directory)),
    }
}
