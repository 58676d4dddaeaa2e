//! Attributes that a checked caller sets (SETATTR, RFC 1813 section 3.3.2).

ghost use Rattle.std.specs.Prelude.{◌≡◌, ◌≤◌, ◌==◌, ◌&&◌, ◌||◌, not, is_some};
ghost use Rattle.std.specs.Option.{option_map};
ghost use Rattle.nfs_model.specs.Serial.Permission.{
  is_client_time,
  is_kept,
  is_own_group,
  set_refusal,
  sets_owned,
};
ghost use Rattle.nfs_model.specs.Serial.Rights.{mode_of_group};
ghost use Rattle.nfs_model.specs.Serial.Setattr.{mode_checked, mode_kept, mode_taken};
ghost use Rattle.nfs_values.specs.Caller.{caller_of};
ghost use Rattle.nfs_values.specs.Credential.{credential_of};
ghost use Rattle.nfs_values.specs.Set.{set_of, time_of};
ghost use Rattle.nfs_values.specs.Status.{status_of};
ghost use Rattle.rights.specs.Protection.{protection_of};

use crate::bits::{SET_GID, without_bit, without_set_ids};
use crate::granting::may_write;
use crate::mode::is_in_group;
use crate::protection::Protection;
use crate::refusing::{needs, reserved};
use nfs_values::{Caller, Credential, Ownership, SetAttributes, SetTime, Status};

/// Whether a time is the client's.
fn is_client_time(time: SetTime) -> bool
    ensures { result ≡ is_client_time (time_of time) }
{
    match time {
        SetTime::Keep => false,
        SetTime::ServerTime => false,
        SetTime::ClientTime(_) => true,
    }
}

/// Whether a number that may be given is the old one, or isn't given.
fn is_kept(given: Option<u32>, old: u32) -> bool
    ensures { result ≡ is_kept given old }
{
    match given {
        Some(given) => given == old,
        None => true,
    }
}

/// Whether a group that may be given is one of the caller's, or the old one, or isn't given.
fn is_own_group(who: &Credential, given: Option<u32>, old: u32) -> bool
    ensures { result ≡ is_own_group (credential_of who.now) given old }
{
    match given {
        Some(gid) => is_in_group(who, gid) || gid == old,
        None => true,
    }
}

/// Whether a mode, an owner, a group or a time of the client is given.
fn sets_owned(set: &SetAttributes) -> bool
    ensures { result ≡ sets_owned (set_of set.now) }
{
    set.mode.is_some()
        || set.uid.is_some()
        || set.gid.is_some()
        || is_client_time(set.atime)
        || is_client_time(set.mtime)
}

/// Whether the owner stays, and a group that is given is one of the caller's or stays.
fn keeps_owner(who: &Credential, set: &SetAttributes, owner: Ownership) -> bool
    ensures { result ≡ (is_kept set.now.uid owner.uid
        && is_own_group (credential_of who.now) set.now.gid owner.gid) }
{
    is_kept(set.uid, owner.uid) && is_own_group(who, set.gid, owner.gid)
}

/// What of a SETATTR is refused a caller: by PERM, where it isn't the owner, what only this one may
/// set, and an owner or a group that it may not give; by ACCES a size, or times of the server,
/// without w. Uid 0 may all.
pub fn set_refusal(who: &Credential, set: &SetAttributes, object: &Protection) -> Option<Status>
    ensures { option_map status_of result ≡ set_refusal (credential_of who.now)
        (set_of set.now) (protection_of object.now) }
{
    if who.uid == 0 {
        return None;
    }
    let is_owner = who.uid == object.owner.uid;
    if let Some(fault) = reserved(!sets_owned(set) || is_owner) {
        return Some(fault);
    }
    if let Some(fault) = reserved(keeps_owner(who, set, object.owner)) {
        return Some(fault);
    }
    needs(may_write(who, object))
}

/// A mode that a caller gives a file of a group: 02000 is for those of the group, and for uid 0.
pub(crate) fn mode_of_group(who: &Credential, gid: u32, mode: u32) -> u32
    ensures given { result ≡ mode_of_group (credential_of who.now) gid mode }
    ensures most { result ≤ mode }
{
    if who.uid == 0 || is_in_group(who, gid) {
        return mode;
    }
    without_bit(mode, SET_GID)
}

/// Whether what is set ends that a file is run as its owner: an owner, a group, and a size that
/// another than uid 0 gives.
fn ends_set_ids(who: &Credential, set: &SetAttributes) -> bool
    ensures { result ≡ (is_some set.now.uid || is_some set.now.gid
        || (is_some set.now.size && not (who.now.uid == 0))) }
{
    set.uid.is_some() || set.gid.is_some() || (set.size.is_some() && who.uid != 0)
}

/// The mode of what isn't a directory and is set without one.
fn mode_kept(who: &Credential, set: &SetAttributes, object: &Protection) -> Option<u32>
    ensures { result ≡ mode_kept (credential_of who.now) (set_of set.now)
        (protection_of object.now) }
{
    if ends_set_ids(who, set) {
        return Some(u32::from(without_set_ids(object.owner.mode)));
    }
    None
}

/// The mode of what isn't a directory and is set, by the group that it comes to have.
fn mode_taken(who: &Credential, set: &SetAttributes, object: &Protection) -> Option<u32>
    ensures { result ≡ mode_taken (credential_of who.now) (set_of set.now)
        (protection_of object.now) set.now.mode }
{
    match set.mode {
        Some(mode) => Some(mode_of_group(who, set.gid.unwrap_or(object.owner.gid), mode)),
        None => mode_kept(who, set, object),
    }
}

/// What a caller sets of what isn't a directory: where it is checked, with the mode that it may
/// give.
pub fn set_checked(caller: &Caller, set: &SetAttributes, object: &Protection) -> SetAttributes
    ensures { set_of result ≡ mode_checked (caller_of caller.now) (set_of set.now)
        (protection_of object.now) }
{
    if !caller.is_checked {
        return *set;
    }
    SetAttributes {
        mode: mode_taken(&caller.credential, set, object),
        ..*set
    }
}
