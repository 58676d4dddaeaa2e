//! Which calls are refused (RFC 1813 section 2.5: ACCES, PERM and ROFS).

ghost use Rattle.std.specs.Prelude.{◌≡◌, ◌==◌, ◌||◌, false, not, Option};
ghost use Rattle.std.specs.Option.{option_map};
ghost use Rattle.nfs_model.specs.Serial.Permission.{
  is_device,
  needs,
  refusal_of,
  reserved,
  write_refusal,
};
ghost use Rattle.nfs_model.specs.Serial.Rights.{may_read, owned};
ghost use Rattle.nfs_model.specs.Types as types;
ghost use Rattle.nfs_model.specs.Types.{Regular};
ghost use Rattle.nfs_values.specs.Attributes.{kind_of};
ghost use Rattle.nfs_values.specs.Caller.{caller_of};
ghost use Rattle.nfs_values.specs.Credential.{credential_of};
ghost use Rattle.nfs_values.specs.Ownership.{ownership_of};
ghost use Rattle.nfs_values.specs.Status.{status_of};
ghost use Rattle.rights.specs.Refusing.{asked_next, set_ids_cleared};

use crate::bits::without_set_ids;
use crate::granting::{may_read, may_write};
use crate::protection::Protection;
use nfs_values::{Caller, Credential, FileKind, Ownership, SpecialType, Status};

/// ACCES where a right is missing.
pub fn needs(is_given: bool) -> Option<Status>
    ensures { option_map status_of result ≡ needs is_given }
{
    if is_given {
        return None;
    }
    Some(Status::Access)
}

/// PERM where something is for the owner, or for uid 0.
pub(crate) fn reserved(is_given: bool) -> Option<Status>
    ensures { option_map status_of result ≡ reserved is_given }
{
    if is_given {
        return None;
    }
    Some(Status::NotPermitted)
}

/// Whether a kind is that of a device.
fn is_device(kind: FileKind) -> bool
    ensures { result ≡ is_device (kind_of kind) }
{
    match kind {
        FileKind::Special(SpecialType::BlockDevice(_)) => true,
        FileKind::Special(SpecialType::CharacterDevice(_)) => true,
        _ => false,
    }
}

/// PERM where another than uid 0 makes a device (MKNOD, RFC 1813 section 3.3.11).
pub fn device_fault(who: &Credential, kind: FileKind) -> Option<Status>
    ensures { option_map status_of result
        ≡ reserved (not (is_device (kind_of kind)) || (who.now.uid == 0)) }
{
    reserved(!is_device(kind) || who.uid == 0)
}

/// What is asked of a caller before its rights: ROFS where it may change nothing and the call is a
/// change, and nothing more where callers aren't checked; `Ok` where its rights decide.
pub fn asked_first(caller: &Caller, changes: bool) -> Result<(), Option<Status>>
    ensures { (rights : Option types.Status) → refusal_of (caller_of caller.now) changes rights
        ≡ asked_next result rights }
{
    if caller.reads_only && changes {
        return Err(Some(Status::ReadOnly));
    }
    if caller.is_checked { Ok(()) } else { Err(None) }
}

/// A refusal of a call, where these are the rights that it lacks.
pub fn refusal_of(caller: &Caller, changes: bool, rights: Option<Status>) -> Option<Status>
    ensures { option_map status_of result
        ≡ refusal_of (caller_of caller.now) changes (option_map status_of rights) }
{
    if caller.reads_only && changes {
        return Some(Status::ReadOnly);
    }
    if caller.is_checked { rights } else { None }
}

/// A refusal of a READ of a file (RFC 1813 section 3.3.6).
pub fn read_refusal(caller: &Caller, owner: Ownership) -> Option<Status>
    ensures { option_map status_of result ≡ refusal_of (caller_of caller.now) false
        (needs (may_read (credential_of caller.now.credential)
        (owned Regular (ownership_of owner)))) }
{
    let file = Protection::of_file(owner);
    refusal_of(caller, false, needs(may_read(&caller.credential, &file)))
}

/// A refusal of a WRITE to a file (RFC 1813 section 3.3.7).
pub fn write_refusal(caller: &Caller, owner: Ownership) -> Option<Status>
    ensures { option_map status_of result ≡ write_refusal (caller_of caller.now)
        (owned Regular (ownership_of owner)) }
{
    let file = Protection::of_file(owner);
    refusal_of(caller, true, needs(may_write(&caller.credential, &file)))
}

/// Whether a caller's WRITE to a file ends that it is run as its owner or its group.
pub fn clears_set_ids(caller: &Caller, owner: Ownership) -> bool
    ensures { result ≡ set_ids_cleared (caller_of caller.now) owner.mode }
{
    let is_ordinary = caller.is_checked && caller.credential.uid != 0;
    is_ordinary && without_set_ids(owner.mode) != owner.mode
}
