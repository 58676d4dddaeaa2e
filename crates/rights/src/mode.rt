//! What the mode of an object gives a caller.

ghost use Rattle.std.specs.Prelude.{◌≡◌};
ghost use Rattle.nfs_model.specs.Serial.Rights.{
  digit_for,
  digit_rights,
  has_x,
  is_executable,
  is_in_group,
  mode_of_group,
  rights_of,
};
ghost use Rattle.nfs_values.specs.Attributes.{kind_of};
ghost use Rattle.nfs_values.specs.Credential.{credential_of};
ghost use Rattle.rights.specs.Protection.{protection_of, rights_value};

use crate::bits::has_bit;
use crate::protection::Protection;
use nfs_values::{Credential, FileKind};

/// What somebody may do with an object: r, w and x.
#[derive(Clone, Copy)]
pub struct Rights {
    pub reads: bool,
    pub writes: bool,
    pub executes: bool,
}

/// The rights of an octal digit of a mode (mode3, RFC 1813 section 2.6).
fn digit_rights(digit: u32) -> Rights
    ensures { rights_value result ≡ digit_rights digit }
{
    Rights {
        reads: has_bit(digit, 4),
        writes: has_bit(digit, 2),
        executes: has_bit(digit, 1),
    }
}

/// Whether a group is the caller's, or one of the further ones.
pub(crate) fn is_in_group(who: &Credential, gid: u32) -> bool
    ensures { result ≡ is_in_group (credential_of who.now) gid }
{
    if who.gid == gid {
        return true;
    }
    who.gids.has(gid)
}

/// The digit of a mode that holds for the caller: the owner's, the group's or the others'.
fn digit_for(who: &Credential, object: &Protection) -> u32
    ensures { result ≡ digit_for (credential_of who.now) (protection_of object.now) }
{
    if who.uid == object.owner.uid {
        return object.mode() / 64 % 8;
    }
    if is_in_group(who, object.owner.gid) {
        return object.mode() / 8 % 8;
    }
    object.mode() % 8
}

/// Whether somebody has x by a mode.
fn has_x(mode: u32) -> bool
    ensures { result ≡ has_x mode }
{
    has_bit(mode, 64) || has_bit(mode, 8) || has_bit(mode, 1)
}

/// Whether uid 0 may execute an object: every directory, and all else where somebody may.
fn is_executable(kind: FileKind, mode: u32) -> bool
    ensures { result ≡ is_executable (kind_of kind) mode }
{
    match kind {
        FileKind::Regular => has_x(mode),
        FileKind::Directory => true,
        FileKind::Special(_) => has_x(mode),
    }
}

/// The rights of a caller; uid 0 may do all but execute what nobody may.
pub fn rights_of(who: &Credential, object: &Protection) -> Rights
    ensures { rights_value result
        ≡ rights_of (credential_of who.now) (protection_of object.now) }
{
    if who.uid != 0 {
        return digit_rights(digit_for(who, object));
    }
    Rights {
        reads: true,
        writes: true,
        executes: is_executable(object.kind, object.mode()),
    }
}
