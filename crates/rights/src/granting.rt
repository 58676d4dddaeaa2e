//! What calls need.

ghost use Rattle.std.specs.Prelude.{◌≡◌};
ghost use Rattle.nfs_model.specs.Serial.Rights.{
  is_owner_or_root,
  may_change,
  may_drop,
  may_list,
  may_read,
  may_search,
  may_write,
};
ghost use Rattle.nfs_values.specs.Credential.{credential_of};
ghost use Rattle.rights.specs.Protection.{protection_of};

use crate::mode::rights_of;
use crate::protection::Protection;
use nfs_values::Credential;

/// Whether a caller is the owner, or uid 0.
pub fn is_owner_or_root(who: &Credential, object: &Protection) -> bool
    ensures { result ≡ is_owner_or_root (credential_of who.now) (protection_of object.now) }
{
    who.uid == 0 || who.uid == object.owner.uid
}

/// Whether a caller may read the bytes of a file: by r, or by x, since a program that is run is
/// read; the owner reads what it opened before the mode changed (RFC 1813 section 4.4).
pub fn may_read(who: &Credential, file: &Protection) -> bool
    ensures { result ≡ may_read (credential_of who.now) (protection_of file.now) }
{
    let rights = rights_of(who, file);
    is_owner_or_root(who, file) || rights.reads || rights.executes
}

/// Whether a caller may write the bytes of a file: by w; the owner writes what it opened.
pub fn may_write(who: &Credential, file: &Protection) -> bool
    ensures { result ≡ may_write (credential_of who.now) (protection_of file.now) }
{
    let rights = rights_of(who, file);
    is_owner_or_root(who, file) || rights.writes
}

/// Whether a caller may look for a name of a directory: by x.
pub fn may_search(who: &Credential, directory: &Protection) -> bool
    ensures { result ≡ may_search (credential_of who.now) (protection_of directory.now) }
{
    rights_of(who, directory).executes
}

/// Whether a caller may list the names of a directory: by r.
pub fn may_list(who: &Credential, directory: &Protection) -> bool
    ensures { result ≡ may_list (credential_of who.now) (protection_of directory.now) }
{
    rights_of(who, directory).reads
}

/// Whether a caller may change the names of a directory: by w and x.
pub fn may_change(who: &Credential, directory: &Protection) -> bool
    ensures { result ≡ may_change (credential_of who.now) (protection_of directory.now) }
{
    let rights = rights_of(who, directory);
    rights.writes && rights.executes
}

/// Whether a name may go from a directory that its caller may change: from a sticky one only for
/// the owner of the directory, or of what is named.
pub fn may_drop(who: &Credential, directory: &Protection, object: &Protection) -> bool
    ensures { result ≡ may_drop (credential_of who.now) (protection_of directory.now)
        (protection_of object.now) }
{
    !directory.is_sticky() || is_owner_or_root(who, directory) || is_owner_or_root(who, object)
}
