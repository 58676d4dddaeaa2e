//! What a caller is refused on a name, by the protections of a directory and of what is named in
//! it.

ghost use Rattle.std.specs.Prelude.{◌≡◌, Some};
ghost use Rattle.std.specs.Option.{option_map};
ghost use Rattle.nfs_model.specs.Types.{Regular};
ghost use Rattle.nfs_values.specs.Credential.{credential_of};
ghost use Rattle.nfs_values.specs.Set.{mode_of};
ghost use Rattle.nfs_values.specs.Status.{status_of};
ghost use Rattle.rights.specs.Protection.{protection_of};
ghost use Rattle.filer_state.specs.permissions.Refusing.{gone_asked, moved_kind, over_kind};
ghost use Rattle.service_names.specs.Refusing.{asks_over, is_free, is_settled};

use nfs_values::{CreateMode, Credential, FileKind, Status};
use rights::{Protection, may_change, may_drop, may_write, needs, rights_of};

/// Whether a caller may take any name from a directory: one that it may change and that isn't
/// sticky, or is its own.
pub(crate) fn is_free(who: &Credential, directory: &Protection) -> bool
    ensures { result ≡ is_free (credential_of who.now) (protection_of directory.now) }
{
    may_change(who, directory) && may_drop(who, directory, directory)
}

/// Whether a caller may move any name, where it stays in its directory or is uid 0's: else a
/// directory that moves has to be writable.
pub(crate) fn is_settled(
    who: &Credential,
    stays: bool,
    source: &Protection,
    target: &Protection,
) -> bool
    ensures { result ≡ is_settled (credential_of who.now) stays (protection_of source.now)
        (protection_of target.now) }
{
    is_free(who, source) && is_free(who, target) && (stays || who.uid == 0)
}

/// Whether a CREATE asks for a right of a file that may be there: an unchecked one with a size, of
/// another than uid 0.
pub(crate) fn asks_over(who: &Credential, mode: &CreateMode) -> bool
    ensures { result ≡ asks_over (credential_of who.now) (mode_of mode.now) }
{
    match mode {
        CreateMode::Unchecked(set) => set.size.is_some() && who.uid != 0,
        CreateMode::Guarded(_) => false,
        CreateMode::Exclusive(_) => false,
    }
}

/// What of a CREATE is refused where its name is there: a size, without w of the file.
pub(crate) fn over_fault(who: &Credential, mode: &CreateMode, object: &Protection) -> Option<Status>
    ensures { option_map status_of result ≡ over_kind (credential_of who.now) (mode_of mode.now)
        (protection_of object.now) (protection_of object.now).kind }
{
    match object.kind {
        FileKind::Directory => None,
        FileKind::Special(_) => None,
        FileKind::Regular => size_fault(who, mode, object),
    }
}

/// What of a CREATE is refused where its name is that of a file.
fn size_fault(who: &Credential, mode: &CreateMode, file: &Protection) -> Option<Status>
    ensures { option_map status_of result ≡ over_kind (credential_of who.now) (mode_of mode.now)
        (protection_of file.now) Regular }
{
    match mode {
        CreateMode::Unchecked(set) => {
            let may = set.size.is_none() || may_write(who, file);
            needs(may)
        }
        CreateMode::Guarded(_) => None,
        CreateMode::Exclusive(_) => None,
    }
}

/// What is refused where a name of a directory goes.
pub(crate) fn gone_fault(
    who: &Credential,
    directory: &Protection,
    object: &Protection,
) -> Option<Status>
    ensures { option_map status_of result ≡ gone_asked (credential_of who.now)
        (protection_of directory.now) (Some (protection_of object.now)) }
{
    if !may_change(who, directory) {
        return Some(Status::Access);
    }
    needs(may_drop(who, directory, object))
}

/// What is refused where a node comes into a directory, another one or the same: a directory that
/// comes into another needs w, since its `..` changes.
pub(crate) fn moved_fault(who: &Credential, stays: bool, object: &Protection) -> Option<Status>
    ensures { option_map status_of result ≡ moved_kind (credential_of who.now) stays
        (protection_of object.now) (protection_of object.now).kind }
{
    match object.kind {
        FileKind::Regular => None,
        FileKind::Special(_) => None,
        FileKind::Directory => needs(stays || rights_of(who, object).writes),
    }
}
