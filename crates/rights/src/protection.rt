//! Objects, as far as it is asked who may do what with them.

ghost use Rattle.std.specs.Prelude.{◌≡◌};
ghost use Rattle.nfs_model.specs.Serial.Rights.{gives_group, is_sticky, owned};
ghost use Rattle.nfs_model.specs.Types.{DirectoryKind, Regular};
ghost use Rattle.nfs_values.specs.Ownership.{ownership_of};
ghost use Rattle.rights.specs.Protection.{protection_of};

use crate::bits::{SET_GID, STICKY, has_bit};
use nfs_values::{FileKind, Ownership};

/// Of an object, what says who may do what with it (fattr3, RFC 1813 section 2.6).
#[derive(Clone, Copy)]
pub struct Protection {
    pub kind: FileKind,
    pub owner: Ownership,
}

impl Protection {
    /// Of a file.
    pub fn of_file(owner: Ownership) -> Protection
        ensures { protection_of result ≡ owned Regular (ownership_of owner) }
    {
        Protection {
            kind: FileKind::Regular,
            owner,
        }
    }

    /// Of a directory.
    pub fn of_directory(owner: Ownership) -> Protection
        ensures { protection_of result ≡ owned DirectoryKind (ownership_of owner) }
    {
        Protection {
            kind: FileKind::Directory,
            owner,
        }
    }

    /// The mode.
    pub(crate) fn mode(&self) -> u32
        ensures { result ≡ self.now.owner.mode }
    {
        u32::from(self.owner.mode)
    }

    /// Whether only owners remove from this directory (S_ISVTX).
    pub(crate) fn is_sticky(&self) -> bool
        ensures { result ≡ is_sticky (protection_of self.now) }
    {
        has_bit(self.mode(), STICKY)
    }

    /// Whether what is made in this directory has its group (S_ISGID).
    pub(crate) fn gives_group(&self) -> bool
        ensures { result ≡ gives_group (protection_of self.now) }
    {
        has_bit(self.mode(), SET_GID)
    }
}
