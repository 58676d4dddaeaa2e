//! Attributes of objects.

ghost use Rattle.std.specs.Prelude.{◌≡◌};

use crate::moment::Moment;
use crate::number::Fileid;
use crate::special::{Device, SpecialType};

/// What a node is (ftype3, RFC 1813 section 2.6).
#[derive(Clone, Copy, Debug, PartialEq, Eq)]
pub enum FileKind {
    Regular,
    Directory,
    Special(SpecialType),
}

impl FileKind {
    ghost use Rattle.nfs_values.specs.Attributes.{kind_of, kind_word, kind_device};
    ghost use Rattle.nfs_values.specs.Special.{device_of};

    /// The number of a kind.
    pub fn word(self) -> u32
        ensures { result ≡ kind_word (kind_of self) }
    {
        match self {
            FileKind::Regular => 1,
            FileKind::Directory => 2,
            FileKind::Special(special) => special.word(),
        }
    }

    /// The numbers of a device, zero for all else (rdev of fattr3, RFC 1813 section 2.6).
    pub fn device(self) -> Device
        ensures { device_of result ≡ kind_device (kind_of self) }
    {
        match self {
            FileKind::Regular => Device::NONE,
            FileKind::Directory => Device::NONE,
            FileKind::Special(special) => special.device(),
        }
    }
}

/// Attributes as replies show them (fattr3, RFC 1813 section 2.6); sizes are in bytes.
#[derive(Clone, Copy, Debug, PartialEq, Eq)]
pub struct Attributes {
    pub kind: FileKind,
    pub mode: u32,
    pub links: u32,
    pub uid: u32,
    pub gid: u32,
    pub size: u64,
    pub used: u64,
    pub fsid: u64,
    pub fileid: Fileid,
    pub atime: Moment,
    pub mtime: Moment,
    pub ctime: Moment,
}

/// Attributes before a call (wcc_attr, RFC 1813 section 2.6).
#[derive(Clone, Copy, Debug, PartialEq, Eq)]
pub struct PriorAttributes {
    pub size: u64,
    pub mtime: Moment,
    pub ctime: Moment,
}

/// Attributes before and after a call (wcc_data with both, RFC 1813 section 2.6).
#[derive(Clone, Copy, Debug, PartialEq, Eq)]
pub struct Change {
    pub before: PriorAttributes,
    pub after: Attributes,
}
