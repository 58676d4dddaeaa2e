//! File handles.

ghost use Rattle.std.specs.Prelude.{◌≡◌, ◌≤◌, List, ℕ, Some, length, option_map};
ghost use Rattle.nfs_model.specs.Server.{handle_bytes};
ghost use Rattle.nfs_values.specs.Handle.{bytes_naming, named_in, named_of};

use crate::limits::HANDLE_BYTES;
use crate::number::{Fileid, VolumeNumber};
use crate::opaque_bytes::OpaqueBytes;
use byteorder::{BigEndian, ByteOrder};
use std::marker::Model;

/// What a good handle names: a file or directory, which may be gone (our profile).
#[derive(Clone, Copy)]
pub struct Named {
    pub volume: VolumeNumber,
    pub fileid: Fileid,
}

/// How a handle is kept.
#[derive(Drop)]
enum Form {
    /// What its 12 bytes name.
    Naming(Named),
    /// Its bytes, where they are more or fewer.
    Other(OpaqueBytes),
}

/// A file handle (nfs_fh3, RFC 1813 section 2.6): at most 64 bytes, kept in place. What it names
/// is read from its bytes once, as it is made.
pub struct FileHandle(Form);

// By hand, so that crates above have no proof of the drop of each of its parts.
impl Drop for FileHandle {
    fn drop(self) {
        let FileHandle(_) = self;
    }
}

impl Model for FileHandle {
    ghost use Rattle.std.specs.Prelude.{List, ℕ};
    ghost use Rattle.nfs_values.specs.Handle.{form_bytes, IsForm};

    ghost Value = { List ℕ };

    ghost view = { λ h. form_bytes h.0 };

    ghost invariant = { λ h. IsForm h.0 };
}

/// What 12 bytes name: 4 of volume and 8 of fileid (our profile).
fn read_named(bytes: &[u8]) -> Named
    requires { length bytes.now ≡ 12 }
    ensures { bytes_naming result ≡ bytes.now }
{
    Named {
        volume: VolumeNumber(BigEndian::read_u32(&bytes[..4])),
        fileid: Fileid(BigEndian::read_u64(&bytes[4..])),
    }
}

/// What the handle of a volume and a fileid names.
fn named_by_numbers(volume: u32, fileid: u64) -> Named
    ensures { Some (named_of result) ≡ named_in (handle_bytes volume fileid) }
{
    Named {
        volume: VolumeNumber(volume),
        fileid: Fileid(fileid),
    }
}

impl FileHandle {
    /// A handle of these bytes.
    pub fn new(bytes: &[u8]) -> FileHandle
        requires { length bytes.now ≤ 64 }
        ensures { result ≡ bytes.now }
    {
        if bytes.len() == HANDLE_BYTES {
            FileHandle(Form::Naming(read_named(bytes)))
        } else {
            FileHandle(Form::Other(OpaqueBytes::new(bytes)))
        }
    }

    /// The handle that names a file or directory.
    pub fn naming(named: Named) -> FileHandle
        ensures { result ≡ handle_bytes named.volume.0 named.fileid.0 }
    {
        FileHandle(Form::Naming(named))
    }

    /// What 12 bytes name, by a volume that may not be there; nothing where they aren't 12.
    pub fn named(&self) -> Option<Named>
        ensures { option_map named_of result ≡ named_in self.now }
    {
        match &self.0 {
            Form::Naming(named) => Some(named_by_numbers(named.volume.0, named.fileid.0)),
            Form::Other(_) => None,
        }
    }

    /// The bytes of a handle, for which this space is lent.
    pub fn bytes_in<'a>(&'a self, space: &'a mut [u8; HANDLE_BYTES]) -> &'a [u8]
        ensures value { result.now ≡ self.now }
        ensures most { length result.now ≤ 64 }
    {
        match &self.0 {
            Form::Naming(named) => {
                space[..4].copy_from_slice(&named.volume.0.to_be_bytes());
                space[4..].copy_from_slice(&named.fileid.0.to_be_bytes());
                space
            }
            Form::Other(bytes) => bytes.as_bytes(),
        }
    }
}

/// What makes one handle of another.
pub trait HandleMap {
    // The bytes that it makes of those of a handle.
    ghost made: { Self → List ℕ → List ℕ };

    /// The handle that it makes of one.
    fn made_of(&self, handle: &FileHandle) -> FileHandle
        ensures { result ≡ made self.now handle.now };
}
