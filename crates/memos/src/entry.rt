//! Handles and names, kept in place.

ghost use Rattle.std.specs.Prelude.{◌≡◌, ◌≤◌, ◌==◌, ◌&&◌, true, length};
ghost use Rattle.nfs_model.specs.Names.{same_name};
ghost use Rattle.nfs_model.specs.Serial.Once.{is_short};
ghost use Rattle.memos.specs.Kept.{name_kept};

use crate::same::is_same_list;
use nfs_values::{FileHandle, HANDLE_BYTES, Target};

/// The most bytes of a name that is kept.
const MOST_NAME: usize = 255;

/// A handle of 12 bytes, and a name of at most 255.
#[derive(Clone, Copy)]
pub(crate) struct Entry {
    handle: [u8; HANDLE_BYTES],
    size: u8,
    name: [u8; MOST_NAME],
}

impl Entry {
    /// What stands where none is kept.
    pub(crate) const EMPTY: Entry = Entry {
        handle: [0; HANDLE_BYTES],
        size: 0,
        name: [0; MOST_NAME],
    };

    /// Whether its handle is this one.
    pub(crate) fn has_handle(&self, handle: &FileHandle) -> bool
        ensures { result ≡ (length handle.now == 12) && same_name self.now.handle handle.now }
    {
        let mut space = [0; HANDLE_BYTES];
        let bytes = handle.bytes_in(&mut space);
        bytes.len() == HANDLE_BYTES && is_same_list(&self.handle, bytes)
    }

    /// Whether its name is this one.
    pub(crate) fn has_name(&self, name: &[u8]) -> bool
        ensures { result ≡ same_name (name_kept self.now) name.now }
    {
        is_same_list(&self.name[..usize::from(self.size)], name)
    }

    /// Whether it is of this handle and name.
    pub(crate) fn is_of(&self, target: &Target) -> bool
        ensures { result ≡ is_short target.now.directory target.now.name
            && (same_name self.now.handle target.now.directory
            && same_name (name_kept self.now) target.now.name) }
    {
        let name = target.name.as_bytes();
        name.len() <= MOST_NAME && self.has_handle(&target.directory) && self.has_name(name)
    }

    /// Keeps a handle; the name stays.
    pub(crate) fn put_handle(&mut self, handle: &FileHandle)
        requires { length handle.now ≡ 12 }
        ensures { self.new.handle ≡ handle.now }
    {
        let mut space = [0; HANDLE_BYTES];
        self.handle.copy_from_slice(handle.bytes_in(&mut space));
    }

    /// Keeps a name; the handle stays.
    fn put_name(&mut self, name: &[u8])
        requires { length name.now ≤ 255 }
        ensures name { name_kept self.new ≡ name.now }
        ensures handle { self.new.handle ≡ self.old.handle }
    {
        self.name[..name.len()].copy_from_slice(name);
        self.size = name.len() as u8;
    }

    /// Keeps a handle and a name.
    pub(crate) fn put(&mut self, target: &Target)
        requires { is_short target.now.directory target.now.name ≡ true }
        ensures handle { self.new.handle ≡ target.now.directory }
        ensures name { name_kept self.new ≡ target.now.name }
    {
        self.put_handle(&target.directory);
        self.put_name(target.name.as_bytes());
    }
}

/// Whether a handle names something.
pub(crate) fn is_whole(handle: &FileHandle) -> bool
    ensures { result ≡ (length handle.now == 12) }
{
    let mut space = [0; HANDLE_BYTES];
    handle.bytes_in(&mut space).len() == HANDLE_BYTES
}

/// Whether a call on this handle and name may succeed.
pub(crate) fn is_short(target: &Target) -> bool
    ensures { result ≡ is_short target.now.directory target.now.name }
{
    is_whole(&target.directory) && target.name.as_bytes().len() <= MOST_NAME
}
