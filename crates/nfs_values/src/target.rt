//! Names in directories.

use crate::handle::FileHandle;
use crate::name::Name;

/// A name in a directory (diropargs3, RFC 1813 section 2.6).
pub struct Target {
    pub directory: FileHandle,
    pub name: Name,
}

// By hand, so that crates above have no proof of the drop of each of its parts.
impl Drop for Target {
    fn drop(self) {
        let Target {
            directory: _,
            name: _,
        } = self;
    }
}
