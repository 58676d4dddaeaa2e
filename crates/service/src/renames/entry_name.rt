//! Names of directories.

use nfs_values::Fileid;

/// A name in a directory, whether it is there or not (diropargs3, RFC 1813 section 2.6).
#[derive(Clone, Copy)]
pub struct EntryName<'a> {
    pub directory: Fileid,
    pub name: &'a [u8],
}
