//! Pages of a directory.

use nfs_values::answer::DirectoryEntry;

/// Entries that follow one another in a directory (RFC 1813 section 3.3.16).
#[derive(Drop)]
pub struct Page {
    /// In the order of their cookies.
    pub entries: Vec<DirectoryEntry>,
    /// Whether no entry remains after these.
    pub is_last: bool,
}
