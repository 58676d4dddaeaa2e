//! Who owns a file, as it is stored.

/// An owner in 10 bytes. Numbers are little-endian.
#[derive(Clone, Copy)]
pub struct PackedOwner {
    pub mode: [u8; 2],
    pub uid: [u8; 4],
    pub gid: [u8; 4],
}
