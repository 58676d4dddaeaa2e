//! Who owns an object.

/// Of an object: its mode, its owner and its group (fattr3, RFC 1813 section 2.6).
#[derive(Clone, Copy, Debug, PartialEq, Eq)]
pub struct Ownership {
    /// Twelve bits.
    pub mode: u16,
    pub uid: u32,
    pub gid: u32,
}

impl Ownership {
    /// Of a root that is uid 0's: mode 0755 (octal).
    pub const ROOT: Ownership = Ownership {
        mode: 0o755,
        uid: 0,
        gid: 0,
    };
}
