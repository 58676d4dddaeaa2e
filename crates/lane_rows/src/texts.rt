//! Records, as words of four bytes: calls and replies typed from RFC 5531, and from RFC 1813.

use std::process::Abort;

/// Words as bytes, the highest byte first.
pub(crate) fn bytes_of(rt: &(impl Abort + AllocGlobal), parts: &[&[u32]]) -> Vec<u8> {
    let mut bytes = Vec::new(rt.alloc());
    for words in parts {
        for word in *words {
            let added = bytes.extend_from_slice(&word.to_be_bytes());
            added.expect(rt, "no memory");
        }
    }
    bytes
}

/// A NULL call of NFS version 3, xid 1.
pub(crate) const NULL: [u32; 11] = [0x8000_0028, 1, 0, 2, 100_003, 3, 0, 0, 0, 0, 0];

/// Its reply.
pub(crate) const NULL_REPLY: [u32; 7] = [0x8000_0018, 1, 1, 0, 0, 0, 0];

/// A GETATTR call of the root, xid 2.
pub(crate) const GETATTR: [u32; 15] = [
    0x8000_0038,
    2,
    0,
    2,
    100_003,
    3,
    1,
    0,
    0,
    0,
    0,
    12,
    0,
    0,
    1,
];

/// The reply to the GETATTR: a directory of mode 0755 (octal) with two links, fileid 1, whose times
/// are zero.
pub(crate) const GETATTR_REPLY: [u32; 29] = [
    0x8000_0070,
    2,
    1,
    0,
    0,
    0,
    0,
    0,
    2,
    0o755,
    2,
    0,
    0,
    0,
    4_096,
    0,
    0,
    0,
    0,
    0,
    0,
    0,
    1,
    0,
    0,
    0,
    0,
    0,
    0,
];

/// An FSSTAT call of the root, xid 7.
pub(crate) const FSSTAT: [u32; 15] = [
    0x8000_0038,
    7,
    0,
    2,
    100_003,
    3,
    18,
    0,
    0,
    0,
    0,
    12,
    0,
    0,
    1,
];

/// The reply to the FSSTAT of a volume of one range (4 MiB) with no file: all bytes are free, and
/// all inodes but the root's.
pub(crate) const FSSTAT_REPLY: [u32; 43] = [
    0x8000_00a8,
    7,
    1,
    0,
    0,
    0,
    0,
    0,
    1,
    2,
    0o755,
    2,
    0,
    0,
    0,
    4_096,
    0,
    0,
    0,
    0,
    0,
    0,
    0,
    1,
    0,
    0,
    0,
    0,
    0,
    0,
    0,
    0x0040_0000,
    0,
    0x0040_0000,
    0,
    0x0040_0000,
    0,
    0x0001_0000,
    0,
    0xffff,
    0,
    0xffff,
    0,
];

/// A CREATE call in the root of volume 0, unchecked, which sets nothing, of a name of two letters.
pub(crate) fn create(xid: u32, name: u32) -> [u32; 24] {
    [
        0x8000_005c,
        xid,
        0,
        2,
        100_003,
        3,
        8,
        0,
        0,
        0,
        0,
        12,
        0,
        0,
        1,
        2,
        name,
        0,
        0,
        0,
        0,
        0,
        0,
        0,
    ]
}

/// A READ call of 4 KiB of the file 2 of volume 0.
pub(crate) fn read(xid: u32) -> [u32; 18] {
    [
        0x8000_0044,
        xid,
        0,
        2,
        100_003,
        3,
        6,
        0,
        0,
        0,
        0,
        12,
        0,
        0,
        2,
        0,
        0,
        4_096,
    ]
}

/// A GETATTR call of the root of volume 1.
pub(crate) fn getattr(xid: u32) -> [u32; 15] {
    [
        0x8000_0038,
        xid,
        0,
        2,
        100_003,
        3,
        1,
        0,
        0,
        0,
        0,
        12,
        1,
        0,
        1,
    ]
}
