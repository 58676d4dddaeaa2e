//! Records, as words of four bytes: calls and replies typed from RFC 5531, and from RFC 1813.

/// A NULL call of NFS version 3, xid 1.
pub(crate) const NULL: [u32; 11] = [0x8000_0028, 1, 0, 2, 100_003, 3, 0, 0, 0, 0, 0];

/// The same in fragments of 8 and 32 bytes.
pub(crate) const NULL_IN_TWO: [u32; 12] = [8, 1, 0, 0x8000_0020, 2, 100_003, 3, 0, 0, 0, 0, 0];

/// Its reply.
pub(crate) const NULL_REPLY: [u32; 7] = [0x8000_0018, 1, 1, 0, 0, 0, 0];

/// A GETATTR call of the root, xid 2.
pub(crate) const GETATTR: [u32; 15] = [
    0x8000_0038,
    2,
    0,
    2,
    100_003,
    3,
    1,
    0,
    0,
    0,
    0,
    12,
    0,
    0,
    1,
];

/// A GETATTR call of a volume that isn't there, xid 3.
pub(crate) const GETATTR_ASTRAY: [u32; 15] = [
    0x8000_0038,
    3,
    0,
    2,
    100_003,
    3,
    1,
    0,
    0,
    0,
    0,
    12,
    9,
    0,
    1,
];

/// Its reply, NFS3ERR_BADHANDLE.
pub(crate) const BADHANDLE_REPLY: [u32; 8] = [0x8000_001c, 3, 1, 0, 0, 0, 0, 10_001];

/// A call of a program that isn't there, xid 4.
pub(crate) const NO_PROGRAM: [u32; 11] = [0x8000_0028, 4, 0, 2, 100_005, 3, 0, 0, 0, 0, 0];

/// Its reply, PROG_UNAVAIL.
pub(crate) const NO_PROGRAM_REPLY: [u32; 7] = [0x8000_0018, 4, 1, 0, 0, 0, 1];

/// A STOP call of the admin program, xid 5.
pub(crate) const STOP: [u32; 11] = [0x8000_0028, 5, 0, 2, 0x2000_0001, 1, 3, 0, 0, 0, 0];

/// Its reply.
pub(crate) const STOP_REPLY: [u32; 7] = [0x8000_0018, 5, 1, 0, 0, 0, 0];

/// The reply that refuses it, AUTH_ERROR with AUTH_TOOWEAK.
pub(crate) const TOO_WEAK_REPLY: [u32; 6] = [0x8000_0014, 5, 1, 1, 1, 5];

/// The reply of a server that doesn't offer it, PROC_UNAVAIL.
pub(crate) const NO_STOP_REPLY: [u32; 7] = [0x8000_0018, 5, 1, 0, 0, 0, 3];

/// A header that brings a record above the limit.
pub(crate) const TOO_LONG: [u32; 1] = [0x8002_0001];

/// A record that ends within the head of a call.
pub(crate) const SHORT: [u32; 3] = [0x8000_0008, 5, 0];

/// A record that is no call.
pub(crate) const NO_CALL: [u32; 3] = [0x8000_0008, 6, 1];

/// `NULL` in fragments of 0, 17, 23 and 0 bytes.
const NULL_IN_FOUR: [u32; 14] = [
    0,
    0x11,
    1,
    0,
    2,
    100_003,
    0,
    0x1700_0003,
    0,
    0,
    0,
    0,
    0,
    0x8000_0000,
];

/// RPC version 3, and nothing behind it.
const RPC_VERSION_3: [u32; 4] = [0x8000_000c, 3, 0, 3];

/// Its reply, RPC_MISMATCH.
const RPC_VERSION_3_REPLY: [u32; 7] = [0x8000_0018, 3, 1, 1, 0, 2, 2];

/// Version 2 of NFS.
const NFS_VERSION_2: [u32; 11] = [0x8000_0028, 5, 0, 2, 100_003, 2, 0, 0, 0, 0, 0];

/// Its reply, PROG_MISMATCH.
const NFS_VERSION_2_REPLY: [u32; 9] = [0x8000_0020, 5, 1, 0, 0, 0, 2, 3, 3];

/// A procedure that isn't there.
const NO_PROCEDURE: [u32; 11] = [0x8000_0028, 5, 0, 2, 100_003, 3, 99, 0, 0, 0, 0];

/// Its reply, PROC_UNAVAIL.
const NO_PROCEDURE_REPLY: [u32; 7] = [0x8000_0018, 5, 1, 0, 0, 0, 3];

/// A LOOKUP whose name has padding that isn't zero.
const LOOKUP_BAD_PADDING: [u32; 17] = [
    0x8000_0040,
    6,
    0,
    2,
    100_003,
    3,
    3,
    0,
    0,
    0,
    0,
    12,
    0,
    0,
    1,
    3,
    0x6162_6301,
];

/// A LOOKUP with a word behind its name.
const LOOKUP_AND_MORE: [u32; 18] = [
    0x8000_0044,
    6,
    0,
    2,
    100_003,
    3,
    3,
    0,
    0,
    0,
    0,
    12,
    0,
    0,
    1,
    3,
    0x6162_6300,
    0,
];

/// The reply to both, GARBAGE_ARGS.
const GARBAGE_REPLY: [u32; 7] = [0x8000_0018, 6, 1, 0, 0, 0, 4];

/// A stream of records that are whole and cut, served and refused: 448 bytes.
pub(crate) const JOINED: [&[u32]; 9] = [
    &NULL,
    &NULL_IN_FOUR,
    &GETATTR,
    &RPC_VERSION_3,
    &NFS_VERSION_2,
    &NO_PROCEDURE,
    &NO_PROGRAM,
    &LOOKUP_BAD_PADDING,
    &LOOKUP_AND_MORE,
];

/// Where its records end.
pub(crate) const JOINED_ENDS: [usize; 9] = [44, 100, 160, 176, 220, 264, 308, 376, 448];

/// The replies to all of them but GETATTR, which waits: 232 bytes.
pub(crate) const JOINED_REPLIES: [&[u32]; 8] = [
    &NULL_REPLY,
    &NULL_REPLY,
    &RPC_VERSION_3_REPLY,
    &NFS_VERSION_2_REPLY,
    &NO_PROCEDURE_REPLY,
    &NO_PROGRAM_REPLY,
    &GARBAGE_REPLY,
    &GARBAGE_REPLY,
];
