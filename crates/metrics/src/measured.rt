//! What was measured, as plain values.

use statistics::Totals;

/// What a volume has, and how much of it is in use.
#[derive(Clone, Copy, PartialEq, Eq, Debug)]
pub struct VolumeUse {
    pub volume: u32,
    /// Blocks, and those in files.
    pub blocks: u64,
    pub used_blocks: u64,
    /// Files and directories that it may have, and that it has.
    pub inodes: u64,
    pub used_inodes: u64,
}

/// What a server measured since it began.
#[derive(Clone, Copy)]
pub struct Measured<'a> {
    pub totals: &'a Totals,
    /// The microseconds of all timed calls together.
    pub micros: u64,
    /// Connections that are open, that were accepted, and that found no place.
    pub open: u64,
    pub accepted: u64,
    pub turned_away: u64,
    /// Bytes that sockets gave and took.
    pub received: u64,
    pub sent: u64,
    /// What the volumes have, as far as that can be told.
    pub volumes: &'a [VolumeUse],
}
