//! Numbers that several crates go by.

/// The bytes of a block.
pub const BLOCK_BYTES: u64 = 4_096;

/// The bytes of a span.
pub const SPAN_BYTES: u64 = 262_144;

/// The blocks of a span, which lie in one stripe.
pub const SPAN_BLOCKS: u64 = 64;

/// The bytes of a handle that names something.
pub const HANDLE_BYTES: usize = 12;

/// Larger counts of READ, WRITE, READDIR and READDIRPLUS are taken as this.
pub const COUNT_LIMIT: u32 = 65_536;

/// The most names of what isn't a directory.
pub const MOST_LINKS: u32 = 65_000;

/// The most bytes of the text of a symbolic link.
pub const MOST_TEXT: usize = 1_024;

/// The nanoseconds of a second: those of a moment are fewer (RFC 1813 section 2.6).
pub const NANOSECONDS_OF_A_SECOND: u32 = 1_000_000_000;

/// The nanoseconds of a millisecond.
pub const NANOSECONDS_OF_A_MILLISECOND: u32 = 1_000_000;

/// The milliseconds of a second.
pub const MILLISECONDS_OF_A_SECOND: u64 = 1_000;
