//! The largest numbers that a command line may name.

/// The most volumes of a server.
pub(crate) const MOST_VOLUMES: i64 = affinity::MOST_VOLUMES as i64;

/// The most workers of a server.
pub(crate) const MOST_WORKERS: i64 = server_options::MOST_WORKERS as i64;

/// The most workers of `export` where no number is named.
pub(crate) const USUAL_WORKERS: usize = 4;

/// The most ranges of a volume.
pub(crate) const MOST_RANGES: i64 = affinity::MOST_RANGES as i64;

/// The fewest inodes that a volume may have.
pub(crate) const FEWEST_INODES: i64 = affinity::INODES as i64;

/// The most inodes that a volume may have.
pub(crate) const MOST_INODES: i64 = affinity::MOST_INODES as i64;

/// The most replies that a volume may remember.
pub(crate) const MOST_REPLIES: i64 = server_options::MOST_REPLIES as i64;

/// The most connections after which a server ends.
pub(crate) const MOST_CONNECTIONS: i64 = 1_000_000;

/// The most seconds after which a connection may be taken for idle.
pub(crate) const MOST_IDLE: i64 = server_options::MOST_IDLE_SECONDS as i64;

/// The most minutes between two lines of statistics.
pub(crate) const MOST_MINUTES: i64 = server_options::MOST_MINUTES as i64;
