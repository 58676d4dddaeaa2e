//! Numbers that name things, each of a type of its own.

ghost use Rattle.std.specs.Prelude.{Some};
ghost use Rattle.std.specs.Fmt.{decimal};

use std::fmt;

/// The number of a file or directory in its volume (fileid3, RFC 1813 section 2.5).
#[derive(Clone, Copy, Debug, PartialEq, Eq)]
pub struct Fileid(pub u64);

impl Fileid {
    /// The root directory of a volume (our profile).
    pub const ROOT: Fileid = Fileid(1);
}

/// The place of an entry in its directory (cookie3, RFC 1813 section 2.5).
#[derive(Clone, Copy, Debug, PartialEq, Eq)]
pub struct Cookie(pub u64);

impl Cookie {
    /// Before the first entry (RFC 1813 section 3.3.16).
    pub const START: Cookie = Cookie(0);
}

/// The number of a volume, from 0 on.
#[derive(Clone, Copy, Debug, PartialEq, Eq)]
pub struct VolumeNumber(pub u32);

/// The number of a block in its volume, from 0 on (our profile).
#[derive(Clone, Copy, Debug, PartialEq, Eq)]
pub struct BlockNumber(pub u32);

/// The number of a connection, from 0 on.
#[derive(Clone, Copy, Debug, PartialEq, Eq)]
pub struct ConnectionNumber(pub usize);

impl fmt::Display for ConnectionNumber {
    ghost output = { λ c. Some (decimal c.0) };

    fn fmt<W: fmt::Write>(&self, f: &mut fmt::Formatter<W>) -> fmt::Result {
        write!(f, "{}", self.0)
    }
}

/// The number of a worker, from 0 on.
#[derive(Clone, Copy)]
pub struct WorkerNumber(pub usize);
