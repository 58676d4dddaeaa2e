//! Why a call failed.

ghost use Rattle.std.specs.Prelude.{◌≡◌};

/// Why a call failed (nfsstat3 without NFS3_OK, RFC 1813 section 2.5).
#[derive(Clone, Copy, Debug, PartialEq, Eq)]
pub enum Status {
    NotPermitted = 1,
    NoEntry = 2,
    Access = 13,
    Exists = 17,
    CrossVolume = 18,
    NotDirectory = 20,
    IsDirectory = 21,
    Invalid = 22,
    TooBig = 27,
    NoSpace = 28,
    ReadOnly = 30,
    TooManyLinks = 31,
    NameTooLong = 63,
    NotEmpty = 66,
    Stale = 70,
    BadHandle = 10001,
    NotSynchronous = 10002,
    BadCookie = 10003,
    TooSmall = 10005,
    BadType = 10007,
}

impl Status {
    ghost use Rattle.nfs_model.specs.Types.{status_word};
    ghost use Rattle.nfs_values.specs.Status.{status_of};

    /// The number of a status.
    pub fn word(self) -> u32
        ensures { result ≡ status_word (status_of self) }
    {
        self as u32
    }
}
