//! Why arguments could not be decoded.

ghost use Rattle.std.specs.Prelude.{◌≡◌};
ghost use Rattle.nfs_types.specs.declared.bad.Bad.TheVariants as bads;

use std::alloc::{AllocError, AllocFailed};
use xdr::Fault;

/// Why arguments could not be decoded.
#[derive(Clone, Copy, Debug, PartialEq, Eq)]
pub enum Bad {
    /// The bytes spell no arguments.
    Fault(Fault),
    /// They do, and memory for a name or data ran out.
    NoMemory,
}

impl From<Fault> for Bad {
    ghost from_gives = { λ fault bad. bad ≡ bads.Fault fault };

    fn from(fault: Fault) -> Bad {
        Bad::Fault(fault)
    }
}

impl From<AllocError> for Bad {
    ghost from_gives = { λ _ bad. bad ≡ bads.NoMemory };

    fn from(_error: AllocError) -> Bad {
        Bad::NoMemory
    }
}

impl<T: Drop> From<AllocFailed<T>> for Bad {
    ghost from_gives = { λ _ bad. bad ≡ bads.NoMemory };

    fn from(_failed: AllocFailed<T>) -> Bad {
        Bad::NoMemory
    }
}
