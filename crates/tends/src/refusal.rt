//! Why threads of a filer didn't start.

ghost use Rattle.std.specs.Prelude.{◌≡◌};

use std::alloc::AllocError;

/// Why a pool, or the threads of lanes, didn't start.
#[derive(Clone, Copy)]
pub enum StartRefusal {
    /// A thread couldn't be made.
    NoThread,
    /// Memory ran out.
    NoMemory,
}

impl From<AllocError> for StartRefusal {
    fn from(_refused: AllocError) -> StartRefusal {
        StartRefusal::NoMemory
    }
}

impl StartRefusal {
    ghost use Rattle.tends.specs.Refusals.{start_refusal_number};

    /// The number by which the refusal is told.
    pub fn number(self) -> u32
        ensures { result ≡ start_refusal_number self }
    {
        match self {
            StartRefusal::NoThread => 66,
            StartRefusal::NoMemory => 90,
        }
    }
}
