//! Why a range refuses.

ghost use Rattle.std.specs.Prelude.{◌≡◌};

/// Why a range refuses.
#[derive(Clone, Copy, Debug, PartialEq, Eq)]
pub enum RangeFault {
    /// The range isn't in use.
    NoSuchRange = 41,
    /// A block isn't of the range, or is free already.
    NotHeld = 42,
}

impl RangeFault {
    ghost use Rattle.vbn_ranges.specs.Fault.{fault_number};

    /// The number by which a refusal is told.
    pub fn number(self) -> u32
        ensures { result ≡ fault_number self }
    {
        self as u32
    }
}
