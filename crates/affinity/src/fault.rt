//! Why a layout is refused.

ghost use Rattle.std.specs.Prelude.{◌≡◌};
ghost use Rattle.affinity.specs.declared.fault.LayoutFault.TheVariants as faults;

use std::alloc::AllocError;

/// Why a layout is refused.
#[derive(Clone, Copy)]
pub enum LayoutFault {
    /// There are not 1 to 2 aggregates.
    AggregateCount,
    /// There are not 1 to 8 volumes.
    VolumeCount,
    /// A volume is on an aggregate that isn't there.
    UnknownAggregate,
    /// A volume has not 1 to 16 ranges.
    RangeCount,
    /// An aggregate has more than 128 spare ranges.
    SpareRanges,
    /// A volume has neither 8 nor 16 stripes.
    StripeCount,
    /// The largest files of a volume have neither 16 nor 64 mebibytes.
    FileLimit,
    /// The ranges of a volume don't have 1,024 blocks times a power of two, at most 16,777,216.
    RangeBlocks,
    /// The largest files of a volume don't have 16 to 1,048,576 mebibytes.
    FileSize,
    /// A volume doesn't have 65,536 to 67,108,864 inodes at most.
    InodeCount,
    /// Memory ran out.
    NoMemory,
}

impl From<AllocError> for LayoutFault {
    ghost from_gives = { λ _ fault. fault ≡ faults.NoMemory };

    fn from(_error: AllocError) -> LayoutFault {
        LayoutFault::NoMemory
    }
}

impl LayoutFault {
    ghost use Rattle.affinity.specs.Fault.{fault_number};

    /// The number by which a fault is told.
    pub fn number(self) -> u32
        ensures { result ≡ fault_number self }
    {
        match self {
            LayoutFault::AggregateCount => 51,
            LayoutFault::VolumeCount => 52,
            LayoutFault::UnknownAggregate => 53,
            LayoutFault::RangeCount => 54,
            LayoutFault::SpareRanges => 55,
            LayoutFault::StripeCount => 56,
            LayoutFault::FileLimit => 57,
            LayoutFault::RangeBlocks => 58,
            LayoutFault::FileSize => 59,
            LayoutFault::InodeCount => 67,
            LayoutFault::NoMemory => 90,
        }
    }
}
