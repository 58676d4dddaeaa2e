//! What a layout is made from.

ghost use Rattle.std.specs.Prelude.{◌≡◌};
ghost use Rattle.affinity.specs.Specification.{ordinary, volume_asked, volume_sized};

use nfs_values::{Moment, Ownership};

/// The stripes of an ordinary volume.
pub const STRIPES: u32 = 8;

/// The most stripes of a volume.
pub const MOST_STRIPES: u32 = 16;

/// The bytes of a mebibyte.
pub const MEBIBYTE: u64 = 1_048_576;

/// The mebibytes of the largest file of an ordinary volume.
pub const MIB: u32 = 16;

/// The most mebibytes of the largest file of a volume whose sizes aren't given.
pub const MOST_MIB: u32 = 64;

/// The mebibytes of the largest file that any volume may have.
pub const MOST_SIZED_MIB: u32 = 1_048_576;

/// The blocks of a range of a volume whose sizes aren't given, and the fewest of any.
pub const RANGE_BLOCKS: u32 = 1_024;

/// The most inodes of a volume whose sizes aren't given, and the fewest of any.
pub const INODES: u32 = 65_536;

/// The most inodes that any volume may have.
pub const MOST_INODES: u32 = 67_108_864;

/// The most steps from a directory to its parent in a RENAME of a directory, of a volume that
/// doesn't say: more than it has inodes.
pub const STEPS: u32 = 4_294_967_295;

/// An aggregate as it is laid out at the start.
#[derive(Clone, Copy, Debug, PartialEq, Eq)]
pub struct AggregateSpec {
    /// The ranges that its volumes may still grow by.
    pub spare: u32,
}

/// A volume as it is laid out at the start.
#[derive(Clone, Copy, Debug, PartialEq, Eq)]
pub struct VolumeSpec {
    pub aggregate: u32,
    /// The ranges that are in use.
    pub ranges: u32,
    /// The stripes over which the bytes of its files are spread: 8 or 16.
    pub stripes: u32,
    /// The largest size of its files in mebibytes: 16 or 64, or another where its sizes are given.
    pub mib: u32,
}

/// A volume as it is laid out at the start, with its sizes.
#[derive(Clone, Copy, Debug, PartialEq, Eq)]
pub struct SizedVolumeSpec {
    pub volume: VolumeSpec,
    /// The blocks of each of its ranges: 1,024 times a power of two, at most 16,777,216.
    pub range_blocks: u32,
    /// How many inodes it may have, the root with them: 65,536 to 67,108,864.
    pub inodes: u32,
    /// How many steps from a directory to its parent a RENAME of a directory takes at most.
    pub most_steps: u32,
    /// The times of its root.
    pub begun: Moment,
    /// Who owns its root, as the run begins.
    pub root: Ownership,
    /// How many replies are remembered at most, for calls that come again.
    pub remembered: u32,
}

impl VolumeSpec {
    /// An ordinary volume: of 8 stripes, with files of at most 16 mebibytes.
    pub fn new(aggregate: u32, ranges: u32) -> VolumeSpec
        ensures { volume_asked result ≡ ordinary aggregate ranges }
    {
        VolumeSpec {
            aggregate,
            ranges,
            stripes: STRIPES,
            mib: MIB,
        }
    }

    /// The volume with ranges of 1,024 blocks, 65,536 inodes at most, as many steps of a RENAME as
    /// there may be, a root of uid 0 that has the start of all times, and no reply remembered.
    pub fn sized(self) -> SizedVolumeSpec
        ensures { volume_sized result ≡ volume_asked self }
    {
        SizedVolumeSpec {
            volume: self,
            range_blocks: RANGE_BLOCKS,
            inodes: INODES,
            most_steps: STEPS,
            begun: Moment::START,
            root: Ownership::ROOT,
            remembered: 0,
        }
    }
}
