//! What the volumes of a server have at the start.

ghost use Rattle.std.specs.Prelude.{◌≡◌, ◌≤◌, ◌<◌, ◌*◌, ◌⊎◌};
ghost use Rattle.nfs_model.specs.volume.Ranges.{IsRangeSize};

use affinity::{INODES, MEBIBYTE, MIB, MOST_INODES, MOST_RANGES, RANGE_BLOCKS, STEPS, STRIPES};
use nfs_values::{BLOCK_BYTES, Ownership};

/// The bytes of a volume for each of its inodes.
const BYTES_AN_INODE: u64 = 16_384;

/// The fewest bytes of a volume: a range of 1,024 blocks.
pub const LEAST_VOLUME: u64 = 4_194_304;

/// The fewest bytes of a volume's largest files.
const LEAST_FILE: u64 = 16_777_216;

/// The most bytes of a volume, and of a file.
pub const MOST_BYTES: u64 = 1_099_511_627_776;

/// The most steps of a RENAME of a directory in a volume of `export`.
const EXPORTED_STEPS: u32 = 4_096;

/// The replies that a volume of `export` remembers.
const EXPORTED_REPLIES: u32 = 4_096;

/// The most replies that a volume may remember.
pub const MOST_REPLIES: u32 = 65_536;

/// What each volume has at the start, and what all of them may grow by.
#[derive(Clone, Copy)]
pub struct VolumePlan {
    /// Ranges in use.
    pub ranges: u32,
    /// Blocks of 4 KiB of each range.
    pub range_blocks: u32,
    /// Stripes over which the bytes of its files are spread.
    pub stripes: u32,
    /// The largest size of its files in mebibytes.
    pub mib: u32,
    /// How many inodes it may have, the root with them.
    pub inodes: u32,
    /// How many steps from a directory to its parent a RENAME of a directory takes at most.
    pub most_steps: u32,
    /// How many replies it remembers at most, for calls that come again.
    pub remembered: u32,
    /// Ranges by which the volumes may grow, all together.
    pub spare: u32,
    /// Who owns its root.
    pub root: Ownership,
    pub ghost some_range: { 0 < ranges },
    pub ghost ranges_fit: { ranges ≤ 16 },
    pub ghost files_from: { 16 ≤ mib },
    pub ghost files_to: { mib ≤ 1048576 },
    pub ghost inodes_from: { 65536 ≤ inodes },
    pub ghost inodes_to: { inodes ≤ 67108864 },
    pub ghost replies_fit: { remembered ≤ 65536 },
}

/// The fewest blocks of a range of which 16 have this many.
fn range_blocks_for(blocks: u32) -> u32
    requires { blocks ≤ 268435456 }
    ensures size { IsRangeSize result }
    ensures enough { blocks ≤ 16 * result }
    ensures fewest { (result ≡ 1024) ⊎ (8 * result < blocks) }
{
    let mut range_blocks = RANGE_BLOCKS;
    while MOST_RANGES * range_blocks < blocks {
        range_blocks *= 2;
    }
    range_blocks
}

impl VolumePlan {
    ghost use Rattle.std.specs.Prelude.{IfNone, IfSome};
    ghost use Rattle.server_options.specs.Asked.{bytes_of, AreInodes, AreRanges, IsBasic};
    ghost use Rattle.server_options.specs.Asked.{AreReplies, RemembersReplies};
    ghost use Rattle.server_options.specs.Asked.{HasFiles, HasInodes, HasRanges, HasSize};
    ghost use Rattle.server_options.specs.Asked.{IsFileSize, IsVolumeSize};

    /// The plan of `serve`: volumes of 16 MiB, with files as large.
    pub fn basic() -> VolumePlan
        ensures { IsBasic result }
    {
        VolumePlan {
            ranges: 4,
            range_blocks: RANGE_BLOCKS,
            stripes: STRIPES,
            mib: 16,
            inodes: INODES,
            most_steps: STEPS,
            remembered: 0,
            spare: 16,
            root: Ownership::ROOT,
        }
    }

    /// A plan of `export`: volumes of this many ranges of 4 MiB, from 1 to 16, with files of at
    /// most 64 MiB.
    pub fn export(ranges: u32) -> Option<VolumePlan>
        ensures given { IfSome result (HasRanges ranges) }
        ensures in_range { IfSome result (λ plan. AreRanges ranges) }
        ensures refused { IfNone result (AreRanges ranges → ⊥) }
    {
        if ranges == 0 || ranges > MOST_RANGES {
            return None;
        }
        Some(VolumePlan {
            ranges,
            range_blocks: RANGE_BLOCKS,
            stripes: STRIPES,
            mib: 64,
            inodes: INODES,
            most_steps: EXPORTED_STEPS,
            remembered: EXPORTED_REPLIES,
            spare: 128,
            root: Ownership::ROOT,
        })
    }

    /// A plan of `export`: volumes of this many bytes, from 4 MiB to 1 TiB, which never grow, as
    /// far as whole ranges fit into them, of the fewest blocks of which 16 would do. Their files
    /// may be as large as they are, and they may have an inode for 16 KiB, and 65,536 in any case.
    pub fn sized(bytes: u64) -> Option<VolumePlan>
        ensures given { IfSome result (HasSize bytes) }
        ensures in_range { IfSome result (λ plan. IsVolumeSize bytes) }
        ensures refused { IfNone result (IsVolumeSize bytes → ⊥) }
    {
        if bytes < LEAST_VOLUME || bytes > MOST_BYTES {
            return None;
        }
        let blocks = (bytes / BLOCK_BYTES) as u32;
        let range_blocks = range_blocks_for(blocks);
        let ranges = blocks / range_blocks;
        let held = u64::from(ranges) * (BLOCK_BYTES * u64::from(range_blocks));
        let mebibytes = (held / MEBIBYTE).max(u64::from(MIB));
        let inodes = (held / BYTES_AN_INODE).max(u64::from(INODES));
        Some(VolumePlan {
            ranges,
            range_blocks,
            stripes: STRIPES,
            mib: mebibytes as u32,
            inodes: inodes as u32,
            most_steps: EXPORTED_STEPS,
            remembered: EXPORTED_REPLIES,
            spare: 0,
            root: Ownership::ROOT,
        })
    }

    /// The plan with files of at most this many bytes, from 16 MiB to 1 TiB, in whole mebibytes.
    pub fn with_files(self, bytes: u64) -> Option<VolumePlan>
        ensures given { IfSome result (HasFiles bytes self) }
        ensures in_range { IfSome result (λ plan. IsFileSize bytes) }
        ensures refused { IfNone result (IsFileSize bytes → ⊥) }
    {
        if bytes < LEAST_FILE || bytes > MOST_BYTES {
            return None;
        }
        let mut plan = self;
        plan.mib = (bytes / MEBIBYTE) as u32;
        Some(plan)
    }

    /// The plan with this many inodes at most, from 65,536 to 67,108,864.
    pub fn with_inodes(self, inodes: u32) -> Option<VolumePlan>
        ensures given { IfSome result (HasInodes inodes self) }
        ensures in_range { IfSome result (λ plan. AreInodes inodes) }
        ensures refused { IfNone result (AreInodes inodes → ⊥) }
    {
        if inodes < INODES || inodes > MOST_INODES {
            return None;
        }
        let mut plan = self;
        plan.inodes = inodes;
        Some(plan)
    }

    /// The plan with this many replies remembered, up to 65,536.
    pub fn with_remembered(self, replies: u32) -> Option<VolumePlan>
        ensures given { IfSome result (RemembersReplies replies self) }
        ensures in_range { IfSome result (λ plan. AreReplies replies) }
        ensures refused { IfNone result (AreReplies replies → ⊥) }
    {
        if replies > MOST_REPLIES {
            return None;
        }
        let mut plan = self;
        plan.remembered = replies;
        Some(plan)
    }

    /// The plan with roots that are owned so.
    pub fn with_root(self, root: Ownership) -> VolumePlan
        ensures { result ≡ record self { root = root } }
    {
        let mut plan = self;
        plan.root = root;
        plan
    }

    /// The bytes of a volume at the start.
    pub fn bytes(&self) -> u64
        ensures { result ≡ bytes_of self.now }
    {
        u64::from(self.ranges) * (BLOCK_BYTES * u64::from(self.range_blocks))
    }
}
