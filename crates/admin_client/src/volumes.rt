//! What CENSUS tells.

ghost use Rattle.std.specs.Prelude.{◌≡◌, ◌^◌, ◌-◌, min, sum_by};

use nfs_values::answer::VolumeCount;

/// What CENSUS tells of the volumes (our profile): of each its number, its blocks, of 4,096 bytes,
/// and how many of them are in files.
#[derive(Drop)]
pub struct Census {
    pub volumes: Vec<VolumeCount>,
}

/// Blocks of all volumes.
#[derive(Clone, Copy, PartialEq, Eq)]
pub struct BlockTotals {
    pub total: u64,
    /// Those in files.
    pub used: u64,
}

impl Census {
    /// The blocks of all volumes, and those of them in files. Sums above 2^64 - 1, which no server
    /// has, are told as that.
    pub fn totals(&self) -> BlockTotals
        ensures total { result.total
            ≡ min (sum_by (λ v. v.total) self.now.volumes.items) (2 ^ 64 - 1) }
        ensures used { result.used
            ≡ min (sum_by (λ v. v.used) self.now.volumes.items) (2 ^ 64 - 1) }
    {
        let mut totals = BlockTotals { total: 0, used: 0 };
        for volume in &self.volumes {
            totals.total = totals.total.saturating_add(volume.total);
            totals.used = totals.used.saturating_add(volume.used);
        }
        totals
    }
}
