//! Layouts.

ghost use Rattle.std.specs.Prelude.{◌≡◌, None};
ghost use Rattle.affinity.specs.Specification.{sized_layout_in};
ghost use Rattle.affinity.specs.Fault.{fault_of};

use crate::fault::LayoutFault;
use crate::rules::check;
use crate::sizes::{check_all, with_sizes};
use crate::specification::{
    AggregateSpec, INODES, MEBIBYTE, MIB, RANGE_BLOCKS, STEPS, STRIPES, SizedVolumeSpec, VolumeSpec,
};
use nfs_values::{Moment, Ownership};
use std::alloc::{AllocError, Global};

/// The aggregates and volumes of a run, fixed for as long as it lasts.
#[derive(Debug)]
pub struct Layout {
    aggregates: Vec<AggregateSpec>,
    volumes: Vec<SizedVolumeSpec>,
    pub ghost lawful: { fault_of (sized_layout_in aggregates.items volumes.items) ≡ None },
}

// By hand, so that crates above have no proof of the drop of each of its parts.
impl Drop for Layout {
    fn drop(self) {
        let Layout {
            aggregates: _,
            volumes: _,
        } = self;
    }
}

impl Layout {
    ghost use Rattle.std.specs.Prelude.{◌<◌, ◌≤◌, length, slice_get, option_map, IfOk, IfErr, OnOk};
    ghost use Rattle.nfs_model.specs.Tree.{aggregate_of, range_blocks_of, stripes_of};
    ghost use Rattle.nfs_model.specs.volume.Inodes.{inodes_of_a_volume};
    ghost use Rattle.nfs_model.specs.volume.Ranges.{IsRangeSize};
    ghost use Rattle.affinity.specs.Specification.{layout_in, spare_of, volume_sized};
    ghost use Rattle.affinity.specs.Fault.{fault_without_sizes, rule_broken};
    ghost use Rattle.affinity.specs.Largest.{begun_of, inodes_of, largest_of, mebibytes_in};
    ghost use Rattle.affinity.specs.Largest.{remembered_of};
    ghost use Rattle.affinity.specs.Largest.{root_of, steps_of};
    ghost use Rattle.nfs_values.specs.Moment.{moment_of};
    ghost use Rattle.nfs_values.specs.Ownership.{ownership_of};
    ghost use Rattle.affinity.specs.Layout.{layout_of};

    /// A layout of these aggregates and volumes, each with ranges of 1,024 blocks and at most
    /// 65,536 inodes. It is refused for the first rule that it breaks.
    pub fn new(
        alloc: Global,
        aggregates: &[AggregateSpec],
        volumes: &[VolumeSpec],
    ) -> Result<Layout, LayoutFault>
        ensures ok { IfOk result (λ layout.
            layout_of layout ≡ layout_in aggregates.now volumes.now) }
        ensures lawful { OnOk result (fault_without_sizes
            (layout_in aggregates.now volumes.now) ≡ None) }
        ensures err { IfErr result (λ fault.
            rule_broken fault ≡ fault_without_sizes (layout_in aggregates.now volumes.now)) }
    {
        check(aggregates, volumes)?;
        Ok(Layout {
            aggregates: aggregates.to_vec(alloc)?,
            volumes: with_sizes(alloc, volumes)?,
        })
    }

    /// A layout of these aggregates and of volumes with their sizes. It is refused for the first
    /// rule that it breaks.
    pub fn with_sizes(
        alloc: Global,
        aggregates: &[AggregateSpec],
        volumes: &[SizedVolumeSpec],
    ) -> Result<Layout, LayoutFault>
        ensures ok { IfOk result (λ layout.
            layout_of layout ≡ sized_layout_in aggregates.now volumes.now) }
        ensures lawful { OnOk result (fault_of (sized_layout_in aggregates.now volumes.now)
            ≡ None) }
        ensures err { IfErr result (λ fault.
            rule_broken fault ≡ fault_of (sized_layout_in aggregates.now volumes.now)) }
    {
        check_all(aggregates, volumes)?;
        Ok(Layout {
            aggregates: aggregates.to_vec(alloc)?,
            volumes: volumes.to_vec(alloc)?,
        })
    }

    /// A layout of the same aggregates and volumes.
    pub fn copied(&self, alloc: Global) -> Result<Layout, AllocError>
        ensures { IfOk result (λ layout. layout_of layout ≡ layout_of self.now) }
    {
        Ok(Layout {
            aggregates: self.aggregates.to_vec(alloc)?,
            volumes: self.volumes.to_vec(alloc)?,
        })
    }

    /// How many aggregates there are.
    pub fn aggregate_count(&self) -> usize
        ensures count { result ≡ length (layout_of self.now).spare }
        ensures most { result ≤ 2 }
    {
        self.aggregates.len()
    }

    /// How many volumes there are.
    pub fn volume_count(&self) -> usize
        ensures count { result ≡ length (layout_of self.now).volumes }
        ensures most { result ≤ 8 }
    {
        self.volumes.len()
    }

    /// An aggregate by its number.
    pub fn aggregate(&self, aggregate: u32) -> Option<AggregateSpec>
        ensures { option_map spare_of result ≡ slice_get (layout_of self.now).spare aggregate }
    {
        self.aggregates.get(aggregate as usize).copied()
    }

    /// A volume by its number.
    pub fn volume(&self, volume: u32) -> Option<SizedVolumeSpec>
        ensures { option_map volume_sized result ≡ slice_get (layout_of self.now).volumes volume }
    {
        self.volumes.get(volume as usize).copied()
    }

    /// The aggregate of a volume; 0 for a volume that isn't there.
    #[tactic(auto, using(crate::specs::lemmas::Lawful::aggregate_known))]
    pub fn aggregate_of(&self, volume: u32) -> u32
        ensures aggregate { result ≡ aggregate_of (layout_of self.now) volume }
        ensures known { volume < length (layout_of self.now).volumes
            → result < length (layout_of self.now).spare }
    {
        match self.volume(volume) {
            Some(specification) => specification.volume.aggregate,
            None => 0,
        }
    }

    /// How many stripes a volume has, 8 or 16; 8 for a volume that isn't there.
    pub fn stripes_of(&self, volume: u32) -> u32
        ensures stripes { result ≡ stripes_of (layout_of self.now) volume }
        ensures some { 0 < result }
        ensures most { result ≤ 16 }
    {
        match self.volume(volume) {
            Some(specification) => specification.volume.stripes,
            None => STRIPES,
        }
    }

    /// The largest size of a volume's files in bytes, 16 to 1,048,576 mebibytes; 16 for a volume
    /// that isn't there.
    pub fn largest_of(&self, volume: u32) -> u64
        ensures largest { result ≡ largest_of (layout_of self.now) volume }
        ensures some { 0 < result }
        ensures most { result ≤ 1099511627776 }
    {
        MEBIBYTE * u64::from(self.mebibytes_of(volume))
    }

    /// The mebibytes of a volume's largest files.
    fn mebibytes_of(&self, volume: u32) -> u32
        ensures mebibytes { result ≡ mebibytes_in (slice_get (layout_of self.now).volumes volume) }
        ensures some { 0 < result }
        ensures most { result ≤ 1048576 }
    {
        match self.volume(volume) {
            Some(specification) => specification.volume.mib,
            None => MIB,
        }
    }

    /// The blocks of a range of a volume; 1,024 for a volume that isn't there.
    pub fn range_blocks_of(&self, volume: u32) -> u32
        ensures blocks { result ≡ range_blocks_of (layout_of self.now) volume }
        ensures size { IsRangeSize result }
    {
        match self.volume(volume) {
            Some(specification) => specification.range_blocks,
            None => RANGE_BLOCKS,
        }
    }

    /// The most inodes of a volume, the root with them; 65,536 for a volume that isn't there.
    pub fn inodes_of(&self, volume: u32) -> u32
        ensures inodes { result ≡ inodes_of (layout_of self.now) volume }
        ensures some { 0 < result }
        ensures most { result ≤ inodes_of_a_volume }
    {
        match self.volume(volume) {
            Some(specification) => specification.inodes,
            None => INODES,
        }
    }

    /// The most steps of a RENAME of a directory of a volume, from a directory to its parent.
    pub fn steps_of(&self, volume: u32) -> u32
        ensures { result ≡ steps_of (layout_of self.now) volume }
    {
        match self.volume(volume) {
            Some(specification) => specification.most_steps,
            None => STEPS,
        }
    }

    /// The times of the root of a volume; the start of all times for a volume that isn't there.
    pub fn begun_of(&self, volume: u32) -> Moment
        ensures { moment_of result ≡ begun_of (layout_of self.now) volume }
    {
        match self.volume(volume) {
            Some(specification) => specification.begun,
            None => Moment::START,
        }
    }

    /// Who owns the root of a volume as the run begins; uid 0 for a volume that isn't there.
    pub fn root_of(&self, volume: u32) -> Ownership
        ensures { ownership_of result ≡ root_of (layout_of self.now) volume }
    {
        match self.volume(volume) {
            Some(specification) => specification.root,
            None => Ownership::ROOT,
        }
    }

    /// The most replies of a volume that are remembered for calls that come again; none of a volume
    /// that isn't there.
    pub fn remembered_of(&self, volume: u32) -> u32
        ensures { result ≡ remembered_of (layout_of self.now) volume }
    {
        match self.volume(volume) {
            Some(specification) => specification.remembered,
            None => 0,
        }
    }
}
