//! The rules that a layout keeps whose volumes' sizes are given.

ghost use Rattle.std.specs.Prelude.{◌≡◌, ◌≢◌, ◌==◌, None, IfErr, IfOk, OnOk, map};
ghost use Rattle.std.specs.List.{list_all, list_any};
ghost use Rattle.affinity.specs.Specification.{sized_layout_in, volume_asked, volume_sized};
ghost use Rattle.affinity.specs.Fault.{
  fault_of,
  rule_broken,
  range_sizes,
  sizes_fault,
  tree_fault,
  is_known,
  is_sized,
  is_striped,
  has_lawful_ranges,
  has_lawful_files,
  has_lawful_inodes,
};

use crate::fault::LayoutFault;
use crate::rules::{MOST_AGGREGATES, MOST_RANGES, MOST_VOLUMES, are_spare};
use crate::specification::{
    AggregateSpec, INODES, MIB, MOST_INODES, MOST_SIZED_MIB, MOST_STRIPES, STRIPES,
    SizedVolumeSpec, VolumeSpec,
};
use std::alloc::{AllocError, Global};

/// The volumes with the sizes of those that don't give them.
pub(crate) fn with_sizes(
    alloc: Global,
    volumes: &[VolumeSpec],
) -> Result<Vec<SizedVolumeSpec>, AllocError>
    ensures { IfOk result (λ sized.
        map volume_sized sized.items ≡ map volume_asked volumes.now) }
{
    let mut specifications = Vec::new(alloc);
    for volume in volumes {
        specifications.push(volume.sized())?;
    }
    Ok(specifications)
}

/// Whether each volume is on an aggregate that is there.
fn are_known(volumes: &[SizedVolumeSpec], aggregates: usize) -> bool
    ensures { result ≡ list_all (λ v. is_known aggregates (volume_sized v)) volumes.now }
{
    volumes
        .iter()
        .all(|v| (v.volume.aggregate as usize) < aggregates)
}

/// Whether each volume has 1 to 16 ranges.
fn are_sized(volumes: &[SizedVolumeSpec]) -> bool
    ensures { result ≡ list_all (λ v. is_sized (volume_sized v)) volumes.now }
{
    volumes
        .iter()
        .all(|v| 1 <= v.volume.ranges && v.volume.ranges <= MOST_RANGES)
}

/// Whether each volume has 8 or 16 stripes.
fn are_striped(volumes: &[SizedVolumeSpec]) -> bool
    ensures { result ≡ list_all (λ v. is_striped (volume_sized v)) volumes.now }
{
    volumes.iter().all(|v| v.volume.stripes == STRIPES || v.volume.stripes == MOST_STRIPES)
}

/// The numbers of blocks that a range may have: 1,024 times a power of two.
const RANGE_SIZES: [u32; 15] = [
    1_024, 2_048, 4_096, 8_192, 16_384, 32_768, 65_536, 131_072, 262_144, 524_288, 1_048_576,
    2_097_152, 4_194_304, 8_388_608, 16_777_216,
];

/// Whether a range may have this many blocks.
fn is_range_size(blocks: u32) -> bool
    ensures { result ≡ list_any (λ n. n == blocks) range_sizes }
{
    RANGE_SIZES.iter().any(|n| *n == blocks)
}

/// Whether the ranges of each volume have 1,024 blocks times a power of two, and at most
/// 16,777,216.
fn have_lawful_ranges(volumes: &[SizedVolumeSpec]) -> bool
    ensures { result ≡ list_all (λ v. has_lawful_ranges (volume_sized v)) volumes.now }
{
    volumes.iter().all(|v| is_range_size(v.range_blocks))
}

/// Whether the largest files of each volume have 16 to 1,048,576 mebibytes.
fn have_lawful_files(volumes: &[SizedVolumeSpec]) -> bool
    ensures { result ≡ list_all (λ v. has_lawful_files (volume_sized v)) volumes.now }
{
    volumes
        .iter()
        .all(|v| MIB <= v.volume.mib && v.volume.mib <= MOST_SIZED_MIB)
}

/// Whether each volume has 65,536 to 67,108,864 inodes at most.
fn have_lawful_inodes(volumes: &[SizedVolumeSpec]) -> bool
    ensures { result ≡ list_all (λ v. has_lawful_inodes (volume_sized v)) volumes.now }
{
    volumes
        .iter()
        .all(|v| INODES <= v.inodes && v.inodes <= MOST_INODES)
}

/// Refuses a layout for the first rule of the tree that it breaks.
fn check_tree(aggregates: &[AggregateSpec], volumes: &[SizedVolumeSpec]) -> Result<(), LayoutFault>
    ensures ok { OnOk result (tree_fault (sized_layout_in aggregates.now volumes.now) ≡ None) }
    ensures err { IfErr result (λ fault.
        rule_broken fault ≡ tree_fault (sized_layout_in aggregates.now volumes.now)) }
    ensures broken { IfErr result (λ fault. rule_broken fault ≢ None) }
{
    if aggregates.len() < 1 || MOST_AGGREGATES < aggregates.len() {
        return Err(LayoutFault::AggregateCount);
    }
    if volumes.len() < 1 || MOST_VOLUMES < volumes.len() {
        return Err(LayoutFault::VolumeCount);
    }
    if !are_known(volumes, aggregates.len()) {
        return Err(LayoutFault::UnknownAggregate);
    }
    if !are_sized(volumes) {
        return Err(LayoutFault::RangeCount);
    }
    if !are_spare(aggregates) {
        return Err(LayoutFault::SpareRanges);
    }
    if !are_striped(volumes) {
        return Err(LayoutFault::StripeCount);
    }
    Ok(())
}

/// Refuses volumes for the first rule that their sizes break.
fn check_sizes(volumes: &[SizedVolumeSpec]) -> Result<(), LayoutFault>
    ensures ok { OnOk result (sizes_fault (map volume_sized volumes.now) ≡ None) }
    ensures err { IfErr result (λ fault.
        rule_broken fault ≡ sizes_fault (map volume_sized volumes.now)) }
    ensures broken { IfErr result (λ fault. rule_broken fault ≢ None) }
{
    if !have_lawful_ranges(volumes) {
        return Err(LayoutFault::RangeBlocks);
    }
    if !have_lawful_files(volumes) {
        return Err(LayoutFault::FileSize);
    }
    if !have_lawful_inodes(volumes) {
        return Err(LayoutFault::InodeCount);
    }
    Ok(())
}

/// Refuses a layout for the first rule that it breaks.
pub(crate) fn check_all(
    aggregates: &[AggregateSpec],
    volumes: &[SizedVolumeSpec],
) -> Result<(), LayoutFault>
    ensures ok { OnOk result (fault_of (sized_layout_in aggregates.now volumes.now) ≡ None) }
    ensures err { IfErr result (λ fault.
        rule_broken fault ≡ fault_of (sized_layout_in aggregates.now volumes.now)) }
    ensures broken { IfErr result (λ fault. rule_broken fault ≢ None) }
{
    check_tree(aggregates, volumes)?;
    check_sizes(volumes)
}
