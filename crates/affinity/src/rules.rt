//! The rules that a layout keeps.

ghost use Rattle.std.specs.Prelude.{◌≡◌, ◌≢◌, None, IfErr, OnOk};
ghost use Rattle.std.specs.List.{list_all};
ghost use Rattle.affinity.specs.Specification.{layout_in, spare_of, volume_asked};
ghost use Rattle.affinity.specs.Fault.{fault_without_sizes, rule_broken};
ghost use Rattle.affinity.specs.Fault.{is_known, is_limited, is_sized, is_spare, is_striped};

use crate::fault::LayoutFault;
use crate::specification::{AggregateSpec, MIB, MOST_MIB, MOST_STRIPES, STRIPES, VolumeSpec};

/// The most aggregates.
pub const MOST_AGGREGATES: usize = 2;

/// The most spare ranges of an aggregate.
pub const MOST_SPARE: u32 = 128;

/// The most volumes.
pub const MOST_VOLUMES: usize = 8;

/// The ranges of a volume's part of the tree, of which it has at least one in use.
pub const MOST_RANGES: u32 = 16;

/// Whether each volume is on an aggregate that is there.
fn are_known(volumes: &[VolumeSpec], aggregates: usize) -> bool
    ensures { result ≡ list_all (λ v. is_known aggregates (volume_asked v)) volumes.now }
{
    volumes.iter().all(|v| (v.aggregate as usize) < aggregates)
}

/// Whether each volume has 1 to 16 ranges.
fn are_sized(volumes: &[VolumeSpec]) -> bool
    ensures { result ≡ list_all (λ v. is_sized (volume_asked v)) volumes.now }
{
    volumes
        .iter()
        .all(|v| 1 <= v.ranges && v.ranges <= MOST_RANGES)
}

/// Whether no aggregate has too many spare ranges.
pub(crate) fn are_spare(aggregates: &[AggregateSpec]) -> bool
    ensures { result ≡ list_all (λ a. is_spare (spare_of a)) aggregates.now }
{
    aggregates.iter().all(|a| a.spare <= MOST_SPARE)
}

/// Whether each volume has 8 or 16 stripes.
fn are_striped(volumes: &[VolumeSpec]) -> bool
    ensures { result ≡ list_all (λ v. is_striped (volume_asked v)) volumes.now }
{
    volumes
        .iter()
        .all(|v| v.stripes == STRIPES || v.stripes == MOST_STRIPES)
}

/// Whether the largest files of each volume have 16 or 64 mebibytes.
fn are_limited(volumes: &[VolumeSpec]) -> bool
    ensures { result ≡ list_all (λ v. is_limited (volume_asked v)) volumes.now }
{
    volumes.iter().all(|v| v.mib == MIB || v.mib == MOST_MIB)
}

/// Refuses a layout whose volumes' sizes aren't given, for the first rule that it breaks.
pub(crate) fn check(aggregates: &[AggregateSpec], volumes: &[VolumeSpec]) -> Result<(), LayoutFault>
    ensures ok { OnOk result (fault_without_sizes (layout_in aggregates.now volumes.now)
        ≡ None) }
    ensures err { IfErr result (λ fault.
        rule_broken fault ≡ fault_without_sizes (layout_in aggregates.now volumes.now)) }
    ensures broken { IfErr result (λ fault. rule_broken fault ≢ None) }
{
    if aggregates.len() < 1 || MOST_AGGREGATES < aggregates.len() {
        return Err(LayoutFault::AggregateCount);
    }
    if volumes.len() < 1 || MOST_VOLUMES < volumes.len() {
        return Err(LayoutFault::VolumeCount);
    }
    if !are_known(volumes, aggregates.len()) {
        return Err(LayoutFault::UnknownAggregate);
    }
    if !are_sized(volumes) {
        return Err(LayoutFault::RangeCount);
    }
    if !are_spare(aggregates) {
        return Err(LayoutFault::SpareRanges);
    }
    if !are_striped(volumes) {
        return Err(LayoutFault::StripeCount);
    }
    if !are_limited(volumes) {
        return Err(LayoutFault::FileLimit);
    }
    Ok(())
}
