//! Sizes of volumes at their limits.

use crate::holds::holds;
use crate::layouts::aggregates;
use affinity::{AggregateSpec, Layout, SizedVolumeSpec, VolumeSpec};
use nfs_values::{Moment, Ownership};
use std::mem;
use std::process::Abort;

/// A volume by its stripes, mebibytes, blocks of a range and inodes.
type Sizes = (u32, u32, u32, u32);

/// A moment that isn't the start of all times.
const BEGUN: Moment = Moment {
    seconds: 1_790_000_000,
    nanoseconds: 999_999_999,
};

/// An owner that isn't uid 0.
const ROOT: Ownership = Ownership {
    mode: 0o1_777,
    uid: 1_000,
    gid: 100,
};

/// A volume of one range, on the first aggregate, with 4,096 steps, that begins at a moment with an
/// owner of its root.
fn volume(row: Sizes) -> SizedVolumeSpec {
    SizedVolumeSpec {
        volume: VolumeSpec {
            aggregate: 0,
            ranges: 1,
            stripes: row.0,
            mib: row.1,
        },
        range_blocks: row.2,
        inodes: row.3,
        most_steps: 4_096,
        begun: BEGUN,
        root: ROOT,
        remembered: 7,
    }
}

/// Which rule a layout of these breaks; 0 for none.
fn rule_broken(
    rt: &(impl Abort + AllocGlobal),
    aggregates: &[AggregateSpec],
    volumes: &[SizedVolumeSpec],
) -> u32 {
    let made = Layout::with_sizes(rt.alloc(), aggregates, volumes);
    let number = match &made {
        Ok(_layout) => 0,
        Err(fault) => fault.number(),
    };
    mem::forget(made);
    number
}

/// Which rule a layout of an ordinary volume and of this one breaks; 0 for none.
fn fault_number(rt: &(impl Abort + AllocGlobal), row: Sizes) -> u32 {
    let volumes = [VolumeSpec::new(0, 1).sized(), volume(row)];
    rule_broken(rt, &[AggregateSpec { spare: 0 }], &volumes)
}

/// Volumes by their aggregates and ranges, whose stripes and sizes are none that a volume may have.
fn lawless(rt: &(impl Abort + AllocGlobal), rows: &[(u32, u32)]) -> Vec<SizedVolumeSpec> {
    let mut specs = Vec::new(rt.alloc());
    for row in rows {
        let mut spec = volume((9, 15, 1_023, 65_535));
        spec.volume.aggregate = row.0;
        spec.volume.ranges = row.1;
        specs.push(spec).expect(rt, "no memory");
    }
    specs
}

/// Which rule a layout of these breaks first.
fn fault_of_tree(rt: &(impl Abort + AllocGlobal), spare: &[u32], rows: &[(u32, u32)]) -> u32 {
    let aggregates = aggregates(rt, spare);
    let volumes = lawless(rt, rows);
    rule_broken(rt, &aggregates, &volumes)
}

/// The spare ranges of aggregates, the aggregates and ranges of volumes that break each further
/// rule, and the first rule that they break.
const TREES: [(&[u32], &[(u32, u32)], u32); 10] = [
    (&[], &[(0, 1)], 51),
    (&[0, 0, 0], &[], 51),
    (&[0], &[], 52),
    (&[129], &[(9, 0); 9], 52),
    (&[129], &[(0, 17), (1, 1)], 53),
    (&[129], &[(0, 1), (0, 0)], 54),
    (&[128, 129], &[(1, 17)], 54),
    (&[128, 129], &[(1, 16)], 55),
    (&[128], &[(0, 16)], 56),
    (&[128, 128], &[(1, 1); 8], 56),
];

#[test]
fn faults_of_the_tree(rt: HostRuntime) {
    for (spare, rows, fault) in &TREES {
        holds(&rt, fault_of_tree(&rt, spare, rows) == *fault);
    }
}

/// Volumes, and the rule that each breaks.
const VOLUMES: [(Sizes, u32); 35] = [
    ((8, 16, 0, 65_536), 58),
    ((8, 16, 512, 65_536), 58),
    ((8, 16, 1_023, 65_536), 58),
    ((8, 16, 1_024, 65_536), 0),
    ((8, 16, 1_025, 65_536), 58),
    ((8, 16, 2_047, 65_536), 58),
    ((8, 16, 2_048, 65_536), 0),
    ((8, 16, 2_049, 65_536), 58),
    ((8, 16, 3_072, 65_536), 58),
    ((8, 16, 8_388_608, 65_536), 0),
    ((8, 16, 16_777_215, 65_536), 58),
    ((8, 16, 16_777_216, 65_536), 0),
    ((8, 16, 16_777_217, 65_536), 58),
    ((8, 16, 33_554_432, 65_536), 58),
    ((8, 16, 4_294_967_295, 65_536), 58),
    ((8, 0, 1_024, 65_536), 59),
    ((8, 15, 1_024, 65_536), 59),
    ((8, 17, 1_024, 65_536), 0),
    ((8, 65, 1_024, 65_536), 0),
    ((8, 1_048_575, 1_024, 65_536), 0),
    ((8, 1_048_576, 1_024, 65_536), 0),
    ((8, 1_048_577, 1_024, 65_536), 59),
    ((8, 4_294_967_295, 1_024, 65_536), 59),
    ((8, 16, 1_024, 0), 67),
    ((8, 16, 1_024, 65_535), 67),
    ((8, 16, 1_024, 65_537), 0),
    ((8, 16, 1_024, 67_108_863), 0),
    ((8, 16, 1_024, 67_108_864), 0),
    ((8, 16, 1_024, 67_108_865), 67),
    ((8, 16, 1_024, 4_294_967_295), 67),
    ((9, 15, 1_023, 65_535), 56),
    ((16, 15, 1_023, 65_535), 58),
    ((16, 15, 2_048, 65_535), 59),
    ((16, 16, 2_048, 65_535), 67),
    ((16, 1_048_576, 16_777_216, 67_108_864), 0),
];

#[test]
fn faults(rt: HostRuntime) {
    for (row, fault) in &VOLUMES {
        holds(&rt, fault_number(&rt, *row) == *fault);
    }
}

/// A layout of an ordinary volume and of the largest.
fn two_sizes(rt: &(impl Abort + AllocGlobal)) -> Layout {
    let largest = (16, 1_048_576, 16_777_216, 67_108_864);
    let volumes = [VolumeSpec::new(0, 1).sized(), volume(largest)];
    let layout = Layout::with_sizes(rt.alloc(), &[AggregateSpec { spare: 0 }], &volumes).ok();
    layout.expect(rt, "a fault")
}

/// The blocks of a range, the inodes and the bytes of the largest file of a volume.
fn sizes_of(layout: &Layout, volume: u32) -> (u32, u32, u64) {
    (
        layout.range_blocks_of(volume),
        layout.inodes_of(volume),
        layout.largest_of(volume),
    )
}

#[test]
fn sizes(rt: HostRuntime) {
    let layout = two_sizes(&rt);
    let largest = (16_777_216, 67_108_864, 1_099_511_627_776);
    holds(&rt, sizes_of(&layout, 0) == (1_024, 65_536, 16_777_216));
    holds(&rt, sizes_of(&layout, 1) == largest);
    holds(&rt, sizes_of(&layout, 2) == (1_024, 65_536, 16_777_216));
    mem::forget(layout);
}

#[test]
fn steps_and_beginnings(rt: HostRuntime) {
    let layout = two_sizes(&rt);
    let steps = [0, 1, 2].map(|volume| layout.steps_of(volume));
    holds(&rt, steps == [4_294_967_295, 4_096, 4_294_967_295]);
    holds(&rt, layout.begun_of(0) == Moment::START);
    holds(&rt, layout.begun_of(1) == BEGUN);
    holds(&rt, layout.begun_of(2) == Moment::START);
    mem::forget(layout);
}

#[test]
fn owners_of_roots(rt: HostRuntime) {
    let layout = two_sizes(&rt);
    holds(&rt, layout.root_of(0) == Ownership::ROOT);
    holds(&rt, layout.root_of(1) == ROOT);
    holds(&rt, layout.root_of(2) == Ownership::ROOT);
    mem::forget(layout);
}

#[test]
fn replies_remembered(rt: HostRuntime) {
    let layout = two_sizes(&rt);
    let remembered = [0, 1, 2].map(|volume| layout.remembered_of(volume));
    holds(&rt, remembered == [0, 7, 0]);
    mem::forget(layout);
}

#[test]
fn sizes_not_given(rt: HostRuntime) {
    let volumes = [VolumeSpec::new(0, 1)];
    let layout = Layout::new(rt.alloc(), &[AggregateSpec { spare: 0 }], &volumes).ok();
    let layout = layout.expect(&rt, "a fault");
    holds(&rt, sizes_of(&layout, 0) == (1_024, 65_536, 16_777_216));
    mem::forget(layout);
}
