//! Layouts at their limits, exclusion, names.

use crate::holds::holds;
use affinity::{Affinity, AggregateSpec, Layout, VolumeSpec};
use std::mem;
use std::process::Abort;

/// A volume by its aggregate, ranges, stripes and mebibytes.
type Volume = (u32, u32, u32, u32);

fn volume(row: Volume) -> VolumeSpec {
    VolumeSpec {
        aggregate: row.0,
        ranges: row.1,
        stripes: row.2,
        mib: row.3,
    }
}

fn volumes(rt: &(impl Abort + AllocGlobal), rows: &[Volume]) -> Vec<VolumeSpec> {
    let mut specs = Vec::new(rt.alloc());
    for row in rows {
        specs.push(volume(*row)).expect(rt, "no memory");
    }
    specs
}

/// Aggregates by their spare ranges.
pub(crate) fn aggregates(rt: &(impl Abort + AllocGlobal), spare: &[u32]) -> Vec<AggregateSpec> {
    let mut specs = Vec::new(rt.alloc());
    for ranges in spare {
        let spec = AggregateSpec { spare: *ranges };
        specs.push(spec).expect(rt, "no memory");
    }
    specs
}

/// Which rule a layout of these breaks; 0 for none.
fn fault_number(rt: &(impl Abort + AllocGlobal), spare: &[u32], rows: &[Volume]) -> u32 {
    let aggregates = aggregates(rt, spare);
    let volumes = volumes(rt, rows);
    let made = Layout::new(rt.alloc(), &aggregates, &volumes);
    let number = match &made {
        Ok(_layout) => 0,
        Err(fault) => fault.number(),
    };
    mem::forget(made);
    number
}

/// The spare ranges of aggregates, volumes, and the rule that they break.
const LAYOUTS: [(&[u32], &[Volume], u32); 13] = [
    (&[], &[(0, 1, 8, 16)], 51),
    (&[0, 0, 0], &[], 51),
    (&[0], &[], 52),
    (&[129], &[(9, 0, 0, 0); 9], 52),
    (&[129], &[(0, 17, 9, 9), (1, 1, 8, 16)], 53),
    (&[129], &[(0, 1, 9, 9), (0, 0, 8, 16)], 54),
    (&[128, 129], &[(1, 17, 9, 9)], 54),
    (&[128, 129], &[(1, 16, 9, 9)], 55),
    (&[128], &[(0, 16, 12, 17)], 56),
    (&[128], &[(0, 16, 16, 17)], 57),
    (&[0], &[(0, 1, 8, 16)], 0),
    (&[0], &[(0, 1, 8, 64)], 0),
    (&[128, 128], &[(1, 16, 16, 64); 8], 0),
];

#[test]
fn faults(rt: HostRuntime) {
    for (spare, rows, fault) in &LAYOUTS {
        holds(&rt, fault_number(&rt, spare, rows) == *fault);
    }
}

/// A layout of two volumes, each on its own aggregate: one of 8 stripes, one of 16.
pub(crate) fn two_volumes(rt: &(impl Abort + AllocGlobal)) -> Layout {
    let aggregates = [AggregateSpec { spare: 1 }, AggregateSpec { spare: 0 }];
    let volumes = [VolumeSpec::new(1, 1), volume((0, 16, 16, 64))];
    let layout = Layout::new(rt.alloc(), &aggregates, &volumes).ok();
    layout.expect(rt, "a fault")
}

/// A layout with the most nodes.
fn largest(rt: &(impl Abort + AllocGlobal)) -> Layout {
    let aggregates = [AggregateSpec { spare: 128 }; 2];
    let volumes = [volume((1, 16, 16, 64)); 8];
    let layout = Layout::new(rt.alloc(), &aggregates, &volumes).ok();
    layout.expect(rt, "a fault")
}

#[test]
fn nodes(rt: HostRuntime) {
    let largest = largest(&rt);
    let count = largest.node_count();
    holds(&rt, count == 283);
    let last = Affinity::Range {
        volume: 7,
        range: 15,
    };
    holds(&rt, largest.affinity_at(283) == last);
    holds(&rt, largest.parent_number(283) == 267);
    holds(&rt, largest.affinity_at(267) == Affinity::VolumeVbn(7));
    mem::forget(largest);
}

#[test]
fn stripes_and_sizes(rt: HostRuntime) {
    let layout = two_volumes(&rt);
    holds(&rt, layout.node_count() == 65);
    let stripes = (layout.stripes_of(0), layout.stripes_of(1));
    holds(&rt, stripes == (8, 16));
    let most = (layout.largest_of(0), layout.largest_of(1));
    holds(&rt, most == (16_777_216, 67_108_864));
    let last = Affinity::Stripe {
        volume: 1,
        stripe: 15,
    };
    holds(&rt, layout.number_of(last) == 48);
    holds(&rt, layout.affinity_at(48) == last);
    holds(&rt, layout.parent_number(48) == 32);
    mem::forget(layout);
}

/// Stripe 2 of volume 0.
const STRIPE: Affinity = Affinity::Stripe {
    volume: 0,
    stripe: 2,
};

/// What excludes it.
const EXCLUDING: [Affinity; 5] = [
    Affinity::Serial,
    Affinity::Aggregate(1),
    Affinity::Volume(0),
    Affinity::VolumeLogical(0),
    STRIPE,
];

/// What doesn't.
const OTHERS: [Affinity; 6] = [
    Affinity::Aggregate(0),
    Affinity::Volume(1),
    Affinity::VolumeLogical(1),
    Affinity::VolumeVbn(0),
    Affinity::Stripe {
        volume: 0,
        stripe: 3,
    },
    Affinity::Range {
        volume: 0,
        range: 0,
    },
];

/// Looks whether these all exclude the stripe, or all leave it, both ways.
fn exclude(rt: &impl Abort, others: &[Affinity], layout: &Layout, is_excluded: bool) {
    for other in others {
        holds(rt, STRIPE.excludes(*other, layout) == is_excluded);
        holds(rt, other.excludes(STRIPE, layout) == is_excluded);
    }
}

#[test]
fn exclusion(rt: HostRuntime) {
    let layout = two_volumes(&rt);
    exclude(&rt, &EXCLUDING, &layout, true);
    exclude(&rt, &OTHERS, &layout, false);
    mem::forget(layout);
}

/// Affinities and their names.
const NAMES: [(Affinity, &str); 7] = [
    (Affinity::Serial, "serial"),
    (Affinity::Aggregate(1), "aggregate 1"),
    (Affinity::Volume(7), "volume 7"),
    (Affinity::VolumeLogical(0), "logical 0"),
    (STRIPE, "stripe 0 2"),
    (Affinity::VolumeVbn(3), "vbn 3"),
    (
        Affinity::Range {
            volume: 1,
            range: 15,
        },
        "range 1 15",
    ),
];

#[test]
fn names(rt: HostRuntime) {
    for (affinity, name) in &NAMES {
        let printed = affinity.to_string(rt.alloc()).expect(&rt, "no memory");
        holds(&rt, printed.as_str() == *name);
    }
}
