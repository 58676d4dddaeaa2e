//! The lanes of a filer.

ghost use Rattle.std.specs.Prelude.{◌≡◌, vec_len};
ghost use Rattle.std.specs.Arc.{arc_value};
ghost use Rattle.filer_lanes.specs.Lanes.{AreLanesOf};

use crate::memory::Memory;
use affinity::{AggregateSpec, Layout, VolumeSpec};
use granted_calls::Filer;
use lanes::Lane;
use rpc_msg::Offer;
use std::process::Abort;
use std::sync::Arc;

/// A lane of devices in memory.
pub(crate) type MemoryLane<R> = Lane<Memory, R>;

/// Two volumes of one range.
fn layout(rt: &(impl Abort + AllocGlobal)) -> Layout {
    let aggregates = [AggregateSpec { spare: 1 }];
    let volume = VolumeSpec::new(0, 1);
    let made = Layout::new(rt.alloc(), &aggregates, &[volume, volume]).ok();
    made.expect(rt, "a layout")
}

/// Both lanes of a filer, the first behind the other. Its write verifier is eight nines.
pub(crate) fn open_both<R>(rt: R) -> (Arc<Filer>, Vec<MemoryLane<R>>)
where
    R: Abort + AllocGlobal + Copy + Drop,
    ensures lanes { AreLanesOf (arc_value result.0) result.1.items }
    ensures count { vec_len result.1 ≡ 2 }
{
    let room = Vec::with_capacity(rt.alloc(), 2).expect(&rt, "no memory");
    let layout = layout(&rt);
    match filer_lanes::open_lanes(rt, rt.alloc(), Offer::basic(), layout, [9; 8], 2, 64, room) {
        Ok(opened) => opened,
        Err(_refused) => panic!(&rt; "no memory"),
    }
}

/// Both lanes of a filer, the first first.
pub(crate) fn open_lanes<R>(rt: R) -> (MemoryLane<R>, MemoryLane<R>)
where
    R: Abort + AllocGlobal + Copy + Drop,
{
    let (_filer, mut lanes) = open_both(rt);
    let first = lanes.pop().expect(&rt, "a lane");
    let second = lanes.pop().expect(&rt, "a lane");
    (first, second)
}
