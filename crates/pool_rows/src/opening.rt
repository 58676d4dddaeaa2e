//! A filer that is opened.

ghost use Rattle.depot.specs.Words.{view, splits_left, IsSeatHere};
ghost use Rattle.pool_rows.specs.Threads.{IsUnstarted};

use crate::putting::FilerPass;
use affinity::{AggregateSpec, Layout, VolumeSpec};
use depot::Seat;
use granted_calls::Filer;
use std::process::Abort;
use turns::Service;

/// A filer with its only seat and a pass, before any worker runs, and the pass of who puts
/// messages.
#[derive(Drop)]
pub(crate) struct Opened {
    pub(crate) filer: Filer,
    pub(crate) seat: Seat<Service>,
    pub(crate) pass: FilerPass,
    pub(crate) reader: FilerPass,
}

/// Two volumes on an aggregate with one spare range: one of 8 stripes and one range, and one of 16
/// stripes and two ranges.
fn layout(rt: &(impl Abort + AllocGlobal)) -> Layout {
    let eight = VolumeSpec::new(0, 1);
    let sixteen = VolumeSpec {
        aggregate: 0,
        ranges: 2,
        stripes: 16,
        mib: 64,
    };
    let made = Layout::new(rt.alloc(), &[AggregateSpec { spare: 1 }], &[eight, sixteen]);
    made.ok().expect(rt, "a layout")
}

/// A filer before any worker runs. Its write verifier is eight nines.
pub(crate) fn open(rt: &(impl Abort + AllocGlobal)) -> Opened
    ensures seat { IsSeatHere result.filer.depot result.seat }
    ensures opened { IsUnstarted result.filer (view result.seat) (splits_left result.seat)
        result.pass result.reader }
{
    let made = Filer::new(rt.alloc(), layout(rt), [9; 8]);
    let (filer, seat, pass) = made.expect(rt, "no memory");
    let (pass, reader) = filer.waiting().split_pass(pass);
    Opened {
        filer,
        seat,
        pass,
        reader,
    }
}
