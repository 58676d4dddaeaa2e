//! A filer that is opened, with its lanes.

ghost use Rattle.std.specs.Prelude.{◌≡◌, ◌≤◌, ◌<◌, [], IfOk, vec_len, vec_capacity};
ghost use Rattle.std.specs.Arc.{arc_value};
ghost use Rattle.affinity.specs.Layout.{layout_of};
ghost use Rattle.granted_calls.specs.Filers.{layout_in, verifier_in};
ghost use Rattle.lanes.specs.Words.{identity_in, worker_in};
ghost use Rattle.filer_lanes.specs.Lanes.{AllOffer, AreLanesOf, IsLaneOf};
ghost use Rattle.filer_lanes.specs.Queues.{IsNewQueue, IsReadyLane};

use affinity::Layout;
use connections::Device;
use granted_calls::shared_waiting::{Pass, SharedWaiting};
use granted_calls::{Envelope, Filer};
use lanes::Lane;
use rpc_msg::Offer;
use std::alloc::{AllocError, Global};
use std::sync::Arc;
use turns::Worker;

/// A queue, with a pass for who puts messages and one for who picks them.
#[derive(Drop)]
pub(crate) struct Queue {
    pub(crate) queue: SharedWaiting<Envelope, Layout>,
    pub(crate) admits: Pass<Envelope, Layout>,
    pub(crate) picks: Pass<Envelope, Layout>,
}

/// An empty queue of a filer's layout.
fn open_queue(alloc: Global, filer: &Filer) -> Result<Queue, AllocError>
    ensures { IfOk result (IsNewQueue filer.now) }
{
    let (queue, pass) = SharedWaiting::new(alloc, filer.depot().layout())?;
    let (admits, picks) = queue.split_pass(pass);
    Ok(Queue {
        queue,
        admits,
        picks,
    })
}

/// A lane of a worker, this one of this many, with at most this many connections open.
fn open_lane<D, R>(
    rt: R,
    alloc: Global,
    filer: &Arc<Filer>,
    offer: Offer,
    queue: SharedWaiting<Envelope, Layout>,
    admits: Pass<Envelope, Layout>,
    worker: Worker,
    lane: usize,
    lanes: usize,
    most_open: usize,
) -> Result<Lane<D, R>, AllocError>
where
    D: Device + Drop,
    R: Drop,
    requires lane { lane < lanes }
    requires few { lanes ≤ 64 }
    requires ready { IsReadyLane (arc_value filer.now) queue admits worker }
    ensures of { IfOk result (λ opened. IsLaneOf (arc_value filer.now) opened) }
    ensures worker { IfOk result (λ opened. worker_in opened ≡ worker) }
    ensures identity { IfOk result (λ opened.
        identity_in opened ≡ ((lane, lanes), offer, queue)) }
{
    let filer = Arc::try_clone(filer)?;
    Ok(Lane::new(
        rt, alloc, filer, offer, queue, admits, worker, lane, lanes, most_open,
    ))
}

/// All lanes of a filer of this layout, whose writes have this verifier: so many lanes, which read
/// by what is offered, with their connections over devices of one type, of which each lane has at
/// most this many.
pub fn open_lanes<D, R>(
    rt: R,
    alloc: Global,
    offer: Offer,
    layout: Layout,
    verifier: [u8; 8],
    count: usize,
    most_open: usize,
    mut lanes: Vec<Lane<D, R>>,
) -> Result<(Arc<Filer>, Vec<Lane<D, R>>), AllocError>
where
    D: Device + Drop,
    R: Copy + Drop,
    requires count { (0 < count) × (count ≤ 64) }
    requires none { lanes.items ≡ [] }
    requires room { count ≤ vec_capacity lanes }
    ensures layout { IfOk result (λ made. layout_in (arc_value made.0) ≡ layout_of layout) }
    ensures verifier { IfOk result (λ made. verifier_in (arc_value made.0) ≡ verifier) }
    ensures lanes { IfOk result (λ made. AreLanesOf (arc_value made.0) made.1.items) }
    ensures offer { IfOk result (λ made. AllOffer offer made.1.items) }
    ensures count { IfOk result (λ made. vec_len made.1 ≡ count) }
    ensures room { IfOk result (λ made. vec_capacity made.1 ≡ vec_capacity lanes) }
{
    let (filer, seat, _pass) = Filer::new(alloc, layout, verifier)?;
    let filer = Arc::new(alloc, filer)?;
    let Queue {
        queue,
        admits,
        picks,
    } = open_queue(alloc, &filer)?;
    let mut worker = Worker::start(&filer, &queue, seat, picks);
    for index in 1..count {
        let Queue {
            queue: theirs,
            admits: puts,
            picks: takes,
        } = open_queue(alloc, &filer)?;
        let (first, second) = worker.split_with(&filer, &queue, &theirs, takes);
        worker = first;
        let lane = open_lane(
            rt, alloc, &filer, offer, theirs, puts, second, index, count, most_open,
        )?;
        lanes.push_reserved(lane);
    }
    let lane = open_lane(
        rt, alloc, &filer, offer, queue, admits, worker, 0, count, most_open,
    )?;
    lanes.push_reserved(lane);
    Ok((filer, lanes))
}
