//! 64 seats on 64 threads, each of which makes 1,000 attempts at nodes of the whole tree.

ghost use Rattle.std.specs.Prelude.{◌≡◌, [], IfOk, IfSome};
ghost use Rattle.depot.specs.Words.{IsSeatHere};
ghost use Rattle.depot_rows.specs.Counting.{made_by};

use crate::counters::{Made, attempt_any};
use crate::trial::same;
use affinity::Affinity;
use depot::trial::adding::{Adding, all_of, volumes};
use depot::{Depot, Seat};
use parcels::SerialNode;
use std::alloc::{AllocError, Global};
use std::process::Abort;
use std::sync::atomic::{AtomicU64, Ordering};
use std::thread::Threads;
use std::{mem, thread};

/// How many seats there are, each on a thread of its own.
const SEATS: u64 = 64;

/// How many attempts each thread makes.
const ATTEMPTS: u64 = 1000;

/// The root, an aggregate, and for each of two volumes itself, its names, its block numbers, 8
/// stripes and 16 ranges.
const NODES: usize = 56;

/// By how many nodes a thread goes on from one attempt to the next.
const STRIDES: [u64; 8] = [1, 3, 5, 9, 11, 13, 15, 17];

/// How often a thread looks whether all the others have come.
const LOOKS: u32 = 100_000;

/// What a thread is given: a seat that has finished nothing.
#[derive(Drop)]
struct Job<'a> {
    alloc: Global,
    depot: &'a Depot<Adding>,
    // How many threads have come.
    came: &'a AtomicU64,
    number: u64,
    seat: Seat<Adding>,
    ghost here: { IsSeatHere depot.now seat },
    ghost nothing: { made_by seat ≡ [] },
}

/// What a thread gives back: its seat, and the calls that this finished, in their order.
#[derive(Drop)]
struct Done<'a> {
    depot: &'a Depot<Adding>,
    seat: Seat<Adding>,
    made: Vec<Made>,
    ghost here: { IsSeatHere depot.now seat },
    ghost own: { made_by seat ≡ made.items },
}

/// A depot of two volumes in which each parcel is 0, and its first seat.
fn open_depot(alloc: Global) -> Option<(Depot<Adding>, Seat<Adding>)>
    ensures here { IfSome result (λ made. IsSeatHere made.0 made.1) }
    ensures nothing { IfSome result (λ made. made_by made.1 ≡ []) }
{
    let layout = volumes::<2>(alloc)?;
    let Ok(parcels) = all_of(alloc, &layout, 0) else {
        return None;
    };
    match Depot::<Adding>::new::<SerialNode>(alloc, layout, parcels) {
        Ok(made) => Some(made),
        Err(_parcels) => None,
    }
}

/// Splits a seat that has finished nothing into two of that kind.
fn split(depot: &Depot<Adding>, seat: Seat<Adding>) -> Option<(Seat<Adding>, Seat<Adding>)>
    requires here { IsSeatHere depot.now seat }
    requires nothing { made_by seat ≡ [] }
    ensures first { IfSome result (λ two. IsSeatHere depot.now two.0) }
    ensures second { IfSome result (λ two. IsSeatHere depot.now two.1) }
    ensures nothing { IfSome result (λ two. (made_by two.0 ≡ []) × (made_by two.1 ≡ [])) }
{
    match depot.split_seat(seat) {
        Ok(two) => Some(two),
        Err(_refused) => None,
    }
}

/// A job for each thread.
fn jobs_of<'a>(
    rt: &impl Abort,
    alloc: Global,
    depot: &'a Depot<Adding>,
    came: &'a AtomicU64,
    seat: Seat<Adding>,
) -> Vec<Job<'a>>
    requires here { IsSeatHere depot.now seat }
    requires nothing { made_by seat ≡ [] }
{
    let mut jobs = Vec::new(alloc);
    let mut rest = seat;
    for number in 1..SEATS {
        let (first, seat) = split(depot, rest).expect(rt, "no split is left");
        let job = Job {
            alloc,
            depot,
            came,
            number,
            seat,
        };
        jobs.push(job).expect(rt, "no memory");
        rest = first;
    }
    let job = Job {
        alloc,
        depot,
        came,
        number: 0,
        seat: rest,
    };
    jobs.push(job).expect(rt, "no memory");
    jobs
}

/// Where a thread makes an attempt. All nodes of the tree take turns, in an order that is another
/// for each thread.
fn node_of(depot: &Depot<Adding>, thread: u64, attempt: u64) -> Affinity {
    let layout = depot.layout();
    let stride = STRIDES[(thread % 8) as usize];
    let place = thread
        .wrapping_mul(7)
        .wrapping_add(attempt.wrapping_mul(stride));
    let number = (place % NODES as u64) as usize + 1;
    if number > layout.node_count() {
        return Affinity::Serial;
    }
    layout.affinity_at(number)
}

/// Makes the attempts of a thread. Gives the calls that were finished.
fn attempts(
    depot: &Depot<Adding>,
    seat: &mut Seat<Adding>,
    alloc: Global,
    thread: u64,
) -> Result<Vec<Made>, AllocError>
    requires here { IsSeatHere depot.now seat.old }
    requires nothing { made_by seat.old ≡ [] }
    ensures here { IsSeatHere depot.now seat.new }
    ensures own { IfOk result (λ made. made_by seat.new ≡ made.items) }
{
    let mut made = Vec::new(alloc);
    for attempt in 0..ATTEMPTS {
        let affinity = node_of(depot, thread, attempt);
        if let Ok(call) = attempt_any(depot, seat, affinity, false) {
            made.push(call)?;
        }
    }
    Ok(made)
}

/// Waits until all threads have come, but not for ever.
fn wait_for_all(came: &AtomicU64) {
    came.fetch_add(1, Ordering::SeqCst);
    for _ in 0..LOOKS {
        if came.load(Ordering::SeqCst) >= SEATS {
            return;
        }
        thread::yield_now();
    }
}

impl<'a> Job<'a> {
    /// The work of a thread. Nothing where memory ran out.
    fn run(self) -> Option<Done<'a>> {
        let Job {
            alloc,
            depot,
            came,
            number,
            mut seat,
        } = self;
        wait_for_all(came);
        match attempts(depot, &mut seat, alloc, number) {
            Ok(made) => Some(Done { depot, seat, made }),
            Err(_refused) => None,
        }
    }
}

/// Runs all jobs, each on a thread of its own.
fn run_all<'a, R: Threads + Sync>(
    rt: &R,
    jobs: Vec<Job<'a>>,
) -> Result<Vec<Option<Done<'a>>>, AllocError> {
    thread::map_vec(rt, jobs, &|job: Job| job.run())
}

/// The calls on a node: how many there were, and the sum of their replies.
#[derive(Clone, Copy)]
struct Counted {
    calls: u64,
    replies: u64,
}

const NONE: Counted = Counted {
    calls: 0,
    replies: 0,
};

/// Counts the calls of a thread by their nodes. Whether each added 1, and the replies from each
/// node rise.
fn count_calls(nodes: &mut [Counted], latest: &mut [u64], made: &[Made]) -> bool {
    for (node, added, sum) in made {
        let place = *node as usize;
        if place >= nodes.len() || place >= latest.len() {
            return false;
        }
        if *added != 1 || *sum <= latest[place] {
            return false;
        }
        latest[place] = *sum;
        nodes[place] = Counted {
            calls: nodes[place].calls.wrapping_add(1),
            replies: nodes[place].replies.wrapping_add(*sum),
        };
    }
    true
}

/// Counts the calls of all threads by their nodes.
fn count_all(rt: &impl Abort, nodes: &mut [Counted], done: &[Option<Done>]) {
    for thread in done {
        let thread = thread.as_ref().expect(rt, "no memory");
        let mut latest = [0; NODES + 1];
        assert!(rt; count_calls(nodes, &mut latest, &thread.made));
    }
}

/// Looks whether the number of a node is how many calls on it were finished, by one more call on
/// it; and whether the replies of those were all numbers up to that one.
fn look_at(rt: &impl Abort, found: Option<Made>, number: usize, counted: &Counted) {
    let (node, added, sum) = found.expect(rt, "refused");
    let wanted = (number as u64, 1, counted.calls.wrapping_add(1));
    same(rt, "one more call", &(node, added, sum), &wanted);
    let replies = counted.calls.wrapping_mul(sum) / 2;
    same(rt, "replies", &counted.replies, &replies);
}

/// Looks at the number of each node, by a seat that is left.
fn look_at_all(rt: &impl Abort, left: Done, nodes: &[Counted]) {
    let Done {
        depot,
        mut seat,
        made: _,
    } = left;
    let layout = depot.layout();
    same(rt, "nodes", &layout.node_count(), &NODES);
    for number in 1..NODES + 1 {
        assert!(rt; number <= layout.node_count());
        let counted = nodes.get(number).copied().expect(rt, "no such node");
        let found = attempt_any(depot, &mut seat, layout.affinity_at(number), false);
        look_at(rt, found.ok(), number, &counted);
    }
}

#[test]
fn sixty_four_threads(rt: HostRuntime) {
    let (depot, seat) = open_depot(rt.alloc()).expect(&rt, "no memory");
    let came = AtomicU64::new(0);
    let jobs = jobs_of(&rt, rt.alloc(), &depot, &came, seat);
    let mut done = run_all(&rt, jobs).expect(&rt, "no memory");
    same(&rt, "threads", &done.len(), &64);
    let mut nodes = [NONE; NODES + 1];
    count_all(&rt, &mut nodes, &done);
    let left = done.pop().flatten().expect(&rt, "no memory");
    look_at_all(&rt, left, &nodes);
    mem::forget(done);
    mem::forget(depot);
}
