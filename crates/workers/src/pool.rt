//! A pool.

ghost use Rattle.std.specs.Prelude.{◌≡◌, ◌≤◌, [], All, IfOk, vec_len, vec_capacity};
ghost use Rattle.std.specs.Arc.{arc_value};
ghost use Rattle.depot_rule.specs.Sums.{total};
ghost use Rattle.workers.specs.Threads.{seats_with, PutsInto, ServesIn};
ghost use Rattle.granted_calls.specs.SharedOutboxes.{IsOf};

use crate::collecting::collect;
use crate::commons::Commons;
use crate::splits::{first_worker, split_workers};
use crate::starting::start_all;
use crate::stop_word::StopWord;
use crate::task::Thread;
use affinity::Layout;
use depot::Seat;
use granted_calls::shared_waiting::Pass;
use granted_calls::{Envelope, Filer, Gate, OutboxesPass, SharedOutboxes};
use std::alloc::{AllocError, Global};
use std::rt::Clock;
use std::sync::{Arc, Wait};
use std::thread::Threads;
use tends::{Left, Room, StartRefusal, gather};
use turns::{Service, Worker};

/// The most threads of a pool.
const MOST_THREADS: usize = 64;

/// Threads, each of which runs a worker of a filer, and room for all that they leave. They have all
/// seats of the filer's depot between them, and put their answers into the same outboxes. Dropped
/// without `stop`, they run on.
pub struct Pool {
    filer: Arc<Filer>,
    outboxes: Arc<SharedOutboxes>,
    stop: Arc<StopWord>,
    threads: Vec<Thread>,
    workers: Vec<Worker>,
    pass: OutboxesPass,
    room: Room,
    ghost none_back: { workers.items ≡ [] },
    ghost for_all: { vec_len threads ≤ vec_capacity workers },
    ghost serve: { All (ServesIn (arc_value filer)) threads.items },
    ghost put: { All (PutsInto (arc_value outboxes)) threads.items },
    ghost of: { IsOf (arc_value outboxes) pass },
    ghost seats: { total seats_with threads.items ≡ 64 },
}

// By hand, so that crates above have no proof of the drop of each of its parts.
impl Drop for Pool {
    fn drop(self) {
        let Pool {
            filer: _,
            outboxes: _,
            stop: _,
            threads: _,
            workers: _,
            pass: _,
            room: _,
        } = self;
    }
}

/// What a pool has beside its workers.
#[derive(Drop)]
struct Supplies {
    commons: Commons,
    threads: Vec<Thread>,
    workers: Vec<Worker>,
    room: Room,
}

/// What a pool has beside its workers, before it starts.
fn supply(
    alloc: Global,
    filer: &Arc<Filer>,
    outboxes: &Arc<SharedOutboxes>,
) -> Result<Supplies, AllocError>
    ensures filer { IfOk result (λ s. arc_value s.commons.filer ≡ arc_value filer.now) }
    ensures outboxes { IfOk result (λ s. arc_value s.commons.outboxes ≡ arc_value outboxes.now) }
    ensures none { IfOk result (λ s. (s.threads.items ≡ []) × (s.workers.items ≡ [])) }
    ensures room { IfOk result (λ s. (64 ≤ vec_capacity s.threads)
        × (64 ≤ vec_capacity s.workers)) }
{
    let Ok(stop) = Arc::new(alloc, StopWord::new()) else {
        return Err(AllocError);
    };
    let commons = Commons {
        filer: filer.clone()?,
        outboxes: outboxes.clone()?,
        stop,
    };
    Ok(Supplies {
        commons,
        threads: Vec::with_capacity(alloc, MOST_THREADS)?,
        workers: Vec::with_capacity(alloc, MOST_THREADS)?,
        room: Room::new(alloc)?,
    })
}

impl Pool {
    ghost use Rattle.std.specs.Prelude.{◌<◌, None, Some};
    ghost use Rattle.depot.specs.Words.{view, splits_left, HasNoGrant, IsSeatHere};
    ghost use Rattle.depot_rule.specs.History.{entries_of, AreHands};
    ghost use Rattle.tends.specs.Gathered.{calls_by, IsLeftOf};
    ghost use Rattle.workers.specs.Pools.{filer_of, outboxes_of, HasBetween, HasAllWith};
    ghost use Rattle.workers.specs.Pools.{HasLentAllOf, HasLentBetween};
    ghost use Rattle.tends.specs.Shares.{put_by, picked_by};
    ghost use Rattle.granted_calls.specs.Balance.{IsEven, Weight};
    ghost use Rattle.turns.specs.Jobs.{job_takes, job_gives};
    ghost use Rattle.granted_calls.specs.Filers.{layout_in, layout_known, verifier_in, HasOpened};
    ghost use Rattle.granted_calls.specs.shared_waiting.Passes as queues;
    ghost use Rattle.granted_calls.specs.shared_waiting.Passes.{known};

    /// Starts 1 to 64 threads, each with a worker. Their seats and passes are the seat and the pass
    /// that are handed in, or split from these, and none is left over; so are the passes by which
    /// they put their answers into the outboxes, of which the pool keeps one. Where a thread can't
    /// be started all that were have ended; of the filer nothing can be done then but to drop it.
    pub fn start<R, G>(
        rt: R,
        alloc: Global,
        filer: &Arc<Filer>,
        outboxes: &Arc<SharedOutboxes>,
        gate: &G,
        seat: Seat<Service>,
        pass: Pass<Envelope, Layout>,
        lent: OutboxesPass,
        count: usize,
    ) -> Result<Pool, StartRefusal>
    where
        R: Threads + Wait + Clock + Copy + Drop + Send + 'static,
        G: Gate + Clone + Drop + Send + 'static,
        requires count { (0 < count) × (count ≤ 64) }
        requires seat { IsSeatHere (arc_value filer.now).depot seat
            × (splits_left seat ≡ 63) }
        requires opened { HasOpened (layout_in (arc_value filer.now))
            (verifier_in (arc_value filer.now)) (view seat) }
        requires pass { queues.IsOf (arc_value filer.now).waiting pass
            × (layout_known (known pass) ≡ Some (layout_in (arc_value filer.now))) }
        requires lent { IsOf (arc_value outboxes.now) lent }
        requires balance { IsEven (known pass) (entries_of (view seat)) None }
        requires in_hand { AreHands job_takes job_gives (entries_of (view seat)) [] }
        requires none_open { HasNoGrant seat }
        ensures filer { IfOk result (λ pool. filer_of pool ≡ arc_value filer.now) }
        ensures workers { IfOk result
            (λ pool. HasBetween (splits_left seat) (entries_of (view seat)) pass count pool) }
        ensures outboxes { IfOk result (λ pool. outboxes_of pool ≡ arc_value outboxes.now) }
        ensures lent { IfOk result (HasLentBetween lent count) }
    {
        let Ok(supplies) = supply(alloc, filer, outboxes) else {
            return Err(StartRefusal::NoMemory);
        };
        let Supplies {
            commons,
            mut threads,
            workers,
            room,
        } = supplies;
        let worker = first_worker(filer, seat, pass);
        let mut workers = split_workers(filer, worker, count, workers);
        let (pass, refusal) = start_all(rt, &commons, gate, &mut workers, lent, &mut threads);
        match refusal {
            None => {
                let Commons {
                    filer,
                    outboxes,
                    stop,
                } = commons;
                Ok(Pool {
                    filer,
                    outboxes,
                    stop,
                    threads,
                    workers,
                    pass,
                    room,
                })
            }
            Some(refusal) => {
                commons.stop.set();
                let _lost = collect(&rt, &commons.outboxes, pass, threads, workers);
                Err(refusal)
            }
        }
    }

    /// Stops the threads, and gathers what their workers leave. With the passes of those that only
    /// put messages the workers have the whole right to know the queue: each message that these
    /// passes put was finished, is kept or waits, once for each time that it was put. The pass of
    /// the outboxes comes back, with all that the pool had of the right to know these.
    pub fn stop<R: Threads + Wait>(
        self,
        rt: &R,
        passes: Vec<Pass<Envelope, Layout>>,
    ) -> (Left, OutboxesPass)
        requires passes { All (queues.IsOf (filer_of self).waiting) passes.items }
        requires whole { HasAllWith self passes.items }
        requires readers { (weight : Weight) → total (picked_by weight) passes.items ≡ 0 }
        ensures left { IsLeftOf (filer_of self) result.0 }
        ensures calls { (weight : Weight)
            → total (put_by weight) passes.items ≡ calls_by weight result.0 }
        ensures of { IsOf (outboxes_of self) result.1 }
        ensures lent { HasLentAllOf self result.1 }
    {
        let Pool {
            filer,
            outboxes,
            stop,
            threads,
            workers,
            pass,
            room,
        } = self;
        stop.set();
        let (workers, pass) = collect(rt, &outboxes, pass, threads, workers);
        (gather(&filer, rt, workers, passes, room), pass)
    }
}
