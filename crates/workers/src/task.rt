//! A thread of a worker.

ghost use Rattle.std.specs.Prelude.{◌≡◌, IfOk};
ghost use Rattle.std.specs.Arc.{arc_value};
ghost use Rattle.workers.specs.Heirs.{IsPoolHeir, ServesAt};

use crate::commons::Commons;
use crate::pool_worker::PoolWorker;
use crate::serving::run_rounds;
use granted_calls::{Filer, Gate, SharedOutboxes};
use std::rt::Clock;
use std::snapshot::Snapshot;
use std::sync::{Arc, Wait};
use std::thread;
use std::thread::{Promise, PromisedHandle, Threads};
use tends::StartRefusal;

/// A worker, and what it shares with others.
#[derive(Drop)]
pub(crate) struct WorkerStart {
    pub(crate) commons: Commons,
    pub(crate) work: PoolWorker,
}

/// The worker that comes back is of the same filer, and has the seats and the share of the right
/// to know the queue that this one has; and its pass is of the same outboxes, with as much of the
/// right to know these.
#[derive(Drop)]
pub struct Serves {
    pub filer: Snapshot<Arc<Filer>>,
    pub outboxes: Snapshot<Arc<SharedOutboxes>>,
    pub work: Snapshot<PoolWorker>,
}

impl Promise<PoolWorker> for Serves {
    ghost use Rattle.std.specs.Arc.{arc_value};
    ghost use Rattle.workers.specs.Heirs.{IsPoolHeir, ServesAt};

    ghost kept_by = { λ p w. ServesAt (arc_value p.filer.value) (arc_value p.outboxes.value) w
        × IsPoolHeir p.work.value w };
}

/// A thread that runs a worker, and gives it back.
pub(crate) type Thread = PromisedHandle<PoolWorker, Serves>;

/// Runs the worker until its thread is told to stop.
fn run<R: Wait + Clock, G: Gate>(rt: &R, gate: &G, task: WorkerStart) -> PoolWorker
    requires { ServesAt (arc_value task.commons.filer) (arc_value task.commons.outboxes) task.work }
    ensures at { ServesAt (arc_value task.commons.filer) (arc_value task.commons.outboxes) result }
    ensures heir { IsPoolHeir task.work result }
{
    let WorkerStart { commons, work } = task;
    run_rounds(
        rt,
        &commons.filer,
        &commons.outboxes,
        &commons.stop,
        gate,
        work,
    )
}

/// Starts a thread for a worker, where one can be made.
pub(crate) fn start_one<R, G>(rt: R, gate: G, task: WorkerStart) -> Result<Thread, StartRefusal>
where
    R: Threads + Wait + Clock + Copy + Drop + Send + 'static,
    G: Gate + Drop + Send + 'static,
    requires { ServesAt (arc_value task.commons.filer) (arc_value task.commons.outboxes) task.work }
    ensures filer { IfOk result (λ thread. thread.promise.filer.value ≡ task.commons.filer) }
    ensures outboxes { IfOk result
        (λ thread. thread.promise.outboxes.value ≡ task.commons.outboxes) }
    ensures work { IfOk result (λ thread. thread.promise.work.value ≡ task.work) }
{
    let promise = Serves {
        filer: Snapshot::of(&task.commons.filer),
        outboxes: Snapshot::of(&task.commons.outboxes),
        work: Snapshot::of(&task.work),
    };
    let started = thread::spawn_with(
        &rt,
        promise,
        move || -> PoolWorker
            requires { ServesAt (arc_value task.commons.filer) (arc_value task.commons.outboxes)
                task.work }
            ensures { ServesAt (arc_value task.commons.filer) (arc_value task.commons.outboxes)
                result × IsPoolHeir task.work result }
        {
            let task = task;
            run(&rt, &gate, task)
        },
    );
    started.map_err(|_refused| StartRefusal::NoThread)
}
