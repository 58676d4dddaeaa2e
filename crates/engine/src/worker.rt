//! What workers run and carry.

ghost use Rattle.std.specs.Prelude.{◌≡◌, ◌<◌, map, vec_len};
ghost use Rattle.std.specs.List.{slice_get};
ghost use Rattle.nfs_model.specs.Events.Refusals.{is_idle, has_empty_hand};
ghost use Rattle.engine.specs.Seen.{worker_seen};
ghost use Rattle.engine.specs.Workers.{RunSet, RunTaken, HandSet, HandTaken};

use nfs_values::{Call, Moment};
use parcels::Hand;
use scheduler::Message;
use service::{BatchInHand, Outcome};
use std::mem;

/// A message that a worker has begun.
#[derive(Drop)]
pub struct Running {
    pub message: Message<Call>,
    pub moment: Moment,
}

/// What a worker runs.
#[derive(Drop)]
pub enum WorkerRun {
    /// It runs nothing.
    Idle,
    Begun(Running),
    /// What it runs was worked, and came to this.
    Worked(Running, Outcome),
}

/// A worker.
#[derive(Drop)]
pub struct Worker {
    pub run: WorkerRun,
    /// What it carries between the parts of a volume.
    pub hand: BatchInHand,
}

/// Whether a worker is there and runs nothing.
pub(crate) fn is_idle(workers: &[Worker], worker: usize) -> bool
    ensures { result ≡ is_idle (slice_get (map worker_seen workers.now) worker) }
{
    match workers.get(worker) {
        Some(
            Worker {
                run: WorkerRun::Idle,
                ..
            },
        ) => true,
        _ => false,
    }
}

/// Whether a worker is there and carries nothing.
pub(crate) fn has_empty_hand(workers: &[Worker], worker: usize) -> bool
    ensures { result ≡ has_empty_hand (slice_get (map worker_seen workers.now) worker) }
{
    match workers.get(worker) {
        Some(found) => matches!(found.hand.hand(), Hand::Empty),
        None => false,
    }
}

/// Lets a worker run this.
pub(crate) fn set_run(workers: &mut Vec<Worker>, worker: usize, now: WorkerRun)
    requires { worker < vec_len workers.old }
    ensures { RunSet workers.old worker now workers.new }
{
    drop(mem::replace(&mut workers[worker].run, now));
}

/// Takes what a worker runs: then it runs nothing.
pub(crate) fn take_run(workers: &mut Vec<Worker>, worker: usize) -> WorkerRun
    requires { worker < vec_len workers.old }
    ensures { RunTaken workers.old worker result workers.new }
{
    mem::replace(&mut workers[worker].run, WorkerRun::Idle)
}

/// Lets a worker carry this.
pub(crate) fn set_hand(workers: &mut Vec<Worker>, worker: usize, now: BatchInHand)
    requires { worker < vec_len workers.old }
    ensures { HandSet workers.old worker now workers.new }
{
    drop(mem::replace(&mut workers[worker].hand, now));
}

/// Takes what a worker carries: then its hand is empty.
pub(crate) fn take_hand(workers: &mut Vec<Worker>, worker: usize) -> BatchInHand
    requires { worker < vec_len workers.old }
    ensures { HandTaken workers.old worker result workers.new }
{
    mem::replace(&mut workers[worker].hand, BatchInHand::new(Hand::Empty))
}
