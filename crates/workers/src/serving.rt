//! The loop of a worker's thread.

ghost use Rattle.workers.specs.Heirs.{IsPoolHeir, ServesAt};

use crate::pool_worker::PoolWorker;
use crate::round::{RoundState, round};
use crate::stop_word::StopWord;
use granted_calls::{Filer, Gate, SharedOutboxes};
use nfs_values::Moment;
use std::rt::Clock;
use std::sync::Wait;
use tends::time_now;

/// Runs a worker, round for round, until its thread is told to stop.
pub(crate) fn run_rounds<R: Wait + Clock, G: Gate>(
    rt: &R,
    filer: &Filer,
    outboxes: &SharedOutboxes,
    stop: &StopWord,
    gate: &G,
    work: PoolWorker,
) -> PoolWorker
    requires { ServesAt filer.now outboxes.now work }
    ensures at { ServesAt filer.now outboxes.now result }
    ensures heir { IsPoolHeir work result }
{
    let PoolWorker {
        mut worker,
        mut pass,
    } = work;
    let mut state = RoundState::new();
    let mut moment = Moment::START;
    for _ in rt.forever() {
        if stop.is_set() {
            break;
        }
        moment = time_now(rt, moment);
        worker = round(
            rt, filer, outboxes, gate, worker, &mut pass, moment, &mut state,
        );
    }
    PoolWorker { worker, pass }
}
