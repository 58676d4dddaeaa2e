//! Threads that are started.

ghost use Rattle.std.specs.Prelude.{◌≡◌, ◌≤◌, ◌+◌, ℕ, [], All, None, IfOk};
ghost use Rattle.std.specs.Prelude.{vec_len, vec_capacity};
ghost use Rattle.std.specs.Arc.{arc_value};
ghost use Rattle.depot_rule.specs.Sums.{total};
ghost use Rattle.workers.specs.Heirs.{ServesAt};
ghost use Rattle.workers.specs.Threads.{lent_share_with, started_with, PutsInto, ServesIn};
ghost use Rattle.turns.specs.declared.worker.Worker.{Worker};
ghost use Rattle.granted_calls.specs.shared_waiting.Balance.{part};
ghost use Rattle.granted_calls.specs.shared_waiting.Passes.{known};
ghost use Rattle.granted_calls.specs.SharedOutboxes.{IsOf};
ghost use Rattle.turns.specs.Words.{IsIn};

use crate::commons::Commons;
use crate::pool_worker::PoolWorker;
use crate::task::{Thread, WorkerStart, start_one};
use granted_calls::{Gate, OutboxesPass};
use std::alloc::AllocError;
use std::rt::Clock;
use std::sync::Wait;
use std::thread::Threads;
use tends::StartRefusal;
use turns::Worker;

/// What a thread has beside its worker.
fn share<G: Gate + Clone>(commons: &Commons, gate: &G) -> Result<(Commons, G), AllocError>
    ensures filer { IfOk result
        (λ shared. arc_value shared.0.filer ≡ arc_value commons.now.filer) }
    ensures outboxes { IfOk result
        (λ shared. arc_value shared.0.outboxes ≡ arc_value commons.now.outboxes) }
{
    Ok((commons.another()?, gate.clone()?))
}

/// Starts a thread for a worker.
fn start_next<R, G>(
    rt: R,
    commons: &Commons,
    gate: &G,
    work: PoolWorker,
) -> Result<Thread, StartRefusal>
where
    R: Threads + Wait + Clock + Copy + Drop + Send + 'static,
    G: Gate + Clone + Drop + Send + 'static,
    requires { ServesAt (arc_value commons.now.filer) (arc_value commons.now.outboxes) work }
    ensures serve { IfOk result (ServesIn (arc_value commons.now.filer)) }
    ensures put { IfOk result (PutsInto (arc_value commons.now.outboxes)) }
    ensures work { IfOk result (λ thread. thread.promise.work.value ≡ work) }
{
    match share(commons, gate) {
        Ok((commons, gate)) => start_one(rt, gate, WorkerStart { commons, work }),
        Err(_refused) => Err(StartRefusal::NoMemory),
    }
}

/// Starts a thread for each of the workers, the last first, up to one for which none can be
/// started. Each gets a pass of the outboxes that is split from one, of which the rest comes back.
pub(crate) fn start_all<R, G>(
    rt: R,
    commons: &Commons,
    gate: &G,
    workers: &mut Vec<Worker>,
    mut pass: OutboxesPass,
    threads: &mut Vec<Thread>,
) -> (OutboxesPass, Option<StartRefusal>)
where
    R: Threads + Wait + Clock + Copy + Drop + Send + 'static,
    G: Gate + Clone + Drop + Send + 'static,
    requires inside { All (IsIn (arc_value commons.now.filer)) workers.old.items }
    requires of { IsOf (arc_value commons.now.outboxes) pass }
    requires serve { All (ServesIn (arc_value commons.now.filer)) threads.old.items }
    requires put { All (PutsInto (arc_value commons.now.outboxes)) threads.old.items }
    requires room { vec_len threads.old + vec_len workers.old ≤ vec_capacity threads.old }
    ensures of { IsOf (arc_value commons.now.outboxes) result.0 }
    ensures serve { All (ServesIn (arc_value commons.now.filer)) threads.new.items }
    ensures put { All (PutsInto (arc_value commons.now.outboxes)) threads.new.items }
    ensures len { vec_len threads.new + vec_len workers.new
        ≤ vec_len threads.old + vec_len workers.old }
    ensures room { vec_capacity workers.new ≡ vec_capacity workers.old }
    ensures none { result.1 ≡ None → workers.new.items ≡ [] }
    ensures all { result.1 ≡ None
        → vec_len threads.new ≡ vec_len threads.old + vec_len workers.old }
    ensures each { result.1 ≡ None → (f : Worker → ℕ)
        → total (λ thread. f (started_with thread)) threads.new.items
        ≡ total (λ thread. f (started_with thread)) threads.old.items + total f workers.old.items }
    ensures lent { result.1 ≡ None → (k : ℕ) → (known pass).halvings + vec_len workers.old ≤ k
        → part k (known result.0) + total (lent_share_with k) threads.new.items
        ≡ part k (known pass) + total (lent_share_with k) threads.old.items }
{
    while let Some(worker) = workers.pop() {
        let (rest, own) = commons.outboxes.split_pass(pass);
        pass = rest;
        match start_next(rt, commons, gate, PoolWorker { worker, pass: own }) {
            Ok(thread) => threads.push_reserved(thread),
            Err(refusal) => return (pass, Some(refusal)),
        }
    }
    (pass, None)
}
