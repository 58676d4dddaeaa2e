//! Workers that threads give back.

ghost use Rattle.std.specs.Prelude.{◌≡◌, ◌≤◌, ◌+◌, ℕ, All, vec_len, vec_capacity};
ghost use Rattle.depot_rule.specs.Sums.{total};
ghost use Rattle.tends.specs.Shares.{share_of};
ghost use Rattle.workers.specs.Threads.{seats_with, share_with, HasLentBack, PutsInto, ServesIn};
ghost use Rattle.granted_calls.specs.SharedOutboxes.{IsOf};
ghost use Rattle.turns.specs.Words.{seats_in, IsIn};
ghost use Rattle.granted_calls.specs.declared.shared.Filer.{Filer};

use crate::pool_worker::PoolWorker;
use crate::task::Thread;
use granted_calls::{OutboxesPass, SharedOutboxes};
use std::thread::Threads;
use turns::Worker;

/// The workers, and those that the threads give back; and the pass of the outboxes, with those that
/// they give back joined to it.
pub(crate) fn collect<R: Threads>(
    rt: &R,
    outboxes: &SharedOutboxes,
    mut pass: OutboxesPass,
    mut threads: Vec<Thread>,
    mut workers: Vec<Worker>,
) -> (Vec<Worker>, OutboxesPass)
    requires room { vec_len workers + vec_len threads ≤ vec_capacity workers }
    requires of { IsOf outboxes.now pass }
    requires put { All (PutsInto outboxes.now) threads.items }
    ensures inside { (filer : Filer) → All (ServesIn filer) threads.items
        → All (IsIn filer) workers.items → All (IsIn filer) result.0.items }
    ensures len { vec_len result.0 ≡ vec_len workers + vec_len threads }
    ensures seats { total seats_in result.0.items
        ≡ total seats_in workers.items + total seats_with threads.items }
    ensures share { (k : ℕ) → total (share_of k) result.0.items
        ≡ total (share_of k) workers.items + total (share_with k) threads.items }
    ensures of { IsOf outboxes.now result.1 }
    ensures lent { HasLentBack pass threads.items result.1 }
{
    while let Some(thread) = threads.pop() {
        let PoolWorker { worker, pass: own } = thread.join(rt);
        workers.push_reserved(worker);
        pass = outboxes.join_pass(pass, own);
    }
    (workers, pass)
}
