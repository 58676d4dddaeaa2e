//! Messages that are put into a queue which has a place for them.

ghost use Rattle.std.specs.Prelude.{◌≡◌};
ghost use Rattle.crossbeam_queue.specs.Fifo.{Held};
ghost use Rattle.granted_calls.specs.shared_waiting.Balance.{added, both, FitsIn, Leaves};
ghost use Rattle.granted_calls.specs.shared_waiting.Passes.{known, IsOf};
ghost use Rattle.granted_calls.specs.Messages.{Fits};
ghost use Rattle.turns.specs.Words.{passed, IsSameWorker, TakesFrom};

use affinity::Layout;
use granted_calls::Envelope;
use granted_calls::shared_waiting::{Pass, SharedWaiting};
use std::sync::Wait;
use turns::Worker;

/// Puts a message by one of two passes, which are all that there are. As both know, the queue has
/// a place.
fn put_beside<R: Wait>(
    queue: &SharedWaiting<Envelope, Layout>,
    pass: &mut Pass<Envelope, Layout>,
    worker: &mut Worker,
    rt: &R,
    message: Envelope,
)
    requires of { IsOf queue.now pass.old × TakesFrom queue.now worker.old }
    requires key { (passed worker.old).key ≡ (known pass.old).key }
    requires fits { FitsIn Fits (known pass.old).key message }
    requires place { Held 1024 (Leaves (both (known pass.old) (passed worker.old))) → ⊥ }
    ensures of { IsOf queue.now pass.new × TakesFrom queue.now worker.new }
    ensures put { known pass.new ≡ added (known pass.old) message }
    ensures same { IsSameWorker worker.old worker.new }
{
    match worker.admit_beside(queue, pass, rt, message) {
        Ok(()) => {}
        Err(_full) => unreachable!(),
    }
}

/// `put_beside`, where the one pass is tried alone first, which is less work.
pub(crate) fn put_last<R: Wait>(
    queue: &SharedWaiting<Envelope, Layout>,
    pass: &mut Pass<Envelope, Layout>,
    worker: &mut Worker,
    rt: &R,
    message: Envelope,
)
    requires of { IsOf queue.now pass.old × TakesFrom queue.now worker.old }
    requires key { (passed worker.old).key ≡ (known pass.old).key }
    requires fits { FitsIn Fits (known pass.old).key message }
    requires place { Held 1024 (Leaves (both (known pass.old) (passed worker.old))) → ⊥ }
    ensures of { IsOf queue.now pass.new × TakesFrom queue.now worker.new }
    ensures put { known pass.new ≡ added (known pass.old) message }
    ensures same { IsSameWorker worker.old worker.new }
{
    match queue.admit(rt, pass, message) {
        Ok(()) => {}
        Err(message) => put_beside(queue, pass, worker, rt, message),
    }
}
