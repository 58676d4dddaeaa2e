//! Messages that are put by another pass, beside a worker's own.

use crate::worker::Worker;
use affinity::Layout;
use granted_calls::Envelope;
use granted_calls::shared_waiting::{Pass, SharedWaiting};
use std::sync::Wait;

impl Worker {
    ghost use Rattle.std.specs.Prelude.{◌≡◌, MatchResult};
    ghost use Rattle.crossbeam_queue.specs.Fifo.{Held};
    ghost use Rattle.granted_calls.specs.shared_waiting.Balance.{added, both, FitsIn, Leaves};
    ghost use Rattle.granted_calls.specs.shared_waiting.Passes.{known, IsOf};
    ghost use Rattle.granted_calls.specs.Messages.{Fits};
    ghost use Rattle.turns.specs.Words.{passed, IsSameWorker, TakesFrom};

    /// Puts a message into a queue by another pass. It comes back only where 1,024 were there by
    /// that pass and the worker's: where as many wait as the queue has places, if nobody else has
    /// a pass.
    pub fn admit_beside<R: Wait>(
        &mut self,
        queue: &SharedWaiting<Envelope, Layout>,
        other: &mut Pass<Envelope, Layout>,
        rt: &R,
        message: Envelope,
    ) -> Result<(), Envelope>
        requires of { IsOf queue.now other.old × TakesFrom queue.now self.old }
        requires key { (passed self.old).key ≡ (known other.old).key }
        requires fits { FitsIn Fits (known other.old).key message }
        ensures of { IsOf queue.now other.new × TakesFrom queue.now self.new }
        ensures same { IsSameWorker self.old self.new }
        ensures rule { MatchResult result
            (λ _. known other.new ≡ added (known other.old) message)
            (λ back. (back ≡ message) × (known other.new ≡ known other.old)
            × Held 1024 (Leaves (both (known other.old) (passed self.old)))) }
    {
        queue.admit_beside(rt, other, &mut self.pass, message)
    }
}
