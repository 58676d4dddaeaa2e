//! Messages that wait again.

ghost use Rattle.std.specs.Prelude.{◌≡◌, MatchResult};
ghost use Rattle.crossbeam_queue.specs.Fifo.{Held};
ghost use Rattle.granted_calls.specs.shared_waiting.Balance.{added, FitsIn, Leaves};
ghost use Rattle.granted_calls.specs.shared_waiting.Passes.{known, IsOf};

use granted_calls::shared_waiting::{Fitting, Pass, SharedWaiting};
use std::sync::Wait;

/// Puts a message back into a shared queue, behind all others. It is answered only where 1,024 were
/// there at one moment of the call; its worker then keeps it for its next turn.
pub fn put_back<T: Fitting<K> + Drop, K: Drop, R: Wait>(
    queue: &SharedWaiting<T, K>,
    rt: &R,
    pass: &mut Pass<T, K>,
    message: T,
) -> Result<(), T>
    requires of { IsOf queue.now pass.old }
    requires fits { FitsIn T.fits (known pass.old).key message }
    ensures of { IsOf queue.now pass.new }
    ensures rule { MatchResult result
        (λ _. known pass.new ≡ added (known pass.old) message)
        (λ back. (back ≡ message) × (known pass.new ≡ known pass.old)
        × Held 1024 (Leaves (known pass.old))) }
{
    queue.admit(rt, pass, message)
}
