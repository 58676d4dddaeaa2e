//! What waits, as a worker knows it.

use crate::worker::Worker;
use affinity::Layout;
use granted_calls::shared_waiting::{Pass, SharedWaiting};
use granted_calls::{Envelope, Filer};
use std::sync::Wait;

impl Worker {
    ghost use Rattle.std.specs.Prelude.{◌≡◌, ◌≤◌};
    ghost use Rattle.crossbeam_queue.specs.Fifo.{Held};
    ghost use Rattle.granted_calls.specs.shared_waiting.Balance.{both, Leaves};
    ghost use Rattle.granted_calls.specs.shared_waiting.Passes.{known, IsOf};
    ghost use Rattle.turns.specs.Tends.{stocked_in};
    ghost use Rattle.turns.specs.Turns.{standing_of};
    ghost use Rattle.turns.specs.Words.{passed, seats_in, IsAt};

    /// How many messages there are in a queue at one moment of the call, by the worker's pass and
    /// another: all that wait, where nobody else has a pass.
    pub fn count_beside<R: Wait>(
        &mut self,
        filer: &Filer,
        queue: &SharedWaiting<Envelope, Layout>,
        other: &mut Pass<Envelope, Layout>,
        rt: &R,
    ) -> usize
        requires inside { IsAt filer.now queue.now self.old }
        requires other { IsOf queue.now other.old }
        requires key { (known other.old).key ≡ (passed self.old).key }
        ensures inside { IsAt filer.now queue.now self.new }
        ensures other { IsOf queue.now other.new × (known other.new ≡ known other.old) }
        ensures stands { standing_of self.new ≡ standing_of self.old }
        ensures most { result ≤ 1024 }
        ensures held { Held result (Leaves (both (passed self.old) (known other.old))) }
        ensures seats { seats_in self.new ≡ seats_in self.old }
        ensures hand { self.new.hand ≡ self.old.hand }
        ensures stocked { stocked_in self.new ≡ stocked_in self.old }
    {
        queue.count_beside(rt, &mut self.pass, other)
    }
}
