//! A worker's turn.

ghost use Rattle.std.specs.Prelude.{◌≡◌};
ghost use Rattle.turns.specs.Turns.{turned_by, IsTold};

use crate::worker::Worker;
use affinity::Layout;
use depot::GrantRefusal;
use granted_calls::shared_waiting::SharedWaiting;
use granted_calls::{Envelope, Filer, Gate, Served, Turn};
use nfs_values::Moment;
use std::sync::Wait;

/// What a turn answers where the depot refused.
fn refused(refusal: GrantRefusal) -> Turn
    ensures { result ≡ turned_by refusal }
{
    match refusal {
        GrantRefusal::Busy { node, word } => Turn::Busy { node, word },
        GrantRefusal::Worn => Turn::Worn,
    }
}

/// What is kept of a message that was tried, and what its turn answers.
pub(crate) fn told(served: Served) -> (Option<Envelope>, Turn)
    ensures { IsTold served result.0 result.1 }
{
    match served {
        Served::Done(answer) => (None, Turn::Done(answer)),
        Served::Moved(message) => (Some(message), Turn::Moved),
        Served::Refused(message, refusal) => (Some(message), refused(refusal)),
    }
}

impl Worker {
    ghost use Rattle.turns.specs.Tends.{stocked_in};
    ghost use Rattle.granted_calls.specs.Served.{HasShareOf};
    ghost use Rattle.turns.specs.Turns.{Did};
    ghost use Rattle.granted_calls.specs.Filers.{layout_in};
    ghost use Rattle.turns.specs.Words.{passed, seats_in, IsAt, IsIn};

    /// Tries the call of the message that is kept, or else of the one that waits longest in a
    /// queue: begins it on what it tries, runs it, and finishes it or puts it back. A call that
    /// changes something runs no earlier than this moment, and others at just this moment.
    pub fn turn_in<R: Wait, G: Gate>(
        &mut self,
        filer: &Filer,
        queue: &SharedWaiting<Envelope, Layout>,
        rt: &R,
        gate: &G,
        moment: Moment,
    ) -> Turn
        requires { IsAt filer.now queue.now self.old }
        ensures inside { IsAt filer.now queue.now self.new }
        ensures did { Did (layout_in filer.now) self.old moment result self.new }
        ensures share { HasShareOf (passed self.old) (passed self.new) }
        ensures seats { seats_in self.new ≡ seats_in self.old }
        ensures hand { self.new.hand ≡ self.old.hand }
        ensures stocked { stocked_in self.new ≡ stocked_in self.old }
    {
        self.pick(filer, queue, rt);
        let turned = self.try_kept(filer, queue, gate, moment);
        self.put(filer, queue, rt);
        turned
    }

    /// A turn in the filer's own queue.
    pub fn turn<R: Wait, G: Gate>(
        self,
        filer: &Filer,
        rt: &R,
        gate: &G,
        moment: Moment,
    ) -> (Worker, Turn)
        requires { IsIn filer.now self }
        ensures inside { IsIn filer.now result.0 }
        ensures did { Did (layout_in filer.now) self moment result.1 result.0 }
        ensures share { HasShareOf (passed self) (passed result.0) }
        ensures seats { seats_in result.0 ≡ seats_in self }
        ensures hand { result.0.hand ≡ self.hand }
        ensures stocked { stocked_in result.0 ≡ stocked_in self }
    {
        let mut worker = self;
        let turned = worker.turn_in(filer, &filer.waiting, rt, gate, moment);
        (worker, turned)
    }
}
