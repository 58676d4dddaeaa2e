//! The first worker of a queue.

use crate::worker::Worker;
use affinity::Layout;
use depot::Seat;
use granted_calls::shared_waiting::{Pass, SharedWaiting};
use granted_calls::{Envelope, Filer};
use service::Service;

impl Worker {
    ghost use Rattle.std.specs.Prelude.{◌≡◌, ◌+◌, None, Some};
    ghost use Rattle.depot.specs.Words.{view, splits_left, IsSeatHere};
    ghost use Rattle.nfs_model.specs.Parts as parts;
    ghost use Rattle.granted_calls.specs.shared_waiting.Passes.{known, IsOf};
    ghost use Rattle.granted_calls.specs.Filers.{layout_in, layout_known};
    ghost use Rattle.turns.specs.Words.{passed, seat_view, seats_in};
    ghost use Rattle.granted_calls.specs.Filers.{verifier_in, HasDoneNothing, IsReady};
    ghost use Rattle.turns.specs.Words.{IsAt};

    /// A worker with a filer's first seat, as `Filer::new` answers it, and a pass of a queue of the
    /// filer's layout. It has done nothing, carries nothing and keeps nothing.
    pub fn start(
        filer: &Filer,
        queue: &SharedWaiting<Envelope, Layout>,
        seat: Seat<Service>,
        pass: Pass<Envelope, Layout>,
    ) -> Worker
        requires seat { IsSeatHere filer.now.depot seat }
        requires ready { IsReady (layout_in filer.now) (verifier_in filer.now) (view seat) }
        requires pass { IsOf queue.now pass }
        requires layout { layout_known (known pass) ≡ Some (layout_in filer.now) }
        requires nothing { HasDoneNothing (view seat) (known pass) }
        ensures inside { IsAt filer.now queue.now result }
        ensures seat { seat_view result ≡ view seat }
        ensures seats { seats_in result ≡ splits_left seat + 1 }
        ensures pass { passed result ≡ known pass }
        ensures hand { result.hand ≡ parts.Empty }
        ensures kept { result.kept ≡ None }
    {
        Worker::new(seat, pass)
    }
}
