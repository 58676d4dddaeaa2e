//! What a worker's thread does for no message.

ghost use Rattle.workers.specs.Heirs.{IsHeir};
ghost use Rattle.tends.specs.Rests.{HasTended};
ghost use Rattle.granted_calls.specs.Filers.{layout_in};
ghost use Rattle.turns.specs.Words.{IsIn};

use granted_calls::Filer;
use tends::{Found, Tending, found_by};
use turns::Worker;

/// Makes the worker's next tend, and counts it.
pub(crate) fn tend(filer: &Filer, worker: Worker, tending: &mut Tending) -> (Worker, Found)
    requires { IsIn filer.now worker }
    ensures inside { IsIn filer.now result.0 }
    ensures heir { IsHeir worker result.0 }
    ensures tended { HasTended (layout_in filer.now)
        worker tending.old result.1 result.0 tending.new }
{
    let mut worker = worker;
    let empty = worker.has_empty_hand();
    let next = worker.next_tend(filer, tending.made);
    let found = found_by(worker.tend_in(filer, filer.waiting(), next));
    tending.count(empty, found);
    (worker, found)
}
