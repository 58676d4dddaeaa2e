//! A worker's tend, of the filer's own queue.

ghost use Rattle.std.specs.Prelude.{◌≡◌};
ghost use Rattle.granted_calls.specs.Filers.{layout_in};
ghost use Rattle.turns.specs.Tends.{kept_in};
ghost use Rattle.turns.specs.Words.{passed, seats_in, IsIn};
ghost use Rattle.workers.specs.Counts.{TendsTo};

use granted_calls::Filer;
use turns::{Tend, TendRefusal, Worker};

/// Fetches, culls or puts down, and answers how many blocks came into the hand or were put down: at
/// most one entry more, of the inner call, and none where it is refused. It waits for nobody.
pub fn tend_turn(filer: &Filer, worker: Worker, tend: Tend) -> (Worker, Result<u32, TendRefusal>)
    requires { IsIn filer.now worker }
    ensures inside { IsIn filer.now result.0 }
    ensures tends { TendsTo (layout_in filer.now) worker tend result.1 result.0 }
    ensures pass { passed result.0 ≡ passed worker }
    ensures kept { kept_in result.0 ≡ kept_in worker }
    ensures seats { seats_in result.0 ≡ seats_in worker }
{
    let mut worker = worker;
    match worker.tend_in(filer, filer.waiting(), tend) {
        Ok(tended) => (worker, Ok(tended.count())),
        Err(refusal) => (worker, Err(refusal)),
    }
}
