//! All workers and passes of a filer, put together.

ghost use Rattle.std.specs.Prelude.{◌≡◌, ℕ, All};
ghost use Rattle.depot_rule.specs.Sums.{total};
ghost use Rattle.tends.specs.Gathered.{calls_by, IsLeftOf};
ghost use Rattle.tends.specs.Shares.{AreAll, carried_by, kept_by, put_by, picked_by};
ghost use Rattle.nfs_model.specs.Parts as parts;
ghost use Rattle.granted_calls.specs.shared_waiting.Passes.{IsOf};
ghost use Rattle.granted_calls.specs.Balance.{Weight, by_key};
ghost use Rattle.turns.specs.Words.{seats_in, IsIn};

use crate::draining::drain;
use crate::gathered::Gathered;
use crate::joining::{begin, join_all, join_passes};
use crate::left::Left;
use crate::room::Room;
use affinity::Layout;
use granted_calls::shared_waiting::Pass;
use granted_calls::{Envelope, Filer};
use std::sync::Wait;
use turns::Worker;

/// Puts all workers of a filer together, and all passes of those that only put messages, and picks
/// what waits. The seats are all 64 of the depot, and the shares of the passes are the whole. Each
/// message that those passes put was finished, is kept or waits, once for each time that it was
/// put. It takes no memory.
pub fn gather<R: Wait>(
    filer: &Filer,
    rt: &R,
    mut workers: Vec<Worker>,
    passes: Vec<Pass<Envelope, Layout>>,
    room: Room,
) -> Left
    requires workers { All (IsIn filer.now) workers.items }
    requires passes { All (IsOf filer.now.waiting) passes.items }
    requires seats { total seats_in workers.items ≡ 64 }
    requires whole { AreAll workers.items passes.items }
    requires readers { (weight : Weight) → total (picked_by weight) passes.items ≡ 0 }
    ensures left { IsLeftOf filer.now result }
    ensures calls { (weight : Weight)
        → total (put_by weight) passes.items ≡ calls_by weight result }
    ensures hands { (weigh : parts.Hand → ℕ)
        → total weigh result.hands.items ≡ total (carried_by weigh) workers.items }
    ensures kept { (weight : Weight)
        → total (by_key weight) result.kept.items ≡ total (kept_by weight) workers.items }
{
    let Room {
        hands,
        kept,
        waiting,
    } = room;
    let worker = match workers.pop() {
        Some(worker) => worker,
        None => unreachable!(),
    };
    let first = begin(filer, worker, hands, kept);
    let Gathered {
        seat,
        pass,
        hands,
        kept,
    } = join_all(filer, first, workers);
    let queue = filer.waiting();
    let pass = join_passes(queue, pass, passes);
    let waiting = drain(queue, rt, pass, waiting);
    Left {
        seat,
        hands,
        kept,
        waiting,
    }
}
