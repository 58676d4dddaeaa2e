//! Workers and passes, put together.

ghost use Rattle.std.specs.Prelude.{
  ◌≡◌,
  ◌≤◌,
  ◌+◌,
  ◌++◌,
  ℕ,
  List,
  [],
  All,
  option_to_list,
  vec_len,
  vec_capacity,
};
ghost use Rattle.depot.specs.Words.{splits_left};
ghost use Rattle.depot_rule.specs.Sums.{total};
ghost use Rattle.tends.specs.Gathered.{IsGatheredIn};
ghost use Rattle.tends.specs.Shares.{AreAllWith, FilerPass};
ghost use Rattle.tends.specs.Shares.{carried_by, kept_by, put_by, picked_by};
ghost use Rattle.filer_state.specs.state.Jobs.{batches_in};
ghost use Rattle.nfs_model.specs.Parts as parts;
ghost use Rattle.granted_calls.specs.shared_waiting.Balance.{both, IsWhole};
ghost use Rattle.granted_calls.specs.shared_waiting.Passes.{known, IsOf};
ghost use Rattle.granted_calls.specs.Balance.{Weight, by_key};
ghost use Rattle.turns.specs.Words.{passed, seats_in, IsIn};

use crate::carried::{push_batch, push_kept};
use crate::gathered::Gathered;
use affinity::Layout;
use granted_calls::shared_waiting::{Pass, SharedWaiting};
use granted_calls::{Envelope, Filer};
use turns::{BatchInHand, Worker, WorkerParts};

/// One worker, as the first that is put together.
pub(crate) fn begin(
    filer: &Filer,
    worker: Worker,
    mut hands: Vec<BatchInHand>,
    mut kept: Vec<Envelope>,
) -> Gathered
    requires inside { IsIn filer.now worker }
    requires hands { (hands.items ≡ []) × (1 ≤ vec_capacity hands) }
    requires kept { (kept.items ≡ []) × (1 ≤ vec_capacity kept) }
    ensures inside { IsGatheredIn filer.now result }
    ensures seats { splits_left result.seat + 1 ≡ seats_in worker }
    ensures pass { known result.pass ≡ passed worker }
    ensures hands { result.hands.items ≡ batches_in worker.hand }
    ensures kept { result.kept.items ≡ option_to_list worker.kept }
    ensures room { (vec_capacity result.hands ≡ vec_capacity hands)
        × (vec_capacity result.kept ≡ vec_capacity kept) }
    ensures len { (vec_len result.hands ≤ 1) × (vec_len result.kept ≤ 1) }
{
    let WorkerParts {
        seat,
        pass,
        hand,
        kept: message,
    } = worker.into_parts();
    push_batch(&mut hands, hand);
    push_kept(&mut kept, message);
    Gathered {
        seat,
        pass,
        hands,
        kept,
    }
}

/// Puts one worker more to those that were put together.
fn join(filer: &Filer, gathered: Gathered, worker: Worker) -> Gathered
    requires gathered { IsGatheredIn filer.now gathered }
    requires inside { IsIn filer.now worker }
    requires room { (vec_len gathered.hands + 1 ≤ vec_capacity gathered.hands)
        × (vec_len gathered.kept + 1 ≤ vec_capacity gathered.kept) }
    ensures inside { IsGatheredIn filer.now result }
    ensures seats { splits_left result.seat ≡ splits_left gathered.seat + seats_in worker }
    ensures pass { known result.pass ≡ both (known gathered.pass) (passed worker) }
    ensures hands { result.hands.items ≡ gathered.hands.items ++ batches_in worker.hand }
    ensures kept { result.kept.items ≡ gathered.kept.items ++ option_to_list worker.kept }
    ensures room { (vec_capacity result.hands ≡ vec_capacity gathered.hands)
        × (vec_capacity result.kept ≡ vec_capacity gathered.kept) }
    ensures len { (vec_len result.hands ≤ vec_len gathered.hands + 1)
        × (vec_len result.kept ≤ vec_len gathered.kept + 1) }
{
    let Gathered {
        seat,
        pass,
        mut hands,
        mut kept,
    } = gathered;
    let WorkerParts {
        seat: other,
        pass: second,
        hand,
        kept: message,
    } = worker.into_parts();
    push_batch(&mut hands, hand);
    push_kept(&mut kept, message);
    Gathered {
        seat: filer.depot().join_seat(seat, other),
        pass: filer.waiting().join_pass(pass, second),
        hands,
        kept,
    }
}

/// Puts workers to those that were put together.
pub(crate) fn join_all(filer: &Filer, mut gathered: Gathered, mut workers: Vec<Worker>) -> Gathered
    requires gathered { IsGatheredIn filer.now gathered }
    requires inside { All (IsIn filer.now) workers.items }
    requires room { (vec_len gathered.hands + vec_len workers ≤ vec_capacity gathered.hands)
        × (vec_len gathered.kept + vec_len workers ≤ vec_capacity gathered.kept) }
    ensures inside { IsGatheredIn filer.now result }
    ensures seats { splits_left result.seat
        ≡ splits_left gathered.seat + total seats_in workers.items }
    ensures share { (passes : List FilerPass)
        → AreAllWith (known gathered.pass) workers.items passes
        → AreAllWith (known result.pass) [] passes }
    ensures hands { (weigh : parts.Hand → ℕ) → total weigh result.hands.items
        ≡ total weigh gathered.hands.items + total (carried_by weigh) workers.items }
    ensures kept { (weight : Weight) → total (by_key weight) result.kept.items
        ≡ total (by_key weight) gathered.kept.items + total (kept_by weight) workers.items }
{
    while let Some(worker) = workers.pop() {
        gathered = join(filer, gathered, worker);
    }
    gathered
}

/// Puts passes to one.
pub(crate) fn join_passes(
    waiting: &SharedWaiting<Envelope, Layout>,
    mut pass: Pass<Envelope, Layout>,
    mut passes: Vec<Pass<Envelope, Layout>>,
) -> Pass<Envelope, Layout>
    requires of { IsOf waiting.now pass }
    requires each { All (IsOf waiting.now) passes.items }
    ensures of { IsOf waiting.now result }
    ensures put { (weight : Weight)
        → put_by weight result ≡ put_by weight pass + total (put_by weight) passes.items }
    ensures picked { (weight : Weight) → picked_by weight result
        ≡ picked_by weight pass + total (picked_by weight) passes.items }
    ensures share { AreAllWith (known pass) [] passes.items → IsWhole (known result) }
{
    while let Some(next) = passes.pop() {
        pass = waiting.join_pass(pass, next);
    }
    pass
}
