//! Many workers of one seat and one pass.

ghost use Rattle.std.specs.Prelude.{◌≡◌, ◌<◌, ◌≤◌, ◌+◌, ℕ, [], None, Some, All};
ghost use Rattle.std.specs.Prelude.{vec_len, vec_capacity};
ghost use Rattle.depot_rule.specs.Sums.{total};
ghost use Rattle.tends.specs.Shares.{entries_by, picks_by, puts_by, share_of};
ghost use Rattle.granted_calls.specs.Messages as messages;
ghost use Rattle.granted_calls.specs.Balance.{FilerEntry};
ghost use Rattle.depot.specs.Words.{view, splits_left, HasNoGrant, IsSeatHere};
ghost use Rattle.depot_rule.specs.History.{entries_of, AreHands};
ghost use Rattle.granted_calls.specs.Balance.{IsEven};
ghost use Rattle.turns.specs.Jobs.{job_takes, job_gives};
ghost use Rattle.granted_calls.specs.Filers.{layout_in, layout_known, verifier_in, HasOpened};
ghost use Rattle.turns.specs.Words.{entries_in, passed, seats_in};
ghost use Rattle.turns.specs.Words.{IsIn};
ghost use Rattle.granted_calls.specs.shared_waiting.Passes.{known, IsOf};

use affinity::Layout;
use depot::Seat;
use granted_calls::shared_waiting::Pass;
use granted_calls::{Envelope, Filer};
use turns::{Service, Worker};

/// The worker of a filer's only seat and a pass of its queue.
pub(crate) fn first_worker(
    filer: &Filer,
    seat: Seat<Service>,
    pass: Pass<Envelope, Layout>,
) -> Worker
    requires seat { IsSeatHere filer.now.depot seat }
    requires opened { HasOpened (layout_in filer.now) (verifier_in filer.now) (view seat) }
    requires pass { IsOf filer.now.waiting pass }
    requires layout { layout_known (known pass) ≡ Some (layout_in filer.now) }
    requires balance { IsEven (known pass) (entries_of (view seat)) None }
    requires in_hand { AreHands job_takes job_gives (entries_of (view seat)) [] }
    requires none_open { HasNoGrant seat }
    ensures inside { IsIn filer.now result }
    ensures seats { seats_in result ≡ splits_left seat + 1 }
    ensures entries { entries_in result ≡ entries_of (view seat) }
    ensures pass { passed result ≡ known pass }
{
    Worker::new(seat, pass)
}

/// This many workers of one, with all its seats and all its share of the right to know the queue.
pub(crate) fn split_workers(
    filer: &Filer,
    mut worker: Worker,
    count: usize,
    mut into: Vec<Worker>,
) -> Vec<Worker>
    requires inside { IsIn filer.now worker }
    requires some { 0 < count }
    requires count { count ≤ seats_in worker }
    requires empty { into.items ≡ [] }
    requires room { count ≤ vec_capacity into }
    ensures inside { All (IsIn filer.now) result.items }
    ensures count { vec_len result ≡ count }
    ensures room { vec_capacity result ≡ vec_capacity into }
    ensures seats { total seats_in result.items ≡ seats_in worker }
    ensures share { (k : ℕ) → (passed worker).halvings + count ≤ k
        → total (share_of k) result.items ≡ share_of k worker }
    ensures entries { (weigh : FilerEntry → ℕ)
        → total (entries_by weigh) result.items ≡ entries_by weigh worker }
    ensures put { (weigh : messages.Message → ℕ)
        → total (puts_by weigh) result.items ≡ puts_by weigh worker }
    ensures picked { (weigh : messages.Message → ℕ)
        → total (picks_by weigh) result.items ≡ picks_by weigh worker }
{
    for _ in 1..count {
        let (first, second) = worker.split(filer);
        worker = first;
        into.push_reserved(second);
    }
    into.push_reserved(worker);
    into
}
