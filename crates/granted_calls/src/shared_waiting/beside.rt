//! Calls of who has two passes of a queue. For the call the first has what both have.

ghost use Rattle.std.specs.Prelude.{◌≡◌, ◌<◌, ◌≤◌, MatchOption, MatchResult};
ghost use Rattle.crossbeam_queue.specs.Fifo.{Held};
ghost use Rattle.crossbeam_queue.specs.Passes.{view, ruled_capacity, IsPassOf};
ghost use Rattle.granted_calls.specs.shared_waiting.Balance.{added, taken, both, spent, grown};
ghost use Rattle.granted_calls.specs.shared_waiting.Balance.{HasGrown, Leaves, FitsIn};

use crate::shared_waiting::view::{
    Fair, Fitting, Gives, Glue, Pair, Parts, Picks, Puts, Takes, View,
};
use crossbeam_queue::RuledArrayQueue;
use std::sync::Wait;

/// The first pass takes in what the second has.
fn take_in<T: Fitting<K>, K>(
    queue: &RuledArrayQueue<T, View<T, K>, Fair>,
    seat: &mut crossbeam_queue::Pass<T, View<T, K>>,
    other: &mut crossbeam_queue::Pass<T, View<T, K>>,
)
    requires of { IsPassOf queue.now seat.old × IsPassOf queue.now other.old }
    requires live { 0 < (view seat.old).share }
    ensures of { IsPassOf queue.now seat.new × IsPassOf queue.now other.new }
    ensures both { view seat.new ≡ both (view seat.old) (view other.old) }
    ensures spent { view other.new ≡ spent }
{
    let all = queue.another::<Gives>(other);
    queue.absorb::<Glue>(seat, all);
}

/// The first pass gives back what the second had, and keeps what was added since.
fn give_back<T: Fitting<K>, K, J: Pair<View<T, K>>>(
    queue: &RuledArrayQueue<T, View<T, K>, Fair>,
    seat: &mut crossbeam_queue::Pass<T, View<T, K>>,
    other: &mut crossbeam_queue::Pass<T, View<T, K>>,
)
    requires of { IsPassOf queue.now seat.old × IsPassOf queue.now other.old }
    requires spent { view other.old ≡ spent }
    requires live { (0 < J.own.share) × (0 < J.other.share) }
    requires key { J.other.key ≡ J.own.key }
    requires grown { HasGrown J.own J.other (view seat.old) }
    ensures of { IsPassOf queue.now seat.new × IsPassOf queue.now other.new }
    ensures own { view seat.new ≡ grown J.own J.other (view seat.old) }
    ensures other { view other.new ≡ J.other }
{
    let back = queue.another::<Parts<J>>(seat);
    queue.absorb::<Takes>(other, back);
}

/// Picks a message by the first of two passes.
pub(crate) fn pick_by<T: Fitting<K>, K, R: Wait, J: Pair<View<T, K>>>(
    queue: &RuledArrayQueue<T, View<T, K>, Fair>,
    rt: &R,
    seat: &mut crossbeam_queue::Pass<T, View<T, K>>,
    other: &mut crossbeam_queue::Pass<T, View<T, K>>,
) -> Option<T>
    requires of { IsPassOf queue.now seat.old × IsPassOf queue.now other.old }
    requires live { (0 < J.own.share) × (0 < J.other.share) }
    requires key { J.other.key ≡ J.own.key }
    requires pair { (view seat.old ≡ J.own) × (view other.old ≡ J.other) }
    ensures of { IsPassOf queue.now seat.new × IsPassOf queue.now other.new }
    ensures live { 0 < (view seat.new).share }
    ensures other { view other.new ≡ J.other }
    ensures rule { MatchOption result
        ((view seat.new ≡ J.own) × Held 0 (Leaves (both J.own J.other)))
        (λ message. (view seat.new ≡ taken J.own message) × FitsIn T.fits J.own.key message) }
{
    take_in::<T, K>(queue, seat, other);
    let picked = queue.pop_as::<Picks, R>(rt, seat);
    give_back::<T, K, J>(queue, seat, other);
    picked
}

/// Puts a message by the first of two passes.
pub(crate) fn admit_by<T: Fitting<K>, K, R: Wait, J: Pair<View<T, K>>>(
    queue: &RuledArrayQueue<T, View<T, K>, Fair>,
    rt: &R,
    seat: &mut crossbeam_queue::Pass<T, View<T, K>>,
    other: &mut crossbeam_queue::Pass<T, View<T, K>>,
    message: T,
) -> Result<(), T>
    requires of { IsPassOf queue.now seat.old × IsPassOf queue.now other.old }
    requires live { (0 < J.own.share) × (0 < J.other.share) }
    requires key { J.other.key ≡ J.own.key }
    requires pair { (view seat.old ≡ J.own) × (view other.old ≡ J.other) }
    requires fits { FitsIn T.fits J.own.key message }
    ensures of { IsPassOf queue.now seat.new × IsPassOf queue.now other.new }
    ensures live { 0 < (view seat.new).share }
    ensures other { view other.new ≡ J.other }
    ensures rule { MatchResult result
        (λ _. view seat.new ≡ added J.own message)
        (λ back. (back ≡ message) × (view seat.new ≡ J.own)
        × Held (ruled_capacity queue.now) (Leaves (both J.own J.other))) }
{
    take_in::<T, K>(queue, seat, other);
    let put = queue.push_as::<Puts, R>(rt, seat, message);
    give_back::<T, K, J>(queue, seat, other);
    put
}

/// How many messages there were by both passes at one moment of the call.
pub(crate) fn count_by<T: Fitting<K>, K, R: Wait, J: Pair<View<T, K>>>(
    queue: &RuledArrayQueue<T, View<T, K>, Fair>,
    rt: &R,
    seat: &mut crossbeam_queue::Pass<T, View<T, K>>,
    other: &mut crossbeam_queue::Pass<T, View<T, K>>,
) -> usize
    requires of { IsPassOf queue.now seat.old × IsPassOf queue.now other.old }
    requires live { (0 < J.own.share) × (0 < J.other.share) }
    requires key { J.other.key ≡ J.own.key }
    requires pair { (view seat.old ≡ J.own) × (view other.old ≡ J.other) }
    ensures of { IsPassOf queue.now seat.new × IsPassOf queue.now other.new }
    ensures live { 0 < (view seat.new).share }
    ensures own { view seat.new ≡ J.own }
    ensures other { view other.new ≡ J.other }
    ensures most { result ≤ ruled_capacity queue.now }
    ensures held { Held result (Leaves (both J.own J.other)) }
{
    take_in::<T, K>(queue, seat, other);
    let count = queue.len_as::<Picks, R>(rt, seat);
    give_back::<T, K, J>(queue, seat, other);
    count
}
