//! Calls on a desk of numbers that are made at once, on a volume's block numbers and their ranges.

ghost use Rattle.std.specs.Prelude.{◌≡◌, true, IfErr};
ghost use Rattle.depot.specs.Words.{IsNodeOf};
ghost use Rattle.desk.specs.laws.Books.{IsIdle};
ghost use Rattle.desk.specs.Words.{books, IsKept};
ghost use Rattle.depot_rows.specs.Counting.{Counts};

use crate::counters::{Counter, One};
use crate::trial::same;
use crate::turns::{Counters, finish, hold, numbers_left, open};
use affinity::{Affinity, CallNode, Kind, Layout};
use depot::trial::adding::Change;
use depot_rule::machine::Machine;
use desk::{Desk, NodeKinds, WorkOn};
use parcels::{Node, Numbers, Parcel, RangeNode, VbnNode};
use std::process::Abort;

/// Work on the number of a node.
#[derive(Clone, Copy)]
enum Count<C> {
    /// Counts up.
    Up(C),
    /// Isn't done: the number stays.
    Undone,
}

/// Work that wasn't done.
#[derive(Clone, Copy, PartialEq, Eq)]
struct NotDone;

impl<N: Node<Parcel<Numbers>>, C: Counter<N> + Copy> WorkOn<Parcel<Numbers>, N, u64, NotDone>
    for Count<C> {
    ghost asks = { λ count layout affinity f. Unit {0} };

    ghost does = { λ count. Counts };

    fn work_on(self, _: &Layout, _: Affinity, held: &mut N::Held) -> Result<u64, NotDone> {
        match self {
            Count::Up(_) => Ok(C::add_one(held)),
            Count::Undone => Err(NotDone),
        }
    }
}

/// Whether a worker is idle and the layout has an affinity, of this kind.
fn may_make<M: Machine, K: NodeKinds<M::Parcel>>(
    desk: &Desk<M, K>,
    kind: Kind,
    worker: usize,
    affinity: Affinity,
) -> bool
    ensures idle { result ≡ true → IsIdle (books desk.now) worker }
    ensures node { result ≡ true → IsNodeOf (books desk.now).layout kind affinity }
{
    if affinity.kind() != kind || !desk.is_idle(worker) {
        return false;
    }
    desk.layout().contains(affinity)
}

/// A call that is made at once: the sum, or that it wasn't done. Where it is refused, the work
/// comes back with the number of the refusal; without one where the worker isn't idle or there is
/// no such node.
fn make<N: Node<Parcel<Numbers>>, C: Counter<N> + Copy>(
    desk: &mut Counters,
    worker: usize,
    affinity: Affinity,
    count: Count<C>,
) -> Result<Result<u64, NotDone>, (Count<C>, Option<u32>)>
    requires kept { IsKept desk.old }
    ensures kept { IsKept desk.new }
    ensures same { IfErr result (λ _. books desk.new ≡ books desk.old) }
{
    if !may_make(desk, N::KIND, worker, affinity) {
        return Err((count, None));
    }
    match desk.make::<N, Change, u64, NotDone, Count<C>>(worker, affinity, &Change::Add(1), count) {
        Ok(outcome) => Ok(outcome),
        Err((back, refusal)) => Err((back, Some(refusal.number()))),
    }
}

/// A worker's call, in whose midst another's is made at once and refused: the work that comes back,
/// and the number of the refusal, if the other worker is idle and its node is there. Then the first
/// call is finished. Nothing where the first call doesn't begin, or the second isn't refused.
fn refuse<N: Node<Parcel<Numbers>>, C: Counter<N> + Copy>(
    desk: &mut Counters,
    worker: usize,
    home: CallNode,
    other: usize,
    affinity: Affinity,
    count: Count<C>,
) -> Option<(Count<C>, Option<u32>)>
    requires kept { IsKept desk.old }
    ensures kept { IsKept desk.new }
{
    if !hold(desk, worker, home) {
        return None;
    }
    match make::<N, C>(desk, other, affinity, count) {
        Ok(_) => None,
        Err(refused) => {
            finish(desk, worker, &Change::Touch, 0);
            Some(refused)
        }
    }
}

const VBN: Affinity = Affinity::VolumeVbn(0);

const RANGE: Affinity = Affinity::Range {
    volume: 0,
    range: 0,
};

/// Calls on a node, one after the other, and what comes of each.
const ROWS: [(&str, Count<One>, Result<u64, NotDone>); 4] = [
    ("the first", Count::Up(One), Ok(1)),
    ("not done", Count::Undone, Err(NotDone)),
    ("the second", Count::Up(One), Ok(2)),
    ("the third", Count::Up(One), Ok(3)),
];

#[test]
fn made_at_once(rt: HostRuntime) {
    let mut desk = open(&rt, 1);
    for (row, count, outcome) in &ROWS {
        let on_range = make::<RangeNode, One>(&mut desk, 0, RANGE, *count);
        same(&rt, row, &on_range.ok(), &Some(*outcome));
        let on_vbn = make::<VbnNode, One>(&mut desk, 0, VBN, *count);
        same(&rt, row, &on_vbn.ok(), &Some(*outcome));
    }
    same(&rt, "left", &numbers_left(&rt, desk, 1), &Some([3, 3, 0]));
}

/// Looks whether a call of worker 0 on a node of volume 0 is refused while worker 1 has the volume,
/// and its work can be done once that is home.
fn look_at_refused<N: Node<Parcel<Numbers>>, C: Counter<N> + Copy>(
    rt: &impl Abort,
    row: &str,
    desk: &mut Counters,
    affinity: Affinity,
    counter: C,
)
    requires kept { IsKept desk.old }
    ensures kept { IsKept desk.new }
{
    let count = Count::Up(counter);
    let refused = refuse::<N, C>(desk, 1, CallNode::Volume(0), 0, affinity, count);
    let (count, number) = refused.expect(rt, row);
    same(rt, row, &number, &Some(21));
    let made = make::<N, C>(desk, 0, affinity, count);
    same(rt, row, &made.ok(), &Some(Ok(1)));
}

#[test]
fn refused_at_once(rt: HostRuntime) {
    let mut desk = open(&rt, 2);
    look_at_refused::<RangeNode, One>(&rt, "range", &mut desk, RANGE, One);
    look_at_refused::<VbnNode, One>(&rt, "block numbers", &mut desk, VBN, One);
    same(&rt, "left", &numbers_left(&rt, desk, 2), &Some([1, 1, 0]));
}
