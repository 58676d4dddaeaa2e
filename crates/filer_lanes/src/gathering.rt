//! All lanes of a filer, put together.

ghost use Rattle.std.specs.Prelude.{◌≡◌, ◌<◌, ◌≤◌, ◌+◌, ◌*◌, ℕ, All};
ghost use Rattle.std.specs.Prelude.{◌∷◌, ◌++◌, [], List, map, vec_len, vec_capacity};
ghost use Rattle.depot.specs.Words.{splits_left, view};
ghost use Rattle.depot_rule.specs.History.{entries_of};
ghost use Rattle.depot_rule.specs.Placed.{HasPlaced};
ghost use Rattle.depot_rule.specs.Sums.{total};
ghost use Rattle.filer_lanes.specs.Ends.{HaveStopped};
ghost use Rattle.filer_lanes.specs.Lanes.{admitted_by, entries_by, finished_by, seats_of};
ghost use Rattle.filer_lanes.specs.Lanes.{AreLanesOf, IsLaneOf};
ghost use Rattle.filer_lanes.specs.Remains.{calls_in, AreRemainsIn};
ghost use Rattle.granted_calls.specs.Balance.{FilerEntry, Weight};

use crate::remains::Remains;
use crate::room::LaneBuffers;
use connections::Device;
use granted_calls::Filer;
use lanes::{Lane, LaneParts};
use std::sync::Wait;
use tends::{Left, drain_behind, push_batch, push_kept};
use turns::WorkerParts;

/// What is left of one lane, as the first that is put together.
fn begin<D: Device + Drop, R: Wait + Drop>(
    filer: &Filer,
    rt: &R,
    lane: Lane<D, R>,
    room: LaneBuffers,
) -> Remains
    requires of { IsLaneOf filer.now lane }
    requires some { 0 < room.lanes }
    ensures inside { AreRemainsIn filer.now result }
    ensures seats { splits_left result.seat + 1 ≡ seats_of lane }
    ensures calls { (weight : Weight) → calls_in weight result ≡ admitted_by weight lane }
    ensures entries { (weight : FilerEntry → ℕ)
        → total weight (entries_of (view result.seat)) ≡ finished_by weight lane }
    ensures placed { HasPlaced (view result.seat) (entries_by lane ∷ []) }
    ensures len { (vec_len result.hands ≤ 1) × (vec_len result.kept ≤ 1)
        × (vec_len result.waiting ≤ 1024) }
    ensures room { (room.lanes ≤ vec_capacity result.hands)
        × (room.lanes ≤ vec_capacity result.kept)
        × (1024 * room.lanes ≤ vec_capacity result.waiting) }
{
    let LaneBuffers {
        lanes: _,
        mut hands,
        mut kept,
        waiting,
    } = room;
    let LaneParts {
        worker,
        queue,
        pass,
    } = lane.into_parts();
    let WorkerParts {
        mut seat,
        pass: picks,
        hand,
        kept: message,
    } = worker.into_parts();
    filer.depot().look_back(&mut seat);
    push_batch(&mut hands, hand);
    push_kept(&mut kept, message);
    let waiting = drain_behind(&queue, rt, queue.join_pass(pass, picks), waiting);
    Remains {
        seat,
        hands,
        kept,
        waiting,
    }
}

/// What is left of one lane more, put to what is left of others.
fn join<D: Device + Drop, R: Wait + Drop>(
    filer: &Filer,
    rt: &R,
    remains: Remains,
    lane: Lane<D, R>,
) -> Remains
    requires inside { AreRemainsIn filer.now remains }
    requires of { IsLaneOf filer.now lane }
    requires room { (vec_len remains.hands + 1 ≤ vec_capacity remains.hands)
        × (vec_len remains.kept + 1 ≤ vec_capacity remains.kept)
        × (vec_len remains.waiting + 1024 ≤ vec_capacity remains.waiting) }
    ensures inside { AreRemainsIn filer.now result }
    ensures seats { splits_left result.seat ≡ splits_left remains.seat + seats_of lane }
    ensures calls { (weight : Weight)
        → calls_in weight result ≡ calls_in weight remains + admitted_by weight lane }
    ensures entries { (weight : FilerEntry → ℕ)
        → total weight (entries_of (view result.seat))
        ≡ total weight (entries_of (view remains.seat)) + finished_by weight lane }
    ensures placed { (lists : List (List FilerEntry)) → HasPlaced (view remains.seat) lists
        → HasPlaced (view result.seat) (entries_by lane ∷ lists) }
    ensures len { (vec_len result.hands ≤ vec_len remains.hands + 1)
        × (vec_len result.kept ≤ vec_len remains.kept + 1)
        × (vec_len result.waiting ≤ vec_len remains.waiting + 1024) }
    ensures room { (vec_capacity result.hands ≡ vec_capacity remains.hands)
        × (vec_capacity result.kept ≡ vec_capacity remains.kept)
        × (vec_capacity result.waiting ≡ vec_capacity remains.waiting) }
{
    let Remains {
        seat,
        mut hands,
        mut kept,
        waiting,
    } = remains;
    let LaneParts {
        worker,
        queue,
        pass,
    } = lane.into_parts();
    let WorkerParts {
        seat: mut other,
        pass: picks,
        hand,
        kept: message,
    } = worker.into_parts();
    filer.depot().look_back(&mut other);
    push_batch(&mut hands, hand);
    push_kept(&mut kept, message);
    let waiting = drain_behind(&queue, rt, queue.join_pass(pass, picks), waiting);
    Remains {
        seat: filer.depot().join_seat(seat, other),
        hands,
        kept,
        waiting,
    }
}

/// What is left of lanes, put to what is left of others.
fn join_all<D: Device + Drop, R: Wait + Drop>(
    filer: &Filer,
    rt: &R,
    mut remains: Remains,
    mut lanes: Vec<Lane<D, R>>,
) -> Remains
    requires inside { AreRemainsIn filer.now remains }
    requires of { All (IsLaneOf filer.now) lanes.items }
    requires room { (vec_len remains.hands + vec_len lanes ≤ vec_capacity remains.hands)
        × (vec_len remains.kept + vec_len lanes ≤ vec_capacity remains.kept)
        × (vec_len remains.waiting + 1024 * vec_len lanes ≤ vec_capacity remains.waiting) }
    ensures inside { AreRemainsIn filer.now result }
    ensures seats { splits_left result.seat
        ≡ splits_left remains.seat + total seats_of lanes.items }
    ensures calls { (weight : Weight) → calls_in weight result
        ≡ calls_in weight remains + total (admitted_by weight) lanes.items }
    ensures entries { (weight : FilerEntry → ℕ)
        → total weight (entries_of (view result.seat))
        ≡ total weight (entries_of (view remains.seat))
        + total (finished_by weight) lanes.items }
    ensures placed { (lists : List (List FilerEntry)) → HasPlaced (view remains.seat) lists
        → HasPlaced (view result.seat) (map entries_by lanes.items ++ lists) }
{
    while let Some(lane) = lanes.pop() {
        remains = join(filer, rt, remains, lane);
    }
    remains
}

/// Puts all lanes of a filer together, whose connections are closed with that. The seats are all 64
/// of the depot. Each call that a lane admitted was finished, is kept or waits, once for each time
/// that it was admitted. It takes no memory.
pub(crate) fn gather_lanes<D: Device + Drop, R: Wait + Drop>(
    filer: &Filer,
    rt: &R,
    mut lanes: Vec<Lane<D, R>>,
    room: LaneBuffers,
) -> Left
    requires lanes { AreLanesOf filer.now lanes.items }
    requires room { vec_len lanes ≤ room.lanes }
    ensures { HaveStopped filer.now lanes.items result }
{
    let lane = match lanes.pop() {
        Some(lane) => lane,
        None => unreachable!(),
    };
    let first = begin(filer, rt, lane, room);
    let Remains {
        seat,
        hands,
        kept,
        waiting,
    } = join_all(filer, rt, first, lanes);
    Left {
        seat,
        hands,
        kept,
        waiting,
    }
}
