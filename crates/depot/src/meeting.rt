//! Seats split, joined, met.

ghost use Rattle.std.specs.Prelude.{◌≡◌, ◌⊎◌, ◌<◌, ◌≤◌, ◌+◌, ℕ, IfOk, IfErr};
ghost use Rattle.depot_rule.specs.Shares.{Has};
ghost use Rattle.depot_rule.specs.Seats.{fresh, merge};
ghost use Rattle.depot_rule.specs.Plays.{AreApart, HaveSeenOne, KeepEntries};
ghost use Rattle.depot_rule.specs.Sums.{total};
ghost use Rattle.depot_rule.specs.History.{entries_of};
ghost use Rattle.depot.specs.Words.{view, splits_left, HasTold, HasGrants};

use crate::plays::{Alike, Meet, Merge, PartAgain, SplitOff};
use crate::seats::Seat;
use crate::table::{Board, TableSeat};
use atomic_table::Badge;
use depot_rule::machine::Machine;
use std::mem;

/// Splits a second seat off, which has seen the same and has nothing open. A seat with no split
/// left comes back.
pub fn split_seat<M: Machine>(
    board: &Board<M>,
    seat: Seat<M>,
) -> Result<(Seat<M>, Seat<M>), Seat<M>>
    requires table { (seat.badge.table_id ≡ board.now.table_id) × (0 < board.now.table_id.words) }
    ensures table { IfOk result (λ two. (two.0.badge.table_id ≡ seat.badge.table_id)
        × (two.1.badge.table_id ≡ seat.badge.table_id)) }
    ensures split { IfOk result (λ two. (0 < splits_left seat)
        × (view two.0 ≡ record (view seat) { parts = splits_left seat })
        × (view two.1 ≡ fresh (view seat))) }
    ensures splits { IfOk result (λ two. (splits_left two.0 + 1 ≡ splits_left seat)
        × (splits_left two.1 ≡ 0)) }
    ensures refused { IfErr result (λ same. (splits_left seat ≡ 0) × (same ≡ seat)) }
{
    if seat.splits == 0 {
        return Err(seat);
    }
    let Seat { badge, splits } = seat;
    let mut place: TableSeat<M> = badge.into_seat();
    let second = board.split_seat::<SplitOff>(&mut place);
    Ok((
        Seat {
            badge: place.into_badge(),
            splits: splits - 1,
        },
        Seat {
            badge: second.into_badge(),
            splits: 0,
        },
    ))
}

/// Makes one seat of two, with the splits of both and one more, and the grants and entries of both.
pub fn join_seat<M: Machine>(board: &Board<M>, first: Seat<M>, second: Seat<M>) -> Seat<M>
    requires table { (first.badge.table_id ≡ board.now.table_id)
        × (second.badge.table_id ≡ board.now.table_id)
        × (0 < board.now.table_id.words) }
    ensures table { result.badge.table_id ≡ first.badge.table_id }
    ensures joined { view result ≡ merge (view first) (view second) }
    ensures apart { AreApart (view first) (view second) }
    ensures grants { HasGrants (view first) result × HasGrants (view second) result }
    ensures no_other { (b : ℕ) (g : _)
        → Has (view result) b g
        → Has (view first) b g ⊎ Has (view second) b g }
    ensures one_history { HaveSeenOne (view first) (view second) }
    ensures entries { (weigh : _ → ℕ) → total weigh (entries_of (view result))
        ≡ total weigh (entries_of (view first)) + total weigh (entries_of (view second)) }
    ensures splits { splits_left result ≡ splits_left first + splits_left second + 1 }
{
    let mut first = first;
    let mut second = second;
    meet(board, &mut first, &mut second);
    let Seat { badge, splits } = first;
    let Seat {
        badge: other_badge,
        splits: other_splits,
    } = second;
    let mut place: TableSeat<M> = badge.into_seat();
    let other: TableSeat<M> = other_badge.into_seat();
    board.join_seat::<Merge>(&mut place, other);
    Seat {
        badge: place.into_badge(),
        splits: splits + other_splits + 1,
    }
}

/// Two seats tell each other what they have seen.
pub fn meet<M: Machine>(board: &Board<M>, one: &mut Seat<M>, other: &mut Seat<M>)
    requires table { (one.old.badge.table_id ≡ board.now.table_id)
        × (other.old.badge.table_id ≡ board.now.table_id)
        × (0 < board.now.table_id.words) }
    ensures table { (one.new.badge.table_id ≡ one.old.badge.table_id)
        × (other.new.badge.table_id ≡ other.old.badge.table_id) }
    ensures one { HasTold one.old other.old one.old one.new }
    ensures other { HasTold one.old other.old other.old other.new }
    ensures alike { let v = view one.old in let w = view other.old in
        (v.tree ≡ w.tree) × (v.parts + w.parts ≤ 64) × AreApart v w × KeepEntries v w }
    ensures one_history { HaveSeenOne (view one.old) (view other.old) }
    ensures entries { (entries_of (view one.new) ≡ entries_of (view one.old))
        × (entries_of (view other.new) ≡ entries_of (view other.old)) }
    ensures splits { (splits_left one.new ≡ splits_left one.old)
        × (splits_left other.new ≡ splits_left other.old) }
{
    let mut first: TableSeat<M> = mem::replace(&mut one.badge, Badge::blank()).into_seat();
    let second: TableSeat<M> = mem::replace(&mut other.badge, Badge::blank()).into_seat();
    board.join_seat::<Meet>(&mut first, second);
    board.load::<Alike>(&mut first, 0);
    let second = board.split_seat::<PartAgain>(&mut first);
    one.badge = first.into_badge();
    other.badge = second.into_badge();
}
