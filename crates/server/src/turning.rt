//! The turns of a round, and the tends between them.

ghost use Rattle.filer_lanes.specs.Lanes.{Stays};

use crate::common::Common;
use crate::lane_tends::{begin_anew, may_rest, put_down, tend};
use crate::late_word::LateWord;
use crate::pace::Pace;
use crate::socket::Socket;
use crate::time_limit::TimeLimit;
use affinity::Kind;
use granted_calls::{Chained, Unwatched};
use lanes::Lane;
use nfs_values::Moment;
use std::cell::Cell;
use std::rt::Clock;
use std::sync::Wait;

/// The most turns of a round.
const MOST_TURNS: usize = 64;

/// The most of them under one grant.
const MOST_CHAINED: usize = 32;

/// The most tends after turns that fell short, while calls may wait; one more may put down what is
/// in the hand.
const MOST_TENDS: usize = 256;

/// Tells all lanes that calls may have left blocks, where some that may were admitted since this
/// lane last had no message.
fn tell_left<R>(lane: &Lane<Socket, R>, pace: &mut Pace, common: &Common) {
    let leaving = lane.leaving_calls();
    if leaving != pace.left {
        common.untended.leave();
    }
    if lane.waiting() == 0 {
        pace.left = leaving;
    }
}

/// What came of turns under one grant.
#[derive(Clone, Copy)]
struct Ran {
    chained: Chained,
    /// The kind of the node, where a call had its reply there and another was to be picked.
    ran_on: Option<Kind>,
}

/// Whether the stock of a volume may have had too few numbers for one of the calls: calls ran under
/// Volume since one moved (which may have moved to Volume Logical alone, so that a call at home
/// under Volume is taken for it), or the last one moved from Volume Logical.
fn fell_short(pace: &mut Pace, ran: &Ran) -> bool {
    match ran.ran_on {
        Some(Kind::Volume) => pace.take_move(),
        Some(Kind::VolumeLogical) => matches!(ran.chained, Chained::Moved),
        _ => false,
    }
}

/// Makes turns under one grant, at most this many.
fn run_some<R: Wait + Clock>(
    lane: &mut Lane<Socket, R>,
    pace: &Pace,
    common: &Common,
    limit: &TimeLimit<'_, R>,
    moment: Moment,
    most: usize,
) -> Ran
    ensures { Stays lane.old lane.new }
{
    let word = LateWord {
        wanted: &common.wanted,
        patience: pace.patience,
        ran_on: Cell::new(None),
        limit,
    };
    let chained = match common.counter(lane.index()) {
        Some(counter) => {
            let chained = lane.turns(&counter, &word, moment, most);
            counter.see(&chained);
            chained
        }
        None => lane.turns(&Unwatched, &word, moment, most),
    };
    Ran {
        chained,
        ran_on: word.ran_on.get(),
    }
}

/// Tends though calls may wait, since a stock had too few numbers for one of them. What this many
/// tends leave is for the next lane without a message.
fn restock<R>(lane: &mut Lane<Socket, R>, pace: &mut Pace, common: &Common, moment: Moment)
    ensures { Stays lane.old lane.new }
{
    common.untended.leave();
    if may_rest(lane, pace) {
        begin_anew(pace, common, moment);
    }
    for _ in 0..MOST_TENDS {
        if may_rest(lane, pace) {
            return;
        }
        tend(lane, pace);
    }
    put_down(lane, pace);
    common.untended.leave();
}

/// Whether a lane goes on with its turns after what came of the last ones.
fn goes_on<R>(
    lane: &mut Lane<Socket, R>,
    pace: &mut Pace,
    common: &Common,
    chained: &Chained,
) -> bool
    ensures { Stays lane.old lane.new }
{
    match chained {
        Chained::Done => true,
        Chained::Moved => {
            common.untended.leave();
            put_down(lane, pace);
            pace.move_on()
        }
        Chained::Busy { node: _, word: _ } => pace.refuse(),
        Chained::Worn => pace.refuse(),
        Chained::Idle => false,
    }
}

/// Makes turns until no message waits, or 64, or for a millisecond, and tends between them where a
/// stock fell short. Answers whether the last turn found none.
pub(crate) fn run_calls<R: Wait + Clock>(
    rt: &R,
    lane: &mut Lane<Socket, R>,
    pace: &mut Pace,
    common: &Common,
    moment: Moment,
) -> bool
    ensures { Stays lane.old lane.new }
{
    let mut left = MOST_TURNS;
    let limit = TimeLimit::new(rt);
    for _ in 0..MOST_TURNS {
        let before = lane.waiting();
        if left == 0 || limit.is_over() || before == 0 && may_rest(lane, pace) {
            return false;
        }
        let most = left.min(MOST_CHAINED);
        let ran = run_some(lane, pace, common, &limit, moment, most);
        let finished = before.saturating_sub(lane.waiting());
        left = left.saturating_sub(finished.max(1));
        if finished > 0 {
            pace.finish();
            tell_left(lane, pace, common);
        }
        if fell_short(pace, &ran) {
            restock(lane, pace, common, moment);
        }
        if !goes_on(lane, pace, common, &ran.chained) {
            return matches!(ran.chained, Chained::Idle);
        }
    }
    false
}
