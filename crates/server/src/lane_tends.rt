//! The tends of a lane.

ghost use Rattle.std.specs.Prelude.{◌≡◌};
ghost use Rattle.lanes.specs.Words.{filer_in, worker_in};
ghost use Rattle.filer_lanes.specs.Lanes.{Stays};
ghost use Rattle.tends.specs.declared.tending.Found as found;
ghost use Rattle.tends.specs.Rests.{may_sleep, HasTended};
ghost use Rattle.granted_calls.specs.Filers.{layout_in};

use crate::common::Common;
use crate::pace::Pace;
use crate::socket::Socket;
use lanes::Lane;
use nfs_values::Moment;
use tends::{Found, found_by};

/// Makes the next tend of a lane, and counts it.
pub(crate) fn tend<R>(lane: &mut Lane<Socket, R>, pace: &mut Pace)
    ensures stays { Stays lane.old lane.new }
    ensures tended { (what : found.Found) × HasTended (layout_in (filer_in lane.old))
        (worker_in lane.old) pace.old.tending what (worker_in lane.new) pace.new.tending }
{
    let empty = lane.worker().has_empty_hand();
    let next = lane.worker().next_tend(lane.filer(), pace.tending.made);
    let found = found_by(lane.tend(next));
    pace.tending.count(empty, found);
}

/// Begins to tend anew, where calls may have left blocks to tend and no lane has begun in the
/// millisecond of this moment.
pub(crate) fn begin_anew(pace: &mut Pace, common: &Common, moment: Moment) {
    if common.untended.take(moment) {
        pace.tending.begin_anew();
    }
}

/// Puts down what is in the lane's hand, if anything is.
pub(crate) fn put_down<R>(lane: &mut Lane<Socket, R>, pace: &mut Pace)
    ensures { Stays lane.old lane.new }
{
    if !lane.worker().has_empty_hand() {
        tend(lane, pace);
    }
}

/// Whether tends over all volumes and ranges moved nothing, so that a lane makes none.
pub(crate) fn may_rest<R>(lane: &Lane<Socket, R>, pace: &Pace) -> bool
    ensures { result ≡ may_sleep (layout_in (filer_in lane.now)) (worker_in lane.now)
        pace.now.tending }
{
    pace.tending.may_sleep(lane.filer(), lane.worker())
}
